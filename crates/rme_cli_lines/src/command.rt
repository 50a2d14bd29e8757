//! The commands that only read and write lines.

use crate::check::check;
use crate::image::run_images;
use crate::lines::given_lines;
use rme_cli_messages::{CliFault, explanations};
use rme_cli_options::{Diagnostics, LineTask};
use rme_line_diagnose::Vocabulary;
use rme_line_engine::{run_lines, transcript_lines};
use std::io;

/// Executes a command over the standard streams of the process, and answers its status.
///
/// An error is the fault that ended it early; `--help` says what a command has done by then.
pub fn perform_lines(rt: &HostRuntime, task: LineTask) -> Result<u8, CliFault> {
    match task {
        LineTask::Run(diagnostics) => run(rt, diagnostics),
        LineTask::Images(images, diagnostics) => run_images(rt, images, diagnostics),
        LineTask::Transcript(diagnostics) => transcribe(rt, diagnostics),
        LineTask::Check => check(rt),
        LineTask::Explain(words) => explain(rt, &words),
    }
}

/// Answers the lines of the standard input, and answers the status.
fn run(rt: &HostRuntime, diagnostics: Diagnostics) -> Result<u8, CliFault> {
    let mut lines = given_lines(rt, Vocabulary::Commands, diagnostics)?;
    run_lines(rt.alloc(), &mut lines, &mut io::writer(rt))?;
    Ok(0)
}

/// Executes the lines of the standard input, writes a transcript, and answers the status.
fn transcribe(rt: &HostRuntime, diagnostics: Diagnostics) -> Result<u8, CliFault> {
    let mut lines = given_lines(rt, Vocabulary::Transcript, diagnostics)?;
    transcript_lines(rt.alloc(), &mut lines, &mut io::writer(rt))?;
    Ok(0)
}

/// Prints the explanations of these words, and answers the status.
fn explain(rt: &HostRuntime, words: &[String]) -> Result<u8, CliFault> {
    let text = explanations(rt.alloc(), words)?;
    match print!(rt; "{text}") {
        Ok(()) => Ok(0),
        Err(_) => Err(CliFault::WriteFailed),
    }
}
