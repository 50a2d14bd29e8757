//! `rme run` and `rme run --transcript` over the standard streams: the part of the program `rme` for a first run.
//!
//! It is a separate program so that a first run need not build the crates of options, explanations, checks, image
//! files, pictures, threads and sockets. It only has these words; `rme_cli` is the whole program.
#![tactic(auto)]

use rme_line_engine::{run_lines, transcript_lines};
use rme_wire::{EngineFault, LineReader};
use std::process::ExitCode;
use std::{env, io};

/// The status if the words request something that this program does not have.
const NOT_HERE: u8 = 2;

/// The output for the lines.
#[derive(Clone, Copy)]
enum RunOutput {
    Answers,
    Transcript,
}

fn main(rt: HostRuntime) -> ExitCode {
    match run_words(&rt) {
        Ok(status) => ExitCode::from(status),
        Err(fault) => {
            let _ = eprintln!(rt; "fault: {fault}");
            ExitCode::from(status_of(fault))
        }
    }
}

/// Executes the command line, and answers the status.
fn run_words(rt: &HostRuntime) -> Result<u8, EngineFault> {
    let Some(output) = output_asked(rt)? else {
        let _ = eprintln!(rt;
            "rme_cli_run does run and run --transcript alone: the whole program is rme_cli"
        );
        return Ok(NOT_HERE);
    };
    let mut lines = LineReader::new(rt.alloc(), rt.stdin())?;
    match output {
        RunOutput::Answers => run_lines(rt.alloc(), &mut lines, &mut io::writer(rt))?,
        RunOutput::Transcript => transcript_lines(rt.alloc(), &mut lines, &mut io::writer(rt))?,
    }
    Ok(0)
}

/// The requested output, if this program has it.
fn output_asked(rt: &HostRuntime) -> Result<Option<RunOutput>, EngineFault> {
    let Ok(args) = env::args(rt) else {
        return Ok(None);
    };
    let words: Vec<String> = args.collect(rt.alloc())?;
    match (word_of(&words, 1), word_of(&words, 2), words.len()) {
        ("run", _, 2) => Ok(Some(RunOutput::Answers)),
        ("run", "--transcript", 3) => Ok(Some(RunOutput::Transcript)),
        _ => Ok(None),
    }
}

/// The word at this index; empty if there is none.
fn word_of(words: &[String], place: usize) -> &str {
    match words.get(place) {
        Some(word) => word.as_str(),
        None => "",
    }
}

/// The status after a fault, the same as in the whole program.
fn status_of(fault: EngineFault) -> u8 {
    match fault {
        EngineFault::ReadFailed => 3,
        EngineFault::WriteFailed => 4,
        EngineFault::NoMemory => 5,
    }
}
