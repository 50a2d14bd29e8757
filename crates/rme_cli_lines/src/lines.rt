//! The lines of the standard input, with diagnostics on the standard error.

use rme_cli_options::Diagnostics;
use rme_line_diagnose::{DiagnosedReader, Reason, ReasonObserver, Vocabulary};
use rme_wire::LineReader;
use std::alloc::AllocError;
use std::io::Stdin;

/// Reports on the standard error why lines are refused.
#[derive(Clone, Copy, Drop)]
pub struct StderrReasons<'a> {
    rt: &'a HostRuntime,
}

impl ReasonObserver for StderrReasons<'_> {
    fn reason_found(&self, line: u64, why: &Reason) {
        let _ = eprintln!(self.rt; "rme: line {line}: {why}");
    }
}

/// The lines of the standard input, in this vocabulary.
pub fn given_lines<'a>(
    rt: &'a HostRuntime,
    vocabulary: Vocabulary,
    diagnostics: Diagnostics,
) -> Result<LineReader<DiagnosedReader<Stdin, StderrReasons<'a>>>, AllocError> {
    let observer = match diagnostics {
        Diagnostics::Nothing => None,
        Diagnostics::Why => Some(StderrReasons { rt }),
    };
    LineReader::new(
        rt.alloc(),
        DiagnosedReader::new(rt.alloc(), rt.stdin(), vocabulary, observer),
    )
}
