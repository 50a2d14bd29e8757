//! The words of the command line, and the end of the program.

ghost use Rattle.std.specs.Prelude.{◌≡◌, Bool};
ghost use Rattle.clap.specs.Values.{kind_of};
ghost use Rattle.rme_cli_messages.specs.FaultStatuses.{status_of_parse_error};
ghost use Rattle.rme_cli_options.specs.ExitCodes.{exit_code_after};

use crate::parsing::task_of;
use crate::tasks::CliTask;
use clap::error::ErrorKind;
use rme_cli_messages::{CliFault, status_of_parse_error};
use std::env;
use std::process::ExitCode;

/// The result of parsing the command line.
#[derive(Drop)]
pub enum ParsedCommandLine {
    /// A task.
    Task(CliTask),
    /// Help, the version or an error was printed, and this is the status.
    Told(u8),
}

/// Reads the command line. If it is no task, help, the version or the error is printed.
pub fn read_words(rt: &HostRuntime) -> Result<ParsedCommandLine, CliFault> {
    let words = given_words(rt)?;
    match task_of(rt.alloc(), words.as_slice()) {
        Ok(task) => Ok(ParsedCommandLine::Task(task)),
        Err(error) => Ok(ParsedCommandLine::Told(print_parse_error(rt, &error)?)),
    }
}

/// The exit status of the process. A fault is reported on the standard error.
pub fn finish_process(rt: &HostRuntime, ended: Result<u8, CliFault>) -> ExitCode {
    if let Err(fault) = &ended {
        let _ = eprintln!(rt; "fault: {fault}");
    }
    ExitCode::from(exit_code_after(&ended))
}

/// The exit status after a task: its own, or that of the fault that ended it early.
fn exit_code_after(ended: &Result<u8, CliFault>) -> u8
    ensures { result ≡ exit_code_after ended.now }
{
    match ended {
        Ok(status) => *status,
        Err(fault) => fault.status(),
    }
}

/// The words of the command line.
fn given_words(rt: &HostRuntime) -> Result<Vec<String>, CliFault> {
    match env::args(rt) {
        Ok(args) => Ok(args.collect(rt.alloc())?),
        Err(error) => Err(CliFault::of_words(error.kind())),
    }
}

/// Prints help, the version or the error, and answers the status.
fn print_parse_error(rt: &HostRuntime, error: &clap::Error) -> Result<u8, CliFault>
    ensures { (is_printed : Bool) × (result ≡ status_of_parse_error (kind_of error.now) is_printed) }
{
    let kind = error.kind();
    let is_printed = kind != ErrorKind::OutOfMemory && error.print(rt).is_ok();
    status_of_parse_error(kind, is_printed)
}
