//! The command itself: the kind of the file, and its output.

use crate::state_file::{StateBytes, kept_bytes, push_state};
use crate::words_file::push_words;
use rme_cli_messages::{BadArgument, CliFault, escape_controls};
use rme_cli_options::{LookTask, OutputFormat};
use rme_process_file::is_process_file;
use std::io::Write;
use std::{fs, io};

/// Prints the contents of a file, a state or words that processes map, and answers the status.
pub fn run_look(rt: &HostRuntime, task: LookTask) -> Result<u8, CliFault> {
    let LookTask {
        state,
        log: _,
        form,
    } = task;
    let path = state.as_str();
    let bytes = bytes_of(rt, path)?;
    let mut text = String::new(rt.alloc());
    if !is_process_file(bytes.as_slice()) {
        let source = StateBytes {
            path,
            bytes: bytes.as_slice(),
            may_be_torn: true,
        };
        return print_contents(rt, text, source, form);
    }
    if form == OutputFormat::Lines {
        return Err(CliFault::StateOfProcesses(escape_controls(rt.alloc(), path)?));
    }
    let status = push_words(&mut text, rt, path, bytes.as_slice(), form)?;
    print(rt, text.as_bytes(), status)
}

/// Prints this text, and the contents of a state in a log with these bytes; answers the status. Faults call the state by
/// this name. Unlike in a file, nothing may be left over behind the last write.
pub fn print_logged_state(
    rt: &HostRuntime,
    text: String,
    name: &str,
    bytes: &[u8],
    form: OutputFormat,
) -> Result<u8, CliFault> {
    let source = StateBytes {
        path: name,
        bytes,
        may_be_torn: false,
    };
    print_contents(rt, text, source, form)
}

/// Prints this text and the contents of a state, or its bytes alone, and answers the status.
fn print_contents(
    rt: &HostRuntime,
    text: String,
    source: StateBytes<'_>,
    form: OutputFormat,
) -> Result<u8, CliFault> {
    if form == OutputFormat::Lines {
        return print(rt, kept_bytes(rt, source)?, 0);
    }
    let mut text = text;
    let status = push_state(&mut text, rt, source, form)?;
    print(rt, text.as_bytes(), status)
}

/// Prints bytes, and answers the status.
fn print(rt: &HostRuntime, bytes: &[u8], status: u8) -> Result<u8, CliFault> {
    match io::writer(rt).write_all(bytes) {
        Ok(()) => Ok(status),
        Err(_) => Err(CliFault::WriteFailed),
    }
}

/// All bytes of the file.
fn bytes_of(rt: &HostRuntime, path: &str) -> Result<Vec<u8>, CliFault> {
    if path.is_empty() {
        return Err(CliFault::BadArguments(BadArgument::NoFile("FILE")));
    }
    match fs::read(rt, path) {
        Ok(bytes) => Ok(bytes),
        Err(error) => {
            let kind = error.kind();
            let path = escape_controls(rt.alloc(), path)?;
            Err(CliFault::on_file(kind, CliFault::StateUnread(path, error)))
        }
    }
}
