//! The command itself.

use crate::file_to_log::move_to_log;
use crate::log_to_file::move_to_file;
use crate::move_fault::MoveFault;
use crate::moved_state::MovedState;
use rme_cli_cluster::end_of_command;
use rme_cli_messages::{BadArgument, CliFault, escape_controls};
use rme_cli_options::{MoveDirection, MoveTask};
use std::io;
use std::io::Write;

/// Moves a state, prints what was moved, and answers the status.
///
/// After an error the place that it comes from is as it was; the new place has all of it or nothing that a server
/// starts from.
pub fn run_move(rt: &HostRuntime, task: MoveTask) -> Result<u8, CliFault> {
    match try_move(rt, &task) {
        Ok(state) => {
            let text = moved_text(rt, &task, &state)?;
            match io::writer(rt).write_all(text.as_bytes()) {
                Ok(()) => Ok(0),
                Err(_) => Err(CliFault::WriteFailed),
            }
        }
        Err(MoveFault::Cluster(fault)) => end_of_command(rt, Err(fault)),
        Err(fault) => {
            let _ = eprintln!(rt; "fault: {fault}");
            Ok(fault.status())
        }
    }
}

/// Moves a state, and answers what was moved.
fn try_move(rt: &HostRuntime, task: &MoveTask) -> Result<MovedState, MoveFault> {
    let path = task.file.as_str();
    if path.is_empty() {
        return Err(MoveFault::from(CliFault::BadArguments(BadArgument::NoFile("FILE"))));
    }
    match task.direction {
        MoveDirection::FileToLog => move_to_log(rt, path, &task.log),
        MoveDirection::LogToFile => move_to_file(rt, &task.log, path),
    }
}

/// The line that says what was moved.
fn moved_text(rt: &HostRuntime, task: &MoveTask, state: &MovedState) -> Result<String, CliFault> {
    let alloc = rt.alloc();
    let path = escape_controls(alloc, task.file.as_str())?;
    let name = task.log.name.as_str();
    let (epoch, bytes) = (state.epoch, state.write.len());
    Ok(match task.direction {
        MoveDirection::FileToLog => {
            format!(in alloc; "moved {path} to etcd:{name}: epoch {epoch}, {bytes} bytes\n")?
        }
        MoveDirection::LogToFile => {
            format!(in alloc; "moved etcd:{name} to {path}: epoch {epoch}, {bytes} bytes\n")?
        }
    })
}
