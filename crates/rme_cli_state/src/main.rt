//! `rme serve --state`: the part of the program `rme` for a first durable server.
//!
//! It is a separate program so that a first durable server need not build the running service, the checker, the
//! pictures and `rme look`. It has only this command, and help; `rme_cli` is the whole program.
#![tactic(auto)]

use rme_cli_durable::run_serve_durable;
use rme_cli_messages::CliFault;
use rme_cli_options::{CliTask, ParsedCommandLine, finish_process, read_words};
use std::process::ExitCode;
use std::sync::Wait;
use std::thread::Threads;
use std::time::Clock;

/// The status if the words request something that this program does not have.
const NOT_HERE: u8 = 2;

fn main(rt: HostRuntime) -> ExitCode {
    finish_process(&rt, run_command_line(&rt, &rt))
}

/// Executes the command of the command line, and answers the status.
fn run_command_line<R: Threads + Wait + Clock + Sync>(
    rt: &HostRuntime,
    threads: &R,
) -> Result<u8, CliFault> {
    match read_words(rt)? {
        ParsedCommandLine::Task(CliTask::ServeDurable(task)) => run_serve_durable(
            rt, threads, task,
        ),
        ParsedCommandLine::Task(_) => {
            let _ = eprintln!(rt;
                "rme_cli_state does only serve --state: the whole program is rme_cli"
            );
            Ok(NOT_HERE)
        }
        ParsedCommandLine::Told(status) => Ok(status),
    }
}
