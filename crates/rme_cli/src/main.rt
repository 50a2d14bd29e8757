//! The program `rme`: a recoverable mutual exclusion lock service over lines, and over threads.
//!
//! rme_cli_options reads the words of the command line; rme_cli_lines, rme_cli_commands, rme_cli_durable,
//! rme_cli_spaces, rme_cli_replica, rme_cli_cluster_state and rme_cli_ask execute the commands. This crate is small,
//! since its code is checked against all crates of the program.
#![tactic(auto)]

use rme_cli_ask::run_ask;
use rme_cli_cluster_state::{run_any_look, run_move};
use rme_cli_commands::{run_draw, run_serve, run_threads};
use rme_cli_durable::run_serve_durable;
use rme_cli_lines::perform_lines;
use rme_cli_messages::CliFault;
use rme_cli_options::{CliTask, ParsedCommandLine, finish_process, read_words};
use rme_cli_replica::run_serve_replicated;
use rme_cli_spaces::run_serve_spaces;
use std::process::ExitCode;
use std::sync::Wait;
use std::thread::Threads;
use std::time::Clock;

fn main(rt: HostRuntime) -> ExitCode {
    finish_process(&rt, run_command_line(&rt, &rt))
}

/// Executes the command of the command line, and answers the status.
fn run_command_line<R: Threads + Wait + Clock + Sync>(
    rt: &HostRuntime,
    threads: &R,
) -> Result<u8, CliFault> {
    match read_words(rt)? {
        ParsedCommandLine::Task(task) => perform(rt, threads, task),
        ParsedCommandLine::Told(status) => Ok(status),
    }
}

/// Executes a command over the standard streams of the process, and answers its status.
///
/// An error is the fault that ended it early; `--help` says what a command has done by then.
fn perform<R: Threads + Wait + Clock + Sync>(
    rt: &HostRuntime,
    threads: &R,
    task: CliTask,
) -> Result<u8, CliFault> {
    match task {
        CliTask::Lines(task) => perform_lines(rt, task),
        CliTask::Draw(task) => run_draw(rt, task),
        CliTask::Threads(task) => run_threads(rt, threads, &task),
        CliTask::Serve(task) => run_serve(rt, threads, task),
        CliTask::ServeDurable(task) => run_serve_durable(rt, threads, task),
        CliTask::ServeReplicated(task) => run_serve_replicated(rt, threads, task),
        CliTask::ServeSpaces(task) => run_serve_spaces(rt, threads, task),
        CliTask::Look(task) => run_any_look(rt, task),
        CliTask::Move(task) => run_move(rt, task),
        CliTask::Ask(task) => run_ask(rt, threads, task),
    }
}
