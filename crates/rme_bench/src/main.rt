//! The program that bench/ and scripts/ run beside `rme`: steps of a world, jobs in threads, and calls that are refused
//! memory.
//!
//! `bench/steps` times `steps`, and `bench/threads` times `jobs`; `scripts/try-memory` refuses memory to `refused`;
//! `all` runs each once, as the gate does. Begin with `perform`.
#![tactic(auto)]

mod fault;
mod jobs;
mod refused;
mod steps;
mod words;

use crate::fault::BenchFailure;
use crate::jobs::{JobsRun, time_of};
use crate::refused::{close_service, run_world, slot_workers, supervise_workers};
use crate::steps::run_steps;
use crate::words::{BenchTask, MeteredCall, read_words};
use std::process::ExitCode;
use std::sync::Wait;
use std::thread::Threads;
use std::time::Clock;

fn main(rt: HostRuntime) -> ExitCode {
    match perform(&rt, &rt) {
        Ok(()) => ExitCode::SUCCESS,
        Err(_) => ExitCode::from(2),
    }
}

/// Performs the task of the words. With `all`, the time of a job is not printed, since it differs in each run.
fn perform<R: Threads + Wait + Clock + Sync>(
    rt: &HostRuntime,
    threads: &R,
) -> Result<(), BenchFailure> {
    match read_words(rt)? {
        BenchTask::Steps { worlds, operations } => run_steps(rt, worlds, operations),
        BenchTask::Jobs(run) => {
            let time = time_of(threads, rt.alloc(), &run)?;
            Ok(println!(rt; "{time}")?)
        }
        BenchTask::Refused(call) => make_call(rt, threads, call),
        BenchTask::All => {
            run_steps(rt, 1, 0)?;
            let _time = time_of(threads, rt.alloc(), &JobsRun::smallest())?;
            println!(rt; "jobs: 1")?;
            for call in [
                MeteredCall::Run,
                MeteredCall::Close,
                MeteredCall::Supervise,
                MeteredCall::Slots,
            ] {
                make_call(rt, threads, call)?;
            }
            Ok(())
        }
    }
}

/// Makes a call, and once more if it is refused memory.
fn make_call<R: Threads + Wait + Sync>(
    rt: &HostRuntime,
    threads: &R,
    call: MeteredCall,
) -> Result<(), BenchFailure> {
    match call {
        MeteredCall::Run => run_world(rt),
        MeteredCall::Close => close_service(rt, threads),
        MeteredCall::Supervise => supervise_workers(rt, threads),
        MeteredCall::Slots => slot_workers(rt, threads),
    }
}
