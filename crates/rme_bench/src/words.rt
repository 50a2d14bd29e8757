//! The words that the program is called with.

use crate::fault::BenchFailure;
use crate::jobs::JobsRun;
use std::env;

/// The limits of threads, jobs and worlds; more are refused.
const MOST_THREADS: u32 = 256;

const MOST_JOBS: u32 = 1_000_000;

/// The task that the words ask for.
#[derive(Drop)]
pub enum BenchTask {
    /// `steps WORLDS OPERATIONS`.
    Steps { worlds: u32, operations: u32 },
    /// `jobs THREADS JOBS one|own`.
    Jobs(JobsRun),
    /// `refused run|close|supervise|slots`.
    Refused(MeteredCall),
    /// `all`: each part, as short as possible.
    All,
}

/// A call that takes memory.
#[derive(Clone, Copy)]
pub enum MeteredCall {
    Run,
    Close,
    Supervise,
    Slots,
}

/// Reads the task from the words.
pub fn read_words(rt: &HostRuntime) -> Result<BenchTask, BenchFailure> {
    let mut words = env::args(rt)?;
    let _program = words.next();
    let Some(part) = words.next() else {
        return Err(BenchFailure);
    };
    let given = (words.next(), words.next(), words.next());
    match part.as_str() {
        "all" => Ok(BenchTask::All),
        "steps" => steps_of(given.0, given.1),
        "jobs" => jobs_of(given.0, given.1, given.2),
        "refused" => refused_of(given.0),
        _ => Err(BenchFailure),
    }
}

/// The words `WORLDS OPERATIONS`.
fn steps_of(worlds: Option<String>, operations: Option<String>) -> Result<BenchTask, BenchFailure> {
    let (Some(worlds), Some(operations)) = (worlds, operations) else {
        return Err(BenchFailure);
    };
    Ok(BenchTask::Steps {
        worlds: number_of(worlds.as_str(), MOST_JOBS)?,
        operations: number_of(operations.as_str(), MOST_JOBS)?,
    })
}

/// The words `THREADS JOBS one|own`.
fn jobs_of(
    threads: Option<String>,
    jobs: Option<String>,
    setting: Option<String>,
) -> Result<BenchTask, BenchFailure> {
    let (Some(threads), Some(jobs), Some(setting)) = (threads, jobs, setting) else {
        return Err(BenchFailure);
    };
    Ok(BenchTask::Jobs(JobsRun {
        threads: number_of(threads.as_str(), MOST_THREADS)?,
        jobs: number_of(jobs.as_str(), MOST_JOBS)?,
        own: is_own(setting.as_str())?,
    }))
}

/// The word `run|close|supervise|slots`.
fn refused_of(call: Option<String>) -> Result<BenchTask, BenchFailure> {
    let Some(call) = call else {
        return Err(BenchFailure);
    };
    match call.as_str() {
        "run" => Ok(BenchTask::Refused(MeteredCall::Run)),
        "close" => Ok(BenchTask::Refused(MeteredCall::Close)),
        "supervise" => Ok(BenchTask::Refused(MeteredCall::Supervise)),
        "slots" => Ok(BenchTask::Refused(MeteredCall::Slots)),
        _ => Err(BenchFailure),
    }
}

/// Whether each thread has a lock of its own, or all have one.
fn is_own(setting: &str) -> Result<bool, BenchFailure> {
    match setting {
        "own" => Ok(true),
        "one" => Ok(false),
        _ => Err(BenchFailure),
    }
}

/// A number up to `most`.
fn number_of(word: &str, most: u32) -> Result<u32, BenchFailure> {
    match word.parse() {
        Ok(number) if number <= most => Ok(number),
        _ => Err(BenchFailure),
    }
}
