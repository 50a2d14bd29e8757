//! Requests of clients, and their lines.

use rme_script::{Op, Script};
use std::alloc::AllocError;

/// A job with its number.
#[derive(Clone, Copy, PartialEq, Eq)]
pub struct NumberedJob {
    pub number: u64,
    pub lock: u32,
    pub script: Script,
}

/// A submission: a job, and whether it stops inside its lock.
#[derive(Clone, Copy)]
pub struct SimulatedSubmission {
    pub enters: bool,
    pub job: NumberedJob,
    pub tries: u32,
}

/// A request for a worker.
#[derive(Clone, Copy)]
pub struct AttachRequest {
    pub worker: u32,
    pub take: bool,
    pub after: Option<u64>,
}

/// A request of a client.
#[derive(Clone, Copy)]
pub enum SimulatedRequest {
    Attach(AttachRequest),
    /// Attach a worker of the server's choice: one with a pending job, or one that is ready.
    AttachAny { pending: bool },
    Submit(SimulatedSubmission),
    Resume,
    Commit,
    Withdraw,
    Pending,
    Last,
    CrashAfter(u32),
    Detach,
    Ping,
    Owner(u32),
    Cells(u32),
    Status,
    /// A line that is no request.
    BadLine,
}

impl SimulatedRequest {
    /// The word of a request's line, which its answer repeats.
    pub fn word(&self) -> &'static str {
        match self {
            SimulatedRequest::Attach(_) | SimulatedRequest::AttachAny { .. } => "attach",
            SimulatedRequest::Submit(submission) if submission.enters => "enter",
            SimulatedRequest::Submit(_) => "submit",
            SimulatedRequest::Resume => "resume",
            SimulatedRequest::Commit => "commit",
            SimulatedRequest::Withdraw => "withdraw",
            SimulatedRequest::Pending => "pending",
            SimulatedRequest::Last => "last",
            SimulatedRequest::CrashAfter(_) => "crash_after",
            SimulatedRequest::Detach => "detach",
            SimulatedRequest::Ping => "ping",
            SimulatedRequest::Owner(_) => "owner",
            SimulatedRequest::Cells(_) => "cells",
            SimulatedRequest::Status => "status",
            SimulatedRequest::BadLine => "nothing",
        }
    }
}

/// The greatest number of locks of a simulation.
pub const MOST_LOCKS: u32 = 4;

/// The name of a lock; that of no lock, if the number is `MOST_LOCKS` or more.
pub fn lock_text(lock: u32) -> &'static str {
    match lock {
        0 => "a",
        1 => "b",
        2 => "c",
        3 => "d",
        _ => "nobody's",
    }
}

/// The number of the lock of this name.
pub fn lock_named(text: &str) -> Option<u32> {
    match text {
        "a" => Some(0),
        "b" => Some(1),
        "c" => Some(2),
        "d" => Some(3),
        _ => None,
    }
}

/// Appends the line of a request, with its newline.
pub fn push_request(out: &mut String, request: &SimulatedRequest) -> Result<(), AllocError> {
    let word = request.word();
    match request {
        SimulatedRequest::Attach(asked) => push_attach(out, asked)?,
        SimulatedRequest::AttachAny { pending } => {
            let choice = if *pending { "pending" } else { "ready" };
            write!(out, "{{\"any\":\"{choice}\",\"do\":\"attach\"}}")?;
        }
        SimulatedRequest::Submit(submission) => push_submission(out, word, submission)?,
        SimulatedRequest::Resume => out.push_str("{\"do\":\"resume\",\"tries\":1}")?,
        SimulatedRequest::CrashAfter(steps) => {
            let steps = *steps;
            write!(out, "{{\"do\":\"crash_after\",\"steps\":{steps}}}")?;
        }
        SimulatedRequest::Owner(lock) | SimulatedRequest::Cells(lock) => {
            let name = lock_text(*lock);
            write!(out, "{{\"do\":\"{word}\",\"lock\":\"{name}\"}}")?;
        }
        _ => write!(out, "{{\"do\":\"{word}\"}}")?,
    }
    out.push_str("\n")
}

fn push_attach(out: &mut String, asked: &AttachRequest) -> Result<(), AllocError> {
    out.push_str("{")?;
    if let Some(after) = asked.after {
        write!(out, "\"after\":{after},")?;
    }
    out.push_str("\"do\":\"attach\",")?;
    if asked.take {
        out.push_str("\"take\":true,")?;
    }
    let worker = asked.worker;
    write!(out, "\"worker\":{worker}}}")
}

fn push_submission(
    out: &mut String,
    word: &str,
    submission: &SimulatedSubmission,
) -> Result<(), AllocError> {
    let name = lock_text(submission.job.lock);
    let number = submission.job.number;
    write!(
        out,
        "{{\"do\":\"{word}\",\"lock\":\"{name}\",\"number\":{number},\"script\":["
    )?;
    push_script(out, &submission.job.script)?;
    let tries = submission.tries;
    write!(out, "],\"tries\":{tries}}}")
}

/// Appends the operations of a script.
pub fn push_script(out: &mut String, script: &Script) -> Result<(), AllocError> {
    for place in 0..script.n().min(8) {
        if place > 0 {
            out.push_str(",")?;
        }
        push_operation(out, script.op(place))?;
    }
    Ok(())
}

fn push_operation(out: &mut String, op: Op) -> Result<(), AllocError> {
    match op {
        Op::Get(cell) => write!(out, "[\"get\",{cell}]"),
        Op::Set(cell, value) => write!(out, "[\"set\",{cell},{value}]"),
        Op::Add(cell, value) => write!(out, "[\"add\",{cell},{value}]"),
        Op::Copy(from, to) => write!(out, "[\"copy\",{from},{to}]"),
        Op::Swap(first, second) => write!(out, "[\"swap\",{first},{second}]"),
    }
}
