//! The texts of commands: compact JSON with sorted keys.

ghost use Rattle.std.specs.Prelude.{◌≡◌, ◌++◌, OnOk, string_bytes};
ghost use Rattle.rme_durable_format.specs.CommandTexts as spec;

use rme_line_text::{lock_name, push_ops};
use rme_script::Job;
use rme_wire::{Command, Names, Walk};
use std::alloc::AllocError;

/// Appends the text of a command, with these names of the locks. A command that does not change a world has none.
pub(crate) fn push_text(
    out: &mut String,
    names: &Names,
    command: &Command,
) -> Result<(), AllocError>
    ensures { OnOk result (string_bytes out.new ≡ string_bytes out.old ++ spec.command_text names.now command.now) }
{
    match command {
        Command::Submit(worker, job) => push_submission(out, names, *worker, job),
        Command::Walk(walk) => push_walk(out, *walk),
        Command::Crash(worker) => push_order(out, "crash", *worker),
        Command::Restart(worker) => push_order(out, "restart", *worker),
        Command::Withdraw(worker) => push_order(out, "withdraw", *worker),
        _ => Ok(()),
    }
}

fn push_submission(
    out: &mut String,
    names: &Names,
    worker: u32,
    job: &Job,
) -> Result<(), AllocError>
    ensures { OnOk result (string_bytes out.new ≡ string_bytes out.old ++ spec.submission_text names.now worker
        job.now) }
{
    let lock = lock_name(names, job.lock);
    write!(out, "{{\"do\":\"submit\",\"lock\":\"{lock}\",\"script\":[")?;
    push_ops(out, &job.script)?;
    write!(out, "],\"worker\":{worker}}}")
}

fn push_order(out: &mut String, word: &str, worker: u32) -> Result<(), AllocError>
    ensures { OnOk result (string_bytes out.new ≡ string_bytes out.old ++ spec.worker_text word.now worker) }
{
    write!(out, "{{\"do\":\"{word}\",\"worker\":{worker}}}")
}

/// A walk of at most this number of steps, with any notes.
fn push_walk(out: &mut String, walk: Walk) -> Result<(), AllocError>
    ensures { OnOk result (string_bytes out.new ≡ string_bytes out.old ++ spec.walk_text walk.max walk.worker) }
{
    let Walk { worker, max, .. } = walk;
    write!(out, "{{\"do\":\"walk\",\"max\":{max},\"worker\":{worker}}}")
}
