//! The request of a parsed line.

ghost use Rattle.std.specs.Prelude.{◌≡◌, ◌↔◌, IsTrue, Some, true};
ghost use Rattle.rme_wire.specs.declared.command.Command.TheVariants as command;
ghost use Rattle.rme_wire.specs.declared.request.Request.TheVariants.{World};
ghost use Rattle.rme_durable_format.specs.CommandTexts.{has_text};

use rme_script::Job;
use rme_wire::{Command, Request, Walk};

/// Whether the request is this command, which has a text.
pub(crate) fn is_request_for(asked: &Option<Request>, command: Command) -> bool
    ensures { IsTrue result ↔ ((has_text command ≡ true) × (asked.now ≡ Some (World command))) }
{
    match asked {
        Some(Request::World(found)) => is_same_command(*found, command),
        _ => false,
    }
}

/// Whether a command is the wanted one, which has a text.
fn is_same_command(found: Command, wanted: Command) -> bool
    ensures { IsTrue result ↔ ((has_text wanted ≡ true) × (found ≡ wanted)) }
{
    match wanted {
        Command::Submit(worker, job) => is_submission(found, worker, job),
        Command::Walk(walk) => is_same_walk(found, walk),
        Command::Crash(worker) => is_crash(found, worker),
        Command::Restart(worker) => is_restart(found, worker),
        Command::Withdraw(worker) => is_withdrawal(found, worker),
        _ => false,
    }
}

fn is_submission(found: Command, worker: u32, job: Job) -> bool
    ensures { IsTrue result ↔ (found ≡ command.Submit worker job) }
{
    let Command::Submit(same, its) = found else {
        return false;
    };
    if same != worker || its.lock != job.lock {
        return false;
    }
    its.script.same(&job.script)
}

/// Whether the walks are equal; neither ends at a kind of note.
fn is_same_walk(found: Command, walk: Walk) -> bool
    ensures { IsTrue result ↔ ((has_text (command.Walk walk) ≡ true) × (found ≡ command.Walk walk)) }
{
    let Command::Walk(its) = found else {
        return false;
    };
    if its.until.is_some() || walk.until.is_some() {
        return false;
    }
    if its.worker != walk.worker {
        return false;
    }
    its.max == walk.max
}

fn is_crash(found: Command, worker: u32) -> bool
    ensures { IsTrue result ↔ (found ≡ command.Crash worker) }
{
    let Command::Crash(same) = found else {
        return false;
    };
    same == worker
}

fn is_restart(found: Command, worker: u32) -> bool
    ensures { IsTrue result ↔ (found ≡ command.Restart worker) }
{
    let Command::Restart(same) = found else {
        return false;
    };
    same == worker
}

fn is_withdrawal(found: Command, worker: u32) -> bool
    ensures { IsTrue result ↔ (found ≡ command.Withdraw worker) }
{
    let Command::Withdraw(same) = found else {
        return false;
    };
    same == worker
}
