//! The answers of look-ups.

ghost use Rattle.std.specs.Prelude.{◌≡◌, ◌++◌, ℕ, Bool, List, OnOk, Option, Result, string_bytes};
ghost use Rattle.rme_durable_lookups.specs.LookupAnswers.{LookupShows, cells_reply, owner_reply};
ghost use Rattle.rme_durable_lookups.specs.StatusTexts.{status_state, status_text};
ghost use Rattle.rme_durable_lookups.specs.declared.worker_notes.WorkerNote.{WorkerNote};
ghost use Rattle.rme_line_text.specs.Replies.{reply_text};
ghost use Rattle.rme_words.specs.declared.refusal.Refusal.{Refusal};
ghost use Rattle.rme_world.specs.Calls.{CellsContract, OwnerContract};

use crate::lookup::SessionLookup;
use crate::status::{StatusSource, push_status};
use crate::status_notes::StatusNotes;
use rme_durable_epochs::EpochExecutor;
use rme_line_text::{Reply, push_reply};
use rme_wire::Names;
use rme_words::NoMemory;
use rme_world::World;
use std::alloc::AllocError;

/// Writes the line that answers a look-up in place of a text, with its newline. An error means that memory was refused,
/// or that a number of a status is not a number of 64 bits.
pub fn write_lookup(
    out: &mut String,
    names: &Names,
    executor: &EpochExecutor,
    look: SessionLookup,
    notes: &StatusNotes<'_>,
) -> Result<(), NoMemory>
    ensures { OnOk result (LookupShows names.now notes.now.leader.now
        (status_state executor.now.epoch executor.now.base executor.now.executor.world) look
        (string_bytes out.new)) }
{
    out.clear();
    let world = executor.executor().world();
    match look {
        SessionLookup::Owner(lock) => push_owner(out, names, world, lock)?,
        SessionLookup::Cells(lock) => push_cells(out, names, world, lock)?,
        SessionLookup::Status => push_executor_status(out, names, executor, notes)?,
    }
    out.push_str("\n")?;
    Ok(())
}

/// Appends the owner of a lock of a world.
fn push_owner(out: &mut String, names: &Names, world: &World, lock: u32) -> Result<(), AllocError>
    ensures { OnOk result ((found : Result (Option ℕ) Refusal) × OwnerContract world.now lock found
        × (string_bytes out.new ≡ string_bytes out.old ++ reply_text names.now world.now.history
        (owner_reply found))) }
{
    let reply = match world.owner(lock) {
        Ok(owner) => Reply::Owner(owner),
        Err(refusal) => Reply::Refused(refusal),
    };
    push_reply(out, names, world.history(), &reply)
}

/// Appends the cells of a lock.
fn push_cells(out: &mut String, names: &Names, world: &World, lock: u32) -> Result<(), AllocError>
    ensures { OnOk result ((found : Result (List ℕ × Bool) Refusal) × CellsContract world.now lock found
        × (string_bytes out.new ≡ string_bytes out.old ++ reply_text names.now world.now.history
        (cells_reply found))) }
{
    let reply = match world.cells(lock) {
        Ok((row, settled)) => Reply::Cells(row, settled),
        Err(refusal) => Reply::Refused(refusal),
    };
    push_reply(out, names, world.history(), &reply)
}

/// Appends the status of an executor, with who leads its log and the notes on its workers.
fn push_executor_status(
    out: &mut String,
    names: &Names,
    executor: &EpochExecutor,
    notes: &StatusNotes<'_>,
) -> Result<(), NoMemory>
    ensures { OnOk result ((told : List WorkerNote) × (string_bytes out.new ≡ string_bytes out.old
        ++ status_text names.now notes.now.leader.now
        (status_state executor.now.epoch executor.now.base executor.now.executor.world) told)) }
{
    push_status(out, names, &StatusSource::of(executor), notes)
}
