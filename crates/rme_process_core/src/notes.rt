//! Notes, phases and locks as plain numbers.

ghost use Rattle.std.specs.Prelude.{◌≡◌, ◌<◌, ◌+◌, ◌++◌, [], ◌∷◌, length};
ghost use Rattle.rme_process_core.specs.Flat.{flat_note, flat_lock_note, flat_number_note, phase_number, stage_lock_number, stage_lock_of_log, stage_lock_of_redo, stage_lock_of_departure};
ghost use Rattle.rme_process_core.specs.Folds.{flat_notes, prepend_note, outcome_notes};

use crate::flat::{BatchOutcome, FlatNote};
use rme_program::{Departure, Log, Note, Phase, Receipt, Recovery, Redo, Stage};

/// The lock of a worker that knows of none.
const NO_LOCK: u32 = u32::MAX;

/// The kinds of notes; a batch can end at one of them.
pub const ASKED: u32 = 1;

const BLOCKED: u32 = 2;

pub const ENTERED: u32 = 3;

const REENTERED: u32 = 4;

pub const FINISHED: u32 = 5;

pub const LEFT: u32 = 6;

pub const READY: u32 = 7;

const WITHDREW: u32 = 8;

/// Appends a note, unless it is quiet.
pub fn put_note(outcome: &mut BatchOutcome, note: Note)
    requires room { outcome.old.count < 97 }
    ensures told { outcome_notes outcome.new ≡ outcome_notes outcome.old ++ flat_notes (prepend_note note []) }
    ensures count { outcome.new.count ≡ outcome.old.count + length (prepend_note note []) }
{
    match note {
        Note::Quiet => {}
        Note::Asked(number) => put(outcome, flat_number_note(ASKED, number)),
        Note::Blocked => put(outcome, flat_number_note(BLOCKED, 0)),
        Note::Entered(lock) => put(outcome, flat_lock_note(ENTERED, lock)),
        Note::Reentered(lock) => put(outcome, flat_lock_note(REENTERED, lock)),
        Note::Finished(receipt) => put(outcome, receipt_note(receipt)),
        Note::Left(lock) => put(outcome, flat_lock_note(LEFT, lock)),
        Note::Ready => put(outcome, flat_number_note(READY, 0)),
        Note::Withdrew(number) => put(outcome, flat_number_note(WITHDREW, number)),
    }
}

/// Appends a note.
pub fn put(outcome: &mut BatchOutcome, note: FlatNote)
    requires room { outcome.old.count < 97 }
    ensures told { outcome_notes outcome.new ≡ outcome_notes outcome.old ++ note ∷ [] }
    ensures count { outcome.new.count ≡ outcome.old.count + 1 }
{
    let place = outcome.count as usize;
    outcome.notes[place] = note;
    outcome.count += 1;
}

/// A note of this kind with a number; it is quiet if the kind is 0.
pub fn flat_number_note(kind: u32, number: u32) -> FlatNote
    ensures { result ≡ flat_number_note kind number }
{
    FlatNote {
        kind,
        worker: 0,
        lock: 0,
        number: u64::from(number),
        place: 0,
        reply: 0,
    }
}

/// A note of this kind with a lock.
pub fn flat_lock_note(kind: u32, lock: u32) -> FlatNote
    ensures { result ≡ flat_lock_note kind lock }
{
    FlatNote {
        kind,
        worker: 0,
        lock,
        number: 0,
        place: 0,
        reply: 0,
    }
}

/// The note of a section that is finished.
pub fn receipt_note(receipt: Receipt) -> FlatNote
    ensures { result ≡ flat_note (Note.Finished receipt) }
{
    FlatNote {
        kind: FINISHED,
        worker: receipt.worker,
        lock: receipt.lock,
        number: u64::from(receipt.number),
        place: u64::from(receipt.place),
        reply: receipt.reply,
    }
}

/// The number of a phase.
pub fn phase_number(phase: Phase) -> u32
    ensures { result ≡ phase_number phase }
{
    match phase {
        Phase::Recover => 0,
        Phase::Post => 1,
        Phase::Enter => 2,
        Phase::Section => 3,
        Phase::Exit => 4,
        Phase::Ready => 5,
    }
}

/// The lock of a worker at this stage, or `NO_LOCK`.
pub fn stage_lock_number(stage: &Stage) -> u32
    ensures { result ≡ stage_lock_number stage.now }
{
    match stage {
        Stage::Resting => NO_LOCK,
        Stage::Recovering(Recovery::LoadPath { lock, .. }) => *lock,
        Stage::Recovering(_) => NO_LOCK,
        Stage::Posting(slate) => slate.job.lock,
        Stage::Climbing(ascent) => ascent.lock,
        Stage::Logging(log) => stage_lock_of_log(log),
        Stage::Copying(redo) => stage_lock_of_redo(redo),
        Stage::Leaving(departure) => stage_lock_of_departure(departure),
    }
}

fn stage_lock_of_log(log: &Log) -> u32
    ensures { result ≡ stage_lock_of_log log.now }
{
    match log {
        Log::LoadTurn { lock } | Log::LoadLen { lock, .. } => *lock,
        Log::LoadSlate { lock, .. } | Log::LoadCells { lock, .. } => *lock,
        Log::StoreShadows { visit, .. } | Log::StoreShadowReply { visit, .. } => visit.lock,
        Log::StoreMask { visit, .. } | Log::StoreTurn { visit } => visit.lock,
    }
}

fn stage_lock_of_redo(redo: &Redo) -> u32
    ensures { result ≡ stage_lock_of_redo redo.now }
{
    match redo {
        Redo::LoadMask { visit } | Redo::LoadShadow { visit, .. } => visit.lock,
        Redo::StoreCell { visit, .. } | Redo::LoadReply { visit, .. } => visit.lock,
        Redo::StoreReply { visit, .. } | Redo::StorePlace { visit, .. } => visit.lock,
        Redo::StoreAt { visit, .. } | Redo::StoreDone { visit, .. } => visit.lock,
    }
}

fn stage_lock_of_departure(departure: &Departure) -> u32
    ensures { result ≡ stage_lock_of_departure departure.now }
{
    match departure {
        Departure::LoadExitTurn { lock } | Departure::StoreExitTurn { lock, .. } => *lock,
        Departure::Clear { lock, .. } | Departure::WithdrawPlace { lock, .. } => *lock,
        Departure::WithdrawAt { lock, .. } | Departure::WithdrawReply { lock, .. } => *lock,
        Departure::WithdrawDone { lock, .. } => *lock,
    }
}
