//! The values that a step may accept, and the effect of the values of several steps on a worker.

ghost use Rattle.std.specs.Prelude.{◌≡◌, ◌↔◌, ◌^◌, ◌<◌, ◌≤◌, ◌+◌, ◌*◌, ℕ, List, length, IsTrue, IsFalse, MatchOption, slice_set};
ghost use Rattle.rme_script.specs.Programs.{Program};
ghost use Rattle.rme_script.specs.Scripts.{IsScript};
ghost use Rattle.rme_script.specs.Slates.{script_from_words};
ghost use Rattle.rme_program.specs.declared.stage.Stage.{Stage};
ghost use Rattle.rme_program.specs.Conditions.{IsPrivate, IsLogStage, IsValidLoad};
ghost use Rattle.rme_process_core.specs.Folds.{ValueDamaged, ValuesTaken, outcome_notes};
ghost use Rattle.rme_process_core.specs.Runs.{FirstValueRefused, OneValueTaken, SomeValuesTaken, noted};
ghost use Rattle.rme_process_core.specs.ExpectedSlates.{IsExpectedSlate};

use crate::expected_slate::ExpectedSlate;
use crate::fast_forwarding::fast_forward;
use crate::flat::BatchOutcome;
use crate::notes::put_note;
use rme_program::{Departure, Log, Private, Recovery, Stage, after};
use rme_script::{SLATE_WORDS, from_slate};
use rme_words::Shape;

/// Whether a worker may accept this value as the one that its next step found.
pub fn may_accept(shape: Shape, private: &Private, value: u64) -> bool
    requires { IsPrivate shape private.now }
    ensures { IsTrue result ↔ IsValidLoad shape private.now.stage value }
{
    match &private.stage {
        Stage::Recovering(recovery) => may_recover(shape, recovery, value),
        Stage::Logging(log) => may_log(shape, log, value),
        Stage::Leaving(Departure::LoadExitTurn { .. }) => is_turn(value),
        _ => true,
    }
}

/// A turn is below 2^32.
fn is_turn(value: u64) -> bool
    ensures { IsTrue result ↔ (value < 2 ^ 32) }
{
    value < 1 << 32
}

fn may_recover(shape: Shape, recovery: &Recovery, value: u64) -> bool
    ensures { IsTrue result ↔ IsValidLoad shape (Stage.Recovering recovery.now) value }
{
    match recovery {
        Recovery::LoadBegun | Recovery::LoadDone => value <= u64::from(shape.jobs),
        Recovery::LoadLock { .. } => value < u64::from(shape.locks),
        Recovery::LoadPath { .. } => true,
    }
}

fn may_log(shape: Shape, log: &Log, value: u64) -> bool
    requires { IsLogStage shape log.now }
    ensures { IsTrue result ↔ IsValidLoad shape (Stage.Logging log.now) value }
{
    match log {
        Log::LoadTurn { .. } => is_turn(value),
        Log::LoadLen { .. } => value <= 8,
        Log::LoadSlate {
            operations,
            words,
            loaded,
            ..
        } => *loaded + 1 != 3 * *operations
            || ends_slate(shape, *operations, words, *loaded, value),
        _ => true,
    }
}

/// The slate is a script of the shape with this value as its last word.
fn ends_slate(
    shape: Shape,
    operations: u32,
    words: &[u64; SLATE_WORDS],
    last: u32,
    value: u64,
) -> bool
    requires { last < 24 }
    ensures { IsTrue result
        ↔ ((script : Program) × (script_from_words operations (slice_set words.now last value) ≡ Some script)
        × IsScript shape.cells script) }
{
    let mut whole = *words;
    whole[last as usize] = value;
    match from_slate(u64::from(operations), &whole) {
        Some(script) => script.check(shape).is_ok(),
        None => false,
    }
}

/// Has a worker accept a value that is part of no run, and appends its step's note. It is not inlined: only this call
/// needs its stack and registers.
///
/// Answers false if the step may not accept the value; then nothing changes.
#[inline(never)]
fn accept_value(
    shape: &Shape,
    private: &mut Private,
    value: u64,
    outcome: &mut BatchOutcome,
) -> bool
    requires private { IsPrivate shape.now private.old }
    requires room { outcome.old.count < 97 }
    ensures private { IsPrivate shape.now private.new }
    ensures taken { IsTrue result → OneValueTaken shape.now (noted private.old outcome.old) value
        (noted private.new outcome.new) }
    ensures refused { IsFalse result
        → (IsValidLoad shape.now private.old.stage value → ⊥) × (private.new ≡ private.old)
        × (outcome.new ≡ outcome.old) }
{
    if !may_accept(*shape, private, value) {
        return false;
    }
    let note = after(*shape, private, value);
    put_note(outcome, note);
    true
}

/// Has a worker accept the values of a run, or else the first value; appends the steps' notes, and answers the number
/// of accepted values.
///
/// Answers `None` if the next step may not accept the first value; then nothing changes.
fn accept_some_values(
    shape: &Shape,
    guess: &ExpectedSlate,
    private: &mut Private,
    values: &[u64],
    outcome: &mut BatchOutcome,
) -> Option<usize>
    requires private { IsPrivate shape.now private.old }
    requires guess { IsExpectedSlate shape.now guess.now }
    requires some { 1 ≤ length values.now }
    requires room { outcome.old.count + length values.now ≤ 96 }
    ensures private { IsPrivate shape.now private.new }
    ensures taken { MatchOption result (FirstValueRefused shape.now (noted private.old outcome.old) values.now
        (noted private.new outcome.new))
        (λ count. SomeValuesTaken shape.now (noted private.old outcome.old) values.now count
        (noted private.new outcome.new)) }
{
    let taken = fast_forward(shape, guess, values, private, outcome);
    if taken > 0 {
        return Some(taken);
    }
    if accept_value(shape, private, values[0], outcome) {
        Some(1)
    } else {
        None
    }
}

/// Has a worker accept the values that its next steps found, in order, and writes the steps' notes.
///
/// Answers false at the first value that the step may not accept; then the worker is as it was before that step.
pub fn accept_all_values(
    shape: &Shape,
    guess: &ExpectedSlate,
    private: &mut Private,
    values: &[u64],
    outcome: &mut BatchOutcome,
) -> bool
    requires private { IsPrivate shape.now private.old }
    requires guess { IsExpectedSlate shape.now guess.now }
    requires few { length values.now ≤ 96 }
    ensures private { IsPrivate shape.now private.new }
    ensures taken { IsTrue result
        → ValuesTaken shape.now private.old values.now (outcome_notes outcome.new) private.new }
    ensures damaged { IsFalse result
        → ValueDamaged shape.now private.old values.now (outcome_notes outcome.new) private.new }
{
    outcome.count = 0;
    let mut at = 0;
    while at < values.len() {
        let Some(taken) = accept_some_values(shape, guess, private, &values[at..], outcome) else {
            return false;
        };
        at += taken;
    }
    true
}
