//! The values of whole runs, accepted together, without a decision at each of them.

ghost use Rattle.std.specs.Prelude.{◌≡◌, ◌<◌, ◌≤◌, ◌+◌, ◌*◌, ℕ, List, IsTrue, IfSome, length, take, replicate, slice_index, [], ◌∷◌};
ghost use Rattle.rme_script.specs.Programs.{Program};
ghost use Rattle.rme_script.specs.Scripts.{IsScript};
ghost use Rattle.rme_program.specs.declared.stage.Stage.{Stage};
ghost use Rattle.rme_program.specs.declared.stage.Log.{Log};
ghost use Rattle.rme_program.specs.declared.stage.Redo.{Redo};
ghost use Rattle.rme_program.specs.declared.stage.Visit.{Visit};
ghost use Rattle.rme_program.specs.declared.stage.Parity.{Parity};
ghost use Rattle.rme_program.specs.declared.stage.Departure.{Departure};
ghost use Rattle.rme_program.specs.declared.note.Note.{Note};
ghost use Rattle.rme_program.specs.Masks.{first_cell};
ghost use Rattle.rme_program.specs.Steps.{cell_stage_from, run_stage, finish_outcome, clear_stage, logging_section};
ghost use Rattle.rme_program.specs.Conditions.{IsPrivate, IsStage};
ghost use Rattle.rme_process_core.specs.Runs.{private_at_stage, climbing_private, FastForward, QuietStepsLeadTo, ValuesLeadTo, noted};
ghost use Rattle.rme_process_core.specs.declared.flat.BatchOutcome.{BatchOutcome};
ghost use Rattle.rme_process_core.specs.ExpectedSlates.{IsExpectedSlate, ValuesMatchSlate, ValuesFreeRoot};

use crate::expected_slate::ExpectedSlate;
use crate::flat::BatchOutcome;
use crate::notes::{
    ASKED, ENTERED, LEFT, READY, flat_lock_note, flat_number_note, put, receipt_note,
};
use rme_program::{Ascent, Departure, Log, Note, Private, Receipt, Stage, Visit, first_cell};
use rme_script::{Row, eval};
use rme_words::Shape;

/// Has a worker accept the values of a run that a batch predicted. Answers 0 if the values are not those of a run.
pub fn fast_forward(
    shape: &Shape,
    guess: &ExpectedSlate,
    values: &[u64],
    private: &mut Private,
    outcome: &mut BatchOutcome,
) -> usize
    requires guess { IsExpectedSlate shape.now guess.now }
    requires private { IsPrivate shape.now private.old }
    requires room { outcome.old.count + length values.now ≤ 96 }
    ensures { FastForward shape.now (noted private.old outcome.old) values.now result (noted private.new outcome.new) }
{
    match &private.stage {
        Stage::Posting(_) => fast_forward_post(shape, guess, values, private, outcome),
        Stage::Climbing(_) => fast_forward_climb(shape, guess, values, private, outcome),
        Stage::Logging(_) => fast_forward_section(shape, guess, values, private, outcome),
        Stage::Leaving(_) => fast_forward_exit(shape, values, private, outcome),
        _ => 0,
    }
}

/// The stores of a post, and, if their values are there, the swaps and the loads after it.
fn fast_forward_post(
    shape: &Shape,
    guess: &ExpectedSlate,
    values: &[u64],
    private: &mut Private,
    outcome: &mut BatchOutcome,
) -> usize
    requires guess { IsExpectedSlate shape.now guess.now }
    requires private { IsPrivate shape.now private.old }
    requires room { outcome.old.count + length values.now ≤ 96 }
    ensures { FastForward shape.now (noted private.old outcome.old) values.now result (noted private.new outcome.new) }
{
    let Stage::Posting(slate) = &private.stage else {
        return 0;
    };
    let stores = (3 + 3 * slate.job.script.n() - slate.stored) as usize;
    if values.len() < stores {
        return 0;
    }
    let lock = slate.job.lock;
    let ascent = Ascent { lock, held: 0 };
    let number = private.begun + 1;
    private.begun = number;
    let entered = enter(shape, guess, ascent, &values[stores..], &mut private.stage);
    if entered > 0 {
        put(outcome, flat_number_note(ASKED, number));
        put(outcome, flat_lock_note(ENTERED, lock));
        return stores + entered;
    }
    private.stage = Stage::Climbing(ascent);
    put(outcome, flat_number_note(ASKED, number));
    stores
}

/// The swaps of all nodes that the worker does not hold yet, and, if their values are there, the loads after them.
fn fast_forward_climb(
    shape: &Shape,
    guess: &ExpectedSlate,
    values: &[u64],
    private: &mut Private,
    outcome: &mut BatchOutcome,
) -> usize
    requires guess { IsExpectedSlate shape.now guess.now }
    requires private { IsPrivate shape.now private.old }
    requires room { outcome.old.count + length values.now ≤ 96 }
    ensures { FastForward shape.now (noted private.old outcome.old) values.now result (noted private.new outcome.new) }
{
    let Stage::Climbing(ascent) = &private.stage else {
        return 0;
    };
    let ascent = *ascent;
    let entered = enter(shape, guess, ascent, values, &mut private.stage);
    if entered > 0 {
        put(outcome, flat_lock_note(ENTERED, ascent.lock));
    }
    entered
}

/// The swaps of the nodes from this one on, and, if their values are there, the section's loads after them. Answers 0
/// if a swap did not store its value; then the stage is unchanged.
fn enter(
    shape: &Shape,
    guess: &ExpectedSlate,
    ascent: Ascent,
    values: &[u64],
    stage: &mut Stage,
) -> usize
    requires guess { IsExpectedSlate shape.now guess.now }
    requires held { ascent.held < shape.now.height }
    requires lock { ascent.lock < shape.now.locks }
    ensures within { result ≤ length values.now }
    ensures none { result ≡ 0 → stage.new ≡ stage.old }
    ensures enters { (result ≡ 0 → ⊥) → (worker begun : ℕ)
        → ValuesLeadTo shape.now (climbing_private worker begun ascent.lock ascent.held) (take result values.now)
        (Note.Entered ascent.lock ∷ []) (private_at_stage worker begun stage.new) }
    ensures stage { (result ≡ 0 → ⊥) → (begun : ℕ) → IsStage shape.now begun stage.new }
{
    let swaps = (shape.height - ascent.held) as usize;
    if values.len() < swaps || !are_free(values, swaps) {
        return 0;
    }
    swaps + accept_loads(shape, guess, ascent.lock, &values[swaps..], stage)
}

/// The first `count` values are 0.
fn are_free(values: &[u64], count: usize) -> bool
    requires { count ≤ length values.now }
    ensures { IsTrue result → (i : ℕ) → i < count → slice_index values.now i ≡ 0 }
{
    for at in 0..count {
        if values[at] != 0 {
            return false;
        }
    }
    true
}

/// The loads of a section, or the steps after its script was run.
fn fast_forward_section(
    shape: &Shape,
    guess: &ExpectedSlate,
    values: &[u64],
    private: &mut Private,
    outcome: &mut BatchOutcome,
) -> usize
    requires guess { IsExpectedSlate shape.now guess.now }
    requires private { IsPrivate shape.now private.old }
    requires room { outcome.old.count + length values.now ≤ 96 }
    ensures { FastForward shape.now (noted private.old outcome.old) values.now result (noted private.new outcome.new) }
{
    let Stage::Logging(log) = &private.stage else {
        return 0;
    };
    match log {
        Log::LoadTurn { lock } => {
            let lock = *lock;
            fast_forward_loads(shape, lock, guess, values, private)
        }
        Log::StoreShadows { .. } => fast_forward_finish(shape, values, private, outcome),
        _ => 0,
    }
}

/// The loads of a section, which have no notes.
fn fast_forward_loads(
    shape: &Shape,
    lock: u32,
    guess: &ExpectedSlate,
    values: &[u64],
    private: &mut Private,
) -> usize
    requires guess { IsExpectedSlate shape.now guess.now }
    requires private { IsPrivate shape.now private.old }
    requires here { private.old.stage ≡ Stage.Logging (Log.LoadTurn lock) }
    ensures { (outcome : BatchOutcome)
        → FastForward shape.now (noted private.old outcome) values.now result (noted private.new outcome) }
{
    accept_loads(shape, guess, lock, values, &mut private.stage)
}

/// The loads of a section, if the turn is even and the slate is the expected one; if not, none of them, and the worker
/// is about to load the turn.
fn accept_loads(
    shape: &Shape,
    guess: &ExpectedSlate,
    lock: u32,
    values: &[u64],
    stage: &mut Stage,
) -> usize
    requires guess { IsExpectedSlate shape.now guess.now }
    requires lock { lock < shape.now.locks }
    ensures within { result ≤ length values.now }
    ensures loads { (worker begun : ℕ)
        → ValuesLeadTo shape.now (private_at_stage worker begun (Stage.Logging (Log.LoadTurn lock)))
        (take result values.now) [] (private_at_stage worker begun stage.new) }
    ensures stage { (begun : ℕ) → IsStage shape.now begun stage.new }
{
    if matches_slate(guess, values) {
        let loads = 2 + 3 * guess.script.n() as usize;
        let turn = values[0] as u32;
        let visit = guess.visit(lock, turn);
        if let Some(cells) = run_expected_script(shape, visit, guess, &values[loads..], stage) {
            return loads + cells;
        }
    }
    *stage = Stage::Logging(Log::LoadTurn { lock });
    0
}

/// The values begin with an even turn and the expected slate.
fn matches_slate(guess: &ExpectedSlate, values: &[u64]) -> bool
    requires { guess.now.script.n ≤ 8 }
    ensures { IsTrue result → ValuesMatchSlate guess.now values.now }
{
    let n = guess.script.n() as usize;
    if values.len() < 2 + 3 * n {
        return false;
    }
    if values[0] >= 1 << 32 || values[0] % 2 != 0 || values[1] != n as u64 {
        return false;
    }
    for at in 0..3 * n {
        if values[2 + at] != guess.words[at] {
            return false;
        }
    }
    true
}

/// Puts the values into the named cells of a row of zeros, and answers their number; `None` if values are missing.
fn read_cells(shape: &Shape, named: u64, values: &[u64], row: &mut Row) -> Option<usize>
    requires row { length row.old ≡ shape.now.cells }
    ensures row { length row.new ≡ shape.now.cells }
    ensures within { IfSome result (λ count. count ≤ length values.now) }
    ensures takes { IfSome result (λ count. (worker begun lock turn : ℕ) (script : Program)
        → ValuesLeadTo shape.now (private_at_stage worker begun
        (cell_stage_from shape.now (logging_section lock turn script named) row.old
        (first_cell named 0 shape.now.cells)))
        (take count values.now) []
        (private_at_stage worker begun (run_stage shape.now (logging_section lock turn script named) row.new))) }
{
    let mut count = 0;
    let mut from = 0;
    while let Some(cell) = first_cell(named, from, shape.cells) {
        if count >= values.len() {
            return None;
        }
        row.set(cell, values[count]);
        count += 1;
        from = cell + 1;
    }
    Some(count)
}

/// Runs the script in place on the row of the named cells, and answers the number of cells; `None` if values are
/// missing, and then the stage may be any.
fn run_expected_script(
    shape: &Shape,
    visit: Visit,
    guess: &ExpectedSlate,
    values: &[u64],
    stage: &mut Stage,
) -> Option<usize>
    requires guess { IsExpectedSlate shape.now guess.now }
    requires visit { visit.parity ≡ Parity.Even guess.now.script.n guess.now.named }
    ensures within { IfSome result (λ count. count ≤ length values.now) }
    ensures takes { IfSome result (λ count. (worker begun : ℕ)
        → ValuesLeadTo shape.now (private_at_stage worker begun
        (cell_stage_from shape.now (logging_section visit.lock visit.turn guess.now.script guess.now.named)
        (replicate shape.now.cells 0) (first_cell guess.now.named 0 shape.now.cells)))
        (take count values.now) [] (private_at_stage worker begun stage.new)) }
    ensures stage { IfSome result (λ count. (begun : ℕ) → visit.lock < shape.now.locks
        → IsStage shape.now begun stage.new) }
{
    let named = guess.named;
    let Some(cell) = first_cell(named, 0, shape.cells) else {
        let reply = eval(&guess.script, &mut Row::zeros(*shape));
        *stage = Stage::Logging(Log::StoreShadowReply {
            visit,
            named,
            reply,
        });
        return Some(0);
    };
    *stage = Stage::Logging(Log::StoreShadows {
        visit,
        named,
        row: Row::zeros(*shape),
        reply: 0,
        cell,
    });
    let Stage::Logging(log) = stage else {
        return None;
    };
    let Log::StoreShadows { row, reply, .. } = log else {
        return None;
    };
    let count = read_cells(shape, named, values, row)?;
    *reply = eval(&guess.script, row);
    Some(count)
}

/// The steps from a shadow word to the store that finishes the job, if the copies found what was stored, and, if their
/// values are there, those up to the store that frees the root's node.
fn fast_forward_finish(
    shape: &Shape,
    values: &[u64],
    private: &mut Private,
    outcome: &mut BatchOutcome,
) -> usize
    requires private { IsPrivate shape.now private.old }
    requires room { outcome.old.count + length values.now ≤ 96 }
    ensures { FastForward shape.now (noted private.old outcome.old) values.now result (noted private.new outcome.new) }
{
    let Stage::Logging(log) = &private.stage else {
        return 0;
    };
    let Log::StoreShadows {
        visit,
        named,
        row,
        reply,
        cell,
    } = log
    else {
        return 0;
    };
    let stores = shadow_count(shape, *named, *cell) + 3;
    if values.len() < stores {
        return 0;
    }
    let Some(copies) = find_copies(shape, *named, row, *reply, &values[stores..]) else {
        return 0;
    };
    let receipt = Receipt {
        worker: private.worker,
        lock: visit.lock,
        number: private.begun,
        place: visit.turn / 2,
        reply: *reply,
    };
    let lock = visit.lock;
    let done = stores + copies;
    if frees_root(visit.turn / 2, &values[done..]) {
        private.stage = clearing_stage(lock, shape.height - 1);
        put(outcome, receipt_note(receipt));
        put(outcome, flat_lock_note(LEFT, lock));
        return done + 3;
    }
    private.stage = Stage::Leaving(Departure::LoadExitTurn { lock });
    put(outcome, receipt_note(receipt));
    done
}

/// The number of named cells from `cell` on, where `cell` is one of them.
fn shadow_count(shape: &Shape, named: u64, cell: u32) -> usize
    requires { cell < shape.now.cells }
    ensures blind { (worker begun : ℕ) (visit : Visit) (row : List ℕ) (reply : ℕ)
        → QuietStepsLeadTo shape.now (private_at_stage worker begun
        (Stage.Logging (Log.StoreShadows visit named row reply cell))) result
        (private_at_stage worker begun (Stage.Logging (Log.StoreShadowReply visit named reply))) }
    ensures few { result ≤ shape.now.cells }
{
    let mut count = 1;
    let mut at = cell;
    while let Some(next) = first_cell(named, at + 1, shape.cells) {
        at = next;
        count += 1;
    }
    count
}

/// The number of values of the steps from the load of the mask to the store of `Done`, if the copies found what was
/// stored.
fn find_copies(shape: &Shape, named: u64, row: &Row, reply: u64, values: &[u64]) -> Option<usize>
    requires row { length row.now ≡ shape.now.cells }
    ensures within { IfSome result (λ count. count ≤ length values.now) }
    ensures takes { IfSome result (λ count. (worker begun : ℕ) (visit : Visit)
        → ValuesLeadTo shape.now (private_at_stage worker begun (Stage.Copying (Redo.LoadMask visit)))
        (take count values.now) ((finish_outcome worker begun visit reply).1 ∷ [])
        (private_at_stage worker begun (finish_outcome worker begun visit reply).0)) }
{
    if values.is_empty() || values[0] != named {
        return None;
    }
    let mut count = 1;
    let mut from = 0;
    while let Some(cell) = first_cell(named, from, shape.cells) {
        if values.len() < count + 2 || values[count] != row.get(cell) {
            return None;
        }
        count += 2;
        from = cell + 1;
    }
    if values.len() < count + 5 || values[count] != reply {
        return None;
    }
    Some(count + 5)
}

/// The values begin with the odd turn of a section of this place, and have those of two stores after it.
fn frees_root(place: u32, values: &[u64]) -> bool
    ensures { IsTrue result → ValuesFreeRoot place values.now }
{
    values.len() >= 3 && place < 1 << 31 && values[0] == 2 * u64::from(place) + 1
}

/// The stage of a worker that has `level` more nodes to free.
fn clearing_stage(lock: u32, level: u32) -> Stage
    ensures { result ≡ clear_stage lock level }
{
    if level == 0 {
        return Stage::Resting;
    }
    Stage::Leaving(Departure::Clear { lock, level })
}

/// The stores that free the nodes below the root's.
fn fast_forward_exit(
    shape: &Shape,
    values: &[u64],
    private: &mut Private,
    outcome: &mut BatchOutcome,
) -> usize
    requires private { IsPrivate shape.now private.old }
    requires room { outcome.old.count + length values.now ≤ 96 }
    ensures { FastForward shape.now (noted private.old outcome.old) values.now result (noted private.new outcome.new) }
{
    let Stage::Leaving(departure) = &private.stage else {
        return 0;
    };
    let Departure::Clear { level, .. } = *departure else {
        return 0;
    };
    if level >= shape.height || values.len() < level as usize {
        return 0;
    }
    private.stage = Stage::Resting;
    put(outcome, flat_number_note(READY, 0));
    level as usize
}
