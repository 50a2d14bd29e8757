//! Phase Section until the turn is odd: the worker runs its script and logs the result.

ghost use Rattle.std.specs.Prelude.{◌≡◌, ◌<◌, ◌≤◌, ◌+◌, ◌*◌, ◌^◌, ℕ, List, Some, length, replicate};
ghost use Rattle.rme_words.specs.Words.{IsShapeAddress};
ghost use Rattle.rme_script.specs.Programs.{Program};
ghost use Rattle.rme_script.specs.Scripts.{IsScript};
ghost use Rattle.rme_script.specs.Slates.{script_from_words};
ghost use Rattle.rme_program.specs.declared.stage.Stage.{Stage};
ghost use Rattle.rme_program.specs.declared.stage.Log.{Log};
ghost use Rattle.rme_program.specs.declared.stage.Visit.{Visit};
ghost use Rattle.rme_program.specs.Steps.{log_action, after_log, log_or_copy_stage, turn_stage, slate_stage, script_stage, shadow_stage_from, even_visit, run_stage, logging_section};
ghost use Rattle.rme_program.specs.Masks.{first_cell};
ghost use Rattle.rme_script.specs.Eval.{eval_of};
ghost use Rattle.rme_program.specs.Conditions.{IsLogStage, IsStage, IsValidLoad};
ghost use Rattle.rme_program.specs.ActionEffects.{action_address};

use crate::action::Action;
use crate::masks::{first_cell, mask_of};
use crate::stage::{Log, Parity, Visit};
use rme_script::{Row, Script, eval, from_slate};
use rme_words::{Address, Shape};

pub fn action(shape: Shape, worker: u32, log: &Log) -> Action
    requires worker { worker < shape.workers }
    requires stage { IsLogStage shape log.now }
    ensures action { result ≡ log_action worker log.now }
    ensures within { IsShapeAddress shape (action_address result) }
{
    match log {
        Log::LoadTurn { lock } => Action::Load(Address::Turn(*lock)),
        Log::LoadLen { .. } => Action::Load(Address::SlateLen(worker)),
        Log::LoadSlate { loaded, .. } => {
            Action::Load(Address::SlateWord(worker, *loaded / 3, *loaded % 3))
        }
        Log::LoadCells { lock, cell, .. } => Action::Load(Address::Cell(*lock, *cell)),
        Log::StoreShadows {
            visit,
            row,
            cell,
            ..
        } => Action::Store(Address::Shadow(visit.lock, *cell), row.get(*cell)),
        Log::StoreShadowReply { visit, reply, .. } => Action::Store(
            Address::ShadowReply(visit.lock),
            *reply,
        ),
        Log::StoreMask { visit, named } => Action::Store(Address::Mask(visit.lock), *named),
        Log::StoreTurn { visit } => Action::Store(
            Address::Turn(visit.lock),
            u64::from(visit.turn) + 1,
        ),
    }
}

/// Updates the stage; answers the visit once everything is logged, so that the copying comes next.
pub fn after(shape: Shape, log: &mut Log, value: u64) -> Option<Visit>
    requires stage { IsLogStage shape log.old }
    requires value { IsValidLoad shape (Stage.Logging log.old) value }
    ensures after { log_or_copy_stage log.new result ≡ after_log shape log.old value }
    ensures stage { (begun : ℕ) → IsStage shape begun (log_or_copy_stage log.new result) }
{
    match *log {
        Log::LoadTurn { lock } => return after_turn(lock, value as u32, log),
        Log::LoadLen { lock, turn } => after_len(shape, lock, turn, value as u32, log),
        Log::LoadSlate { .. } => after_word(shape, log, value),
        Log::LoadCells { .. } => after_cell(shape, log, value),
        Log::StoreShadows { .. } => after_shadow(shape, log),
        Log::StoreShadowReply { visit, named, .. } => *log = Log::StoreMask { visit, named },
        Log::StoreMask { visit, .. } => *log = Log::StoreTurn { visit },
        Log::StoreTurn { visit } => return Some(visit),
    }
    None
}

/// The turn is known: if it is odd, everything is logged already.
fn after_turn(lock: u32, turn: u32, log: &mut Log) -> Option<Visit>
    ensures { log_or_copy_stage log.new result ≡ turn_stage lock turn }
{
    if turn % 2 == 0 {
        *log = Log::LoadLen { lock, turn };
        return None;
    }
    Some(Visit {
        lock,
        turn,
        parity: Parity::Odd,
    })
}

/// The number of operations is known, and none of their words.
fn after_len(shape: Shape, lock: u32, turn: u32, operations: u32, log: &mut Log)
    requires lock { lock < shape.locks }
    requires few { operations ≤ 8 }
    ensures after { Stage.Logging log.new ≡ slate_stage shape lock turn operations (replicate 24 0) 0 }
    ensures stage { IsLogStage shape log.new }
{
    if operations == 0 {
        *log = script_log(shape, lock, turn, Script::of(&[]));
        return;
    }
    *log = Log::LoadSlate {
        lock,
        turn,
        operations,
        words: [0; 24],
        loaded: 0,
    };
}

/// One more word of the slate is known.
fn after_word(shape: Shape, log: &mut Log, value: u64)
    requires here { (lock : ℕ) × (turn : ℕ) × (operations : ℕ) × (words : List ℕ) × (loaded : ℕ)
        × (log.old ≡ Log.LoadSlate lock turn operations words loaded) }
    requires stage { IsLogStage shape log.old }
    requires value { IsValidLoad shape (Stage.Logging log.old) value }
    ensures after { Stage.Logging log.new ≡ after_log shape log.old value }
    ensures stage { IsLogStage shape log.new }
{
    let Log::LoadSlate {
        lock,
        turn,
        operations,
        loaded,
        ..
    } = *log
    else {
        unreachable!();
    };
    let Log::LoadSlate { words, .. } = log else {
        unreachable!();
    };
    words[loaded as usize] = value;
    if loaded + 1 == 3 * operations {
        *log = slate_log(shape, lock, turn, operations, words);
        return;
    }
    let Log::LoadSlate { loaded, .. } = log else {
        unreachable!();
    };
    *loaded += 1;
}

/// The whole slate is known.
fn slate_log(shape: Shape, lock: u32, turn: u32, operations: u32, words: &[u64; 24]) -> Log
    requires lock { lock < shape.locks }
    requires few { operations ≤ 8 }
    requires script { (script : Program) × (script_from_words operations words.now ≡ Some script)
        × IsScript shape.cells script }
    ensures after { Stage.Logging result ≡ script_stage shape lock turn (script_from_words operations words.now) }
    ensures stage { IsLogStage shape result }
{
    let Some(script) = from_slate(u64::from(operations), words) else {
        unreachable!();
    };
    script_log(shape, lock, turn, script)
}

/// The script is known, and none of the cells that it names.
fn script_log(shape: Shape, lock: u32, turn: u32, script: Script) -> Log
    requires lock { lock < shape.locks }
    requires script { IsScript shape.cells script }
    ensures after { Stage.Logging result ≡ script_stage shape lock turn (Some script) }
    ensures stage { IsLogStage shape result }
{
    let named = mask_of(&script);
    let row = Row::zeros(shape);
    match first_cell(named, 0, shape.cells) {
        Some(cell) => Log::LoadCells {
            lock,
            turn,
            script,
            named,
            row,
            cell,
        },
        None => run_log(
            shape,
            even_visit(lock, turn, &script, named),
            &script,
            named,
            row,
        ),
    }
}

/// One more cell is known; after the last named cell the script is run.
fn after_cell(shape: Shape, log: &mut Log, value: u64)
    requires here { (lock : ℕ) × (turn : ℕ) × (script : Program) × (named : ℕ) × (row : List ℕ) × (cell : ℕ)
        × (log.old ≡ Log.LoadCells lock turn script named row cell) }
    requires stage { IsLogStage shape log.old }
    ensures after { Stage.Logging log.new ≡ after_log shape log.old value }
    ensures stage { IsLogStage shape log.new }
{
    let Log::LoadCells { named, cell, .. } = *log else {
        unreachable!();
    };
    let Log::LoadCells { row, .. } = log else {
        unreachable!();
    };
    row.set(cell, value);
    match first_cell(named, cell + 1, shape.cells) {
        Some(next) => {
            let Log::LoadCells { cell, .. } = log else {
                unreachable!();
            };
            *cell = next;
        }
        None => *log = run_script(shape, log),
    }
}

/// All named cells are known.
fn run_script(shape: Shape, log: &Log) -> Log
    requires here { (lock : ℕ) × (turn : ℕ) × (script : Program) × (named : ℕ) × (row : List ℕ) × (cell : ℕ)
        × (log.now ≡ Log.LoadCells lock turn script named row cell) }
    requires stage { IsLogStage shape log.now }
    ensures after { (lock : ℕ) (turn : ℕ) (script : Program) (named : ℕ) (row : List ℕ) (cell : ℕ)
        → log.now ≡ Log.LoadCells lock turn script named row cell
        → Stage.Logging result ≡ run_stage shape (logging_section lock turn script named) row }
    ensures stage { IsLogStage shape result }
{
    match log {
        Log::LoadCells {
            lock,
            turn,
            script,
            named,
            row,
            ..
        } => run_log(
            shape,
            even_visit(*lock, *turn, script, *named),
            script,
            *named,
            *row,
        ),
        _ => unreachable!(),
    }
}

/// The section at this even turn, of a script that names these cells.
fn even_visit(lock: u32, turn: u32, script: &Script, named: u64) -> Visit
    ensures { result ≡ even_visit lock turn script.now named }
{
    let parity = Parity::Even {
        operations: script.n(),
        cells: named,
    };
    Visit { lock, turn, parity }
}

/// The script is run on the named cells.
fn run_log(shape: Shape, visit: Visit, script: &Script, named: u64, mut row: Row) -> Log
    requires lock { visit.lock < shape.locks }
    requires script { IsScript shape.cells script.now }
    requires row { length row ≡ shape.cells }
    ensures after { Stage.Logging result ≡ shadow_stage_from visit named (eval_of script.now.ops row).row
        (eval_of script.now.ops row).reply (first_cell named 0 shape.cells) }
    ensures stage { IsLogStage shape result }
{
    let reply = eval(script, &mut row);
    match first_cell(named, 0, shape.cells) {
        Some(cell) => Log::StoreShadows {
            visit,
            named,
            row,
            reply,
            cell,
        },
        None => Log::StoreShadowReply {
            visit,
            named,
            reply,
        },
    }
}

/// One more shadow word is stored.
fn after_shadow(shape: Shape, log: &mut Log)
    requires here { (visit : Visit) × (named : ℕ) × (row : List ℕ) × (reply : ℕ) × (cell : ℕ)
        × (log.old ≡ Log.StoreShadows visit named row reply cell) }
    requires stage { IsLogStage shape log.old }
    ensures after { (value : ℕ) → Stage.Logging log.new ≡ after_log shape log.old value }
    ensures stage { IsLogStage shape log.new }
{
    let Log::StoreShadows {
        visit,
        named,
        reply,
        cell,
        ..
    } = *log
    else {
        unreachable!();
    };
    let Some(next) = first_cell(named, cell + 1, shape.cells) else {
        *log = Log::StoreShadowReply {
            visit,
            named,
            reply,
        };
        return;
    };
    let Log::StoreShadows { cell, .. } = log else {
        unreachable!();
    };
    *cell = next;
}
