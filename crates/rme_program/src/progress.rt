//! The progress of a worker: its phase, and the steps left in it.

ghost use Rattle.std.specs.Prelude.{◌≡◌, ◌≤◌, ◌+◌};
ghost use Rattle.rme_program.specs.Phases.{mask_cells_below, phase_of, steps_left, recovery_steps_left, log_steps_left, redo_steps_left, departure_steps_left};
ghost use Rattle.rme_program.specs.Progress.{IsOnTrack, StepsLeftInAnyStay, IsWithinStayLimit};
ghost use Rattle.rme_program.specs.Conditions.{IsPrivate, IsRecoveryStage, IsLogStage, IsRedoStage, IsDepartureStage};

use crate::kinds::Phase;
use crate::private::Private;
use crate::stage::{Departure, Log, Recovery, Redo, Stage};
use rme_script::cell_count;
use rme_words::Shape;

/// The phase of a worker.
pub fn phase(private: &Private) -> Phase
    ensures { result ≡ phase_of private.now.stage }
{
    match private.stage {
        Stage::Resting => Phase::Ready,
        Stage::Recovering(_) => Phase::Recover,
        Stage::Posting(_) => Phase::Post,
        Stage::Climbing(_) => Phase::Enter,
        Stage::Logging(_) | Stage::Copying(_) => Phase::Section,
        Stage::Leaving(_) => Phase::Exit,
    }
}

/// An upper bound for the own steps that a worker has left in its phase, without blocked ones.
///
/// Until the mask of a section is loaded, the bound allows for all cells of the lock: a script that names fewer cells
/// takes fewer steps.
#[tactic(auto, using(crate::proofs::Columns::column_by, crate::proofs::Columns::most_by))]
pub fn left(shape: Shape, private: &Private) -> u32
    requires { IsPrivate shape private.now }
    ensures left { result ≡ steps_left shape private.now.stage }
    ensures column { StepsLeftInAnyStay shape private.now result }
    ensures most { IsOnTrack private.now.stage → IsWithinStayLimit shape private.now.stage result }
{
    match private.stage {
        Stage::Resting => 0,
        Stage::Recovering(recovery) => recovery_steps_left(shape, recovery),
        Stage::Posting(slate) => 3 + 3 * slate.job.script.n() - slate.stored,
        Stage::Climbing(ascent) => shape.height - ascent.held,
        Stage::Logging(log) => log_steps_left(shape, log),
        Stage::Copying(redo) => redo_steps_left(shape, redo),
        Stage::Leaving(departure) => departure_steps_left(shape, departure),
    }
}

fn recovery_steps_left(shape: Shape, recovery: Recovery) -> u32
    requires { IsRecoveryStage shape recovery }
    ensures { result ≡ recovery_steps_left shape recovery }
{
    match recovery {
        Recovery::LoadBegun => shape.height + 3,
        Recovery::LoadDone => shape.height + 2,
        Recovery::LoadLock { .. } => shape.height + 1,
        Recovery::LoadPath { held, .. } => shape.height - held,
    }
}

fn log_steps_left(shape: Shape, log: Log) -> u32
    requires { IsLogStage shape log }
    ensures { result ≡ log_steps_left shape log }
{
    let cells = shape.cells;
    match log {
        Log::LoadTurn { .. } => 35 + 4 * cells,
        Log::LoadLen { .. } => 34 + 4 * cells,
        Log::LoadSlate {
            operations,
            loaded,
            ..
        } => 9 + 3 * operations + 4 * cells - loaded,
        Log::LoadCells { named, cell, .. } => {
            9 + 2 * cell_count(named, cells) + 2 * cells - cell_count(named, cell)
        }
        Log::StoreShadows { named, cell, .. } => {
            9 + cell_count(named, cells) + 2 * cells - cell_count(named, cell)
        }
        Log::StoreShadowReply { .. } => 9 + 2 * cells,
        Log::StoreMask { .. } => 8 + 2 * cells,
        Log::StoreTurn { .. } => 7 + 2 * cells,
    }
}

/// The number of cells of a mask at or after `cell` and below `cells`.
fn cells_left(mask: u64, cell: u32, cells: u32) -> u32
    requires within { cell ≤ cells }
    requires few { cells ≤ 16 }
    ensures sum { result + mask_cells_below mask cell ≡ mask_cells_below mask cells }
    ensures most { result ≤ cells }
{
    cell_count(mask, cells) - cell_count(mask, cell)
}

fn redo_steps_left(shape: Shape, redo: Redo) -> u32
    requires { IsRedoStage shape redo }
    ensures { result ≡ redo_steps_left shape redo }
{
    let cells = shape.cells;
    match redo {
        Redo::LoadMask { .. } => 6 + 2 * cells,
        Redo::LoadShadow { mask, cell, .. } => 5 + 2 * cells_left(mask, cell, cells),
        Redo::StoreCell { mask, cell, .. } => 4 + 2 * cells_left(mask, cell, cells),
        Redo::LoadReply { .. } => 5,
        Redo::StoreReply { .. } => 4,
        Redo::StorePlace { .. } => 3,
        Redo::StoreAt { .. } => 2,
        Redo::StoreDone { .. } => 1,
    }
}

fn departure_steps_left(shape: Shape, departure: Departure) -> u32
    requires { IsDepartureStage shape departure }
    ensures { result ≡ departure_steps_left shape departure }
{
    match departure {
        Departure::LoadExitTurn { .. } => shape.height + 2,
        Departure::StoreExitTurn { .. } => shape.height + 1,
        Departure::Clear { level, .. } => level,
        Departure::WithdrawPlace { held, .. } => 4 + held,
        Departure::WithdrawAt { held, .. } => 3 + held,
        Departure::WithdrawReply { held, .. } => 2 + held,
        Departure::WithdrawDone { held, .. } => 1 + held,
    }
}
