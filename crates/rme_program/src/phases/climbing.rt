//! Phase Enter: a worker takes the nodes of its path, from the leaf upward.

ghost use Rattle.std.specs.Prelude.{◌≡◌, ◌<◌, ◌≤◌, ◌+◌, ℕ};
ghost use Rattle.rme_words.specs.Words.{IsShapeAddress};
ghost use Rattle.rme_program.specs.Steps.{with_quiet_note, ascent_action, after_ascent, after_taken_node};
ghost use Rattle.rme_program.specs.Conditions.{IsStage};
ghost use Rattle.rme_program.specs.ActionEffects.{action_address};

use crate::action::Action;
use crate::note::Note;
use crate::stage::{Ascent, Log, Stage};
use rme_tree::{node, side};
use rme_words::{Address, Shape};

pub fn action(shape: Shape, worker: u32, ascent: &Ascent) -> Action
    requires worker { worker < shape.workers }
    requires lock { ascent.now.lock < shape.locks }
    requires held { ascent.now.held < shape.height }
    ensures action { result ≡ ascent_action shape worker ascent.now }
    ensures within { IsShapeAddress shape (action_address result) }
{
    let level = ascent.held + 1;
    Action::Swap(
        Address::Node(ascent.lock, node(shape, worker, level)),
        0,
        side(shape, worker, level),
    )
}

pub fn after(shape: Shape, ascent: Ascent, stage: &mut Stage, value: u64) -> Note
    requires here { stage.old ≡ Stage.Climbing ascent }
    requires lock { ascent.lock < shape.locks }
    requires held { ascent.held < shape.height }
    ensures after { (stage.new, result) ≡ after_ascent shape ascent value }
    ensures stage { (begun : ℕ) → IsStage shape begun stage.new }
{
    if value == 0 {
        return after_taken_node(shape, ascent.lock, ascent.held + 1, stage);
    }
    Note::Blocked
}

/// One more node is the worker's; the root gives it the lock.
fn after_taken_node(shape: Shape, lock: u32, held: u32, stage: &mut Stage) -> Note
    requires lock { lock < shape.locks }
    requires held { held ≤ shape.height }
    ensures after { (stage.new, result) ≡ after_taken_node shape lock held }
    ensures stage { (begun : ℕ) → IsStage shape begun stage.new }
{
    if held == shape.height {
        *stage = Stage::Logging(Log::LoadTurn { lock });
        return Note::Entered(lock);
    }
    continue_climb(stage, Ascent { lock, held })
}

/// The worker wants its next node, and the note is quiet. A stage is wide, so within its phase only its own part is
/// written.
fn continue_climb(stage: &mut Stage, ascent: Ascent) -> Note
    ensures { (stage.new, result) ≡ with_quiet_note (Stage.Climbing ascent) }
{
    match stage {
        Stage::Climbing(now) => *now = ascent,
        _ => *stage = Stage::Climbing(ascent),
    }
    Note::Quiet
}
