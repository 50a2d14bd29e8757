//! Phase Enter: one sweep up the worker's path.

ghost use Rattle.std.specs.Prelude.{◌≡◌, MatchResult};
ghost use Rattle.rme_program.specs.declared.stage.Stage.TheVariants.{Climbing};
ghost use Rattle.rme_service_steps.specs.Parts.{unchanged_part};
ghost use Rattle.rme_service_steps.specs.CallSteps.{seat_call, CallFell, PartIsBeforeStage};
ghost use Rattle.rme_service_phases.specs.Climbs.{SweepSteps};

use rme_service_steps::{Chance, Fell, NoChange, WordSwap, WordTable, WorkerSeat, layout};
use rme_tree::{node, side};

/// How a sweep ended.
#[derive(Clone, Copy)]
pub enum Climbed {
    /// The worker owns the lock.
    Entered,
    /// The worker holds `held` nodes of its path, and another worker has the next one.
    Blocked { held: u32 },
}

/// Phase Enter of a worker that holds `held` nodes of its path in this lock: takes one node after another from its own
/// side, until it has the root or finds a node that is not free.
pub fn climb<C: Chance>(
    seat: &mut WorkerSeat,
    service: &WordTable,
    chance: &mut C,
    lock: u32,
    held: u32,
) -> Result<Climbed, Fell>
    requires ours { seat.old.ident ≡ service.now }
    requires at { PartIsBeforeStage service.now.shape seat.old.part (Climbing record { lock = lock; held = held }) }
    ensures { let call = seat_call service.now.shape unchanged_part seat.old seat.new (C.tally chance.old)
        (C.tally chance.new) in
        MatchResult result (λ climbed. SweepSteps call lock held climbed)
        (λ _. CallFell call service.now.shape.height) }
{
    let shape = service.shape();
    let worker = seat.worker();
    let mut level = held;
    while level < shape.height {
        let at = layout::node_at(shape, lock, node(shape, worker, level + 1));
        let own = side(shape, worker, level + 1);
        let words = WordSwap { from: 0, to: own };
        let found = seat.swap::<NoChange, C>(service, chance, at, words)?;
        if found != 0 {
            return Ok(Climbed::Blocked { held: level });
        }
        level += 1;
    }
    Ok(Climbed::Entered)
}
