//! Phase Exit: after a section, and the release of nodes without one.

ghost use Rattle.std.specs.Prelude.{◌≡◌, ℕ, ◌+◌, ◌<◌, ◌≤◌, MatchResult};
ghost use Rattle.rme_program.specs.declared.stage.Stage.TheVariants.{Resting, Climbing, Leaving};
ghost use Rattle.rme_program.specs.declared.stage.Departure.TheVariants.{LoadExitTurn};
ghost use Rattle.rme_program.specs.Steps.{clear_stage};
ghost use Rattle.rme_service_steps.specs.Parts.{unchanged_part, withdrawing_part};
ghost use Rattle.rme_service_steps.specs.CallSteps.{seat_call, CallProgress, CallFell, PartIsBeforeStage};

use rme_program::{Ascent, WITHDRAWN_PLACE};
use rme_service_steps::{Chance, Fell, NoChange, Withdraw, WordTable, WorkerSeat, layout};
use rme_tree::node;

/// Releases `levels` nodes of the worker's path, from the highest down. Then the worker is ready.
pub fn clear<C: Chance>(
    seat: &mut WorkerSeat,
    service: &WordTable,
    chance: &mut C,
    lock: u32,
    levels: u32,
) -> Result<(), Fell>
    requires ours { seat.old.ident ≡ service.now }
    requires at { PartIsBeforeStage service.now.shape seat.old.part (clear_stage lock levels) }
    requires levels { levels ≤ service.now.shape.height }
    requires lock { lock < service.now.shape.locks }
    ensures { let call = seat_call service.now.shape unchanged_part seat.old seat.new (C.tally chance.old)
        (C.tally chance.new) in
        MatchResult result (λ _. CallProgress call levels seat.old.part.private.begun Resting)
        (λ _. CallFell call levels) }
{
    let shape = service.shape();
    let worker = seat.worker();
    let mut level = levels;
    while level > 0 {
        let at = layout::node_at(shape, lock, node(shape, worker, level));
        seat.store::<NoChange, C>(service, chance, at, 0)?;
        level -= 1;
    }
    Ok(())
}

/// Phase Exit after a section: increments the turn if it is still that of the section, an odd one, and releases the
/// worker's path from the root down, so that the lock is free. Then the worker is ready.
pub fn leave<C: Chance>(
    seat: &mut WorkerSeat,
    service: &WordTable,
    chance: &mut C,
    lock: u32,
) -> Result<(), Fell>
    requires ours { seat.old.ident ≡ service.now }
    requires at { PartIsBeforeStage service.now.shape seat.old.part (Leaving (LoadExitTurn lock)) }
    ensures { let call = seat_call service.now.shape unchanged_part seat.old seat.new (C.tally chance.old)
        (C.tally chance.new) in
        MatchResult result (λ _. (count : ℕ) × (service.now.shape.height + 1 ≤ count)
        × (count ≤ service.now.shape.height + 2) × CallProgress call count seat.old.part.private.begun Resting)
        (λ _. CallFell call (service.now.shape.height + 2)) }
{
    let shape = service.shape();
    let at = layout::turn_at(shape, lock);
    let turn = seat.load::<NoChange, C>(service, chance, at)?;
    if turn % 2 == 0 {
        return clear(seat, service, chance, lock, shape.height());
    }
    seat.store::<NoChange, C>(service, chance, at, turn + 1)?;
    clear(seat, service, chance, lock, shape.height())
}

/// Phase Exit of a worker that gives up its job while it waits for a lock with some nodes of its path held: stores the
/// receipt of the withdrawal for its last number, and releases those nodes. Then the worker is ready.
pub fn withdraw<C: Chance>(
    seat: &mut WorkerSeat,
    service: &WordTable,
    chance: &mut C,
    ascent: Ascent,
    begun: u32,
) -> Result<(), Fell>
    requires ours { seat.old.ident ≡ service.now }
    requires at { PartIsBeforeStage service.now.shape seat.old.part (Climbing ascent) }
    requires begun { begun ≡ seat.old.part.private.begun }
    ensures { let call = seat_call service.now.shape withdrawing_part seat.old seat.new (C.tally chance.old)
        (C.tally chance.new) in
        MatchResult result (λ _. CallProgress call (4 + ascent.held) seat.old.part.private.begun Resting)
        (λ _. CallFell call (4 + ascent.held)) }
{
    let shape = service.shape();
    let worker = seat.worker();
    let place = layout::place_at(shape, worker);
    seat.store::<Withdraw, C>(service, chance, place, WITHDRAWN_PLACE)?;
    let at = layout::receipt_lock_at(shape, worker);
    seat.store::<NoChange, C>(service, chance, at, ascent.lock as u64)?;
    let reply = layout::reply_at(shape, worker);
    seat.store::<NoChange, C>(service, chance, reply, 0)?;
    let done = layout::done_at(shape, worker);
    seat.store::<NoChange, C>(service, chance, done, begun as u64)?;
    clear(seat, service, chance, ascent.lock, ascent.held)
}
