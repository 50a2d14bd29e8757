//! Whether the workers of a world are in the places in which sessions left them.

ghost use Rattle.std.specs.Prelude.{◌≡◌, ◌<◌, IsTrue};
ghost use Rattle.rme_session_world.specs.ExecutorStates.{IsWorkerInPlace, ExecutorInvariant};
ghost use Rattle.rme_session_world.specs.WorkerSessions.{IsAtRest, is_resting_phase};

use rme_program::{Phase, phase};
use rme_world::World;

/// Whether each worker with a holder is at rest, and every other is down.
pub(crate) fn are_workers_in_place(world: &World, holders: &[Option<u64>]) -> bool
    ensures { IsTrue result → ExecutorInvariant record { world = world.now; holders = holders.now } }
{
    let workers = world.shape().workers;
    if holders.len() != workers as usize {
        return false;
    }
    for worker in 0..workers {
        if !is_worker_in_place(world, worker, holders[worker as usize]) {
            return false;
        }
    }
    true
}

/// Whether a worker is at rest if it has a holder, and down if it has none.
fn is_worker_in_place(world: &World, worker: u32, holder: Option<u64>) -> bool
    requires { worker < world.now.shape.workers }
    ensures { IsTrue result → IsWorkerInPlace world.now worker holder }
{
    match holder {
        Some(_) => is_worker_at_rest(world, worker),
        None => world.known(worker).is_none(),
    }
}

/// Whether a worker is up and at rest.
fn is_worker_at_rest(world: &World, worker: u32) -> bool
    ensures { IsTrue result → IsAtRest world.now worker }
{
    match world.known(worker) {
        Some(private) => is_resting_phase(phase(&private)),
        None => false,
    }
}

/// Whether an order may leave a worker in this phase.
fn is_resting_phase(phase: Phase) -> bool
    ensures { result ≡ is_resting_phase phase }
{
    match phase {
        Phase::Ready | Phase::Enter | Phase::Section => true,
        Phase::Recover | Phase::Post | Phase::Exit => false,
    }
}
