//! The phase of a worker.

use crate::world::World;
use rme_program::{Phase, phase};

impl World {
    ghost use Rattle.std.specs.Prelude.{◌≡◌, Some};
    ghost use Rattle.rme_program.specs.declared.kinds.Phase.TheVariants.{Section};
    ghost use Rattle.rme_world.specs.Queries.{WorkerOwnsItsLock, world_phase};
    ghost use Rattle.rme_world.specs.WorldInvariants.{WorldInvariant};

    /// The phase of a worker; `None` if it is down or there is no such worker. A worker in phase Section owns the lock
    /// that its slate names, by the words as `owner` reads them.
    pub fn phase(&self, worker: u32) -> Option<Phase>
        ensures kept { WorldInvariant self.now }
        ensures phase { result ≡ world_phase self.now worker }
        ensures owns { result ≡ Some Section → WorkerOwnsItsLock self.now worker }
    {
        self.phase_at(worker)
    }

    /// The phase of a worker's private state, if it has one.
    fn phase_at(&self, worker: u32) -> Option<Phase>
        ensures kept { WorldInvariant self.now }
        ensures phase { result ≡ world_phase self.now worker }
    {
        match self.privates.get(worker as usize) {
            Some(Some(private)) => Some(phase(private)),
            _ => None,
        }
    }
}
