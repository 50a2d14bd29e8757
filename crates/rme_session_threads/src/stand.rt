//! What a session holds.

use rme_session_protocol::PlannedCrash;
use rme_table::{Climb, Down, Held, Ready};

/// What a session holds of a worker. It cannot be dropped: `Stand::crash` spends its worker.
pub enum Holding {
    /// The session has no worker.
    Empty,
    /// The worker is ready for a job.
    Ready(Ready),
    /// The worker's job waits for its lock.
    Climb(Climb),
    /// The worker owns its job's lock, and the job is not finished.
    Held(Held),
}

/// A session between two orders: what it holds, the planned crash, and the life of its worker.
pub struct Stand {
    pub value: Holding,
    pub planned: PlannedCrash,
    /// The number of the worker's restarts; 0 without a worker.
    pub life: u64,
}

impl Stand {
    ghost use Rattle.std.specs.Prelude.{◌≡◌};
    ghost use Rattle.rme_session_threads.specs.Stands.{held_worker, empty_stand, held_worker_number};

    /// No worker, and nothing planned.
    pub fn empty() -> Stand
        ensures { result ≡ empty_stand }
    {
        Stand {
            value: Holding::Empty,
            planned: PlannedCrash::Nothing,
            life: 0,
        }
    }

    /// The number of the held worker, if any.
    pub fn worker(&self) -> Option<u32>
        ensures { result ≡ held_worker_number (held_worker self.now.value) }
    {
        match &self.value {
            Holding::Empty => None,
            Holding::Ready(ready) => Some(ready.worker()),
            Holding::Climb(climb) => Some(climb.worker()),
            Holding::Held(held) => Some(held.worker()),
        }
    }

    /// Crashes the worker, if there is one.
    pub fn crash(self) -> Option<Down>
        ensures { result ≡ held_worker self.value }
    {
        let Stand {
            value,
            planned: _,
            life: _,
        } = self;
        match value {
            Holding::Empty => None,
            Holding::Ready(ready) => Some(ready.crash()),
            Holding::Climb(climb) => Some(climb.crash()),
            Holding::Held(held) => Some(held.crash()),
        }
    }
}
