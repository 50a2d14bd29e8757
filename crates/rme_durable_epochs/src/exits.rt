//! Workers that crashed between their section and their exit: found, and let out of their locks.

ghost use Rattle.std.specs.Prelude.{◌≡◌, ◌<◌};
ghost use Rattle.rme_durable_epochs.specs.EpochLengths.{jobless_owner};

use crate::apply_error::ApplyError;
use crate::epoch_executor::EpochExecutor;
use rme_session_protocol::{Attachment, Order};
use rme_session_world::SessionState;
use rme_wire::Names;
use rme_world::World;

impl EpochExecutor {
    ghost use Rattle.std.specs.Prelude.{◌≡◌, ◌<◌, ℕ, IfNone, IfSome, None, OnOk, Some};
    ghost use Rattle.rme_durable_epochs.specs.EpochLengths.{jobless_owner};
    ghost use Rattle.rme_durable_epochs.specs.LoggedStates.{LoggedState, LoggedStep, LoggedSteps, logged_state};

    /// A worker that finished its job and crashed before it left the lock, if there is one: a new epoch cannot have it
    /// inside.
    pub fn crashed_before_exit(&self) -> Option<u32>
        ensures found { IfSome result (λ worker. (lock : ℕ) × (lock < self.now.executor.world.shape.locks)
            × (jobless_owner self.now.executor.world lock ≡ Some worker)) }
        ensures none { IfNone result ((lock : ℕ) → lock < self.now.executor.world.shape.locks
            → jobless_owner self.now.executor.world lock ≡ None) }
    {
        let world = self.executor().world();
        for lock in 0..world.shape().locks {
            if let Some(owner) = jobless_owner(world, lock) {
                return Some(owner);
            }
        }
        None
    }

    /// Lets each worker leave the lock of its finished job that crashed before it left: a new epoch cannot have it
    /// inside. A session of this number does it, which attaches such a worker and ends; it is the number of no other
    /// session. After an error some of them may have left.
    pub fn finish_exits(&mut self, names: &Names, session: u64) -> Result<(), ApplyError>
        ensures written { OnOk result ((count : ℕ) × LoggedSteps names.now session count
            (logged_state self.old.executor self.old.lives self.old.lines)
            (logged_state self.new.executor self.new.lives self.new.lines)) }
        ensures base { self.new.base ≡ self.old.base }
        ensures epoch { self.new.epoch ≡ self.old.epoch }
        ensures taken { self.new.taken ≡ self.old.taken }
    {
        for _ in 0..self.executor().world().shape().locks {
            let Some(worker) = self.crashed_before_exit() else {
                return Ok(());
            };
            self.finish_exit(names, session, worker)?;
        }
        Ok(())
    }

    /// Attaches a worker that crashed, which leaves the lock of its finished job, and detaches it again.
    fn finish_exit(&mut self, names: &Names, session: u64, worker: u32) -> Result<(), ApplyError>
        ensures written { OnOk result ((mid : LoggedState)
            × LoggedStep names.now session (logged_state self.old.executor self.old.lives self.old.lines) mid
            × LoggedStep names.now session mid (logged_state self.new.executor self.new.lives self.new.lines)) }
        ensures base { self.new.base ≡ self.old.base }
        ensures epoch { self.new.epoch ≡ self.old.epoch }
        ensures taken { self.new.taken ≡ self.old.taken }
    {
        let mut session = SessionState::new(session);
        let order = Order::Attach(Attachment {
            worker,
            take: false,
            after: None,
            label: None,
        });
        let attached = self.execute(names, &mut session, &order);
        self.detach_session(names, &mut session)?;
        match attached {
            Ok(_) => Ok(()),
            Err(why) => Err(why),
        }
    }
}

/// The owner of a lock, if it has no pending job.
fn jobless_owner(world: &World, lock: u32) -> Option<u32>
    requires { lock < world.now.shape.locks }
    ensures { result ≡ jobless_owner world.now lock }
{
    let Ok(Some(owner)) = world.owner(lock) else {
        return None;
    };
    if owner >= world.shape().workers || world.pending(owner).is_some() {
        return None;
    }
    Some(owner)
}
