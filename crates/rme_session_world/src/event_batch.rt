//! The event batch of an order.

ghost use Rattle.std.specs.Prelude.{◌≡◌};
ghost use Rattle.rme_session_world.specs.SessionBatches.{batch_with_events, has_events};

use rme_script::Job;

/// The first event of an order.
#[derive(Clone, Copy)]
pub enum BatchStart {
    /// The worker restarts.
    Restart,
    /// A job is submitted to it.
    Submit(Job),
    /// It begins to withdraw its job.
    Withdraw,
    /// It continues without such an event.
    GoOn,
}

/// The events of an order, all of one worker.
#[derive(Clone, Copy)]
pub struct EventBatch {
    pub worker: u32,
    pub begins: BatchStart,
    /// The number of own steps after that.
    pub steps: u32,
    /// Whether a crash follows.
    pub falls: bool,
}

impl EventBatch {
    /// Whether the batch has an event.
    fn has_events(&self) -> bool
        ensures { result ≡ has_events self.now }
    {
        !matches!(self.begins, BatchStart::GoOn) || self.steps > 0 || self.falls
    }
}

/// A batch that has events, or none.
pub(crate) fn batch_with_events(batch: Option<EventBatch>) -> Option<EventBatch>
    ensures { result ≡ batch_with_events batch }
{
    let batch = batch?;
    if batch.has_events() {
        Some(batch)
    } else {
        None
    }
}
