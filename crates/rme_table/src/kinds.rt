//! The values of a worker that is up, one for each kind of call.

use crate::down::Down;
use crate::exit_form::ExitForm;
use rme_service_steps::WorkerSeat;
use rme_words::Refusal;
use std::marker::Model;

/// A worker that is ready for a job.
///
/// It may be dropped; that worker is then lost to the service.
#[derive(Drop)]
pub struct Ready {
    pub(crate) seat: WorkerSeat,
    pub(crate) begun: u32,
}

/// A worker that waits for the lock of its job, and holds the first nodes of its path from the leaf upward.
///
/// It cannot be dropped: call `try_enter` or `withdraw`, or `crash`.
pub struct Climb {
    pub(crate) seat: WorkerSeat,
    pub(crate) begun: u32,
    pub(crate) lock: u32,
    pub(crate) held: u32,
}

/// A worker that owns the lock of its job, which is pending, or already finished if its section was finished before a
/// crash.
///
/// It cannot be dropped: call `perform`, or `crash`.
pub struct Held {
    pub(crate) seat: WorkerSeat,
    pub(crate) begun: u32,
    pub(crate) lock: u32,
    pub(crate) pending: bool,
}

/// A worker whose job is finished, and that has nodes to release.
///
/// It cannot be dropped: call `exit`, or `crash`.
pub struct Leave {
    pub(crate) seat: WorkerSeat,
    pub(crate) begun: u32,
    pub(crate) lock: u32,
    pub(crate) way: ExitForm,
}

/// The result of a recovery.
pub enum Stance {
    /// No job is pending, and no node is held.
    Ready(Ready),
    /// The job waits for its lock.
    Climb(Climb),
    /// The worker owns the lock of its job: it has re-entered.
    Held(Held),
    /// The job is finished and the lock released; nodes below the root are still to be released.
    Leave(Leave),
}

/// The outcome of a post.
pub enum Posted {
    /// The job has its number, and the worker waits for its lock.
    Asked(Climb),
    /// The worker crashed.
    Fell(Down),
    /// The job was refused, and nothing has changed.
    Refused(Ready, Refusal),
}

/// The outcome of a sweep of `try_enter`.
pub enum Sweep {
    /// The worker owns the lock.
    Got(Held),
    /// Another worker holds the next node; this worker keeps the nodes that it holds.
    Blocked(Climb),
    /// The worker crashed.
    Fell(Down),
}

impl Model for Ready {
    ghost use Rattle.rme_service_steps.specs.SeatViews.{SeatView};
    ghost use Rattle.rme_table.specs.Kinds.{ReadyInvariant};

    ghost Value = { SeatView };

    ghost view = { λ ready. ready.seat };

    ghost invariant = { λ ready. ReadyInvariant ready.seat ready.begun };
}

impl Model for Climb {
    ghost use Rattle.rme_service_steps.specs.SeatViews.{SeatView};
    ghost use Rattle.rme_table.specs.Kinds.{ClimbInvariant};

    ghost Value = { SeatView };

    ghost view = { λ climb. climb.seat };

    ghost invariant = { λ climb. ClimbInvariant climb.seat climb.begun climb.lock climb.held };
}

impl Model for Held {
    ghost use Rattle.rme_service_steps.specs.SeatViews.{SeatView};
    ghost use Rattle.rme_table.specs.Kinds.{HeldInvariant};

    ghost Value = { SeatView };

    ghost view = { λ held. held.seat };

    ghost invariant = { λ held. HeldInvariant held.seat held.begun held.lock held.pending };
}

impl Model for Leave {
    ghost use Rattle.rme_service_steps.specs.SeatViews.{SeatView};
    ghost use Rattle.rme_table.specs.Leaves.{LeaveInvariant};

    ghost Value = { SeatView };

    ghost view = { λ leave. leave.seat };

    ghost invariant = { λ leave. LeaveInvariant leave.seat leave.begun leave.lock leave.way };
}
