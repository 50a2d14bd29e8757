//! What the answers so far tell of a worker.

use crate::answer::SeenReceipt;
use crate::request::{NumberedJob, SimulatedRequest};

/// Where a worker stands.
#[derive(Clone, Copy, Debug, PartialEq, Eq)]
pub enum KnownStanding {
    /// It has no job.
    Ready,
    /// Its job waits.
    Climb,
    /// It owns its job's lock.
    Held,
    /// An order of its job has no answer, or its planned crash came: an attachment tells where it stands.
    Unsure,
    /// Its job is finished, and its receipt was not told yet.
    Unlearned,
}

/// A job whose outcome was not answered.
#[derive(Clone, Copy)]
pub struct SeenPendingJob {
    pub job: NumberedJob,
    /// The least place that it may have: no answered job comes after it.
    pub floor: u64,
    /// Whether an answer said that it is pending.
    pub begun: bool,
    /// Whether an answer said that its worker is inside.
    pub was_held: bool,
    pub may_be_withdrawn: bool,
    /// The section of an answer that its worker is inside.
    pub section: Option<u64>,
}

/// A worker, as far as answers told.
#[derive(Clone, Copy)]
pub struct KnownWorker {
    /// Its last number that is known to be finished.
    pub done: u64,
    /// The receipt of that number, if it was not withdrawn.
    pub last: Option<SeenReceipt>,
    pub pending: Option<SeenPendingJob>,
    pub standing: KnownStanding,
    /// The session that has it.
    pub session: Option<u32>,
    /// The last life that was told, and the number of attachments since.
    pub life: u64,
    pub attachments: u64,
    /// Whether a crash is planned.
    pub has_plan: bool,
}

impl KnownWorker {
    /// A worker that had no job.
    pub const NEW: KnownWorker = KnownWorker {
        done: 0,
        last: None,
        pending: None,
        standing: KnownStanding::Ready,
        session: None,
        life: 0,
        attachments: 0,
        has_plan: false,
    };

    /// Its job whose outcome was not answered.
    pub fn job(&self) -> Option<SeenPendingJob> {
        self.pending
    }

    /// The number of that job; 0 before the first job.
    pub fn pending_number(&self) -> u64 {
        match self.pending {
            Some(pending) => pending.job.number,
            None => 0,
        }
    }

    /// The number that a new job has.
    pub fn next(&self) -> u64 {
        self.done.saturating_add(1)
    }

    /// The least life that it may have.
    pub fn least_life(&self) -> u64 {
        self.life.saturating_add(self.attachments)
    }

    /// Whether its job is this lock's.
    pub fn is_at(&self, lock: u32) -> bool {
        match self.pending {
            Some(pending) => pending.job.lock == lock,
            None => false,
        }
    }

    /// Whether it is known to be inside this lock.
    pub fn holds(&self, lock: u32) -> bool {
        self.standing == KnownStanding::Held && self.is_at(lock)
    }

    /// Whether it may be inside this lock, or may have finished there without an answer.
    pub fn may_be_inside(&self, lock: u32) -> bool {
        matches!(
            self.standing,
            KnownStanding::Unsure | KnownStanding::Unlearned
        ) && self.is_at(lock)
    }

    /// The pending job becomes finished.
    pub fn finish(&mut self, number: u64, last: Option<SeenReceipt>) {
        self.done = number;
        self.last = last;
        self.pending = None;
        self.standing = KnownStanding::Ready;
    }

    /// The job is pending, by an answer.
    pub fn stand(&mut self, standing: KnownStanding) {
        self.standing = standing;
        if let Some(pending) = &mut self.pending {
            pending.begun = true;
            pending.was_held = pending.was_held || standing == KnownStanding::Held;
        }
    }

    /// A request of its job has no answer, or ended with a planned crash. `end` is the first place after all answered.
    pub fn become_unsure(&mut self, request: &SimulatedRequest, end: u64) {
        match (request, self.standing) {
            (SimulatedRequest::Submit(submission), KnownStanding::Ready)
                if submission.job.number == self.next() => {
                self.pending = Some(SeenPendingJob {
                    job: submission.job,
                    floor: end,
                    begun: false,
                    was_held: false,
                    may_be_withdrawn: false,
                    section: None,
                });
                self.standing = KnownStanding::Unsure;
            }
            (SimulatedRequest::Withdraw, KnownStanding::Climb) => {
                self.allow_withdrawal();
                self.standing = KnownStanding::Unsure;
            }
            (
                SimulatedRequest::Submit(_) | SimulatedRequest::Resume | SimulatedRequest::Commit,
                KnownStanding::Climb | KnownStanding::Held,
            ) => self.standing = KnownStanding::Unsure,
            _ => {}
        }
    }

    /// The job may be withdrawn without an answer.
    pub fn allow_withdrawal(&mut self) {
        if let Some(pending) = &mut self.pending {
            pending.may_be_withdrawn = !pending.was_held;
        }
    }

    /// Its session ends. If waiting jobs are withdrawn then, its job may be.
    pub fn leave(&mut self, withdraws: bool) {
        self.session = None;
        self.has_plan = false;
        if withdraws && matches!(self.standing, KnownStanding::Climb | KnownStanding::Unsure) {
            self.allow_withdrawal();
            self.standing = KnownStanding::Unsure;
        }
    }
}
