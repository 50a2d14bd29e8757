//! Checkpoints: a new epoch begins once the log of one has grown long.

ghost use Rattle.std.specs.Prelude.{◌≡◌};

use crate::durable_executor::DurableExecutor;
use crate::durable_server::DurableServer;
use crate::session::ServerTag;
use rme_durable_epochs::EpochExecutor;
use rme_durable_log::{LogStore, LogWriter, PendingLines};
use rme_session_loop::{Client, CloseHandle, SessionEvent};
use rme_session_protocol::{Attachment, Order};
use std::sync::atomic::{AtomicBool, AtomicU64, Ordering};
use std::sync::{Mutex, Wait};
use std::time::{Clock, Duration, Instant};

/// More bytes than the lines of one section take, with all orders of its session. The limit by bytes also bounds the log
/// if sessions only attach and detach.
const MOST_BYTES: u64 = 1_024;

/// The pause after a checkpoint that failed, in seconds. It doubles with each further failure, up to `LONGEST_PAUSE`.
const FIRST_PAUSE: u64 = 5;

const LONGEST_PAUSE: u64 = 60;

/// A checkpoint failed: none is tried until the pause is over. Each try stops all orders while the disk works.
#[derive(Clone, Copy)]
struct CheckpointRetry {
    at: Instant,
    /// In seconds.
    pause: u64,
}

impl CheckpointRetry {
    /// The pause that begins now, after a failure. `before` is the pause after the failure before it, if there was one.
    fn after_failure<R: Clock>(rt: &R, before: Option<CheckpointRetry>) -> Option<CheckpointRetry> {
        let at = Instant::now(rt).ok()?;
        let pause = match before {
            Some(failure) => failure.pause.saturating_mul(2).min(LONGEST_PAUSE),
            None => FIRST_PAUSE,
        };
        Some(CheckpointRetry { at, pause })
    }

    /// Whether the pause is over.
    fn is_over<R: Clock>(&self, rt: &R) -> bool {
        match self.at.elapsed(rt) {
            Ok(passed) => passed >= Duration::from_secs(self.pause),
            Err(_) => true,
        }
    }
}

/// When a checkpoint is due.
#[derive(Drop)]
pub(crate) struct CheckpointPolicy {
    /// A checkpoint is due after this number of finished sections in one epoch, without those of the checkpoint worker,
    /// or once the log has as many bytes as they may take.
    sections: u64,
    /// No checkpoint is due before the log has this number of bytes.
    not_before: AtomicU64,
    /// Whether a checkpoint was seen to be due.
    is_long: AtomicBool,
    /// The failure of the last checkpoint, if it failed.
    failure: Mutex<Option<CheckpointRetry>>,
}

impl CheckpointPolicy {
    /// A checkpoint is due after this number of finished sections in one epoch.
    pub(crate) fn after_sections(sections: u32) -> CheckpointPolicy {
        CheckpointPolicy {
            sections: u64::from(sections),
            not_before: AtomicU64::new(0),
            is_long: AtomicBool::new(false),
            failure: Mutex::new(None),
        }
    }

    /// Whether a checkpoint may be tried: the last one succeeded, or failed long enough ago.
    pub(crate) fn may_try<R: Wait + Clock>(&self, rt: &R) -> bool {
        let failure = self.failure.lock(rt);
        match &*failure {
            Some(failure) => failure.is_over(rt),
            None => true,
        }
    }

    /// Whether a checkpoint was seen to be due.
    pub(crate) fn is_seen_due(&self) -> bool {
        self.is_long.load(Ordering::Relaxed)
    }

    /// Notes whether a checkpoint is due.
    pub(crate) fn observe(&self, executor: &EpochExecutor) {
        if self.is_due(executor) {
            self.is_long.store(true, Ordering::Relaxed);
        }
    }

    fn is_due(&self, executor: &EpochExecutor) -> bool {
        let bytes = executor.bytes();
        let is_long = executor.sections() >= self.sections || bytes >= self.most_bytes();
        is_long && bytes >= self.not_before.load(Ordering::Relaxed)
    }

    /// The number of bytes that the limit of sections may take.
    fn most_bytes(&self) -> u64 {
        self.sections.saturating_mul(MOST_BYTES)
    }

    /// Notes the outcome of a checkpoint. If it failed, or the new epoch begins with `most_bytes` or more, none is due
    /// before another `most_bytes`.
    fn note_attempt<R: Wait + Clock>(&self, rt: &R, executor: &EpochExecutor, is_new: bool) {
        let mut failure = self.failure.lock(rt);
        *failure = if is_new {
            None
        } else {
            CheckpointRetry::after_failure(rt, *failure)
        };
        drop(failure);
        let wait = if is_new && executor.bytes() < self.most_bytes() {
            0
        } else {
            executor.bytes().saturating_add(self.most_bytes())
        };
        self.not_before.store(wait, Ordering::Relaxed);
        self.is_long.store(false, Ordering::Relaxed);
    }
}

impl<L: LogStore, H: CloseHandle, J: ServerTag> DurableServer<L, H, J> {
    ghost use Rattle.std.specs.Prelude.{◌≡◌, IfErr, false};

    /// Makes a checkpoint, if one is still due, or if this worker has used all job numbers of the epoch. Meanwhile no
    /// other session does anything. None is tried soon after one that failed. Answers true if a new epoch began, of which
    /// the client is told, or if none was due any more.
    pub(crate) fn checkpoint<R: Wait + Clock, C: Client<Handle = H>>(
        &self,
        rt: &R,
        spent: Option<u32>,
        client: &C,
    ) -> bool {
        if !self.due.may_try(rt) {
            return false;
        }
        let Some((held, spare)) = self.commits.take_writer(rt) else {
            return false;
        };
        let mut executor = self.executor.lock(rt);
        let is_due = self.is_checkpoint_due(rt, &executor, spent);
        let is_possible = is_due && self.finish_exits(&mut executor).is_some();
        let Some(taken) = executor.take_lines(spare) else {
            self.observe(&executor);
            drop(executor);
            let _failed_store = held.fail();
            self.commits.fail(rt);
            return false;
        };
        let (kept, is_new) = match held.append(&taken) {
            Ok(held) if is_possible => self.begin_epoch(&mut executor, held),
            kept => (kept, false),
        };
        if is_due {
            self.due.note_attempt(rt, executor.executor(), is_new);
        }
        let epoch = executor.executor().epoch();
        executor.note_standings(rt);
        drop(executor);
        self.commits.return_writer(rt, taken.into_empty(), kept);
        if is_new {
            client.observe(SessionEvent::Checkpoint(epoch));
        }
        is_new || !is_due
    }

    /// Whether a checkpoint is due, for all or for this worker, and may be tried: another session may have tried it
    /// meanwhile.
    fn is_checkpoint_due<R: Wait + Clock>(
        &self,
        rt: &R,
        executor: &DurableExecutor<L, J>,
        spent: Option<u32>,
    ) -> bool {
        let is_due = self.due.is_due(executor.executor())
            || executor.executor().has_spent_jobs(spent);
        is_due && self.due.may_try(rt)
    }

    /// Lets each worker leave the lock of its finished job that crashed before it left: a new epoch cannot have it
    /// inside. `None` if an event could not be logged, or memory was refused.
    fn finish_exits(&self, executor: &mut DurableExecutor<L, J>) -> Option<()> {
        for _ in 0..self.names.len() {
            match executor.executor().crashed_before_exit() {
                Some(worker) => self.finish_exit(executor, worker)?,
                None => break,
            }
        }
        Some(())
    }

    /// Replaces the epoch by its checkpoint, in the log first, once all earlier lines are stored. Answers whether it did:
    /// not if the checkpoint could not be built.
    fn begin_epoch(
        &self,
        executor: &mut DurableExecutor<L, J>,
        held: LogWriter<L, J>,
    ) -> (Result<LogWriter<L, J>, L>, bool)
        ensures stops { IfErr result.0 (λ store. (L.holds store).works ≡ false) }
    {
        match executor.build_checkpoint(self.alloc, &self.names) {
            Some(renewed) => executor.install_checkpoint(held, renewed),
            None => (Ok(held), false),
        }
    }

    /// Attaches a crashed worker, which leaves the lock of its finished job, and detaches it again.
    fn finish_exit(&self, executor: &mut DurableExecutor<L, J>, worker: u32) -> Option<()> {
        let mut session = executor.begin_session()?;
        let order = Order::Attach(Attachment {
            worker,
            take: false,
            after: None,
            label: None,
        });
        let is_done = match executor.execute(&self.names, &session, &order) {
            Ok(done) => {
                let _answered = session.advance(done);
                true
            }
            Err(_) => false,
        };
        executor.detach_session(&self.names, session).ok()?;
        is_done.then_some(())
    }
}
