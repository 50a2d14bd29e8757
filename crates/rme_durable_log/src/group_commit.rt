//! Group commit: one thread at a time writes for all that wait for their lines.

use crate::durable_up_to::DurableUpTo;
use crate::gathering::Gathering;
use crate::log_appender::PendingBatch;
use crate::log_position::LogPosition;
use crate::log_rule::LogTag;
use crate::log_store::{LogStore, NotDurable};
use crate::log_writer::LogWriter;
use crate::spinning::lock_with_spin;
use std::alloc::Global;
use std::mem::replace;
use std::sync::atomic::{AtomicBool, Ordering};
use std::sync::{Condvar, Mutex, Wait};

/// The value under the executor's lock that has the pending lines.
pub trait PendingLines<L: LogStore, J: LogTag> {
    /// Takes the pending lines, and leaves this empty text in their place. `None` once an event could not be written as
    /// a line.
    fn take_lines(&mut self, empty: String) -> Option<PendingBatch<L, J>>;
}

/// The store, to which one thread at a time writes, and how far the log is durable.
#[derive(Drop)]
pub struct GroupCommit<L: LogStore, J: LogTag> {
    alloc: Global,
    back: Mutex<CommitState<L, J>>,
    marks: DurableUpTo<L, J>,
    /// Whether storing lines takes no longer than waking another thread for it.
    is_quick: bool,
    /// Which threads a write to a shared store waits for.
    gathering: Gathering,
    /// Whether an event could not be stored, or written as a line. It is set before the waiting threads are woken.
    is_broken: AtomicBool,
    /// Lines were written, or could not be.
    written: Condvar,
}

#[derive(Drop)]
struct CommitState<L: LogStore, J: LogTag> {
    /// `None` while a thread is writing, and once the store has failed.
    held: Option<LogWriter<L, J>>,
    /// An empty text, to be exchanged for the lines that are written.
    spare: String,
}

/// A write that was begun: the writer, which no other thread has meanwhile, and the lines. `end_quick_write` ends it. It
/// cannot be dropped: if it were, no thread could write again.
pub struct QuickWrite<L: LogStore, J: LogTag> {
    held: LogWriter<L, J>,
    /// `None` if an event could not be written as a line.
    taken: Option<PendingBatch<L, J>>,
}

impl<L: LogStore, J: LogTag> GroupCommit<L, J> {
    ghost use Rattle.std.specs.Prelude.{◌≡◌, IfErr, OnOk, false};
    ghost use Rattle.rme_durable_log.specs.Logs.{IsCommitted};

    /// A group commit without a writing thread.
    pub(crate) fn new(
        alloc: Global,
        held: LogWriter<L, J>,
        marks: DurableUpTo<L, J>,
    ) -> GroupCommit<L, J> {
        GroupCommit {
            alloc,
            is_quick: held.is_quick(),
            gathering: Gathering::new(held.is_shared()),
            back: Mutex::new(CommitState {
                held: Some(held),
                spare: String::new(alloc),
            }),
            marks,
            is_broken: AtomicBool::new(false),
            written: Condvar::new(),
        }
    }

    /// Waits until everything before this position was in the store; writes it if no other thread does. If the store is
    /// shared, it waits until the store was asked, after that, whether its bytes are still those of this log.
    pub fn commit<R: Wait, F: PendingLines<L, J>>(
        &self,
        rt: &R,
        front: &Mutex<F>,
        end: &LogPosition<L, J>,
    ) -> Result<(), NotDurable>
        ensures { OnOk result (IsCommitted L.shared L.holds end.now) }
    {
        if !self.marks.is_committed(end) {
            self.gathering.asked();
        }
        for _ in rt.forever() {
            let is_behind = self.marks.is_behind(end);
            // Checked first: the answer for this position may also show an event that was lost.
            if self.is_failed() {
                return Err(NotDurable);
            }
            if self.marks.is_committed(end) {
                return Ok(());
            }
            let mut back = lock_with_spin(rt, &self.back);
            if self.is_failed() {
                return Err(NotDurable);
            }
            if self.marks.is_committed(end) {
                return Ok(());
            }
            if let Some(held) = back.held.take() {
                self.marks.begin_write();
                let spare = replace(&mut back.spare, String::new(self.alloc));
                drop(back);
                self.gathering.wait(rt);
                let taken = lock_with_spin(rt, front).take_lines(spare);
                self.gathering.taken();
                self.write_batch(rt, held, taken);
            } else if is_behind {
                drop(self.written.wait(rt, back));
            }
        }
        unreachable!()
    }

    /// Begins a write of all pending lines, if a write takes no longer than waking another thread, no other thread is
    /// writing, and this position is not yet committed. Call this while holding the executor's lock, drop that lock, and
    /// then call `end_quick_write`: so the next order is executed while the lines of this one are written. A later
    /// `commit` of the position finds that it is committed, or why it is not.
    pub fn begin_quick_write<R: Wait, F: PendingLines<L, J>>(
        &self,
        rt: &R,
        front: &mut F,
        end: &LogPosition<L, J>,
    ) -> Option<QuickWrite<L, J>> {
        if !self.is_quick || self.marks.is_committed(end) || self.is_failed() {
            return None;
        }
        let mut back = lock_with_spin(rt, &self.back);
        let held = back.held.take()?;
        self.marks.begin_write();
        let spare = replace(&mut back.spare, String::new(self.alloc));
        drop(back);
        let taken = front.take_lines(spare);
        Some(QuickWrite { held, taken })
    }

    /// Writes the lines of a write that was begun, and lets other threads write again.
    pub fn end_quick_write<R: Wait>(&self, rt: &R, write: QuickWrite<L, J>) {
        let QuickWrite { held, taken } = write;
        self.write_batch(rt, held, taken);
    }

    /// Writes the taken lines, and gives the writer back.
    fn write_batch<R: Wait>(
        &self,
        rt: &R,
        held: LogWriter<L, J>,
        taken: Option<PendingBatch<L, J>>,
    ) {
        let Some(taken) = taken else {
            let _failed_store = held.fail();
            return self.fail(rt);
        };
        let kept = held.append(&taken);
        self.gathering.written();
        self.return_writer(rt, taken.into_empty(), kept);
    }

    /// Takes the writer, once no other thread has it, and an empty text; `None` once lines could not be stored.
    pub fn take_writer<R: Wait>(&self, rt: &R) -> Option<(LogWriter<L, J>, String)> {
        let mut back = self.back.lock(rt);
        for _ in rt.forever() {
            if self.is_failed() {
                return None;
            }
            if let Some(held) = back.held.take() {
                self.marks.begin_write();
                let spare = replace(&mut back.spare, String::new(self.alloc));
                return Some((held, spare));
            }
            back = self.written.wait(rt, back);
        }
        unreachable!()
    }

    /// Gives the writer back, with an empty text; or the store to which lines could not be written, after which nothing
    /// more is stored.
    pub fn return_writer<R: Wait>(&self, rt: &R, spare: String, kept: Result<LogWriter<L, J>, L>)
        requires stops { IfErr kept (λ store. (L.holds store).works ≡ false) }
    {
        let mut back = self.back.lock(rt);
        back.spare = spare;
        // The store is dropped last, after all threads can see that the log has failed.
        let _failed_store = match kept {
            // Meanwhile an event could not be written as a line.
            Ok(held) if self.is_failed() => Some(held.fail()),
            Ok(held) => {
                self.marks.end_write(held.position());
                back.held = Some(held);
                None
            }
            Err(store) => {
                self.mark_failed();
                Some(store)
            }
        };
        if self.is_failed() {
            self.marks.clear_writing();
        }
        drop(back);
        self.written.notify_all();
    }

    /// An event could not be written as a line: the log fails.
    pub fn fail<R: Wait>(&self, rt: &R) {
        let mut back = self.back.lock(rt);
        self.mark_failed();
        if let Some(held) = back.held.take() {
            drop(held.fail());
        }
        self.marks.clear_writing();
        drop(back);
        self.written.notify_all();
    }

    /// An event could not be stored, or written as a line. Nothing that is seen after this is answered.
    pub fn mark_failed(&self) {
        self.is_broken.store(true, Ordering::SeqCst);
    }

    /// Whether an event could not be stored. Then nothing more is.
    pub fn is_failed(&self) -> bool {
        self.is_broken.load(Ordering::SeqCst)
    }
}
