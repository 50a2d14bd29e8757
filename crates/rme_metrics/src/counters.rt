//! The counters of a server.

use crate::label::LabelledCount;
use crate::order_kind::{ORDER_KINDS, OrderKind};
use crate::snapshot::SessionMetrics;
use crate::time_counter::{TimeCounter, TimeSums};
use rme_words::Refusal;
use std::alloc::{AllocError, Global};
use std::array;
use std::sync::atomic::{AtomicU64, Ordering};

/// The number of refusals, whose codes count from 1.
const MOST_CODE: u32 = 26;

/// All refusals, in the order of their codes.
const REFUSAL_LIST: [Refusal; 26] = [
    Refusal::BadLine,
    Refusal::LineTooLong,
    Refusal::NotOpen,
    Refusal::AlreadyOpen,
    Refusal::BadShape,
    Refusal::NoWorker,
    Refusal::Down,
    Refusal::Up,
    Refusal::Busy,
    Refusal::Idle,
    Refusal::NoLock,
    Refusal::BadScript,
    Refusal::NoCell,
    Refusal::TooManyJobs,
    Refusal::BadImage,
    Refusal::WrongNumber(0),
    Refusal::Differs,
    Refusal::Taken,
    Refusal::NotAttached,
    Refusal::NoMemory,
    Refusal::NotWaiting,
    Refusal::NotInside,
    Refusal::NoSpace,
    Refusal::SpaceDiffers,
    Refusal::NotAllowed,
    Refusal::Overtaken,
];

/// The number of lanes.
const LANES: usize = 16;

/// The counters of a server. Threads share them by reference: adding takes no lock and no memory. What is read while
/// others add may be of different moments.
///
/// They lie in lanes: sessions with workers of different lanes write to different lines of the processors' caches.
#[derive(Drop)]
pub struct ServerCounters {
    begun: AtomicU64,
    ended: AtomicU64,
    lanes: [CounterLane; LANES],
}

/// The counters of the lines of some workers' sessions.
#[derive(Drop)]
pub struct CounterLane {
    /// The lines that sessions took up.
    lines: AtomicU64,
    times: TimeCounter,
    orders: [AtomicU64; 19],
    refusals: [AtomicU64; 26],
}

impl CounterLane {
    /// Counters of 0.
    fn new() -> CounterLane {
        CounterLane {
            lines: AtomicU64::new(0),
            times: TimeCounter::new(),
            orders: array::from_fn(|_| AtomicU64::new(0)),
            refusals: array::from_fn(|_| AtomicU64::new(0)),
        }
    }

    /// Counts a line that a session takes up.
    pub fn line_taken(&self) {
        self.lines.fetch_add(1, Ordering::SeqCst);
    }

    /// Counts a line that has its answer, or will have none, after this number of microseconds.
    pub fn line_done(&self, micros: u64) {
        self.times.add(micros, 1);
    }

    /// Counts an order that was not refused.
    pub fn order_answered(&self, kind: OrderKind) {
        self.orders[kind.number()].fetch_add(1, Ordering::SeqCst);
    }

    /// Counts a line that was refused with this code. A code of no refusal is not counted.
    pub fn line_refused(&self, code: u32) {
        if code >= 1 && code <= MOST_CODE {
            self.refusals[code as usize - 1].fetch_add(1, Ordering::SeqCst);
        }
    }
}

impl ServerCounters {
    /// Counters of 0.
    pub fn new() -> ServerCounters {
        ServerCounters {
            begun: AtomicU64::new(0),
            ended: AtomicU64::new(0),
            lanes: array::from_fn(|_| CounterLane::new()),
        }
    }

    /// Counts a session that begins.
    pub fn session_began(&self) {
        self.begun.fetch_add(1, Ordering::SeqCst);
    }

    /// Counts a session that ends.
    pub fn session_ended(&self) {
        self.ended.fetch_add(1, Ordering::SeqCst);
    }

    /// The lane of a session that has this worker.
    pub fn lane(&self, worker: Option<u32>) -> &CounterLane {
        match worker {
            Some(worker) => &self.lanes[worker as usize % LANES],
            None => &self.lanes[0],
        }
    }

    /// What they tell now.
    pub fn told<'a>(&self, alloc: Global) -> Result<SessionMetrics<'a>, AllocError> {
        let begun = self.begun.load(Ordering::SeqCst);
        let lines = self.lines();
        let order_times = self.times().histogram(alloc)?;
        Ok(SessionMetrics {
            open: begun.saturating_sub(self.ended.load(Ordering::SeqCst)),
            begun,
            waiting: lines.saturating_sub(order_times.count),
            orders: self.order_counts(alloc)?,
            refusals: self.refusal_counts(alloc)?,
            order_times,
        })
    }

    /// The lines that sessions took up.
    fn lines(&self) -> u64 {
        let mut lines = 0u64;
        for lane in &self.lanes {
            lines = lines.saturating_add(lane.lines.load(Ordering::SeqCst));
        }
        lines
    }

    /// The times of all lanes.
    fn times(&self) -> TimeSums {
        let mut sums = TimeSums::new();
        for lane in &self.lanes {
            sums.add(&lane.times);
        }
        sums
    }

    /// The orders by their kind.
    fn order_counts<'a>(&self, alloc: Global) -> Result<Vec<LabelledCount<'a>>, AllocError> {
        let mut counts = Vec::new(alloc);
        for kind in ORDER_KINDS {
            counts.push(LabelledCount {
                label: kind.word(),
                count: self.orders_of(kind),
            })?;
        }
        Ok(counts)
    }

    /// The orders of this kind.
    fn orders_of(&self, kind: OrderKind) -> u64 {
        let mut count = 0u64;
        for lane in &self.lanes {
            count = count.saturating_add(lane.orders[kind.number()].load(Ordering::SeqCst));
        }
        count
    }

    /// The refusals by their name.
    fn refusal_counts<'a>(&self, alloc: Global) -> Result<Vec<LabelledCount<'a>>, AllocError> {
        let mut counts = Vec::new(alloc);
        for refusal in REFUSAL_LIST {
            counts.push(LabelledCount {
                label: refusal.name(),
                count: self.refusals_of(refusal),
            })?;
        }
        Ok(counts)
    }

    /// The lines that were refused so.
    fn refusals_of(&self, refusal: Refusal) -> u64 {
        let place = refusal.code() as usize - 1;
        let mut count = 0u64;
        for lane in &self.lanes {
            count = count.saturating_add(lane.refusals[place].load(Ordering::SeqCst));
        }
        count
    }
}
