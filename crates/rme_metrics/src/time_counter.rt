//! Counting times.

ghost use Rattle.std.specs.Prelude.{◌≤◌, ◌<◌, ℕ, length, slice_index};

use crate::label::LabelledCount;
use std::alloc::{AllocError, Global};
use std::array;
use std::sync::atomic::{AtomicU64, Ordering};

/// The number of buckets: one for each bound, and one for what is above all bounds.
pub const TIME_BUCKETS: usize = 14;

/// The bounds of the buckets, in microseconds.
const BOUNDS: [u64; 13] = [
    100, 250, 500, 1_000, 2_500, 5_000, 10_000, 25_000, 100_000, 500_000, 1_000_000, 5_000_000,
    30_000_000,
];

/// The bounds of the buckets, in seconds, as Prometheus names them.
const BOUND_LABELS: [&str; TIME_BUCKETS] = [
    "0.0001", "0.00025", "0.0005", "0.001", "0.0025", "0.005", "0.01", "0.025", "0.1", "0.5", "1",
    "5", "30", "+Inf",
];

/// Times that threads add to, counted by buckets.
#[derive(Drop)]
pub struct TimeCounter {
    counts: [AtomicU64; TIME_BUCKETS],
    micros: AtomicU64,
}

/// The times that were counted up to some moment.
#[derive(Drop)]
pub struct TimeHistogram {
    /// For each bound in seconds, how many times are at most that; the last bound is above all times.
    pub buckets: Vec<LabelledCount<'static>>,
    /// How many times there are.
    pub count: u64,
    /// Their sum, in microseconds.
    pub micros: u64,
}

impl TimeCounter {
    ghost use Rattle.std.specs.Prelude.{IfOk};
    ghost use Rattle.rme_metrics.specs.Histograms.{IsHistogram};

    /// No times.
    pub fn new() -> TimeCounter {
        TimeCounter {
            counts: array::from_fn(|_| AtomicU64::new(0)),
            micros: AtomicU64::new(0),
        }
    }

    /// Adds a time this number of times.
    pub fn add(&self, micros: u64, times: u64) {
        self.counts[bucket_of(BOUNDS.as_slice(), micros)].fetch_add(times, Ordering::SeqCst);
        self.micros
            .fetch_add(micros.saturating_mul(times), Ordering::SeqCst);
    }

    /// The times up to now.
    pub fn histogram(&self, alloc: Global) -> Result<TimeHistogram, AllocError>
        ensures { IfOk result IsHistogram }
    {
        let mut sums = TimeSums::new();
        sums.add(self);
        sums.histogram(alloc)
    }
}

/// The sums of some counters of times.
#[derive(Drop)]
pub(crate) struct TimeSums {
    counts: [u64; TIME_BUCKETS],
    micros: u64,
}

impl TimeSums {
    ghost use Rattle.std.specs.Prelude.{IfOk};
    ghost use Rattle.rme_metrics.specs.Histograms.{IsHistogram};

    /// The sums of no counters.
    pub(crate) fn new() -> TimeSums {
        TimeSums {
            counts: [0; TIME_BUCKETS],
            micros: 0,
        }
    }

    /// Adds what a counter has up to now.
    pub(crate) fn add(&mut self, counter: &TimeCounter) {
        for place in 0..TIME_BUCKETS {
            let count = counter.counts[place].load(Ordering::SeqCst);
            self.counts[place] = self.counts[place].saturating_add(count);
        }
        let micros = counter.micros.load(Ordering::SeqCst);
        self.micros = self.micros.saturating_add(micros);
    }

    /// The histogram of all times.
    pub(crate) fn histogram(&self, alloc: Global) -> Result<TimeHistogram, AllocError>
        ensures { IfOk result IsHistogram }
    {
        let mut buckets = Vec::with_capacity(alloc, TIME_BUCKETS)?;
        let mut count = 0u64;
        for place in 0..TIME_BUCKETS {
            count = count.saturating_add(self.counts[place]);
            buckets.push(LabelledCount {
                label: BOUND_LABELS[place],
                count,
            })?;
        }
        Ok(TimeHistogram {
            buckets,
            count,
            micros: self.micros,
        })
    }
}

/// The bucket of a time: the first whose bound is not below it, or that behind all.
fn bucket_of(bounds: &[u64], micros: u64) -> usize
    ensures within { result ≤ length bounds.now }
    ensures above { (k : ℕ) → k < result → slice_index bounds.now k < micros }
    ensures below { result < length bounds.now → micros ≤ slice_index bounds.now result }
{
    for (place, bound) in bounds.iter().enumerate() {
        if micros <= *bound {
            return place;
        }
    }
    bounds.len()
}
