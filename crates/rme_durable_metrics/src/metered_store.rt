//! A store that counts what the store below it takes.

use rme_durable_log::{LogStore, NotDurable};
use rme_metrics::LogCounters;
use std::mem::replace;
use std::time::{Clock, Instant};

/// The microseconds of a second.
const SECOND: u64 = 1_000_000;

/// Of this number of writes to a quick store one is timed and counted, for all of them. Orders wait for such a write, and
/// looks at a clock, and counters that other processors read, would take a twentieth of it.
const WRITES_A_TIME: u64 = 16;

/// Which writes are timed, and the writes since the last one that was.
#[derive(Drop)]
pub struct WriteSample {
    writes: u64,
    /// The number of writes that follow before one is timed.
    left: u64,
}

impl WriteSample {
    /// No writes: the first one is timed.
    pub fn new() -> WriteSample {
        WriteSample { writes: 0, left: 0 }
    }

    /// Counts one more write. Answers whether it is timed.
    fn count(&mut self, is_quick: bool) -> bool {
        self.writes = self.writes.saturating_add(1);
        if is_quick && self.left > 0 {
            self.left -= 1;
            return false;
        }
        self.left = WRITES_A_TIME - 1;
        true
    }

    /// The writes that the timed one stands for, itself among them.
    fn take(&mut self) -> u64 {
        replace(&mut self.writes, 0)
    }
}

/// A store that stores as another one, and counts the times of its writes and of its checkpoints; without counters it
/// only stores.
#[derive(Drop)]
pub struct MeteredStore<'a, L, R> {
    pub store: L,
    pub counters: Option<&'a LogCounters>,
    pub sample: WriteSample,
    /// The clock that the times are read off.
    pub clock: &'a R,
}

impl<L, R: Clock> MeteredStore<'_, L, R> {
    /// The moment, if times are counted and the clock can be read.
    fn moment(&self) -> Option<Instant> {
        match self.counters {
            Some(_) => Instant::now(self.clock).ok(),
            None => None,
        }
    }

    /// The microseconds since a moment; 0 if the clock can't be read.
    fn micros_since(&self, began: Instant) -> u64 {
        match began.elapsed(self.clock) {
            Ok(passed) => passed
                .as_secs()
                .saturating_mul(SECOND)
                .saturating_add(u64::from(passed.subsec_micros())),
            Err(_) => 0,
        }
    }

    /// Counts a checkpoint that began at this moment.
    fn count_checkpoint(&self, began: Option<Instant>) {
        if let (Some(counters), Some(began)) = (self.counters, began) {
            counters.replaced(self.micros_since(began));
        }
    }
}

/// Each call is as that of the store below. Writes and checkpoints that fail are not counted.
impl<L: LogStore, R: Clock> LogStore for MeteredStore<'_, L, R> {
    ghost holds = { λ metered. L.holds metered.store };

    ghost shared = { L.shared };

    fn append(&mut self, lines: &[u8]) -> Result<(), NotDurable> {
        let is_timed = self.sample.count(self.store.is_quick());
        let began = if is_timed { self.moment() } else { None };
        let answered = self.store.append(lines);
        if let (Ok(()), Some(counters), Some(began)) = (&answered, self.counters, began) {
            counters.written(self.micros_since(began), self.sample.take());
        }
        answered
    }

    fn replace(&mut self, bytes: &[u8]) -> Result<(), NotDurable> {
        let began = self.moment();
        let answered = self.store.replace(bytes);
        if answered.is_ok() {
            self.count_checkpoint(began);
        }
        answered
    }

    fn is_quick(&self) -> bool {
        self.store.is_quick()
    }

    fn is_shared(&self) -> bool {
        self.store.is_shared()
    }

    fn fail(&mut self) {
        self.store.fail();
    }
}
