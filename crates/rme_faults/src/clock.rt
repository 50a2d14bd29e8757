//! Simulated time: no wait of the server takes real time.

use std::cell::Cell;
use std::io;
use std::sync::Wait;
use std::time::{Clock, Duration};

/// The time between two readings of the clock, in milliseconds: longer than each pause of a session, so that no pause
/// sleeps, and so short that a failed checkpoint is tried again within one life of a server.
const BETWEEN_READINGS: u64 = 50;

/// A clock that goes on with each reading.
#[derive(Drop)]
pub struct SimulatedTime {
    milliseconds: Cell<u64>,
}

impl SimulatedTime {
    /// Time begins.
    pub fn new() -> SimulatedTime {
        SimulatedTime {
            milliseconds: Cell::new(0),
        }
    }

    fn read(&self) -> Duration {
        let now = self.milliseconds.get().wrapping_add(BETWEEN_READINGS);
        self.milliseconds.set(now);
        Duration::from_millis(now)
    }
}

/// What a server runs on: simulated time, and locks for which no other thread waits.
#[derive(Clone, Copy, Drop)]
pub struct SimulatedRuntime<'a, R> {
    pub threads: &'a R,
    pub time: &'a SimulatedTime,
}

impl<R: Wait> Wait for SimulatedRuntime<'_, R> {}

impl<R> Clock for SimulatedRuntime<'_, R> {
    fn monotonic(&self) -> io::Result<Duration> {
        Ok(self.time.read())
    }

    fn since_1970(&self) -> io::Result<Duration> {
        Ok(self.time.read())
    }
}
