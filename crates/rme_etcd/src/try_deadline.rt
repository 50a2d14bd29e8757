//! The time that a call, or one try of it, may take.

use std::time::{Clock, Duration, Instant};

/// A moment, and the time that may pass after it.
#[derive(Clone, Copy)]
pub(crate) struct TryDeadline {
    start: Instant,
    limit: Duration,
}

impl TryDeadline {
    /// This time from now on. `None` if the clock cannot be read.
    pub(crate) fn start(clock: &impl Clock, limit: Duration) -> Option<TryDeadline> {
        match Instant::now(clock) {
            Ok(start) => Some(TryDeadline { start, limit }),
            Err(_) => None,
        }
    }

    /// What is left of the time; `None` if it is over, or cannot be told.
    pub(crate) fn left(&self, clock: &impl Clock) -> Option<Duration> {
        let left = self.limit.checked_sub(self.start.elapsed(clock).ok()?)?;
        if left.is_zero() { None } else { Some(left) }
    }

    /// Whether the time is over, or cannot be told.
    pub(crate) fn is_over(&self, clock: &impl Clock) -> bool {
        self.left(clock).is_none()
    }

    /// This time from now on, or what is left of this deadline if that is less. `None` if nothing is left.
    pub(crate) fn part(&self, clock: &impl Clock, limit: Duration) -> Option<TryDeadline> {
        let left = self.left(clock)?;
        TryDeadline::start(clock, if left < limit { left } else { limit })
    }
}
