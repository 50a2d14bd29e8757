//! Backoff: the pauses between the tries of an order whose job waits for its lock.

ghost use Rattle.std.specs.Prelude.{◌<◌, ◌≤◌, ◌↔◌, IsSome, IsSomeAnd, IsTrue};
ghost use Rattle.rme_session_protocol.specs.Attempts as part;

use crate::client::CloseHandle;
use crate::session_registry::SessionRegistry;
use crate::wait_queue::Waiter;
use rme_program::Ascent;
use rme_session_protocol::{Order, Patience, order_patience};
use std::sync::Wait;
use std::thread;
use std::time::{Clock, Duration, Instant};

/// The shortest pause, in microseconds. Each pause is twice as long as the one before, and ends early when the lock is
/// released.
const SHORTEST: u64 = 100;

/// The longest pause, in microseconds.
pub const LONGEST: u64 = 40_000;

/// The number of tries after a notification whose pauses only yield the processor: most sections are over before another
/// thread would have been woken.
const EAGER_TRIES: u32 = 8;

/// The pauses of an order. There is none before the first try.
#[derive(Drop)]
pub struct WaitBackoff<'a> {
    /// The waiter for the lock that the job waits for.
    listener: Option<Waiter<'a>>,
    /// When the order began to wait; `None` if the clock could not be read.
    began: Option<Instant>,
    /// The length of the next pause, in microseconds; 0 before the first try.
    next: u64,
    /// Whether a notification ended the last sleep.
    rung: bool,
    /// The number of tries that still follow without sleeping.
    eager: u32,
}

impl<'a> WaitBackoff<'a> {
    /// The pauses of an order whose job waits here; `None` if that is not known.
    pub fn new<R: Wait + Clock, H: CloseHandle>(
        rt: &R,
        place: Option<Ascent>,
        registry: &'a SessionRegistry<H>,
    ) -> WaitBackoff<'a> {
        WaitBackoff {
            listener: register_waiter(rt, place, registry),
            began: Instant::now(rt).ok(),
            next: 0,
            rung: false,
            eager: 0,
        }
    }

    /// Pauses before a try of an order whose job now waits here. The first call returns at once.
    pub fn pause<R: Wait + Clock>(&mut self, rt: &R, order: &Order, place: Option<Ascent>) {
        if self.next == 0 {
            self.next = SHORTEST;
            return;
        }
        if self.eager > 0 {
            self.eager -= 1;
            thread::yield_now();
            return;
        }
        let most = Duration::from_micros(self.next);
        let most = self
            .time_left(rt, order)
            .map_or(most, |left| most.min(left));
        match &mut self.listener {
            Some(listener) => self.rung = listener.wait(rt, rank_of(place), most),
            None => thread::sleep(rt, most),
        }
        if self.rung {
            self.eager = EAGER_TRIES;
        }
        self.next = LONGEST.min(self.next.saturating_mul(2));
    }

    /// Whether the next try follows without sleeping.
    pub fn is_spinning(&self) -> bool {
        self.eager > 0
    }

    /// Ends the waiting of an order that did not get its lock: what this waiter heard may be of use to another.
    pub fn end<R: Wait>(self, rt: &R) {
        if let Some(listener) = self.listener {
            listener.end(rt);
        }
    }

    /// The rest of the waiting time of an order that has one. `None` once it is over, without one, or if the clock
    /// could not be read.
    fn time_left<R: Clock>(&self, rt: &R, order: &Order) -> Option<Duration> {
        let Some(Patience::Wait(milliseconds)) = order_patience(order) else {
            return None;
        };
        let went_by = self.began?.elapsed(rt).ok()?;
        Duration::from_millis(u64::from(milliseconds)).checked_sub(went_by)
    }

    /// Whether the waiting time of an order is over. If the clock could not be read, it is.
    pub fn is_over<R: Clock>(&self, rt: &R, order: &Order) -> bool
        ensures { IsTrue result → part.least_patience_tries (part.order_patience order.now) ≤ 1 }
    {
        match order_patience(order) {
            Some(Patience::Tries(_)) => false,
            _ => self.time_left(rt, order).is_none(),
        }
    }
}

/// The rank at which a waiter sleeps: the number of levels that its worker holds.
fn rank_of(place: Option<Ascent>) -> u32 {
    place.map_or(0, |place| place.held)
}

/// Registers a waiter for a lock, if it is known.
fn register_waiter<'a, R: Wait, H: CloseHandle>(
    rt: &R,
    place: Option<Ascent>,
    registry: &'a SessionRegistry<H>,
) -> Option<Waiter<'a>>
    ensures { IsSome result ↔ IsSomeAnd place (λ place. place.lock < registry.now.locks) }
{
    registry.wait_at_lock(rt, place?)
}
