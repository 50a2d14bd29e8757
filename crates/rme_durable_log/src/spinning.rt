//! Short waits without sleeping.
//!
//! An order takes microseconds, and so does a write without a sync; sleeping and waking takes several times as long. So
//! a thread that finds a lock taken first checks it again for a while. If there are more sessions than processors, the
//! holder may itself wait for a processor, so the spinning thread yields its own now and then.

use std::sync::{Mutex, MutexGuard, Wait};
use std::{hint, thread};

/// The number of checks before the thread yields.
pub(crate) const TURNS: u32 = 100;

/// The number of yields before the thread sleeps.
pub(crate) const ROUNDS: u32 = 20;

/// Takes a lock that is held for microseconds.
pub fn lock_with_spin<'a, T, R: Wait>(rt: &R, lock: &'a Mutex<T>) -> MutexGuard<'a, T> {
    for _ in 0..ROUNDS {
        if let Some(guard) = try_lock_spinning(lock) {
            return guard;
        }
        thread::yield_now();
    }
    lock.lock(rt)
}

/// Takes a lock that is free at one of `TURNS` checks.
fn try_lock_spinning<T>(lock: &Mutex<T>) -> Option<MutexGuard<'_, T>> {
    for _ in 0..TURNS {
        if let Some(guard) = lock.try_lock() {
            return Some(guard);
        }
        hint::spin_loop();
    }
    None
}
