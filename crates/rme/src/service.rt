//! The running service: workers as values that threads hold, over words that all threads share.
//!
//! A service opens with a `Down` of each worker. `recover` makes a `Ready`, a `Climb`, a `Held` or a `Leave` of it, and
//! each call takes one of these and answers the next, or the `Down` if the worker crashed. A `Chance` is asked before
//! each own step whether the worker crashes there: `Never` says no, and `CrashPlan` says yes once. `close` answers the
//! finished sections of each lock, and `close_counted` their number, without memory.

pub use rme_history::EntryList;
pub use rme_server::CrashPlan;
pub use rme_table::{
    Chance, Climb, Closed, ClosedLock, CountRoom, CountedLock, CountedService, Down, Held, Leave,
    Never, OwnedDown, Posted, Ready, Service, Stance, Sweep, Tag, Unclosed,
};
