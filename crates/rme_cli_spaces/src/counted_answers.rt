//! Answering the lines of a session, and counting the answers.

ghost use Rattle.std.specs.Prelude.{◌≡◌};

use crate::space_directory::SpacesObserver;
use rme_metrics::ServerCounters;
use rme_session_loop::Backend;
use rme_session_metrics::MeteredBackend;
use rme_session_server::{AcceptedConnection, Closer};
use std::sync::Wait;
use std::time::Clock;

/// Answers the lines of a connection by this backend, from this state of its session, and counts the answers if there are
/// counters. Returns the state of the session then.
pub(crate) fn answer_counted<'x, B: Backend<Handle = Closer>, R: Wait + Clock>(
    threads: &R,
    counters: Option<&'x ServerCounters>,
    connection: &mut AcceptedConnection<SpacesObserver<'_>>,
    backend: &'x B,
    first: B::Stand,
) -> B::Stand
    requires fits { B.fits backend.now }
    requires may_hold { B.may_hold backend.now first }
    ensures may_hold { B.may_hold backend.now result }
{
    let metered = MeteredBackend { backend, counters };
    let (last, _) = connection.answer_lines(threads, &metered, first);
    last
}
