//! The line that says who leads a log.

use rme_cli_cluster::LeaderView;
use rme_cli_messages::escape_controls;
use rme_replica::Head;
use std::alloc::AllocError;

/// The leader of a log that no server has claimed yet.
const NOBODY: &str = "nobody";

/// The number of milliseconds in a tenth of a second.
const TENTH: u128 = 100;

/// Appends the line, and an empty one. The last view before a change tells how long ago, at most, the change was.
pub(crate) fn push_leader(
    out: &mut String,
    rt: &HostRuntime,
    head: &Head,
    change: Option<LeaderView>,
) -> Result<(), AllocError> {
    let (term, sequence) = (head.term(), head.sequence());
    // Nobody has led a log of term 0: it was made, or moved here.
    let address = if term == 0 { NOBODY } else { head.address() };
    let address = escape_controls(rt.alloc(), address)?;
    write!(out, "leader {address} term {term} seq {sequence} ")?;
    let Some(before) = change else {
        return out.push_str("quiet\n\n");
    };
    let tenths = (before.age(rt).as_millis() / TENTH).saturating_add(1);
    let (seconds, tenth) = (tenths / 10, tenths % 10);
    write!(out, "changed {seconds}.{tenth} s ago\n\n")
}
