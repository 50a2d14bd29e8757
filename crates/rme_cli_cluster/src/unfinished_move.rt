//! The log that an unfinished move leaves.

use rme_replica::Head;

/// The address in the head of a log while a state is moved to it. No server has it, since it has a space.
pub const MOVER: &str = "rme move";

/// Whether a move to the log of this head was not finished: there is no state in it yet.
pub fn is_unfinished_move(head: &Head) -> bool {
    head.address() == MOVER && head.epoch() == 0
}
