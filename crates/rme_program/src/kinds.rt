//! The phases of a worker.

/// The phases of a worker, in order.
#[derive(Clone, Copy, PartialEq, Eq)]
pub enum Phase {
    Recover,
    Post,
    Enter,
    Section,
    Exit,
    Ready,
}
