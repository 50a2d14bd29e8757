//! Words of a file that no world can have.

/// The words that no world can have, by their purpose.
#[derive(Clone, Copy, Debug, PartialEq, Eq)]
pub enum Damage {
    /// `begun` of this worker: more jobs than the shape has.
    Begun(u32),
    /// `done` of this worker: neither `begun` nor one less.
    Done(u32),
    /// This worker holds nodes of this lock, but has no job there.
    Stake(u32, u32),
    /// The slate of this worker, whose job is pending: it encodes no job of the shape.
    Slate(u32),
    /// The receipt of this worker: its lock is no lock of the shape, or it has a reply for a number that was withdrawn
    /// or not begun.
    Receipt(u32),
    /// This node of this lock: neither 0 nor a side with a holder.
    Node(u32, u32),
    /// `turn` of this lock: too great, or odd without an owner.
    Turn(u32),
    /// `mask` of this lock: it has cells that the lock does not have, while the turn is odd.
    Mask(u32),
}
