//! Which answers of an engine in memory are lost.

/// Which answers are lost: those of the next calls that are never made, and then those of the next calls that are made.
#[derive(Clone, Copy, Debug, PartialEq, Eq)]
pub struct Losses {
    /// The number of calls that are lost before they are made.
    pub before: u32,
    /// The number of calls after them whose answers are lost after they are made.
    pub after: u32,
}

impl Losses {
    /// No answer is lost.
    pub const NONE: Losses = Losses {
        before: 0,
        after: 0,
    };

    /// Whether this call is lost before it is made.
    pub(crate) fn loses_call(&mut self) -> bool {
        if self.before == 0 {
            return false;
        }
        self.before -= 1;
        true
    }

    /// Whether the answer of this call is lost after it is made.
    pub(crate) fn loses_answer(&mut self) -> bool {
        if self.after == 0 {
            return false;
        }
        self.after -= 1;
        true
    }
}
