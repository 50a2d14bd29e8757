//! Whether two scripts are the same.

ghost use Rattle.std.specs.Prelude.{◌≡◌, ◌↔◌, IsTrue};

use crate::limits::MOST_OPERATIONS;
use crate::op::Op;
use crate::script::Script;

/// Two operations are the same.
fn is_same(a: Op, b: Op) -> bool
    ensures { IsTrue result ↔ (a ≡ b) }
{
    a == b
}

impl Script {
    /// Whether the two scripts have the same operations in the same order, and the same number given.
    pub fn same(&self, other: &Script) -> bool
        ensures { IsTrue result ↔ (self.now ≡ other.now) }
    {
        if self.n() != other.n() {
            return false;
        }
        for i in 0..self.n().min(MOST_OPERATIONS as u32) {
            if !is_same(self.op(i), other.op(i)) {
                return false;
            }
        }
        true
    }
}
