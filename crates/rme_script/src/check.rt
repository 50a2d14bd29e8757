//! Whether a script may run on the rows of a shape.

ghost use Rattle.std.specs.Prelude.{◌≡◌, ◌↔◌};
ghost use Rattle.rme_script.specs.Scripts.{IsScript, script_check, op_is_within};

use crate::limits::MOST_OPERATIONS;
use crate::op::Op;
use crate::script::Script;
use rme_words::{Refusal, Shape};

/// Each cell that the operation names is below `cells`.
fn is_within(op: Op, cells: u32) -> bool
    ensures { result ≡ op_is_within cells op }
{
    match op {
        Op::Get(c) | Op::Set(c, _) | Op::Add(c, _) => c < cells,
        Op::Copy(a, b) | Op::Swap(a, b) => a < cells && b < cells,
    }
}

impl Script {
    /// Checks that the script may run on the rows of the shape.
    ///
    /// Refused by `BadScript` for more than eight operations, otherwise by `NoCell` if an operation names a cell that
    /// the shape's locks don't have.
    pub fn check(&self, shape: Shape) -> Result<(), Refusal>
        ensures exact { result ≡ script_check shape.cells self.now }
        ensures script { (result ≡ Ok tt) ↔ IsScript shape.cells self.now }
    {
        let n = self.n();
        if n > MOST_OPERATIONS as u32 {
            return Err(Refusal::BadScript);
        }
        for i in 0..n {
            if !is_within(self.op(i), shape.cells) {
                return Err(Refusal::NoCell);
            }
        }
        Ok(())
    }
}
