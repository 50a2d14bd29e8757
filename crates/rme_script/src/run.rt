//! The effect of a script on a row.

ghost use Rattle.std.specs.Prelude.{◌≡◌, ℕ, false, List, length, slice_index};
ghost use Rattle.rme_script.specs.Scripts.{OpIsWithin, IsScript};
ghost use Rattle.rme_script.specs.Cells.{ops_name_cell};
ghost use Rattle.rme_script.specs.Eval.{op_row, op_value, eval_of};
ghost use Rattle.rme_script.specs.RowAgreement.{RowsAgreeOnNamed};

use crate::op::Op;
use crate::row::Row;
use crate::script::Script;

/// Executes one operation, and answers its value.
fn perform(op: Op, row: &mut Row) -> u64
    requires { OpIsWithin (length row.old) op }
    ensures row { row.new ≡ op_row op row.old }
    ensures value { result ≡ op_value op row.old }
{
    match op {
        Op::Get(c) => row.get(c),
        Op::Set(c, value) => {
            row.set(c, value);
            row.get(c)
        }
        Op::Add(c, value) => {
            row.set(c, row.get(c).wrapping_add(value));
            row.get(c)
        }
        Op::Copy(from, to) => {
            row.set(to, row.get(from));
            row.get(to)
        }
        Op::Swap(a, b) => {
            let first = row.get(a);
            row.set(a, row.get(b));
            row.set(b, first);
            row.get(b)
        }
    }
}

/// Runs a script on a row, and answers the reply: the value of the last operation, and 0 for an empty script.
///
/// The cells that the script does not name are unchanged, and neither the reply nor a named cell depends on them. The
/// script passes `check` for a shape with as many cells as the row has.
pub fn eval(script: &Script, row: &mut Row) -> u64
    requires { IsScript (length row.old) script.now }
    ensures fold { eval_of script.now.ops row.old ≡ record { row = row.new; reply = result } }
    ensures unnamed { (c : ℕ) → ops_name_cell script.now.ops c ≡ false → slice_index row.new c ≡ slice_index row.old c }
    ensures local { (other : List ℕ) → RowsAgreeOnNamed script.now.ops row.old other
        → RowsAgreeOnNamed script.now.ops row.new ((eval_of script.now.ops other).row)
        × (result ≡ (eval_of script.now.ops other).reply) }
{
    let mut reply = 0;
    for i in 0..script.n() {
        reply = perform(script.op(i), row);
    }
    reply
}
