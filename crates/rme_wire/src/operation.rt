//! The operations of scripts in lines.

ghost use Rattle.std.specs.Prelude.{◌≡◌};
ghost use Rattle.rme_line_json.specs.View.{value_view};
ghost use Rattle.rme_wire.specs.Operations as spec;

use crate::value::whole_u32;
use rme_line_json::Value;
use rme_script::{Op, Script};

/// The greatest number of operations that a script distinguishes: nine are too many, and so is any greater number.
const TELLING: usize = 9;

/// One operation: its name, and its cells or its cell and value.
#[tactic(auto, unfolding(crate::specs::Operations::op_of_value))]
fn op_of_value(value: &Value<'_>) -> Option<Op>
    ensures { result ≡ spec.op_of_value (value_view value.now) }
{
    let count = value.item_count()?;
    let word = value.at(0)?.as_str()?;
    let first = whole_u32(value.at(1)?)?;
    op_named(count, word, first, value)
}

/// The operation of a list with this number of items, whose first two are this word and this number.
fn op_named(count: usize, word: &str, first: u32, value: &Value<'_>) -> Option<Op>
    ensures { result ≡ spec.op_named count word.now first (value_view value.now) }
{
    if word == "get" {
        return if count == 2 {
            Some(Op::Get(first))
        } else {
            None
        };
    }
    if count != 3 {
        return None;
    }
    op_of_two(word, first, value.at(2)?)
}

/// The operation of this word on two numbers, after the first.
fn op_of_two(word: &str, first: u32, second: &Value<'_>) -> Option<Op>
    ensures { result ≡ spec.op_of_two word.now first (value_view second.now) }
{
    match word {
        "set" => Some(Op::Set(first, second.as_u64()?)),
        "add" => Some(Op::Add(first, second.as_u64()?)),
        "copy" => Some(Op::Copy(first, whole_u32(second)?)),
        "swap" => Some(Op::Swap(first, whole_u32(second)?)),
        _ => None,
    }
}

/// The script of a list of operations; `None` if the value is no such list.
pub fn script_of_value(value: &Value<'_>) -> Option<Script>
    ensures { result ≡ spec.script_of_value (value_view value.now) }
{
    let items = value.as_array()?;
    let mut ops = [Op::Get(0); TELLING];
    let mut count = 0;
    for item in items {
        let op = op_of_value(item)?;
        if count < TELLING {
            ops[count] = op;
            count += 1;
        }
    }
    Some(Script::of(&ops[..count]))
}
