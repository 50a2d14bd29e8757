//! Converting a value of serde_json to one that borrows its texts.

ghost use Rattle.std.specs.Prelude.{◌≡◌, IfSome};
ghost use Rattle.serde_json.specs.View as kit;
ghost use Rattle.rme_line_json.specs.View.{value_view, items_view, members_view};

use crate::value::Value;
use serde_json::{Map, Value as Owned};
use std::alloc::Global;

/// The same value, borrowing the texts of this one. `None` if memory was refused.
#[cycle(lend)]
pub fn lend<'a>(alloc: Global, value: &'a Owned) -> Option<Value<'a>>
    ensures { IfSome result (λ lent. value_view lent ≡ kit.view value.now) }
{
    match value {
        Owned::Null => Some(Value::Null),
        Owned::Bool(is_true) => Some(Value::Bool(*is_true)),
        Owned::Number(number) => Some(Value::Number(*number)),
        Owned::String(text) => Some(Value::String(text.as_str())),
        Owned::Array(items) => Some(Value::Array(lend_items(alloc, items)?)),
        Owned::Object(members) => Some(Value::Object(lend_members(alloc, members)?)),
    }
}

#[cycle(lend)]
fn lend_items<'a>(alloc: Global, items: &'a Vec<Owned>) -> Option<Vec<Value<'a>>>
    ensures { IfSome result (λ lent. items_view lent.items ≡ kit.items_view items.now.items) }
{
    let mut lent = Vec::new(alloc);
    for item in items {
        let value = lend(alloc, item)?;
        let Ok(()) = lent.push(value) else {
            return None;
        };
    }
    Some(lent)
}

#[cycle(lend)]
fn lend_members<'a>(
    alloc: Global,
    members: &'a Map<String, Owned>,
) -> Option<Vec<(&'a str, Value<'a>)>>
    ensures { IfSome result (λ lent. members_view lent.items ≡ kit.members_view members.now.entries) }
{
    let mut lent = Vec::new(alloc);
    for (key, member) in members.iter() {
        let value = lend(alloc, member)?;
        let Ok(()) = lent.push((key.as_str(), value)) else {
            return None;
        };
    }
    Some(lent)
}
