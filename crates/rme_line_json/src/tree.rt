//! A value, token by token.

ghost use Rattle.std.specs.Prelude.{◌<◌, length, IfSome, OnSome};
ghost use Rattle.rme_line_json.specs.Trees.{TokensBeginWithValue, TokensBeginWithItems, TokensBeginWithMembers};
ghost use Rattle.rme_line_json.specs.View.{value_view, items_view, members_view};

use crate::members::put;
use crate::number::whole_number;
use crate::value::Value;
use json::{Reader, Token};
use std::alloc::Global;

/// The greatest number of members of an object. Each is inserted by a search among the earlier ones.
const MOST_MEMBERS: usize = 64;

/// The next value, at most this deep. `None` if there is none, if memory was refused, at a number that is not whole or
/// has a sign, and at an object with too many members.
#[cycle(tree)]
pub fn read_tree<'a>(alloc: Global, reader: &mut Reader<'a>, depth: usize) -> Option<Value<'a>>
    ensures value { IfSome result (λ value. TokensBeginWithValue depth reader.old (value_view value) reader.new) }
    ensures shorter { OnSome result (length reader.new < length reader.old) }
{
    let token = reader.next()?;
    match token {
        Token::String(text) => Some(Value::String(text)),
        Token::Number(text) => {
            let number = whole_number(text)?;
            Some(Value::Number(number))
        }
        Token::Bool(is_true) => Some(Value::Bool(is_true)),
        Token::Null => Some(Value::Null),
        Token::BeginArray => {
            if depth == 0 {
                return None;
            }
            let items = read_items(alloc, reader, depth - 1)?;
            Some(Value::Array(items))
        }
        Token::BeginObject => {
            if depth == 0 {
                return None;
            }
            let members = read_members(alloc, reader, depth - 1)?;
            Some(Value::Object(members))
        }
        Token::EndObject | Token::EndArray | Token::Key(_) | Token::Bad => None,
    }
}

/// The values up to the closing bracket of a list, each at most this deep.
#[cycle(tree)]
fn read_items<'a>(alloc: Global, reader: &mut Reader<'a>, depth: usize) -> Option<Vec<Value<'a>>>
    ensures items { IfSome result (λ values. TokensBeginWithItems depth reader.old
        (items_view values.items) reader.new) }
    ensures shorter { OnSome result (length reader.new < length reader.old) }
{
    let mut found = Vec::new(alloc);
    'items: while !reader.take_end_array() {
        let item = read_tree(alloc, reader, depth)?;
        let Ok(()) = found.push(item) else {
            return None;
        };
    }
    Some(found)
}

/// The keys and values up to the closing brace of an object, each at most this deep. Of two with the same key the last
/// stays.
#[cycle(tree)]
fn read_members<'a>(
    alloc: Global,
    reader: &mut Reader<'a>,
    depth: usize,
) -> Option<Vec<(&'a str, Value<'a>)>>
    ensures members { IfSome result (λ found. TokensBeginWithMembers depth reader.old (members_view found.items)
        reader.new) }
    ensures shorter { OnSome result (length reader.new < length reader.old) }
{
    let mut found = Vec::new(alloc);
    'members: while let Some(key) = reader.next_key().ok()? {
        let member = read_tree(alloc, reader, depth)?;
        if found.len() >= MOST_MEMBERS {
            return None;
        }
        put(&mut found, key, member)?;
    }
    Some(found)
}
