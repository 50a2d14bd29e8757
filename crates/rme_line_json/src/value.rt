//! A value over the text of its line, and look-ups in it.

ghost use Rattle.std.specs.Prelude.{◌≡◌, is_some, option_map, option_and_then};
ghost use Rattle.serde_json.specs.Events.{items_len, members_len};
ghost use Rattle.serde_json.specs.Find.{as_array, as_bool, as_i64, as_null, as_number, as_object, as_str, as_u64, at, get, get_item};
ghost use Rattle.rme_line_json.specs.View.{value_view, items_view};

use crate::members::find;
use serde_json::Number;

/// A JSON value that borrows the texts of its line. The members of an object are in the order of their keys, each key
/// once.
#[derive(PartialEq, Drop)]
pub enum Value<'a> {
    Null,
    Bool(bool),
    Number(Number),
    String(&'a str),
    Array(Vec<Value<'a>>),
    Object(Vec<(&'a str, Value<'a>)>),
}

impl<'a> Value<'a> {
    /// The member of this name; `None` if there is none, or the value is no object.
    pub fn get(&self, name: &str) -> Option<&Value<'a>>
        ensures { option_map (λ v. value_view v.now) result ≡ get name.now (value_view self.now) }
    {
        match self {
            Value::Object(members) => find(members, name),
            _ => None,
        }
    }

    /// The item at this index, from 0; `None` if there is none, or the value is no list.
    pub fn at(&self, index: usize) -> Option<&Value<'a>>
        ensures { option_map (λ v. value_view v.now) result ≡ at index (value_view self.now) }
    {
        match self {
            Value::Array(items) => item_at(items, index),
            _ => None,
        }
    }

    /// The items of a list; `None` if the value is no list.
    pub fn as_array(&self) -> Option<&Vec<Value<'a>>>
        ensures { option_map (λ v. items_view v.now.items) result ≡ as_array (value_view self.now) }
    {
        match self {
            Value::Array(items) => Some(items),
            _ => None,
        }
    }

    /// The number of members of an object; `None` if the value is no object.
    pub fn key_count(&self) -> Option<usize>
        ensures { result ≡ option_map members_len (as_object (value_view self.now)) }
    {
        match self {
            Value::Object(members) => Some(members.len()),
            _ => None,
        }
    }

    /// The number of items of a list; `None` if the value is no list.
    pub fn item_count(&self) -> Option<usize>
        ensures { result ≡ option_map items_len (as_array (value_view self.now)) }
    {
        match self {
            Value::Array(items) => Some(items.len()),
            _ => None,
        }
    }

    /// The text of the value, if it is a text.
    pub fn as_str(&self) -> Option<&'a str>
        ensures { option_map (λ text. text.now) result ≡ as_str (value_view self.now) }
    {
        match self {
            Value::String(text) => Some(*text),
            _ => None,
        }
    }

    /// The truth value of the value, if it is one.
    pub fn as_bool(&self) -> Option<bool>
        ensures { result ≡ as_bool (value_view self.now) }
    {
        match self {
            Value::Bool(is_true) => Some(*is_true),
            _ => None,
        }
    }

    /// Whether the value is null.
    pub fn is_null(&self) -> bool
        ensures { result ≡ is_some (as_null (value_view self.now)) }
    {
        matches!(self, Value::Null)
    }

    /// The value as a whole number from -2^63 to 2^63 - 1, if it is one.
    pub fn as_i64(&self) -> Option<i64>
        ensures { result ≡ option_and_then as_i64 (as_number (value_view self.now)) }
    {
        match self {
            Value::Number(number) => number.as_i64(),
            _ => None,
        }
    }

    /// The value as a whole number from 0 to 2^64 - 1, if it is one.
    pub fn as_u64(&self) -> Option<u64>
        ensures { result ≡ option_and_then as_u64 (as_number (value_view self.now)) }
    {
        match self {
            Value::Number(number) => number.as_u64(),
            _ => None,
        }
    }
}

/// The item at this index, if the list has one.
fn item_at<'v, 'a>(items: &'v [Value<'a>], index: usize) -> Option<&'v Value<'a>>
    ensures { option_map (λ v. value_view v.now) result ≡ get_item index (items_view items.now) }
{
    if index < items.len() {
        return Some(&items[index]);
    }
    None
}
