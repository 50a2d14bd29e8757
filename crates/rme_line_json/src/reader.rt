//! Reading the value of a line.

ghost use Rattle.std.specs.Prelude.{◌≡◌, Some, IfOk, IfSome, option_map};
ghost use Rattle.std.specs.Str.{IsUtf8};
ghost use Rattle.json.specs.Lex.{tokens};
ghost use Rattle.serde_json.specs.View as kit;
ghost use Rattle.rme_line_json.specs.Values.{json_value_of};
ghost use Rattle.rme_line_json.specs.View.{value_view};

use crate::lent::lend;
use crate::tree::read_tree;
use crate::value::Value;
use json::{Reader, Scratch};
use rme_words::NoMemory;
use serde_json::Value as Owned;
use std::alloc::Global;

/// The greatest depth of a value, the same as serde_json's.
const MOST_DEPTH: usize = 127;

/// Reads the values of lines, one after another. It holds some 16 KiB for that.
#[derive(Drop)]
pub struct ValueReader {
    alloc: Global,
    scratch: Scratch,
}

/// Storage for the value of a line that the fast path does not read. An empty one takes no memory.
#[derive(Drop)]
pub struct ValueStorage {
    owned: Option<Owned>,
}

impl ValueStorage {
    /// Empty storage.
    pub fn new() -> ValueStorage {
        ValueStorage { owned: None }
    }
}

impl ValueReader {
    /// A reader; it takes its memory with the first line.
    pub fn new(alloc: Global) -> ValueReader {
        ValueReader {
            alloc,
            scratch: Scratch::new(alloc),
        }
    }

    /// The value of a line's bytes, or `None` if they are no value. `NoMemory` if memory for it was refused.
    pub fn read<'a>(
        &'a mut self,
        room: &'a mut ValueStorage,
        line: &'a [u8],
    ) -> Result<Option<Value<'a>>, NoMemory>
        ensures { IfOk result (λ value. option_map value_view value ≡ json_value_of line.now) }
    {
        let ValueReader { alloc, scratch } = self;
        if let Some(value) = read_soon(*alloc, scratch, line) {
            return Ok(Some(value));
        }
        let Some(value) = read_owned(*alloc, line)? else {
            return Ok(None);
        };
        match lend(*alloc, room.owned.insert(value)) {
            Some(value) => Ok(Some(value)),
            None => Err(NoMemory),
        }
    }

    /// The tokens of a line's bytes, for callers that need no value. `None` if the bytes are not UTF-8 or memory was
    /// refused.
    pub fn tokens<'a>(&'a mut self, line: &'a [u8]) -> Option<Reader<'a>>
        ensures { IfSome result (λ reader. IsUtf8 line.now × (reader ≡ tokens line.now)) }
    {
        tokens_of(&mut self.scratch, line)
    }
}

/// The same, over the scratch memory.
fn tokens_of<'a>(scratch: &'a mut Scratch, line: &'a [u8]) -> Option<Reader<'a>>
    ensures { IfSome result (λ reader. IsUtf8 line.now × (reader ≡ tokens line.now)) }
{
    let Ok(text) = simdutf8::compat::from_utf8(line) else {
        return None;
    };
    let Ok(reader) = Reader::new(text, scratch) else {
        return None;
    };
    Some(reader)
}

/// The value of a line's bytes, by the fast path: its numbers are whole, its objects have few members, and memory is
/// not refused.
fn read_soon<'a>(alloc: Global, scratch: &'a mut Scratch, line: &'a [u8]) -> Option<Value<'a>>
    ensures { IfSome result (λ value. Some (value_view value) ≡ json_value_of line.now) }
{
    let mut reader = tokens_of(scratch, line)?;
    let value = read_tree(alloc, &mut reader, MOST_DEPTH)?;
    if reader.next().is_some() {
        return None;
    }
    Some(value)
}

/// The value of a line's bytes, or `None` if they are no value. `NoMemory` if memory for it was refused.
#[inline(never)]
fn read_owned(alloc: Global, line: &[u8]) -> Result<Option<Owned>, NoMemory>
    ensures { IfOk result (λ value. option_map kit.view value ≡ json_value_of line.now) }
{
    match Owned::from_slice(alloc, line) {
        Ok(value) => Ok(Some(value)),
        Err(error) => {
            if error.is_memory() {
                return Err(NoMemory);
            }
            Ok(None)
        }
    }
}
