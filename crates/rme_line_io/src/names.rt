//! The names of locks.

ghost use Rattle.std.specs.Prelude.{◌≡◌, ◌<◌, ◌≤◌, [], ◌∷◌, Option, option_map, IfOk, IfSome, slice_index_or, length};
ghost use Rattle.rme_line_io.specs.Names.{NameAdded, is_name, is_name_byte, name_number, may_add_name};
ghost use Rattle.std.specs.List.{list_all};

use indexmap::IndexSet;
use rme_words::{MOST_LOCKS, NoMemory, Refusal};
use std::alloc::Global;
use std::marker::Model;

/// The greatest number of names, one for each lock.
const MOST_NAMES: usize = MOST_LOCKS as usize;

/// The greatest length of a name in bytes.
const NAME_LIMIT: usize = 32;

/// The names of locks, each once, numbered from 0 in the order in which they were added.
#[derive(Drop)]
pub struct Names {
    alloc: Global,
    set: IndexSet<String>,
}

impl Model for Names {
    ghost use Rattle.std.specs.Prelude.{ℕ, List, map, string_bytes, length, ◌≤◌};

    ghost Value = { List (List ℕ) };

    ghost view = { λ names. map string_bytes names.set.keys };

    ghost invariant = { λ names. length names.set.keys ≤ 16 };
}

fn is_name_byte(byte: u8) -> bool
    ensures { result ≡ is_name_byte byte }
{
    matches!(byte, b'a'..=b'z' | b'0'..=b'9' | b'_' | b'-')
}

fn are_name_bytes(bytes: &[u8]) -> bool
    ensures { result ≡ list_all is_name_byte bytes.now }
{
    bytes.iter().all(|byte| is_name_byte(*byte))
}

/// Whether a text may name a lock: 1 to 32 bytes of `a` to `z`, `0` to `9`, `_` and `-`.
pub fn is_name(text: &str) -> bool
    ensures { result ≡ is_name text.now }
{
    if text.is_empty() || text.len() > NAME_LIMIT {
        return false;
    }
    are_name_bytes(text.as_bytes())
}

impl Names {
    /// No names, with memory for all of them but their texts.
    pub fn new(alloc: Global) -> Result<Names, NoMemory>
        ensures { IfOk result (λ names. names ≡ []) }
    {
        let Ok(set) = IndexSet::with_capacity(alloc, MOST_NAMES) else {
            return Err(NoMemory);
        };
        Ok(Names { alloc, set })
    }

    fn may_add(&self, text: &str) -> bool
        ensures { result ≡ may_add_name self.now text.now }
    {
        if !is_name(text) || self.set.len() >= MOST_NAMES {
            return false;
        }
        !self.set.contains(text)
    }

    /// Adds a name, and answers its number.
    ///
    /// `BadShape` if the text is no name, is already present or would be the seventeenth; `NoMemory` only otherwise. A
    /// refusal changes nothing.
    pub fn add(&mut self, text: &str) -> Result<u32, Refusal>
        ensures { NameAdded self.old text.now result self.new }
    {
        if !self.may_add(text) {
            return Err(Refusal::BadShape);
        }
        let Ok(name) = String::from_str(self.alloc, text) else {
            return Err(Refusal::NoMemory);
        };
        let Ok((index, _)) = self.set.insert_full(name) else {
            return Err(Refusal::NoMemory);
        };
        Ok(index as u32)
    }

    /// The number of names.
    pub fn len(&self) -> u32
        ensures count { result ≡ length self.now }
        ensures few { result ≤ 16 }
    {
        self.set.len() as u32
    }

    /// The number of a name.
    pub fn number(&self, text: &str) -> Option<u32>
        ensures { result ≡ name_number self.now text.now }
    {
        let index = self.set.get_index_of(text)?;
        Some(index as u32)
    }

    /// The name with this number, which is below `len`.
    pub fn name(&self, number: u32) -> &str
        requires { number < length self.now }
        ensures { result.now ≡ slice_index_or self.now number [] }
    {
        self.set.get_index(number as usize).unwrap().as_str()
    }
}
