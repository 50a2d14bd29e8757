//! Look-ups, which a session may make with or without a worker.

ghost use Rattle.std.specs.Prelude.{◌≡◌, IfOk};
ghost use Rattle.rme_line_json.specs.View.{value_view};
ghost use Rattle.rme_durable_lookups.specs.Lookups as spec;

use rme_wire::{Names, Value, ValueReader, ValueStorage, do_member, lock_member};
use rme_words::NoMemory;
use std::alloc::Global;

/// A look-up. A lock is its number; for a lock that does not exist, the number of locks.
#[derive(Clone, Copy, Debug, PartialEq, Eq)]
pub enum SessionLookup {
    /// The owner of a lock.
    Owner(u32),
    /// The cells of a lock.
    Cells(u32),
    /// All locks and all workers.
    Status,
}

/// The look-up that a line is; `None` if it is none.
#[tactic(auto, unfolding(crate::specs::Lookups::lookup_of_bytes))]
pub fn parse_lookup(
    alloc: Global,
    names: &Names,
    line: &[u8],
) -> Result<Option<SessionLookup>, NoMemory>
    ensures { IfOk result (λ look. look ≡ spec.lookup_of_bytes names.now line.now) }
{
    let mut values = ValueReader::new(alloc);
    let mut room = ValueStorage::new();
    match values.read(&mut room, line)? {
        None => Ok(None),
        Some(value) => Ok(lookup_of_value(names, &value)),
    }
}

#[tactic(auto, unfolding(crate::specs::Lookups::lookup_of_value))]
fn lookup_of_value(names: &Names, value: &Value<'_>) -> Option<SessionLookup>
    ensures { result ≡ spec.lookup_of_value names.now (value_view value.now) }
{
    let count = value.key_count()?;
    let word = do_member(value)?;
    lookup_named(names, word, count, value)
}

/// The look-up of a value whose member `do` is this word and that has this number of members.
#[tactic(auto, unfolding(crate::specs::Lookups::lookup_named))]
fn lookup_named(names: &Names, word: &str, count: usize, value: &Value<'_>) -> Option<SessionLookup>
    ensures { result ≡ spec.lookup_named names.now word.now count (value_view value.now) }
{
    match word {
        "status" => status_lookup(count),
        _ => lookup_of_lock(names, word, count, value),
    }
}

fn status_lookup(count: usize) -> Option<SessionLookup>
    ensures { result ≡ spec.status_lookup count }
{
    if count == 1 {
        Some(SessionLookup::Status)
    } else {
        None
    }
}

fn lookup_of_lock(
    names: &Names,
    word: &str,
    count: usize,
    value: &Value<'_>,
) -> Option<SessionLookup>
    ensures { result ≡ spec.lookup_of_lock names.now word.now count (value_view value.now) }
{
    if count != 2 {
        return None;
    }
    let lock = lock_member(names, value)?;
    lock_lookup(word, lock)
}

fn lock_lookup(word: &str, lock: u32) -> Option<SessionLookup>
    ensures { result ≡ spec.lock_lookup word.now lock }
{
    match word {
        "owner" => Some(SessionLookup::Owner(lock)),
        "cells" => Some(SessionLookup::Cells(lock)),
        _ => None,
    }
}
