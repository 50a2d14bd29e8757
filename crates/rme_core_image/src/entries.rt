//! The entries of an image.

ghost use Rattle.std.specs.Prelude.{◌≡◌, ◌≤◌, [], IfOk, IfSome, option_map};
ghost use Rattle.rme_core_image.specs.Parsing.{parse_op, parse_script, parse_receipt, parse_entry, parse_entries, parse_many};

use crate::numbers::{number8, number16, number32, number64};
use rme_history::EntryList;
use rme_program::{Entry, Receipt};
use rme_script::{MOST_OPERATIONS, Op, Script, op_from_words};
use rme_words::NoMemory;
use std::alloc::Global;

/// The operation at the front, and the bytes after it.
#[tactic(auto, unfolding(crate::specs::Parsing::parse_op))]
fn read_operation(bytes: &[u8]) -> Option<(Op, &[u8])>
    ensures { parse_op bytes.now ≡ option_map (λ x. (x.0, x.1.now)) result }
{
    let Some((kind, rest)) = number8(bytes) else {
        return None;
    };
    let Some((first, rest)) = number8(rest) else {
        return None;
    };
    let Some((second, rest)) = number64(rest) else {
        return None;
    };
    let Some(op) = op_from_words(u64::from(kind), u64::from(first), second) else {
        return None;
    };
    Some((op, rest))
}

/// The script of `count` operations at the front, and the bytes after it.
fn read_operations(count: usize, bytes: &[u8]) -> Option<(Script, &[u8])>
    requires { count ≤ 8 }
    ensures read { parse_many (λ _. parse_op) count [] bytes.now ≡ option_map (λ x. (x.0.ops, x.1.now)) result }
    ensures counted { IfSome result (λ x. x.0.n ≡ count) }
{
    let mut ops = [Op::Get(0); MOST_OPERATIONS];
    let mut rest = bytes;
    for i in 0..count {
        let Some((op, after)) = read_operation(rest) else {
            return None;
        };
        ops[i] = op;
        rest = after;
    }
    Some((Script::of(&ops[..count]), rest))
}

/// The script at the front, and the bytes after it.
#[tactic(auto, unfolding(crate::specs::Parsing::parse_script))]
fn read_script(bytes: &[u8]) -> Option<(Script, &[u8])>
    ensures read { parse_script bytes.now ≡ option_map (λ x. (x.0, x.1.now)) result }
    ensures few { IfSome result (λ x. x.0.n ≤ 8) }
{
    let Some((count, rest)) = number8(bytes) else {
        return None;
    };
    let count = usize::from(count);
    if count > MOST_OPERATIONS {
        return None;
    }
    read_operations(count, rest)
}

/// The receipt at the front, and the bytes after it.
#[tactic(auto, unfolding(crate::specs::Parsing::parse_receipt))]
fn read_receipt(bytes: &[u8]) -> Option<(Receipt, &[u8])>
    ensures { parse_receipt bytes.now ≡ option_map (λ x. (x.0, x.1.now)) result }
{
    let Some((worker, rest)) = number16(bytes) else {
        return None;
    };
    let Some((number, rest)) = number32(rest) else {
        return None;
    };
    let Some((lock, rest)) = number8(rest) else {
        return None;
    };
    let Some((place, rest)) = number32(rest) else {
        return None;
    };
    let Some((reply, rest)) = number64(rest) else {
        return None;
    };
    let receipt = Receipt {
        worker: u32::from(worker),
        lock: u32::from(lock),
        number,
        place,
        reply,
    };
    Some((receipt, rest))
}

/// The entry at the front, and the bytes after it.
#[tactic(auto, unfolding(crate::specs::Parsing::parse_entry))]
fn read_entry(bytes: &[u8]) -> Option<(Entry, &[u8])>
    ensures read { parse_entry bytes.now ≡ option_map (λ x. (x.0, x.1.now)) result }
    ensures few { IfSome result (λ x. x.0.script.n ≤ 8) }
{
    let Some((receipt, rest)) = read_receipt(bytes) else {
        return None;
    };
    let Some((script, rest)) = read_script(rest) else {
        return None;
    };
    Some((Entry { receipt, script }, rest))
}

/// The next `count` entries at the front, and the bytes after them. Memory is taken as entries are parsed, never by
/// `count`, which may be arbitrarily large in a short image.
fn read_some(
    alloc: Global,
    count: u32,
    bytes: &[u8],
) -> Result<Option<(EntryList, &[u8])>, NoMemory>
    ensures { IfOk result (λ read. parse_many (λ _. parse_entry) count [] bytes.now ≡ option_map
        (λ x. (x.0.entries, x.1.now)) read) }
{
    let mut entries = EntryList::new(alloc);
    let mut rest = bytes;
    for _ in 0..count {
        let Some((next, after)) = read_entry(rest) else {
            return Ok(None);
        };
        entries.reserve(1)?;
        entries.push(next.receipt, &next.script);
        rest = after;
    }
    Ok(Some((entries, rest)))
}

/// All entries: their number, the entries, and no bytes after the last.
#[tactic(auto, unfolding(crate::specs::Parsing::parse_entries))]
pub fn read_entries(alloc: Global, bytes: &[u8]) -> Result<Option<EntryList>, NoMemory>
    ensures { IfOk result (λ read. parse_entries bytes.now ≡ option_map (λ x. x.entries) read) }
{
    let Some((count, rest)) = number32(bytes) else {
        return Ok(None);
    };
    let Some((entries, rest)) = read_some(alloc, count, rest)? else {
        return Ok(None);
    };
    if !rest.is_empty() {
        return Ok(None);
    }
    Ok(Some(entries))
}
