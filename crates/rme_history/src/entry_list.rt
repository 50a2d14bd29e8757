//! A compact list of finished sections.

ghost use Rattle.std.specs.Prelude.{◌≡◌, ◌+◌, ◌<◌, ◌≤◌, ◌++◌, drop, length, slice_range, vec_capacity};
ghost use Rattle.rme_history.specs.EntryLists.{AreEntryOps, end_before, entry_up_to};

use crate::entry_head::EntryHead;
use rme_program::{Entry, Receipt};
use rme_script::{MOST_OPERATIONS, Op, Script};
use rme_words::NoMemory;
use std::alloc::Global;
use std::marker::Model;

/// No list has room for more: the index of an operation has 64 bits.
const MOST_ENTRIES: usize = usize::MAX / MOST_OPERATIONS;

/// Finished sections, in order. A section whose script has a single operation takes 48 bytes; an `Entry` has 160. This
/// matters because the first write to a page of memory is expensive.
#[derive(Drop)]
pub struct EntryList {
    heads: Vec<EntryHead>,
    ops: Vec<Op>,
    room: usize,
}

impl Model for EntryList {
    ghost use Rattle.std.specs.Prelude.{vec_capacity};
    ghost use Rattle.rme_history.specs.EntryLists.{EntryListView, IsEntryList, entries_from_heads};

    ghost Value = { EntryListView };

    ghost view = { λ list. record { entries = entries_from_heads list.ops.items list.heads.items; room = list.room } };

    ghost invariant = { λ list. IsEntryList list.ops.items list.heads.items list.room (vec_capacity list.ops)
        (vec_capacity list.heads) };
}

impl EntryList {
    ghost use Rattle.std.specs.Prelude.{◌≡◌, ◌+◌, ◌-◌, ◌<◌, ◌≤◌, [], ◌∷◌, ◌++◌, IfOk, OnOk, OnErr, length, option_map, slice_get};
    ghost use Rattle.rme_program.specs.declared.note.Entry.{Entry as Section};

    /// An empty list without room; takes no memory.
    pub fn new(alloc: Global) -> EntryList
        ensures none { result.entries ≡ [] }
        ensures room { result.room ≡ 0 }
    {
        EntryList {
            heads: Vec::new(alloc),
            ops: Vec::new(alloc),
            room: 0,
        }
    }

    /// An empty list with room for `room` entries, whatever their scripts; `NoMemory` if that was refused.
    pub fn with_room(alloc: Global, room: usize) -> Result<EntryList, NoMemory>
        ensures none { IfOk result (λ list. list.entries ≡ []) }
        ensures room { IfOk result (λ list. list.room ≡ room) }
    {
        if room > MOST_ENTRIES {
            return Err(NoMemory);
        }
        let Ok(heads) = Vec::with_capacity(alloc, room) else {
            return Err(NoMemory);
        };
        let Ok(ops) = Vec::with_capacity(alloc, room * MOST_OPERATIONS) else {
            return Err(NoMemory);
        };
        Ok(EntryList { heads, ops, room })
    }

    /// Makes room for `more` more entries, whatever their scripts. It grows as a `Vec` does, so that many small calls
    /// cost as much as a large one.
    ///
    /// `NoMemory` if memory was refused, or there would be 2^61 entries or more; the list is then unchanged.
    #[tactic(auto, using(crate::proofs::Listings::entries_len))]
    pub fn reserve(&mut self, more: usize) -> Result<(), NoMemory>
        ensures entries { self.new.entries ≡ self.old.entries }
        ensures made { OnOk result (length self.old.entries + more ≤ self.new.room) }
        ensures roomier { self.old.room ≤ self.new.room }
        ensures unchanged { OnErr result (self.new ≡ self.old) }
    {
        let room = self.heads.len().saturating_add(more);
        if room > MOST_ENTRIES {
            return Err(NoMemory);
        }
        if self.heads.reserve(more).is_err() {
            return Err(NoMemory);
        }
        if self.ops.reserve(more * MOST_OPERATIONS).is_err() {
            return Err(NoMemory);
        }
        self.room = self.room.max(room);
        Ok(())
    }

    /// The number of entries.
    #[tactic(auto, using(crate::proofs::Listings::entries_len))]
    pub fn len(&self) -> usize
        ensures { result ≡ length self.now.entries }
    {
        self.heads.len()
    }

    /// The entry at this index, from 0.
    pub fn get(&self, at: usize) -> Option<Entry>
        ensures { result ≡ slice_get self.now.entries at }
    {
        let Some(head) = self.heads.get(at) else {
            return None;
        };
        let end = end_of(&self.heads, self.ops.len(), at);
        Some(entry_of(&self.ops, *head, end))
    }

    /// The receipt of the entry at this index.
    pub fn receipt(&self, at: usize) -> Option<Receipt>
        ensures { result ≡ option_map (λ (section : Section). section.receipt) (slice_get self.now.entries at) }
    {
        let Some(head) = self.heads.get(at) else {
            return None;
        };
        Some(head.receipt)
    }

    /// The operations of the entry at this index, without a copy.
    pub fn operations(&self, at: usize) -> Option<&[Op]>
        ensures { option_map (λ (section : Section). section.script.ops) (slice_get self.now.entries at) ≡ option_map
            (λ ops. ops.now) result }
    {
        let Some(head) = self.heads.get(at) else {
            return None;
        };
        let end = end_of(&self.heads, self.ops.len(), at);
        Some(operations_in(&self.ops, head.start as usize, end))
    }

    /// The last entry.
    pub fn last(&self) -> Option<Entry>
        ensures { result ≡ slice_get self.now.entries (length self.now.entries - 1) }
    {
        self.get(self.len().saturating_sub(1))
    }

    /// Appends an entry. There is room for it, and its script has at most as many operations as a job may have.
    #[tactic(auto, using(crate::proofs::Listings::entries_len))]
    pub fn push(&mut self, receipt: Receipt, script: &Script)
        requires room { length self.old.entries < self.old.room }
        requires few { script.now.n ≤ 8 }
        ensures entries { self.new.entries ≡ self.old.entries
            ++ record { receipt = receipt; script = script.now } ∷ [] }
        ensures room { self.new.room ≡ self.old.room }
    {
        let head = EntryHead {
            receipt,
            start: self.ops.len() as u64,
        };
        put_ops(&mut self.ops, script);
        self.heads.push_reserved(head);
    }
}

/// The end of the operations of the head at this index, of this number of operations.
fn end_of(heads: &[EntryHead], count: usize, at: usize) -> usize
    requires { at < length heads.now }
    ensures { result ≡ end_before (drop (at + 1) heads.now) count }
{
    match heads.get(at + 1) {
        Some(next) => next.start as usize,
        None => count,
    }
}

/// The entry of a head, whose operations end here.
fn entry_of(ops: &[Op], head: EntryHead, end: usize) -> Entry
    requires { AreEntryOps (length ops.now) head.start end }
    ensures { result ≡ entry_up_to ops.now head end }
{
    Entry {
        receipt: head.receipt,
        script: Script::of(operations_in(ops, head.start as usize, end)),
    }
}

/// The operations from a start to an end.
fn operations_in(ops: &[Op], start: usize, end: usize) -> &[Op]
    requires { AreEntryOps (length ops.now) start end }
    ensures { result.now ≡ slice_range ops.now start end }
{
    &ops[start..end]
}

/// Appends a script's operations, in order.
fn put_ops(ops: &mut Vec<Op>, script: &Script)
    requires few { script.now.n ≤ 8 }
    requires room { length ops.old.items + script.now.n ≤ vec_capacity ops.old }
    ensures items { ops.new.items ≡ ops.old.items ++ script.now.ops }
    ensures count { length script.now.ops ≡ script.now.n }
    ensures room { vec_capacity ops.new ≡ vec_capacity ops.old }
{
    for i in 0..script.n() {
        ops.push_reserved(script.op(i));
    }
}
