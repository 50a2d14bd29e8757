//! A log in memory.

use crate::head::Head;
use crate::named_bytes::NamedBytes;
use std::alloc::{AllocError, Global};
use std::collections::LinkedList;

/// A log in memory, with the bytes that each head names that was put.
#[derive(Drop)]
pub(crate) struct MemoryLog {
    alloc: Global,
    head: Head,
    /// The bytes that the head names.
    bytes: Vec<u8>,
    /// The heads before it, the latest first.
    past: LinkedList<NamedBytes>,
    parts: Vec<Vec<u8>>,
}

impl MemoryLog {
    ghost use Rattle.std.specs.Prelude.{◌≡◌, ◌≤◌, ◌++◌, [], IfOk, OnErr, OnOk, eqb, length};
    ghost use Rattle.rme_replica.specs.EngineLogs.{WasStaged, base_bytes};
    ghost use Rattle.rme_replica.specs.MemoryLogs.{WasPut, joined_parts};
    ghost use Rattle.rme_replica.specs.KnownLogs.{log_of};

    /// A log with this head and no bytes.
    #[tactic(auto, unfolding(crate::specs::KnownLogs::log_of))]
    pub(crate) fn new(alloc: Global, head: Head) -> MemoryLog
        ensures head { (log_of result).head ≡ head }
        ensures bytes { (log_of result).bytes_at head ≡ [] }
    {
        MemoryLog {
            alloc,
            head,
            bytes: Vec::new(alloc),
            past: LinkedList::new(alloc),
            parts: Vec::new(alloc),
        }
    }

    /// The head.
    #[tactic(auto, unfolding(crate::specs::KnownLogs::log_of))]
    pub(crate) fn head(&self) -> &Head
        ensures { result.now ≡ (log_of self.now).head }
    {
        &self.head
    }

    /// A copy of the bytes that the head names.
    #[tactic(auto, unfolding(crate::specs::KnownLogs::log_of))]
    pub(crate) fn copy_bytes(&self, alloc: Global) -> Result<Vec<u8>, AllocError>
        ensures { IfOk result (λ copy. copy.items ≡ (log_of self.now).bytes_at (log_of self.now).head) }
    {
        let copy = self.bytes.as_slice().to_vec(alloc)?;
        Ok(copy)
    }

    /// Puts this head over the same bytes.
    pub(crate) fn put_head(&mut self, head: Head) -> Result<(), AllocError>
        ensures put { OnOk result (WasPut head ((log_of self.old).bytes_at (log_of self.old).head) (log_of self.old)
            (log_of self.new)) }
        ensures same { OnErr result (log_of self.new ≡ log_of self.old) }
    {
        let bytes = self.copy_bytes(self.alloc)?;
        self.put(head, bytes)
    }

    /// Puts this head, which names these bytes.
    #[tactic(auto, unfolding(crate::specs::KnownLogs::log_of))]
    fn put(&mut self, head: Head, bytes: Vec<u8>) -> Result<(), AllocError>
        ensures put { OnOk result (WasPut head bytes.items (log_of self.old) (log_of self.new)) }
        ensures same { OnErr result (log_of self.new ≡ log_of self.old) }
    {
        let past = NamedBytes {
            head: self.head.copy(self.alloc)?,
            bytes: self.bytes.as_slice().to_vec(self.alloc)?,
        };
        self.past.push_front(past)?;
        self.head = head;
        self.bytes = bytes;
        self.parts.clear();
        Ok(())
    }

    /// The first parts, joined.
    #[tactic(auto, unfolding(crate::specs::KnownLogs::log_of))]
    fn join_parts(&self, count: u64) -> Result<Vec<u8>, AllocError>
        ensures { IfOk result (λ bytes. bytes.items ≡ joined_parts count (log_of self.now)) }
    {
        let mut bytes = Vec::new(self.alloc);
        let parts = self.parts.as_slice();
        let end = (count as usize).min(parts.len());
        for index in 0..end {
            bytes.extend_from_slice(parts[index].as_slice())?;
        }
        Ok(bytes)
    }

    /// What an add of this head puts its lines behind.
    #[tactic(auto, unfolding(crate::specs::KnownLogs::log_of))]
    fn base(&self, next: &Head) -> Result<Vec<u8>, AllocError>
        ensures { IfOk result (λ bytes. bytes.items
            ≡ base_bytes (eqb next.now.epoch (log_of self.now).head.epoch) next.now (log_of self.now)) }
    {
        if next.epoch() == self.head.epoch() {
            let bytes = self.copy_bytes(self.alloc)?;
            return Ok(bytes);
        }
        let bytes = self.join_parts(next.sequence().saturating_sub(1))?;
        Ok(bytes)
    }

    /// Puts this head, which names the lines behind the earlier bytes.
    pub(crate) fn put_lines(&mut self, next: &Head, lines: &[u8]) -> Result<(), AllocError>
        ensures put { OnOk result (WasPut next.now
            (base_bytes (eqb next.now.epoch (log_of self.old).head.epoch) next.now (log_of self.old) ++ lines.now)
            (log_of self.old) (log_of self.new)) }
        ensures same { OnErr result (log_of self.new ≡ log_of self.old) }
    {
        let mut bytes = self.base(next)?;
        bytes.extend_from_slice(lines)?;
        let head = next.copy(self.alloc)?;
        self.put(head, bytes)
    }

    /// Puts this part behind those with lower numbers.
    #[tactic(auto, unfolding(crate::specs::KnownLogs::log_of))]
    pub(crate) fn put_part(&mut self, part: u64, bytes: &[u8]) -> Result<(), AllocError>
        requires before { part ≤ length (log_of self.old).parts }
        ensures put { OnOk result (WasStaged (log_of self.old).head part bytes.now (log_of self.old)
            (log_of self.new)) }
        ensures same { OnErr result (log_of self.new ≡ log_of self.old) }
    {
        let bytes = bytes.to_vec(self.alloc)?;
        self.parts.reserve(1)?;
        self.parts.truncate(part as usize);
        self.parts.push(bytes)?;
        Ok(())
    }
}
