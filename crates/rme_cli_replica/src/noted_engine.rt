//! The engine of a log, which notes what its calls answer.

use crate::lead_note::{LeadNote, LeadOutcome};
use rme_etcd::{EtcdEngine, EtcdFault};
use rme_replica::{Added, Head, LogEngine, Lost};
use std::alloc::Global;

/// The engine of a log in a cluster. It notes the outcome of its last call, and the term of the head that it read or put
/// last. After each claim and each checkpoint it deletes the records of other epochs.
#[derive(Drop)]
pub(crate) struct NotedEngine<'a> {
    pub(crate) engine: EtcdEngine,
    pub(crate) note: &'a LeadNote,
}

impl NotedEngine<'_> {
    /// Notes that no answer came.
    fn lost(&self) -> Lost {
        let why = self.engine.fault().unwrap_or(EtcdFault::Unreachable);
        self.note.set(LeadOutcome::Lost(why));
        Lost
    }

    /// Notes whether the log has the head that was asked for.
    fn note_owner(&self, has: Result<bool, Lost>) -> Result<bool, Lost> {
        match has {
            Ok(true) => self.note.set(LeadOutcome::Own),
            Ok(false) => self.note.set(LeadOutcome::Overtaken),
            Err(Lost) => return Err(self.lost()),
        }
        has
    }

    /// Notes the outcome of a conditional call.
    fn note_added(&self, added: Result<Added, Lost>, next: &Head) -> Result<Added, Lost> {
        match added {
            Ok(Added::Made) => {
                self.note.set(LeadOutcome::Own);
                Ok(Added::Made)
            }
            Ok(Added::Moved(found)) => {
                let outcome = if found.is_same(next) {
                    LeadOutcome::Own
                } else {
                    LeadOutcome::Overtaken
                };
                self.note.set(outcome);
                Ok(Added::Moved(found))
            }
            Err(Lost) => Err(self.lost()),
        }
    }

    /// Deletes the records of other epochs, if this head ends an epoch or begins a term. A failure is ignored: the next
    /// claim or checkpoint tries again.
    fn clear_leftovers(&mut self, seen: &Head, next: &Head) {
        if seen.epoch() != next.epoch() || seen.term() != next.term() {
            let _ = self.engine.clear(next);
        }
    }
}

/// Whether the log has this head after a conditional call that puts it.
fn has_head(added: &Added, next: &Head) -> bool {
    match added {
        Added::Made => true,
        Added::Moved(found) => found.is_same(next),
    }
}

/// Each call is as that of the engine.
impl LogEngine for NotedEngine<'_> {
    ghost use Rattle.std.specs.Prelude.{None};

    ghost log = { λ _. None };

    fn read(&mut self, alloc: Global) -> Result<(Head, Vec<u8>), Lost> {
        let Ok((head, bytes)) = self.engine.read(alloc) else {
            return Err(self.lost());
        };
        self.note.set(LeadOutcome::Own);
        self.note.set_term(head.term());
        self.note.set_bytes(bytes.len());
        Ok((head, bytes))
    }

    fn add(&mut self, seen: &Head, next: &Head, lines: &[u8]) -> Result<Added, Lost> {
        let added = self.engine.add(seen, next, lines);
        let added = self.note_added(added, next)?;
        if has_head(&added, next) {
            self.note.set_term(next.term());
            self.note
                .count_added(lines.len(), seen.epoch() == next.epoch());
            self.clear_leftovers(seen, next);
        }
        Ok(added)
    }

    fn stage(&mut self, seen: &Head, part: u64, bytes: &[u8]) -> Result<Added, Lost> {
        let staged = self.engine.stage(seen, part, bytes);
        let staged = self.note_added(staged, seen)?;
        if let Added::Made = &staged {
            self.note.count_staged(bytes.len());
        }
        Ok(staged)
    }

    fn is(&mut self, seen: &Head) -> Result<bool, Lost> {
        let has = self.engine.is(seen);
        self.note_owner(has)
    }

    fn beat(&mut self, seen: &Head) -> Result<bool, Lost> {
        let has = self.engine.beat(seen);
        self.note_owner(has)
    }
}
