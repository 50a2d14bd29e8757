//! An engine in memory, whose log is known.

use crate::engine::{Added, LogEngine, Lost};
use crate::head::Head;
use crate::losses::Losses;
use crate::memory_log::MemoryLog;
use crate::rival::Rival;
use std::alloc::{AllocError, Global};

/// An engine in memory, whose log contracts know. Answers are lost, and another writer takes the log over, by plan; a
/// call that wants memory is lost too.
#[derive(Drop)]
pub struct MemoryEngine {
    alloc: Global,
    log: MemoryLog,
    losses: Losses,
    rival: Option<Rival>,
}

impl MemoryEngine {
    ghost use Rattle.std.specs.Prelude.{◌≡◌, [], IfOk};
    ghost use Rattle.rme_replica.specs.MemoryLogs.{RivalMayCome};
    ghost use Rattle.rme_replica.specs.MemoryEngines.{engine_log};

    /// An engine of a log with this head and no bytes. No answer is lost, and no other writer comes.
    pub fn new(alloc: Global, head: Head) -> MemoryEngine
        ensures head { (engine_log result).head ≡ head }
        ensures bytes { (engine_log result).bytes_at head ≡ [] }
    {
        MemoryEngine {
            alloc,
            log: MemoryLog::new(alloc, head),
            losses: Losses::NONE,
            rival: None,
        }
    }

    /// Loses answers by this plan.
    pub fn lose(&mut self, losses: Losses)
        ensures { engine_log self.new ≡ engine_log self.old }
    {
        self.losses = losses;
    }

    /// Before the call after this number of calls, another writer puts this head over the same bytes.
    pub fn take_over_later(&mut self, calls: u32, head: Head)
        ensures { engine_log self.new ≡ engine_log self.old }
    {
        self.rival = Some(Rival { calls, head });
    }

    /// The head of the other writer, if it is its turn.
    fn next_rival(&mut self) -> Option<Head>
        ensures { engine_log self.new ≡ engine_log self.old }
    {
        let Rival { calls, head } = self.rival.take()?;
        if calls == 0 {
            return Some(head);
        }
        self.rival = Some(Rival {
            calls: calls - 1,
            head,
        });
        None
    }

    /// Lets the other writer take the log over, if it is its turn. It puts no head that this call knows.
    fn meet_rival(&mut self, seen: &Head, next: &Head) -> Result<(), AllocError>
        ensures { RivalMayCome seen.now next.now (engine_log self.old) (engine_log self.new) }
    {
        let Some(head) = self.next_rival() else {
            return Ok(());
        };
        if head.is_same(seen) {
            return Ok(());
        }
        if head.is_same(next) {
            return Ok(());
        }
        self.log.put_head(head)?;
        Ok(())
    }

    /// The head that a call found, unless that answer is lost.
    fn found_head(&mut self) -> Result<Head, Lost>
        ensures found { IfOk result (λ head. head ≡ (engine_log self.new).head) }
        ensures same { engine_log self.new ≡ engine_log self.old }
    {
        if self.losses.loses_answer() {
            return Err(Lost);
        }
        match self.log.head().copy(self.alloc) {
            Ok(head) => Ok(head),
            Err(_) => Err(Lost),
        }
    }
}

impl LogEngine for MemoryEngine {
    ghost use Rattle.std.specs.Prelude.{Some};
    ghost use Rattle.rme_replica.specs.MemoryEngines.{engine_log};

    ghost log = { λ engine. Some (engine_log engine) };

    fn read(&mut self, alloc: Global) -> Result<(Head, Vec<u8>), Lost> {
        if self.losses.loses_call() {
            return Err(Lost);
        }
        let Ok(bytes) = self.log.copy_bytes(alloc) else {
            return Err(Lost);
        };
        let Ok(head) = self.found_head() else {
            return Err(Lost);
        };
        Ok((head, bytes))
    }

    fn add(&mut self, seen: &Head, next: &Head, lines: &[u8]) -> Result<Added, Lost> {
        if self.losses.loses_call() {
            return Err(Lost);
        }
        let Ok(()) = self.meet_rival(seen, next) else {
            return Err(Lost);
        };
        if !self.log.head().is_same(seen) {
            let Ok(found) = self.found_head() else {
                return Err(Lost);
            };
            return Ok(Added::Moved(found));
        }
        let Ok(()) = self.log.put_lines(next, lines) else {
            return Err(Lost);
        };
        if self.losses.loses_answer() {
            return Err(Lost);
        }
        Ok(Added::Made)
    }

    fn stage(&mut self, seen: &Head, part: u64, bytes: &[u8]) -> Result<Added, Lost> {
        if self.losses.loses_call() {
            return Err(Lost);
        }
        let Ok(()) = self.meet_rival(seen, seen) else {
            return Err(Lost);
        };
        if !self.log.head().is_same(seen) {
            let Ok(found) = self.found_head() else {
                return Err(Lost);
            };
            return Ok(Added::Moved(found));
        }
        let Ok(()) = self.log.put_part(part, bytes) else {
            return Err(Lost);
        };
        if self.losses.loses_answer() {
            return Err(Lost);
        }
        Ok(Added::Made)
    }

    fn is(&mut self, seen: &Head) -> Result<bool, Lost> {
        if self.losses.loses_call() {
            return Err(Lost);
        }
        let Ok(()) = self.meet_rival(seen, seen) else {
            return Err(Lost);
        };
        if self.losses.loses_answer() {
            return Err(Lost);
        }
        Ok(self.log.head().is_same(seen))
    }

    /// Nobody waits.
    fn beat(&mut self, seen: &Head) -> Result<bool, Lost> {
        self.is(seen)
    }
}
