//! The store of a server's log on an engine.

ghost use Rattle.std.specs.Prelude.{◌-◌, ◌<◌, ◌^◌};
ghost use Rattle.rme_replica.specs.EngineLogs.{IsNextHead};
ghost use Rattle.rme_replica.specs.ReplicaStores.{IsClaimedBy};

use crate::engine::LogEngine;
use crate::head::Head;
use crate::ownership::Ownership;
use crate::parts::{PART_LENGTH, stage_parts};
use crate::tries::{Ask, add_repeatedly, ask_repeatedly};
use rme_durable_log::{LogStore, NotDurable};
use std::alloc::Global;
use std::marker::Model;

/// A log on an engine, as the store of a server's log. In contracts it is the engine's log, if it is known, the head
/// that the store put last, whether no append has failed, and whether it still takes lines.
///
/// It is fail-stop. Once another writer's head is in the log, or the answer of an add stays lost, it takes no more
/// lines, and `confirm` is never Ok.
#[derive(Drop)]
pub struct ReplicaLog<E: LogEngine> {
    engine: E,
    /// The head that this store knows to be in the log.
    head: Head,
    /// The head that it puts next.
    next: Head,
    ownership: Ownership,
    /// Whether no append has failed.
    works: bool,
    /// The number of appends.
    appends: u64,
}

impl<E: LogEngine> Model for ReplicaLog<E> {
    ghost use Rattle.rme_replica.specs.ReplicaStores.{ReplicaInvariant, ReplicaStore, log_top, own_bytes};
    ghost use Rattle.rme_replica.specs.Ownerships.{owns};

    ghost Value = { ReplicaStore };

    ghost view = { λ store. record {
      top = log_top (E.log store.engine);
      bytes = own_bytes store.head (E.log store.engine);
      head = store.head;
      works = store.works;
      owns = owns store.ownership;
      appends = store.appends;
    } };

    ghost invariant = { λ store. ReplicaInvariant (E.log store.engine) (owns store.ownership) store.works
        store.head store.next };
}

/// Who claims a log: where it is reached, and the mark of its run, which no head had before.
#[derive(Drop)]
pub struct Claimant {
    pub address: String,
    pub writer: [u8; 12],
}

impl<E: LogEngine> ReplicaLog<E> {
    ghost use Rattle.std.specs.Prelude.{◌≡◌, IfErr, OnErr, OnOk, true};
    ghost use Rattle.std.specs.Prelude.{false};
    ghost use Rattle.rme_replica.specs.EngineLogs.{HasHead};
    ghost use Rattle.rme_replica.specs.ReplicaStores.{AppendsToLog, IsOwn, KeepsLog, ReplacesLog, log_top};
    ghost use Rattle.rme_replica.specs.ReplicaStores.{ClaimsLog, own_bytes};
    ghost use Rattle.rme_replica.specs.Ownerships.{StopsOwner, owns};

    /// The store of a log that has this head, which the caller claimed, and a copy of the head.
    pub fn new(engine: E, head: Head, copy: Head) -> ReplicaLog<E>
        requires has { HasHead (E.log engine) head }
        requires same { copy ≡ head }
        ensures top { result.top ≡ log_top (E.log engine) }
        ensures bytes { result.bytes ≡ own_bytes head (E.log engine) }
        ensures head { result.head ≡ head }
        ensures works { result.works ≡ true }
        ensures owns { result.owns ≡ true }
        ensures appends { result.appends ≡ 0 }
    {
        ReplicaLog {
            engine,
            head,
            next: copy,
            ownership: Ownership::Owner,
            works: true,
            appends: 0,
        }
    }

    /// Ends the store, and hands over its engine.
    pub fn into_engine(self) -> E
        ensures top { log_top (E.log result) ≡ self.top }
        ensures bytes { own_bytes self.head (E.log result) ≡ self.bytes }
    {
        let ReplicaLog {
            engine,
            head: _,
            next: _,
            ownership: _,
            works: _,
            appends: _,
        } = self;
        engine
    }

    /// The number of appends, the claim among them.
    pub fn appends(&self) -> u64
        ensures { result ≡ self.now.appends }
    {
        self.appends
    }

    /// Whether the store takes lines, and why not.
    pub fn ownership(&self) -> Ownership
        ensures { self.now.owns ≡ owns result }
    {
        self.ownership
    }

    /// Claims the log for another writer: adds these lines under a head of the next term, with this writer's address and
    /// mark. It is made only where the log still has the head that this store knows.
    ///
    /// After an error the store takes no lines: nothing is known to be claimed.
    pub fn claim(&mut self, alloc: Global, by: Claimant, lines: &[u8]) -> Result<(), NotDurable>
        ensures made { OnOk result (ClaimsLog self.old by lines.now self.new) }
        ensures lost { OnErr result (KeepsLog self.old self.new) }
        ensures stops { OnErr result (self.new.owns ≡ false) }
        ensures fenced { OnOk result (self.old.owns ≡ true) }
    {
        let Ok(()) = self.check_owner() else {
            return Err(NotDurable);
        };
        let appends = self.appends;
        let most = self.head.term().max(self.head.sequence()).max(appends);
        if most == u64::MAX {
            self.ownership = Ownership::Full;
            return Err(NotDurable);
        }
        let next = claimed_head(&self.head, by);
        let Ok(copy) = next.copy(alloc) else {
            self.ownership = Ownership::Stopped;
            return Err(NotDurable);
        };
        match add_repeatedly(&mut self.engine, &self.head, &next, lines) {
            Ok(()) => {
                self.head = next;
                self.next = copy;
                self.appends = appends + 1;
                Ok(())
            }
            Err(ownership) => {
                self.ownership = ownership;
                Err(NotDurable)
            }
        }
    }

    /// Whether at some moment of this call the log was this store's own. After an error the store takes no more lines,
    /// and this never answers Ok again.
    pub fn confirm(&mut self) -> Result<(), NotDurable>
        ensures own { OnOk result (IsOwn self.new) }
        ensures fenced { OnOk result (self.old.owns ≡ true) }
        ensures stays { self.new.owns ≡ true → self.old.owns ≡ true }
        ensures stops { OnErr result (self.new.owns ≡ false) }
        ensures kept { KeepsLog self.old self.new }
    {
        self.ask(Ask::Is)
    }

    /// Tells those who wait that this store's writer still runs, and answers what `confirm` does.
    pub fn beat(&mut self) -> Result<(), NotDurable>
        ensures own { OnOk result (IsOwn self.new) }
        ensures fenced { OnOk result (self.old.owns ≡ true) }
        ensures stays { self.new.owns ≡ true → self.old.owns ≡ true }
        ensures stops { OnErr result (self.new.owns ≡ false) }
        ensures kept { KeepsLog self.old self.new }
    {
        self.ask(Ask::Beat)
    }

    /// Asks the engine whether the log is this store's own.
    fn ask(&mut self, ask: Ask) -> Result<(), NotDurable>
        ensures own { OnOk result (IsOwn self.new) }
        ensures fenced { OnOk result (self.old.owns ≡ true) }
        ensures stays { self.new.owns ≡ true → self.old.owns ≡ true }
        ensures stops { OnErr result (self.new.owns ≡ false) }
        ensures kept { KeepsLog self.old self.new }
        ensures keeps { OnOk result (self.new.owns ≡ true) }
    {
        let Ok(()) = self.check_owner() else {
            return Err(NotDurable);
        };
        match ask_repeatedly(&mut self.engine, &self.head, ask) {
            Ok(()) => Ok(()),
            Err(ownership) => {
                self.ownership = ownership;
                Err(NotDurable)
            }
        }
    }

    /// Why the store takes no more lines, if it does not.
    fn check_owner(&self) -> Result<(), Ownership>
        ensures owner { OnOk result (self.now.owns ≡ true) }
        ensures other { OnErr result (self.now.owns ≡ false) }
        ensures stops { IfErr result StopsOwner }
    {
        match self.ownership {
            Ownership::Owner => Ok(()),
            other => Err(other),
        }
    }

    /// Adds these lines; without lines it asks the engine whether the log is this store's own.
    fn add_or_ask(&mut self, lines: &[u8]) -> Result<(), NotDurable>
        ensures made { OnOk result (AppendsToLog self.old lines.now self.new) }
        ensures lost { OnErr result (KeepsLog self.old self.new) }
        ensures ends { OnErr result (self.new.owns ≡ false) }
        ensures fenced { OnOk result (self.old.owns ≡ true) }
    {
        if lines.is_empty() {
            return self.ask(Ask::Is);
        }
        match self.add_record(lines) {
            Ok(()) => Ok(()),
            Err(_) => Err(NotDurable),
        }
    }

    /// Adds one record at the known head.
    fn add_record(&mut self, lines: &[u8]) -> Result<(), Ownership>
        ensures made { OnOk result (AppendsToLog self.old lines.now self.new) }
        ensures lost { OnErr result (KeepsLog self.old self.new) }
        ensures ends { OnErr result (self.new.owns ≡ false) }
        ensures fenced { OnOk result (self.old.owns ≡ true) }
        ensures stops { IfErr result StopsOwner }
    {
        match self.check_owner() {
            Ok(()) => {}
            Err(ownership) => return Err(ownership),
        }
        if self.head.sequence() == u64::MAX {
            self.ownership = Ownership::Full;
            return Err(Ownership::Full);
        }
        let epoch = self.head.epoch();
        let sequence = self.head.sequence() + 1;
        self.next.set_place(epoch, sequence);
        match add_repeatedly(&mut self.engine, &self.head, &self.next, lines) {
            Ok(()) => {
                self.head.set_place(epoch, sequence);
                Ok(())
            }
            Err(ownership) => {
                self.ownership = ownership;
                Err(ownership)
            }
        }
    }

    /// Stages the parts of the next epoch, and adds its head with the rest of the bytes.
    fn add_epoch(&mut self, bytes: &[u8]) -> Result<(), Ownership>
        ensures made { OnOk result (ReplacesLog self.old bytes.now self.new) }
        ensures lost { OnErr result (KeepsLog self.old self.new) }
        ensures ends { OnErr result (self.new.owns ≡ false) }
        ensures fenced { OnOk result (self.old.owns ≡ true) }
        ensures working { OnOk result (self.old.works ≡ true) }
        ensures stops { IfErr result StopsOwner }
    {
        match self.check_owner() {
            Ok(()) => {}
            Err(ownership) => return Err(ownership),
        }
        if self.head.epoch() == u64::MAX {
            self.ownership = Ownership::Full;
            return Err(Ownership::Full);
        }
        let epoch = self.head.epoch() + 1;
        let count = match stage_parts(&mut self.engine, &self.head, bytes) {
            Ok(count) => count,
            Err(ownership) => {
                self.ownership = ownership;
                return Err(ownership);
            }
        };
        let sequence = count as u64 + 1;
        self.next.set_place(epoch, sequence);
        let rest = &bytes[count * PART_LENGTH..];
        match add_repeatedly(&mut self.engine, &self.head, &self.next, rest) {
            Ok(()) => {
                self.head.set_place(epoch, sequence);
                Ok(())
            }
            Err(ownership) => {
                self.ownership = ownership;
                Err(ownership)
            }
        }
    }
}

impl<E: LogEngine> LogStore for ReplicaLog<E> {
    ghost use Rattle.std.specs.Prelude.{◌≡◌, OnErr, OnOk, false, true};
    ghost use Rattle.rme_durable_log.specs.StoreCalls.{AppendsLines, FailsToAppend, ReplacesBytes, StopsStore};
    ghost use Rattle.rme_replica.specs.ReplicaStores.{replica_state};

    ghost holds = { replica_state };

    ghost shared = { true };

    /// An append of a store that takes no more lines fails.
    fn append(&mut self, lines: &[u8]) -> Result<(), NotDurable>
        ensures kept { OnOk result (AppendsLines true (replica_state self.old) lines.now (replica_state self.new)) }
        ensures part { OnErr result (FailsToAppend (replica_state self.old) lines.now (replica_state self.new)) }
        ensures same { OnErr result (self.new.bytes ≡ self.old.bytes) }
        ensures unasked { OnErr result (self.new.appends ≡ self.old.appends) }
        ensures fenced { OnOk result (self.old.owns ≡ true) }
        ensures stays { self.new.owns ≡ true → self.old.owns ≡ true }
        ensures stops { OnErr result (self.new.owns ≡ false) }
    {
        let appends = self.appends;
        if appends == u64::MAX {
            self.fail();
            return Err(NotDurable);
        }
        match self.add_or_ask(lines) {
            Ok(()) => {
                self.appends = appends + 1;
                Ok(())
            }
            Err(_) => {
                self.works = false;
                Err(NotDurable)
            }
        }
    }

    /// After an error the store takes no more lines, and the next append fails: the next head may be in the log, or a
    /// lost part may come late, in the place of a part that is staged after it.
    fn replace(&mut self, bytes: &[u8]) -> Result<(), NotDurable>
        ensures replaced { OnOk result (ReplacesBytes (replica_state self.old) bytes.now (replica_state self.new)) }
        ensures same { OnErr result (replica_state self.new ≡ replica_state self.old) }
        ensures appends { self.new.appends ≡ self.old.appends }
        ensures fenced { OnOk result (self.old.owns ≡ true) }
        ensures stays { self.new.owns ≡ true → self.old.owns ≡ true }
        ensures stops { OnErr result (self.new.owns ≡ false) }
    {
        match self.add_epoch(bytes) {
            Ok(()) => Ok(()),
            Err(_) => Err(NotDurable),
        }
    }

    /// An append takes milliseconds.
    fn is_quick(&self) -> bool
        ensures { result ≡ false }
    {
        false
    }

    /// Another writer may claim the log.
    fn is_shared(&self) -> bool
        ensures { result ≡ true }
    {
        true
    }

    fn fail(&mut self)
        ensures stops { StopsStore (replica_state self.old) (replica_state self.new) }
        ensures fenced { self.new.owns ≡ false }
        ensures appends { self.new.appends ≡ self.old.appends }
    {
        self.works = false;
        self.ownership = Ownership::Stopped;
    }
}

/// The head by which a writer claims a log that has this head: one record more, and the next term.
fn claimed_head(seen: &Head, by: Claimant) -> Head
    requires term { seen.now.term < 2 ^ 64 - 1 }
    requires sequence { seen.now.sequence < 2 ^ 64 - 1 }
    ensures claimed { IsClaimedBy seen.now by result }
    ensures next { IsNextHead seen.now result }
{
    let mut next = Head::new(by.address, seen.term() + 1, by.writer);
    next.set_place(seen.epoch(), seen.sequence() + 1);
    next
}
