//! The log engine over etcd.

use crate::endpoint::Endpoint;
use crate::etcd_calls::{CallLimits, EtcdCalls, EtcdUser};
use crate::etcd_fault::EtcdFault;
use crate::try_deadline::TryDeadline;
use rme_etcd_requests::{
    KeyRange, LogKeys, RangePage, RecordKeys, TransactionAnswer, add_request, beat_request,
    clear_request, create_request, head_request, head_text, is_request, page_request, range_page,
    read_head, stage_request, transaction_answer,
};
use rme_replica::{Added, Head, LogEngine, Lost};
use std::alloc::{AllocError, Global};
use std::time::Duration;

/// The path of transactions.
const TRANSACTION: &str = "/v3/kv/txn";
/// The path of reads.
const RANGE: &str = "/v3/kv/range";
/// The most records of one page. A record has at most 512 KiB.
const PAGE: u64 = 16;
/// How many times a log is read that is replaced meanwhile.
const READS: u32 = 8;
/// A leader that changed nothing for this number of milliseconds tells by a beat that it runs.
const BEAT: u64 = 500;

/// A log in etcd, as an engine. Of it no contract knows the log.
///
/// `is` beats if for half a second no add and no beat was made. So a leader that asks once a second is quiet for hardly
/// longer than a second.
///
/// A call that failed tells why by `fault`. Where storage is used up or the user is refused, trying again is of no use.
#[derive(Drop)]
pub struct EtcdEngine {
    alloc: Global,
    calls: EtcdCalls,
    keys: LogKeys,
    /// The number of beats.
    beats: u64,
    /// Since when those who wait have been told that the writer runs; `None` if they were not, or if the clock cannot be
    /// read.
    told_since: Option<TryDeadline>,
    fault: Option<EtcdFault>,
}

impl EtcdEngine {
    /// The log of this name in the cluster with these nodes, as this user if there is one.
    pub fn new(
        rt: HostRuntime,
        name: &str,
        endpoints: Vec<Endpoint>,
        user: Option<EtcdUser>,
        limits: CallLimits,
    ) -> Result<EtcdEngine, AllocError> {
        let alloc = rt.alloc();
        Ok(EtcdEngine {
            alloc,
            keys: LogKeys::new(alloc, name)?,
            calls: EtcdCalls::new(rt, endpoints, user, limits),
            beats: 0,
            told_since: None,
            fault: None,
        })
    }

    /// Why the last call failed; `None` if it did not.
    pub fn fault(&self) -> Option<EtcdFault> {
        self.fault
    }

    /// Creates the log with this head, which names one record with these lines, if there is no log of this name. If an
    /// earlier try was made, this head is the one that is found.
    pub fn create(&mut self, head: &Head, lines: &[u8]) -> Result<Added, Lost> {
        let outcome = self.try_create(head, lines);
        self.told(outcome)
    }

    /// The head of the log; `None` if there is no log of this name.
    pub fn find_head(&mut self) -> Result<Option<Head>, Lost> {
        let outcome = self.try_find_head();
        self.told(outcome)
    }

    /// The last beat of a writer; `None` if there was none. No two beats are equal.
    pub fn find_beat(&mut self) -> Result<Option<Vec<u8>>, Lost> {
        let outcome = self.try_find_beat();
        self.told(outcome)
    }

    /// Deletes the records of all epochs other than this head's, if the log has this head. Answers whether it has it.
    pub fn clear(&mut self, head: &Head) -> Result<bool, Lost> {
        let outcome = self.try_clear(head);
        self.told(outcome)
    }

    /// Keeps why a call failed.
    fn told<T>(&mut self, outcome: Result<T, EtcdFault>) -> Result<T, Lost> {
        match outcome {
            Ok(value) => {
                self.fault = None;
                Ok(value)
            }
            Err(fault) => {
                self.fault = Some(fault);
                Err(Lost)
            }
        }
    }

    /// Sends a transaction.
    fn transact(&mut self, body: String) -> Result<TransactionAnswer, EtcdFault> {
        let answer = self.calls.call(TRANSACTION, body.as_bytes())?;
        Ok(transaction_answer(self.alloc, answer.as_slice())?)
    }

    /// Sends a transaction that changes the log.
    fn change(&mut self, body: String) -> Result<Added, EtcdFault> {
        match self.transact(body)? {
            TransactionAnswer::Made => Ok(Added::Made),
            TransactionAnswer::NotMade(Some(found)) => {
                Ok(Added::Moved(read_head(self.alloc, found.as_slice())?))
            }
            TransactionAnswer::NotMade(None) => Err(EtcdFault::NoLog),
        }
    }

    /// Sends a transaction of which only its condition is wanted.
    fn test(&mut self, body: String) -> Result<bool, EtcdFault> {
        match self.transact(body)? {
            TransactionAnswer::Made => Ok(true),
            TransactionAnswer::NotMade(_) => Ok(false),
        }
    }

    /// Creates the log.
    fn try_create(&mut self, head: &Head, lines: &[u8]) -> Result<Added, EtcdFault> {
        let record = self.keys.record(self.alloc, head.epoch(), head.sequence().saturating_sub(1))?;
        let text = head_text(self.alloc, head)?;
        let keys = RecordKeys {
            head: self.keys.head(),
            record: record.as_bytes(),
        };
        let body = create_request(self.alloc, keys, text.as_bytes(), lines)?;
        self.change(body)
    }

    /// Reads the head.
    fn try_find_head(&mut self) -> Result<Option<Head>, EtcdFault> {
        let body = head_request(self.alloc, self.keys.head())?;
        match self.first_value(body)? {
            Some(text) => Ok(Some(read_head(self.alloc, text.as_slice())?)),
            None => Ok(None),
        }
    }

    /// Reads the beat.
    fn try_find_beat(&mut self) -> Result<Option<Vec<u8>>, EtcdFault> {
        let body = head_request(self.alloc, self.keys.beat())?;
        self.first_value(body)
    }

    /// The value of the first key that a read finds.
    fn first_value(&mut self, body: String) -> Result<Option<Vec<u8>>, EtcdFault> {
        let answer = self.calls.call(RANGE, body.as_bytes())?;
        let mut page = range_page(self.alloc, answer.as_slice())?;
        page.pairs.truncate(1);
        Ok(page.pairs.pop().map(|pair| pair.value))
    }

    /// Deletes other epochs.
    fn try_clear(&mut self, head: &Head) -> Result<bool, EtcdFault> {
        let seen = head_text(self.alloc, head)?;
        let first = self.keys.first_of_epoch(self.alloc, head.epoch())?;
        let behind = self.keys.behind_epoch(self.alloc, head.epoch())?;
        let end = self.keys.behind_records(self.alloc)?;
        let earlier = KeyRange {
            from: self.keys.first_record(),
            to: first.as_bytes(),
        };
        let later = KeyRange {
            from: behind.as_bytes(),
            to: end.as_bytes(),
        };
        let body = clear_request(
            self.alloc,
            self.keys.head(),
            seen.as_bytes(),
            earlier,
            later,
        )?;
        self.test(body)
    }

    /// Reads the head, and the records that it names.
    fn try_read(&mut self, alloc: Global) -> Result<(Head, Vec<u8>), EtcdFault> {
        for _ in 0..READS {
            let Some(head) = self.try_find_head()? else {
                return Err(EtcdFault::NoLog);
            };
            if let Some(bytes) = self.read_records(alloc, &head)? {
                return Ok((head, bytes));
            }
            if self.has_head(&head)? {
                return Err(EtcdFault::Gap);
            }
        }
        Err(EtcdFault::Unreachable)
    }

    /// Whether the log still has this head.
    fn has_head(&mut self, head: &Head) -> Result<bool, EtcdFault> {
        match self.try_find_head()? {
            Some(found) => Ok(found.is_same(head)),
            None => Ok(false),
        }
    }

    /// The bytes of the records that this head names; `None` if one is not there.
    fn read_records(&mut self, alloc: Global, head: &Head) -> Result<Option<Vec<u8>>, EtcdFault> {
        let mut bytes = Vec::new(alloc);
        let behind = self.keys.behind_epoch(self.alloc, head.epoch())?;
        let mut next = 0;
        while next < head.sequence() {
            let from = self.keys.record(self.alloc, head.epoch(), next)?;
            let left = (head.sequence() - next).min(PAGE);
            let body = page_request(self.alloc, from.as_bytes(), behind.as_bytes(), left)?;
            let answer = self.calls.call(RANGE, body.as_bytes())?;
            let page = range_page(self.alloc, answer.as_slice())?;
            let count = self.join_page(&page, head.epoch(), next, &mut bytes)?;
            if count == 0 || count > left {
                return Ok(None);
            }
            next += count;
        }
        Ok(Some(bytes))
    }

    /// Joins the records of a page that follow one another from this number on, and answers how many they are.
    fn join_page(
        &self,
        page: &RangePage,
        epoch: u64,
        first: u64,
        bytes: &mut Vec<u8>,
    ) -> Result<u64, EtcdFault> {
        let mut count = 0u64;
        for pair in page.pairs.as_slice() {
            let key = self
                .keys
                .record(self.alloc, epoch, first.saturating_add(count))?;
            if pair.key.as_slice() != key.as_bytes() {
                return Ok(count);
            }
            bytes.extend_from_slice(pair.value.as_slice())?;
            count = count.saturating_add(1);
        }
        Ok(count)
    }

    /// Adds one record.
    fn try_add(&mut self, seen: &Head, next: &Head, lines: &[u8]) -> Result<Added, EtcdFault> {
        let record = self.keys.record(self.alloc, next.epoch(), next.sequence().saturating_sub(1))?;
        let seen = head_text(self.alloc, seen)?;
        let next = head_text(self.alloc, next)?;
        let keys = RecordKeys {
            head: self.keys.head(),
            record: record.as_bytes(),
        };
        let body = add_request(self.alloc, keys, seen.as_bytes(), next.as_bytes(), lines)?;
        let since = self.calls.since(Duration::from_millis(BEAT));
        let added = self.change(body)?;
        if let Added::Made = &added {
            self.told_since = since;
        }
        Ok(added)
    }

    /// Stages one part.
    fn try_stage(&mut self, seen: &Head, part: u64, bytes: &[u8]) -> Result<Added, EtcdFault> {
        let record = self
            .keys
            .record(self.alloc, seen.epoch().saturating_add(1), part)?;
        let seen = head_text(self.alloc, seen)?;
        let keys = RecordKeys {
            head: self.keys.head(),
            record: record.as_bytes(),
        };
        let body = stage_request(self.alloc, keys, seen.as_bytes(), bytes)?;
        self.change(body)
    }

    /// Asks whether the log has this head, and beats if those who wait were told nothing for half a second.
    fn try_is(&mut self, seen: &Head) -> Result<bool, EtcdFault> {
        if self.is_beat_due() {
            return self.try_beat(seen);
        }
        let seen = head_text(self.alloc, seen)?;
        let body = is_request(self.alloc, self.keys.head(), seen.as_bytes())?;
        self.test(body)
    }

    /// Whether those who wait were told nothing for half a second.
    fn is_beat_due(&self) -> bool {
        match self.told_since {
            Some(since) => self.calls.is_over(since),
            None => true,
        }
    }

    /// Counts a beat.
    fn try_beat(&mut self, seen: &Head) -> Result<bool, EtcdFault> {
        self.beats = self.beats.saturating_add(1);
        let beats = self.beats;
        let writer = hex::encode(self.alloc, seen.writer())?;
        let beat = format!(in self.alloc; "{writer} {beats}")?;
        let seen = head_text(self.alloc, seen)?;
        let body = beat_request(
            self.alloc,
            self.keys.head(),
            seen.as_bytes(),
            self.keys.beat(),
            beat.as_bytes(),
        )?;
        let since = self.calls.since(Duration::from_millis(BEAT));
        let has = self.test(body)?;
        if has {
            self.told_since = since;
        }
        Ok(has)
    }
}

impl LogEngine for EtcdEngine {
    ghost use Rattle.std.specs.Prelude.{None};

    ghost log = { λ _. None };

    fn read(&mut self, alloc: Global) -> Result<(Head, Vec<u8>), Lost> {
        let outcome = self.try_read(alloc);
        self.told(outcome)
    }

    fn add(&mut self, seen: &Head, next: &Head, lines: &[u8]) -> Result<Added, Lost> {
        let outcome = self.try_add(seen, next, lines);
        self.told(outcome)
    }

    fn stage(&mut self, seen: &Head, part: u64, bytes: &[u8]) -> Result<Added, Lost> {
        let outcome = self.try_stage(seen, part, bytes);
        self.told(outcome)
    }

    fn is(&mut self, seen: &Head) -> Result<bool, Lost> {
        let outcome = self.try_is(seen);
        self.told(outcome)
    }

    fn beat(&mut self, seen: &Head) -> Result<bool, Lost> {
        let outcome = self.try_beat(seen);
        self.told(outcome)
    }
}
