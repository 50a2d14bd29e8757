//! A disk in memory, with faults: what a stop of the machine leaves of a file.

use crate::defect::Defect;
use crate::lines_of_file::{KnownLastJob, with_last_job};
use rme_durable_file::{Cause, FileReadError, StateStorage};
use rme_faults_model::Draws;
use std::alloc::Global;
use std::cell::Cell;
use std::io;

/// The error numbers of the system for a fault of the disk, and for a full disk.
const BROKEN: u32 = 5;

const FULL: u32 = 28;

/// A disk with one file. It outlives the servers that use the file.
#[derive(Drop)]
pub struct Disk<'a> {
    alloc: Global,
    draws: &'a Draws,
    defect: Defect,
    /// The bytes that a process reads.
    bytes: Cell<Vec<u8>>,
    /// The number of bytes that a stop of the machine leaves.
    synced: Cell<usize>,
    /// The file of before the last replacement, if a stop of the machine may bring it back.
    older: Cell<Option<Vec<u8>>>,
    /// Lines that were answered as stored and are not: only by a defect.
    late: Cell<Vec<u8>>,
    /// Whether the next append is the first of a start.
    is_start: Cell<bool>,
    /// Whether a start lets the state grow. Then a replacement is never unsure: its sizes are seen before any line.
    is_growing: Cell<bool>,
    /// One in this number of calls fails; at 0 none does.
    odds: Cell<u32>,
    /// The process is dead: nothing that it still calls has an effect.
    is_dead: Cell<bool>,
    /// An append failed in this life of the server.
    has_failed: Cell<bool>,
    /// A replacement failed in this life of the server.
    has_refused: Cell<bool>,
    pub faults: Cell<u64>,
    pub torn: Cell<u64>,
    pub replacements: Cell<u64>,
}

fn add_one(count: &Cell<u64>) {
    count.set(count.get().saturating_add(1));
}

fn error(number: u32) -> io::Error {
    io::Error::from_raw_os_error(i32::try_from(number).unwrap_or(0))
}

impl<'a> Disk<'a> {
    /// A disk with a file of these bytes, which are synced.
    pub fn new(alloc: Global, draws: &'a Draws, defect: Defect, bytes: Vec<u8>) -> Disk<'a> {
        Disk {
            alloc,
            draws,
            defect,
            synced: Cell::new(bytes.len()),
            bytes: Cell::new(bytes),
            older: Cell::new(None),
            late: Cell::new(Vec::new(alloc)),
            is_start: Cell::new(false),
            is_growing: Cell::new(false),
            odds: Cell::new(0),
            is_dead: Cell::new(false),
            has_failed: Cell::new(false),
            has_refused: Cell::new(false),
            faults: Cell::new(0),
            torn: Cell::new(0),
            replacements: Cell::new(0),
        }
    }

    /// From now on one in this number of calls fails.
    pub fn set_odds(&self, odds: u32) {
        self.odds.set(odds);
    }

    /// A start begins or ends to let the state grow.
    pub fn set_growing(&self, is_growing: bool) {
        self.is_growing.set(is_growing);
    }

    /// The process dies: what it still calls has no effect.
    pub fn kill(&self) {
        self.is_dead.set(true);
    }

    /// Whether the process is dead.
    pub fn is_dead(&self) -> bool {
        self.is_dead.get()
    }

    /// Whether an append failed in this life of the server.
    pub fn has_failed(&self) -> bool {
        self.has_failed.get()
    }

    /// Whether a replacement failed in this life of the server.
    pub fn has_refused(&self) -> bool {
        self.has_refused.get()
    }

    /// A new process may use the file.
    pub fn revive(&self) {
        self.is_dead.set(false);
        self.has_failed.set(false);
        self.has_refused.set(false);
        self.is_growing.set(false);
        self.late.set(Vec::new(self.alloc));
    }

    /// The machine stops: of what was not synced a part is left.
    pub fn stop(&self) {
        self.kill();
        let mut bytes = self.bytes.replace(Vec::new(self.alloc));
        match self.older.replace(None) {
            Some(older) if self.draws.is_one_in(2) => bytes = older,
            _ => {
                let most = bytes.len().saturating_sub(self.synced.get());
                let left = self
                    .synced
                    .get()
                    .saturating_add(self.draws.length_up_to(most));
                bytes.truncate(left);
            }
        }
        self.synced.set(bytes.len());
        self.bytes.set(bytes);
    }

    /// The system writes its buffers back.
    pub fn write_back(&self) {
        let bytes = self.bytes.replace(Vec::new(self.alloc));
        self.synced.set(bytes.len());
        self.bytes.set(bytes);
    }

    /// A copy of the bytes that a process reads.
    pub fn copy(&self) -> io::Result<Vec<u8>> {
        let bytes = self.bytes.replace(Vec::new(self.alloc));
        let copied = bytes.to_vec(self.alloc);
        self.bytes.set(bytes);
        Ok(copied?)
    }

    fn is_fault(&self) -> bool {
        let is_fault = self.draws.is_one_in(self.odds.get());
        if is_fault {
            add_one(&self.faults);
        }
        is_fault
    }

    fn put(&self, lines: &[u8]) -> io::Result<()> {
        let mut bytes = self.bytes.replace(Vec::new(self.alloc));
        let put = bytes.extend_from_slice(lines);
        self.bytes.set(bytes);
        Ok(put?)
    }

    /// A part of the lines is written, and perhaps the process dies meanwhile.
    fn put_part(&self, lines: &[u8]) -> io::Result<()> {
        let length = self.draws.length_up_to(lines.len());
        self.put(lines.get(..length).unwrap_or(&[]))?;
        if length < lines.len() {
            add_one(&self.torn);
        }
        if self.draws.is_one_in(2) {
            self.kill();
        }
        Ok(())
    }

    /// Stores lines after the others, as they are.
    fn store(&self, lines: &[u8], syncs: bool) -> io::Result<()> {
        self.put(lines)?;
        if syncs {
            self.write_back();
        }
        Ok(())
    }

    /// Appends lines, or fails with a part of them written.
    fn append(&self, lines: &[u8], syncs: bool) -> io::Result<()> {
        if self.is_dead() {
            return Err(error(BROKEN));
        }
        if self.is_start.replace(false) && self.defect == Defect::LostCrashes {
            return Ok(());
        }
        if !self.is_fault() {
            return self.store_by_defect(lines, syncs);
        }
        self.put_part(lines)?;
        match self.defect {
            Defect::RetriedAppend if !self.is_dead() => self.store(lines, syncs),
            Defect::IgnoredFailure if !self.is_dead() => Ok(()),
            _ => {
                self.has_failed.set(true);
                Err(error(FULL))
            }
        }
    }

    fn store_by_defect(&self, lines: &[u8], syncs: bool) -> io::Result<()> {
        if self.defect != Defect::EarlyAnswer {
            return self.store(lines, syncs);
        }
        let late = self.late.replace(lines.to_vec(self.alloc)?);
        self.store(late.as_slice(), syncs)
    }

    /// Replaces the file, or fails before or after it did.
    fn replace_all(&self, bytes: &[u8]) -> Result<Option<Cause>, Cause> {
        if self.is_dead() {
            return Err(Cause::System(BROKEN));
        }
        let fault = if self.is_fault() {
            self.draws.below(4)
        } else {
            4
        };
        if fault < 2 {
            self.has_refused.set(true);
            if fault == 1 {
                self.kill();
            }
            return Err(Cause::System(FULL));
        }
        let earlier = self.put_in_place(bytes)?;
        if fault == 2 || (fault == 3 && self.is_growing.get()) {
            self.kill();
            return Err(Cause::System(BROKEN));
        }
        if fault == 3 {
            self.older.set(Some(earlier));
            return Ok(Some(Cause::System(BROKEN)));
        }
        Ok(None)
    }

    /// Puts other bytes in the place of the file's, and answers those that were synced.
    fn put_in_place(&self, bytes: &[u8]) -> Result<Vec<u8>, Cause> {
        let mut next = bytes.to_vec(self.alloc)?;
        if self.defect == Defect::DroppedPending {
            next = with_last_job(self.alloc, next.as_slice(), KnownLastJob::LeftOut)?;
        }
        let length = next.len();
        let mut earlier = self.bytes.replace(next);
        earlier.truncate(self.synced.replace(length));
        self.older.set(None);
        add_one(&self.replacements);
        Ok(earlier)
    }

    /// What a start reads.
    fn read(&self) -> io::Result<Vec<u8>> {
        if self.is_dead() || self.is_fault() {
            self.has_failed.set(true);
            return Err(error(BROKEN));
        }
        if self.defect == Defect::JobTwice {
            let bytes = self.bytes.replace(Vec::new(self.alloc));
            let doubled = with_last_job(self.alloc, bytes.as_slice(), KnownLastJob::Repeated);
            self.bytes.set(bytes);
            self.bytes.set(doubled?);
        }
        self.copy()
    }

    /// What a start does before it appends.
    fn begin(&self, length: usize, syncs: bool) -> io::Result<()> {
        if self.is_dead() || self.is_fault() {
            self.has_failed.set(true);
            return Err(error(BROKEN));
        }
        let mut bytes = self.bytes.replace(Vec::new(self.alloc));
        bytes.truncate(length);
        self.synced.set(self.synced.get().min(bytes.len()));
        self.bytes.set(bytes);
        if syncs {
            self.older.set(None);
            self.write_back();
        }
        self.is_start.set(true);
        Ok(())
    }
}

/// The file of a server, on a disk that outlives it.
#[derive(Drop)]
pub struct SimulatedFile<'a> {
    pub disk: &'a Disk<'a>,
}

impl StateStorage for SimulatedFile<'_> {
    ghost use Rattle.std.specs.Prelude.{None, false};

    ghost contents = { λ _. None };

    ghost shared = { false };

    ghost barriers = { λ _. 0 };

    fn read_all(&mut self, _alloc: Global) -> Result<Vec<u8>, FileReadError> {
        match self.disk.read() {
            Ok(bytes) => Ok(bytes),
            Err(error) => Err(FileReadError::System(error)),
        }
    }

    fn line_in_file(&self, _alloc: Global, line: u64) -> u64 {
        line
    }

    fn begin(&mut self, length: usize, syncs: bool) -> io::Result<()> {
        self.disk.begin(length, syncs)
    }

    fn append(&mut self, lines: &[u8], syncs: bool) -> io::Result<()> {
        self.disk.append(lines, syncs)
    }

    fn replace(&mut self, bytes: &[u8]) -> Result<Option<Cause>, Cause> {
        self.disk.replace_all(bytes)
    }

    fn is_shared(&self) -> bool {
        false
    }

    fn asked(&self) -> u64 {
        0
    }
}
