//! The store of a server: a file to which it appends.

use crate::cause::Cause;
use crate::name::StateName;
use crate::state_storage::{FileReadError, StateStorage};
use rme_durable_format::BadLog;
use rme_durable_log::{LogStore, NotDurable};
use std::alloc::Global;
use std::io;
use std::marker::Model;

/// The file of a state, or another storage of it, as the store of its log. In contracts it is the lines, if they are
/// known, whether it takes lines, whether each append waits for the disk, and how many appends asked a shared storage
/// since the start of its server.
///
/// If an append fails, its `StateName` notes the cause, and nothing more is written: what is not durable must not be
/// answered, and the next recovery continues from what was written.
#[derive(Drop)]
pub struct StateFile<'a, F: StateStorage> {
    name: &'a StateName,
    file: F,
    /// Whether each append waits for the disk.
    syncs: bool,
    /// Whether the disk may not have the file under its name. Then, after a stop of the machine, the name may be an
    /// older file's.
    is_unsure: bool,
    /// Whether no append has failed.
    works: bool,
    /// How many appends had asked the storage at the last write of the start.
    began: u64,
}

impl<'a, F: StateStorage> Model for StateFile<'a, F> {
    ghost use Rattle.std.specs.Prelude.{◌-◌, ◌≤◌};
    ghost use Rattle.rme_durable_file.specs.FileStores.{FileStore};

    ghost Value = { FileStore };

    ghost view = { λ state. record {
      bytes = F.contents state.file;
      works = state.works;
      syncs = state.syncs;
      barriers = F.barriers state.file - state.began;
    } };

    ghost invariant = { λ state. state.began ≤ F.barriers state.file };
}

impl<'a, F: StateStorage> StateFile<'a, F> {
    ghost use Rattle.std.specs.Prelude.{◌≡◌, IfOk, OnErr, OnOk, true};
    ghost use Rattle.rme_durable_log.specs.StoreCalls.{barriers_after};
    ghost use Rattle.rme_durable_file.specs.DiskFiles.{AppendsPartToFile, AppendsToFile};
    ghost use Rattle.rme_durable_file.specs.DiskFiles.{AreFileBytes, CutsFile, ReplacesFile};

    /// The store of a file that is open and locked, or of another storage. Each append waits for the disk if `syncs`.
    pub fn new(name: &'a StateName, file: F, syncs: bool) -> StateFile<'a, F>
        ensures bytes { result.bytes ≡ F.contents file }
        ensures works { result.works ≡ true }
        ensures syncs { result.syncs ≡ syncs }
        ensures barriers { result.barriers ≡ 0 }
    {
        StateFile {
            name,
            began: file.asked(),
            file,
            syncs,
            is_unsure: false,
            works: true,
        }
    }

    /// The path of the file.
    pub(crate) fn path(&self) -> &str {
        self.name.path()
    }

    /// Whether appends wait for the disk, and it may not have the file under its name. Then nothing may be answered:
    /// after a stop of the machine recovery may read an older file.
    pub(crate) fn is_in_doubt(&self) -> bool {
        self.syncs && self.is_unsure
    }

    /// All lines of the file.
    pub(crate) fn read_all(&mut self, alloc: Global) -> Result<Vec<u8>, FileReadError>
        ensures found { IfOk result (λ found. AreFileBytes self.old.bytes found.items) }
        ensures same { self.new ≡ self.old }
    {
        self.file.read_all(alloc)
    }

    /// Why its lines are no state, if this is the reason among the lines that recovery reads.
    pub(crate) fn reason_in_file(&self, alloc: Global, why: BadLog) -> BadLog {
        match why {
            BadLog::Line(line) => BadLog::Line(self.file.line_in_file(alloc, line)),
            BadLog::NoMemory => BadLog::NoMemory,
        }
    }

    /// Cuts a file that was read, and is a state, to `length` bytes, and prepares it for appends.
    pub(crate) fn begin(&mut self, length: usize) -> io::Result<()>
        ensures cut { OnOk result (CutsFile self.old.bytes length self.new.bytes) }
        ensures works { self.new.works ≡ self.old.works }
        ensures syncs { self.new.syncs ≡ self.old.syncs }
    {
        self.file.begin(length, self.syncs)
    }

    /// Appends the first lines of a start.
    pub(crate) fn write(&mut self, lines: &[u8]) -> io::Result<()>
        ensures kept { OnOk result (AppendsToFile self.old.bytes lines.now self.new.bytes) }
        ensures works { self.new.works ≡ self.old.works }
        ensures syncs { self.new.syncs ≡ self.old.syncs }
        ensures barriers { self.new.barriers ≡ 0 }
    {
        let written = self.file.append(lines, self.syncs);
        self.began = self.file.asked();
        written
    }

    /// Appends lines, if recovery would still find this file.
    fn append_if_named(&mut self, lines: &[u8]) -> Result<(), Cause>
        ensures kept { OnOk result (AppendsToFile self.old.bytes lines.now self.new.bytes) }
        ensures part { OnErr result (AppendsPartToFile self.old.bytes lines.now self.new.bytes) }
        ensures asked { OnOk result (self.new.barriers ≡ barriers_after F.shared self.old.barriers) }
        ensures works { self.new.works ≡ self.old.works }
        ensures syncs { self.new.syncs ≡ self.old.syncs }
    {
        if self.name.is_lost() {
            return Err(Cause::NameLost);
        }
        if self.is_in_doubt() {
            return Err(Cause::NameUnsure);
        }
        match self.file.append(lines, self.syncs) {
            Ok(()) => Ok(()),
            Err(error) => Err(Cause::from(error)),
        }
    }

    /// Replaces this file by one with these bytes, and continues with that. After an error this file is as it was.
    ///
    /// If the disk may not have the new file's name, nothing is lost by that, but later lines would be: so if appends
    /// wait for the disk, each later one fails.
    fn replace_with_new(&mut self, bytes: &[u8]) -> Result<(), Cause>
        ensures replaced { OnOk result (ReplacesFile self.old.bytes bytes.now self.new.bytes) }
        ensures same { OnErr result (self.new.bytes ≡ self.old.bytes) }
        ensures works { self.new.works ≡ self.old.works }
        ensures syncs { self.new.syncs ≡ self.old.syncs }
        ensures barriers { self.new.barriers ≡ self.old.barriers }
    {
        match self.file.replace(bytes) {
            Ok(unsure) => {
                self.is_unsure = unsure.is_some();
                if let Some(cause) = unsure {
                    self.name.note_unsure(cause);
                }
                Ok(())
            }
            Err(cause) => Err(cause),
        }
    }
}

impl<F: StateStorage> LogStore for StateFile<'_, F> {
    ghost use Rattle.std.specs.Prelude.{◌≡◌, OnErr, OnOk, not, true};
    ghost use Rattle.rme_durable_log.specs.StoreCalls.{AppendsLines, FailsToAppend, ReplacesBytes, StopsStore};
    ghost use Rattle.rme_durable_file.specs.FileStores.{store_state};

    ghost holds = { store_state F.shared };

    ghost shared = { F.shared };

    fn append(&mut self, lines: &[u8]) -> Result<(), NotDurable>
        requires works { self.old.works ≡ true }
        ensures kept { OnOk result (AppendsLines F.shared (store_state F.shared self.old) lines.now
            (store_state F.shared self.new)) }
        ensures part { OnErr result (FailsToAppend (store_state F.shared self.old) lines.now
            (store_state F.shared self.new)) }
        ensures syncs { self.new.syncs ≡ self.old.syncs }
    {
        match self.append_if_named(lines) {
            Ok(()) => Ok(()),
            Err(cause) => {
                self.works = false;
                match cause {
                    Cause::NameLost => self.name.mark_lost(),
                    _ => self.name.note_unwritten(cause),
                }
                Err(NotDurable)
            }
        }
    }

    fn replace(&mut self, bytes: &[u8]) -> Result<(), NotDurable>
        requires works { self.old.works ≡ true }
        ensures replaced { OnOk result (ReplacesBytes (store_state F.shared self.old) bytes.now
            (store_state F.shared self.new)) }
        ensures same { OnErr result (store_state F.shared self.new ≡ store_state F.shared self.old) }
        ensures syncs { self.new.syncs ≡ self.old.syncs }
        ensures barriers { self.new.barriers ≡ self.old.barriers }
    {
        self.name.change();
        let replaced = self.replace_with_new(bytes);
        self.name.change();
        match replaced {
            Ok(()) => Ok(()),
            Err(Cause::NameLost) => {
                self.name.mark_lost();
                Err(NotDurable)
            }
            Err(cause) => {
                self.name.note_unreplaced(cause);
                Err(NotDurable)
            }
        }
    }

    /// Without waiting for the disk, an append takes about a microsecond.
    fn is_quick(&self) -> bool
        ensures { result ≡ not self.now.syncs }
    {
        !self.syncs
    }

    /// A locked file is not shared.
    fn is_shared(&self) -> bool
        ensures { result ≡ F.shared }
    {
        self.file.is_shared()
    }

    fn fail(&mut self)
        ensures stops { StopsStore (store_state F.shared self.old) (store_state F.shared self.new) }
        ensures syncs { self.new.syncs ≡ self.old.syncs }
    {
        self.works = false;
        if !self.name.is_lost() {
            self.name.note_no_memory();
        }
    }
}
