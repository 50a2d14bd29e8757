//! The state in a log on an engine.

ghost use Rattle.std.specs.Prelude.{◌≡◌, IfOk};

use crate::records::make_record;
use rme_durable_file::{
    Cause, ContentsError, FileReadError, StateStorage, line_in_file, write_end,
};
use rme_durable_log::LogStore;
use rme_durable_writes::{FoundWrites, ReadError, SealError, WriteSealer, read_writes};
use rme_replica::{Claimant, LogEngine, ReplicaLog};
use std::alloc::{AllocError, Global};
use std::io;
use std::io::ErrorKind;
use std::marker::Model;

/// How many times a log is read whose answer is lost.
const READ_TRIES: u32 = 8;

/// The state of a server in a log on an engine: a storage that other servers may claim. Until the first append it has
/// only read the log. The first append claims the log as well, if that is still as it was read. In contracts it is the
/// lines in the bytes of the log, if these are known, and the number of appends.
///
/// It is fail-stop, as the log is: once an append or a replacement has failed, each later one fails.
#[derive(Drop)]
pub struct ReplicaState<E: LogEngine> {
    alloc: Global,
    log: ReplicaLog<E>,
    /// What was read, and who claims it; `None` once it is claimed.
    found: Option<FoundLog>,
    /// The sealer of the log's next write.
    sealer: WriteSealer,
    /// The bytes of the last record that was made. Their memory serves for the next.
    write: Vec<u8>,
}

/// A log that was read, and who claims it.
#[derive(Drop)]
pub(crate) struct FoundLog {
    bytes: Vec<u8>,
    /// The number of bytes of its lines, once they were asked for.
    lines: Option<usize>,
    by: Claimant,
}

impl<E: LogEngine> Model for ReplicaState<E> {
    ghost use Rattle.rme_replica_state.specs.LogStates.{IsStateOfLog, LogState, log_lines};

    ghost Value = { LogState };

    ghost view = { λ state. record {
      lines = log_lines state.log.bytes;
      appends = state.log.appends;
    } };

    ghost invariant = { λ state. IsStateOfLog state.found state.log.owns state.log.bytes state.sealer.number };
}

/// Why a log is not read.
#[derive(Clone, Copy, Debug, PartialEq, Eq)]
pub enum ReadFault {
    /// The engine gave no answer, and says why.
    Lost,
    NoMemory,
}

impl From<AllocError> for ReadFault {
    fn from(_refused: AllocError) -> ReadFault {
        ReadFault::NoMemory
    }
}

impl<E: LogEngine> ReplicaState<E> {
    ghost use Rattle.std.specs.Prelude.{◌≡◌, IfOk, OnErr, OnOk, suc};
    ghost use Rattle.rme_durable_file.specs.DiskFiles.{AppendsToFile};

    /// Reads the log, for a server that is to claim it. Nothing is changed.
    pub fn read(alloc: Global, engine: E, by: Claimant) -> Result<ReplicaState<E>, ReadFault>
        ensures { IfOk result (λ state. state.appends ≡ 0) }
    {
        let mut engine = engine;
        for _ in 0..READ_TRIES {
            let Ok((head, bytes)) = engine.read(alloc) else {
                continue;
            };
            let copy = head.copy(alloc)?;
            return Ok(ReplicaState {
                alloc,
                log: ReplicaLog::new(engine, head, copy),
                found: Some(FoundLog {
                    bytes,
                    lines: None,
                    by,
                }),
                sealer: WriteSealer::new(alloc)?,
                write: Vec::new(alloc),
            });
        }
        Err(ReadFault::Lost)
    }

    /// Claims the log that was read, and adds these lines.
    fn claim(&mut self, lines: &[u8]) -> io::Result<()>
        ensures kept { OnOk result (AppendsToFile self.old.lines lines.now self.new.lines) }
        ensures same { OnErr result (self.new.lines ≡ self.old.lines) }
        ensures asked { OnOk result (self.new.appends ≡ suc self.old.appends) }
        ensures unasked { OnErr result (self.new.appends ≡ self.old.appends) }
    {
        let Some(found) = self.found.take() else {
            return Err(io::Error::from(ErrorKind::Unsupported));
        };
        if found.lines.is_none() {
            self.found = Some(found);
            return Err(io::Error::from(ErrorKind::Unsupported));
        }
        let FoundLog { by, .. } = found;
        if let Err(why) = make_record(&mut self.sealer, lines, &mut self.write) {
            return Err(seal_error(why));
        }
        let Ok(()) = self.log.claim(self.alloc, by, self.write.as_slice()) else {
            return Err(not_taken());
        };
        self.sealer.mark_durable();
        Ok(())
    }

    /// Adds these lines to the log that was claimed; without lines it asks whether the log is still its own.
    fn add(&mut self, lines: &[u8]) -> io::Result<()>
        ensures kept { OnOk result (AppendsToFile self.old.lines lines.now self.new.lines) }
        ensures same { OnErr result (self.new.lines ≡ self.old.lines) }
        ensures asked { OnOk result (self.new.appends ≡ suc self.old.appends) }
        ensures unasked { OnErr result (self.new.appends ≡ self.old.appends) }
    {
        if self.found.is_some() {
            return Err(io::Error::from(ErrorKind::Unsupported));
        }
        if let Err(why) = make_record(&mut self.sealer, lines, &mut self.write) {
            return Err(seal_error(why));
        }
        let Ok(()) = self.log.append(self.write.as_slice()) else {
            return Err(not_taken());
        };
        self.sealer.mark_durable();
        Ok(())
    }
}

/// The error of lines that were not made a record.
fn seal_error(why: SealError) -> io::Error {
    match why {
        SealError::NoMemory => io::Error::from(ErrorKind::OutOfMemory),
        SealError::NotLines | SealError::TooMany => {
            io::Error::new(
                ErrorKind::InvalidData,
                "its lines can't be given a checksum",
            )
        }
    }
}

/// The error of a log that did not take a record.
fn not_taken() -> io::Error {
    io::Error::new(
        ErrorKind::Other,
        "the log is another server's by now, or can't be reached",
    )
}

impl<E: LogEngine> StateStorage for ReplicaState<E> {
    ghost use Rattle.std.specs.Prelude.{true};

    ghost contents = { λ state. state.lines };

    ghost shared = { true };

    ghost barriers = { λ state. state.appends };

    fn read_all(&mut self, alloc: Global) -> Result<Vec<u8>, FileReadError> {
        let Some(found) = &mut self.found else {
            return Err(FileReadError::System(io::Error::from(ErrorKind::Unsupported)));
        };
        let bytes = found.bytes.as_slice();
        let FoundWrites {
            lines,
            length,
            sealer,
        } = match read_writes(alloc, bytes) {
            Ok(read) => read,
            Err(why) => return Err(FileReadError::Contents(contents_error(bytes, why))),
        };
        // A record is all of a write: nothing may be left over.
        if length != bytes.len() {
            let why = ContentsError::Changed(write_end(bytes, length));
            return Err(FileReadError::Contents(why));
        }
        found.lines = Some(lines.len());
        self.sealer = sealer;
        Ok(lines)
    }

    fn line_in_file(&self, alloc: Global, line: u64) -> u64 {
        match &self.found {
            Some(found) => line_in_file(alloc, found.bytes.as_slice(), line),
            None => line,
        }
    }

    /// Nothing is cut off: a torn line is an error.
    fn begin(&mut self, length: usize, _syncs: bool) -> io::Result<()> {
        if let Some(
            FoundLog {
                lines: Some(lines),
                ..
            },
        ) = &self.found
        {
            if *lines <= length {
                return Ok(());
            }
        }
        Err(io::Error::new(ErrorKind::InvalidData, "its last line is not whole"))
    }

    /// The first append claims the log.
    fn append(&mut self, lines: &[u8], _syncs: bool) -> io::Result<()> {
        if self.found.is_some() {
            return self.claim(lines);
        }
        self.add(lines)
    }

    /// A log that was not claimed is not replaced.
    fn replace(&mut self, bytes: &[u8]) -> Result<Option<Cause>, Cause> {
        if self.found.is_some() {
            return Err(Cause::Unknown);
        }
        let mut write = Vec::new(self.alloc);
        self.sealer.seal_first(bytes, &mut write)?;
        let Ok(()) = self.log.replace(write.as_slice()) else {
            return Err(Cause::Unknown);
        };
        self.sealer.begin_log();
        Ok(None)
    }

    fn is_shared(&self) -> bool {
        true
    }

    fn asked(&self) -> u64 {
        self.log.appends()
    }
}

/// Why these bytes are no writes.
fn contents_error(bytes: &[u8], why: ReadError) -> ContentsError {
    match why {
        ReadError::NoMemory => ContentsError::NoMemory,
        ReadError::Changed(length) => ContentsError::Changed(write_end(bytes, length)),
    }
}
