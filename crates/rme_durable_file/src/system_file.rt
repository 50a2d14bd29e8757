//! The file of a state in the system's folders: opened, and locked for one server. Only this is trusted: no contract
//! knows what the system does with it.

ghost use Rattle.std.specs.Prelude.{◌≡◌, IfOk, IfSome, true};

use crate::cause::Cause;
use crate::contents::{FileContents, WriteForm, line_in_file};
use crate::faults::{in_use_fault, read_fault, write_fault};
use crate::making::{create_whole, sync_folder};
use crate::name::StateName;
use crate::replacing::{ReplacedFile, is_still_named, remove_leftover, replace_file};
use crate::state_file::StateFile;
use crate::state_storage::{FileReadError, StateStorage};
use rme_cli_messages::{BadArgument, CliFault, escape_controls};
use rme_durable_writes::{SealError, WriteSealer};
use std::alloc::Global;
use std::fs::{File, OpenOptions, TryLockError};
use std::io::{ErrorKind, Read};
use std::os::unix::fs::FileExt;
use std::{fs, io};

/// The bounds of the bytes of room that are made at once for writes that the disk must have. Between them the room is as
/// long as the log, so that a file is at most twice as long as its log, and 16 KiB.
const LEAST_ROOM: u64 = 16 << 10;

const MOST_ROOM: u64 = 1 << 20;

/// The number of tries to open a file that was replaced meanwhile.
const TURNS: u32 = 10;

/// A file of the system, which no other server has while this value lives.
#[derive(Drop)]
pub struct SystemFile<'a> {
    rt: &'a HostRuntime,
    name: &'a StateName,
    file: File,
    /// Whether the writes of the file end with checksums, as those of version 2 do.
    is_sealed: bool,
    /// The sealer of the file's next write, or, in a file of version 1, of a new file's first.
    sealer: WriteSealer,
    /// The last write that was made. Its memory serves for the next.
    write: Vec<u8>,
    /// The number of bytes of the log: the place of the next write.
    length: u64,
    /// The length of the file with the room behind the log, if that could be made.
    room_end: u64,
    /// The number of bytes behind the log, apart from room, when the file was read.
    torn: usize,
}

/// The outcome of one try to open a file.
#[derive(Drop)]
enum OpenAttempt {
    /// It is open and locked.
    Had(File),
    NotThere,
    /// It was replaced before it was locked.
    Replaced,
}

/// Makes the file with these bytes, if nothing has its name yet: written and synced under a temporary name first, then
/// linked to its name. A file that has the name by then stays as it is.
pub fn make_state(rt: &HostRuntime, path: &str, bytes: &[u8]) -> Result<(), CliFault> {
    let mut write = Vec::new(rt.alloc());
    if let Err(why) = WriteSealer::new(rt.alloc())?.seal(bytes, &mut write) {
        return Err(write_fault(rt, path, seal_error(why))?);
    }
    match create_whole(rt, path, write.as_slice()) {
        Ok(()) => Ok(()),
        Err(error) if error.kind() == ErrorKind::AlreadyExists => Ok(()),
        Err(error) => Err(write_fault(rt, path, error)?),
    }
}

/// Opens and locks the file of this name, so that no other server can; `None` if nothing has the name. What is not a
/// regular file is refused, as is a file that another server has. No file is changed.
///
/// A server replaces its file by new ones, each locked before it has the name. So a program that opens a file just
/// before it is replaced, and gets its lock once the server has dropped it, has a file without a name: it is closed,
/// and the name is opened again.
///
/// Each append to it waits for the disk if `syncs`.
pub fn open_state_file<'a>(
    rt: &'a HostRuntime,
    name: &'a StateName,
    syncs: bool,
) -> Result<Option<StateFile<'a, SystemFile<'a>>>, CliFault>
    ensures works { IfOk result (λ found. IfSome found (λ file. file.works ≡ true)) }
    ensures syncs { IfOk result (λ found. IfSome found (λ file. file.syncs ≡ syncs)) }
{
    for _ in 0..TURNS {
        match open_once(rt, name.path())? {
            OpenAttempt::Replaced => {}
            OpenAttempt::NotThere => return Ok(None),
            OpenAttempt::Had(file) => {
                let file = system_file(rt, name, file)?;
                return Ok(Some(StateFile::new(name, file, syncs)));
            }
        }
    }
    // A server that replaces it so often has it.
    Err(in_use_fault(rt, name.path())?)
}

/// An open and locked file, which its name is noted to have.
fn system_file<'a>(
    rt: &'a HostRuntime,
    name: &'a StateName,
    file: File,
) -> Result<SystemFile<'a>, CliFault> {
    match file.metadata() {
        Ok(found) => name.set(&found),
        Err(error) => return Err(read_fault(rt, name.path(), error)?),
    }
    Ok(SystemFile {
        rt,
        name,
        file,
        is_sealed: false,
        sealer: WriteSealer::new(rt.alloc())?,
        write: Vec::new(rt.alloc()),
        length: 0,
        room_end: 0,
        torn: 0,
    })
}

/// Tries once to open and lock the file of a name.
fn open_once(rt: &HostRuntime, path: &str) -> Result<OpenAttempt, CliFault> {
    if !is_regular_file(rt, path)? {
        return Ok(OpenAttempt::NotThere);
    }
    let file = open_locked(rt, path)?;
    match is_still_named(rt, path, &file) {
        Ok(true) => Ok(OpenAttempt::Had(file)),
        Ok(false) => Ok(OpenAttempt::Replaced),
        Err(error) => Err(read_fault(rt, path, error)?),
    }
}

/// Whether a regular file has this name. Anything else that has it is refused.
fn is_regular_file(rt: &HostRuntime, path: &str) -> Result<bool, CliFault> {
    match fs::symlink_metadata(rt, path) {
        Ok(found) if found.is_file() => Ok(true),
        Ok(_) => {
            let path = escape_controls(rt.alloc(), path)?;
            Err(CliFault::BadArguments(BadArgument::NoState(path)))
        }
        Err(error) if error.kind() == ErrorKind::NotFound => Ok(false),
        Err(error) => Err(read_fault(rt, path, error)?),
    }
}

/// Opens a file to read and to write it, and locks it.
fn open_locked(rt: &HostRuntime, path: &str) -> Result<File, CliFault> {
    let mut options = OpenOptions::new();
    options.read(true).write(true);
    let file = match options.open(rt, path) {
        Ok(file) => file,
        Err(error) => return Err(read_fault(rt, path, error)?),
    };
    match file.try_lock() {
        Ok(()) => Ok(file),
        Err(TryLockError::WouldBlock) => Err(in_use_fault(rt, path)?),
        Err(TryLockError::Error(error)) => Err(read_fault(rt, path, error)?),
    }
}

/// No contract knows what a file of the system holds.
impl StateStorage for SystemFile<'_> {
    ghost use Rattle.std.specs.Prelude.{None, false};

    ghost contents = { λ _. None };

    ghost shared = { false };

    ghost barriers = { λ _. 0 };

    fn read_all(&mut self, alloc: Global) -> Result<Vec<u8>, FileReadError> {
        let mut bytes = Vec::new(alloc);
        if let Err(error) = self.file.read_to_end(&mut bytes) {
            return Err(FileReadError::System(error));
        }
        match FileContents::of(alloc, bytes.as_slice()) {
            Ok(
                FileContents {
                    lines,
                    length,
                    torn,
                    form,
                },
            ) => {
                self.length = length as u64;
                self.torn = torn;
                match form {
                    WriteForm::Plain => self.is_sealed = false,
                    WriteForm::Sealed(sealer) => {
                        self.is_sealed = true;
                        self.sealer = sealer;
                    }
                }
                Ok(lines)
            }
            Err(why) => Err(FileReadError::Contents(why)),
        }
    }

    fn line_in_file(&self, alloc: Global, line: u64) -> u64 {
        match fs::read(self.rt, self.name.path()) {
            Ok(bytes) => line_in_file(alloc, bytes.as_slice(), line),
            Err(_) => line,
        }
    }

    fn begin(&mut self, length: usize, syncs: bool) -> io::Result<()> {
        remove_leftover(self.rt, self.name.path())?;
        if syncs {
            sync_folder(self.rt, self.name.path())?;
        }
        if self.is_sealed {
            self.tell_cut()?;
        } else {
            self.length = length as u64;
        }
        self.room_end = self.length;
        self.cut(self.length)
    }

    fn append(&mut self, lines: &[u8], syncs: bool) -> io::Result<()> {
        self.write_lines(lines)?;
        if syncs {
            self.make_room();
            self.file.sync_data()?;
            self.sealer.mark_durable();
        }
        Ok(())
    }

    fn replace(&mut self, bytes: &[u8]) -> Result<Option<Cause>, Cause> {
        let mut write = Vec::new(self.rt.alloc());
        self.sealer.seal_first(bytes, &mut write)?;
        let ReplacedFile {
            file,
            found,
            unsure,
        } = replace_file(self.rt, self.name.path(), &self.file, write.as_slice())?;
        self.name.set(&found);
        self.file = file;
        self.length = write.len() as u64;
        self.room_end = self.length;
        // The new file was synced before it had the name.
        self.sealer.begin_log();
        self.is_sealed = true;
        Ok(unsure)
    }

    /// It is locked.
    fn is_shared(&self) -> bool {
        false
    }

    fn asked(&self) -> u64 {
        0
    }
}

impl SystemFile<'_> {
    /// Writes lines behind the log; nothing for no bytes.
    fn write_lines(&mut self, lines: &[u8]) -> io::Result<()> {
        if lines.is_empty() {
            return Ok(());
        }
        if !self.is_sealed {
            return write_at(&self.file, &mut self.length, lines);
        }
        match self.sealer.seal(lines, &mut self.write) {
            Ok(()) => write_at(&self.file, &mut self.length, self.write.as_slice()),
            Err(why) => Err(seal_error(why)),
        }
    }

    /// Writes zeros behind the log, if it has filled the room that was made before. The disk has a write to blocks that
    /// the file has already in two thirds of the time, since the file system has nothing to note of it. The next sync is
    /// theirs too. Without room the log goes on as well, so a failure is ignored; room is tried again only behind it.
    fn make_room(&mut self) {
        if !self.is_sealed || self.length <= self.room_end {
            return;
        }
        let room = self.length.clamp(LEAST_ROOM, MOST_ROOM);
        self.room_end = self.length.saturating_add(room);
        if let Ok(zeros) = Vec::from_elem(self.rt.alloc(), 0u8, room as usize) {
            let _ = self.file.write_all_at(zeros.as_slice(), self.length);
        }
    }

    /// Cuts the file to this number of bytes, if it has more.
    fn cut(&self, length: u64) -> io::Result<()> {
        if length < self.file.metadata()?.len() {
            self.file.set_len(length)?;
        }
        Ok(())
    }

    /// Says how many bytes are cut off behind the last write. Room is none of them.
    fn tell_cut(&self) -> io::Result<()> {
        let torn = self.torn;
        if torn > 0 {
            let path = escape_controls(self.rt.alloc(), self.name.path())?;
            let _ = eprintln!(self.rt;
                "rme: {torn} bytes at the end of {path} were never known to be with the disk, and are cut off"
            );
        }
        Ok(())
    }
}

/// Writes bytes at this place of a file. The place is behind them then.
fn write_at(file: &File, place: &mut u64, bytes: &[u8]) -> io::Result<()> {
    file.write_all_at(bytes, *place)?;
    *place = place.saturating_add(bytes.len() as u64);
    Ok(())
}

/// The error of lines that were not made a write.
fn seal_error(why: SealError) -> io::Error {
    match why {
        SealError::NoMemory => io::Error::from(ErrorKind::OutOfMemory),
        SealError::NotLines | SealError::TooMany => {
            io::Error::new(
                ErrorKind::InvalidData,
                "its lines can't be given a checksum",
            )
        }
    }
}
