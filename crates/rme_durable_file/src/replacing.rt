//! Replacing a server's file atomically: at each moment the name has the old file or the new one.

use crate::cause::Cause;
use crate::making::{PRIVATE, folder_of, write_synced};
use rme_cli_messages::{BadArgument, CliFault, escape_controls};
use std::alloc::{AllocError, Global};
use std::fs::{File, Metadata, OpenOptions, TryLockError};
use std::io::{ErrorKind, Read};
use std::os::unix::fs::{MetadataExt, OpenOptionsExt, fchown};
use std::{fs, io};

/// The suffix of the new file's name while it is written.
const RENEWAL: &str = ".renewal";

/// The start of the first line of a state, and a text in that line.
const HEADER_START: &[u8] = b"{\"epoch\":";

const HEADER_MARK: &[u8] = b"\"rme\":\"kept\"";

/// A bound on the bytes of the first line of a state: 256 workers with a receipt each.
const MOST_HEADER: usize = 65_536;

/// What has the name of the new file.
#[derive(Clone, Copy, PartialEq, Eq)]
enum LeftoverFile {
    Nothing,
    /// The leftover of a server that ended while it wrote it.
    Ours,
    /// Anything else.
    Other,
}

/// The new file, after it has replaced the old one.
#[derive(Drop)]
pub(crate) struct ReplacedFile {
    /// The file, locked.
    pub(crate) file: File,
    /// The file's metadata.
    pub(crate) found: Metadata,
    /// The cause, if the sync of the folder failed: the disk may not have the file's name.
    pub(crate) unsure: Option<Cause>,
}

/// Whether a path still names this open file.
pub(crate) fn is_still_named(rt: &HostRuntime, path: &str, file: &File) -> io::Result<bool> {
    let opened = file.metadata()?;
    match fs::symlink_metadata(rt, path) {
        Ok(named) => Ok(named.dev() == opened.dev() && named.ino() == opened.ino()),
        Err(error) if error.kind() == ErrorKind::NotFound => Ok(false),
        Err(error) => Err(error),
    }
}

/// Replaces a file, which its path must still name, by one with these bytes, and with its mode and owner if the system
/// permits. The new file is written and synced under a temporary name first, and locked before it gets the name, so
/// that no other server can lock it.
///
/// After an error the old file has its name, unless that was lost before, and the new file is removed.
pub(crate) fn replace_file(
    rt: &HostRuntime,
    path: &str,
    old: &File,
    bytes: &[u8],
) -> Result<ReplacedFile, Cause> {
    if !is_still_named(rt, path, old)? {
        return Err(Cause::NameLost);
    }
    // Opened first: later there may be no free descriptor.
    let folder = folder_of(rt, path)?;
    let beside = replacement_name(rt.alloc(), path)?;
    let mut file = create_replacement(rt, beside.as_str())?;
    match write_and_rename(rt, &mut file, (old, path, beside.as_str()), bytes) {
        Ok(found) => Ok(ReplacedFile {
            file,
            found,
            unsure: folder.sync_all().err().map(Cause::from),
        }),
        Err(cause) => {
            // A failure to remove it is ignored.
            let _ = fs::remove_file(rt, beside.as_str());
            Err(cause)
        }
    }
}

/// Writes the new file, and renames it to the old one's name. Answers its metadata.
fn write_and_rename(
    rt: &HostRuntime,
    file: &mut File,
    (old, path, beside): (&File, &str, &str),
    bytes: &[u8],
) -> Result<Metadata, Cause> {
    fill_replacement(file, old, bytes)?;
    let found = file.metadata()?;
    // A file that took the name meanwhile must not be replaced.
    if !is_still_named(rt, path, old)? {
        return Err(Cause::NameLost);
    }
    fs::rename(rt, beside, path)?;
    Ok(found)
}

/// Refuses a state that could never be replaced, since the new file's name is taken or can't be had. Nothing is
/// changed.
pub fn check_replaceable(rt: &HostRuntime, path: &str) -> Result<(), CliFault> {
    let beside = replacement_name(rt.alloc(), path)?;
    let why = match inspect_leftover(rt, beside.as_str()) {
        Ok(LeftoverFile::Nothing | LeftoverFile::Ours) => return Ok(()),
        Ok(LeftoverFile::Other) => BadArgument::RenewalTaken(escape_controls(
            rt.alloc(),
            beside.as_str(),
        )?),
        Err(error) => BadArgument::RenewalUnnamed(
            escape_controls(rt.alloc(), beside.as_str())?,
            error,
        ),
    };
    Err(CliFault::BadArguments(why))
}

/// Removes the new file that a server left which ended before the rename. Only a server that holds the lock of the
/// state's file may do so.
pub(crate) fn remove_leftover(rt: &HostRuntime, path: &str) -> Result<(), AllocError> {
    let beside = replacement_name(rt.alloc(), path)?;
    if let Ok(LeftoverFile::Ours) = inspect_leftover(rt, beside.as_str()) {
        // A failure is ignored: the next checkpoint tries again.
        let _ = fs::remove_file(rt, beside.as_str());
    }
    Ok(())
}

/// What has this name beside a state. A file that was not made by a server is recognized by its first line.
fn inspect_leftover(rt: &HostRuntime, beside: &str) -> io::Result<LeftoverFile> {
    match fs::symlink_metadata(rt, beside) {
        Ok(found) if !found.is_file() => return Ok(LeftoverFile::Other),
        Ok(_) => {}
        Err(error) if error.kind() == ErrorKind::NotFound => return Ok(LeftoverFile::Nothing),
        Err(error) => return Err(error),
    }
    let file = File::open(rt, beside)?;
    let mut front = Vec::new(rt.alloc());
    file.take(MOST_HEADER as u64).read_to_end(&mut front)?;
    if is_log_prefix(front.as_slice()) {
        return Ok(LeftoverFile::Ours);
    }
    Ok(LeftoverFile::Other)
}

/// Whether these bytes begin as a state does: with its first line, or with a prefix of one, even an empty one, as a
/// server leaves it that was killed while it wrote.
fn is_log_prefix(bytes: &[u8]) -> bool {
    if bytes.len() < HEADER_START.len() {
        return HEADER_START.starts_with(bytes);
    }
    if !bytes.starts_with(HEADER_START) {
        return false;
    }
    match bytes.iter().position(|byte| *byte == b'\n') {
        Some(end) => bytes[..end]
            .windows(HEADER_MARK.len())
            .any(|part| part == HEADER_MARK),
        None => true,
    }
}

/// The name of the new file.
fn replacement_name(alloc: Global, path: &str) -> Result<String, AllocError> {
    format!(in alloc; "{path}{RENEWAL}")
}

/// Makes the new file, readable only by this user. A leftover under its name is removed; anything else
/// there stays, and is an error.
fn create_replacement(rt: &HostRuntime, beside: &str) -> Result<File, Cause> {
    match inspect_leftover(rt, beside)? {
        LeftoverFile::Nothing => {}
        LeftoverFile::Ours => fs::remove_file(rt, beside)?,
        LeftoverFile::Other => return Err(Cause::NotOurs),
    }
    let mut options = OpenOptions::new();
    options
        .read(true)
        .write(true)
        .create_new(true)
        .mode(PRIVATE);
    Ok(options.open(rt, beside)?)
}

/// Locks the new file, sets its owner and mode, and writes its bytes.
fn fill_replacement(file: &mut File, old: &File, bytes: &[u8]) -> Result<(), Cause> {
    match file.try_lock() {
        Ok(()) => {}
        Err(TryLockError::WouldBlock) => return Err(Cause::Locked),
        Err(TryLockError::Error(error)) => return Err(Cause::from(error)),
    }
    copy_owner(file, old)?;
    write_synced(file, bytes)?;
    Ok(())
}

/// Gives a file the owner and the mode of another. If the owner can't be set, the file stays readable by this user
/// only.
fn copy_owner(file: &File, old: &File) -> io::Result<()> {
    let (made, wanted) = (file.metadata()?, old.metadata()?);
    if !have_same_owner(&made, &wanted) {
        if fchown(file, Some(wanted.uid()), Some(wanted.gid())).is_err() {
            return Ok(());
        }
    }
    // Last, since a change of owner may clear bits of the mode.
    file.set_permissions(wanted.permissions())
}

fn have_same_owner(one: &Metadata, other: &Metadata) -> bool {
    one.uid() == other.uid() && one.gid() == other.gid()
}
