//! Making a new file atomically: it is there with all its bytes, or not at all.

use std::alloc::{AllocError, Global};
use std::fs::{File, OpenOptions};
use std::io::{ErrorKind, Write};
use std::os::unix::fs::OpenOptionsExt;
use std::path::Path;
use std::{fs, io};

/// The suffix of a file's name while the file is written.
const UNFINISHED: &str = ".new";

/// The number of temporary names that are tried.
const MOST_NAMES: u32 = 1000;

/// The mode of a new file: only its user reads and writes it.
pub(crate) const PRIVATE: u32 = 0o600;

/// Makes a file with these bytes, and waits until the disk has it and its name. `AlreadyExists` if something has the
/// name.
pub fn create_whole(rt: &HostRuntime, path: &str, bytes: &[u8]) -> io::Result<()> {
    let (beside, mut file) = create_temporary(rt, path)?;
    let put = match write_synced(&mut file, bytes) {
        // Unlike a rename, a link replaces no other file.
        Ok(()) => fs::hard_link(rt, beside.as_str(), path),
        Err(error) => Err(error),
    };
    // A failure to remove it is ignored.
    let _ = fs::remove_file(rt, beside.as_str());
    put?;
    sync_folder(rt, path)
}

/// Makes a file in the folder of another, under a name that nothing has.
fn create_temporary(rt: &HostRuntime, path: &str) -> io::Result<(String, File)> {
    let mut options = OpenOptions::new();
    options.write(true).create_new(true).mode(PRIVATE);
    for number in 0..MOST_NAMES {
        let name = temporary_name(rt.alloc(), path, number)?;
        match options.open(rt, name.as_str()) {
            Ok(file) => return Ok((name, file)),
            Err(error) if error.kind() == ErrorKind::AlreadyExists => {}
            Err(error) => return Err(error),
        }
    }
    Err(io::Error::new(ErrorKind::Other, "no name is free beside it"))
}

/// The temporary name of this number, counted from 0.
fn temporary_name(alloc: Global, path: &str, number: u32) -> Result<String, AllocError> {
    if number == 0 {
        return format!(in alloc; "{path}{UNFINISHED}");
    }
    format!(in alloc; "{path}.{number}{UNFINISHED}")
}

/// Writes bytes to a file, and waits until the disk has them.
pub(crate) fn write_synced(file: &mut File, bytes: &[u8]) -> io::Result<()> {
    file.write_all(bytes)?;
    file.sync_all()
}

/// Waits until the disk has the names in a file's folder.
pub(crate) fn sync_folder(rt: &HostRuntime, path: &str) -> io::Result<()> {
    folder_of(rt, path)?.sync_all()
}

/// The folder of a file, opened, so that its names can be synced.
pub(crate) fn folder_of(rt: &HostRuntime, path: &str) -> io::Result<File> {
    let folder = match Path::new(path).parent() {
        Some(parent) if !parent.as_str().is_empty() => parent.as_str(),
        _ => ".",
    };
    File::open(rt, folder)
}
