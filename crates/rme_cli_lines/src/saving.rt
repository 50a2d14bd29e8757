//! Replacing a file by an image, so that it has the old bytes or the new ones at each moment.

use rme_cli_messages::{CliFault, SaveError};
use std::alloc::{AllocError, Global};
use std::fs::{File, OpenOptions, Permissions};
use std::io::{ErrorKind, Write};
use std::os::unix::fs::OpenOptionsExt;
use std::path::Path;
use std::{fs, io};

/// The suffix of the new file's name while the image is written; a number precedes it if that name is taken.
const UNFINISHED: &str = ".new";

/// The number of names that are tried.
const MOST_NAMES: u32 = 1000;

/// The mode of the new file before it gets that of the file that it replaces.
const PRIVATE: u32 = 0o600;

/// Why a file that has meanwhile become irregular cannot be replaced by an image.
const IRREGULAR: &str = "it is no regular file";

/// A new file beside the one that it will replace.
#[derive(Drop)]
struct TemporaryFile {
    name: String,
    file: File,
}

/// Checks that a file can be replaced by an image: it is a regular file or does not exist, and its folder accepts new
/// files. For that a file is created there and removed.
pub fn check_save_target(rt: &HostRuntime, file: &str) -> Result<(), CliFault> {
    match find_save_error(rt, file) {
        Ok(()) => Ok(()),
        Err(hindrance) => Err(unsavable(String::from_str(rt.alloc(), file)?, hindrance)),
    }
}

/// Replaces the contents of a file by these bytes, and keeps its mode.
///
/// After `ImageUnwritten` and `NoMemory` it has the old contents, and after `FolderUnsynced` the new bytes, unless the
/// machine stops before the folder's names are on the disk.
pub fn replace_image_file(rt: &HostRuntime, file: String, bytes: &[u8]) -> Result<(), CliFault> {
    if let Err(error) = write_and_rename_image(rt, file.as_str(), bytes) {
        return Err(CliFault::on_file(error.kind(), CliFault::ImageUnwritten(file, error)));
    }
    match sync_folder(rt, file.as_str()) {
        Ok(()) => Ok(()),
        Err(error) => Err(CliFault::FolderUnsynced(file, error)),
    }
}

/// The fault for a file that cannot be replaced by an image.
fn unsavable(file: String, hindrance: SaveError) -> CliFault {
    match hindrance {
        SaveError::Irregular => CliFault::Unsavable(file, SaveError::Irregular),
        SaveError::Unwritable(error) => {
            let kind = error.kind();
            CliFault::on_file(
                kind,
                CliFault::Unsavable(file, SaveError::Unwritable(error)),
            )
        }
    }
}

/// Why a file cannot be replaced by an image.
fn find_save_error(rt: &HostRuntime, file: &str) -> Result<(), SaveError> {
    let mode = mode_of(rt, file)?;
    match make_and_remove(rt, file, mode.is_some()) {
        Ok(()) => Ok(()),
        Err(error) => Err(SaveError::Unwritable(error)),
    }
}

fn make_and_remove(rt: &HostRuntime, file: &str, is_private: bool) -> io::Result<()> {
    let unfinished = create_beside(rt, file, is_private)?;
    fs::remove_file(rt, unfinished.name.as_str())
}

/// The mode of the file, if it exists.
fn mode_of(rt: &HostRuntime, file: &str) -> Result<Option<Permissions>, SaveError> {
    match fs::metadata(rt, file) {
        Ok(found) if found.is_file() => Ok(Some(found.permissions())),
        Ok(_) => Err(SaveError::Irregular),
        Err(error) if error.kind() == ErrorKind::NotFound => Ok(None),
        Err(error) => Err(SaveError::Unwritable(error)),
    }
}

/// Writes the bytes to a new file, and renames it to the file. If that fails the new file is removed.
fn write_and_rename_image(rt: &HostRuntime, file: &str, bytes: &[u8]) -> io::Result<()> {
    let mode = match mode_of(rt, file) {
        Ok(mode) => mode,
        Err(SaveError::Irregular) => {
            return Err(io::Error::new(ErrorKind::InvalidInput, IRREGULAR));
        }
        Err(SaveError::Unwritable(error)) => return Err(error),
    };
    let mut unfinished = create_beside(rt, file, mode.is_some())?;
    let put = match write_synced(&mut unfinished.file, mode, bytes) {
        Ok(()) => fs::rename(rt, unfinished.name.as_str(), file),
        Err(error) => Err(error),
    };
    if put.is_err() {
        // The new file is of no use now, and a failure to remove it is ignored.
        let _ = fs::remove_file(rt, unfinished.name.as_str());
    }
    put
}

/// Creates a file beside another, under a free name: never through a link, and never another run's file.
fn create_beside(rt: &HostRuntime, file: &str, is_private: bool) -> io::Result<TemporaryFile> {
    let mut options = OpenOptions::new();
    options.write(true).create_new(true);
    if is_private {
        options.mode(PRIVATE);
    }
    for number in 0..MOST_NAMES {
        let name = name_beside(rt.alloc(), file, number)?;
        match options.open(rt, name.as_str()) {
            Ok(file) => return Ok(TemporaryFile { name, file }),
            Err(error) if error.kind() == ErrorKind::AlreadyExists => {}
            Err(error) => return Err(error),
        }
    }
    Err(io::Error::from(ErrorKind::AlreadyExists))
}

/// The name that is tried after this number of others.
fn name_beside(alloc: Global, file: &str, number: u32) -> Result<String, AllocError> {
    if number == 0 {
        return format!(in alloc; "{file}{UNFINISHED}");
    }
    format!(in alloc; "{file}.{number}{UNFINISHED}")
}

/// Sets the mode of a file, if one is given, writes bytes to it, and syncs it to the disk.
fn write_synced(file: &mut File, mode: Option<Permissions>, bytes: &[u8]) -> io::Result<()> {
    if let Some(mode) = mode {
        file.set_permissions(mode)?;
    }
    file.write_all(bytes)?;
    file.sync_all()
}

/// Syncs the names of a file's folder to the disk.
fn sync_folder(rt: &HostRuntime, file: &str) -> io::Result<()> {
    let folder = match Path::new(file).parent() {
        Some(parent) if !parent.as_str().is_empty() => parent.as_str(),
        _ => ".",
    };
    File::open(rt, folder)?.sync_all()
}
