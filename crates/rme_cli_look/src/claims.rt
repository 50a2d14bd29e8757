//! The workers of a mapped file whose process lives.
//!
//! A process claims a worker by a kernel lock on the byte of the worker's number, and `/proc/locks` lists all locks
//! (`proc_locks(5)`). That file is read and no lock is tried, since a try could refuse a process that starts at that
//! moment.

use rme_cli_messages::{CliFault, escape_controls};
use std::alloc::{AllocError, Global};
use std::fs;
use std::os::unix::fs::MetadataExt;

/// The kernel's list of all locks.
const LOCKS: &str = "/proc/locks";

/// The identity of a file: its device, and its inode number.
#[derive(Clone, Copy, PartialEq, Eq)]
pub(crate) struct FileNumber {
    major: u64,
    minor: u64,
    inode: u64,
}

impl FileNumber {
    /// The identity of a file of this device, whose two parts are encoded in its number (`makedev(3)`).
    pub(crate) fn of(device: u64, inode: u64) -> FileNumber {
        FileNumber {
            major: ((device >> 8) & 0xfff) | ((device >> 32) & !0xfff),
            minor: (device & 0xff) | ((device >> 12) & !0xff),
            inode,
        }
    }

    /// Whether it may be the same file under another device, as on overlayfs and btrfs, whose devices have no major
    /// number of their own: there `stat(2)` answers one device, and `/proc/locks` another.
    pub(crate) fn may_be(self, file: FileNumber) -> bool {
        self.inode == file.inode && self.major == 0 && file.major == 0 && self.minor != file.minor
    }

    /// The identity of a text such as `fe:00:11032259`.
    fn of_text(text: &str) -> Option<FileNumber> {
        let mut parts = text.split(':');
        let major = u64::from_str_radix(parts.next()?, 16).ok()?;
        let minor = u64::from_str_radix(parts.next()?, 16).ok()?;
        let inode = parts.next()?.parse::<u64>().ok()?;
        Some(FileNumber {
            major,
            minor,
            inode,
        })
    }
}

/// A kernel lock on the bytes of a file, from the first to the last.
#[derive(Clone, Copy)]
pub(crate) struct Claim {
    pub(crate) file: FileNumber,
    pub(crate) first: u64,
    pub(crate) last: u64,
}

/// The file of this path.
pub(crate) fn file_at(rt: &HostRuntime, path: &str) -> Result<FileNumber, CliFault> {
    match fs::metadata(rt, path) {
        Ok(data) => Ok(FileNumber::of(data.dev(), data.ino())),
        Err(error) => {
            let kind = error.kind();
            Err(CliFault::on_file(
                kind,
                CliFault::StateUnread(escape_controls(rt.alloc(), path)?, error),
            ))
        }
    }
}

/// Whether each of a file's workers has a living process; an empty list if the system does not say.
pub(crate) fn living_workers(
    rt: &HostRuntime,
    file: FileNumber,
    workers: u32,
) -> Result<Vec<bool>, AllocError> {
    match fs::read_to_string(rt, LOCKS) {
        Ok(text) => claimed_workers(rt.alloc(), text.as_str(), file, workers),
        Err(_) => Ok(Vec::new(rt.alloc())),
    }
}

/// The workers that are claimed, from the kernel's list of all locks; an empty list if it may name this file under
/// another device.
fn claimed_workers(
    alloc: Global,
    text: &str,
    file: FileNumber,
    workers: u32,
) -> Result<Vec<bool>, AllocError> {
    let mut living = vec![in alloc; false; workers as usize]?;
    let mut is_elsewhere = false;
    for line in text.lines() {
        let Some(claim) = claim_in(line) else {
            continue;
        };
        if claim.file == file {
            mark(living.as_mut_slice(), claim.first, claim.last);
        }
        is_elsewhere |= claim.file.may_be(file);
    }
    if is_elsewhere && !living.contains(&true) {
        return Ok(Vec::new(alloc));
    }
    Ok(living)
}

/// Marks the workers from the first to the last.
fn mark(living: &mut [bool], first: u64, last: u64) {
    let mut worker: u64 = 0;
    for is_living in living {
        if worker >= first && worker <= last {
            *is_living = true;
        }
        worker = worker.saturating_add(1);
    }
}

/// The claim of a line; `None` for any other lock.
pub(crate) fn claim_in(line: &str) -> Option<Claim> {
    let mut words = line.split_whitespace();
    let _number = words.next()?;
    // A waiting lock has an arrow here.
    if words.next()? != "OFDLCK" {
        return None;
    }
    let _advisory = words.next()?;
    if words.next()? != "WRITE" {
        return None;
    }
    let _process = words.next()?;
    let file = FileNumber::of_text(words.next()?)?;
    let first = words.next()?.parse::<u64>().ok()?;
    let last = match words.next()? {
        "EOF" => u64::MAX,
        text => text.parse::<u64>().ok()?,
    };
    Some(Claim { file, first, last })
}
