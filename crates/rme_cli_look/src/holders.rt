//! The processes that have the workers of a mapped file.
//!
//! `/proc/locks` does not name the process of an open-file lock. `/proc/PID/fdinfo/FD` does, for each file that a
//! process of this user has open (`proc_pid_fdinfo(5)`).

use crate::claims::{FileNumber, claim_in};
use std::alloc::AllocError;
use std::fs;

/// The kernel's list of all processes.
const PROCESSES: &str = "/proc";

/// The text before a lock in the kernel's description of an open file.
const LOCK: &str = "lock:";

/// A process that has a worker. A process and its children may have the same one.
#[derive(Clone, Copy, PartialEq, Eq)]
pub(crate) struct Holder {
    pub(crate) worker: u64,
    pub(crate) process: u32,
}

/// The processes that have workers of this file, as far as the system shows them to this user.
pub(crate) fn holders_of(rt: &HostRuntime, file: FileNumber) -> Result<Vec<Holder>, AllocError> {
    let mut holders = Vec::new(rt.alloc());
    let Ok(processes) = fs::read_dir(rt, PROCESSES) else {
        return Ok(holders);
    };
    for process in processes {
        let Ok(process) = process else {
            continue;
        };
        if let Ok(number) = process.file_name().parse::<u32>() {
            add_holders(&mut holders, rt, number, file)?;
        }
    }
    Ok(holders)
}

/// Adds the workers of the file that this process has.
fn add_holders(
    holders: &mut Vec<Holder>,
    rt: &HostRuntime,
    process: u32,
    file: FileNumber,
) -> Result<(), AllocError> {
    let folder = format!(in rt.alloc(); "{PROCESSES}/{process}/fdinfo")?;
    let Ok(opened) = fs::read_dir(rt, folder.as_str()) else {
        return Ok(());
    };
    for entry in opened {
        let Ok(entry) = entry else {
            continue;
        };
        if let Ok(text) = fs::read_to_string(rt, entry.path()) {
            add_claims(holders, text.as_str(), process, file)?;
        }
    }
    Ok(())
}

/// Adds the workers of the file that an open file of this process has locked, from the kernel's description of it.
fn add_claims(
    holders: &mut Vec<Holder>,
    text: &str,
    process: u32,
    file: FileNumber,
) -> Result<(), AllocError> {
    for line in text.lines() {
        let Some(claim) = line.strip_prefix(LOCK).and_then(|lock| claim_in(lock)) else {
            continue;
        };
        let holder = Holder {
            worker: claim.first,
            process,
        };
        // A renewal claims all workers by one lock.
        let is_worker = claim.first == claim.last
            && (claim.file == file || claim.file.may_be(file));
        if is_worker && !holders.contains(&holder) {
            holders.push(holder)?;
        }
    }
    Ok(())
}
