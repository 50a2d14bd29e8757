//! The faults of a state's file.

use crate::contents::contents_fault;
use crate::state_storage::FileReadError;
use rme_cli_messages::{BadArgument, CliFault, escape_controls};
use std::io;

/// The fault if another server has the file.
pub(crate) fn in_use_fault(rt: &HostRuntime, path: &str) -> Result<CliFault, CliFault> {
    let path = escape_controls(rt.alloc(), path)?;
    Ok(CliFault::BadArguments(BadArgument::StateServed(path)))
}

/// The fault if the file can't be read for this reason.
pub(crate) fn read_fault(
    rt: &HostRuntime,
    path: &str,
    why: io::Error,
) -> Result<CliFault, CliFault> {
    let kind = why.kind();
    let path = escape_controls(rt.alloc(), path)?;
    Ok(CliFault::on_file(kind, CliFault::StateUnread(path, why)))
}

/// The fault if the file can't be written for this reason.
pub(crate) fn write_fault(
    rt: &HostRuntime,
    path: &str,
    why: io::Error,
) -> Result<CliFault, CliFault> {
    let kind = why.kind();
    let path = escape_controls(rt.alloc(), path)?;
    Ok(CliFault::on_file(kind, CliFault::StateUnwritten(path, why)))
}

/// The fault if the lines of the file can't be read for this reason.
pub(crate) fn unread_fault(
    rt: &HostRuntime,
    path: &str,
    why: FileReadError,
) -> Result<CliFault, CliFault> {
    match why {
        FileReadError::System(error) => read_fault(rt, path, error),
        FileReadError::Contents(why) => contents_fault(rt, path, why),
    }
}

/// The fault if the write that ends at this line has changed.
pub(crate) fn changed_fault(rt: &HostRuntime, path: &str, line: u64) -> Result<CliFault, CliFault> {
    let path = escape_controls(rt.alloc(), path)?;
    Ok(CliFault::StateChanged(path, line))
}

/// The fault if the state can't be given its new sizes or locks.
pub(crate) fn not_grown_fault(rt: &HostRuntime, path: &str) -> Result<CliFault, CliFault> {
    let path = escape_controls(rt.alloc(), path)?;
    Ok(CliFault::StateNotGrown(path))
}
