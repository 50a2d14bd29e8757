//! The state that is moved: its lines, as one write.

use crate::move_fault::MoveFault;
use rme_cli_messages::{CliFault, escape_controls};
use rme_durable_epochs::{recover, version_of};
use rme_durable_file::{
    ContentsError, FileContents, bad_log_fault, contents_fault, line_in_file, write_end,
};
use rme_durable_format::{BadLog, NoProgress};
use rme_durable_writes::{SealError, WriteSealer};

/// The state that is moved.
#[derive(Drop)]
pub(crate) struct MovedState {
    /// All its lines, as one write: what was moved is with the disk, so each change of it later is noticed.
    pub(crate) write: Vec<u8>,
    pub(crate) epoch: u64,
    /// The number of bytes behind the last write, apart from room, which were never known to be with the disk. As by a
    /// start, they are left out.
    pub(crate) torn: usize,
}

/// The state of these bytes, once a start would accept it. Faults call it by this name.
pub(crate) fn moved_state(
    rt: &HostRuntime,
    name: &str,
    bytes: &[u8],
) -> Result<MovedState, MoveFault> {
    let alloc = rt.alloc();
    if version_of(alloc, bytes).map_err(CliFault::from)? == Some(1) {
        return Err(MoveFault::OldVersion(escape_controls(alloc, name)?));
    }
    let contents = match FileContents::of(alloc, bytes) {
        Ok(contents) => contents,
        Err(why) => return Err(MoveFault::from(contents_fault(rt, name, why)?)),
    };
    let lines = contents.lines.as_slice();
    let epoch = match recover(alloc, lines, &NoProgress) {
        Ok(recovered) => recovered.log.header.epoch,
        Err(BadLog::NoMemory) => return Err(MoveFault::from(CliFault::NoMemory)),
        Err(BadLog::Line(line)) => {
            let why = BadLog::Line(line_in_file(alloc, bytes, line));
            return Err(MoveFault::from(bad_log_fault(rt, name, lines, why)?));
        }
    };
    let mut write = Vec::new(alloc);
    match WriteSealer::new(alloc)?.seal_first(lines, &mut write) {
        Ok(()) => Ok(MovedState {
            write,
            epoch,
            torn: contents.torn,
        }),
        Err(SealError::NoMemory) => Err(MoveFault::from(CliFault::NoMemory)),
        // The lines of a state have neither, so this is not reached.
        Err(SealError::NotLines | SealError::TooMany) => {
            let why = ContentsError::Changed(write_end(bytes, 0));
            Err(MoveFault::from(contents_fault(rt, name, why)?))
        }
    }
}
