//! Recovery: the world that the bytes of a file lead to, and the base of its epoch.

ghost use Rattle.std.specs.Prelude.{IfErr, IfOk};
ghost use Rattle.rme_durable_epochs.specs.RecoveredStates.{AreState, IsBadState, IsWhyNoState};

use crate::epoch_base::Base;
use rme_durable_format::{BadLog, RecoveredLog, RecoveryProgress, first_two_lines, recover_log};
use rme_wire::{ValueReader, ValueStorage};
use rme_words::NoMemory;
use std::alloc::Global;

/// The state of a file: the world that its lines lead to, and the base that earlier epochs left.
#[derive(Drop)]
pub struct RecoveredState {
    pub log: RecoveredLog,
    pub base: Base,
}

/// Recovers the state from the whole lines of a file.
///
/// The error has the number of the first bad line. That is line 1 if the header does not fit the world that line 2
/// opens, or if its numbers or places leave no room for one more epoch.
pub fn recover<P: RecoveryProgress>(
    alloc: Global,
    bytes: &[u8],
    progress: &P,
) -> Result<RecoveredState, BadLog>
    ensures ok { IfOk result (AreState bytes.now) }
    ensures err { IfErr result (IsWhyNoState bytes.now) }
{
    match recover_with_base(alloc, bytes, progress) {
        Ok(recovered) => Ok(recovered),
        Err(BadLog::NoMemory) => Err(BadLog::NoMemory),
        Err(BadLog::Line(line)) => Err(first_bad_line(alloc, bytes, line, progress)),
    }
}

/// Recovers the state from lines. The header is judged last: the error has the number of a bad line, and if that is
/// behind line 2, line 1 may be bad too.
fn recover_with_base<P: RecoveryProgress>(
    alloc: Global,
    bytes: &[u8],
    progress: &P,
) -> Result<RecoveredState, BadLog>
    ensures ok { IfOk result (AreState bytes.now) }
    ensures err { IfErr result (IsBadState bytes.now) }
{
    let log = match recover_log(alloc, bytes, progress) {
        Ok(log) => log,
        Err(why) => return Err(why),
    };
    match Base::from_header(alloc, &log.header)? {
        Some(base) => Ok(RecoveredState { log, base }),
        None => Err(BadLog::Line(1)),
    }
}

/// The first bad line of bytes of which this line is bad: the header is judged together with line 2, which opens the
/// world.
fn first_bad_line<P: RecoveryProgress>(
    alloc: Global,
    bytes: &[u8],
    line: u64,
    progress: &P,
) -> BadLog
    requires { IsBadState bytes.now (BadLog.Line line) }
    ensures { IsWhyNoState bytes.now result }
{
    if line <= 2 {
        return BadLog::Line(line);
    }
    match recover_with_base(alloc, first_two_lines(bytes), progress) {
        Ok(_) => BadLog::Line(line),
        Err(why) => why,
    }
}

/// The version that the first line of these bytes tells, if it is the header of a state.
pub fn version_of(alloc: Global, bytes: &[u8]) -> Result<Option<u64>, NoMemory> {
    let line = bytes.split(|byte| *byte == b'\n').next().unwrap_or(bytes);
    let mut values = ValueReader::new(alloc);
    let mut room = ValueStorage::new();
    let Some(header) = values.read(&mut room, line)? else {
        return Ok(None);
    };
    let (Some(name), Some(version)) = (header.get("rme"), header.get("version")) else {
        return Ok(None);
    };
    if name.as_str() != Some("kept") {
        return Ok(None);
    }
    Ok(version.as_u64())
}
