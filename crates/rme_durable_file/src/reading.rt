//! Reading a state.

ghost use Rattle.std.specs.Prelude.{◌≡◌, IfErr, IfOk};
ghost use Rattle.rme_cli_messages.specs.declared.fault.CliFault.TheVariants.{NoMemory};
ghost use Rattle.rme_durable_file.specs.BadLogs.{IsBadLogFault};
ghost use Rattle.rme_durable_file.specs.Starts.{ReadsState};

use rme_cli_messages::{CliFault, escape_controls};
use rme_durable_epochs::{RecoveredState, recover, version_of};
use rme_durable_format::{BadLog, RecoveryProgress, whole_lines};
use rme_process_file::is_process_file;
use std::time::{Duration, Instant};

/// Reports the progress of recovery on the standard error, once it has taken a second.
#[derive(Drop)]
struct StderrProgress<'a> {
    rt: &'a HostRuntime,
    began: Option<Instant>,
}

impl RecoveryProgress for StderrProgress<'_> {
    fn read(&self, lines: u64) {
        let Some(began) = self.began else {
            return;
        };
        match began.elapsed(self.rt) {
            Ok(went_by) if went_by >= Duration::from_secs(1) => {
                let _ = eprintln!(self.rt; "rme: {lines} lines are read");
            }
            _ => {}
        }
    }
}

/// A state that was read, and the number of bytes of the whole lines that it was read from.
#[derive(Drop)]
pub(crate) struct ReadState {
    pub(crate) recovered: RecoveredState,
    pub(crate) whole: usize,
}

/// Recovers a state from these bytes, which may end with a torn line, and reports the number of lines and the time on
/// the standard error.
pub(crate) fn recover_reporting(rt: &HostRuntime, bytes: &[u8]) -> Result<ReadState, BadLog>
    ensures { IfOk result (λ found. ReadsState bytes.now found.whole found.recovered) }
{
    let telling = StderrProgress {
        rt,
        began: Instant::now(rt).ok(),
    };
    let lines = whole_lines(bytes);
    let whole = lines.len();
    let recovered = recover(rt.alloc(), lines, &telling)?;
    let took = telling.began.and_then(|began| began.elapsed(rt).ok());
    let milliseconds = took.map_or(0, |took| took.as_millis());
    let lines = recovered.log.lines;
    let _ = eprintln!(rt; "rme: {lines} lines read in {milliseconds} ms");
    Ok(ReadState { recovered, whole })
}

/// The fault of bytes that are no state for this reason. It says what they are instead, if that is known. `Err` if
/// memory for its text was refused.
pub fn bad_log_fault(
    rt: &HostRuntime,
    path: &str,
    bytes: &[u8],
    why: BadLog,
) -> Result<CliFault, CliFault>
    ensures fault { IfOk result (IsBadLogFault bytes.now why) }
    ensures err { IfErr result (λ fault. fault ≡ NoMemory) }
{
    let BadLog::Line(line) = why else {
        return Ok(CliFault::NoMemory);
    };
    let path = escape_controls(rt.alloc(), path)?;
    if line > 1 {
        return Ok(CliFault::BadState(path, line));
    }
    if is_process_file(bytes) {
        return Ok(CliFault::StateOfProcesses(path));
    }
    match version_of(rt.alloc(), bytes)? {
        Some(version) if version != 1 && version != 2 => {
            Ok(CliFault::StateOfVersion(path, version))
        }
        _ => Ok(CliFault::BadState(path, line)),
    }
}
