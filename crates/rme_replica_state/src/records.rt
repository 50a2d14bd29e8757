//! The records of a log: lines, closed by a checksum.

ghost use Rattle.std.specs.Prelude.{◌≡◌, IfOk, OnErr, OnOk};
ghost use Rattle.rme_durable_writes.specs.Sealing.{IsSealed, new_log};
ghost use Rattle.rme_replica_state.specs.SealedLogs.{IsNextRecord};

use rme_durable_writes::{SealError, WriteSealer};
use std::alloc::Global;

/// The record that begins a log with these lines.
pub fn first_record(alloc: Global, lines: &[u8]) -> Result<Vec<u8>, SealError>
    ensures { IfOk result (λ bytes. IsSealed new_log lines.now bytes.items) }
{
    let mut write = Vec::new(alloc);
    WriteSealer::new(alloc)?.seal_first(lines, &mut write)?;
    Ok(write)
}

/// Replaces the bytes of `write` by the log's next record, with these lines; by no bytes if there are no lines.
pub(crate) fn make_record(
    sealer: &mut WriteSealer,
    lines: &[u8],
    write: &mut Vec<u8>,
) -> Result<(), SealError>
    ensures made { OnOk result (IsNextRecord sealer.old.number lines.now write.new.items sealer.new.number) }
    ensures same { OnErr result (sealer.new ≡ sealer.old) }
{
    if lines.is_empty() {
        write.clear();
        return Ok(());
    }
    sealer.seal(lines, write)
}
