//! The parts of a log's next epoch.

ghost use Rattle.std.specs.Prelude.{◌≡◌, ◌*◌, ◌≤◌, IfErr, IfOk, OnErr, length, take};
ghost use Rattle.rme_replica.specs.EngineLogs.{KeepsHead};
ghost use Rattle.rme_replica.specs.ReplicaStores.{HasStaged};
ghost use Rattle.rme_replica.specs.Ownerships.{StopsOwner};

use crate::engine::LogEngine;
use crate::head::Head;
use crate::ownership::Ownership;
use crate::tries::stage_repeatedly;

/// The length of a part.
pub const PART_LENGTH: usize = 262_144;

/// Stages all whole parts of these bytes, and answers how many they are.
pub(crate) fn stage_parts<E: LogEngine>(
    engine: &mut E,
    seen: &Head,
    bytes: &[u8],
) -> Result<usize, Ownership>
    ensures room { IfOk result (λ count. count * PART_LENGTH ≤ length bytes.now) }
    ensures staged { IfOk result (λ count. HasStaged count (take (count * PART_LENGTH) bytes.now) (E.log engine.old)
        (E.log engine.new)) }
    ensures kept { OnErr result (KeepsHead seen.now (E.log engine.old) (E.log engine.new)) }
    ensures stops { IfErr result StopsOwner }
{
    let count = bytes.len() / PART_LENGTH;
    for part in 0..count {
        let from = part * PART_LENGTH;
        match stage_repeatedly(engine, seen, part as u64, &bytes[from..from + PART_LENGTH]) {
            Ok(()) => {}
            Err(ownership) => return Err(ownership),
        }
    }
    Ok(count)
}
