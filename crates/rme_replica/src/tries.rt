//! Calls whose answer may be lost, tried again.

ghost use Rattle.std.specs.Prelude.{◌≡◌, IfErr, IfOk, OnErr, OnOk, IsTrue};
ghost use Rattle.rme_replica.specs.EngineLogs.{HasHead, HasPartsBefore, IsNextHead, KeepsHead, MakesAdd, StagesPart};
ghost use Rattle.rme_replica.specs.Ownerships.{StopsOwner};

use crate::engine::{Added, LogEngine, Lost};
use crate::head::Head;
use crate::ownership::Ownership;

/// How many times a call is tried whose answer is lost.
pub const TRIES: u32 = 8;

/// What is asked about the head of a log.
#[derive(Clone, Copy, Debug, PartialEq, Eq)]
pub(crate) enum Ask {
    /// Whether the log has it.
    Is,
    /// The same, and those who wait are told that its writer still runs.
    Beat,
}

/// Adds these lines, with the same bytes at each try. At most one of the tries is made, since each add changes the
/// head; so a try that finds the next head tells that an earlier one was made.
pub(crate) fn add_repeatedly<E: LogEngine>(
    engine: &mut E,
    seen: &Head,
    next: &Head,
    lines: &[u8],
) -> Result<(), Ownership>
    requires has { HasHead (E.log engine.old) seen.now }
    requires next { IsNextHead seen.now next.now }
    ensures made { OnOk result (MakesAdd seen.now next.now lines.now (E.log engine.old) (E.log engine.new)) }
    ensures kept { OnErr result (KeepsHead seen.now (E.log engine.old) (E.log engine.new)) }
    ensures stops { IfErr result StopsOwner }
{
    for _ in 0..TRIES {
        match engine.add(seen, next, lines) {
            Ok(Added::Made) => return Ok(()),
            Ok(Added::Moved(found)) => {
                if found.is_same(next) {
                    return Ok(());
                }
                return Err(Ownership::Fenced);
            }
            Err(_) => {}
        }
    }
    Err(Ownership::Unreachable)
}

/// Stages a part, with the same bytes at each try.
pub(crate) fn stage_repeatedly<E: LogEngine>(
    engine: &mut E,
    seen: &Head,
    part: u64,
    bytes: &[u8],
) -> Result<(), Ownership>
    requires before { HasPartsBefore seen.now part (E.log engine.old) }
    ensures made { OnOk result (StagesPart seen.now part bytes.now (E.log engine.old) (E.log engine.new)) }
    ensures kept { OnErr result (KeepsHead seen.now (E.log engine.old) (E.log engine.new)) }
    ensures stops { IfErr result StopsOwner }
{
    for _ in 0..TRIES {
        match engine.stage(seen, part, bytes) {
            Ok(Added::Made) => return Ok(()),
            Ok(Added::Moved(_)) => return Err(Ownership::Fenced),
            Err(_) => {}
        }
    }
    Err(Ownership::Unreachable)
}

/// Asks whether the log has this head.
pub(crate) fn ask_repeatedly<E: LogEngine>(
    engine: &mut E,
    seen: &Head,
    ask: Ask,
) -> Result<(), Ownership>
    ensures has { OnOk result (HasHead (E.log engine.new) seen.now) }
    ensures kept { KeepsHead seen.now (E.log engine.old) (E.log engine.new) }
    ensures stops { IfErr result StopsOwner }
{
    for _ in 0..TRIES {
        match ask_once(engine, seen, ask) {
            Ok(true) => return Ok(()),
            Ok(false) => return Err(Ownership::Fenced),
            Err(_) => {}
        }
    }
    Err(Ownership::Unreachable)
}

/// Asks once.
fn ask_once<E: LogEngine>(engine: &mut E, seen: &Head, ask: Ask) -> Result<bool, Lost>
    ensures has { IfOk result (λ is. IsTrue is → HasHead (E.log engine.new) seen.now) }
    ensures kept { KeepsHead seen.now (E.log engine.old) (E.log engine.new) }
{
    match ask {
        Ask::Is => engine.is(seen),
        Ask::Beat => engine.beat(seen),
    }
}
