//! Opening a state that was recovered.

ghost use Rattle.std.specs.Prelude.{◌≡◌, [], IfOk, true};

use crate::requested_state::Growth;
use rme_cli_messages::CliFault;
use rme_durable_file::{OpenedState, RecoveredFile, StateStorage};

/// Opens a state that was recovered, and lets it grow, which it reports on the standard error.
pub fn open_grown<'a, F: StateStorage>(
    rt: &HostRuntime,
    found: RecoveredFile<'a, F>,
    growth: Option<Growth>,
) -> Result<OpenedState<'a, F>, CliFault>
    ensures barriers { IfOk result (λ state. state.file.barriers ≡ 0) }
    ensures works { IfOk result (λ state. state.file.works ≡ true) }
    ensures lines { IfOk result (λ state. state.executor.lines ≡ []) }
{
    let opened = found.open(rt)?;
    let Some(Growth { names, shape }) = growth else {
        return Ok(opened);
    };
    let grown = opened.grow(rt, names, shape)?;
    let workers = shape.workers().saturating_sub(1);
    let (locks, cells) = (shape.locks(), shape.cells());
    let _ = eprintln!(rt;
        "rme: the state grew: workers {workers}, locks {locks}, cells of each lock {cells}"
    );
    Ok(grown)
}
