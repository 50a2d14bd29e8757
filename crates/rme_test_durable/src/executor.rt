//! What the executor of a durable server does from one order to the next.

ghost use Rattle.std.specs.Prelude.{◌≡◌, IfErr, true};
ghost use Rattle.rme_durable_epochs.specs.declared.apply_error.ApplyError.TheVariants as error;

use rme_durable_epochs::{ApplyError, ClientAnswer, EpochExecutor};
use rme_session_protocol::Order;
use rme_session_world::SessionState;
use rme_wire::Names;

/// Orders once, and once more if the order could not be logged: the executor stays failed.
pub fn order_again(
    executor: &mut EpochExecutor,
    names: &Names,
    session: &mut SessionState,
    order: &Order,
) -> Result<ClientAnswer, ApplyError>
    ensures failed { IfErr result (λ why. why ≡ error.NotLogged → executor.new.failed ≡ true) }
{
    let answered = executor.execute(names, session, order);
    if let Err(ApplyError::NotLogged) = &answered {
        let _again = executor.execute(names, session, order);
    }
    answered
}
