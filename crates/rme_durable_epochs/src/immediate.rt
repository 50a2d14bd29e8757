//! The replies that need no event: the outcome of a session's last number.

ghost use Rattle.std.specs.Prelude.{◌≡◌, IsTrue, Some, option_map};
ghost use Rattle.rme_durable_epochs.specs.ClientSessions.{ready_of_client, session_of_client};
ghost use Rattle.rme_durable_epochs.specs.ImmediateReplies as spec;
ghost use Rattle.rme_session_protocol.specs.SessionSteps.{last_outcome};
ghost use Rattle.rme_session_protocol.specs.ClientReplies.{outcome_of_client, reply_of_client};
ghost use Rattle.rme_line_text.specs.ClientReceipts.{as_receipt};

use crate::client_session::{ClientReady, ClientSession};
use rme_line_text::ClientReceipt;
use rme_session_protocol::{ClientOutcome, ClientReply, Order, Submission};

/// The reply to a session that its client sees so; `None` if the order asks for more than the outcome of the last
/// number.
pub(crate) fn immediate_reply(session: &ClientSession, order: &Order) -> Option<ClientReply>
    ensures { option_map reply_of_client result ≡ spec.immediate_reply (session_of_client session.now) order.now }
{
    let ClientSession::Ready(ready) = session else {
        return None;
    };
    match order {
        Order::Last => Some(ClientReply::Last(ready.last)),
        Order::Submit(its) if is_repeat_submission(ready, its) => {
            Some(ClientReply::Submitted(last_client_outcome(ready.last)))
        }
        Order::Enter(its) if is_repeat_submission(ready, its) => {
            Some(ClientReply::Entered(last_client_outcome(ready.last)))
        }
        _ => None,
    }
}

/// Whether a submission repeats the last number.
fn is_repeat_submission(ready: &ClientReady, its: &Submission) -> bool
    ensures { result ≡ spec.is_repeat_submission (ready_of_client ready.now) its.now }
{
    its.number > 0 && its.number == ready.number
}

/// The outcome of the last number, as an answer.
fn last_client_outcome(last: Option<ClientReceipt>) -> ClientOutcome
    ensures { outcome_of_client result ≡ last_outcome (option_map as_receipt last) }
{
    match last {
        Some(receipt) => ClientOutcome::Receipt(receipt),
        None => ClientOutcome::Withdrawn,
    }
}
