//! Executing an order in parts.
//!
//! A server that can do other work between two tries executes an order with only its first tries, and continues with
//! one more at a time. Together they are the order (`proofs/Trying.antt`).

ghost use Rattle.std.specs.Prelude.{◌≡◌};
ghost use Rattle.rme_session_protocol.specs.Attempts as spec;
ghost use Rattle.rme_session_protocol.specs.ClientReplies.{reply_of_client};

use crate::client_reply::{ClientOutcome, ClientReply};
use crate::order::{Order, Patience};
use crate::reply::{JobOutcome, SessionReply};

/// The patience of an order; `None` if it does not wait.
pub fn order_patience(order: &Order) -> Option<Patience>
    ensures { result ≡ spec.order_patience order.now }
{
    match order {
        Order::Submit(submission) | Order::Enter(submission) => Some(submission.patience),
        Order::Resume(patience) => Some(*patience),
        _ => None,
    }
}

/// The same order with this number of tries in place of its own; an order that does not wait is unchanged.
pub fn with_tries(order: &Order, tries: u32) -> Order
    ensures { result ≡ spec.with_tries tries order.now }
{
    let mut same = *order;
    match &mut same {
        Order::Submit(submission) => submission.patience = Patience::Tries(tries),
        Order::Enter(submission) => submission.patience = Patience::Tries(tries),
        Order::Resume(patience) => *patience = Patience::Tries(tries),
        _ => {}
    }
    same
}

/// One more try for the job of an order, which waits.
pub fn retry_order(order: Order) -> Order
    ensures { result ≡ spec.retry_order order }
{
    match order {
        Order::Submit(_) => Order::Resume(Patience::Tries(1)),
        other => with_tries(&other, 1),
    }
}

/// Whether the job still waits for its lock.
pub fn is_still_waiting(reply: SessionReply) -> bool
    ensures { result ≡ spec.is_still_waiting reply }
{
    match reply {
        SessionReply::Submitted(JobOutcome::Waiting)
        | SessionReply::Resumed(JobOutcome::Waiting)
        | SessionReply::Entered(JobOutcome::Waiting) => true,
        _ => false,
    }
}

/// The outcome of a further part, as an answer to the order.
pub fn merge_replies(first: SessionReply, last: SessionReply) -> SessionReply
    ensures { result ≡ spec.merged_reply first last }
{
    match (first, last) {
        (SessionReply::Submitted(_), SessionReply::Resumed(outcome)) => {
            SessionReply::Submitted(outcome)
        }
        (_, last) => last,
    }
}

/// Whether a client's reply is that its job still waits for its lock.
pub fn is_client_waiting(told: ClientReply) -> bool
    ensures { result ≡ spec.is_still_waiting (reply_of_client told) }
{
    match told {
        ClientReply::Submitted(ClientOutcome::Waiting)
        | ClientReply::Resumed(ClientOutcome::Waiting)
        | ClientReply::Entered(ClientOutcome::Waiting) => true,
        _ => false,
    }
}

/// A client's reply to a further part, as an answer to the order.
pub fn merge_client_replies(first: ClientReply, last: ClientReply) -> ClientReply
    ensures { reply_of_client result ≡ spec.merged_reply (reply_of_client first) (reply_of_client last) }
{
    match (first, last) {
        (ClientReply::Submitted(_), ClientReply::Resumed(outcome)) => ClientReply::Submitted(
            outcome,
        ),
        (_, last) => last,
    }
}
