//! The attempts at an order of a session of the durable server.

ghost use Rattle.std.specs.Prelude.{◌≡◌};
ghost use Rattle.rme_session_protocol.specs.Attempts.{merged_reply};
ghost use Rattle.rme_session_protocol.specs.ClientReplies.{reply_of_client};

use crate::durable_server::DurableServer;
use crate::session::{DurableSession, ServerTag};
use rme_durable_epochs::{ApplyError, ClientAnswer};
use rme_durable_log::LogStore;
use rme_program::Ascent;
use rme_session_loop::{
    AttemptError, Client, CloseHandle, FirstReply, OrderAttempts, OrderRequest, SessionRegistry,
};
use rme_session_protocol::{
    ClientReply, Order, is_client_waiting, merge_client_replies, retry_order,
};
use rme_words::Refusal;
use std::sync::Wait;
use std::time::Clock;

/// Each attempt is one try; between two tries a checkpoint may begin a new epoch. The lines of a reply are appended to
/// the log, and perhaps not durable yet.
impl<L: LogStore, H: CloseHandle, J: ServerTag> OrderAttempts for DurableServer<L, H, J> {
    ghost use Rattle.std.specs.Prelude.{⊤};
    ghost use Rattle.rme_durable_server.specs.DurableOrders.{DurableTries};
    ghost use Rattle.rme_session_protocol.specs.ClientReplies.{reply_of_client};

    type Session = DurableSession<L, J>;

    type Reply = ClientAnswer;

    type Handle = H;

    ghost is_usable = { λ _. ⊤ };

    ghost may_have = { λ _ _. ⊤ };

    ghost says = { λ reply. reply_of_client reply.reply };

    ghost executes = { λ _ tries old its now reply. DurableTries J.opening tries old its now
        (reply_of_client reply.reply) };

    fn registry(&self) -> &SessionRegistry<H> {
        &self.registry
    }

    fn is_waiting(&self, reply: &ClientAnswer) -> bool {
        is_client_waiting(reply.reply)
    }

    fn is_taken(&self, reply: &ClientAnswer) -> bool {
        reply.reply == ClientReply::Refused(Refusal::Taken)
    }

    fn waits_at(&self, _session: &DurableSession<L, J>, reply: &ClientAnswer) -> Option<Ascent> {
        reply.waits_at
    }

    fn begin<R: Wait + Clock, C: Client<Handle = H>>(
        &self,
        rt: &R,
        session: DurableSession<L, J>,
        request: &OrderRequest<'_, C>,
        _is_hurried: bool,
    ) -> (
        DurableSession<L, J>,
        Result<FirstReply<ClientAnswer>, AttemptError>,
    ) {
        let mut session = session;
        match self.execute_or_fail(rt, &mut session, &request.order, request.client) {
            Ok(reply) => (session, Ok(FirstReply { reply, tries: 1 })),
            Err(why) => (session, Err(why)),
        }
    }

    fn retry<R: Wait + Clock, C: Client<Handle = H>>(
        &self,
        rt: &R,
        session: DurableSession<L, J>,
        request: &OrderRequest<'_, C>,
        reply: ClientAnswer,
    ) -> (DurableSession<L, J>, Result<ClientAnswer, AttemptError>) {
        let mut session = session;
        let order = retry_order(request.order);
        match self.execute_or_fail(rt, &mut session, &order, request.client) {
            Ok(last) => (session, Ok(merge_answers(reply, last))),
            Err(why) => (session, Err(why)),
        }
    }
}

impl<L: LogStore, H: CloseHandle, J: ServerTag> DurableServer<L, H, J> {
    ghost use Rattle.std.specs.Prelude.{IfOk};
    ghost use Rattle.rme_durable_server.specs.DurableOrders.{DurableAttempt};
    ghost use Rattle.rme_session_protocol.specs.ClientReplies.{reply_of_client};

    /// Executes an order with one try. If its lines can't be logged the server fails: it executes no more orders, so
    /// that no session waits in vain.
    fn execute_or_fail<R: Wait + Clock, C: Client<Handle = H>>(
        &self,
        rt: &R,
        session: &mut DurableSession<L, J>,
        order: &Order,
        client: &C,
    ) -> Result<ClientAnswer, AttemptError>
        ensures { IfOk result (λ executed. DurableAttempt J.opening session.old order.now session.new
            (reply_of_client executed.reply)) }
    {
        if self.is_failed() {
            return Err(AttemptError::NotLogged);
        }
        match self.execute_once(rt, session, order, client) {
            Ok(executed) => Ok(executed),
            Err(ApplyError::NoMemory) => Err(AttemptError::NoMemory),
            Err(ApplyError::NotLogged) => {
                self.fail(rt);
                Err(AttemptError::NotLogged)
            }
        }
    }
}

/// The reply to an order, from the reply to its earlier tries and that to its last try.
fn merge_answers(first: ClientAnswer, last: ClientAnswer) -> ClientAnswer
    ensures { reply_of_client result.reply ≡ merged_reply (reply_of_client first.reply) (reply_of_client last.reply) }
{
    ClientAnswer {
        reply: merge_client_replies(first.reply, last.reply),
        ..last
    }
}
