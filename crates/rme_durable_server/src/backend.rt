//! The durable server as a backend of sessions.

ghost use Rattle.std.specs.Prelude.{◌≡◌, [], IfErr, OnOk, string_bytes, Ok};
ghost use Rattle.rme_durable_server.specs.DurableOrders.{client_terms};
ghost use Rattle.rme_durable_server.specs.DurableAnswers.{DurableLineReply, ask_order};
ghost use Rattle.rme_line_io.specs.BufferedWrites.{BufferedWrite};
ghost use Rattle.rme_line_io.specs.StreamEvents.{LastWriteFailed, WritesMade};
ghost use Rattle.rme_session_loop.specs.SessionAnswers.{AnswerFailure};

use crate::durable_server::DurableServer;
use crate::session::{DurableSession, ServerTag};
use crate::worker_choice::Chosen;
use rme_durable_log::LogStore;
use rme_durable_lookups::{SessionLookup, parse_lookup};
use rme_session_loop::{
    AnswerError, AttemptError, Backend, Buffers, Client, CloseHandle, OrderRequest, OrderRun,
};
use rme_session_protocol::{ChoiceRequest, ClientReply, SERVICE_NUMBERS, SessionReply};
use rme_wire::{Names, Sink};
use rme_words::Refusal;
use std::alloc::Global;
use std::sync::Wait;
use std::time::Clock;

/// A line is executed as an order of a session, or answered as a look-up. It is answered once all log lines that the
/// answer depends on are durable. A session whose lines can't be logged ends without an answer, and with it the server.
impl<L: LogStore, H: CloseHandle, J: ServerTag> Backend for DurableServer<L, H, J> {
    ghost use Rattle.std.specs.Prelude.{⊤, IfSome, None};
    ghost use Rattle.rme_durable_server.specs.DurableOrders.{client_terms};
    ghost use Rattle.rme_durable_server.specs.DurableAnswers.{DurableLineAnswer, IsSessionEndDurable, session_worker};

    /// `None` before its first line.
    type Stand = Option<DurableSession<L, J>>;

    type Handle = H;

    ghost fits = { λ _. ⊤ };

    ghost may_hold = { λ _ _. ⊤ };

    ghost nobody = { λ _. None };

    ghost ends = { λ _ stand. IfSome stand (IsSessionEndDurable L.shared L.holds J.opening) };

    ghost attached = { λ _ stand. session_worker stand };

    ghost answers = { λ kept _. DurableLineAnswer L.holds (client_terms kept.clients L.shared J.opening) };

    fn alloc(&self) -> Global {
        self.alloc
    }

    fn names(&self) -> &Names {
        &self.names
    }

    /// Once some event could not be logged.
    fn is_over<R: Wait>(&self, _rt: &R) -> bool {
        self.is_failed()
    }

    fn begin_session(&self) -> Option<DurableSession<L, J>> {
        None
    }

    fn is_finished(&self, _stand: &Option<DurableSession<L, J>>) -> bool {
        false
    }

    fn attached_worker(&self, stand: &Option<DurableSession<L, J>>) -> Option<u32> {
        match stand {
            Some(session) => session.state.worker,
            None => None,
        }
    }

    fn answer<R: Wait + Clock, O: Sink, C: Client<Handle = H>>(
        &self,
        rt: &R,
        stand: Option<DurableSession<L, J>>,
        buffers: &mut Buffers,
        writer: &mut O,
        client: &C,
    ) -> (Option<DurableSession<L, J>>, Result<(), AnswerError>) {
        let Some(session) = self.session_or_new(rt, stand) else {
            return (None, Err(AnswerError::NotLogged));
        };
        let order = match buffers.parse_order(&self.names, SERVICE_NUMBERS) {
            Ok(Ok(order)) => order,
            Ok(Err(why)) => {
                let (session, answered) = self.answer_non_order(rt, session, why, buffers, client);
                return (Some(session), answered);
            }
            Err(_) => return (Some(session), Err(AnswerError::NoMemory)),
        };
        let run = OrderRun {
            backend: self,
            request: OrderRequest { client, order },
        };
        let (session, answered) = answer_order(rt, session, &run, buffers, writer);
        (Some(session), answered)
    }

    fn end_session<R: Wait + Clock, C: Client<Handle = H>>(
        &self,
        rt: &R,
        stand: Option<DurableSession<L, J>>,
        client: &C,
    ) -> Result<(), AttemptError> {
        let Some(session) = stand else {
            return Ok(());
        };
        match self.detach_session(rt, session, client) {
            Ok(()) => Ok(()),
            Err(_) => Err(AttemptError::NotLogged),
        }
    }
}

impl<L: LogStore, H: CloseHandle, J: ServerTag> DurableServer<L, H, J> {
    ghost use Rattle.std.specs.Prelude.{◌≡◌, ◌≢◌, IfErr, IfOk, IfSome, None, OnOk, string_bytes, Err};
    ghost use Rattle.rme_durable_server.specs.DurableOrders.{client_terms};
    ghost use Rattle.rme_durable_server.specs.DurableChoices.{DurableChoice};
    ghost use Rattle.rme_durable_server.specs.DurableAnswers.{DurableLineReply, DurableLookup, IsSessionBegun, ask_if_bad};
    ghost use Rattle.rme_durable_lookups.specs.Lookups.{lookup_of_bytes};
    ghost use Rattle.rme_durable_log.specs.Logs.{IsCommitted};
    ghost use Rattle.rme_session_protocol.specs.SessionLines.{choice_reply_line, session_reply_line};
    ghost use Rattle.rme_session_protocol.specs.WorkerChoices.{choice_of_bytes};
    ghost use Rattle.rme_words.specs.declared.refusal.Refusal.TheVariants.{BadLine};
    ghost use Rattle.rme_session_protocol.specs.ClientReplies.{reply_of_client};

    /// Answers the reply to an order of a session, once everything before the session's position is durable.
    fn answer_committed<R: Wait + Clock>(
        &self,
        rt: &R,
        session: &DurableSession<L, J>,
        reply: ClientReply,
        buffers: &mut Buffers,
    ) -> Result<(), AnswerError>
        ensures says { OnOk result (string_bytes buffers.new.text ≡ session_reply_line self.now.names
            (reply_of_client reply)) }
        ensures kept { OnOk result (IsCommitted L.shared L.holds session.now.log) }
        ensures same { buffers.new.exchange ≡ buffers.old.exchange }
        ensures err { IfErr result (λ why. why ≢ AnswerError.WriteFailed) }
    {
        match self.commit(rt, &session.end) {
            Ok(()) => buffers.write_client_reply(&self.names, reply),
            Err(_) => Err(AnswerError::NotLogged),
        }
    }

    /// Answers a line that is no order: its look-up, its choice of a worker, or why it is refused.
    fn answer_non_order<R: Wait + Clock, C: Client<Handle = H>>(
        &self,
        rt: &R,
        session: DurableSession<L, J>,
        why: Refusal,
        buffers: &mut Buffers,
        client: &C,
    ) -> (DurableSession<L, J>, Result<(), AnswerError>)
        ensures answers { OnOk result.1 (DurableLineReply L.holds (client_terms self.now.clients L.shared J.opening) session
            (ask_if_bad why (lookup_of_bytes self.now.names buffers.old.exchange.line.items)
            (choice_of_bytes buffers.old.exchange.line.items)) (string_bytes buffers.new.text) result.0) }
        ensures same { buffers.new.exchange ≡ buffers.old.exchange }
        ensures err { IfErr result.1 (λ why. why ≢ AnswerError.WriteFailed) }
    {
        let refused = SessionReply::Refused(why);
        if why != Refusal::BadLine {
            return (session, buffers.write_reply(&self.names, refused));
        }
        match parse_lookup(self.alloc, &self.names, buffers.exchange.line()) {
            Ok(Some(look)) => self.answer_lookup(rt, session, look, &mut buffers.text),
            Ok(None) => self.answer_choice_or_bad(rt, session, buffers, client),
            Err(_) => (session, Err(AnswerError::NoMemory)),
        }
    }

    /// Answers a line that is neither an order nor a look-up: its choice of a worker, or that it is a bad line.
    fn answer_choice_or_bad<R: Wait + Clock, C: Client<Handle = H>>(
        &self,
        rt: &R,
        session: DurableSession<L, J>,
        buffers: &mut Buffers,
        client: &C,
    ) -> (DurableSession<L, J>, Result<(), AnswerError>)
        ensures answers { OnOk result.1 (DurableLineReply L.holds (client_terms self.now.clients L.shared J.opening) session
            (ask_if_bad BadLine None (choice_of_bytes buffers.old.exchange.line.items))
            (string_bytes buffers.new.text) result.0) }
        ensures same { buffers.new.exchange ≡ buffers.old.exchange }
        ensures err { IfErr result.1 (λ why. why ≢ AnswerError.WriteFailed) }
    {
        match buffers.parse_worker_choice() {
            Ok(Some(asked)) => self.answer_choice(rt, session, asked, buffers, client),
            Ok(None) => {
                let refused = SessionReply::Refused(Refusal::BadLine);
                (session, buffers.write_reply(&self.names, refused))
            }
            Err(_) => (session, Err(AnswerError::NoMemory)),
        }
    }

    /// Attaches the session to a worker of the server's choice, and answers which, once its lines are durable; or why it
    /// gets none.
    fn answer_choice<R: Wait + Clock, C: Client<Handle = H>>(
        &self,
        rt: &R,
        session: DurableSession<L, J>,
        asked: ChoiceRequest,
        buffers: &mut Buffers,
        client: &C,
    ) -> (DurableSession<L, J>, Result<(), AnswerError>)
        ensures answers { OnOk result.1 (DurableChoice L.holds (client_terms self.now.clients L.shared J.opening) session
            asked (string_bytes buffers.new.text) result.0) }
        ensures same { buffers.new.exchange ≡ buffers.old.exchange }
        ensures err { IfErr result.1 (λ why. why ≢ AnswerError.WriteFailed) }
    {
        let (session, found) = self.attach_any(rt, session, &asked, client);
        let told = match found {
            Ok(Chosen::Worker(worker, reply)) => {
                self.answer_chosen(rt, &session, worker, reply, buffers)
            }
            Ok(Chosen::Refused(why)) => {
                self.answer_committed(rt, &session, ClientReply::Refused(why), buffers)
            }
            Err(why) => Err(why),
        };
        (session, told)
    }

    /// Answers which worker the session has, and the reply to its attachment, once everything before the session's
    /// position is durable.
    fn answer_chosen<R: Wait + Clock>(
        &self,
        rt: &R,
        session: &DurableSession<L, J>,
        worker: u32,
        reply: ClientReply,
        buffers: &mut Buffers,
    ) -> Result<(), AnswerError>
        ensures says { OnOk result (string_bytes buffers.new.text ≡ choice_reply_line self.now.names worker
            (reply_of_client reply)) }
        ensures kept { OnOk result (IsCommitted L.shared L.holds session.now.log) }
        ensures same { buffers.new.exchange ≡ buffers.old.exchange }
        ensures err { IfErr result (λ why. why ≢ AnswerError.WriteFailed) }
    {
        let Ok(()) = self.commit(rt, &session.end) else {
            return Err(AnswerError::NotLogged);
        };
        buffers.write_choice_reply(&self.names, worker, reply)
    }

    /// Answers a look-up, once all log lines that its answer depends on are durable.
    fn answer_lookup<R: Wait + Clock>(
        &self,
        rt: &R,
        session: DurableSession<L, J>,
        look: SessionLookup,
        text: &mut String,
    ) -> (DurableSession<L, J>, Result<(), AnswerError>)
        ensures answers { OnOk result.1 (DurableLookup L.holds (client_terms self.now.clients L.shared J.opening) session look (string_bytes text.new)
            result.0) }
        ensures err { IfErr result.1 (λ why. why ≢ AnswerError.WriteFailed) }
    {
        let end = match self.write_lookup(rt, look, &session, text) {
            Ok(Some(end)) => end,
            Ok(None) => return (session, Err(AnswerError::NotLogged)),
            Err(_) => return (session, Err(AnswerError::NoMemory)),
        };
        match self.commit(rt, &end) {
            Ok(()) => (session.moved_to(end), Ok(())),
            Err(_) => (session, Err(AnswerError::NotLogged)),
        }
    }

    /// The session, or a new one without a worker before the first line; `None` once an event could not be logged, or if
    /// memory was refused.
    fn session_or_new<R: Wait>(
        &self,
        rt: &R,
        stand: Option<DurableSession<L, J>>,
    ) -> Option<DurableSession<L, J>>
        ensures { IfSome result (λ session. IsSessionBegun stand session) }
    {
        match stand {
            Some(session) => Some(session),
            None => self.begin_durable_session(rt),
        }
    }
}

/// Executes an order, and answers it once its lines are durable. If its job waits for its lock, all buffered answers
/// are written before it is tried again, so that no client waits for an answer that is ready.
fn answer_order<
    L: LogStore,
    H: CloseHandle,
    J: ServerTag,
    R: Wait + Clock,
    O: Sink,
    C: Client<Handle = H>,
>(
    rt: &R,
    session: DurableSession<L, J>,
    run: &OrderRun<'_, DurableServer<L, H, J>, C>,
    buffers: &mut Buffers,
    writer: &mut O,
) -> (DurableSession<L, J>, Result<(), AnswerError>)
    ensures answers { OnOk result.1 (DurableLineReply L.holds (client_terms run.now.backend.now.clients L.shared J.opening)
        session (ask_order run.now.request.order) (string_bytes buffers.new.text) result.0) }
    ensures gathers { OnOk result.1 (BufferedWrite (O.contents writer.old) buffers.old.exchange.pending []
        (O.contents writer.new) buffers.new.exchange.pending) }
    ensures err { IfErr result.1 (λ why. AnswerFailure why (O.contents writer.old) buffers.old.exchange.pending
        (O.contents writer.new) buffers.new.exchange.pending) }
    ensures writes { WritesMade (O.took writer.old) (O.took writer.new) }
    ensures broke { IfErr result.1 (λ why. why ≡ AnswerError.WriteFailed
        → LastWriteFailed (O.took writer.old) (O.took writer.new)) }
{
    let server = run.backend;
    if server.asks_checkpoint_worker(&run.request.order) {
        let refused = SessionReply::Refused(Refusal::NoWorker);
        return (session, buffers.write_reply(&server.names, refused));
    }
    let (session, replied) = run.execute(rt, session, &mut buffers.exchange, writer);
    match replied {
        Ok(answered) => {
            let told = server.answer_committed(rt, &session, answered.reply, buffers);
            (session, told)
        }
        Err(why) => (session, Err(why)),
    }
}
