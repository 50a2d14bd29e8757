//! Sessions that attach a worker of the server's choice.

ghost use Rattle.std.specs.Prelude.{IfErr};
ghost use Rattle.rme_durable_server.specs.DurableChoices.{IsWhyNoneChosen};

use crate::durable_executor::DurableReply;
use crate::durable_server::DurableServer;
use crate::session::{DurableSession, ServerTag};
use rme_durable_epochs::ApplyError;
use rme_durable_log::{LogPosition, LogStore, lock_with_spin};
use rme_session_loop::{AnswerError, Client, CloseHandle};
use rme_session_protocol::{Attachment, ChoiceRequest, ClientReply, Order, Session, WorkerChoice};
use rme_session_world::{Executor, SessionState};
use rme_words::Refusal;
use std::sync::Wait;
use std::time::Clock;

/// What a session gets if the server chooses its worker.
#[derive(Clone, Copy)]
pub(crate) enum Chosen {
    /// This worker, with this reply to its attachment.
    Worker(u32, ClientReply),
    /// No worker: the session has one, or no worker without a session fits the choice.
    Refused(Refusal),
}

/// Why a session gets no worker, and the end of the log then.
type NoChoice<L, J> = (Refusal, LogPosition<L, J>);

impl<L: LogStore, H: CloseHandle, J: ServerTag> DurableServer<L, H, J> {
    ghost use Rattle.std.specs.Prelude.{◌≢◌, IfErr, IfOk, IfSome};
    ghost use Rattle.rme_durable_server.specs.DurableOrders.{client_terms};
    ghost use Rattle.rme_durable_server.specs.DurableChoices.{AttachesChosen, ChoiceIsRefused, DurableChoiceOutcome};
    ghost use Rattle.rme_durable_server.specs.ServerHistories.{session_moment};
    ghost use Rattle.rme_session_protocol.specs.ClientReplies.{reply_of_client};

    /// Attaches a session to the lowest worker that fits the choice, or answers why it gets none. The session moves to
    /// that moment of the log.
    pub(crate) fn attach_any<R: Wait + Clock, C: Client<Handle = H>>(
        &self,
        rt: &R,
        session: DurableSession<L, J>,
        asked: &ChoiceRequest,
        client: &C,
    ) -> (DurableSession<L, J>, Result<Chosen, AnswerError>)
        ensures outcome { IfOk result.1 (λ chosen. DurableChoiceOutcome (client_terms self.now.clients L.shared J.opening)
            session asked.now chosen result.0) }
        ensures err { IfErr result.1 (λ why. why ≢ AnswerError.WriteFailed) }
    {
        // Another session may take the worker between the choice and the attachment; then the server chooses again.
        for _ in rt.forever() {
            let worker = match self.choose(rt, &session, asked.choice) {
                Some(Ok(worker)) => worker,
                Some(Err((why, end))) => {
                    return (session.moved_to(end), Ok(Chosen::Refused(why)));
                }
                None => return (session, Err(AnswerError::NotLogged)),
            };
            match self.attach_if_chosen(rt, &session, asked, worker, client) {
                Ok(Some(done)) => {
                    let mut session = session;
                    let answered = session.advance(done);
                    return (session, Ok(Chosen::Worker(worker, answered.reply)));
                }
                Ok(None) => {}
                Err(ApplyError::NoMemory) => return (session, Err(AnswerError::NoMemory)),
                Err(ApplyError::NotLogged) => {
                    self.fail(rt);
                    return (session, Err(AnswerError::NotLogged));
                }
            }
        }
        unreachable!()
    }

    /// The worker that the choice takes now, or why the session gets none; `None` once an event could not be logged.
    fn choose<R: Wait>(
        &self,
        rt: &R,
        session: &DurableSession<L, J>,
        choice: WorkerChoice,
    ) -> Option<Result<u32, NoChoice<L, J>>>
        ensures { IfSome result (λ found. IfErr found (λ none. ChoiceIsRefused (client_terms self.now.clients L.shared J.opening)
            session.now choice none.0 (session_moment session.now.session none.1))) }
    {
        let durable = lock_with_spin(rt, &self.executor);
        let executor = durable.executor().executor();
        let why = match choose_for(executor, &session.state, choice, self.clients) {
            Ok(worker) => return Some(Ok(worker)),
            Err(why) => why,
        };
        let end = durable.position_after(session)?;
        Some(Err((why, end)))
    }

    /// Attaches a session to this worker with its claim locked, if the worker fits the choice now, and updates the
    /// claim.
    fn attach_if_chosen<R: Wait + Clock, C: Client<Handle = H>>(
        &self,
        rt: &R,
        session: &DurableSession<L, J>,
        asked: &ChoiceRequest,
        worker: u32,
        client: &C,
    ) -> Result<Option<DurableReply<L, J>>, ApplyError>
        ensures { IfOk result (λ tried. IfSome tried (λ done. AttachesChosen J.opening self.now.clients session.now
            asked.now worker (session_moment done.state done.end) (reply_of_client done.answered.reply))) }
    {
        let claim = self.registry.claim_worker(rt, Some(worker));
        let tried = self.attach_and_commit(rt, session, asked, worker);
        let has = match &tried {
            Ok(Some(done)) => done.state.worker.is_some(),
            _ => false,
        };
        if let Some(claim) = claim {
            claim.update(client, false, has);
        }
        if let Ok(Some(done)) = &tried {
            self.registry.notify_reply(rt, done.answered.reply);
        }
        tried
    }

    /// Attaches a session to this worker, if the worker fits the choice now. Its lines are committed at once, if that is
    /// quick.
    fn attach_and_commit<R: Wait + Clock>(
        &self,
        rt: &R,
        session: &DurableSession<L, J>,
        asked: &ChoiceRequest,
        worker: u32,
    ) -> Result<Option<DurableReply<L, J>>, ApplyError>
        ensures { IfOk result (λ tried. IfSome tried (λ done. AttachesChosen J.opening self.now.clients session.now
            asked.now worker (session_moment done.state done.end) (reply_of_client done.answered.reply))) }
    {
        let mut durable = lock_with_spin(rt, &self.executor);
        let executor = durable.executor().executor();
        let Some(chosen) = executor.choose_worker(asked.choice, self.clients) else {
            return Ok(None);
        };
        if chosen != worker {
            return Ok(None);
        }
        let order = Order::Attach(Attachment {
            worker,
            take: false,
            after: None,
            label: asked.label,
        });
        let acted = durable.execute_noted(rt, &self.names, session, &order);
        self.observe(&durable);
        match acted {
            Ok(done) => {
                let write = self.commits.begin_quick_write(rt, &mut *durable, &done.end);
                drop(durable);
                self.end_write(rt, write);
                Ok(Some(done))
            }
            Err(why) => Err(why),
        }
    }
}

/// The lowest of the first `clients` workers that fits the choice, or why a session in this state gets none.
fn choose_for(
    executor: &Executor,
    state: &SessionState,
    choice: WorkerChoice,
    clients: u32,
) -> Result<u32, Refusal>
    ensures none { IfErr result (IsWhyNoneChosen clients executor.now state.now choice) }
{
    match executor.session(state) {
        Session::Nobody => match executor.choose_worker(choice, clients) {
            Some(worker) => Ok(worker),
            None => Err(Refusal::Taken),
        },
        _ => Err(Refusal::Busy),
    }
}
