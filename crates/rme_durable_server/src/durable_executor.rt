//! The executor of the durable server: the lines of its event batches are appended to the log.

ghost use Rattle.std.specs.Prelude.{◌≡◌, ◌≤◌, IfSome, OnSome, drop, length};
ghost use Rattle.rme_durable_server.specs.ServerHistories.{AppendsIfAny};

use crate::session::{DurableSession, ServerTag};
use rme_durable_checkpoint::Checkpoint;
use rme_durable_epochs::{ApplyError, ClientAnswer, EpochExecutor};
use rme_durable_log::{
    LogAppender, LogAuthor, LogPosition, LogStore, LogTag, LogWriter, PendingBatch, PendingLines,
};
use rme_durable_lookups::{WorkerNote, WorkerNotes};
use rme_session_protocol::Order;
use rme_session_world::SessionState;
use rme_wire::Names;
use std::alloc::Global;
use std::marker::Model;
use std::time::Clock;

/// The reply to an order, the state of its session afterwards, and the end of the log then.
#[derive(Drop)]
pub(crate) struct DurableReply<L: LogStore, J: LogTag> {
    pub(crate) answered: ClientAnswer,
    pub(crate) state: SessionState,
    pub(crate) end: LogPosition<L, J>,
}

/// An executor, the appender of its lines, and the notes on its workers. In contracts it is the executor.
#[derive(Drop)]
pub(crate) struct DurableExecutor<L: LogStore, J: ServerTag> {
    executor: EpochExecutor,
    /// `None` once an event batch could not be logged. Then no order is executed any more.
    appender: Option<LogAppender<L, J>>,
    notes: WorkerNotes,
}

impl<L: LogStore, J: ServerTag> Model for DurableExecutor<L, J> {
    ghost use Rattle.std.specs.Prelude.{IfSome};
    ghost use Rattle.rme_durable_epochs.specs.EpochStates.{EpochState};
    ghost use Rattle.rme_durable_server.specs.ServerHistories.{IsLogged};

    ghost Value = { EpochState };

    ghost view = { λ executor. executor.executor };

    // The log leads to the state of the executor, whose pending lines are those of the appender.
    ghost invariant = { λ executor. IfSome executor.appender (λ appender. IsLogged J.opening executor.executor
        appender.log appender.waits) };
}

impl<L: LogStore, J: ServerTag> DurableExecutor<L, J> {
    ghost use Rattle.std.specs.Prelude.{◌≡◌, ◌∷◌, [], IfErr, IfOk, IfSome, List, None, false, ℕ, string_bytes};
    ghost use Rattle.rme_durable_log.specs.Logs.{GrowsByOthers};
    ghost use Rattle.rme_durable_log.specs.declared.log_entry.LogEntry.TheVariants.{Whole};
    ghost use Rattle.rme_durable_server.specs.DurableOrders.{AttemptFrom};
    ghost use Rattle.rme_durable_server.specs.DurableAnswers.{IsSessionBegun};
    ghost use Rattle.rme_durable_server.specs.ServerHistories.{BeginsEpoch, LogLeads, SessionEnds, server_state, session_moment};
    ghost use Rattle.rme_session_protocol.specs.ClientReplies.{reply_of_client};

    /// The executor of a server's opening, with a log that begins there, and notes on its workers.
    pub(crate) fn new(
        executor: EpochExecutor,
        appender: LogAppender<L, J>,
        notes: WorkerNotes,
    ) -> DurableExecutor<L, J>
        requires waits { appender.waits ≡ [] }
        requires first { (bytes : List ℕ) × (appender.log ≡ Whole bytes ∷ []) }
        requires lines { executor.lines ≡ [] }
        requires begins { J.opening.begins (server_state executor) }
        ensures { result ≡ executor }
    {
        DurableExecutor {
            executor,
            appender: Some(appender),
            notes,
        }
    }

    /// The executor, for reading.
    pub(crate) fn executor(&self) -> &EpochExecutor
        ensures { result.now ≡ self.now }
    {
        &self.executor
    }

    /// The notes on the workers, by their numbers, as of when their seconds were last counted.
    pub(crate) fn notes(&self) -> &[WorkerNote] {
        self.notes.told()
    }

    /// Counts the seconds of the notes up to now.
    pub(crate) fn count_seconds<R: Clock>(&mut self, rt: &R)
        ensures { self.new ≡ self.old }
    {
        self.notes.count_seconds(rt);
    }

    /// Begins the notes: every worker has its present standing since now.
    pub(crate) fn begin_notes<R: Clock>(&mut self, rt: &R)
        ensures { self.new ≡ self.old }
    {
        self.notes.begin(rt, self.executor.executor().world());
    }

    /// Notes the standing of every worker, after orders of the server itself.
    pub(crate) fn note_standings<R: Clock>(&mut self, rt: &R)
        ensures { self.new ≡ self.old }
    {
        self.notes.see_all(rt, self.executor.executor().world());
    }

    /// Notes the standing of a worker, if there is one.
    pub(crate) fn note_standing<R: Clock>(&mut self, rt: &R, worker: Option<u32>)
        ensures { self.new ≡ self.old }
    {
        if let Some(worker) = worker {
            self.notes.see(rt, self.executor.executor().world(), worker);
        }
    }

    /// Whether an event batch could not be logged: no order is executed any more.
    pub(crate) fn is_failed(&self) -> bool {
        self.executor.is_failed() || self.appender.is_none()
    }

    /// A new session without a worker, at the current end of the log. `None` once an event batch could not be logged,
    /// and if memory was refused or there are no more numbers of sessions.
    pub(crate) fn begin_session(&mut self) -> Option<DurableSession<L, J>>
        ensures begun { IfSome result (λ session. IsSessionBegun None session) }
        ensures same { self.new ≡ self.old }
    {
        let appender = self.appender.take()?;
        let mut appender = appender;
        let session = DurableSession::begin(&mut appender);
        self.appender = Some(appender);
        session
    }

    /// The end of the log; `None` once an event batch could not be logged. Only other sessions have appended since the
    /// position of this session.
    pub(crate) fn position_after(&self, session: &DurableSession<L, J>) -> Option<LogPosition<L, J>>
        ensures leads { IfSome result (λ end. LogLeads J.opening end (server_state self.now)) }
        ensures others { IfSome result (λ end. GrowsByOthers session.now.session.session session.now.log end) }
    {
        match &self.appender {
            Some(appender) => appender.position_after(&session.author, &session.end),
            None => None,
        }
    }

    /// Executes an order of a session with one try, with the numbers that its client sees, and appends the lines of its
    /// event batch.
    ///
    /// After `NoMemory` nothing is changed. After `NotLogged` no order is executed any more.
    pub(crate) fn execute(
        &mut self,
        names: &Names,
        session: &DurableSession<L, J>,
        order: &Order,
    ) -> Result<DurableReply<L, J>, ApplyError>
        requires names { names.now ≡ J.opening.names }
        ensures { IfOk result (λ done. AttemptFrom (server_state self.old) J.opening session.now order.now
            (session_moment done.state done.end) (reply_of_client done.answered.reply)) }
    {
        let Some(appender) = self.appender.take() else {
            return Err(ApplyError::NotLogged);
        };
        let mut appender = appender;
        let Some(_moment) = appender.position_after(&session.author, &session.end) else {
            return Err(ApplyError::NotLogged);
        };
        let before = self.executor.lines().len();
        let mut state = session.state;
        let answered = match self.executor.execute(names, &mut state, order) {
            Ok(answered) => answered,
            Err(ApplyError::NoMemory) => {
                self.appender = Some(appender);
                return Err(ApplyError::NoMemory);
            }
            Err(ApplyError::NotLogged) => return Err(ApplyError::NotLogged),
        };
        let appended = append_new_lines(&mut appender, &session.author, &self.executor, before);
        let Some(end) = appended else {
            return Err(ApplyError::NotLogged);
        };
        self.appender = Some(appender);
        Ok(DurableReply {
            answered,
            state,
            end,
        })
    }

    /// Executes an order of a client's session, and notes the label of an attachment and the standing of the worker that
    /// the order concerns.
    pub(crate) fn execute_noted<R: Clock>(
        &mut self,
        rt: &R,
        names: &Names,
        session: &DurableSession<L, J>,
        order: &Order,
    ) -> Result<DurableReply<L, J>, ApplyError>
        requires names { names.now ≡ J.opening.names }
        ensures { IfOk result (λ done. AttemptFrom (server_state self.old) J.opening session.now order.now
            (session_moment done.state done.end) (reply_of_client done.answered.reply)) }
    {
        let acted = self.execute(names, session, order);
        if let Ok(done) = &acted {
            self.notes.note_reply(order, done.answered.reply);
            self.note_standing(rt, order_worker(&session.state, order));
        }
        acted
    }

    /// Ends a session: its worker, if it has one, crashes, and the lines of the crash are appended. Answers the position
    /// after them. After an error no order is executed any more.
    pub(crate) fn detach_session(
        &mut self,
        names: &Names,
        session: DurableSession<L, J>,
    ) -> Result<LogPosition<L, J>, ApplyError>
        requires names { names.now ≡ J.opening.names }
        ensures { IfOk result (λ end. SessionEnds J.opening session end) }
    {
        let DurableSession { state, author, end } = session;
        let Some(appender) = self.appender.take() else {
            return Err(ApplyError::NotLogged);
        };
        let mut appender = appender;
        let Some(_moment) = appender.position_after(&author, &end) else {
            return Err(ApplyError::NotLogged);
        };
        let before = self.executor.lines().len();
        let mut state = state;
        let Ok(()) = self.executor.detach_session(names, &mut state) else {
            return Err(ApplyError::NotLogged);
        };
        let Some(end) = append_new_lines(&mut appender, &author, &self.executor, before) else {
            return Err(ApplyError::NotLogged);
        };
        appender.end_author(author);
        self.appender = Some(appender);
        Ok(end)
    }

    /// A new epoch, if it could be built: recovery of its bytes leads to its world, and clients see the same in it.
    pub(crate) fn build_checkpoint(&self, alloc: Global, names: &Names) -> Option<Checkpoint>
        requires names { names.now ≡ J.opening.names }
        ensures lines { IfSome result (λ renewed. renewed.executor.lines ≡ []) }
        ensures begins { IfSome result (λ renewed. BeginsEpoch J.opening.names (server_state self.now)
            (string_bytes renewed.bytes) (server_state renewed.executor)) }
    {
        match Checkpoint::of(&self.executor, alloc, names) {
            Ok(renewed) => Some(renewed),
            Err(_) => None,
        }
    }

    /// Begins a new epoch, once the store holds all lines: replaces the log's bytes and the executor by those of the
    /// epoch. Answers whether it did. If the log can't be written any more, the caller gets the store, to drop it.
    pub(crate) fn install_checkpoint(
        &mut self,
        held: LogWriter<L, J>,
        renewed: Checkpoint,
    ) -> (Result<LogWriter<L, J>, L>, bool)
        requires lines { renewed.executor.lines ≡ [] }
        requires begins { BeginsEpoch J.opening.names (server_state self.old) (string_bytes renewed.bytes)
            (server_state renewed.executor) }
        ensures stops { IfErr result.0 (λ store. (L.holds store).works ≡ false) }
    {
        let Some(appender) = self.appender.take() else {
            return (Ok(held), false);
        };
        let mut appender = appender;
        let Checkpoint { bytes, executor } = renewed;
        match held.replace(&mut appender, bytes.as_bytes()) {
            Ok((held, true)) => {
                self.executor = executor;
                self.appender = Some(appender);
                (Ok(held), true)
            }
            Ok((held, false)) => {
                self.appender = Some(appender);
                (Ok(held), false)
            }
            Err(store) => (Err(store), false),
        }
    }
}

impl<L: LogStore, J: ServerTag> PendingLines<L, J> for DurableExecutor<L, J> {
    fn take_lines(&mut self, empty: String) -> Option<PendingBatch<L, J>> {
        let appender = self.appender.take()?;
        let mut appender = appender;
        let mut empty = empty;
        empty.clear();
        let lines = self.executor.take_lines(empty)?;
        let taken = appender.take(lines)?;
        self.appender = Some(appender);
        Some(taken)
    }
}

/// Appends the lines of an executor that follow its first `before` bytes, if there are any. Answers the end of the log
/// then; `None` if they could not be appended.
fn append_new_lines<L: LogStore, J: LogTag>(
    appender: &mut LogAppender<L, J>,
    author: &LogAuthor<J>,
    executor: &EpochExecutor,
    before: usize,
) -> Option<LogPosition<L, J>>
    requires { before ≤ length executor.now.lines }
    ensures end { IfSome result (λ end. end ≡ appender.new.log) }
    ensures appends { OnSome result (AppendsIfAny author.now (drop before executor.now.lines) appender.old
        appender.new) }
{
    let lines = executor.lines().as_bytes();
    if lines.len() > before && !appender.append(author, &lines[before..]) {
        return None;
    }
    Some(appender.position())
}

/// The worker that an order concerns, if any.
pub(crate) fn order_worker(session: &SessionState, order: &Order) -> Option<u32> {
    match (session.worker, order) {
        (Some(worker), _) => Some(worker),
        (None, Order::Attach(asked)) => Some(asked.worker),
        (None, _) => None,
    }
}
