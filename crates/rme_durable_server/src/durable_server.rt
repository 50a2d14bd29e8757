//! The durable server: the executor that sessions share, its log, and the registry of the sessions.

ghost use Rattle.std.specs.Prelude.{◌≡◌};

use crate::checkpoints::CheckpointPolicy;
use crate::durable_executor::{DurableExecutor, DurableReply, order_worker};
use crate::session::{DurableSession, ServerTag};
use crate::waiting_jobs::{WaitingJobs, Withdrawal};
use rme_durable_epochs::{ApplyError, ClientAnswer, EpochExecutor};
use rme_durable_log::{
    GroupCommit, LogPosition, LogStore, LogTag, NotDurable, OpenLog, QuickWrite, lock_with_spin,
};
use rme_durable_lookups::{
    LeaderNote, SessionLookup, StatusNotes, WorkerNotes, clients_of, write_lookup,
};
use rme_session_loop::{Client, CloseHandle, ReleaseCause, SessionRegistry, is_take_over};
use rme_session_protocol::{ClientReply, Order};
use rme_wire::Names;
use rme_words::{NoMemory, Refusal};
use std::alloc::Global;
use std::sync::{Mutex, Wait};
use std::time::Clock;

/// The settings of a server.
#[derive(Clone, Copy, Debug)]
pub struct ServerSetting {
    /// A checkpoint is made after this number of finished sections in one epoch.
    pub sections: u32,
    /// What becomes of a job that waits and whose session is gone.
    pub waiting: WaitingJobs,
}

/// A state with its open log, with which a server begins.
#[derive(Drop)]
pub struct StateAndLog<L: LogStore> {
    pub names: Names,
    pub executor: EpochExecutor,
    pub log: OpenLog<L>,
    /// The server itself, as the leader of a log that others may claim; `None` if no other server may.
    pub leader: Option<LeaderNote>,
}

/// A world that sessions share, and the log of its events.
#[derive(Drop)]
pub struct DurableServer<L: LogStore, H: CloseHandle, J: ServerTag> {
    pub(crate) alloc: Global,
    pub(crate) names: Names,
    pub(crate) leader: Option<LeaderNote>,
    /// The number of workers that sessions may attach.
    pub(crate) clients: u32,
    pub(crate) registry: SessionRegistry<H>,
    pub(crate) due: CheckpointPolicy,
    pub(crate) waiting: WaitingJobs,
    pub(crate) executor: Mutex<DurableExecutor<L, J>>,
    pub(crate) commits: GroupCommit<L, J>,
    ghost named: { names ≡ J.opening.names },
    ghost led: { leader ≡ J.opening.leader },
}

impl<L: LogStore, H: CloseHandle, J: ServerTag> DurableServer<L, H, J> {
    ghost use Rattle.std.specs.Prelude.{◌≡◌, [], IfOk, IfSome, OnOk, None, string_bytes};
    ghost use Rattle.rme_durable_server.specs.DurableOrders.{DurableAttempt, asks_checkpoint_worker};
    ghost use Rattle.rme_durable_server.specs.DurableAnswers.{IsSessionBegun, IsSessionEndDurable, LookupMoment};
    ghost use Rattle.rme_durable_server.specs.ServerHistories.{server_state, session_moment};
    ghost use Rattle.rme_durable_log.specs.Logs.{GrowsByOthers, IsCommitted};
    ghost use Rattle.rme_session_protocol.specs.ClientReplies.{reply_of_client};

    /// A server of a state, which its opened log has, with the names of its locks. A checkpoint is made also once a worker
    /// has used all job numbers of an epoch.
    pub fn new(
        alloc: Global,
        setting: ServerSetting,
        state: StateAndLog<L>,
    ) -> Result<DurableServer<L, H, J>, NoMemory>
        requires log { state.log ≡ J.book }
        requires lines { state.executor.lines ≡ [] }
        requires named { state.names ≡ J.opening.names }
        requires led { state.leader ≡ J.opening.leader }
        requires begins { J.opening.begins (server_state state.executor) }
    {
        let StateAndLog {
            names,
            executor,
            log,
            leader,
        } = state;
        let registry = SessionRegistry::new(alloc, executor.executor().world().shape())?;
        let clients = clients_of(executor.executor().world());
        let notes = WorkerNotes::new(alloc, clients)?;
        let (appender, commits) = log.split::<J>(alloc);
        Ok(DurableServer {
            alloc,
            names,
            leader,
            clients,
            registry,
            due: CheckpointPolicy::after_sections(setting.sections),
            waiting: setting.waiting,
            executor: Mutex::new(DurableExecutor::new(executor, appender, notes)),
            commits,
        })
    }

    /// Whether an order would attach the checkpoint worker, which no session can have.
    pub(crate) fn asks_checkpoint_worker(&self, order: &Order) -> bool
        ensures { result ≡ asks_checkpoint_worker self.now.clients order.now }
    {
        match order {
            Order::Attach(asked) => asked.worker >= self.clients,
            _ => false,
        }
    }

    /// A session that has no worker yet; `None` once an event could not be logged, or if memory was refused.
    pub(crate) fn begin_durable_session<R: Wait>(&self, rt: &R) -> Option<DurableSession<L, J>>
        ensures { IfSome result (λ session. IsSessionBegun None session) }
    {
        lock_with_spin(rt, &self.executor).begin_session()
    }

    /// Executes an order with one try. A checkpoint is made first if one is due, or if the worker has used all job
    /// numbers of the epoch.
    pub(crate) fn execute_once<R: Wait + Clock, C: Client<Handle = H>>(
        &self,
        rt: &R,
        session: &mut DurableSession<L, J>,
        order: &Order,
        client: &C,
    ) -> Result<ClientAnswer, ApplyError>
        ensures { IfOk result (λ answered. DurableAttempt J.opening session.old order.now session.new
            (reply_of_client answered.reply)) }
    {
        if self.due.is_seen_due() {
            self.checkpoint(rt, None, client);
        }
        let done = self.execute_numbered(rt, session, order, client)?;
        Ok(session.advance(done))
    }

    /// Executes an order in this epoch; or in the next one, if the worker has used all job numbers of this one.
    fn execute_numbered<R: Wait + Clock, C: Client<Handle = H>>(
        &self,
        rt: &R,
        session: &DurableSession<L, J>,
        order: &Order,
        client: &C,
    ) -> Result<DurableReply<L, J>, ApplyError>
        ensures { IfOk result (λ done. DurableAttempt J.opening session.now order.now
            (session_moment done.state done.end) (reply_of_client done.answered.reply)) }
    {
        let tried = self.execute_in_epoch(rt, session, order, client);
        if has_spent_jobs(&tried) && self.checkpoint(rt, session.state.worker, client) {
            return self.execute_in_epoch(rt, session, order, client);
        }
        tried
    }

    /// Executes an order in this epoch with its worker's claim locked, and updates the claim. If the order takes a worker
    /// over that another session has, the client of that session is closed.
    fn execute_in_epoch<R: Wait + Clock, C: Client<Handle = H>>(
        &self,
        rt: &R,
        session: &DurableSession<L, J>,
        order: &Order,
        client: &C,
    ) -> Result<DurableReply<L, J>, ApplyError>
        ensures { IfOk result (λ done. DurableAttempt J.opening session.now order.now
            (session_moment done.state done.end) (reply_of_client done.answered.reply)) }
    {
        let had = session.state.worker.is_some();
        let claim = self
            .registry
            .claim_worker(rt, order_worker(&session.state, order));
        let acted = self.execute_and_commit(rt, session, order);
        let Ok(done) = &acted else {
            return acted;
        };
        let takes_over = is_take_over(order, done.answered.reply);
        let has = done.state.worker.is_some();
        if let Some(claim) = claim {
            if takes_over {
                claim.close_client(client);
            } else {
                claim.update(client, had, has);
            }
        }
        self.registry.notify_reply(rt, done.answered.reply);
        acted
    }

    /// Executes an order in this epoch. Its lines are committed at once, if that is quick.
    fn execute_and_commit<R: Wait + Clock>(
        &self,
        rt: &R,
        session: &DurableSession<L, J>,
        order: &Order,
    ) -> Result<DurableReply<L, J>, ApplyError>
        ensures { IfOk result (λ done. DurableAttempt J.opening session.now order.now
            (session_moment done.state done.end) (reply_of_client done.answered.reply)) }
    {
        let mut executor = lock_with_spin(rt, &self.executor);
        let acted = executor.execute_noted(rt, &self.names, session, order);
        self.observe(&executor);
        let write = match &acted {
            Ok(done) => self
                .commits
                .begin_quick_write(rt, &mut *executor, &done.end),
            Err(_) => None,
        };
        drop(executor);
        self.end_write(rt, write);
        acted
    }

    /// Writes the lines of a write, if one was begun. The caller has dropped the executor's lock.
    pub(crate) fn end_write<R: Wait>(&self, rt: &R, write: Option<QuickWrite<L, J>>) {
        match write {
            Some(write) => self.commits.end_quick_write(rt, write),
            None => {}
        }
    }

    /// Notes whether a checkpoint is due, and whether an event could not be logged. After such a failure the state of
    /// the executor is not shown to clients.
    pub(crate) fn observe(&self, executor: &DurableExecutor<L, J>) {
        self.due.observe(executor.executor());
        if executor.is_failed() {
            self.commits.mark_failed();
        }
    }

    /// Detaches the worker of a session that ends, and waits until that is durable. If its job waits, and waiting jobs are
    /// withdrawn, that is durable too.
    pub(crate) fn detach_session<R: Wait + Clock, C: Client<Handle = H>>(
        &self,
        rt: &R,
        session: DurableSession<L, J>,
        client: &C,
    ) -> Result<(), NotDurable>
        ensures { OnOk result (IsSessionEndDurable L.shared L.holds J.opening session) }
    {
        let worker = session.state.worker;
        let claim = self.registry.claim_worker(rt, worker);
        let mut executor = lock_with_spin(rt, &self.executor);
        let gone = executor.detach_session(&self.names, session);
        let withdrawn = self.withdraw_if_waiting(&mut executor, worker);
        executor.note_standing(rt, worker);
        self.observe(&executor);
        drop(executor);
        if let Some(
            Withdrawal {
                event: Some(event),
                ..
            },
        ) = &withdrawn
        {
            client.observe(*event);
        }
        if let Some(claim) = claim {
            claim.release(client, ReleaseCause::SessionEnd);
        }
        self.registry.notify_worker_free(rt);
        if let Some(withdrawn) = withdrawn {
            self.commit(rt, &withdrawn.end)?;
        }
        match gone {
            Ok(end) => self.commit(rt, &end),
            Err(_) => {
                self.commits.fail(rt);
                Err(NotDurable)
            }
        }
    }

    /// Waits until everything before this position is durable, and the log was still the server's own after it; writes
    /// it if no other session does.
    pub(crate) fn commit<R: Wait + Clock>(
        &self,
        rt: &R,
        end: &LogPosition<L, J>,
    ) -> Result<(), NotDurable>
        ensures { OnOk result (IsCommitted L.shared L.holds end.now) }
    {
        self.commits.commit(rt, &self.executor, end)
    }

    /// Whether an event could not be logged. Then nothing more is.
    pub(crate) fn is_failed(&self) -> bool {
        self.commits.is_failed()
    }

    /// Ends the service, if the place of its file is lost: nothing more is logged, and no order is answered.
    pub fn fail<R: Wait>(&self, rt: &R) {
        self.commits.fail(rt);
    }

    /// Writes the line that answers a look-up of a session. Answers the end of the log at that moment; `None` once an
    /// event could not be logged. Only other sessions have appended since the position of this session.
    pub(crate) fn write_lookup<R: Wait + Clock>(
        &self,
        rt: &R,
        look: SessionLookup,
        session: &DurableSession<L, J>,
        out: &mut String,
    ) -> Result<Option<LogPosition<L, J>>, NoMemory>
        ensures others { IfOk result (λ found. IfSome found (λ end. GrowsByOthers session.now.session.session
            session.now.log end)) }
        ensures moment { IfOk result (λ found. IfSome found (λ end. LookupMoment J.opening look (string_bytes out.new)
            end)) }
    {
        let mut executor = self.executor.lock(rt);
        executor.count_seconds(rt);
        let notes = StatusNotes {
            workers: executor.notes(),
            leader: &self.leader,
        };
        write_lookup(out, &self.names, executor.executor(), look, &notes)?;
        Ok(executor.position_after(session))
    }
}

/// Whether a job was refused because its worker has used all job numbers of the epoch.
fn has_spent_jobs<L: LogStore, J: LogTag>(acted: &Result<DurableReply<L, J>, ApplyError>) -> bool {
    match acted {
        Ok(done) => done.answered.reply == ClientReply::Refused(Refusal::TooManyJobs),
        Err(_) => false,
    }
}
