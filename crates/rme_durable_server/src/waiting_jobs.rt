//! The jobs that wait for their lock although their clients are gone.

use crate::durable_executor::DurableExecutor;
use crate::durable_server::DurableServer;
use crate::session::ServerTag;
use rme_durable_log::{LogPosition, LogStore, NotDurable, lock_with_spin};
use rme_durable_lookups::{WorkerStance, worker_stance};
use rme_session_loop::{CloseHandle, SessionEvent};
use rme_session_protocol::{Attachment, ClientReply, Order, SessionStance};
use rme_session_server::ServerObserver;
use std::sync::Wait;
use std::time::Clock;

/// What becomes of a job that waits for its lock and whose session is gone.
///
/// A waiting worker holds nodes of its lock's tree, and may keep other workers out for as long as it is down.
#[derive(Clone, Copy, Debug, PartialEq, Eq)]
pub enum WaitingJobs {
    /// It keeps its place, until its worker is attached again.
    Keep,
    /// It is withdrawn: nothing of it was done, and its worker keeps nobody out.
    Withdraw,
}

/// What came of withdrawing a job that waits.
#[derive(Drop)]
pub(crate) struct Withdrawal<L: LogStore, J: ServerTag> {
    /// That the job was withdrawn; `None` if memory was refused.
    pub(crate) event: Option<SessionEvent>,
    /// The position after its lines.
    pub(crate) end: LogPosition<L, J>,
}

impl<L: LogStore, H: CloseHandle, J: ServerTag> DurableServer<L, H, J> {
    /// Withdraws each job that waits and whose worker no session has, if waiting jobs are to be withdrawn, tells the
    /// observer of each, and waits until that is durable. A server does so before its first session: from then on it
    /// counts how long each worker has its stance. After an error no order is executed.
    pub fn withdraw_waiting_jobs<R: Wait + Clock, T: ServerObserver>(
        &self,
        rt: &R,
        observer: &T,
    ) -> Result<(), NotDurable> {
        let mut executor = lock_with_spin(rt, &self.executor);
        let mut last = None;
        for worker in 0..self.clients {
            if let Some(withdrawn) = self.withdraw_if_waiting(&mut executor, Some(worker)) {
                if let Some(event) = withdrawn.event {
                    observer.session_event(None, event);
                }
                last = Some(withdrawn);
            }
        }
        executor.begin_notes(rt);
        self.observe(&executor);
        drop(executor);
        match last {
            Some(withdrawn) => self.commit(rt, &withdrawn.end),
            None => Ok(()),
        }
    }

    /// Withdraws the job of a worker, if it waits, no session has the worker, and waiting jobs are to be withdrawn.
    /// Answers what came of it, if its lines are appended.
    ///
    /// A session of the server itself does it: the worker is restarted, withdraws its job, takes its own steps until it is
    /// ready, and crashes.
    pub(crate) fn withdraw_if_waiting(
        &self,
        executor: &mut DurableExecutor<L, J>,
        worker: Option<u32>,
    ) -> Option<Withdrawal<L, J>> {
        let worker = worker?;
        if self.waiting == WaitingJobs::Keep || !is_waiting(executor, worker) {
            return None;
        }
        let mut session = executor.begin_session()?;
        let attach = Order::Attach(Attachment {
            worker,
            take: false,
            after: None,
            label: None,
        });
        let mut is_withdrawn = false;
        for order in [attach, Order::Withdraw] {
            let Ok(done) = executor.execute(&self.names, &session, &order) else {
                break;
            };
            let reply = session.advance(done).reply;
            is_withdrawn = matches!(reply, ClientReply::Withdrew(_));
            if !goes_on(reply) {
                break;
            }
        }
        let end = executor.detach_session(&self.names, session).ok()?;
        Some(Withdrawal {
            event: is_withdrawn.then_some(SessionEvent::Withdrawn(worker)),
            end,
        })
    }
}

/// Whether the reply to one of the orders is that the worker was attached and its job waits.
fn goes_on(reply: ClientReply) -> bool {
    match reply {
        ClientReply::Attached(_, stance) => stance == SessionStance::Climb,
        _ => false,
    }
}

/// Whether the job of a worker waits for its lock.
fn is_waiting<L: LogStore, J: ServerTag>(executor: &DurableExecutor<L, J>, worker: u32) -> bool {
    let world = executor.executor().executor().world();
    if worker >= world.shape().workers() {
        return false;
    }
    matches!(worker_stance(world, worker), WorkerStance::Climb(_))
}
