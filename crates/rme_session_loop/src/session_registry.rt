//! The registry that sessions share: the claims of the workers, and the wait queues.

ghost use Rattle.std.specs.Prelude.{◌≡◌, IfOk, length};

use crate::client::{Client, CloseHandle};
use crate::session_event::SessionEvent;
use crate::wait_queue::{WaitQueue, Waiter};
use crossbeam_utils::CachePadded;
use rme_program::Ascent;
use rme_session_protocol::{ClientOutcome, ClientReply, Order, SessionStance};
use rme_words::{NoMemory, Refusal, Shape};
use std::alloc::Global;
use std::marker::Model;
use std::sync::{Mutex, MutexGuard, Wait};

/// The locked claim of a worker: a handle of the client whose session has the worker. While it is locked, no other
/// session attaches or detaches the worker.
#[derive(Drop)]
pub struct WorkerClaim<'a, H: CloseHandle> {
    worker: u32,
    /// `None` also once the client was closed.
    handle: MutexGuard<'a, Option<H>>,
}

/// How a session lost its worker.
#[derive(Clone, Copy, Debug, PartialEq, Eq)]
pub enum ReleaseCause {
    /// It let the worker go, and goes on.
    Detach,
    /// It ended.
    SessionEnd,
}

impl<H: CloseHandle> WorkerClaim<'_, H> {
    /// Updates the claim after an order of the client, if the order changed whether the client's session has the worker.
    pub fn update<C: Client<Handle = H>>(self, client: &C, had: bool, has: bool) {
        if had == has {
            return;
        }
        if !has {
            self.release(client, ReleaseCause::Detach);
            return;
        }
        let mut claim = self;
        *claim.handle = client.handle();
        client.observe(SessionEvent::Attached(claim.worker));
    }

    /// Updates the claim when the client's session has lost the worker.
    pub fn release<C: Client<Handle = H>>(self, client: &C, how: ReleaseCause) {
        let mut claim = self;
        *claim.handle = None;
        client.observe(match how {
            ReleaseCause::Detach => SessionEvent::Detached(claim.worker),
            ReleaseCause::SessionEnd => SessionEvent::Ended(claim.worker),
        });
    }

    /// Closes the client whose session has the worker, once, for a client that takes the worker over. Its session ends;
    /// if it waits for a lock, it has to be woken.
    pub fn close_client<C: Client<Handle = H>>(self, taker: &C) {
        let mut claim = self;
        if let Some(handle) = claim.handle.take() {
            handle.close();
            taker.observe(SessionEvent::TakesOver(claim.worker));
        }
    }
}

/// The workers' claims, the climb locks, and the wait queues. In contracts it is the numbers of workers and of locks
/// that it is for.
///
/// Each order locks its worker's claim and its lock's climb lock. Each of these has a cache line of its own, to avoid
/// false sharing.
#[derive(Drop)]
pub struct SessionRegistry<H: CloseHandle> {
    /// One for each worker.
    claims: Vec<CachePadded<Mutex<Option<H>>>>,
    /// One for each lock.
    climb_locks: Vec<CachePadded<Mutex<()>>>,
    /// One for each lock, notified when the lock may have been released.
    left: Vec<WaitQueue>,
    /// Notified when a worker was detached. Its waiters have no ranks.
    returned: WaitQueue,
}

impl<H: CloseHandle> Model for SessionRegistry<H> {
    ghost use Rattle.std.specs.Prelude.{◌≡◌, length};
    ghost use Rattle.rme_session_loop.specs.Registries.{RegistrySize};

    ghost Value = { RegistrySize };

    ghost view = { λ registry. record {
      workers = length registry.claims.items;
      locks = length registry.climb_locks.items;
    } };

    ghost invariant = { λ registry. length registry.left.items ≡ length registry.climb_locks.items };
}

impl<H: CloseHandle> SessionRegistry<H> {
    ghost use Rattle.std.specs.Prelude.{◌≡◌, ◌<◌, ◌↔◌, IfOk, IsSome, IsSomeAnd};

    /// A registry for the sessions of a service of this shape.
    pub fn new(alloc: Global, shape: Shape) -> Result<SessionRegistry<H>, NoMemory>
        ensures workers { IfOk result (λ registry. registry.workers ≡ shape.workers) }
        ensures locks { IfOk result (λ registry. registry.locks ≡ shape.locks) }
    {
        Ok(SessionRegistry {
            claims: new_claims(alloc, shape.workers())?,
            climb_locks: new_climb_locks(alloc, shape.locks())?,
            left: new_wait_queues(alloc, shape)?,
            returned: WaitQueue::new(alloc, 1)?,
        })
    }

    /// Locks the claim of a worker; `None` if there is no such worker.
    pub fn claim_worker<R: Wait>(&self, rt: &R, worker: Option<u32>) -> Option<WorkerClaim<'_, H>>
        ensures { IsSome result ↔ IsSomeAnd worker (λ worker. worker < self.now.workers) }
    {
        let worker = worker?;
        let claim = self.claims.get(worker as usize)?;
        Some(WorkerClaim {
            worker,
            handle: claim.lock(rt),
        })
    }

    /// Locks the climb lock of a lock; `None` if there is no such lock. Correctness does not need it. Without it, a
    /// session that climbs while another sleeps halfway up would wait for that one although the lock is free.
    pub fn climb_lock<R: Wait>(&self, rt: &R, lock: Option<u32>) -> Option<MutexGuard<'_, ()>>
        ensures { IsSome result ↔ IsSomeAnd lock (λ lock. lock < self.now.locks) }
    {
        let turn = self.climb_locks.get(lock? as usize)?;
        Some(turn.lock(rt))
    }

    /// Registers a waiter for the release of a lock, of a worker that waits here; `None` if there is no such lock.
    pub fn wait_at_lock<R: Wait>(&self, rt: &R, place: Ascent) -> Option<Waiter<'_>>
        ensures { IsSome result ↔ (place.lock < self.now.locks) }
    {
        Some(self.left.get(place.lock as usize)?.register(rt, place.held))
    }

    /// Registers a waiter for the detach of any worker.
    pub fn wait_for_workers<R: Wait>(&self, rt: &R) -> Waiter<'_> {
        self.returned.register(rt, 0)
    }

    /// Notifies the queues that the order of this reply may concern: it may have released a lock, or detached a worker.
    pub fn notify_reply<R: Wait>(&self, rt: &R, reply: ClientReply) {
        match reply {
            ClientReply::Submitted(outcome)
            | ClientReply::Resumed(outcome)
            | ClientReply::Entered(outcome)
            | ClientReply::Committed(outcome) => self.notify_outcome(rt, outcome),
            ClientReply::Attached(_, SessionStance::Ready) | ClientReply::Withdrew(_) => {
                self.notify_all_locks(rt);
            }
            ClientReply::WithdrawFell | ClientReply::Detached => self.notify_worker_free(rt),
            _ => {}
        }
    }

    fn notify_outcome<R: Wait>(&self, rt: &R, outcome: ClientOutcome) {
        match outcome {
            ClientOutcome::Receipt(receipt) => {
                if let Some(queue) = self.left.get(receipt.lock as usize) {
                    queue.notify(rt);
                }
            }
            ClientOutcome::Fell => self.notify_worker_free(rt),
            ClientOutcome::Withdrawn | ClientOutcome::Waiting | ClientOutcome::Inside(_) => {}
        }
    }

    /// Notifies that a worker was detached. It may have released its lock just before.
    pub fn notify_worker_free<R: Wait>(&self, rt: &R) {
        self.returned.notify_all(rt);
        self.notify_all_locks(rt);
    }

    /// Notifies the queues of all locks: any may have been released.
    pub fn notify_all_locks<R: Wait>(&self, rt: &R) {
        for queue in &self.left {
            queue.notify(rt);
        }
    }

    /// Wakes all waiters of all locks: the client of one of them may have been closed.
    pub fn wake_all_waiters<R: Wait>(&self, rt: &R) {
        for queue in &self.left {
            queue.notify_all(rt);
        }
    }
}

/// Whether the order with this reply takes a worker over that another session has.
pub fn is_take_over(order: &Order, reply: ClientReply) -> bool {
    match order {
        Order::Attach(asked) => asked.take && reply == ClientReply::Refused(Refusal::Taken),
        _ => false,
    }
}

fn new_claims<H: CloseHandle>(
    alloc: Global,
    count: u32,
) -> Result<Vec<CachePadded<Mutex<Option<H>>>>, NoMemory>
    ensures { IfOk result (λ claims. length claims.items ≡ count) }
{
    let Ok(mut claims) = Vec::with_capacity(alloc, count as usize) else {
        return Err(NoMemory);
    };
    for _ in 0..count {
        if claims.push(CachePadded::new(Mutex::new(None))).is_err() {
            return Err(NoMemory);
        }
    }
    Ok(claims)
}

fn new_climb_locks(alloc: Global, count: u32) -> Result<Vec<CachePadded<Mutex<()>>>, NoMemory>
    ensures { IfOk result (λ climb_locks. length climb_locks.items ≡ count) }
{
    let Ok(mut climb_locks) = Vec::with_capacity(alloc, count as usize) else {
        return Err(NoMemory);
    };
    for _ in 0..count {
        if climb_locks.push(CachePadded::new(Mutex::new(()))).is_err() {
            return Err(NoMemory);
        }
    }
    Ok(climb_locks)
}

/// A queue for each lock, with a rank for each number of levels that a waiting worker can hold.
fn new_wait_queues(alloc: Global, shape: Shape) -> Result<Vec<WaitQueue>, NoMemory>
    ensures { IfOk result (λ queues. length queues.items ≡ shape.locks) }
{
    let Ok(mut queues) = Vec::with_capacity(alloc, shape.locks() as usize) else {
        return Err(NoMemory);
    };
    for _ in 0..shape.locks() {
        let queue = WaitQueue::new(alloc, shape.height())?;
        if queues.push(queue).is_err() {
            return Err(NoMemory);
        }
    }
    Ok(queues)
}
