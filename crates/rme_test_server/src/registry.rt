//! The registry has the workers and the locks of its shape, and no others; its claims tell clients of each change, and
//! close the client of a session once.

use rme_program::Ascent;
use rme_session_loop::{
    Client, CloseHandle, NoCloseHandle, ReleaseCause, SessionEvent, SessionRegistry, WorkerClaim,
};
use rme_words::Shape;
use std::alloc::Global;
use std::cell::Cell;
use std::process::Abort;
use std::sync::Wait;
use std::test::*;

#[test]
fn a_registry_has_the_workers_and_locks_of_its_shape(rt: HostRuntime) -> Result<(), Fail> {
    let shape = Shape::new(2, 3, 1, 9)?;
    let registry = SessionRegistry::<NoCloseHandle>::new(rt.alloc(), shape)?;
    assert!(rt; registry.claim_worker(&rt, Some(1)).is_some());
    assert!(rt; registry.claim_worker(&rt, Some(2)).is_none());
    assert!(rt; registry.claim_worker(&rt, None).is_none());
    assert!(rt; registry.climb_lock(&rt, Some(2)).is_some());
    assert!(rt; registry.climb_lock(&rt, Some(3)).is_none());
    assert!(rt; registry.climb_lock(&rt, None).is_none());
    assert!(rt; registry.wait_at_lock(&rt, leaf_of(2)).is_some());
    assert!(rt; registry.wait_at_lock(&rt, leaf_of(3)).is_none());
    Ok(())
}

/// Where a worker waits for this lock that holds no level of its tree.
fn leaf_of(lock: u32) -> Ascent {
    Ascent { lock, held: 0 }
}

/// A client that keeps the last event, and how often it was closed.
#[derive(Drop)]
struct WatchedClient<'a> {
    last: &'a Cell<Option<SessionEvent>>,
    closed: &'a Cell<u32>,
}

impl<'a> Client for WatchedClient<'a> {
    type Handle = CloseCount<'a>;

    fn is_gone(&self) -> bool {
        false
    }

    fn handle(&self) -> Option<CloseCount<'a>> {
        Some(CloseCount(self.closed))
    }

    fn observe(&self, event: SessionEvent) {
        self.last.set(Some(event));
    }
}

/// Counts how often its client is closed.
#[derive(Drop)]
struct CloseCount<'a>(&'a Cell<u32>);

impl CloseHandle for CloseCount<'_> {
    fn close(&self) {
        self.0.set(self.0.get().saturating_add(1));
    }
}

/// The claim of the worker 1, which is there.
fn claim<'a, 'c, R: Abort + Wait>(
    rt: &R,
    registry: &'a SessionRegistry<CloseCount<'c>>,
) -> WorkerClaim<'a, CloseCount<'c>> {
    let Some(claim) = registry.claim_worker(rt, Some(1)) else {
        panic!(rt; "no claim");
    };
    claim
}

/// A worker that is attached, detached and attached again, whose client is then closed by one that takes it over.
fn change<'c, R: Abort + Wait>(
    rt: &R,
    alloc: Global,
    client: &WatchedClient<'c>,
    taker: &WatchedClient<'c>,
) -> Result<(), Fail> {
    let registry = &SessionRegistry::new(alloc, Shape::new(2, 1, 1, 9)?)?;
    claim(rt, registry).update(client, false, false);
    assert!(rt; client.last.take() == None);
    claim(rt, registry).update(client, false, true);
    assert!(rt; client.last.take() == Some(SessionEvent::Attached(1)));
    claim(rt, registry).update(client, true, true);
    assert!(rt; client.last.take() == None);
    claim(rt, registry).update(client, true, false);
    assert!(rt; client.last.take() == Some(SessionEvent::Detached(1)));
    claim(rt, registry).close_client(taker);
    assert!(rt; taker.last.take() == None && client.closed.get() == 0);
    claim(rt, registry).update(client, false, true);
    claim(rt, registry).close_client(taker);
    assert!(rt; taker.last.take() == Some(SessionEvent::TakesOver(1)) && client.closed.get() == 1);
    claim(rt, registry).close_client(taker);
    assert!(rt; taker.last.take() == None && client.closed.get() == 1);
    claim(rt, registry).release(client, ReleaseCause::SessionEnd);
    assert!(rt; client.last.take() == Some(SessionEvent::Ended(1)) && taker.closed.get() == 0);
    Ok(())
}

#[test]
fn a_claim_tells_of_each_change_and_closes_a_client_once(rt: HostRuntime) -> Result<(), Fail> {
    let (last, closed) = (Cell::new(None), Cell::new(0));
    let (other, other_closed) = (Cell::new(None), Cell::new(0));
    let client = WatchedClient {
        last: &last,
        closed: &closed,
    };
    let taker = WatchedClient {
        last: &other,
        closed: &other_closed,
    };
    change(&rt, rt.alloc(), &client, &taker)
}
