//! Translation validation: whether clients see the same in the new world as in the old one.

ghost use Rattle.std.specs.Prelude.{◌≡◌, ◌<◌, ◌≤◌, ◌+◌, ℕ, IfOk, IfSome, IsTrue, Ok, Option, option_map};
ghost use Rattle.rme_program.specs.declared.note.Receipt.{Receipt};
ghost use Rattle.rme_session_world.specs.Executors.{held_session};
ghost use Rattle.rme_durable_epochs.specs.ClientValues.{client_session};
ghost use Rattle.rme_durable_epochs.specs.ClientValues as value;
ghost use Rattle.rme_history.specs.Legal.{rows_of_locks};
ghost use Rattle.rme_tree.specs.Nodes.{owner_in};
ghost use Rattle.rme_line_text.specs.ClientReceipts.{as_receipt};
ghost use Rattle.rme_world.specs.Calls.{LastContract};
ghost use Rattle.rme_world.specs.Queries.{world_worker_words};
ghost use Rattle.rme_world.specs.WorldViews.{world_memory};
ghost use Rattle.rme_durable_checkpoint.specs.Checkpoints as spec;

use crate::alike::{same_job, same_last, same_rows, same_session};
use rme_durable_epochs::{Base, next_place};
use rme_line_text::ClientReceipt;
use rme_script::Row;
use rme_session_world::Executor;
use rme_world::World;

/// An executor, its base, and the cells that the finished scripts left of each lock.
#[derive(Clone, Copy)]
pub(crate) struct ComparedState<'a> {
    pub(crate) executor: &'a Executor,
    pub(crate) base: &'a Base,
    pub(crate) rows: &'a [Row],
}

/// Whether clients see the same in both states.
pub(crate) fn is_checkpoint_same(before: &ComparedState<'_>, after: &ComparedState<'_>) -> bool
    requires before { before.now.rows.now ≡ rows_of_locks before.now.executor.now.world.shape
        before.now.executor.now.world.history }
    requires after { after.now.rows.now ≡ rows_of_locks after.now.executor.now.world.shape
        after.now.executor.now.world.history }
    requires holders { after.now.executor.now.holders ≡ before.now.executor.now.holders }
    ensures { IsTrue result
        → spec.CheckpointShowsSame before.now.base.now before.now.executor.now
        after.now.base.now after.now.executor.now }
{
    let (one, other) = (before.executor.world(), after.executor.world());
    if !same_sizes(one, other) {
        return false;
    }
    same_rows(after.rows, before.rows) && does_each_show_same(before, after)
}

/// Whether each worker but the last, and each lock, of the first state shows the same in the other one.
pub(crate) fn does_each_show_same(before: &ComparedState<'_>, after: &ComparedState<'_>) -> bool
    requires { before.now.executor.now.world.shape.workers ≤ after.now.executor.now.world.shape.workers }
    ensures { IsTrue result → spec.EachShowsSame before.now.base.now before.now.executor.now after.now.base.now
        after.now.executor.now }
{
    if !same_owners(before.executor.world(), after.executor.world()) {
        return false;
    }
    same_workers(before, after) && same_places(before, after)
}

fn same_sizes(one: &World, other: &World) -> bool
    ensures { IsTrue result
        → (other.now.shape.workers ≡ one.now.shape.workers) × (other.now.shape.locks ≡ one.now.shape.locks)
        × (other.now.shape.jobs ≡ one.now.shape.jobs) }
{
    let (one, other) = (one.shape(), other.shape());
    if other.workers() != one.workers() || other.locks() != one.locks() {
        return false;
    }
    other.jobs() == one.jobs()
}

/// Whether each lock has the same owner.
fn same_owners(one: &World, other: &World) -> bool
    ensures { IsTrue result → (lock : ℕ) → lock < one.now.shape.locks
        → owner_in other.now.shape (world_memory other.now) lock ≡ owner_in one.now.shape (world_memory one.now) lock }
{
    for lock in 0..one.shape().locks {
        if !same_owner(one, other, lock) {
            return false;
        }
    }
    true
}

fn same_owner(one: &World, other: &World, lock: u32) -> bool
    ensures { IsTrue result
        → owner_in other.now.shape (world_memory other.now) lock ≡ owner_in one.now.shape (world_memory one.now) lock }
{
    match (one.owner(lock), other.owner(lock)) {
        (Ok(one), Ok(other)) => other == one,
        _ => false,
    }
}

/// Whether clients see the same place of the next section of each lock.
fn same_places(before: &ComparedState<'_>, after: &ComparedState<'_>) -> bool
    ensures { IsTrue result → (lock : ℕ) → lock < before.now.executor.now.world.shape.locks
        → value.next_client_place after.now.base.now after.now.executor.now.world lock ≡ value.next_client_place
        before.now.base.now before.now.executor.now.world lock }
{
    for lock in 0..before.executor.world().shape().locks {
        if !is_place_alike(before, after, lock) {
            return false;
        }
    }
    true
}

fn is_place_alike(before: &ComparedState<'_>, after: &ComparedState<'_>, lock: u32) -> bool
    ensures { IsTrue result → value.next_client_place after.now.base.now after.now.executor.now.world lock
        ≡ value.next_client_place before.now.base.now before.now.executor.now.world lock }
{
    match (
        next_client_place(before, lock),
        next_client_place(after, lock),
    ) {
        (Some(one), Some(other)) => other == one,
        _ => false,
    }
}

/// The place of a lock's next section, as clients see it.
pub(crate) fn next_client_place(shown: &ComparedState<'_>, lock: u32) -> Option<u64>
    ensures { IfSome result (λ place. place ≡ value.next_client_place shown.now.base.now
        shown.now.executor.now.world lock) }
{
    let place = next_place(shown.executor.world().history(), lock);
    shown.base.client_place(lock, u32::try_from(place).ok()?)
}

/// Whether all workers are alike, except the last, which is the checkpoint worker.
fn same_workers(before: &ComparedState<'_>, after: &ComparedState<'_>) -> bool
    requires { before.now.executor.now.world.shape.workers ≤ after.now.executor.now.world.shape.workers }
    ensures { IsTrue result → (worker : ℕ) → worker + 1 < before.now.executor.now.world.shape.workers
        → spec.IsWorkerAlike before.now.base.now before.now.executor.now after.now.base.now after.now.executor.now
        worker }
{
    let workers = before.executor.world().shape().workers;
    for worker in 0..workers.saturating_sub(1) {
        if !is_worker_alike(before, after, worker) {
            return false;
        }
    }
    true
}

/// Whether a worker is alike.
fn is_worker_alike(before: &ComparedState<'_>, after: &ComparedState<'_>, worker: u32) -> bool
    requires one { worker < before.now.executor.now.world.shape.workers }
    requires other { worker < after.now.executor.now.world.shape.workers }
    ensures { IsTrue result
        → spec.IsWorkerAlike before.now.base.now before.now.executor.now after.now.base.now after.now.executor.now
        worker }
{
    if !is_session_alike(before, after, worker) {
        return false;
    }
    let job = before.executor.world().pending(worker);
    if !same_job(after.executor.world().pending(worker), job)
        || !is_number_alike(before, after, worker)
    {
        return false;
    }
    job.is_some() || is_last_alike(before, after, worker)
}

/// Whether the client of the session that has a worker, if one has, sees the same.
fn is_session_alike(before: &ComparedState<'_>, after: &ComparedState<'_>, worker: u32) -> bool
    ensures { IsTrue result
        → client_session after.now.base.now (held_session after.now.executor.now worker) ≡ client_session
        before.now.base.now (held_session before.now.executor.now worker) }
{
    let one = before
        .base
        .client_session(&before.executor.held_session(worker));
    let other = after
        .base
        .client_session(&after.executor.held_session(worker));
    match (one, other) {
        (Some(one), Some(other)) => same_session(&other, &one),
        _ => false,
    }
}

/// Whether clients see the same number of a worker's last job.
fn is_number_alike(before: &ComparedState<'_>, after: &ComparedState<'_>, worker: u32) -> bool
    requires one { worker < before.now.executor.now.world.shape.workers }
    requires other { worker < after.now.executor.now.world.shape.workers }
    ensures { IsTrue result
        → value.client_number after.now.base.now after.now.executor.now.world worker ≡ value.client_number
        before.now.base.now before.now.executor.now.world worker }
{
    match (client_number(before, worker), client_number(after, worker)) {
        (Some(one), Some(other)) => other == one,
        _ => false,
    }
}

/// The number of a worker's last job, as clients see it.
pub(crate) fn client_number(shown: &ComparedState<'_>, worker: u32) -> Option<u64>
    requires { worker < shown.now.executor.now.world.shape.workers }
    ensures { IfSome result (λ number. number ≡ value.client_number shown.now.base.now shown.now.executor.now.world
        worker) }
{
    let numbers = shown.base.worker_base(worker).numbers;
    numbers.checked_add(shown.executor.world().number(worker))
}

/// Whether clients see the same outcome of a worker's last number.
fn is_last_alike(before: &ComparedState<'_>, after: &ComparedState<'_>, worker: u32) -> bool
    requires one { worker < before.now.executor.now.world.shape.workers }
    requires other { worker < after.now.executor.now.world.shape.workers }
    ensures { IsTrue result
        → (told : Option Receipt) × spec.IsClientLast before.now.base.now before.now.executor.now.world worker told
        × spec.IsClientLast after.now.base.now after.now.executor.now.world worker told }
{
    match (
        client_last_of(before, worker),
        client_last_of(after, worker),
    ) {
        (Some(one), Some(other)) => same_last(other, one),
        _ => false,
    }
}

/// The outcome of a worker's last number, as clients see it.
pub(crate) fn client_last_of(
    shown: &ComparedState<'_>,
    worker: u32,
) -> Option<Option<ClientReceipt>>
    requires { worker < shown.now.executor.now.world.shape.workers }
    ensures { IfSome result (λ told. spec.IsClientLast shown.now.base.now shown.now.executor.now.world worker
        (option_map as_receipt told)) }
{
    let world = shown.executor.world();
    let number = u32::try_from(world.number(worker)).ok()?;
    match world.last(worker) {
        Ok(last) => shown
            .base
            .client_last(shown.base.worker_base(worker), number, last),
        Err(_) => None,
    }
}
