//! What answers to look-ups say of locks and workers.

ghost use Rattle.std.specs.Prelude.{◌≡◌, Some, None, IfOk, IfErr, codes};
ghost use Rattle.serde_json.specs.Data.{Data};
ghost use Rattle.serde_json.specs.View.{view};
ghost use Rattle.rme_ask_client.specs.Members.{NoneSaid, NoneSaidUnless};
ghost use Rattle.rme_ask_client.specs.StatusAnswers as spec;

use crate::client_error::ClientError;
use crate::job_answers::{ReportedStance, stance};
use crate::members::{flag, lock_name, member, number, string};
use serde_json::Value;
use std::alloc::Global;

/// The answer to `status`.
#[derive(Drop)]
pub struct ServerStatus {
    /// The number of checkpoints.
    pub epoch: u64,
    /// Who leads the log; `None` if the server does not tell it, as where no other server may claim its log.
    pub leader: Option<ReportedLeader>,
    pub locks: Vec<ReportedLock>,
    /// The workers, from number 0.
    pub workers: Vec<ReportedWorker>,
}

/// Who leads the log of a server, in the answer to `status`.
#[derive(Drop)]
pub struct ReportedLeader {
    /// The address that the leader gave, of any characters.
    pub address: String,
    /// The number of its claim of the log.
    pub term: u64,
}

/// A lock in the answer to `status`.
#[derive(Drop)]
pub struct ReportedLock {
    pub name: String,
    pub owner: Option<u64>,
    pub cells: Vec<u64>,
    /// Whether no section is half done.
    pub settled: bool,
    /// The number of finished sections.
    pub sections: u64,
}

/// A worker in the answer to `status`.
#[derive(Drop)]
pub struct ReportedWorker {
    /// Whether a session has it.
    pub attached: bool,
    pub stance: ReportedStance,
    /// The lock of its pending job; `None` without a pending job.
    pub lock: Option<String>,
    /// The number of its pending job; without one, of its last job.
    pub number: u64,
    /// The worker that it waits for; `None` if it waits for no other.
    pub blocked_by: Option<u64>,
    /// The whole seconds since its stance last changed; `None` if the server does not tell them.
    pub seconds: Option<u64>,
    /// The name that its client gave when it attached the worker, of any characters; `None` if it gave none.
    pub client: Option<String>,
}

/// The answer to `cells`.
#[derive(Drop)]
pub struct CellsAnswer {
    pub cells: Vec<u64>,
    pub settled: bool,
}

/// The owner of the answer to `owner`, or of a lock in that to `status`.
pub fn owner_answer(value: &Value) -> Result<Option<u64>, ClientError>
    ensures said { IfOk result (spec.OwnerSays (view value.now)) }
    ensures unsaid { IfErr result (λ _. NoneSaid spec.OwnerSays (view value.now)) }
{
    if member(value, "owner")?.is_null() {
        return Ok(None);
    }
    Ok(Some(number(value, "owner")?))
}

/// The cells of the answer to `cells`.
pub fn cells_answer(alloc: Global, value: &Value) -> Result<CellsAnswer, ClientError>
    ensures said { IfOk result (spec.CellsSay (view value.now)) }
    ensures unsaid { IfErr result (NoneSaidUnless spec.CellsSay (view value.now)) }
{
    Ok(CellsAnswer {
        cells: list_of(alloc, value, "cells")?,
        settled: flag(value, "settled")?,
    })
}

/// What the answer to `status` says.
pub fn server_status(alloc: Global, value: &Value) -> Result<ServerStatus, ClientError>
    ensures said { IfOk result (spec.StatusSays (view value.now)) }
    ensures unsaid { IfErr result (NoneSaidUnless spec.StatusSays (view value.now)) }
{
    Ok(ServerStatus {
        epoch: number(value, "epoch")?,
        leader: leader_of_log(alloc, value)?,
        locks: list_of(alloc, value, "locks")?,
        workers: list_of(alloc, value, "workers")?,
    })
}

/// Who leads the log of the server.
fn leader_of_log(alloc: Global, value: &Value) -> Result<Option<ReportedLeader>, ClientError>
    ensures said { IfOk result (spec.OptionalLeaderSays (view value.now)) }
    ensures unsaid { IfErr result (NoneSaidUnless spec.OptionalLeaderSays (view value.now)) }
{
    if value.get("leader").is_none() {
        return Ok(None);
    }
    Ok(Some(ReportedLeader {
        address: string(alloc, value, "leader")?,
        term: number(value, "term")?,
    }))
}

/// A value that an item of a list in an answer gives.
pub(crate) trait ListItem: Drop + Sized {
    /// The item gives this value.
    ghost Says: { Data → Self → Type 0 };

    /// The value of an item.
    fn of_item(alloc: Global, item: &Value) -> Result<Self, ClientError>
        ensures said { IfOk result (Says (view item.now)) }
        ensures unsaid { IfErr result (NoneSaidUnless Says (view item.now)) };
}

impl ListItem for u64 {
    ghost Says = { spec.NumberSays };

    fn of_item(_alloc: Global, item: &Value) -> Result<u64, ClientError> {
        match item.as_u64() {
            Some(number) => Ok(number),
            None => Err(ClientError::NoMember("cells")),
        }
    }
}

impl ListItem for ReportedLock {
    ghost Says = { spec.LockSays };

    fn of_item(alloc: Global, item: &Value) -> Result<ReportedLock, ClientError> {
        Ok(ReportedLock {
            name: lock_name(alloc, item, "name")?,
            owner: owner_answer(item)?,
            cells: list_of(alloc, item, "cells")?,
            settled: flag(item, "settled")?,
            sections: number(item, "sections")?,
        })
    }
}

impl ListItem for ReportedWorker {
    ghost Says = { spec.WorkerSays };

    fn of_item(alloc: Global, item: &Value) -> Result<ReportedWorker, ClientError> {
        Ok(ReportedWorker {
            attached: flag(item, "attached")?,
            stance: stance(item)?,
            lock: lock_of_worker(alloc, item)?,
            number: number(item, "number")?,
            blocked_by: optional_number(item, "blocked_by")?,
            seconds: optional_number(item, "seconds")?,
            client: client_of_worker(alloc, item)?,
        })
    }
}

/// The values of the items of the list of this name.
pub(crate) fn list_of<T: ListItem>(
    alloc: Global,
    value: &Value,
    name: &'static str,
) -> Result<Vec<T>, ClientError>
    ensures said { IfOk result (λ values. spec.ListSays name.now T.Says (view value.now) values.items) }
    ensures unsaid { IfErr result (NoneSaidUnless (spec.ListSays name.now T.Says) (view value.now)) }
{
    let mut values = Vec::new(alloc);
    for item in list(value, name)? {
        values.push(T::of_item(alloc, item)?)?;
    }
    Ok(values)
}

/// The list of this name.
fn list<'v>(value: &'v Value, name: &'static str) -> Result<&'v [Value], ClientError>
    ensures found { IfOk result (λ items. spec.items_member name.now (view value.now)
        ≡ Some (spec.list_view items.now)) }
    ensures missing { IfErr result (λ _. spec.items_member name.now (view value.now) ≡ None) }
{
    match member(value, name)?.as_array() {
        Some(items) => Ok(items.as_slice()),
        None => Err(ClientError::NoMember(name)),
    }
}

/// The lock of a worker's pending job.
fn lock_of_worker(alloc: Global, value: &Value) -> Result<Option<String>, ClientError>
    ensures said { IfOk result (spec.OptionalLockSays (view value.now)) }
    ensures unsaid { IfErr result (NoneSaidUnless spec.OptionalLockSays (view value.now)) }
{
    if value.get("lock").is_none() {
        return Ok(None);
    }
    Ok(Some(lock_name(alloc, value, "lock")?))
}

/// The name that the client of a worker gave.
fn client_of_worker(alloc: Global, value: &Value) -> Result<Option<String>, ClientError>
    ensures said { IfOk result (spec.OptionalTextSays (codes "as") (view value.now)) }
    ensures unsaid { IfErr result (NoneSaidUnless (spec.OptionalTextSays (codes "as")) (view value.now)) }
{
    if value.get("as").is_none() {
        return Ok(None);
    }
    Ok(Some(string(alloc, value, "as")?))
}

/// The number of this name; `None` without such a member.
fn optional_number(value: &Value, name: &'static str) -> Result<Option<u64>, ClientError>
    ensures said { IfOk result (spec.OptionalNumberSays name.now (view value.now)) }
    ensures unsaid { IfErr result (λ _. NoneSaid (spec.OptionalNumberSays name.now) (view value.now)) }
{
    if value.get(name).is_none() {
        return Ok(None);
    }
    Ok(Some(number(value, name)?))
}
