//! Equality of what clients see.

ghost use Rattle.std.specs.Prelude.{◌≡◌, IsTrue};
ghost use Rattle.rme_durable_checkpoint.specs.Growths.{KeepsLives};
ghost use Rattle.rme_durable_format.specs.Lives.{life_of};

use rme_durable_epochs::{ClientPending, ClientReady, ClientSession};
use rme_line_text::ClientReceipt;
use rme_script::{Job, Row};
use rme_wire::Names;

/// Whether two sessions are equal.
pub(crate) fn same_session(one: &ClientSession, other: &ClientSession) -> bool
    ensures { IsTrue result → one.now ≡ other.now }
{
    match (one, other) {
        (ClientSession::Nobody, ClientSession::Nobody) => true,
        (ClientSession::Ready(one), ClientSession::Ready(other)) => same_ready(one, other),
        (ClientSession::Climb(one), ClientSession::Climb(other)) => same_pending(one, other),
        (ClientSession::Held(one), ClientSession::Held(other)) => same_pending(one, other),
        _ => false,
    }
}

fn same_ready(one: &ClientReady, other: &ClientReady) -> bool
    ensures { IsTrue result → one.now ≡ other.now }
{
    if one.worker != other.worker || one.number != other.number {
        return false;
    }
    same_last(one.last, other.last)
}

fn same_pending(one: &ClientPending, other: &ClientPending) -> bool
    ensures { IsTrue result → one.now ≡ other.now }
{
    if one.worker != other.worker || one.number != other.number {
        return false;
    }
    same_job(one.draft, other.draft)
}

/// Whether two last outcomes are equal.
pub(crate) fn same_last(one: Option<ClientReceipt>, other: Option<ClientReceipt>) -> bool
    ensures { IsTrue result → one ≡ other }
{
    match (one, other) {
        (None, None) => true,
        (Some(one), Some(other)) => same_receipt(one, other),
        _ => false,
    }
}

fn same_receipt(one: ClientReceipt, other: ClientReceipt) -> bool
    ensures { IsTrue result → one ≡ other }
{
    one == other
}

/// Whether two jobs are equal.
pub(crate) fn same_job(one: Option<Job>, other: Option<Job>) -> bool
    ensures { IsTrue result → one ≡ other }
{
    match (one, other) {
        (None, None) => true,
        (Some(one), Some(other)) => one.lock == other.lock && one.script.same(&other.script),
        _ => false,
    }
}

/// Whether two lists of lives are equal.
pub(crate) fn same_lives(one: &[u64], other: &[u64]) -> bool
    ensures { IsTrue result → one.now ≡ other.now }
{
    one == other
}

/// Whether each worker has the lives that it had, and a worker that is only in the second list has none.
pub(crate) fn are_lives_kept(one: &[u64], other: &[u64]) -> bool
    ensures { IsTrue result → KeepsLives one.now other.now }
{
    if other.len() < one.len() {
        return false;
    }
    for worker in 0..other.len() {
        if other[worker] != life_at(one, worker) {
            return false;
        }
    }
    true
}

/// The lives of a worker; 0 if it is not listed.
fn life_at(lives: &[u64], worker: usize) -> u64
    ensures { result ≡ life_of lives.now worker }
{
    if worker < lives.len() {
        lives[worker]
    } else {
        0
    }
}

/// Whether two lists of names are equal.
pub(crate) fn same_names(one: &Names, other: &Names) -> bool
    ensures { IsTrue result → one.now ≡ other.now }
{
    if one.len() != other.len() {
        return false;
    }
    for lock in 0..one.len() {
        if one.name(lock) != other.name(lock) {
            return false;
        }
    }
    true
}

/// Whether two lists of rows are equal.
pub(crate) fn same_rows(one: &[Row], other: &[Row]) -> bool
    ensures { IsTrue result → one.now ≡ other.now }
{
    if one.len() != other.len() {
        return false;
    }
    for place in 0..one.len() {
        if !same_row(&one[place], &other[place]) {
            return false;
        }
    }
    true
}

/// Whether two rows are equal.
fn same_row(one: &Row, other: &Row) -> bool
    ensures { IsTrue result → one.now ≡ other.now }
{
    if one.len() != other.len() {
        return false;
    }
    for cell in 0..one.len() {
        if one.get(cell) != other.get(cell) {
            return false;
        }
    }
    true
}
