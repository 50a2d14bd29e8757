//! The orders of a session's lines.

ghost use Rattle.std.specs.Prelude.{◌≡◌, ◌≤◌, IfOk, option_map, option_and_then};
ghost use Rattle.rme_line_json.specs.View.{value_view};
ghost use Rattle.rme_session_protocol.specs.Orders as spec;

use crate::client_label::ClientLabel;
use crate::fast_path::parse_order_fast;
use rme_script::Job;
use rme_wire::{
    Names, Value, ValueReader, ValueStorage, do_member, lock_member, script_of_value, whole_u32,
    whole_up_to, worker_member,
};
use rme_words::NoMemory;
use std::alloc::Global;

/// The number of tries to enter if a line has none.
pub(crate) const USUAL_TRIES: u32 = 1_000;

/// The greatest number of tries that a line may ask for.
pub(crate) const MOST_TRIES: u32 = 1_000_000;

/// The greatest number of milliseconds that a line may wait: an hour.
pub(crate) const MOST_WAIT: u32 = 3_600_000;

/// The largest number that the client of one world may give a job.
pub const WORLD_NUMBERS: u64 = 4_294_967_295;

/// The largest number that a client may give a job of a service whose worlds follow one another: 2^53. A larger JSON
/// number is not exact everywhere.
pub const SERVICE_NUMBERS: u64 = 9_007_199_254_740_992;

/// The greatest number of own steps after which a line may plan a crash.
const MOST_STEPS: u32 = 1_000_000;

/// How long an order tries while its job waits for its lock.
#[derive(Clone, Copy, PartialEq, Eq)]
pub enum Patience {
    /// For this number of sweeps, 1 to 1,000,000.
    Tries(u32),
    /// For this number of milliseconds, 0 to 3,600,000, and for at least one sweep.
    Wait(u32),
}

impl Patience {
    ghost use Rattle.std.specs.Prelude.{◌≡◌};
    ghost use Rattle.rme_session_protocol.specs.Patience.{least_tries};

    /// The number of sweeps that it makes at least if the job waits afterwards.
    pub fn least_tries(self) -> u32
        ensures { result ≡ least_tries self }
    {
        match self {
            Patience::Tries(tries) => tries,
            Patience::Wait(_) => 1,
        }
    }
}

/// A job with the number from its client.
#[derive(Clone, Copy, PartialEq, Eq)]
pub struct Submission {
    /// May exceed those of one world if the service had worlds before.
    pub number: u64,
    pub job: Job,
    pub patience: Patience,
}

/// A request for a worker.
#[derive(Clone, Copy, PartialEq, Eq)]
pub struct Attachment {
    pub worker: u32,
    /// Whether to end a session that has the worker.
    pub take: bool,
    /// The life after which the worker may not have been restarted: at most `SERVICE_NUMBERS`.
    pub after: Option<u64>,
    /// The label of the client, by which `status` tells whose session has the worker. It changes nothing of the order.
    pub label: Option<ClientLabel>,
}

/// An order of a session's line.
///
/// Locks are numbers. A lock name that the service does not have becomes the number of names, which is no lock.
#[derive(Clone, Copy, PartialEq, Eq)]
pub enum Order {
    /// Attach a worker.
    Attach(Attachment),
    /// Submit a job, continue it, or answer its receipt again.
    Submit(Submission),
    /// Continue the pending job.
    Resume(Patience),
    /// Submit a job or continue it, until the worker is inside its lock; or answer its receipt again.
    Enter(Submission),
    /// Execute the section of the job that the worker is inside with, and leave its lock.
    Commit,
    /// Withdraw the pending job.
    Withdraw,
    /// Answer the last receipt.
    Last,
    /// Crash the worker after this number of further own steps, 0 to 1,000,000.
    CrashAfter(u32),
    /// Release the worker.
    Detach,
    /// Answer, and do nothing else: the session is alive.
    Ping,
    /// Answer the pending job.
    Pending,
}

/// The order of a session's line, or `None` if it is no order.
///
/// The names are those of the service's locks, and `most` is the largest number that a job may have. `NoMemory` if
/// memory for the line's value was refused. It is inlined to avoid one more copy of the order.
#[inline(always)]
pub fn parse_order(
    values: &mut ValueReader,
    names: &Names,
    most: u64,
    line: &[u8],
) -> Result<Option<Order>, NoMemory>
    ensures { IfOk result (λ order. order ≡ spec.order_of_line names.now most line.now) }
{
    if let Some(order) = parse_order_fast(values, names, most, line) {
        return Ok(Some(order));
    }
    parse_order_by_tree(values, names, most, line)
}

/// The order of any line. Its stack space is used only here.
#[inline(never)]
fn parse_order_by_tree(
    values: &mut ValueReader,
    names: &Names,
    most: u64,
    line: &[u8],
) -> Result<Option<Order>, NoMemory>
    ensures { IfOk result (λ order. order ≡ spec.order_of_line names.now most line.now) }
{
    let mut room = ValueStorage::new();
    match values.read(&mut room, line)? {
        None => Ok(None),
        Some(value) => Ok(order_of_value(names, most, &value)),
    }
}

#[tactic(auto, unfolding(crate::specs::Orders::order_of_value))]
fn order_of_value(names: &Names, most: u64, value: &Value<'_>) -> Option<Order>
    ensures { result ≡ spec.order_of_value names.now most (value_view value.now) }
{
    let count = value.key_count()?;
    let word = do_member(value)?;
    order_named(names, most, word, count, value)
}

/// The order of a value whose member `do` is this word and that has this number of members.
#[tactic(auto, unfolding(crate::specs::Orders::order_named))]
fn order_named(
    names: &Names,
    most: u64,
    word: &str,
    count: usize,
    value: &Value<'_>,
) -> Option<Order>
    ensures { result ≡ spec.order_named names.now most word.now count (value_view value.now) }
{
    match word {
        "attach" => attach_of(count, value),
        "submit" => submission_of(names, most, count, value).map(Order::Submit),
        "enter" => submission_of(names, most, count, value).map(Order::Enter),
        "resume" => resume_of(count, value),
        "crash_after" => crash_after_of(count, value),
        _ => bare_order(word, count),
    }
}

#[tactic(auto, unfolding(crate::specs::Orders::attach_of))]
fn attach_of(count: usize, value: &Value<'_>) -> Option<Order>
    ensures { result ≡ spec.attach_of count (value_view value.now) }
{
    let worker = worker_member(value)?;
    let take = take_of(value)?;
    let after = after_of(value)?;
    let label = as_of(value)?;
    if count != 2 + attach_keys(value) {
        return None;
    }
    Some(Order::Attach(Attachment {
        worker,
        take,
        after,
        label,
    }))
}

/// Whether to end a session that has the worker: not if the member is absent.
#[tactic(auto, unfolding(crate::specs::Orders::take_of))]
fn take_of(value: &Value<'_>) -> Option<bool>
    ensures { result ≡ spec.take_of (value_view value.now) }
{
    match value.get("take") {
        None => Some(false),
        Some(given) => given.as_bool(),
    }
}

/// The life after which the worker may not have been restarted, if the member is present: at most `SERVICE_NUMBERS`.
#[tactic(auto, unfolding(crate::specs::Orders::after_of))]
fn after_of(value: &Value<'_>) -> Option<Option<u64>>
    ensures { result ≡ spec.after_of (value_view value.now) }
{
    match value.get("after") {
        None => Some(None),
        Some(given) => Some(Some(whole_up_to(SERVICE_NUMBERS, given)?)),
    }
}

/// The label of the client, if the member is present: a text of at most 64 bytes.
#[tactic(auto, unfolding(crate::specs::Orders::as_of))]
pub(crate) fn as_of(value: &Value<'_>) -> Option<Option<ClientLabel>>
    ensures { result ≡ spec.as_of (value_view value.now) }
{
    match value.get("as") {
        None => Some(None),
        Some(given) => Some(Some(ClientLabel::of(given.as_str()?)?)),
    }
}

/// The number of a value's members that an attachment may have or not.
#[tactic(auto, unfolding(crate::specs::Orders::attach_keys))]
fn attach_keys(value: &Value<'_>) -> usize
    ensures keys { result ≡ spec.attach_keys (value_view value.now) }
    ensures few { result ≤ 3 }
{
    let life_and_take = usize::from(value.get("after").is_some())
        + usize::from(value.get("take").is_some());
    usize::from(value.get("as").is_some()) + life_and_take
}

/// The number of tries: 1 to 1,000,000.
#[tactic(auto, unfolding(crate::specs::Orders::tries_of))]
fn tries_of(value: &Value<'_>) -> Option<u32>
    ensures { result ≡ spec.tries_of (value_view value.now) }
{
    let tries = whole_u32(value)?;
    if tries == 0 || tries > MOST_TRIES {
        return None;
    }
    Some(tries)
}

/// The number of milliseconds to wait: 0 to 3,600,000.
#[tactic(auto, unfolding(crate::specs::Orders::wait_of))]
fn wait_of(value: &Value<'_>) -> Option<u32>
    ensures { result ≡ spec.wait_of (value_view value.now) }
{
    let wait = whole_u32(value)?;
    if wait > MOST_WAIT {
        return None;
    }
    Some(wait)
}

/// The patience, from one of two members, or the default.
#[tactic(auto, unfolding(crate::specs::Orders::patience_of))]
fn patience_of(value: &Value<'_>) -> Option<Patience>
    ensures { result ≡ spec.patience_of (value_view value.now) }
{
    match (value.get("tries"), value.get("wait")) {
        (None, None) => Some(Patience::Tries(USUAL_TRIES)),
        (Some(tries), None) => Some(Patience::Tries(tries_of(tries)?)),
        (None, Some(wait)) => Some(Patience::Wait(wait_of(wait)?)),
        (Some(_), Some(_)) => None,
    }
}

/// The number of a value's members that give the patience.
#[tactic(auto, unfolding(crate::specs::Orders::patience_keys))]
fn patience_keys(value: &Value<'_>) -> usize
    ensures keys { result ≡ spec.patience_keys (value_view value.now) }
    ensures few { result ≤ 2 }
{
    usize::from(value.get("tries").is_some()) + usize::from(value.get("wait").is_some())
}

/// A submission, with or without its optional member.
#[tactic(auto, unfolding(crate::specs::Orders::submission_of))]
fn submission_of(names: &Names, most: u64, count: usize, value: &Value<'_>) -> Option<Submission>
    ensures { result ≡ spec.submission_of names.now most count (value_view value.now) }
{
    let number = whole_up_to(most, value.get("number")?)?;
    let lock = lock_member(names, value)?;
    let script = script_of_value(value.get("script")?)?;
    let patience = patience_of(value)?;
    if count != 4 + patience_keys(value) {
        return None;
    }
    Some(Submission {
        number,
        job: Job { lock, script },
        patience,
    })
}

#[tactic(auto, unfolding(crate::specs::Orders::resume_of))]
fn resume_of(count: usize, value: &Value<'_>) -> Option<Order>
    ensures { result ≡ spec.resume_of count (value_view value.now) }
{
    let patience = patience_of(value)?;
    if count != 1 + patience_keys(value) {
        return None;
    }
    Some(Order::Resume(patience))
}

/// The number of own steps before the crash: 0 to 1,000,000.
#[tactic(auto, unfolding(crate::specs::Orders::crash_steps_of))]
fn crash_steps_of(value: &Value<'_>) -> Option<u32>
    ensures { result ≡ spec.crash_steps_of (value_view value.now) }
{
    let steps = whole_u32(value)?;
    if steps > MOST_STEPS {
        return None;
    }
    Some(steps)
}

#[tactic(auto, unfolding(crate::specs::Orders::crash_after_of))]
fn crash_after_of(count: usize, value: &Value<'_>) -> Option<Order>
    ensures { result ≡ spec.crash_after_of count (value_view value.now) }
{
    if count != 2 {
        return None;
    }
    Some(Order::CrashAfter(crash_steps_of(value.get("steps")?)?))
}

/// An order that has only a word.
#[tactic(auto, unfolding(crate::specs::Orders::bare_order))]
pub(crate) fn bare_order(word: &str, count: usize) -> Option<Order>
    ensures { result ≡ spec.bare_order word.now count }
{
    if count != 1 {
        return None;
    }
    if word == "withdraw" {
        return Some(Order::Withdraw);
    }
    if word == "commit" {
        return Some(Order::Commit);
    }
    if word == "last" {
        return Some(Order::Last);
    }
    if word == "detach" {
        return Some(Order::Detach);
    }
    if word == "ping" {
        return Some(Order::Ping);
    }
    if word == "pending" {
        return Some(Order::Pending);
    }
    None
}
