//! The commands of lines.

ghost use Rattle.std.specs.Prelude.{◌≡◌, option_map, option_and_then};
ghost use Rattle.rme_line_json.specs.View.{value_view};
ghost use Rattle.rme_wire.specs.Commands as spec;

use crate::operation::script_of_value;
use crate::value::whole_u32;
use rme_line_io::Names;
use rme_line_json::Value;
use rme_script::Job;

/// The number of steps of a walk whose line gives none.
const MOST_STEPS: u32 = 10_000;

/// The kind of note that ends a walk.
#[derive(Clone, Copy, PartialEq, Eq)]
pub enum Until {
    Asked,
    Entered,
    Reentered,
    Finished,
    Left,
    Ready,
    Withdrew,
}

/// Own steps of one worker, up to the first that ends them.
#[derive(Clone, Copy)]
pub struct Walk {
    pub worker: u32,
    pub until: Option<Until>,
    /// 1 to 10,000.
    pub max: u32,
}

/// A command of a line to an open world.
///
/// Locks are numbers. A lock name that the world does not have becomes the number of names, which is no lock.
#[derive(Clone, Copy)]
pub enum Command {
    Submit(u32, Job),
    Step(u32),
    Walk(Walk),
    Crash(u32),
    Restart(u32),
    Withdraw(u32),
    Owner(u32),
    Cells(u32),
    Last(u32),
    History,
    Report,
    Save,
}

/// The number of a lock's name, or the number of names if it is no name.
#[tactic(auto, unfolding(crate::specs::Commands::lock_number))]
pub fn lock_number(names: &Names, text: &str) -> u32
    ensures { result ≡ spec.lock_number names.now text.now }
{
    match names.number(text) {
        Some(number) => number,
        None => names.len(),
    }
}

/// The number of the lock that the member `lock` names; for another name it is the number of names, which is no lock.
/// `None` if there is no such member, or it is no text.
#[tactic(auto, unfolding(crate::specs::Commands::lock_member))]
pub fn lock_member(names: &Names, value: &Value<'_>) -> Option<u32>
    ensures { result ≡ spec.lock_member names.now (value_view value.now) }
{
    let name = value.get("lock")?.as_str()?;
    Some(lock_number(names, name))
}

/// The member `worker`, a whole number below 2^32; `None` if there is none.
#[tactic(auto, unfolding(crate::specs::Commands::worker_member))]
pub fn worker_member(value: &Value<'_>) -> Option<u32>
    ensures { result ≡ spec.worker_member (value_view value.now) }
{
    whole_u32(value.get("worker")?)
}

#[tactic(auto, unfolding(crate::specs::Commands::submit_of))]
fn submit_of(names: &Names, count: usize, value: &Value<'_>) -> Option<Command>
    ensures { result ≡ spec.submit_of names.now count (value_view value.now) }
{
    if count != 4 {
        return None;
    }
    let worker = worker_member(value)?;
    let lock = lock_member(names, value)?;
    let script = script_of_value(value.get("script")?)?;
    Some(Command::Submit(worker, Job { lock, script }))
}

#[tactic(auto, unfolding(crate::specs::Commands::until_of))]
fn until_of(word: &str) -> Option<Until>
    ensures { result ≡ spec.until_of word.now }
{
    match word {
        "asked" => Some(Until::Asked),
        "entered" => Some(Until::Entered),
        "reentered" => Some(Until::Reentered),
        "finished" => Some(Until::Finished),
        "left" => Some(Until::Left),
        "ready" => Some(Until::Ready),
        "withdrew" => Some(Until::Withdrew),
        _ => None,
    }
}

/// The greatest number of steps of a walk: 1 to 10,000.
#[tactic(auto, unfolding(crate::specs::Commands::max_of))]
fn max_of(value: &Value<'_>) -> Option<u32>
    ensures { result ≡ spec.max_of (value_view value.now) }
{
    let max = whole_u32(value)?;
    if max == 0 || max > MOST_STEPS {
        return None;
    }
    Some(max)
}

/// A walk, with or without its two optional members.
#[tactic(auto, unfolding(crate::specs::Commands::walk_of))]
fn walk_of(count: usize, value: &Value<'_>) -> Option<Command>
    ensures { result ≡ spec.walk_of count (value_view value.now) }
{
    let worker = worker_member(value)?;
    let mut expected = 2;
    let mut until = None;
    let mut max = MOST_STEPS;
    if let Some(given) = value.get("until") {
        until = Some(until_of(given.as_str()?)?);
        expected += 1;
    }
    if let Some(given) = value.get("max") {
        max = max_of(given)?;
        expected += 1;
    }
    if count != expected {
        return None;
    }
    Some(Command::Walk(Walk { worker, until, max }))
}

/// A command that only names a worker.
#[tactic(auto, unfolding(crate::specs::Commands::command_of_worker))]
fn command_of_worker(word: &str, count: usize, value: &Value<'_>) -> Option<Command>
    ensures { result ≡ spec.command_of_worker word.now count (value_view value.now) }
{
    if count != 2 {
        return None;
    }
    let worker = worker_member(value)?;
    worker_command(word, worker)
}

/// The command of this word for a worker.
fn worker_command(word: &str, worker: u32) -> Option<Command>
    ensures { result ≡ spec.worker_command word.now worker }
{
    match word {
        "step" => Some(Command::Step(worker)),
        "crash" => Some(Command::Crash(worker)),
        "restart" => Some(Command::Restart(worker)),
        "withdraw" => Some(Command::Withdraw(worker)),
        "last" => Some(Command::Last(worker)),
        _ => None,
    }
}

/// A look-up that only names a lock.
#[tactic(auto, unfolding(crate::specs::Commands::command_of_lock))]
fn command_of_lock(names: &Names, word: &str, count: usize, value: &Value<'_>) -> Option<Command>
    ensures { result ≡ spec.command_of_lock names.now word.now count (value_view value.now) }
{
    if count != 2 {
        return None;
    }
    let lock = lock_member(names, value)?;
    lock_command(word, lock)
}

/// The command of this word for a lock.
fn lock_command(word: &str, lock: u32) -> Option<Command>
    ensures { result ≡ spec.lock_command word.now lock }
{
    match word {
        "owner" => Some(Command::Owner(lock)),
        "cells" => Some(Command::Cells(lock)),
        _ => None,
    }
}

/// A look-up that names no worker and no lock.
#[tactic(auto, unfolding(crate::specs::Commands::command_of_world))]
fn command_of_world(word: &str, count: usize) -> Option<Command>
    ensures { result ≡ spec.command_of_world word.now count }
{
    if count != 1 {
        return None;
    }
    match word {
        "history" => Some(Command::History),
        "report" => Some(Command::Report),
        "save" => Some(Command::Save),
        _ => None,
    }
}

/// The command of a value whose member `do` is this word and that has this number of members.
#[tactic(auto, unfolding(crate::specs::Commands::command_named))]
pub fn command_named(names: &Names, word: &str, count: usize, value: &Value<'_>) -> Option<Command>
    ensures { result ≡ spec.command_named names.now word.now count (value_view value.now) }
{
    match word {
        "submit" => submit_of(names, count, value),
        "walk" => walk_of(count, value),
        "history" | "report" | "save" => command_of_world(word, count),
        "owner" | "cells" => command_of_lock(names, word, count, value),
        _ => command_of_worker(word, count, value),
    }
}
