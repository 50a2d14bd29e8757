//! The lives of workers: how often each was restarted, over all epochs.

ghost use Rattle.std.specs.Prelude.{◌≡◌, Some};
ghost use Rattle.rme_durable_format.specs.Lives as spec;

use rme_session_world::{BatchStart, EventBatch};
use rme_wire::{Command, Request};

/// The life of a worker; 0 for a worker that is not listed.
pub fn life_of(lives: &[u64], worker: u32) -> u64
    ensures { result ≡ spec.life_of lives.now worker }
{
    lives.get(worker as usize).copied().unwrap_or(0)
}

/// Counts the restart with which an event batch may begin.
pub fn count_batch(lives: &mut Vec<u64>, batch: &Option<EventBatch>)
    ensures { lives.new.items ≡ spec.lives_after_batch_if lives.old.items batch.now }
{
    let Some(batch) = batch else {
        return;
    };
    if let BatchStart::Restart = batch.begins {
        count_life(lives, batch.worker);
    }
}

/// Counts a restart that a line of a log asks for.
pub(crate) fn count_restart(lives: &mut Vec<u64>, request: Request)
    ensures { lives.new.items ≡ spec.lives_after_request lives.old.items (Some request) }
{
    if let Request::World(Command::Restart(worker)) = request {
        count_life(lives, worker);
    }
}

/// One more life of a worker that is listed.
fn count_life(lives: &mut Vec<u64>, worker: u32)
    ensures { lives.new.items ≡ spec.one_more_life lives.old.items worker }
{
    let place = worker as usize;
    if place < lives.len() {
        lives[place] = lives[place].saturating_add(1);
    }
}
