//! The lives of a worker that has a list of jobs to do.

ghost use Rattle.std.specs.Prelude.{◌≡◌, MatchResult};

use crate::service::chances::ScriptedChance;
use crate::service::watch::SectionMonitor;
use rme::Job;
use rme::service::{Climb, Down, Held, Leave, Posted, Ready, Service, Stance, Sweep};
use std::{hint, thread};

/// More than the blocked sweeps of any job here.
const MOST_SWEEPS: u32 = 1_000_000_000;

/// The jobs of a worker, and its greatest number of lives.
#[derive(Clone, Copy)]
pub struct WorkerTask<'a> {
    pub jobs: &'a [Job],
    pub lives: usize,
}

/// The lives of a worker. Each but the last ends by a crash.
pub fn live_on(
    service: &Service,
    mut down: Down,
    task: &WorkerTask<'_>,
    chance: &mut ScriptedChance<'_>,
    watch: &SectionMonitor,
) -> Down
    requires ours { down.ident ≡ service.now }
    ensures ours { result.ident ≡ service.now }
{
    for _ in 0..task.lives {
        match live(service, down, task.jobs, chance, watch) {
            Ok(ready) => return ready.crash(),
            Err(fallen) => down = fallen,
        }
    }
    down
}

/// One life: the worker recovers, finishes its pending job, and makes the jobs that it has not begun.
fn live(
    service: &Service,
    down: Down,
    jobs: &[Job],
    chance: &mut ScriptedChance<'_>,
    watch: &SectionMonitor,
) -> Result<Ready, Down>
    requires ours { down.ident ≡ service.now }
    ensures ours { MatchResult result (λ ready. ready.ident ≡ service.now) (λ down. down.ident ≡ service.now) }
{
    let mut ready = match down.recover(service, chance)? {
        Stance::Ready(ready) => ready,
        Stance::Climb(climb) => go_in(service, climb, chance, watch)?,
        Stance::Held(held) => go_on(service, held, chance, watch)?,
        Stance::Leave(leave) => leave.exit(service, chance)?,
    };
    for _ in 0..jobs.len() {
        let Some(job) = jobs.get(ready.number() as usize) else {
            break;
        };
        match ready.post(service, *job, chance) {
            Posted::Asked(climb) => ready = go_in(service, climb, chance, watch)?,
            Posted::Fell(down) => return Err(down),
            Posted::Refused(ready, _) => return Ok(ready),
        }
    }
    Ok(ready)
}

/// From waiting to readiness: sweep after sweep, and a pause after each that was blocked.
fn go_in(
    service: &Service,
    mut climb: Climb,
    chance: &mut ScriptedChance<'_>,
    watch: &SectionMonitor,
) -> Result<Ready, Down>
    requires ours { climb.ident ≡ service.now }
    ensures ours { MatchResult result (λ ready. ready.ident ≡ service.now) (λ down. down.ident ≡ service.now) }
{
    for _ in 0..MOST_SWEEPS {
        match climb.try_enter(service, chance) {
            Sweep::Got(held) => return go_on(service, held, chance, watch),
            Sweep::Blocked(blocked) => climb = blocked,
            Sweep::Fell(down) => return Err(down),
        }
        hint::spin_loop();
        thread::yield_now();
    }
    Err(climb.crash())
}

/// From inside to readiness. The watch sees the worker in the section from here to the first step of its exit; a crash
/// meanwhile leaves it there.
fn go_on(
    service: &Service,
    held: Held,
    chance: &mut ScriptedChance<'_>,
    watch: &SectionMonitor,
) -> Result<Ready, Down>
    requires ours { held.ident ≡ service.now }
    ensures ours { MatchResult result (λ ready. ready.ident ≡ service.now) (λ down. down.ident ≡ service.now) }
{
    let lock = held.lock();
    watch.go_in(lock, held.worker());
    let (leave, _receipt) = held.perform(service, chance)?;
    watch.go_out(lock);
    leave.exit(service, chance)
}
