//! The life of a thread's worker.

ghost use Rattle.std.specs.Prelude.{◌≡◌, MatchResult};

use rme_script::{Job, Op, Script};
use rme_table::{Climb, Down, Held, Never, Posted, Ready, Service, Stance, Sweep};
use std::{hint, thread};

/// More sweeps than any job needs.
const MOST_SWEEPS: u64 = 1 << 62;

/// Recovers, and makes this number of jobs on a lock.
pub fn live(service: &Service, down: Down, lock: u32, jobs: u32) -> Result<Ready, Down>
    requires ours { down.ident ≡ service.now }
    ensures ours { MatchResult result (λ ready. ready.ident ≡ service.now) (λ down. down.ident ≡ service.now) }
{
    let job = Job {
        lock,
        script: Script::of(&[Op::Add(0, 1)]),
    };
    let mut ready = come_up(service, down)?;
    for _ in 0..jobs {
        ready = make_job(service, ready, &job)?;
    }
    Ok(ready)
}

/// Recovers, and must be ready.
fn come_up(service: &Service, down: Down) -> Result<Ready, Down>
    requires ours { down.ident ≡ service.now }
    ensures ours { MatchResult result (λ ready. ready.ident ≡ service.now) (λ down. down.ident ≡ service.now) }
{
    match down.recover(service, &mut Never)? {
        Stance::Ready(ready) => Ok(ready),
        Stance::Climb(climb) => Err(climb.crash()),
        Stance::Held(held) => Err(held.crash()),
        Stance::Leave(leave) => Err(leave.crash()),
    }
}

/// Makes a job: posts it, sweeps until the worker has the lock, performs it and leaves.
fn make_job(service: &Service, ready: Ready, job: &Job) -> Result<Ready, Down>
    requires ours { ready.ident ≡ service.now }
    ensures ours { MatchResult result (λ ready. ready.ident ≡ service.now) (λ down. down.ident ≡ service.now) }
{
    let climb = match ready.post(service, *job, &mut Never) {
        Posted::Asked(climb) => climb,
        Posted::Fell(down) => return Err(down),
        Posted::Refused(ready, _) => return Err(ready.crash()),
    };
    let held = enter(service, climb)?;
    let (leave, _receipt) = held.perform(service, &mut Never)?;
    leave.exit(service, &mut Never)
}

/// Sweeps until the worker has the lock. After each blocked sweep it pauses and yields the processor once.
fn enter(service: &Service, mut climb: Climb) -> Result<Held, Down>
    requires ours { climb.ident ≡ service.now }
    ensures ours { MatchResult result (λ held. held.ident ≡ service.now) (λ down. down.ident ≡ service.now) }
{
    for _ in 0..MOST_SWEEPS {
        match climb.try_enter(service, &mut Never) {
            Sweep::Got(held) => return Ok(held),
            Sweep::Blocked(blocked) => climb = blocked,
            Sweep::Fell(down) => return Err(down),
        }
        hint::spin_loop();
        thread::yield_now();
    }
    Err(climb.crash())
}
