//! Threads that hold the values of workers, each in a thread of its own.

ghost use Rattle.std.specs.Prelude.{◌≡◌, MatchResult};

use rme::service::{Climb, Down, Held, Never, Posted, Ready, Service, Stance, Sweep};
use rme::{Job, Op, Script, Shape};
use std::test::Fail;
use std::thread;

/// More sweeps than any worker here needs.
const MOST_SWEEPS: u32 = 1_000_000_000;

/// Makes a job. The worker owns its lock when it loses all that it knows; it comes back, and the job counts once.
fn make(service: &Service, down: Down, job: Job) -> Result<Ready, Down>
    requires ours { down.ident ≡ service.now }
    ensures ours { MatchResult result (λ ready. ready.ident ≡ service.now) (λ down. down.ident ≡ service.now) }
{
    let ready = come_up(service, down)?;
    match ready.post(service, job, &mut Never) {
        Posted::Asked(climb) => {
            let held = enter(service, climb)?;
            come_up(service, held.crash())
        }
        Posted::Fell(down) => Err(down),
        Posted::Refused(ready, _) => Ok(ready),
    }
}

/// From wherever the worker fell to readiness.
fn come_up(service: &Service, down: Down) -> Result<Ready, Down>
    requires ours { down.ident ≡ service.now }
    ensures ours { MatchResult result (λ ready. ready.ident ≡ service.now) (λ down. down.ident ≡ service.now) }
{
    match down.recover(service, &mut Never)? {
        Stance::Ready(ready) => Ok(ready),
        Stance::Leave(leave) => leave.exit(service, &mut Never),
        Stance::Climb(climb) => finish(service, enter(service, climb)?),
        Stance::Held(held) => finish(service, held),
    }
}

/// Makes the job that the worker owns its lock with.
fn finish(service: &Service, held: Held) -> Result<Ready, Down>
    requires ours { held.ident ≡ service.now }
    ensures ours { MatchResult result (λ ready. ready.ident ≡ service.now) (λ down. down.ident ≡ service.now) }
{
    let (leave, _receipt) = held.perform(service, &mut Never)?;
    leave.exit(service, &mut Never)
}

/// Sweeps until the lock is the worker's.
fn enter(service: &Service, mut climb: Climb) -> Result<Held, Down>
    requires ours { climb.ident ≡ service.now }
    ensures ours { MatchResult result (λ held. held.ident ≡ service.now) (λ down. down.ident ≡ service.now) }
{
    for _ in 0..MOST_SWEEPS {
        match climb.try_enter(service, &mut Never) {
            Sweep::Got(held) => return Ok(held),
            Sweep::Blocked(blocked) => climb = blocked,
            Sweep::Fell(down) => return Err(down),
        }
        thread::yield_now();
    }
    Err(climb.crash())
}

/// Four workers in four threads: each adds 1 to the cell, and crashes while it owns the lock.
#[test]
fn threads_that_come_back(rt: HostRuntime) -> Result<(), Fail> {
    let (service, downs) = Service::new(rt.alloc(), Shape::new(4, 1, 1, 1)?)?;
    let shared = &service;
    let script = Script::of(&[Op::Add(0, 1)]);
    let life = |down: Down| -> Down
        requires { down.ident ≡ shared.now }
        ensures { result.ident ≡ shared.entry.now }
    {
        match make(shared, down, Job { lock: 0, script }) {
            Ok(ready) => ready.crash(),
            Err(down) => down,
        }
    };
    let downs = thread::map_vec(&rt, downs, &life)?;
    let Ok(closed) = service.close(downs) else {
        panic!(rt; "the service was not closed");
    };
    assert!(rt; closed.locks.len() == 1);
    assert!(rt; closed.locks[0].cells.as_slice() == [4].as_slice());
    assert!(rt; closed.locks[0].entries.len() == 4);
    Ok(())
}
