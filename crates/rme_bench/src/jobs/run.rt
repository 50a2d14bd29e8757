//! One run: the threads, their time, and the check when all jobs are over.

ghost use Rattle.std.specs.Prelude.{◌≡◌};
ghost use Rattle.rme_service_steps.specs.Closing.{SeatsAreOfService};

use crate::fault::BenchFailure;
use crate::jobs::life::live;
use rme_table::{Down, Service};
use rme_words::Shape;
use std::alloc::Global;
use std::sync::atomic::{AtomicU64, Ordering};
use std::thread::Threads;
use std::time::{Clock, Instant};
use std::{hint, io, thread};

/// A number of threads, each with a number of jobs, all on the first lock or each on the lock of its own number.
#[derive(Drop)]
pub struct JobsRun {
    pub threads: u32,
    pub jobs: u32,
    pub own: bool,
}

/// More turns than the threads need to arrive at the start.
const MOST_TURNS: u64 = 100_000_000;

impl JobsRun {
    /// One thread with one job.
    pub fn smallest() -> JobsRun {
        JobsRun {
            threads: 1,
            jobs: 1,
            own: false,
        }
    }

    fn locks(&self) -> u32 {
        if self.own { self.threads } else { 1 }
    }

    fn lock_of(&self, worker: u32) -> u32 {
        if self.own { worker } else { 0 }
    }

    /// The number of jobs of each lock when the run is over.
    fn jobs_of_lock(&self) -> u64 {
        if self.own {
            return u64::from(self.jobs);
        }
        u64::from(self.jobs).saturating_mul(u64::from(self.threads))
    }
}

/// The barrier where the threads start: the number that arrived, and when the first went on, in nanoseconds after the
/// opening.
#[derive(Drop)]
struct StartBarrier {
    opened: Instant,
    arrived: AtomicU64,
    began: AtomicU64,
}

impl StartBarrier {
    fn new(opened: Instant) -> StartBarrier {
        StartBarrier {
            opened,
            arrived: AtomicU64::new(0),
            began: AtomicU64::new(u64::MAX),
        }
    }

    /// Waits until all threads of the run are here, but not forever: if threads could not be made, they run one after
    /// another.
    fn wait<R: Clock>(&self, rt: &R, threads: u32) {
        self.arrived.fetch_add(1, Ordering::SeqCst);
        for _ in 0..MOST_TURNS {
            if self.arrived.load(Ordering::SeqCst) >= u64::from(threads) {
                break;
            }
            hint::spin_loop();
            thread::yield_now();
        }
        if let Ok(time) = self.time(rt) {
            self.began.fetch_min(time, Ordering::SeqCst);
        }
    }

    /// Nanoseconds since the opening.
    fn time<R: Clock>(&self, rt: &R) -> io::Result<u64> {
        Ok(u64::try_from(self.opened.elapsed(rt)?.as_nanos()).unwrap_or(u64::MAX))
    }

    /// Nanoseconds since the first thread went on.
    fn time_of_run<R: Clock>(&self, rt: &R) -> io::Result<u64> {
        Ok(
            self.time(rt)?
                .saturating_sub(self.began.load(Ordering::SeqCst)),
        )
    }
}

/// The body of a thread: waits for the others, and makes its jobs.
fn work<R: Clock>(
    rt: &R,
    service: &Service,
    down: Down,
    run: &JobsRun,
    start: &StartBarrier,
) -> Down
    requires ours { down.ident ≡ service.now }
    ensures ours { result.ident ≡ service.now }
{
    let lock = run.lock_of(down.worker());
    start.wait(rt, run.threads);
    let lived = live(service, down, lock, run.jobs);
    match lived {
        Ok(ready) => ready.crash(),
        Err(down) => down,
    }
}

/// Nanoseconds per job, over all jobs of all threads, from the moment that the first thread goes on to the last join.
/// `Err` if the run could not be made, or if the cell of a lock is not the number of its jobs then.
pub fn time_of<R: Threads + Clock + Sync>(
    rt: &R,
    alloc: Global,
    run: &JobsRun,
) -> Result<u64, BenchFailure> {
    let shape = Shape::new(run.threads, run.locks(), 1, run.jobs)?;
    let (service, downs) = Service::new(alloc, shape)?;
    let start = StartBarrier::new(Instant::now(rt)?);
    let (shared, gate) = (&service, &start);
    let life = |down: Down| -> Down
        requires { down.ident ≡ shared.now }
        ensures { result.ident ≡ shared.entry.now }
    { work(rt, shared, down, run, gate) };
    let downs = thread::map_vec(rt, downs, &life)?;
    let time = start.time_of_run(rt)?;
    check(service, downs, run)?;
    let jobs = u64::from(run.threads).saturating_mul(u64::from(run.jobs));
    Ok(time / jobs.max(1))
}

/// Checks at the end of all jobs that each counts once.
fn check(service: Service, downs: Vec<Down>, run: &JobsRun) -> Result<(), BenchFailure>
    requires ours { SeatsAreOfService service downs.items }
{
    let Ok(closed) = service.close(downs) else {
        return Err(BenchFailure);
    };
    for lock in &closed.locks {
        if lock.cells.as_slice() != [run.jobs_of_lock()].as_slice() {
            return Err(BenchFailure);
        }
    }
    Ok(())
}
