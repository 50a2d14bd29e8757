//! Many workers in concurrent threads, with crashes, and the closed service afterwards.

ghost use Rattle.std.specs.Prelude.{◌≡◌};

use crate::service::chances::ScriptedChance;
use crate::service::lives::{WorkerTask, live_on};
use crate::service::plans::{DrawnPlan, RandomNumbers, draw_plan};
use crate::service::watch::SectionMonitor;
use crate::test_values::open;
use rme::service::{ClosedLock, Down, EntryList, Service};
use rme::{Entry, Job, Refusal};
use std::process::Abort;
use std::sync::atomic::{AtomicU64, Ordering};
use std::test::Fail;
use std::thread;

const WORKERS: u32 = 8;

const LOCKS: u32 = 4;

const CELLS: u32 = 3;

/// The number of jobs of each worker, of 22 own steps at least, and of its crashes, at most 100 own steps apart: so
/// each crash comes before the last job.
const JOBS: u32 = 1000;

const FALLS: u32 = 200;

/// All lives of a worker with its plan. The crashes are counted, and the watch sees each section.
fn work(
    service: &Service,
    down: Down,
    plans: &[DrawnPlan],
    fallen: &AtomicU64,
    watch: &SectionMonitor,
) -> Down
    requires ours { down.ident ≡ service.now }
    ensures ours { result.ident ≡ service.now }
{
    let Some(plan) = plans.get(down.worker() as usize) else {
        return down;
    };
    let mut falls = ScriptedChance::new(plan.falls.as_slice());
    let lives = plan.falls.len().saturating_add(1);
    let task = WorkerTask {
        jobs: plan.jobs.as_slice(),
        lives,
    };
    let down = live_on(service, down, &task, &mut falls, watch);
    fallen.fetch_add(falls.fallen() as u64, Ordering::SeqCst);
    down
}

/// Whether an entry is this job of a worker, under this number.
fn is_made(entry: &Entry, worker: u32, number: u32, job: &Job) -> bool {
    let receipt = entry.receipt;
    receipt.worker == worker
        && receipt.number == number
        && receipt.lock == job.lock
        && entry.script == job.script
}

/// The entries of a worker are its jobs, in order, each once.
fn check_entries(rt: &impl Abort, worker: u32, entries: &EntryList, jobs: &[Job]) {
    assert!(rt; entries.len() == jobs.len());
    let mut number: u32 = 0;
    for job in jobs {
        let entry = entries.get(number as usize);
        number = number.saturating_add(1);
        assert!(rt; entry.is_some_and(|entry| is_made(&entry, worker, number, job)));
    }
}

/// All jobs have an entry, and no worker is at a lock.
fn check_locks(rt: &impl Abort, locks: &[ClosedLock]) {
    let mut entries: usize = 0;
    for lock in locks {
        assert!(rt; lock.settled);
        entries = entries.saturating_add(lock.entries.len());
    }
    assert!(rt; entries == (WORKERS * JOBS) as usize);
}

/// Eight workers on four locks make all of their jobs, each once, however often they crash, and none enters a section
/// while another is there.
#[test]
fn stress(rt: HostRuntime) -> Result<(), Fail> {
    let (service, downs) = open(rt.alloc(), (WORKERS, LOCKS, CELLS, JOBS))?;
    let mut numbers = RandomNumbers::new(20161);
    let mut plans = Vec::new(rt.alloc());
    for _ in 0..WORKERS {
        plans.push(draw_plan(rt.alloc(), &mut numbers, (JOBS, FALLS), (LOCKS, CELLS))?)?;
    }
    let watch = SectionMonitor::new();
    let (shared, planned, fallen) = (&service, plans.as_slice(), &AtomicU64::new(0));
    let seen = &watch;
    let life = |down: Down| -> Down
        requires { down.ident ≡ shared.now }
        ensures { result.ident ≡ shared.entry.now }
    { work(shared, down, planned, fallen, seen) };
    let downs = thread::map_vec(&rt, downs, &life)?;
    assert!(rt; downs.len() == WORKERS as usize);
    assert!(rt; fallen.load(Ordering::SeqCst) == u64::from(WORKERS * FALLS));
    assert!(rt; watch.clashes() == 0);
    assert!(rt; watch.visits() >= u64::from(WORKERS * JOBS));
    for (down, plan) in downs.iter().zip(&plans) {
        check_entries(&rt, down.worker(), down.entries(), plan.jobs.as_slice());
    }
    let Ok(closed) = service.close(downs) else {
        return Err(Refusal::NoMemory.into());
    };
    check_locks(&rt, &closed.locks);
    Ok(())
}
