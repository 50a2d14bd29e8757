//! `rme threads`: supervised workers that add to one cell.

ghost use Rattle.std.specs.Prelude.{◌≡◌, IfOk, IfSome};
ghost use Rattle.rme_service_steps.specs.Closing.{SeatsAreOfService};
ghost use Rattle.rme_table.specs.Counting.{IsCountedService};

use crate::final_report::{FinalReport, ThreadsOutcome, end_with, report_threads};
use crate::progress_gate::ProgressGate;
use rme_cli_messages::{CliFault, why_not_falls, why_not_sizes};
use rme_cli_options::ThreadsTask;
use rme_script::{Job, Op, Script};
use rme_supervisor::{Attended, Free, Gate, RunContext, Schedule, WorkerPlan, attend};
use rme_table::{CountRoom, Service};
use rme_words::{Refusal, Shape};
use std::alloc::{AllocError, Global};
use std::sync::Wait;
use std::thread::Threads;
use std::{fs, io};

/// More than the number of blocked sweeps of any job here.
const MOST_SWEEPS: u32 = 1_000_000_000;

/// The link to the standard error, and the prefix of a terminal's name.
const STANDARD_ERROR: &str = "/proc/self/fd/2";

const TERMINALS: [&str; 3] = ["/dev/pts/", "/dev/tty", "/dev/console"];

/// Runs the workers, prints the final state of their lock, and answers the status.
pub fn run_threads<R: Threads + Wait + Sync>(
    rt: &HostRuntime,
    threads: &R,
    task: &ThreadsTask,
) -> Result<u8, CliFault> {
    let room = FinalReport::with_room(rt.alloc())?;
    let ran = if task.is_quiet || !is_watched(rt) {
        run_with(rt, threads, task, &Free)
    } else {
        run_watched(rt, threads, task)
    };
    let outcome = ran?;
    let closing = report_threads(room, task.workers, task.jobs, &outcome)?;
    end_with(&mut io::writer(rt), &mut rt.stderr(), &closing)
}

/// Runs the workers, and shows their progress meanwhile.
fn run_watched<R: Threads + Wait + Sync>(
    rt: &HostRuntime,
    threads: &R,
    task: &ThreadsTask,
) -> Result<Option<ThreadsOutcome>, CliFault> {
    let jobs = u64::from(task.workers).saturating_mul(u64::from(task.jobs));
    let progress = ProgressGate::new(rt, jobs);
    let ran = run_with(rt, threads, task, &progress);
    progress.end();
    ran
}

/// Whether the standard error is a terminal.
fn is_watched(rt: &HostRuntime) -> bool {
    let Ok(path) = fs::read_link(rt, STANDARD_ERROR) else {
        return false;
    };
    TERMINALS
        .iter()
        .any(|start| path.as_str().starts_with(*start))
}

/// Runs the workers with this gate. No outcome if a worker was not given back. All memory is taken before the first
/// job.
fn run_with<G: Gate + Sync, R: Threads + Wait + Sync>(
    rt: &HostRuntime,
    threads: &R,
    task: &ThreadsTask,
    gate: &G,
) -> Result<Option<ThreadsOutcome>, CliFault> {
    let Ok(shape) = Shape::new(task.workers, 1, 1, task.jobs) else {
        let why = why_not_sizes(("WORKERS", task.workers), ("", 1), ("JOBS", task.jobs));
        return Err(CliFault::BadArguments(why));
    };
    let plans = plans_of(rt.alloc(), task)?;
    let Ok((service, downs)) = Service::new(rt.alloc(), shape) else {
        return Err(CliFault::NoMemory);
    };
    let room = service.room_for_counts()?;
    let schedule = Schedule {
        plans: &plans,
        rounds: task.jobs,
    };
    let context = RunContext {
        service: &service,
        schedule,
        gate,
    };
    match attend(threads, rt.alloc(), &context, downs) {
        Ok(attended) => close(service, attended, room),
        Err(unattended) => match unattended.why {
            Refusal::BadShape => Err(CliFault::BadArguments(why_not_falls(task.falls.as_slice()))),
            Refusal::NoWorker => Ok(None),
            _ => Err(CliFault::NoMemory),
        },
    }
}

/// Closes the service of a run that is over.
fn close(
    service: Service,
    attended: Attended,
    room: CountRoom,
) -> Result<Option<ThreadsOutcome>, CliFault>
    requires ours { SeatsAreOfService service attended.downs.items }
    requires room { room ≡ service.shape }
    ensures { IfOk result (λ outcome. IfSome outcome
        (λ outcome. (outcome.ends ≡ attended.ends)
        × IsCountedService service.shape attended.downs.items outcome.counted.locks.items)) }
{
    let Attended {
        ends,
        lives: _,
        downs,
    } = attended;
    match service.close_counted(downs, room) {
        Ok(counted) => Ok(Some(ThreadsOutcome { ends, counted })),
        Err(unclosed) => match unclosed.why {
            Refusal::NoWorker => Ok(None),
            _ => Err(CliFault::NoMemory),
        },
    }
}

/// The plan of each worker: a job that adds 1, which is made in as many rounds as the task has jobs, and one more life
/// than falls.
fn plans_of(alloc: Global, task: &ThreadsTask) -> Result<Vec<WorkerPlan>, AllocError> {
    let mut plans = Vec::with_capacity(alloc, task.workers as usize)?;
    for _ in 0..task.workers {
        plans.push(plan_of(alloc, task)?)?;
    }
    Ok(plans)
}

fn plan_of(alloc: Global, task: &ThreadsTask) -> Result<WorkerPlan, AllocError> {
    let job = Job {
        lock: 0,
        script: Script::of(&[Op::Add(0, 1)]),
    };
    let lives = u32::try_from(task.falls.len()).unwrap_or(u32::MAX);
    Ok(WorkerPlan {
        jobs: vec![in alloc; job]?,
        falls: task.falls.clone()?,
        lives: lives.saturating_add(1),
        sweeps: MOST_SWEEPS,
    })
}
