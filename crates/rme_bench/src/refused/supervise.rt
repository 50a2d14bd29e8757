//! A supervised run.

ghost use Rattle.std.specs.Prelude.{◌≡◌};
ghost use Rattle.rme_service_steps.specs.Closing.{SeatsAreOfService};

use crate::fault::BenchFailure;
use crate::refused::close::{close_whole, print_closed};
use rme_script::{Job, Op, Script};
use rme_supervisor::{End, Free, WorkerPlan, supervise};
use rme_table::{Closed, Service};
use rme_words::{Refusal, Shape};
use std::alloc::{AllocError, Global};
use std::sync::Wait;
use std::thread::Threads;

/// The number of workers, and of the jobs of each.
const WORKERS: u32 = 2;

const JOBS: u32 = 3;

/// Supervises workers that crash once each. If that is refused, the service and all workers come back, and what they
/// did is still there.
pub fn supervise_workers<R: Threads + Wait + Sync>(
    rt: &HostRuntime,
    threads: &R,
) -> Result<(), BenchFailure> {
    let alloc = rt.alloc();
    let (service, downs) = Service::new(alloc, Shape::new(WORKERS, 1, 1, JOBS)?)?;
    let plans = plans_of(alloc)?;
    match supervise(threads, alloc, service, downs, plans, &Free) {
        Ok(report) => {
            let mut done: u32 = 0;
            for end in &report.ends {
                if *end == End::AllDone {
                    done = done.saturating_add(1);
                }
            }
            println!(rt; "done {done} of {}", report.ends.len())?;
            print_closed(rt, &report.closed)
        }
        Err(fault) => {
            println!(rt; "refused")?;
            print_closed(rt, &close_faulted(fault)?)
        }
    }
}

/// Closes the service of a run that was refused, with all its workers.
fn close_faulted(fault: rme_supervisor::Fault) -> Result<Closed, BenchFailure>
    requires { SeatsAreOfService fault.service fault.downs.items }
{
    let rme_supervisor::Fault {
        why,
        service,
        downs,
    } = fault;
    if why != Refusal::NoMemory || downs.len() != WORKERS as usize {
        return Err(BenchFailure);
    }
    close_whole(service, downs)
}

/// The plan of each worker: some jobs, and a crash before the first is asked for, so that a worker without a thread for
/// its second life owns nothing that the other one waits for.
fn plans_of(alloc: Global) -> Result<Vec<WorkerPlan>, AllocError> {
    let job = Job {
        lock: 0,
        script: Script::of(&[Op::Add(0, 1)]),
    };
    let mut plans = Vec::with_capacity(alloc, WORKERS as usize)?;
    for _ in 0..WORKERS {
        plans.push(WorkerPlan {
            jobs: vec![in alloc; job; JOBS as usize]?,
            falls: vec![in alloc; 7]?,
            lives: 2,
            sweeps: 1_000_000_000,
        })?;
    }
    Ok(plans)
}
