//! A simulator of faults: the durable server, with many sessions, over a disk in memory that fails and loses what was
//! not synced, and a server that crashes at any moment. Everything is drawn from a seed and done by one thread.
//!
//! `rme_faults SEED COUNT` runs the simulations of COUNT seeds, and prints what it counted and a line
//! `FAILED seed N step K: what` for each that failed; `rme_faults N 1 --trace` prints the schedule of one. After each
//! answer, and over each restart, the answers are checked against a model that knows nothing of the server but its
//! answers, rme_faults_model. Begin with `simulation.rt`, then `steps.rt`; `disk.rt` has the faults.
#![tactic(auto)]

mod client;
mod clock;
mod defect;
mod disk;
mod fault;
mod life;
mod lines_of_file;
mod plan;
mod recovering;
mod run;
mod simulation;
mod stage;
mod steps;
mod words;

use crate::fault::SimulationFailure;
use crate::run::SimulationCounts;
use crate::simulation::{Outcome, simulate};
use crate::words::{Task, read_words};
use std::process::ExitCode;
use std::sync::Wait;

fn main(rt: HostRuntime) -> ExitCode {
    match perform(&rt, &rt) {
        Ok(true) => ExitCode::SUCCESS,
        Ok(false) => ExitCode::from(1),
        Err(_) => ExitCode::from(2),
    }
}

/// Runs the simulations that the words ask for, and answers whether none failed.
fn perform<R: Wait>(rt: &HostRuntime, threads: &R) -> Result<bool, SimulationFailure> {
    let task = read_words(rt)?;
    let counts = run_all(rt, threads, &task)?;
    print_counts(rt, &counts)?;
    Ok(counts.failed == 0)
}

fn run_all<R: Wait>(
    rt: &HostRuntime,
    threads: &R,
    task: &Task,
) -> Result<SimulationCounts, SimulationFailure> {
    let mut counts = SimulationCounts::NONE;
    for more in 0..task.count {
        let seed = task.first.wrapping_add(more);
        let Outcome {
            counts: found,
            failure,
        } = simulate(rt, threads, seed, task.asked)?;
        counts.add(&found);
        if let Some((step, wrong)) = failure {
            counts.fail();
            println!(rt; "FAILED seed {seed} step {step}: {wrong}")?;
        }
    }
    Ok(counts)
}

fn print_counts(rt: &HostRuntime, counts: &SimulationCounts) -> Result<(), SimulationFailure> {
    let SimulationCounts {
        seeds,
        orders,
        answers,
        receipts,
        lives,
        crashes,
        stops,
        faults,
        torn,
        checkpoints,
        growths,
        failed,
    } = *counts;
    println!(rt; "seeds {seeds} orders {orders} answers {answers} receipts {receipts}")?;
    println!(rt; "lives {lives} crashes {crashes} stops {stops} faults {faults} torn {torn}")?;
    println!(rt; "checkpoints {checkpoints} growths {growths} failed {failed}")?;
    Ok(())
}
