//! Makes own steps of a world, for the benchmark `bench/steps`.
//!
//! Workers run jobs in turn, each from its submission until the worker is ready again, on one lock of 16 cells. The
//! number of own steps is printed, and the sum of all places and replies, by which two programs can be compared.

use crate::fault::BenchFailure;
use rme_program::Note;
use rme_script::{Job, Op, Script};
use rme_words::{Refusal, Shape};
use rme_world::World;

/// The number of workers of a world, and of jobs that are run in one world.
const WORKERS: u32 = 8;

const JOBS: u32 = 1000;

/// More steps than any job has.
const MOST_STEPS: u32 = 1000;

/// Eight operations that name sixteen cells.
const EIGHT: [Op; 8] = [
    Op::Swap(0, 1),
    Op::Copy(2, 3),
    Op::Swap(4, 5),
    Op::Copy(6, 7),
    Op::Swap(8, 9),
    Op::Copy(10, 11),
    Op::Swap(12, 13),
    Op::Copy(14, 15),
];

/// The number of own steps, and the sum of all places and replies.
#[derive(Drop)]
struct StepTotals {
    steps: u64,
    sum: u64,
}

/// Runs this number of worlds, with scripts of this number of operations: 8, or else 0.
pub fn run_steps(rt: &HostRuntime, worlds: u32, operations: u32) -> Result<(), BenchFailure> {
    let script = if operations == 8 {
        Script::of(&EIGHT)
    } else {
        Script::of(&[])
    };
    let job = Job { lock: 0, script };
    let mut made = StepTotals { steps: 0, sum: 0 };
    for _ in 0..worlds {
        run_world(rt, &job, &mut made)?;
    }
    Ok(println!(rt; "steps={} sum={}", made.steps, made.sum)?)
}

/// Runs the jobs of one new world.
fn run_world(rt: &HostRuntime, job: &Job, made: &mut StepTotals) -> Result<(), Refusal> {
    let shape = Shape::new(WORKERS, 1, 16, JOBS)?;
    let mut world = World::new(rt.alloc(), shape)?;
    for number in 0..JOBS {
        run_job(&mut world, number % WORKERS, job, made)?;
    }
    Ok(())
}

/// Runs one job of one worker, from its submission until the worker is ready.
fn run_job(
    world: &mut World,
    worker: u32,
    job: &Job,
    made: &mut StepTotals,
) -> Result<(), Refusal> {
    let _number = world.submit(worker, *job)?;
    for _ in 0..MOST_STEPS {
        let note = world.step(worker)?;
        made.steps = made.steps.wrapping_add(1);
        match note {
            Note::Finished(receipt) => {
                let sum = receipt.reply.wrapping_add(u64::from(receipt.place));
                made.sum = made.sum.wrapping_add(sum);
            }
            Note::Ready => break,
            _ => {}
        }
    }
    Ok(())
}
