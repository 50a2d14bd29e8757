//! Plans of workers, drawn from a seed.

use rme::{Job, Op, Script};
use std::alloc::Global;
use std::test::Fail;

/// A linear congruential generator.
#[derive(Drop)]
pub struct RandomNumbers {
    state: u64,
}

impl RandomNumbers {
    pub fn new(seed: u64) -> RandomNumbers {
        RandomNumbers { state: seed }
    }

    /// The next number, below this one, which is not 0.
    fn draw(&mut self, below: u32) -> u32 {
        self.state = self
            .state
            .wrapping_mul(6364136223846793005)
            .wrapping_add(1442695040888963407);
        let high = (self.state >> 33) as u32;
        high.checked_rem(below).unwrap_or(0)
    }
}

/// The jobs of a worker, and the counts of own steps where it crashes.
#[derive(Drop)]
pub struct DrawnPlan {
    pub jobs: Vec<Job>,
    pub falls: Vec<u32>,
}

/// A plan of a number of jobs on these locks with this number of cells, and a number of crashes, each at most 100 own
/// steps after the one before.
pub fn draw_plan(
    alloc: Global,
    numbers: &mut RandomNumbers,
    (jobs, falls): (u32, u32),
    (locks, cells): (u32, u32),
) -> Result<DrawnPlan, Fail> {
    let mut plan = DrawnPlan {
        jobs: Vec::new(alloc),
        falls: Vec::new(alloc),
    };
    for _ in 0..jobs {
        let lock = numbers.draw(locks);
        plan.jobs.push(draw_job(numbers, lock, cells))?;
    }
    let mut count: u32 = 0;
    for _ in 0..falls {
        count = count.saturating_add(1).saturating_add(numbers.draw(100));
        plan.falls.push(count)?;
    }
    Ok(plan)
}

/// A job of 0 to 4 operations.
fn draw_job(numbers: &mut RandomNumbers, lock: u32, cells: u32) -> Job {
    let operations = [
        draw_operation(numbers, cells),
        draw_operation(numbers, cells),
        draw_operation(numbers, cells),
        draw_operation(numbers, cells),
    ];
    let script = match operations.get(..numbers.draw(5) as usize) {
        Some(first) => Script::of(first),
        None => Script::of(&operations),
    };
    Job { lock, script }
}

fn draw_operation(numbers: &mut RandomNumbers, cells: u32) -> Op {
    let (first, second) = (numbers.draw(cells), numbers.draw(cells));
    match numbers.draw(5) {
        0 => Op::Get(first),
        1 => Op::Set(first, u64::from(numbers.draw(1000))),
        2 => Op::Add(first, u64::from(numbers.draw(1000))),
        3 => Op::Copy(first, second),
        _ => Op::Swap(first, second),
    }
}
