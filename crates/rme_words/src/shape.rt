//! The sizes of a lock service.

ghost use Rattle.std.specs.Prelude.{◌≡◌, ◌<◌, ◌≤◌, ◌↔◌, IsTrue, IsOk, IfOk, IfErr};
ghost use Rattle.rme_words.specs.Shapes.{IsShape, IsWithinLimits, IsTree};

use crate::limits::{MOST_CELLS, MOST_JOBS, MOST_LOCKS, MOST_WORKERS};
use crate::refusal::Refusal;

/// The sizes of a lock service: workers, locks, cells of each lock, jobs of each worker, and the sizes of
/// its trees, which follow from the number of workers.
#[derive(Clone, Copy)]
pub struct Shape {
    pub workers: u32,
    pub locks: u32,
    pub cells: u32,
    pub jobs: u32,
    pub leaves: u32,
    pub height: u32,
    pub ghost counted: { IsShape workers locks cells jobs leaves height },
}

fn is_within(number: u32, most: u32) -> bool
    ensures { IsTrue result ↔ ((1 ≤ number) × (number ≤ most)) }
{
    1 <= number && number <= most
}

/// The least power of two that is at least 2 and at least `workers`, and its logarithm.
fn tree_over(workers: u32) -> (u32, u32)
    requires { (1 ≤ workers) × (workers ≤ 256) }
    ensures { IsTree workers result.0 result.1 }
{
    let mut leaves = 2;
    let mut height = 1;
    while leaves < workers {
        leaves *= 2;
        height += 1;
    }
    (leaves, height)
}

impl Shape {
    /// The shape of these numbers.
    ///
    /// `workers` is 1 to 256, `locks` and `cells` (of each lock) are 1 to 16, and `jobs` (of each worker) is 1 to
    /// 1,000,000; otherwise the answer is `BadShape`.
    pub fn new(workers: u32, locks: u32, cells: u32, jobs: u32) -> Result<Shape, Refusal>
        ensures accepted { IsOk result ↔ IsWithinLimits workers locks cells jobs }
        ensures numbers { IfOk result (λ s. (s.workers ≡ workers) × (s.locks ≡ locks) × (s.cells ≡ cells)
            × (s.jobs ≡ jobs)) }
        ensures refused { IfErr result (λ e. e ≡ Refusal.BadShape) }
    {
        if !is_within(workers, MOST_WORKERS) {
            return Err(Refusal::BadShape);
        }
        if !is_within(locks, MOST_LOCKS)
            || !is_within(cells, MOST_CELLS)
            || !is_within(jobs, MOST_JOBS)
        {
            return Err(Refusal::BadShape);
        }
        let (leaves, height) = tree_over(workers);
        Ok(Shape {
            workers,
            locks,
            cells,
            jobs,
            leaves,
            height,
        })
    }

    /// The number of workers, which are numbered from 0.
    pub fn workers(&self) -> u32
        ensures { result ≡ self.now.workers }
    {
        self.workers
    }

    /// The number of locks, which are numbered from 0.
    pub fn locks(&self) -> u32
        ensures { result ≡ self.now.locks }
    {
        self.locks
    }

    /// The number of cells of each lock, which are numbered from 0.
    pub fn cells(&self) -> u32
        ensures { result ≡ self.now.cells }
    {
        self.cells
    }

    /// The number of jobs that each worker may begin.
    pub fn jobs(&self) -> u32
        ensures { result ≡ self.now.jobs }
    {
        self.jobs
    }

    /// The number of leaves of each lock's tree: the least power of two that is at least 2 and at least the number of
    /// workers.
    pub fn leaves(&self) -> u32
        ensures { result ≡ self.now.leaves }
    {
        self.leaves
    }

    /// The number of levels of nodes of each lock's tree: the logarithm of the leaves, 1 to 8.
    pub fn height(&self) -> u32
        ensures { result ≡ self.now.height }
    {
        self.height
    }
}
