//! The jobs of a lock that counted, by their places, and the cells that they leave.

use crate::found::{Found, is_or};
use rme_script::{Op, Script};
use std::alloc::Global;

/// More than the places that jobs without an answer may have between two answers.
const MOST_HOLES: usize = 64;

/// A job that counted.
#[derive(Clone, Copy, PartialEq, Eq)]
pub struct CountedJob {
    pub worker: u32,
    pub number: u64,
    pub script: Script,
    pub reply: u64,
}

/// The jobs of a lock that are known to have counted; `None` at a place whose receipt was not answered yet.
#[derive(Drop)]
pub struct CountedJobs {
    places: Vec<Option<CountedJob>>,
}

/// What the jobs leave.
#[derive(Drop)]
pub struct CellFold {
    pub cells: Vec<u64>,
    /// Whether each job's reply is that of the fold.
    pub are_replies: bool,
}

impl CountedJobs {
    pub fn new(alloc: Global) -> CountedJobs {
        CountedJobs {
            places: Vec::new(alloc),
        }
    }

    /// The first place after all that were answered.
    pub fn end(&self) -> u64 {
        self.places.len() as u64
    }

    /// Whether there is no hole.
    pub fn are_all_known(&self) -> bool {
        self.places.iter().all(|place| place.is_some())
    }

    /// Counts a job at its place, which no other has.
    pub fn count(&mut self, place: u64, job: CountedJob) -> Found {
        let Ok(place) = usize::try_from(place) else {
            return Err("a place beyond all others");
        };
        is_or(
            place < self.places.len().saturating_add(MOST_HOLES),
            "a place beyond all others",
        )?;
        for _ in self.places.len()..place.saturating_add(1) {
            if self.places.push(None).is_err() {
                return Err("no memory");
            }
        }
        match self.places.get_mut(place) {
            Some(free) if free.is_none() => {
                *free = Some(job);
                Ok(())
            }
            _ => Err("two jobs have one place"),
        }
    }

    /// The cells that the jobs leave in a lock with this number of cells; `None` if a job is not known.
    pub fn fold(&self, alloc: Global, count: u32, places: u64) -> Option<CellFold> {
        let mut cells = vec![in alloc; 0u64; count as usize].ok()?;
        let mut are_replies = true;
        for (place, job) in self.places.iter().enumerate() {
            if place as u64 >= places {
                break;
            }
            let Some(job) = job else {
                return None;
            };
            let reply = perform(&job.script, &mut cells);
            are_replies = are_replies && reply == job.reply;
        }
        Some(CellFold { cells, are_replies })
    }
}

fn cell_of(cells: &[u64], cell: u32) -> u64 {
    cells.get(cell as usize).copied().unwrap_or(0)
}

fn set_cell(cells: &mut Vec<u64>, cell: u32, value: u64) -> u64 {
    if let Some(found) = cells.get_mut(cell as usize) {
        *found = value;
    }
    value
}

/// Performs a script on cells, and answers its reply.
fn perform(script: &Script, cells: &mut Vec<u64>) -> u64 {
    let mut reply = 0;
    for place in 0..script.n().min(8) {
        reply = perform_operation(script.op(place), cells);
    }
    reply
}

fn perform_operation(op: Op, cells: &mut Vec<u64>) -> u64 {
    match op {
        Op::Get(cell) => cell_of(cells.as_slice(), cell),
        Op::Set(cell, value) => set_cell(cells, cell, value),
        Op::Add(cell, value) => {
            let sum = cell_of(cells.as_slice(), cell).wrapping_add(value);
            set_cell(cells, cell, sum)
        }
        Op::Copy(from, to) => {
            let value = cell_of(cells.as_slice(), from);
            set_cell(cells, to, value)
        }
        Op::Swap(first, second) => {
            let value = cell_of(cells.as_slice(), first);
            let other = cell_of(cells.as_slice(), second);
            set_cell(cells, first, other);
            set_cell(cells, second, value)
        }
    }
}
