//! The workers that may be attached: ranges of numbers, and the text that names them.

ghost use Rattle.std.specs.Prelude.{◌≡◌, ◌↔◌, [], ◌∷◌, IfOk, IsTrue, map, option_map};
ghost use Rattle.rme_keys.specs.Finding.{Finds, NameInTurn};
ghost use Rattle.rme_keys.specs.Workers.{AreEndTexts, HasWorker, HaveWorker, IsRangeText, IsSingleText, IsWorkerText, IsWorkersText};

use crate::pieces::{are_bytes, bytes_after, bytes_before, pieces_of, place_of};
use std::alloc::{AllocError, Global};

/// The greatest number of a worker.
const LAST_WORKER: u32 = 255;

/// Workers whose numbers follow one another.
#[derive(Clone, Copy, Debug, PartialEq, Eq)]
pub(crate) struct WorkerRange {
    first: u32,
    last: u32,
}

impl WorkerRange {
    /// Whether the worker of this number is one of them.
    fn has(self, worker: u32) -> bool
        ensures { IsTrue result ↔ HasWorker self worker }
    {
        if worker < self.first {
            return false;
        }
        worker <= self.last
    }
}

/// Whether the worker of this number is in one of these ranges.
pub(crate) fn have_worker(ranges: &[WorkerRange], worker: u32) -> bool
    ensures { IsTrue result ↔ HaveWorker ranges.now worker }
{
    ranges.iter().any(|range| range.has(worker))
}

/// The workers that a text names: `*` names all, `-` none. Any other text names numbers and ranges with commas between.
/// `None` if it does not.
pub(crate) fn workers_of_text(
    alloc: Global,
    text: &[u8],
) -> Result<Option<Vec<WorkerRange>>, AllocError>
    ensures { IfOk result (λ found. Finds (IsWorkersText text.now) (option_map (λ ranges. ranges.items) found)) }
{
    if are_bytes(text, b"-") {
        return Ok(Some(Vec::new(alloc)));
    }
    if are_bytes(text, b"*") {
        return Ok(Some(all_workers(alloc)?));
    }
    let pieces = pieces_of(alloc, text, b',')?;
    ranges_of(alloc, pieces.as_slice())
}

/// The range of all workers.
fn all_workers(alloc: Global) -> Result<Vec<WorkerRange>, AllocError>
    ensures { IfOk result (λ ranges. ranges.items ≡ record { first = 0; last = 4294967295 } ∷ []) }
{
    let mut ranges = Vec::new(alloc);
    ranges.push(WorkerRange {
        first: 0,
        last: u32::MAX,
    })?;
    Ok(ranges)
}

/// The ranges that the texts name, one for each. `None` if a text names none.
fn ranges_of(alloc: Global, texts: &[&[u8]]) -> Result<Option<Vec<WorkerRange>>, AllocError>
    ensures { IfOk result (λ found. Finds (NameInTurn IsRangeText (map (λ text. text.now) texts.now))
        (option_map (λ ranges. ranges.items) found)) }
{
    let mut ranges = Vec::new(alloc);
    for text in texts {
        let Some(range) = range_of_text(text) else {
            return Ok(None);
        };
        ranges.push(range)?;
    }
    Ok(Some(ranges))
}

/// The range that a text names: a worker, or a first and a last worker with `-` between.
fn range_of_text(text: &[u8]) -> Option<WorkerRange>
    ensures { Finds (IsRangeText text.now) result }
{
    match place_of(text, b'-') {
        Some(dash) => range_between(bytes_before(text, dash), bytes_after(text, dash)),
        None => single_range(text),
    }
}

/// The range of the single worker that a text names.
fn single_range(text: &[u8]) -> Option<WorkerRange>
    ensures { Finds (IsSingleText text.now) result }
{
    let Some(worker) = worker_of_text(text) else {
        return None;
    };
    Some(WorkerRange {
        first: worker,
        last: worker,
    })
}

/// The range from the worker that `first` names to the worker that `last` names.
fn range_between(first: &[u8], last: &[u8]) -> Option<WorkerRange>
    ensures { Finds (AreEndTexts first.now last.now) result }
{
    let Some(low) = worker_of_text(first) else {
        return None;
    };
    let Some(high) = worker_of_text(last) else {
        return None;
    };
    if high < low {
        return None;
    }
    Some(WorkerRange {
        first: low,
        last: high,
    })
}

/// The worker that a text of decimal digits names. `None` if the text names no worker from 0 to 255.
fn worker_of_text(text: &[u8]) -> Option<u32>
    ensures { Finds (IsWorkerText text.now) result }
{
    if text.is_empty() {
        return None;
    }
    let mut worker = 0;
    for byte in text {
        if !byte.is_ascii_digit() {
            return None;
        }
        worker = 10 * worker + (*byte - b'0') as u32;
        if worker > LAST_WORKER {
            return None;
        }
    }
    Some(worker)
}
