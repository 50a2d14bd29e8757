//! The base of an epoch, read from the header of its log.

ghost use Rattle.std.specs.Prelude.{◌≡◌, ◌↔◌, IfOk, IsTrue, get_or};
ghost use Rattle.rme_durable_epochs.specs.HeaderBases.{AreHeaderPlaces, AreHeaderWorkers, LeavesRoom, header_offset, header_worker};
ghost use Rattle.rme_durable_format.specs.Headers.{header_values};

use crate::epoch_base::{Base, PlaceOffset, WorkerBase};
use rme_durable_format::{LastJob, LogHeader};
use rme_session_protocol::SERVICE_NUMBERS;
use rme_words::{MOST_JOBS, MOST_WORKERS};
use std::alloc::{AllocError, Global};

/// The largest number of earlier jobs of a worker: each number of the epoch is still one that a client may give.
const MOST_NUMBERS: u64 = SERVICE_NUMBERS - MOST_JOBS as u64;

/// The largest number of earlier sections of a lock.
const MOST_SECTIONS: u64 = SERVICE_NUMBERS - (MOST_JOBS * MOST_WORKERS) as u64;

impl Base {
    ghost use Rattle.std.specs.Prelude.{◌≡◌, ◌↔◌, IfOk, IfSome, IsSome};
    ghost use Rattle.rme_durable_epochs.specs.ClientValues.{client_place};
    ghost use Rattle.rme_durable_epochs.specs.HeaderBases.{IsHeaderBase, LeavesRoom};
    ghost use Rattle.rme_durable_format.specs.Headers.{header_values};

    /// The base of a header; `None` if the header leaves no room for one more epoch.
    pub fn from_header(alloc: Global, header: &LogHeader) -> Result<Option<Base>, AllocError>
        ensures room { IfOk result (λ found. IsSome found ↔ LeavesRoom (header_values header.now)) }
        ensures base { IfOk result (λ found. IfSome found (IsHeaderBase (header_values header.now))) }
    {
        if !leaves_room(header) {
            return Ok(None);
        }
        let workers = workers_of(alloc, header)?;
        let places = places_of(alloc, header)?;
        Ok(Some(Base { workers, places }))
    }

    /// The number of sections of a lock over all epochs, with this number of them in this epoch, without those of the
    /// checkpoint worker. `None` if it is not a number of 64 bits.
    pub fn sections_before(&self, lock: u32, sections: u64) -> Option<u64>
        ensures { IfSome result (λ over. over ≡ client_place self.now lock sections) }
    {
        let Some(shift) = self.places.get(lock as usize) else {
            return Some(sections);
        };
        let over = shift.more.checked_add(sections)?;
        over.checked_sub(shift.less)
    }
}

/// Whether a header leaves room for one more epoch.
fn leaves_room(header: &LogHeader) -> bool
    ensures { IsTrue result ↔ LeavesRoom (header_values header.now) }
{
    header.numbers.iter().all(|number| *number <= MOST_NUMBERS)
        && header
            .places
            .iter()
            .all(|place| place.unsigned_abs() <= MOST_SECTIONS)
}

fn workers_of(alloc: Global, header: &LogHeader) -> Result<Vec<WorkerBase>, AllocError>
    ensures { IfOk result (λ workers. AreHeaderWorkers header.now.numbers.items header.now.last.items workers.items) }
{
    let mut workers = Vec::new(alloc);
    for worker in 0..header.numbers.len() {
        let word = last_job(&header.last, worker);
        workers.push(worker_base_of(header.numbers[worker], word))?;
    }
    Ok(workers)
}

/// The last job of a worker; none if it is not listed.
fn last_job(last: &[LastJob], worker: usize) -> LastJob
    ensures { result ≡ get_or last.now worker LastJob.Nothing }
{
    if worker < last.len() {
        last[worker]
    } else {
        LastJob::Nothing
    }
}

fn worker_base_of(numbers: u64, word: LastJob) -> WorkerBase
    ensures { result ≡ header_worker numbers word }
{
    let last = match word {
        LastJob::Nothing | LastJob::Withdrawn => None,
        LastJob::Receipt(receipt) => Some(receipt),
    };
    WorkerBase { numbers, last }
}

fn places_of(alloc: Global, header: &LogHeader) -> Result<Vec<PlaceOffset>, AllocError>
    ensures { IfOk result (λ places. AreHeaderPlaces header.now.places.items places.items) }
{
    let mut places = Vec::new(alloc);
    for lock in 0..header.places.len() {
        places.push(offset_of(header.places[lock]))?;
    }
    Ok(places)
}

/// The offset of places that are larger by this number, or smaller if it is negative.
fn offset_of(place: i64) -> PlaceOffset
    ensures { result ≡ header_offset place }
{
    let apart = place.unsigned_abs();
    if place < 0 {
        return PlaceOffset {
            more: 0,
            less: apart,
        };
    }
    PlaceOffset {
        more: apart,
        less: 0,
    }
}
