//! A new service.

ghost use Rattle.std.specs.Prelude.{◌≡◌, ◌≤◌, [], length, IfOk, vec_capacity};

use crate::down::Down;
use crate::service::Service;
use rme_service_steps::WorkerSeat;
use rme_words::{NoMemory, Shape};
use std::alloc::Global;

impl Service {
    ghost use Rattle.std.specs.Prelude.{IfOk};
    ghost use Rattle.rme_service_steps.specs.Opening.{ServiceIsOpened};

    /// A new service of this shape, all of its words 0, with one Down for each worker, in order: nothing is posted and
    /// nothing is done.
    ///
    /// Takes memory for the words, and for each worker's Down with room for as many entries as the shape has jobs;
    /// `NoMemory` if that was refused.
    pub fn new(alloc: Global, shape: Shape) -> Result<(Service, Vec<Down>), NoMemory>
        ensures { IfOk result (λ opened. ServiceIsOpened shape opened.0 opened.1.items) }
    {
        let downs = room_for_downs(alloc, shape)?;
        let (words, seats) = rme_service_steps::WordTable::open(alloc, shape)?;
        Ok((Service { words, alloc }, all_down(seats, downs)))
    }
}

/// Room for a Down of each worker.
fn room_for_downs(alloc: Global, shape: Shape) -> Result<Vec<Down>, NoMemory>
    ensures { IfOk result (λ downs. (downs.items ≡ []) × (shape.workers ≤ vec_capacity downs)) }
{
    match Vec::with_capacity(alloc, shape.workers as usize) {
        Ok(downs) => Ok(downs),
        Err(_) => Err(NoMemory),
    }
}

/// The workers of the seats, in order.
fn all_down(seats: Vec<WorkerSeat>, mut downs: Vec<Down>) -> Vec<Down>
    requires none { downs.items ≡ [] }
    requires room { length seats.items ≤ vec_capacity downs }
    ensures { result.items ≡ seats.items }
{
    for seat in seats {
        downs.push_reserved(Down { seat });
    }
    downs
}
