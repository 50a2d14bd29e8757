//! A new service, and the seats of its workers.

ghost use Rattle.std.specs.Prelude.{◌≡◌, ◌≤◌, [], IfOk, vec_capacity};

use crate::layout::table_size;
use crate::rule::{FirstPart, TableSeat};
use crate::seat::WorkerSeat;
use crate::word_table::WordTable;
use atomic_table::Table;
use rme_history::EntryList;
use rme_words::{NoMemory, Shape};
use std::alloc::Global;

impl WordTable {
    ghost use Rattle.std.specs.Prelude.{◌≡◌, ◌+◌, ◌<◌, ◌≤◌, [], IfOk, vec_capacity};
    ghost use Rattle.rme_service_steps.specs.Parts.{fresh_part};
    ghost use Rattle.rme_service_steps.specs.Opening.{record_from_worker, ServiceIsOpened};

    /// A new service of this shape: all words are 0, and each worker has a seat, in order, with no job posted.
    ///
    /// Takes memory for the words, and for each worker's seat with room for as many entries as the shape has jobs;
    /// `NoMemory` if it is refused.
    pub fn open(alloc: Global, shape: Shape) -> Result<(WordTable, Vec<WorkerSeat>), NoMemory>
        ensures { IfOk result (λ opened. ServiceIsOpened shape opened.0 opened.1.items) }
    {
        let mut seats = room_for_seats(alloc, shape)?;
        let (service, mut seat) = WordTable::new_table(alloc, shape)?;
        for worker in 0..shape.workers {
            let entries = EntryList::with_room(alloc, shape.jobs as usize)?;
            seats.push_reserved(service.split_off_worker(&mut seat, worker, entries));
        }
        Ok((service, seats))
    }

    /// The service, and the first seat, which has the parts of all workers.
    fn new_table(alloc: Global, shape: Shape) -> Result<(WordTable, TableSeat), NoMemory>
        ensures service { IfOk result (λ laid. laid.0.shape ≡ shape) }
        ensures seat { IfOk result (λ laid. (laid.1.table_id ≡ laid.0.table)
            × (laid.1.me ≡ (record_from_worker shape 0, []))) }
    {
        let Ok(words) = vec![in alloc; 0u64; table_size(shape)] else {
            return Err(NoMemory);
        };
        let Ok((table, seat)) = Table::of_words(alloc, words.as_slice(), &shape) else {
            return Err(NoMemory);
        };
        Ok((WordTable { table, shape }, seat))
    }

    /// Splits a worker's seat off the first seat.
    fn split_off_worker(&self, seat: &mut TableSeat, worker: u32, entries: EntryList) -> WorkerSeat
        requires own { seat.old.table_id ≡ self.now.table }
        requires parts { seat.old.me ≡ (record_from_worker self.now.shape worker, []) }
        requires worker { worker < self.now.shape.workers }
        requires none { entries.entries ≡ [] }
        requires room { self.now.shape.jobs ≤ entries.room }
        ensures same { seat.new.table_id ≡ seat.old.table_id }
        ensures parts { seat.new.me ≡ (record_from_worker self.now.shape (worker + 1), []) }
        ensures fresh { result ≡ record { ident = self.now; part = fresh_part worker } }
    {
        let own = self.table.shared.split_seat::<FirstPart>(seat);
        WorkerSeat {
            seat: own,
            worker,
            drafted: false,
            entries,
        }
    }
}

/// Room for a seat of each worker.
fn room_for_seats(alloc: Global, shape: Shape) -> Result<Vec<WorkerSeat>, NoMemory>
    ensures { IfOk result (λ seats. (seats.items ≡ []) × (shape.workers ≤ vec_capacity seats)) }
{
    match Vec::with_capacity(alloc, shape.workers as usize) {
        Ok(seats) => Ok(seats),
        Err(_) => Err(NoMemory),
    }
}
