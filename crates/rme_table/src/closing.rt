//! The end of a service.

ghost use Rattle.std.specs.Prelude.{◌≡◌, ℕ, ◌≤◌, ◌==◌, [], length, vec_capacity};
ghost use Rattle.rme_table.specs.Downs.{has_down, all_given};

use crate::close_room::{CloseRoom, room_for};
use crate::closed::{Closed, Unclosed};
use crate::down::Down;
use crate::filling::fill_locks;
use crate::service::Service;
use rme_history::by_place;
use rme_service_steps::WorkerSeat;
use rme_words::{Bank, Refusal, Shape};

impl Service {
    ghost use Rattle.std.specs.Prelude.{◌≡◌, true, IfOk, IfErr};
    ghost use Rattle.rme_service_steps.specs.Closing.{SeatsAreOfService};
    ghost use Rattle.rme_table.specs.Downs.{all_given};
    ghost use Rattle.rme_table.specs.Filling.{IsCloseRoom};
    ghost use Rattle.rme_table.specs.Closing.{IsClosedService, IsUnclosed};

    /// Closes the service, given the Downs of its workers in any order: the cells of each lock, its owner, whether the
    /// cells are settled, and its finished sections in the order of their places.
    ///
    /// `NoWorker` if some worker's Down is not given. Takes memory for the words, the cells and the entries, before
    /// anything is closed; `NoMemory` if that was refused. On an error the service and the Downs come back.
    pub fn close(self, downs: Vec<Down>) -> Result<Closed, Unclosed>
        requires { SeatsAreOfService self downs.items }
        ensures closed { IfOk result (λ closed. IsClosedService self.shape downs.items closed.locks.items) }
        ensures unclosed { IfErr result (λ unclosed. IsUnclosed self downs.items unclosed) }
    {
        let shape = self.shape();
        if !all_given(shape, &downs) {
            return Err(Unclosed {
                why: Refusal::NoWorker,
                service: self,
                downs,
            });
        }
        let Ok(room) = room_for(self.alloc, shape, &downs) else {
            return Err(Unclosed {
                why: Refusal::NoMemory,
                service: self,
                downs,
            });
        };
        Ok(self.close_into(room, downs))
    }

    /// Closes the service, with all room reserved.
    fn close_into(self, room: CloseRoom, downs: Vec<Down>) -> Closed
        requires ours { SeatsAreOfService self downs.items }
        requires given { all_given self.shape downs.items ≡ true }
        requires room { IsCloseRoom self.shape downs.items room }
        ensures { IsClosedService self.shape downs.items result.locks.items }
    {
        let shape = self.shape();
        let CloseRoom {
            words,
            history,
            seats,
            locks,
        } = room;
        let Service {
            words: table,
            alloc: _,
        } = self;
        let (words, history) = table.gather(all_seats(downs, seats), words, history);
        let entries = by_place(history);
        Closed {
            locks: fill_locks(locks, &Bank::of(shape, words), entries),
        }
    }
}

/// The seats of the workers, in order.
pub(crate) fn all_seats(downs: Vec<Down>, mut seats: Vec<WorkerSeat>) -> Vec<WorkerSeat>
    requires none { seats.items ≡ [] }
    requires room { length downs.items ≤ vec_capacity seats }
    ensures { result.items ≡ downs.items }
{
    for down in downs {
        let Down { seat } = down;
        seats.push_reserved(seat);
    }
    seats
}

/// Whether each worker is among the given ones.
pub(crate) fn all_given(shape: Shape, downs: &[Down]) -> bool
    ensures { result ≡ all_given shape downs.now }
{
    for worker in 0..shape.workers {
        if !has_down(downs, worker) {
            return false;
        }
    }
    true
}

/// Whether a worker is among the given ones.
fn has_down(downs: &[Down], worker: u32) -> bool
    ensures { result ≡ has_down downs.now worker }
{
    for down in downs {
        if down.worker() == worker {
            return true;
        }
    }
    false
}
