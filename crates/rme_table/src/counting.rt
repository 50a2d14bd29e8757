//! Closing a service with counts, which takes no memory.

ghost use Rattle.std.specs.Prelude.{◌≡◌, ℕ, ◌≤◌, ◌<◌, [], length, slice_get, vec_capacity, IfOk, Some};
ghost use Rattle.rme_words.specs.declared.address.Address.TheVariants.{Turn};
ghost use Rattle.rme_words.specs.Words.{memory_of};
ghost use Rattle.rme_table.specs.declared.closed.CountedLock.{CountedLock};
ghost use Rattle.rme_table.specs.Counting.{LockHasCountRoom, LocksHaveCountRoom, IsCountFilled, finished_by_turn};

use crate::close_room::{room_for_seats, room_for_words};
use crate::closed::{CountedLock, CountedService, Unclosed};
use crate::closing::{all_given, all_seats};
use crate::down::Down;
use crate::filling::{is_lock_settled_by_words, put_cells};
use crate::service::Service;
use rme_service_steps::WorkerSeat;
use rme_tree::owner;
use rme_words::{Address, Bank, NoMemory, Refusal, Shape};
use std::alloc::Global;
use std::marker::Model;

/// The room in which `Service::close_counted` builds its answer.
#[derive(Drop)]
pub struct CountRoom {
    shape: Shape,
    words: Vec<u64>,
    seats: Vec<WorkerSeat>,
    locks: Vec<CountedLock>,
}

impl Model for CountRoom {
    ghost use Rattle.std.specs.Prelude.{vec_capacity};
    ghost use Rattle.rme_words.specs.declared.shape.Shape.{Shape};
    ghost use Rattle.rme_table.specs.Counting.{IsCountRoom};

    // The shape of the services for which it has room.
    ghost Value = { Shape };

    ghost view = { λ room. room.shape };

    ghost invariant = { λ room. IsCountRoom room.shape room.words.items (vec_capacity room.words) room.seats.items
        (vec_capacity room.seats) room.locks.items };
}

impl Service {
    ghost use Rattle.std.specs.Prelude.{◌≡◌, ◌≤◌, length, true, IfOk, IfErr};
    ghost use Rattle.rme_service_steps.specs.Closing.{SeatsAreOfService};
    ghost use Rattle.rme_table.specs.Downs.{all_given};
    ghost use Rattle.rme_table.specs.Counting.{IsCountedService, IsUncounted};

    /// Room for `close_counted` of this service, small compared with the workers' Downs: for the words, for a seat of
    /// each worker, and for the cells of each lock. `NoMemory` if that was refused.
    pub fn room_for_counts(&self) -> Result<CountRoom, NoMemory>
        ensures { IfOk result (λ room. room ≡ self.now.shape) }
    {
        let shape = self.shape();
        let words = room_for_words(self.alloc, shape.words())?;
        let seats = room_for_seats(self.alloc, shape.workers as usize)?;
        let locks = room_for_counted(self.alloc, shape)?;
        Ok(CountRoom {
            shape,
            words,
            seats,
            locks,
        })
    }

    /// Closes the service as `close` does, but answers only the number of each lock's finished sections. It takes no
    /// memory, so that the room can be reserved at the start of the service.
    ///
    /// `NoWorker` if some worker's Down is not given, and `NoMemory` if there are more Downs than workers. On an error
    /// the service and the Downs come back.
    pub fn close_counted(
        self,
        downs: Vec<Down>,
        room: CountRoom,
    ) -> Result<CountedService, Unclosed>
        requires ours { SeatsAreOfService self downs.items }
        requires room { room ≡ self.shape }
        ensures counted { IfOk result (λ counted. IsCountedService self.shape downs.items counted.locks.items) }
        ensures unclosed { IfErr result (λ unclosed. IsUncounted self downs.items unclosed) }
    {
        let shape = self.shape();
        if !all_given(shape, &downs) {
            return Err(Unclosed {
                why: Refusal::NoWorker,
                service: self,
                downs,
            });
        }
        if downs.len() > shape.workers as usize {
            return Err(Unclosed {
                why: Refusal::NoMemory,
                service: self,
                downs,
            });
        }
        Ok(self.count_into(room, downs))
    }

    /// Closes the service, all workers being given.
    fn count_into(self, room: CountRoom, downs: Vec<Down>) -> CountedService
        requires ours { SeatsAreOfService self downs.items }
        requires given { all_given self.shape downs.items ≡ true }
        requires few { length downs.items ≤ self.shape.workers }
        requires room { room ≡ self.shape }
        ensures { IsCountedService self.shape downs.items result.locks.items }
    {
        let shape = self.shape();
        let CountRoom {
            shape: _,
            words,
            seats,
            locks,
        } = room;
        let Service {
            words: table,
            alloc: _,
        } = self;
        let words = table.gather_words(all_seats(downs, seats), words);
        CountedService {
            locks: count_locks(locks, &Bank::of(shape, words)),
        }
    }
}

/// Room for the cells of each lock, in order.
fn room_for_counted(alloc: Global, shape: Shape) -> Result<Vec<CountedLock>, NoMemory>
    ensures { IfOk result (λ locks. LocksHaveCountRoom shape locks.items) }
{
    let Ok(mut locks) = Vec::with_capacity(alloc, shape.locks as usize) else {
        return Err(NoMemory);
    };
    for _ in 0..shape.locks {
        let cells = room_for_words(alloc, shape.cells as usize)?;
        locks.push_reserved(CountedLock {
            cells,
            owner: None,
            settled: false,
            entries: 0,
        });
    }
    Ok(locks)
}

/// Fills the room of all locks.
fn count_locks(mut locks: Vec<CountedLock>, bank: &Bank) -> Vec<CountedLock>
    requires { LocksHaveCountRoom bank.now.shape locks.items }
    ensures count { length result.items ≡ bank.now.shape.locks }
    ensures counted { (lock : ℕ) (counted : CountedLock) → slice_get result.items lock ≡ Some counted
        → IsCountFilled bank.now lock counted }
{
    for lock in 0..bank.shape().locks {
        count_lock(&mut locks[lock as usize], bank, lock);
    }
    locks
}

/// Fills the room of one lock.
fn count_lock(room: &mut CountedLock, bank: &Bank, lock: u32)
    requires lock { lock < bank.now.shape.locks }
    requires room { LockHasCountRoom bank.now.shape room.old }
    ensures { IsCountFilled bank.now lock room.new }
{
    put_cells(&mut room.cells, bank, lock);
    room.owner = owner(bank, lock);
    room.settled = is_lock_settled_by_words(bank, lock);
    room.entries = finished(bank, lock, room.settled);
}

/// The number of finished sections of a lock, from its turn. An odd turn is that of the next section or, if the lock is
/// settled, of the last one.
fn finished(bank: &Bank, lock: u32, settled: bool) -> u64
    requires { lock < bank.now.shape.locks }
    ensures { result ≡ finished_by_turn settled (memory_of bank.now (Turn lock)) }
{
    let turn = bank.load(Address::Turn(lock));
    if settled {
        return turn / 2 + turn % 2;
    }
    turn / 2
}
