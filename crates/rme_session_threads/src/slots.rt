//! The slots of the workers.

ghost use Rattle.std.specs.Prelude.{◌≡◌, ◌≤◌, [], length, vec_capacity};
ghost use Rattle.rme_service_steps.specs.Closing.{SeatsAreOfService};
ghost use Rattle.rme_session_threads.specs.WorkerSlots.{AreDownsInPlace, AreDownsInOrder};

use crate::worker_slot::{TakenWorker, WorkerSlot, begin_life};
use rme_table::{Down, OwnedDown, Tag};
use rme_words::Refusal;
use std::alloc::Global;
use std::marker::{Model, PhantomData};
use std::sync::{Mutex, Wait};

/// A worker's slot.
type LockedSlot<K> = Mutex<WorkerSlot<K>>;

/// A slot for each worker of the service that K names, in order of worker.
///
/// Slots are made and used in one function generic over K, which is called with `Brand`.
#[derive(Drop)]
pub struct Slots<K: Tag> {
    alloc: Global,
    slots: Vec<LockedSlot<K>>,
}

impl<K: Tag> Model for Slots<K> {
    ghost use Rattle.std.specs.Prelude.{ℕ, length};

    // The number of slots.
    ghost Value = { ℕ };

    ghost view = { λ slots. length slots.slots.items };
}

impl<K: Tag> Slots<K> {
    ghost use Rattle.std.specs.Prelude.{◌≡◌, ◌<◌, ◌≤◌, [], length, vec_capacity, IfOk, IfErr};
    ghost use Rattle.rme_session_threads.specs.WorkerSlots.{AreDownsInPlace, AreDownsInOrder, SlotTake};

    /// A slot for each of these workers, with its Down. They are the workers 0, 1 and so on, in order.
    ///
    /// `Err` gives the Downs back, if memory for the slots was refused.
    pub fn new<R: Wait>(_rt: &R, alloc: Global, downs: Vec<Down>) -> Result<Slots<K>, Vec<Down>>
        requires { AreDownsInPlace K.ident downs.items }
        ensures count { IfOk result (λ slots. slots ≡ length downs.items) }
        ensures back { IfErr result (λ back. back.items ≡ downs.items) }
    {
        let Ok(slots) = Vec::with_capacity(alloc, downs.len()) else {
            return Err(downs);
        };
        Ok(Slots {
            alloc,
            slots: fill_slots(downs, slots),
        })
    }

    /// Takes the worker's Down out of its slot, and counts the restart. `NoWorker` if there is no such slot, `Overtaken`
    /// if the worker was restarted since the life `after`, and `Taken` if the slot is empty.
    pub fn take<R: Wait>(
        &self,
        rt: &R,
        worker: u32,
        after: Option<u64>,
    ) -> Result<TakenWorker, Refusal>
        ensures { SlotTake K.ident self.now worker after result }
    {
        let Some(slot) = self.slots.get(worker as usize) else {
            return Err(Refusal::NoWorker);
        };
        begin_life(&mut *slot.lock(rt), worker, after)
    }

    /// Puts a Down into its worker's slot, which exists.
    pub fn give<R: Wait>(&self, rt: &R, down: Down)
        requires ours { down.ident ≡ K.ident }
        requires slot { down.part.worker < self.now }
    {
        let slot = &self.slots[down.worker() as usize];
        slot.lock(rt).give(down);
    }

    /// The Downs in the slots, in order of worker.
    ///
    /// `Err` gives the slots back unchanged, if memory for the list was refused.
    pub fn into_downs<R: Wait>(self, _rt: &R) -> Result<Vec<Down>, Slots<K>>
        ensures downs { IfOk result (λ downs. AreDownsInOrder K.ident self downs.items) }
        ensures back { IfErr result (λ back. back ≡ self) }
    {
        let Ok(room) = Vec::with_capacity(self.alloc, self.slots.len()) else {
            return Err(self);
        };
        Ok(gather_downs(self.slots, room))
    }

    /// The Downs in the slots, in order of worker, in an empty list that has room for one of each slot. Takes no
    /// memory.
    pub fn into_downs_in<R: Wait>(self, _rt: &R, room: Vec<Down>) -> Vec<Down>
        requires none { room.items ≡ [] }
        requires room { self ≤ vec_capacity room }
        ensures { AreDownsInOrder K.ident self result.items }
    {
        gather_downs(self.slots, room)
    }
}

/// Puts each Down into a slot of its own.
fn fill_slots<K: Tag>(downs: Vec<Down>, mut slots: Vec<LockedSlot<K>>) -> Vec<LockedSlot<K>>
    requires ours { SeatsAreOfService K.ident downs.items }
    requires none { slots.items ≡ [] }
    requires room { length downs.items ≤ vec_capacity slots }
    ensures { length result.items ≡ length downs.items }
{
    for down in downs {
        let kept = OwnedDown {
            down,
            of: PhantomData,
        };
        slots.push_reserved(Mutex::new(WorkerSlot::new(kept)));
    }
    slots
}

/// Takes the Downs out of the slots.
fn gather_downs<K: Tag>(slots: Vec<LockedSlot<K>>, mut downs: Vec<Down>) -> Vec<Down>
    requires none { downs.items ≡ [] }
    requires room { length slots.items ≤ vec_capacity downs }
    ensures { AreDownsInOrder K.ident (length slots.items) result.items }
{
    let mut worker = 0;
    for slot in slots {
        if let Some(down) = slot.into_inner().into_down(worker) {
            downs.push_reserved(down);
        }
        worker += 1;
    }
    downs
}
