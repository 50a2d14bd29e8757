//! The slots of workers between two lives.

ghost use Rattle.std.specs.Prelude.{◌≡◌, ◌≤◌, [], length, vec_capacity};
ghost use Rattle.rme_service_steps.specs.Closing.{SeatsAreOfService};
ghost use Rattle.rme_supervisor.specs.WorkerSlots.{AreDownsAtCall, IsLifeContext, life_terms};

use crate::life::LifeContext;
use crate::run_tag::RunTag;
use crate::worker_slot::SupervisedWorker;
use rme_table::{Down, Gate, OwnedDown};
use std::marker::PhantomData;
use std::sync::{Mutex, Wait};

/// A worker's slot: empty while a life has the worker.
pub(crate) type SupervisedSlot<K> = Mutex<Option<SupervisedWorker<K>>>;

/// Puts each worker into a slot of its own, before its first life.
pub(crate) fn fill<K: RunTag>(
    downs: Vec<Down>,
    mut slots: Vec<SupervisedSlot<K>>,
) -> Vec<SupervisedSlot<K>>
    requires ours { SeatsAreOfService K.Tag.ident downs.items }
    requires given { AreDownsAtCall K.run.given downs.items }
    requires none { slots.items ≡ [] }
    requires room { length downs.items ≤ vec_capacity slots }
    ensures { length result.items ≡ length downs.items }
{
    for down in downs {
        let kept = OwnedDown {
            down,
            of: PhantomData,
        };
        slots.push_reserved(Mutex::new(Some(SupervisedWorker::new(kept))));
    }
    slots
}

/// The next life of the worker in the slot, if it is this one.
pub(crate) fn run_life_in<K: RunTag, G: Gate, R: Wait>(
    rt: &R,
    slot: &SupervisedSlot<K>,
    worker: u32,
    orders: &LifeContext<'_, G>,
)
    requires orders { IsLifeContext K.Tag.ident K.run worker
        (life_terms orders.now.service.now orders.now.rounds orders.now.plan.now
        (G.answered orders.now.gate.now) G.lets_all) }
{
    let Some(berth) = slot.lock(rt).take() else {
        return;
    };
    // A slot's type can state neither its number nor that the worker may live again; no other worker is ever put here,
    // and no worker whose lives have ended is asked to live.
    let berth = if berth.worker() == worker && berth.may_live(orders.plan.lives) {
        berth.run_life(rt, orders)
    } else {
        berth
    };
    *slot.lock(rt) = Some(berth);
}

/// Whether the lives of the worker in the slot have ended.
pub(crate) fn has_ended<K: RunTag, R: Wait>(rt: &R, slot: &SupervisedSlot<K>) -> bool {
    match &*slot.lock(rt) {
        Some(berth) => berth.end.is_some(),
        None => true,
    }
}
