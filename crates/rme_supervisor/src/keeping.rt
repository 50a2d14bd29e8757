//! The keepers: a thread for each worker, and in it a thread for each of the worker's lives.

ghost use Rattle.std.specs.Prelude.{◌≡◌, length};
ghost use Rattle.rme_supervisor.specs.WorkerSlots.{AreLifeContexts, IsLifeContext, life_terms};

use crate::life::LifeContext;
use crate::plan::RunContext;
use crate::run_tag::RunTag;
use crate::slots::{SupervisedSlot, has_ended, run_life_in};
use rme_table::Gate;
use std::sync::Wait;
use std::thread;
use std::thread::{Scope, Threads};

/// Keeps each worker alive until all have ended.
pub(crate) fn keep_all<K: RunTag + Send + Sync, G: Gate + Sync, R: Threads + Wait + Sync>(
    rt: &R,
    slots: &[SupervisedSlot<K>],
    context: &RunContext<'_, G>,
)
    requires orders { AreLifeContexts K.Tag.ident K.run
        (λ plan. life_terms context.now.service.now context.now.schedule.rounds plan
        (G.answered context.now.gate.now) G.lets_all) context.now.schedule.plans.now }
    requires all { (length slots.now ≡ context.now.service.now.shape.workers)
        × (length context.now.schedule.plans.now ≡ context.now.service.now.shape.workers) }
{
    thread::scope(
        thread::scope_env(),
        rt,
        |scope|
            requires orders { AreLifeContexts K.Tag.ident K.run
                (λ plan. life_terms context.now.service.now context.now.schedule.rounds plan
                (G.answered context.now.gate.now) G.lets_all) context.now.schedule.plans.now }
            requires all { (length slots.now ≡ context.now.service.now.shape.workers)
                × (length context.now.schedule.plans.now ≡ context.now.service.now.shape.workers) }
        { start_keepers(rt, scope, slots, context) },
    )
}

/// Starts the keeper of each worker, in a thread of the scope.
fn start_keepers<'s, E, K: RunTag + Send + Sync, G: Gate + Sync, R: Threads + Wait + Sync>(
    rt: &'s R,
    scope: &Scope<'s, E>,
    slots: &'s [SupervisedSlot<K>],
    context: &'s RunContext<'s, G>,
)
    requires orders { AreLifeContexts K.Tag.ident K.run
        (λ plan. life_terms context.now.service.now context.now.schedule.rounds plan
        (G.answered context.now.gate.now) G.lets_all) context.now.schedule.plans.now }
    requires all { (length slots.now ≡ context.now.service.now.shape.workers)
        × (length context.now.schedule.plans.now ≡ context.now.service.now.shape.workers) }
{
    for worker in 0..context.service.shape().workers() {
        let (Some(slot), Some(plan)) = (
            slots.get(worker as usize),
            context.schedule.plans.get(worker as usize),
        ) else {
            unreachable!()
        };
        let keeper = move ||
            requires orders { IsLifeContext K.Tag.ident K.run worker
                (life_terms context.now.service.now context.now.schedule.rounds plan.now
                (G.answered context.now.gate.now) G.lets_all) }
        {
            let life = LifeContext {
                service: context.service,
                plan,
                rounds: context.schedule.rounds,
                gate: context.gate,
            };
            keep(rt, slot, worker, &life)
        };
        // If no thread can be made, the worker has no life, and its end stays NoStart.
        let _ = scope.spawn(keeper);
    }
}

/// Keeps a worker alive, life after life, until it ends.
fn keep<K: RunTag + Send + Sync, G: Gate + Sync, R: Threads + Wait + Sync>(
    rt: &R,
    slot: &SupervisedSlot<K>,
    worker: u32,
    orders: &LifeContext<'_, G>,
)
    requires orders { IsLifeContext K.Tag.ident K.run worker
        (life_terms orders.now.service.now orders.now.rounds orders.now.plan.now
        (G.answered orders.now.gate.now) G.lets_all) }
{
    for _ in 0..orders.plan.lives {
        if !run_life_in_thread(rt, slot, worker, orders) || has_ended(rt, slot) {
            return;
        }
    }
}

/// Runs a life in a thread of its own, and answers whether there was a thread for it.
fn run_life_in_thread<K: RunTag + Send + Sync, G: Gate + Sync, R: Threads + Wait + Sync>(
    rt: &R,
    slot: &SupervisedSlot<K>,
    worker: u32,
    orders: &LifeContext<'_, G>,
) -> bool
    requires orders { IsLifeContext K.Tag.ident K.run worker
        (life_terms orders.now.service.now orders.now.rounds orders.now.plan.now
        (G.answered orders.now.gate.now) G.lets_all) }
{
    thread::scope(
        thread::scope_env(),
        rt,
        |scope| -> bool
            requires orders { IsLifeContext K.Tag.ident K.run worker
                (life_terms orders.now.service.now orders.now.rounds orders.now.plan.now
                (G.answered orders.now.gate.now) G.lets_all) }
        { start_life(rt, scope, slot, worker, orders) },
    )
}

/// Starts a life in a thread of the scope, and answers whether there was a thread for it.
fn start_life<'s, E, K: RunTag + Send + Sync, G: Gate + Sync, R: Threads + Wait + Sync>(
    rt: &'s R,
    scope: &Scope<'s, E>,
    slot: &'s SupervisedSlot<K>,
    worker: u32,
    orders: &'s LifeContext<'s, G>,
) -> bool
    requires orders { IsLifeContext K.Tag.ident K.run worker
        (life_terms orders.now.service.now orders.now.rounds orders.now.plan.now
        (G.answered orders.now.gate.now) G.lets_all) }
{
    let life = move ||
        requires orders { IsLifeContext K.Tag.ident K.run worker
            (life_terms orders.now.service.now orders.now.rounds orders.now.plan.now
            (G.answered orders.now.gate.now) G.lets_all) }
    { run_life_in(rt, slot, worker, orders) };
    scope.spawn(life).is_ok()
}
