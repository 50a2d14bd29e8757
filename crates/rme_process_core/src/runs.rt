//! The runs of steps that are known before the first of them: a post, a sweep, and the exit.

ghost use Rattle.std.specs.Prelude.{◌≡◌, ◌≢◌, ◌<◌, ◌≤◌, ◌+◌, ◌-◌, ◌^◌, ℕ};
ghost use Rattle.rme_program.specs.declared.private.Private.{Private};
ghost use Rattle.rme_program.specs.declared.stage.Stage.{Stage};
ghost use Rattle.rme_program.specs.declared.stage.Log.{Log};
ghost use Rattle.rme_program.specs.declared.stage.Departure.{Departure};
ghost use Rattle.rme_program.specs.Conditions.{IsPrivate};
ghost use Rattle.rme_process_core.specs.Batches.{Predicts, batch_actions};
ghost use Rattle.rme_process_core.specs.Runs.{PredictsUpTo, private_at_stage, climbing_private};
ghost use Rattle.rme_process_core.specs.ExpectedSlates.{IsExpectedSlate};

use crate::actions::{expect, put, store, swap};
use crate::expected_slate::ExpectedSlate;
use crate::flat::Batch;
use crate::loads::predict_section;
use crate::notes::{ASKED, ENTERED, LEFT};
use crate::prediction::PredictionContext;
use rme_program::{Ascent, Private, Slate};
use rme_script::op_words;
use rme_tree::{node, side};

/// A post, and the steps after it.
pub fn predict_post(
    context: PredictionContext,
    private: &Private,
    slate: &Slate,
    guess: &ExpectedSlate,
    batch: &mut Batch,
)
    requires private { IsPrivate context.shape private.now }
    requires guess { IsExpectedSlate context.shape guess.now }
    requires here { private.now.stage ≡ Stage.Posting slate.now }
    requires begins { slate.now.stored ≡ 0 }
    requires fresh { batch.old.count ≡ 0 }
    ensures foretells { Predicts context.shape context.until private.now (batch_actions batch.new) }
    ensures some { 1 ≤ batch.new.count }
    ensures few { batch.new.count ≤ 96 }
{
    predict_slate_stores(context, private, slate, batch);
    if context.until != ASKED {
        let ascent = Ascent {
            lock: slate.job.lock,
            held: 0,
        };
        predict_climb(context, private.worker, ascent, guess, batch);
    }
}

/// The stores of a post: the slate's lock, its length and its words, and then `Begun`.
fn predict_slate_stores(
    context: PredictionContext,
    private: &Private,
    slate: &Slate,
    batch: &mut Batch,
)
    requires private { IsPrivate context.shape private.now }
    requires here { private.now.stage ≡ Stage.Posting slate.now }
    requires begins { slate.now.stored ≡ 0 }
    requires fresh { batch.old.count ≡ 0 }
    ensures foretells { Predicts context.shape context.until private.now (batch_actions batch.new) }
    ensures leads { context.until ≢ 1
        → PredictsUpTo context.shape context.until private.now (batch_actions batch.new)
        (climbing_private private.now.worker (private.now.begun + 1) slate.now.job.lock 0) }
    ensures some { 1 ≤ batch.new.count }
    ensures few { batch.new.count ≤ 27 }
{
    let shape = context.shape;
    let worker = private.worker;
    let script = &slate.job.script;
    let n = script.n();
    let lock = store(shape.slate_lock_at(worker), u64::from(slate.job.lock));
    put(
        batch,
        [lock, store(shape.slate_len_at(worker), u64::from(n))],
    );
    for at in 0..n {
        let [kind, first, second] = op_words(script.op(at));
        put(
            batch,
            [
                store(shape.slate_at(worker, at, 0), kind),
                store(shape.slate_at(worker, at, 1), first),
                store(shape.slate_at(worker, at, 2), second),
            ],
        );
    }
    let number = u64::from(private.begun) + 1;
    put(batch, [store(shape.begun_at(worker), number)]);
}

/// The sweep of a worker that holds `held` nodes, and the steps after it.
pub fn predict_climb(
    context: PredictionContext,
    worker: u32,
    ascent: Ascent,
    guess: &ExpectedSlate,
    batch: &mut Batch,
)
    requires worker { worker < context.shape.workers }
    requires lock { ascent.lock < context.shape.locks }
    requires held { ascent.held < context.shape.height }
    requires guess { IsExpectedSlate context.shape guess.now }
    requires room { batch.old.count ≤ 27 }
    ensures foretells { (start : Private) (begun : ℕ)
        → PredictsUpTo context.shape context.until start (batch_actions batch.old)
        (climbing_private worker begun ascent.lock ascent.held)
        → Predicts context.shape context.until start (batch_actions batch.new) }
    ensures some { 1 ≤ batch.new.count }
    ensures few { batch.new.count ≤ 96 }
{
    predict_swaps(context, worker, ascent, batch);
    if context.until != ENTERED {
        predict_section(context, worker, ascent.lock, guess, batch);
    }
}

/// The swaps of the nodes that the worker does not hold yet.
fn predict_swaps(context: PredictionContext, worker: u32, ascent: Ascent, batch: &mut Batch)
    requires worker { worker < context.shape.workers }
    requires lock { ascent.lock < context.shape.locks }
    requires held { ascent.held < context.shape.height }
    requires room { batch.old.count ≤ 27 }
    ensures foretells { (start : Private) (begun : ℕ)
        → PredictsUpTo context.shape context.until start (batch_actions batch.old)
        (climbing_private worker begun ascent.lock ascent.held)
        → Predicts context.shape context.until start (batch_actions batch.new) }
    ensures leads { context.until ≢ 3 → (start : Private) (begun : ℕ)
        → PredictsUpTo context.shape context.until start (batch_actions batch.old)
        (climbing_private worker begun ascent.lock ascent.held)
        → PredictsUpTo context.shape context.until start (batch_actions batch.new)
        (private_at_stage worker begun (Stage.Logging (Log.LoadTurn ascent.lock))) }
    ensures some { 1 ≤ batch.new.count }
    ensures few { batch.new.count ≤ batch.old.count + 8 }
{
    let shape = context.shape;
    let lock = ascent.lock;
    for level in ascent.held + 1..shape.height {
        let word = shape.node_at(lock, node(shape, worker, level));
        put(batch, [swap(word, side(shape, worker, level))]);
    }
    let root = shape.height;
    let word = shape.node_at(lock, node(shape, worker, root));
    put(batch, [swap(word, side(shape, worker, root))]);
}

/// The exit from a section of this place: the turn is incremented, and then the nodes are freed.
pub fn predict_exit(
    context: PredictionContext,
    worker: u32,
    lock: u32,
    place: u32,
    batch: &mut Batch,
)
    requires worker { worker < context.shape.workers }
    requires lock { lock < context.shape.locks }
    requires place { place < 2 ^ 31 }
    requires room { batch.old.count + 10 ≤ 96 }
    ensures foretells { (start : Private) (begun : ℕ)
        → PredictsUpTo context.shape context.until start (batch_actions batch.old)
        (private_at_stage worker begun (Stage.Leaving (Departure.LoadExitTurn lock)))
        → Predicts context.shape context.until start (batch_actions batch.new) }
    ensures some { 1 ≤ batch.new.count }
    ensures few { batch.new.count ≤ 96 }
{
    predict_root_release(context, worker, lock, place, batch);
    let height = context.shape.height;
    if context.until != LEFT && height > 1 {
        predict_node_releases(context, worker, lock, height - 1, batch);
    }
}

/// The exit up to the store that frees the root's node, and so the lock.
fn predict_root_release(
    context: PredictionContext,
    worker: u32,
    lock: u32,
    place: u32,
    batch: &mut Batch,
)
    requires worker { worker < context.shape.workers }
    requires lock { lock < context.shape.locks }
    requires place { place < 2 ^ 31 }
    requires room { batch.old.count + 10 ≤ 96 }
    ensures foretells { (start : Private) (begun : ℕ)
        → PredictsUpTo context.shape context.until start (batch_actions batch.old)
        (private_at_stage worker begun (Stage.Leaving (Departure.LoadExitTurn lock)))
        → Predicts context.shape context.until start (batch_actions batch.new) }
    ensures leads { context.until ≢ 6 → 1 < context.shape.height → (start : Private) (begun : ℕ)
        → PredictsUpTo context.shape context.until start (batch_actions batch.old)
        (private_at_stage worker begun (Stage.Leaving (Departure.LoadExitTurn lock)))
        → PredictsUpTo context.shape context.until start (batch_actions batch.new)
        (private_at_stage worker begun (Stage.Leaving (Departure.Clear lock (context.shape.height - 1)))) }
    ensures count { batch.new.count ≡ batch.old.count + 3 }
{
    let shape = context.shape;
    let turn = 2 * u64::from(place) + 1;
    let root = node(shape, worker, shape.height);
    put(
        batch,
        [
            expect(shape.turn_at(lock), turn),
            store(shape.turn_at(lock), turn + 1),
            store(shape.node_at(lock, root), 0),
        ],
    );
}

/// The stores that free the nodes from a level below the root's on.
pub fn predict_node_releases(
    context: PredictionContext,
    worker: u32,
    lock: u32,
    level: u32,
    batch: &mut Batch,
)
    requires worker { worker < context.shape.workers }
    requires lock { lock < context.shape.locks }
    requires some { 1 ≤ level }
    requires below { level < context.shape.height }
    requires room { batch.old.count + 7 ≤ 96 }
    ensures foretells { (start : Private) (begun : ℕ)
        → PredictsUpTo context.shape context.until start (batch_actions batch.old)
        (private_at_stage worker begun (Stage.Leaving (Departure.Clear lock level)))
        → Predicts context.shape context.until start (batch_actions batch.new) }
    ensures some { 1 ≤ batch.new.count }
    ensures few { batch.new.count ≤ 96 }
{
    let shape = context.shape;
    for cleared in 0..level - 1 {
        let at = level - cleared;
        let word = shape.node_at(lock, node(shape, worker, at));
        put(batch, [store(word, 0)]);
    }
    let lowest = shape.node_at(lock, node(shape, worker, 1));
    put(batch, [store(lowest, 0)]);
}
