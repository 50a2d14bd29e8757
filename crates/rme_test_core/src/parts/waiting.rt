//! Who waits for whom, in trees whose nodes are stored by hand: leaf w of a tree with M leaves is M + w, the parent of a
//! node is its half, and an odd node has the side 2.

ghost use Rattle.std.specs.Prelude.{◌≡◌, ◌<◌, ◌↔◌, ℕ, Some};
ghost use Rattle.rme_words.specs.Words.{memory_of};
ghost use Rattle.rme_waiting.specs.Waiting.{WaitsForWorker};

use rme_script::{Job, Op, Script};
use rme_waiting::{blocked_by, laws, world_words};
use rme_words::{Address, Bank, Refusal, Shape};
use rme_world::World;
use std::alloc::Global;
use std::process::Abort;
use std::test::Fail;

/// The worker that a worker waits for: exactly the one that holds the next node that it needs.
fn waits_for(bank: &Bank, worker: u32) -> Option<u32>
    requires { worker < bank.now.shape.workers }
    ensures { (other : ℕ) → other < bank.now.shape.workers
        → (result ≡ Some other) ↔ WaitsForWorker bank.now.shape (memory_of bank.now) worker other }
{
    blocked_by(bank, worker)
}

/// A bank of this number of workers, with two locks. Each worker has a pending job of lock 0.
fn asking(rt: &impl Abort, alloc: Global, workers: u32) -> Result<Bank, Fail> {
    let mut bank = Bank::new(alloc, Shape::new(workers, 2, 1, 5)?)?;
    for worker in 0..workers {
        assert!(rt; worker < bank.shape().workers);
        bank.store(Address::Begun(worker), 1);
    }
    Ok(bank)
}

/// Stores the words of nodes of lock 0.
fn store_nodes(rt: &impl Abort, bank: &mut Bank, nodes: &[(u32, u64)]) {
    for (node, word) in nodes {
        assert!(rt; 1 <= *node && *node < bank.shape().leaves && 0 < bank.shape().locks);
        bank.store(Address::Node(0, *node), *word);
    }
}

/// In a tree of lock 0 with these nodes, each worker, by its number, waits for the worker named.
fn check_tree(rt: &impl Abort, bank: &mut Bank, nodes: &[(u32, u64)], wanted: &[Option<u32>]) {
    store_nodes(rt, bank, nodes);
    let workers = bank.shape().workers;
    assert!(rt; wanted.len() == workers as usize);
    let mut worker = 0;
    for other in wanted {
        assert!(rt; worker < workers);
        assert!(rt; waits_for(bank, worker) == *other);
        worker += 1;
    }
}

/// Leaves 2 and 3 below the root: worker 0 has side 1, worker 1 has side 2.
#[test]
fn two_workers(rt: HostRuntime) -> Result<(), Fail> {
    let mut bank = asking(&rt, rt.alloc(), 2)?;
    check_tree(&rt, &mut bank, &[], &[None, None]);
    check_tree(&rt, &mut bank, &[(1, 1)], &[None, Some(0)]);
    check_tree(&rt, &mut bank, &[(1, 2)], &[Some(1), None]);
    Ok(())
}

/// Worker 2 owns the lock by nodes 3 and 1, and worker 0 holds node 2, in trees of three and of four workers.
const DRAWN: [(u32, u64); 3] = [(3, 1), (1, 2), (2, 1)];

#[test]
fn three_workers(rt: HostRuntime) -> Result<(), Fail> {
    let mut bank = asking(&rt, rt.alloc(), 3)?;
    check_tree(&rt, &mut bank, &DRAWN, &[Some(2), Some(0), None]);
    // The owner has left the root, and then node 3.
    check_tree(&rt, &mut bank, &[(1, 0)], &[None, Some(0), None]);
    check_tree(&rt, &mut bank, &[(3, 0), (1, 1)], &[None, Some(0), None]);
    check_tree(&rt, &mut bank, &[(3, 1)], &[None, Some(0), Some(0)]);
    Ok(())
}

#[test]
fn four_workers(rt: HostRuntime) -> Result<(), Fail> {
    let mut bank = asking(&rt, rt.alloc(), 4)?;
    check_tree(&rt, &mut bank, &DRAWN, &[Some(2), Some(0), None, Some(2)]);
    // Worker 1 holds node 2 in place of worker 0, and the root is free.
    check_tree(
        &rt,
        &mut bank,
        &[(2, 2), (1, 0)],
        &[Some(1), None, None, Some(2)],
    );
    Ok(())
}

/// Three levels: worker 4 owns the lock by nodes 6, 3 and 1; worker 3 holds nodes 5 and 2; worker 0 holds node 4.
const DEEP: [(u32, u64); 6] = [(6, 1), (3, 1), (1, 2), (5, 2), (2, 2), (4, 1)];

#[test]
fn five_workers(rt: HostRuntime) -> Result<(), Fail> {
    let mut bank = asking(&rt, rt.alloc(), 5)?;
    let wanted = [Some(3), Some(0), Some(3), Some(4), None];
    check_tree(&rt, &mut bank, &DEEP, &wanted);
    Ok(())
}

#[test]
fn eight_workers(rt: HostRuntime) -> Result<(), Fail> {
    let mut bank = asking(&rt, rt.alloc(), 8)?;
    let wanted = [
        Some(3),
        Some(0),
        Some(3),
        Some(4),
        None,
        Some(4),
        None,
        None,
    ];
    check_tree(&rt, &mut bank, &DEEP, &wanted);
    // Worker 6 holds node 7: it waits at node 3, and worker 7 waits for it.
    let wanted = [
        Some(3),
        Some(0),
        Some(3),
        Some(4),
        None,
        Some(4),
        Some(4),
        Some(6),
    ];
    check_tree(&rt, &mut bank, &[(7, 1)], &wanted);
    Ok(())
}

/// A worker without a pending job waits for nobody, and neither does one whose job is of another lock or of none.
#[test]
fn other_jobs(rt: HostRuntime) -> Result<(), Fail> {
    let mut bank = asking(&rt, rt.alloc(), 4)?;
    check_tree(&rt, &mut bank, &DRAWN, &[Some(2), Some(0), None, Some(2)]);
    assert!(rt; 0 < bank.shape().workers);
    bank.store(Address::Done(0), 1);
    assert!(rt; 1 < bank.shape().workers);
    bank.store(Address::SlateLock(1), 1);
    assert!(rt; 3 < bank.shape().workers);
    bank.store(Address::SlateLock(3), 2);
    check_tree(&rt, &mut bank, &[], &[None, None, None, None]);
    Ok(())
}

/// Worker 0 is inside lock 0, behind which worker 1 waits. Each crashes, and it waits as before.
#[test]
fn workers_of_a_world(rt: HostRuntime) -> Result<(), Fail> {
    let mut world = World::new(rt.alloc(), Shape::new(2, 1, 1, 10)?)?;
    begin_jobs(&mut world)?;
    assert!(rt; world.would_block(1));
    check_waiter(&rt, &world)?;
    world.crash(1)?;
    check_waiter(&rt, &world)?;
    world.crash(0)?;
    check_waiter(&rt, &world)
}

/// Each worker is handed a job of lock 0, and makes 8 own steps.
fn begin_jobs(world: &mut World) -> Result<(), Refusal> {
    for worker in 0..world.shape().workers {
        let job = Job {
            lock: 0,
            script: Script::of(&[Op::Add(0, 5)]),
        };
        world.submit(worker, job)?;
        walk(world, worker, 8)?;
    }
    Ok(())
}

/// Makes own steps of a worker.
fn walk(world: &mut World, worker: u32, steps: u32) -> Result<(), Refusal> {
    for _ in 0..steps {
        world.step(worker)?;
    }
    Ok(())
}

/// Worker 1 waits for worker 0, and worker 0 for nobody.
fn check_waiter(rt: &impl Abort, world: &World) -> Result<(), Fail> {
    let words = world_words(world)?;
    assert!(rt; 1 < words.shape().workers);
    assert!(rt; waits_for(&words, 0).is_none());
    assert!(rt; waits_for(&words, 1) == Some(0));
    Ok(())
}

/// The laws are functions that do nothing.
#[test]
fn every_law_of_waiting() {
    laws::taken_node_law();
    laws::blocked_step_law();
}
