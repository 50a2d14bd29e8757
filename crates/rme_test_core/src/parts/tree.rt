//! The public calls on a small tree, with values worked out by hand.

ghost use Rattle.std.specs.Prelude.{◌≡◌, ◌<◌, ◌↔◌, ℕ, Some};
ghost use Rattle.rme_words.specs.Words.{memory_of};
ghost use Rattle.rme_tree.specs.Paths.{Blocks};
ghost use Rattle.rme_tree.specs.Nodes.{lock_nodes};

use rme_tree::{blocker, held, holder, laws, node, owner, side};
use rme_words::{Address, Bank, Shape};
use std::process::Abort;
use std::test::Fail;

/// Three workers have four leaves, 4 to 7, and two levels: worker 2 comes from leaf 6 to node 3 from its left and to
/// the root from its right, and leaf 7 has no worker.
#[test]
fn three_workers(rt: HostRuntime) -> Result<(), Fail> {
    let shape = Shape::new(3, 1, 1, 1)?;
    assert!(rt; (shape.leaves, shape.height) == (4, 2));
    assert!(rt; (node(shape, 2, 1), side(shape, 2, 1)) == (3, 1));
    assert!(rt; (node(shape, 2, 2), side(shape, 2, 2)) == (1, 2));
    Ok(())
}

/// A store to a node of lock 0: the node and the word. After it, the levels that worker 2 holds, and the owner.
type OwnerRow = (u32, u64, u32, Option<u32>);

/// Worker 2 takes its whole path, and then node 3 has the other side.
const OWNER_ROWS: [OwnerRow; 4] = [
    (3, 0, 0, None),
    (3, 1, 1, None),
    (1, 2, 2, Some(2)),
    (3, 2, 0, None),
];

fn check_owner(rt: &impl Abort, bank: &mut Bank, (place, word, levels, own): OwnerRow) {
    let shape = bank.shape();
    assert!(rt; 1 <= place && place < shape.leaves && shape.workers == 3);
    bank.store(Address::Node(0, place), word);
    assert!(rt; held(bank, 0, 2) == levels);
    assert!(rt; owner(bank, 0) == own);
}

/// In the same tree: what a worker holds, and who owns the lock.
#[test]
fn levels_and_owners(rt: HostRuntime) -> Result<(), Fail> {
    let mut bank = Bank::new(rt.alloc(), Shape::new(3, 1, 1, 1)?)?;
    for row in OWNER_ROWS {
        check_owner(&rt, &mut bank, row);
    }
    Ok(())
}

/// The worker that blocks worker `w` in lock 0: exactly the one that holds the node above its levels.
fn blocks(bank: &Bank, w: u32) -> Option<u32>
    requires lock { 0 < bank.now.shape.locks }
    requires worker { w < bank.now.shape.workers }
    ensures { (b : ℕ) → b < bank.now.shape.workers
        → (result ≡ Some b)
        ↔ Blocks (lock_nodes (memory_of bank.now) 0) bank.now.shape.leaves bank.now.shape.height b w }
{
    blocker(bank, 0, w)
}

/// A store to a node of lock 0: the node and the word. After it, a node with its holder, and a worker with its blocker.
type BlockerRow = ((u32, u64), (u32, Option<u32>), (u32, Option<u32>));

/// Worker 2 takes its whole path, and worker 0, which holds node 2, is blocked by it at the root, as worker 1 is by
/// worker 0 at node 2. A word that leads to a leaf without a worker, or that is no side, has no holder.
const BLOCKER_ROWS: [BlockerRow; 8] = [
    ((3, 0), (3, None), (2, None)),
    ((3, 1), (3, Some(2)), (2, None)),
    ((3, 1), (1, None), (2, None)),
    ((1, 2), (1, Some(2)), (2, None)),
    ((2, 1), (2, Some(0)), (0, Some(2))),
    ((2, 1), (2, Some(0)), (1, Some(0))),
    ((3, 2), (3, None), (0, None)),
    ((2, 3), (2, None), (1, None)),
];

fn check_blocker(rt: &impl Abort, bank: &mut Bank, row: BlockerRow) {
    let ((changed, word), (place, held_by), (w, blocked_by)) = row;
    let shape = bank.shape();
    assert!(rt; 1 <= changed && changed < shape.leaves);
    assert!(rt; 1 <= place && place < shape.leaves && w < shape.workers);
    bank.store(Address::Node(0, changed), word);
    assert!(rt; holder(bank, 0, place) == held_by);
    assert!(rt; blocks(bank, w) == blocked_by);
}

/// In the same tree: who holds a node, and who blocks a worker.
#[test]
fn holders_and_blockers(rt: HostRuntime) -> Result<(), Fail> {
    let mut bank = Bank::new(rt.alloc(), Shape::new(3, 1, 1, 1)?)?;
    for row in BLOCKER_ROWS {
        check_blocker(&rt, &mut bank, row);
    }
    Ok(())
}

/// The laws are functions that do nothing.
#[test]
fn every_law() {
    laws::path_law();
    laws::node_take_law();
    laws::node_clear_law();
    laws::node_blocked_law();
    laws::blocker_law();
    laws::same_owner_law();
    laws::owner_law();
    laws::owner_step_law();
    laws::same_levels_law();
    laws::local_tree_law();
    laws::free_tree_law();
    laws::same_tree_law();
    laws::node_store_law();
}
