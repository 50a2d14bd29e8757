//! The levels that workers hold, the owner of a lock, and the worker that blocks another, read from the words.

ghost use Rattle.std.specs.Prelude.{◌≡◌, ◌≢◌, ℕ, ◌<◌, ◌≤◌, ◌↔◌, Some, IfSome, MatchOption};
ghost use Rattle.rme_words.specs.Words.{memory_of};
ghost use Rattle.rme_tree.specs.Paths.{IsHeldLevels, OwnsUpTo, OwnsTree, HoldsNode, Blocks};
ghost use Rattle.rme_tree.specs.HeldTrees.{child_node};
ghost use Rattle.rme_tree.specs.Nodes.{lock_nodes, held_levels_in, owner_in};

use crate::paths::{node, side};
use rme_words::{Address, Bank};

/// The number of levels of its path that worker `w` holds in a lock: the greatest j such that the nodes at the levels 1
/// to j all have its sides.
///
/// `lock` and `w` are below the locks and the workers of the bank's shape.
pub fn held(bank: &Bank, lock: u32, w: u32) -> u32
    requires lock { lock < bank.now.shape.locks }
    requires worker { w < bank.now.shape.workers }
    ensures held { result ≡ held_levels_in bank.now.shape (memory_of bank.now) w lock }
    ensures levels { IsHeldLevels (lock_nodes (memory_of bank.now) lock) bank.now.shape.leaves w bank.now.shape.height
        result }
    ensures greatest { (j : ℕ) → j ≤ bank.now.shape.height
        → OwnsUpTo (lock_nodes (memory_of bank.now) lock) bank.now.shape.leaves w j → j ≤ result }
{
    let shape = bank.shape();
    for below in 0..shape.height {
        let level = below + 1;
        if bank.load(Address::Node(lock, node(shape, w, level))) != side(shape, w, level) {
            return below;
        }
    }
    shape.height
}

/// The child that a node's word names; `None` if the word is no side.
fn named_child(bank: &Bank, lock: u32, place: u32) -> Option<u32>
    requires lock { lock < bank.now.shape.locks }
    requires node { 1 ≤ place }
    requires inside { place < bank.now.shape.leaves }
    ensures { let word = lock_nodes (memory_of bank.now) lock place in
        MatchOption result ((word ≢ 1) × (word ≢ 2)) (λ c. (1 ≤ word) × (word ≤ 2) × (c ≡ child_node place word)) }
{
    match bank.load(Address::Node(lock, place)) {
        1 => Some(2 * place),
        2 => Some(2 * place + 1),
        _ => None,
    }
}

/// The worker that holds a node: its path passes the node, and its sides are in all nodes of its path up to there, that
/// node included. `None` if there is no such worker; there are never two, whatever the words are.
///
/// The search goes down from the node, by the child that each word names. `lock` is below the locks of the bank's
/// shape, and `place` is 1 or more and below its leaves.
pub fn holder(bank: &Bank, lock: u32, place: u32) -> Option<u32>
    requires lock { lock < bank.now.shape.locks }
    requires node { 1 ≤ place }
    requires inside { place < bank.now.shape.leaves }
    ensures shown { (w : ℕ) → w < bank.now.shape.workers
        → (result ≡ Some w)
        ↔ HoldsNode (lock_nodes (memory_of bank.now) lock) bank.now.shape.leaves bank.now.shape.height w place }
    ensures worker { IfSome result (λ w. w < bank.now.shape.workers) }
{
    let shape = bank.shape();
    let mut below = place;
    while below < shape.leaves {
        below = named_child(bank, lock, below)?;
    }
    let w = below - shape.leaves;
    if w < shape.workers { Some(w) } else { None }
}

/// The owner of a lock: the worker whose sides are in all nodes of its path, or `None`. Two workers cannot both own a
/// lock, whatever the words are.
///
/// It is the worker that holds the root. `lock` is below the locks of the bank's shape.
pub fn owner(bank: &Bank, lock: u32) -> Option<u32>
    requires { lock < bank.now.shape.locks }
    ensures owner { result ≡ owner_in bank.now.shape (memory_of bank.now) lock }
    ensures shown { (w : ℕ) → w < bank.now.shape.workers
        → (result ≡ Some w)
        ↔ OwnsTree (lock_nodes (memory_of bank.now) lock) bank.now.shape.leaves bank.now.shape.height w }
    ensures worker { IfSome result (λ w. w < bank.now.shape.workers) }
{
    holder(bank, lock, 1)
}

/// The worker that blocks worker `w` in a lock: it holds the node above the levels that `w` holds, if those are not its
/// whole path. `None` if no worker holds that node, or `w` owns the lock.
///
/// `lock` and `w` are below the locks and the workers of the bank's shape.
pub fn blocker(bank: &Bank, lock: u32, w: u32) -> Option<u32>
    requires lock { lock < bank.now.shape.locks }
    requires worker { w < bank.now.shape.workers }
    ensures shown { (b : ℕ) → b < bank.now.shape.workers
        → (result ≡ Some b)
        ↔ Blocks (lock_nodes (memory_of bank.now) lock) bank.now.shape.leaves bank.now.shape.height b w }
    ensures worker { IfSome result (λ b. b < bank.now.shape.workers) }
    ensures other { IfSome result (λ b. b ≢ w) }
{
    let shape = bank.shape();
    let levels = held(bank, lock, w);
    if levels < shape.height {
        holder(bank, lock, node(shape, w, levels + 1))
    } else {
        None
    }
}
