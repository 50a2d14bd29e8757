//! Whether every node that is held has a holder.

ghost use Rattle.std.specs.Prelude.{◌≡◌, ◌<◌, ◌≤◌, ◌↔◌, IsTrue};
ghost use Rattle.rme_words.specs.Words.{memory_of};
ghost use Rattle.rme_tree.specs.HeldTrees.{IsLocalTree, IsLocalNode};
ghost use Rattle.rme_tree.specs.Nodes.{lock_nodes};
ghost use Rattle.rme_machine.specs.Clauses.{NodesClause};

use rme_words::{Address, Bank};

/// Whether a node's word is 0, or a side whose child is a worker's leaf or a node that is not 0.
fn is_local_node(bank: &Bank, lock: u32, node: u32) -> bool
    requires lock { lock < bank.now.shape.locks }
    requires node { 1 ≤ node }
    requires inside { node < bank.now.shape.leaves }
    ensures { IsTrue result
        ↔ IsLocalNode (lock_nodes (memory_of bank.now) lock) bank.now.shape.leaves bank.now.shape.workers node }
{
    let shape = bank.shape();
    let word = bank.load(Address::Node(lock, node));
    if word == 0 {
        return true;
    }
    if word > 2 {
        return false;
    }
    let child = 2 * node + word as u32 - 1;
    if child < shape.leaves {
        return bank.load(Address::Node(lock, child)) != 0;
    }
    child - shape.leaves < shape.workers
}

/// Whether this holds for all nodes of one lock.
fn is_local_tree(bank: &Bank, lock: u32) -> bool
    requires { lock < bank.now.shape.locks }
    ensures { IsTrue result
        ↔ IsLocalTree (lock_nodes (memory_of bank.now) lock) bank.now.shape.leaves bank.now.shape.workers }
{
    let shape = bank.shape();
    for node in 1..shape.leaves {
        if !is_local_node(bank, lock, node) {
            return false;
        }
    }
    true
}

/// Whether this holds for all nodes of all locks.
pub fn has_nodes(bank: &Bank) -> bool
    ensures { IsTrue result ↔ NodesClause bank.now.shape (memory_of bank.now) }
{
    let shape = bank.shape();
    for lock in 0..shape.locks {
        if !is_local_tree(bank, lock) {
            return false;
        }
    }
    true
}
