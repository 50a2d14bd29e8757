//! The laws of one step on a tree, for every height.
//!
//! Each function here does nothing: its contract is a law of `specs/Laws.antt`. The crates above cite the lemmas of
//! `proofs/` by the names in the docstrings.

ghost use Rattle.rme_tree.specs.Laws.{PathLaw, NodeTakeLaw, NodeClearLaw, NodeBlockedLaw, BlockerLaw, SameOwnerLaw, OwnerLaw, OwnerStepLaw, SameLevelsLaw, LocalTreeLaw, FreeTreeLaw, SameTreeLaw};
ghost use Rattle.rme_tree.specs.NodeStores.{NodeStoreLaw};

/// The order of nodes and sides from a leaf to the root (lemma `path_law`).
pub fn path_law()
    ensures { PathLaw }
{}

/// A worker takes the next node of its path, which is free: it holds one more level, every other worker holds the same
/// levels, and every taken node still has a holder (lemma `take`).
pub fn node_take_law()
    ensures { NodeTakeLaw }
{}

/// A worker releases the topmost node that it holds: it holds one level less, every other worker holds the same levels,
/// and every taken node still has a holder (lemma `clear`).
pub fn node_clear_law()
    ensures { NodeClearLaw }
{}

/// If the next node of a worker's path is taken, another worker holds it from the other side (lemma `blocked`).
pub fn node_blocked_law()
    ensures { NodeBlockedLaw }
{}

/// If the next node of a worker's path is taken, another worker blocks it, which `blocker` answers (lemma
/// `blocker_law`).
pub fn blocker_law()
    ensures { BlockerLaw }
{}

/// Two owners are the same worker, whatever the words are (lemma `same_owner`).
pub fn same_owner_law()
    ensures { SameOwnerLaw }
{}

/// The owner is the worker that holds every level of its path, whatever the words are (lemma `owner_law`).
pub fn owner_law()
    ensures { OwnerLaw }
{}

/// The effect of a step of one worker on the ownership (lemma `owner_step_law`).
pub fn owner_step_law()
    ensures { OwnerStepLaw }
{}

/// A worker holds the same levels if no word of its path changed (lemma `held_same`).
pub fn same_levels_law()
    ensures { SameLevelsLaw }
{}

/// The clause on single nodes, by sides and children, is equivalent to every taken node having a holder (lemma
/// `local_law`).
pub fn local_tree_law()
    ensures { LocalTreeLaw }
{}

/// In a free tree every taken node has a holder, and no worker holds a level (lemma `free_tree`).
pub fn free_tree_law()
    ensures { FreeTreeLaw }
{}

/// Trees with the same words have the same holders, and the same owner (lemma `same_tree`).
pub fn same_tree_law()
    ensures { SameTreeLaw }
{}

/// A store of a node changes that node of that lock's tree, and a store of any other word changes no tree
/// (lemma `store_law`).
pub fn node_store_law()
    ensures { NodeStoreLaw }
{}
