//! The laws of waiting workers in a world.
//!
//! Each function here does nothing: its contract is a law of `specs/Laws.antt`, proved by the lemma of `proofs/` that
//! the docstring names.

ghost use Rattle.rme_waiting.specs.Laws.{BlockedStepLaw, TakenNodeLaw};

/// A waiting worker, up or down, waits for another exactly if the next node that it needs is taken (lemma
/// `taken_node`).
pub fn taken_node_law()
    ensures { TakenNodeLaw }
{}

/// A worker that is up and climbs waits for another exactly if its next own step would be blocked, which
/// `World::would_block` answers (lemma `blocked_step`).
pub fn blocked_step_law()
    ensures { BlockedStepLaw }
{}
