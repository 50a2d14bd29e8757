//! The laws of histories.
//!
//! Each function here does nothing: its contract is a law of `specs/Laws.antt`, proved by the lemma of
//! `proofs/` that the docstring names. The crates above cite the lemmas.

ghost use Rattle.rme_history.specs.Laws.{LegalByLockLaw, PlaceOrderLaw};

/// A history of the abstract machine is one of which each lock's entries are a legal history, by workers of the shape
/// (lemma `legal_both`).
pub fn legal_by_lock_law()
    ensures { LegalByLockLaw }
{}

/// Sorting a permuted legal history by `by_place` restores it lock by lock (lemma `place_order_law`).
pub fn place_order_law()
    ensures { PlaceOrderLaw }
{}
