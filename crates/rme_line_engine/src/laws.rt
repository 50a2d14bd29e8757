//! The law of the tally.
//!
//! The function here does nothing: its contract is a law of `specs/Laws.antt`, proved by the lemmas of `proofs/` that
//! the docstring names.

ghost use Rattle.rme_line_engine.specs.Laws.{TallyLaw};

/// A tally that sees, after each step, only the phase in which it was made equals one that sees all phases of the
/// worker (lemmas `answers_kept` and `sees_phases`).
pub fn tally_sees_all_phases()
    ensures { TallyLaw }
{}
