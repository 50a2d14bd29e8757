//! The laws of the step table's rows, and of single steps.
//!
//! Each function here does nothing: its contract is a law of `specs/RowLaws.antt`, `specs/StepSequences.antt` or
//! `specs/NoteLaws.antt`. The crates above cite the lemmas of `proofs/RowLaws.antt`, `proofs/WalkLaws.antt` and
//! `proofs/NoteLaws.antt` by the names in the docstrings.

ghost use Rattle.std.specs.Prelude.{ℕ};
ghost use Rattle.rme_words.specs.declared.shape.Shape.{Shape};
ghost use Rattle.rme_program.specs.StepSequences.{StayStepSequenceLaw, StayEndLaw};
ghost use Rattle.rme_program.specs.NoteLaws.{NoteMeaningLaw, PhaseOrderLaw, StepsLeftLaw, BegunLaw};
ghost use Rattle.rme_program.specs.RowLaws.{RowLengths, NamedMaskLaw, ReentryStep, StayStartLaw, StepsMatchRowLaw};

/// The length of each row of the step table (lemma `row_lengths`).
pub fn row_lengths_law()
    ensures { (shape : Shape) → RowLengths shape }
{}

/// An even section whose loaded mask is the script's own has 11 + 3n + 4t steps (lemma `named_mask`).
pub fn named_mask_law()
    ensures { NamedMaskLaw }
{}

/// A worker re-enters at step h + 3 of its Recover and at no other (lemma `reentry`).
pub fn reentry_step_law()
    ensures { (shape : Shape) (worker begun done lock : ℕ) → ReentryStep shape worker begun done lock }
{}

/// A stay begins at its first stage with no step made (lemma `begin_law`).
pub fn stay_start_law()
    ensures { StayStartLaw }
{}

/// A worker in a stay is on track, and the number of steps that it has made of the stay is its place in the row (lemma
/// `place_law`).
pub fn steps_match_row_law()
    ensures { StepsMatchRowLaw }
{}

/// The actions of a worker in a stay, in order, are its row's (lemma `walk_law`).
pub fn stay_step_sequence_law()
    ensures { StayStepSequenceLaw }
{}

/// A stay ends with the last action of its row; only Recover's may end earlier (lemma `end_law`).
pub fn stay_end_law()
    ensures { StayEndLaw }
{}

/// The meaning of the note of a step, for the stage before it, the value found and the stage after it (lemma
/// `note_law`).
pub fn note_meaning_law()
    ensures { NoteMeaningLaw }
{}

/// A step leads to its own phase or to one that follows it (lemma `phase_law`).
pub fn phase_order_law()
    ensures { PhaseOrderLaw }
{}

/// A worker that is not ready has a step left in its phase (lemma `some_left`).
pub fn steps_left_law()
    ensures { StepsLeftLaw }
{}

/// The known value of `begun` changes only in Recover and in Post (lemma `begun_stays`).
pub fn begun_law()
    ensures { BegunLaw }
{}
