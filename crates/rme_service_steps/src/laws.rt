//! The laws of the running service: of one step, of any steps in order, of a lock's owner, and of the gaps between
//! words.
//!
//! Each function does nothing: its contract is the law of `specs/Steps.antt`, `specs/Running.antt`, `specs/Inside.antt`
//! or `specs/Layout.antt`, proved by the lemma that the docstring names.

ghost use Rattle.rme_service_steps.specs.Inside.{InsideLaw};
ghost use Rattle.rme_service_steps.specs.Layout.{CacheLinePaddingLaw};
ghost use Rattle.rme_service_steps.specs.Running.{ServiceRefinementLaw};
ghost use Rattle.rme_service_steps.specs.Steps.{StepPreservesServiceLaw};

/// Each own step of a worker of any world is one operation on one word and a step of the core; it preserves the
/// invariant, and is the machine's step of its note (lemma `keeps`). So between any two operations of any threads,
/// words and records are a world.
pub fn step_preserves_service_law()
    ensures { StepPreservesServiceLaw }
{}

/// From any world, the operations of all workers, in order, are a run of the abstract machine, from the abstract state
/// of the first world to that of the last (lemma `service_refinement_law`). The operations are own steps, a reader's
/// loads, and the changes before a call's first own step.
pub fn service_refinement_law()
    ensures { ServiceRefinementLaw }
{}

/// While a worker that owns a lock makes only own steps of Recover, no other worker takes, re-enters, finishes in or
/// leaves that lock, in any interleaving of all workers' operations. The worker may crash and restart any number of
/// times (lemma `inside_law`).
pub fn inside_law()
    ensures { InsideLaw }
{}

/// Between two words of different blocks are seven others. So no cache line, which has eight words, has words of both,
/// wherever the table begins (lemma `cache_line_padding_law`).
pub fn cache_line_padding_law()
    ensures { CacheLinePaddingLaw }
{}
