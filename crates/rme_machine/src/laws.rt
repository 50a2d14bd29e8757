//! The laws of a step, and the theorems of the abstract machine.
//!
//! Each function here does nothing: its contract is a law of `specs/Laws.antt` or `specs/FurtherLaws.antt`, or a
//! theorem of `specs/Theorems.antt`, proved by the lemma of `proofs/` that the docstring names. The crates above cite
//! the lemmas.

ghost use Rattle.rme_machine.specs.Theorems.{ExclusionLaw, ReentryLaw, OnceLaw, FaithfulLaw};
ghost use Rattle.rme_machine.specs.Laws.{StepLaw, ValidLoadLaw, SubmitLaw, CrashLaw, RestartLaw, WithdrawLaw, OpeningLaw};
ghost use Rattle.rme_machine.specs.KnownSections.{KnownSectionLaw};
ghost use Rattle.rme_machine.specs.FurtherLaws.{PrivateOfShapeLaw, TablesLaw, SectionOwnerLaw, SectionStepsLaw, BoundedReentryLaw, WorkerEntriesLaw, DraftLaw, RowLaw, HeldNodeLaw, CrashedKnowledgeLaw, ReadyHoldsNoNodeLaw, ClausesLaw};

/// Each own step of a worker, of every kind and whatever value it finds, preserves the invariant and is the machine
/// step of its note (lemma `own_step`).
pub fn step_law()
    ensures { StepLaw }
{}

/// The value that a step finds is one that the worker accepts (lemma `valid_load_law`).
pub fn valid_load_law()
    ensures { ValidLoadLaw }
{}

/// Submitting a job to a ready worker preserves the invariant and is the machine's `Hand` (lemma `submit`).
pub fn submit_law()
    ensures { SubmitLaw }
{}

/// A crash preserves the invariant and is the machine's `Crash`: it releases nothing (lemma `crash`).
pub fn crash_law()
    ensures { CrashLaw }
{}

/// A restart preserves the invariant and is the machine's `Restart` (lemma `restart`).
pub fn restart_law()
    ensures { RestartLaw }
{}

/// The start of a withdrawal preserves the invariant, and the worker still waits (lemma `withdraw`).
pub fn withdraw_law()
    ensures { WithdrawLaw }
{}

/// The invariant holds initially, and the abstract state is the machine's initial state (lemma `opening_law`).
pub fn opening_law()
    ensures { OpeningLaw }
{}

/// The private state of a worker that is up is its own and of the shape, as `next` requires (lemma
/// `private_of_shape_law`).
pub fn private_of_shape_law()
    ensures { PrivateOfShapeLaw }
{}

/// The owner table and the cells of words with the invariant are those of the abstract state. A lock is settled if it
/// has no owner, or its owner's job is not pending (lemma `tables`).
pub fn tables_law()
    ensures { TablesLaw }
{}

/// A worker in Section owns its lock, and so does one in Exit that still holds the root (lemma `section_owner_law`).
pub fn section_owner_law()
    ensures { SectionOwnerLaw }
{}

/// A section that a worker finishes took all its steps: from an even turn the mask is the script's own (lemma
/// `sectioned`).
pub fn section_steps_law()
    ensures { SectionStepsLaw }
{}

/// An owner that recovers re-enters at step h+3 of Recover, and its earlier steps are quiet (lemma
/// `bounded_reentry_law`).
pub fn bounded_reentry_law()
    ensures { BoundedReentryLaw }
{}

/// A finished section appends its entry to those of its worker, and no step changes those of another worker (lemma
/// `books`).
pub fn worker_entries_law()
    ensures { WorkerEntriesLaw }
{}

/// The job that a worker is busy with is the last one submitted to it (lemma `draft_law`).
pub fn draft_law()
    ensures { DraftLaw }
{}

/// The number of finished sections of its lock, which a worker inside may know, is changed by no step of another
/// worker, and by no own step, crash or restart before the worker finishes (lemma `knowing`).
pub fn known_section_law()
    ensures { KnownSectionLaw }
{}

/// Each worker that is up and not ready is at a place of a row of the step table, where its next action is the row's,
/// and is on track (lemma `rowed`).
pub fn row_law()
    ensures { RowLaw }
{}

/// A blocked step has another holder: if a climbing worker's node is not free, another worker holds it from the other
/// side (lemma `held_node_law`).
pub fn held_node_law()
    ensures { HeldNodeLaw }
{}

/// A step of another worker preserves the private invariant of what a crashed worker knew (lemma
/// `crashed_knowledge_law`).
pub fn crashed_knowledge_law()
    ensures { CrashedKnowledgeLaw }
{}

/// A worker in phase Ready or Post holds no node (lemma `ready_holds_no_node_law`).
pub fn ready_holds_no_node_law()
    ensures { ReadyHoldsNoNodeLaw }
{}

/// The invariant implies the clauses of an image from `nodes` to `entries` as they are written, and in a world whose
/// workers are all down the clauses imply the invariant (lemma `clauses_law`).
pub fn clauses_law()
    ensures { ClausesLaw }
{}

/// Mutual exclusion: in every state that a run of the machine reaches, only the owner of a lock is in its section, so
/// at most one worker (lemma `exclusion`).
pub fn exclusion()
    ensures { ExclusionLaw }
{}

/// Critical-section re-entry: from a worker's take of a lock to its leave no other worker takes, re-enters, finishes in
/// or leaves that lock, whatever crashes and restarts happen meanwhile (lemma `reentry`).
pub fn reentry()
    ensures { ReentryLaw }
{}

/// Each job counts once: each number under which a worker asked is that of one entry, or is withdrawn and has no entry,
/// or is the one under which the worker waits or is inside; and the history is legal (lemma `once`).
pub fn once()
    ensures { OnceLaw }
{}

/// Each job counts as itself: each entry that a run adds has the lock and the script of the job submitted to its worker
/// under its number; in a run from the initial state, submitted in that run (lemma `faithful`).
pub fn faithful()
    ensures { FaithfulLaw }
{}
