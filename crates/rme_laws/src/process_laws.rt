//! What processes over one file make together.

ghost use Rattle.rme_laws.specs.InsideRuns.{OwnerStaysLaw};
ghost use Rattle.rme_laws.specs.OneWorld.{OneWorldLaw, NoDamageLaw, SoundRunLaw};
ghost use Rattle.rme_laws.specs.ProcessSections.{SectionLaw};

/// ONE WORLD: any interleaving of calls and operations of processes over one new file is a run of one world, in which
/// no event is refused. Processes may begin, restart and die at any moment, also within a batch.
///
/// The calls are those that the clause `call` of each export of rme_process_abi speaks of, and an operation is one on
/// one word. By the refinement theorem (`refines`) it is a run of the abstract machine, whose theorems then hold.
pub fn run_is_of_one_world()
    ensures { OneWorldLaw }
{}

/// No process finds damage in such a run: `rme_core_after`, given the values that the operations of its process found,
/// never answers 100.
pub fn no_value_is_damaged()
    ensures { NoDamageLaw }
{}

/// After such a run `first_damage` of rme_process_file finds no damage in the file's words.
pub fn run_words_are_sound()
    ensures { SoundRunLaw }
{}

/// INSIDE: while the process of a lock's owner makes no operations but those of a recovery, the worker stays the lock's
/// owner, whatever other processes do. So no other worker is inside between `rme_enter` and `rme_commit`, nor while the
/// owner is dead or recovers.
pub fn owner_stays()
    ensures { OwnerStaysLaw }
{}

/// THE SECTION: while a lock's owner has not finished its job, half the lock's turn is the number of the lock's finished
/// sections, which is the place that the receipt of the job will have. `rme_section` answers it.
pub fn turn_tells_section()
    ensures { SectionLaw }
{}
