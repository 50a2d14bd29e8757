//! The contents of the slots when all keepers have ended.

ghost use Rattle.std.specs.Prelude.{◌≡◌, ◌≤◌, [], length, vec_capacity, IfOk};
ghost use Rattle.rme_service_steps.specs.Closing.{SeatsAreOfService};
ghost use Rattle.rme_supervisor.specs.LifeResults.{ResultsFollowPlans, ResultsAreEmpty};

use crate::end::End;
use crate::run_tag::RunTag;
use crate::slots::SupervisedSlot;
use crate::worker_slot::SupervisedWorker;
use rme_table::{Down, OwnedDown};
use rme_words::NoMemory;
use std::alloc::Global;

/// The workers in the slots, the end of each one's lives, and the number of lives started.
#[derive(Drop)]
pub(crate) struct LifeResults {
    pub downs: Vec<Down>,
    pub ends: Vec<End>,
    pub lives: Vec<u32>,
}

impl LifeResults {
    ghost use Rattle.std.specs.Prelude.{◌≡◌, ℕ, ◌+◌, ◌++◌, ◌∷◌, [], IfOk, unwrap_or};
    ghost use Rattle.rme_supervisor.specs.declared.end.End.TheVariants.{NoStart};
    ghost use Rattle.rme_supervisor.specs.LifeResults.{ResultsFollowPlans, ResultsAreEmpty, ResultsHaveRoom};

    /// Room for `count` workers.
    pub(crate) fn with_capacity(alloc: Global, count: usize) -> Result<LifeResults, NoMemory>
        ensures { IfOk result (λ settled. ResultsAreEmpty count settled) }
    {
        let Ok(downs) = Vec::with_capacity(alloc, count) else {
            return Err(NoMemory);
        };
        let Ok(ends) = Vec::with_capacity(alloc, count) else {
            return Err(NoMemory);
        };
        let Ok(lives) = Vec::with_capacity(alloc, count) else {
            return Err(NoMemory);
        };
        Ok(LifeResults { downs, ends, lives })
    }

    /// Adds the contents of a slot. A worker without an end had no thread for its next life.
    fn push<K: RunTag>(&mut self, berth: SupervisedWorker<K>)
        requires room { ResultsHaveRoom 1 self.old }
        requires settled { ResultsFollowPlans K.Tag.ident K.run self.old }
        ensures room { (count : ℕ) → ResultsHaveRoom (1 + count) self.old → ResultsHaveRoom count self.new }
        ensures settled { ResultsFollowPlans K.Tag.ident K.run self.new }
        ensures down { self.new.downs.items ≡ self.old.downs.items ++ berth.stand ∷ [] }
        ensures end { self.new.ends.items ≡ self.old.ends.items ++ unwrap_or berth.end NoStart ∷ [] }
        ensures lives { self.new.lives.items ≡ self.old.lives.items ++ berth.lives ∷ [] }
    {
        let SupervisedWorker { kept, past, end } = berth;
        let OwnedDown { down, of: _ } = kept;
        self.downs.push_reserved(down);
        self.ends.push_reserved(end.unwrap_or(End::NoStart));
        self.lives.push_reserved(past.lives);
    }
}

/// Takes the workers out of the slots.
pub(crate) fn collect_results<K: RunTag>(
    slots: Vec<SupervisedSlot<K>>,
    mut settled: LifeResults,
) -> LifeResults
    requires room { ResultsAreEmpty (length slots.items) settled }
    ensures { ResultsFollowPlans K.Tag.ident K.run result }
{
    for slot in slots {
        if let Some(berth) = slot.into_inner() {
            settled.push(berth);
        }
    }
    settled
}
