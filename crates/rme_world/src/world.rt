//! The world: its words, the private states of the up workers, and the history.

ghost use Rattle.std.specs.Prelude.{◌≡◌, ℕ, IfOk, map, replicate, Some};
ghost use Rattle.std.specs.List.{range_with_len};
ghost use Rattle.rme_program.specs.Steps.{ready_private};
ghost use Rattle.rme_machine.specs.Machine.{opening_state};
ghost use Rattle.rme_world.specs.Counting.{no_counts};
ghost use Rattle.rme_world.specs.WorldViews.{world_abstract_state};
ghost use Rattle.rme_world.specs.Opening.{world_at_opening};

use crate::counts::Counts;
use rme_history::EntryList;
use rme_program::Private;
use rme_words::{Bank, NoMemory, Shape};
use std::alloc::Global;
use std::marker::Model;

/// Workers and locks, with the words that survive a crash.
///
/// The caller decides which worker steps when, and which one crashes; each call executes one own step or one other
/// event. Only `new`, `submit`, `run`, `save` and `load` take memory.
#[derive(Drop)]
pub struct World {
    pub(crate) bank: Bank,
    pub(crate) privates: Vec<Option<Private>>,
    pub(crate) history: EntryList,
    pub(crate) counts: Vec<Counts>,
}

impl Model for World {
    ghost use Rattle.std.specs.Prelude.{◌-◌, length};
    ghost use Rattle.rme_world.specs.WorldViews.{WorldView};
    ghost use Rattle.rme_world.specs.WorldInvariants.{WorldInvariant};

    ghost Value = { WorldView };

    ghost view = { λ world. record {
      shape = world.bank.shape;
      words = world.bank.words;
      privates =
          world.privates.items;
      history = world.history.entries;
      counts = world.counts.items;
      room = world.history.room -
          length world.history.entries;
    } };

    ghost invariant = { λ world. WorldInvariant record {
      shape = world.bank.shape;
      words = world.bank.words;
      privates = world.privates.items;
      history =
          world.history.entries;
      counts = world.counts.items;
      room = world.history.room - length world.history.entries;
    } };
}

impl World {
    /// The initial world of this shape: all words are 0, and all workers are up and ready. Takes memory for the words
    /// and the workers; `NoMemory` if that was refused.
    pub fn new(alloc: Global, shape: Shape) -> Result<World, NoMemory>
        ensures opens { IfOk result (λ world. world ≡ world_at_opening shape) }
        ensures shown { IfOk result (λ world. world_abstract_state world ≡ opening_state shape) }
    {
        let bank = Bank::new(alloc, shape)?;
        let privates = ready_workers(alloc, shape)?;
        let counts = no_counts(alloc, shape)?;
        Ok(World {
            bank,
            privates,
            history: EntryList::new(alloc),
            counts,
        })
    }

    /// The shape of the world.
    pub fn shape(&self) -> Shape
        ensures { result ≡ self.now.shape }
    {
        self.bank.shape()
    }
}

/// The private states of all workers in the initial world.
fn ready_workers(alloc: Global, shape: Shape) -> Result<Vec<Option<Private>>, NoMemory>
    ensures { IfOk result (λ privates. privates.items ≡ map (λ (worker : ℕ). Some (ready_private worker 0))
        (range_with_len 0 shape.workers)) }
{
    match (0..shape.workers)
        .map(|worker| Some(Private::ready(worker, 0)))
        .collect(alloc)
    {
        Ok(privates) => Ok(privates),
        Err(_) => Err(NoMemory),
    }
}

/// The counts of all workers in the initial world.
pub(crate) fn no_counts(alloc: Global, shape: Shape) -> Result<Vec<Counts>, NoMemory>
    ensures { IfOk result (λ counts. counts.items ≡ replicate shape.workers no_counts) }
{
    match vec![in alloc; Counts::ZERO; shape.workers as usize] {
        Ok(counts) => Ok(counts),
        Err(_) => Err(NoMemory),
    }
}
