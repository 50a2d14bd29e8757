//! A world with a tally of its steps.

use rme_history::Tally;
use rme_program::Note;
use rme_words::Refusal;
use rme_world::World;

/// A world, and for each phase the greatest number of own steps of one stay in it, over all its workers.
#[derive(Drop)]
pub struct TalliedWorld {
    pub world: World,
    pub tally: Tally,
}

impl TalliedWorld {
    ghost use Rattle.std.specs.Prelude.{◌≡◌};
    ghost use Rattle.rme_line_engine.specs.Tallies.{TalliedStep, empty_tally};

    /// A world with an empty tally.
    pub fn new(world: World) -> TalliedWorld
        ensures { result ≡ record { world = world; tally = empty_tally } }
    {
        TalliedWorld {
            world,
            tally: Tally::new(),
        }
    }

    /// Executes the next own step of a worker, after which the tally sees the steps of the phase in which it was made;
    /// of the worker's counts only that one can have grown.
    ///
    /// Refused as the world's own step is; a refusal changes nothing.
    pub fn step(&mut self, worker: u32) -> Result<Note, Refusal>
        ensures { TalliedStep self.old worker result self.new }
    {
        let stride = match self.world.step_with_report(worker) {
            Ok(stride) => stride,
            Err(refusal) => return Err(refusal),
        };
        self.tally.see(stride.phase, stride.steps);
        Ok(stride.note)
    }
}
