//! The chance of all tests: it counts its calls, and crashes at given counts.

use rme::service::Chance;

/// Crashes a worker before the step that would follow this number of own steps, for each of these increasing counts in
/// turn; and counts the steps.
#[derive(Drop)]
pub struct ScriptedChance<'a> {
    counts: &'a [u32],
    made: u32,
    fallen: usize,
    /// The number of steps at the last `take`.
    seen: u32,
}

impl<'a> ScriptedChance<'a> {
    pub fn new(counts: &'a [u32]) -> ScriptedChance<'a> {
        ScriptedChance {
            counts,
            made: 0,
            fallen: 0,
            seen: 0,
        }
    }

    /// The number of crashes of the worker.
    pub fn fallen(&self) -> usize {
        self.fallen
    }

    /// The number of steps since the chance was made, or since the last `take`.
    pub fn take(&mut self) -> u32 {
        let steps = self.made.saturating_sub(self.seen);
        self.seen = self.made;
        steps
    }
}

impl<'a> Chance for ScriptedChance<'a> {
    ghost use Rattle.std.specs.Prelude.{None};

    ghost tally = { λ falls. record { yeses = falls.fallen; questions = None } };

    fn falls(&mut self) -> bool {
        if self.fallen < self.counts.len() && self.counts[self.fallen] == self.made {
            self.fallen += 1;
            return true;
        }
        self.made = self.made.saturating_add(1);
        false
    }
}
