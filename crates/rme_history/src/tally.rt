//! The greatest number of own steps seen of each phase.

ghost use Rattle.std.specs.Prelude.{◌≡◌, ℕ};
ghost use Rattle.rme_program.specs.declared.kinds.Phase.{Phase};
ghost use Rattle.rme_history.specs.Tallies.{tally_of_phase, TallySees};

use rme_program::Phase;

/// For each phase with steps, the greatest number of own steps of a stay in it that was seen. Initially all are 0.
#[derive(Clone, Copy, Default, PartialEq, Eq)]
pub struct Tally {
    pub recover: u32,
    pub post: u32,
    pub enter: u32,
    pub section: u32,
    pub exit: u32,
}

impl Tally {
    /// No steps seen: all counts are 0.
    pub fn new() -> Tally
        ensures { (phase : Phase) → tally_of_phase result phase ≡ 0 }
    {
        Tally {
            recover: 0,
            post: 0,
            enter: 0,
            section: 0,
            exit: 0,
        }
    }

    /// Raises the phase's count to these steps, if they are more. Does nothing for phase Ready, which has no steps.
    pub fn see(&mut self, phase: Phase, steps: u32)
        ensures { TallySees self.old self.new phase steps }
    {
        match phase {
            Phase::Recover => self.recover = self.recover.max(steps),
            Phase::Post => self.post = self.post.max(steps),
            Phase::Enter => self.enter = self.enter.max(steps),
            Phase::Section => self.section = self.section.max(steps),
            Phase::Exit => self.exit = self.exit.max(steps),
            Phase::Ready => {}
        }
    }

    /// The greatest number of steps seen of a phase; 0 for phase Ready.
    pub fn most(&self, phase: Phase) -> u32
        ensures { result ≡ tally_of_phase self.now phase }
    {
        match phase {
            Phase::Recover => self.recover,
            Phase::Post => self.post,
            Phase::Enter => self.enter,
            Phase::Section => self.section,
            Phase::Exit => self.exit,
            Phase::Ready => 0,
        }
    }
}
