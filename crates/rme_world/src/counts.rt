//! The number of own steps of each worker.

ghost use Rattle.std.specs.Prelude.{◌≡◌};
ghost use Rattle.std.specs.Prelude.{◌<◌, ◌↔◌, IsTrue};
ghost use Rattle.rme_program.specs.declared.note.Note.{Note};
ghost use Rattle.rme_world.specs.Counting.{CountsAfterStep, phase_count, with_step_counted, with_stay_begun};

use rme_program::{Note, Phase};

/// The own steps of one worker's latest stay in each phase, without the blocked ones.
#[derive(Clone, Copy)]
pub struct Counts {
    pub recover: u32,
    pub post: u32,
    pub enter: u32,
    pub section: u32,
    pub exit: u32,
}

impl Counts {
    /// No steps.
    pub const ZERO: Counts = Counts {
        recover: 0,
        post: 0,
        enter: 0,
        section: 0,
        exit: 0,
    };

    /// The count of one phase; 0 for phase Ready, which has no steps.
    pub(crate) fn of(&self, phase: Phase) -> u32
        ensures { result ≡ phase_count self.now phase }
    {
        match phase {
            Phase::Recover => self.recover,
            Phase::Post => self.post,
            Phase::Enter => self.enter,
            Phase::Section => self.section,
            Phase::Exit => self.exit,
            Phase::Ready => 0,
        }
    }

    /// Counts one more step in a phase.
    fn count(&mut self, phase: Phase)
        requires { phase_count self.old phase < 4294967295 }
        ensures { self.new ≡ with_step_counted self.old phase }
    {
        match phase {
            Phase::Recover => self.recover += 1,
            Phase::Post => self.post += 1,
            Phase::Enter => self.enter += 1,
            Phase::Section => self.section += 1,
            Phase::Exit => self.exit += 1,
            Phase::Ready => {}
        }
    }

    /// The counts when a stay in a phase begins.
    pub(crate) fn begin(self, phase: Phase) -> Counts
        ensures { result ≡ with_stay_begun self phase }
    {
        match phase {
            Phase::Recover => Counts { recover: 0, ..self },
            Phase::Post => Counts { post: 0, ..self },
            Phase::Enter => Counts { enter: 0, ..self },
            Phase::Section => Counts { section: 0, ..self },
            Phase::Exit => Counts { exit: 0, ..self },
            Phase::Ready => self,
        }
    }

    /// Counts a step that was made in phase `before` and left the worker in phase `after`.
    pub(crate) fn after_step(&mut self, before: Phase, after: Phase, note: Note)
        requires { phase_count self.old before < 4294967295 }
        ensures { CountsAfterStep self.old before after note self.new }
    {
        if is_blocked(note) {
            return;
        }
        self.count(before);
        if after == before {
            return;
        }
        *self = self.begin(after);
    }
}

/// Whether the step was blocked at its node.
fn is_blocked(note: Note) -> bool
    ensures { IsTrue result ↔ (note ≡ Note.Blocked) }
{
    matches!(note, Note::Blocked)
}
