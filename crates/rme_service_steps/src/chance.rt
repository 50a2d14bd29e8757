//! Where a worker crashes by plan.

ghost use Rattle.std.specs.Prelude.{ℕ, Option, None};
ghost use Rattle.rme_service_steps.specs.Chances.{ChanceCounts, ChanceWasAsked, yes_count};

/// Decides, before each own step of a worker, whether the worker crashes there.
pub trait Chance {
    // The number of its yeses, and of its questions if it counts them.
    ghost tally: { Self → ChanceCounts };

    /// Whether the worker crashes before its next own step.
    fn falls(&mut self) -> bool
        ensures { ChanceWasAsked (tally self.old) (tally self.new) 1 (yes_count result) };
}

/// Never lets a worker crash, and counts nothing.
#[derive(Clone, Copy)]
pub struct Never;

impl Chance for Never {
    ghost use Rattle.std.specs.Prelude.{None};

    ghost tally = { λ _. record { yeses = 0; questions = None } };

    fn falls(&mut self) -> bool {
        false
    }
}
