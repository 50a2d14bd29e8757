//! The fall of a life, as a Chance.

ghost use Rattle.std.specs.Prelude.{◌≡◌};

use rme_table::Chance;

/// Whether a worker falls in a life, and when.
///
/// It is asked before each own step, and counts down.
#[derive(Clone, Copy)]
pub(crate) enum FallCountdown {
    /// The plan has no further fall.
    Never,
    /// The worker falls before the own step that would follow this number of steps.
    After(u32),
    /// The worker fell at the last question. A fallen worker asks no more: a further question would make it fall again.
    Fallen,
}

impl FallCountdown {
    ghost use Rattle.rme_supervisor.specs.Plans.{CountsRise};
    ghost use Rattle.rme_supervisor.specs.Falling.{IsNextFall};

    /// The fall of a life after `lives` others, each of which ended at a fall: the plan's counts are those of all
    /// lives, and the previous life fell at the last count.
    pub(crate) fn next(counts: &[u32], lives: u32) -> FallCountdown
        requires rising { CountsRise counts.now }
        ensures { IsNextFall counts.now lives result }
    {
        let place = lives as usize;
        if place >= counts.len() {
            return FallCountdown::Never;
        }
        if place == 0 {
            return FallCountdown::After(counts[0]);
        }
        FallCountdown::After(counts[place] - counts[place - 1])
    }
}

impl Chance for FallCountdown {
    ghost use Rattle.rme_supervisor.specs.Falling.{counts_of_countdown};

    ghost tally = { counts_of_countdown };

    fn falls(&mut self) -> bool {
        match *self {
            FallCountdown::Never => false,
            FallCountdown::After(0) => {
                *self = FallCountdown::Fallen;
                true
            }
            FallCountdown::After(left) => {
                *self = FallCountdown::After(left - 1);
                false
            }
            FallCountdown::Fallen => {
                *self = FallCountdown::Never;
                true
            }
        }
    }
}
