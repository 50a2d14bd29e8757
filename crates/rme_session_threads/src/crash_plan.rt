//! The planned crash of a client, as a Chance of the running service: it is asked before each own step.

use rme_session_protocol::{Countdown, PlannedCrash};
use rme_table::Chance;

/// A planned crash, as a Chance. Once it has crashed a worker, nothing is planned.
#[derive(Clone, Copy)]
pub struct CrashPlan {
    pub planned: PlannedCrash,
}

impl Chance for CrashPlan {
    ghost use Rattle.rme_session_threads.specs.CrashPlans.{plan_tally};
    ghost use Rattle.rme_session_threads.specs.declared.crash_plan.CrashPlan.{CrashPlan};

    ghost tally = { λ (plan : CrashPlan). plan_tally plan.planned };

    fn falls(&mut self) -> bool {
        let mut countdown = Countdown::Runs(self.planned);
        let falls = countdown.tick();
        self.planned = countdown.remaining();
        falls
    }
}

/// The plan during an order, as a Chance.
#[derive(Drop)]
pub(crate) struct CountdownChance {
    pub(crate) countdown: Countdown,
}

impl Chance for CountdownChance {
    ghost use Rattle.rme_session_threads.specs.CrashPlans.{countdown_tally};
    ghost use Rattle.rme_session_threads.specs.declared.crash_plan.CountdownChance.{CountdownChance};

    ghost tally = { λ (counting : CountdownChance). countdown_tally counting.countdown };

    fn falls(&mut self) -> bool {
        self.countdown.tick()
    }
}
