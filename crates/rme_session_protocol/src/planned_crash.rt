//! The planned crash of a client.

/// A planned crash of a session's worker. Once it has happened, nothing is planned.
#[derive(Clone, Copy)]
pub enum PlannedCrash {
    /// No crash is planned.
    Nothing,
    /// The worker crashes after this number of further own steps.
    After(u32),
}

/// The plan during an order. After a crash it implies that the crash was due.
#[derive(Clone, Copy)]
pub enum Countdown {
    /// The worker has not crashed.
    Runs(PlannedCrash),
    /// The worker crashed at the last tick. A crashed worker ticks no more: a further tick would crash it again.
    Fallen,
}

impl Countdown {
    ghost use Rattle.std.specs.Prelude.{◌≡◌};
    ghost use Rattle.rme_session_protocol.specs.PlannedCrashes.{CountdownTick, planned_after};

    /// Whether the worker crashes before its next own step. Called before each own step, it counts down.
    pub fn tick(&mut self) -> bool
        ensures { CountdownTick self.old result self.new }
    {
        match *self {
            Countdown::Runs(PlannedCrash::Nothing) => false,
            Countdown::Runs(PlannedCrash::After(0)) => {
                *self = Countdown::Fallen;
                true
            }
            Countdown::Runs(PlannedCrash::After(left)) => {
                *self = Countdown::Runs(PlannedCrash::After(left - 1));
                false
            }
            Countdown::Fallen => {
                *self = Countdown::Runs(PlannedCrash::Nothing);
                true
            }
        }
    }

    /// The plan afterwards: nothing after a crash.
    pub fn remaining(self) -> PlannedCrash
        ensures { result ≡ planned_after self }
    {
        match self {
            Countdown::Runs(planned) => planned,
            Countdown::Fallen => PlannedCrash::Nothing,
        }
    }
}
