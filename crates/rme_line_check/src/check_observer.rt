//! The observer of a check.

use rme_core_checker::Machine;
use rme_line_text::{EventLine, Names};
use rme_words::NoMemory;

/// Observes a check: it sees each step of the machine, and cannot change the verdict.
///
/// `NoMemory` of either call ends the check.
pub trait CheckObserver {
    ghost use Rattle.std.specs.Prelude.{OnOk};
    ghost use Rattle.rme_line_check.specs.Observations.{CheckObservation, begins, takes};

    // The effect of an observation on the observer. It may be any relation, so that a check for every observer has to
    // pass each observation in order.
    ghost sees: { Self → CheckObservation → Self → Type 0 };

    /// The first line opened this machine, with these names of its locks.
    fn opened(&mut self, names: &Names, machine: &Machine) -> Result<(), NoMemory>
        ensures { OnOk result (sees self.old (begins names.now machine.now) self.new) };

    /// The machine made the step of this line, and is now in this state.
    fn stepped(&mut self, line: &EventLine, machine: &Machine) -> Result<(), NoMemory>
        ensures { OnOk result (sees self.old (takes line.now machine.now) self.new) };
}

/// No observer.
#[derive(Drop)]
pub struct NoCheckObserver;

impl CheckObserver for NoCheckObserver {
    ghost sees = { λ _ _ _. Unit {0} };

    fn opened(&mut self, _names: &Names, _machine: &Machine) -> Result<(), NoMemory> {
        Ok(())
    }

    fn stepped(&mut self, _line: &EventLine, _machine: &Machine) -> Result<(), NoMemory> {
        Ok(())
    }
}
