//! Why the program cannot go on.

use rme_cli_messages::CliFault;
use rme_words::{NoMemory, Refusal};
use std::alloc::AllocError;
use std::io;

/// The program cannot go on, apart from what a simulation finds.
#[derive(Debug, Drop)]
pub enum SimulationFailure {
    /// The words of the command line are not understood.
    BadWords,
    NoMemory,
    /// The output could not be written.
    NotWritten,
    /// A new state could not be made.
    NoState,
}

impl From<AllocError> for SimulationFailure {
    fn from(_refused: AllocError) -> SimulationFailure {
        SimulationFailure::NoMemory
    }
}

impl From<NoMemory> for SimulationFailure {
    fn from(_refused: NoMemory) -> SimulationFailure {
        SimulationFailure::NoMemory
    }
}

impl From<Refusal> for SimulationFailure {
    fn from(_refusal: Refusal) -> SimulationFailure {
        SimulationFailure::NoState
    }
}

impl From<CliFault> for SimulationFailure {
    fn from(_fault: CliFault) -> SimulationFailure {
        SimulationFailure::NoState
    }
}

impl From<io::Error> for SimulationFailure {
    fn from(_error: io::Error) -> SimulationFailure {
        SimulationFailure::NotWritten
    }
}
