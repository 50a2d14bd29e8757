//! How a command ended, and why it ended early.

ghost use Rattle.std.specs.Prelude.{◌≡◌};
ghost use Rattle.rme_cli_ask.specs.Ends.{ask_status};
ghost use Rattle.rme_cli_ask.specs.declared.ask_end.AskFault.TheVariants.{Cli, Server};
ghost use Rattle.rme_cli_messages.specs.declared.fault.CliFault.TheVariants.{NoMemory};

use rme_ask_client::ClientError;
use rme_cli_messages::CliFault;
use rme_line_io::EngineFault;
use std::alloc::{AllocError, AllocFailed};

/// How a command ended.
#[derive(Clone, Copy, Debug, PartialEq, Eq)]
pub(crate) enum AskEnd {
    /// What was asked for was done.
    Done,
    /// The server refused it, and nothing was changed.
    Refused,
    /// The server ended the session, or what it answered is no answer.
    Failed,
    /// The job still waits for its lock.
    Waits,
}

impl AskEnd {
    /// The exit status of the program.
    pub(crate) fn status(self) -> u8
        ensures { result ≡ ask_status self }
    {
        match self {
            AskEnd::Done => 0,
            AskEnd::Refused | AskEnd::Failed | AskEnd::Waits => 1,
        }
    }
}

/// Why a command ended early: a fault of this program's side, or of the server's.
#[derive(Debug, Drop)]
pub(crate) enum AskFault {
    Cli(CliFault),
    Server(ClientError),
}

impl From<CliFault> for AskFault {
    ghost from_gives = { λ fault ended. ended ≡ Cli fault };

    fn from(fault: CliFault) -> AskFault {
        AskFault::Cli(fault)
    }
}

impl From<ClientError> for AskFault {
    ghost from_gives = { λ error ended. ended ≡ Server error };

    fn from(error: ClientError) -> AskFault {
        AskFault::Server(error)
    }
}

impl From<EngineFault> for AskFault {
    fn from(fault: EngineFault) -> AskFault {
        AskFault::Cli(CliFault::from(fault))
    }
}

impl From<AllocError> for AskFault {
    ghost from_gives = { λ _ ended. ended ≡ Cli NoMemory };

    fn from(_refused: AllocError) -> AskFault {
        AskFault::Cli(CliFault::NoMemory)
    }
}

impl<T: Drop> From<AllocFailed<T>> for AskFault {
    ghost from_gives = { λ _ ended. ended ≡ Cli NoMemory };

    fn from(_refused: AllocFailed<T>) -> AskFault {
        AskFault::Cli(CliFault::NoMemory)
    }
}
