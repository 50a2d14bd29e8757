//! Why a request has no answer.

ghost use Rattle.std.specs.Prelude.{◌≡◌};
ghost use Rattle.rme_ask_client.specs.Conversations.{client_error_of};
ghost use Rattle.rme_ask_client.specs.declared.client_error.ClientError.TheVariants.{NoMemory};

use rme_line_io::EngineFault;
use std::alloc::{AllocError, AllocFailed};
use std::error::Error;
use std::fmt;

/// Why a request has no answer. The conversation is then over: the next line may be the answer to another request.
#[derive(Clone, Copy, Debug, PartialEq, Eq)]
pub enum ClientError {
    /// The server ended the session.
    Ended,
    /// The request could not be sent.
    NotSent,
    /// The answer could not be received.
    NotReceived,
    /// The answer has more than 65,536 bytes.
    TooLong,
    /// The answer is no JSON.
    NoJson,
    /// The answer has no such member, or not with a value of its type.
    NoMember(&'static str),
    /// The answer is that to another request.
    OtherAnswer,
    /// Memory was refused.
    NoMemory,
}

impl fmt::Display for ClientError {
    fn fmt<W: fmt::Write>(&self, f: &mut fmt::Formatter<W>) -> fmt::Result {
        match self {
            ClientError::Ended => f.write_str("the server ended the session"),
            ClientError::NotSent => f.write_str("the request can't be sent: the server is gone"),
            ClientError::NotReceived => {
                f.write_str("the answer can't be received: the connection is broken")
            }
            ClientError::TooLong => f.write_str("the answer has more than 65,536 bytes"),
            ClientError::NoJson => f.write_str("the answer is no JSON: is this a server of rme?"),
            ClientError::NoMember(name) => write!(f, "the answer has no `{name}`"),
            ClientError::OtherAnswer => f.write_str("the answer is that to another request"),
            ClientError::NoMemory => f.write_str("no memory"),
        }
    }
}

impl Error for ClientError {}

impl ClientError {
    /// The error if the answer cannot be received, by the fault of the reader.
    pub(crate) fn of_reading(fault: EngineFault) -> ClientError
        ensures { result ≡ client_error_of fault }
    {
        match fault {
            EngineFault::NoMemory => ClientError::NoMemory,
            _ => ClientError::NotReceived,
        }
    }
}

impl From<AllocError> for ClientError {
    ghost from_gives = { λ _ error. error ≡ NoMemory };

    fn from(_refused: AllocError) -> ClientError {
        ClientError::NoMemory
    }
}

impl<T: Drop> From<AllocFailed<T>> for ClientError {
    ghost from_gives = { λ _ error. error ≡ NoMemory };

    fn from(_refused: AllocFailed<T>) -> ClientError {
        ClientError::NoMemory
    }
}
