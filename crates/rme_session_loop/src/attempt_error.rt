//! Why an attempt at an order has no reply, and why a line has no answer.

ghost use Rattle.std.specs.Prelude.{◌≡◌};
ghost use Rattle.rme_session_loop.specs.SessionAnswers.{answer_error};

use rme_wire::EngineFault;

/// Why an attempt at an order has no reply. Then the session ends.
#[derive(Clone, Copy, Debug, PartialEq, Eq)]
pub enum AttemptError {
    /// Memory for it was refused.
    NoMemory,
    /// The order was executed, or may have been, and its lines could not be logged: the server ends.
    NotLogged,
}

/// Why a line has no answer. Then the session ends.
#[derive(Clone, Copy, Debug, PartialEq, Eq)]
pub enum AnswerError {
    /// Memory for the order or its answer was refused.
    NoMemory,
    /// Earlier answers could not be written.
    WriteFailed,
    /// The log could not be written: the server ends.
    NotLogged,
}

impl AnswerError {
    ghost use Rattle.std.specs.Prelude.{◌≡◌};
    ghost use Rattle.rme_session_loop.specs.SessionAnswers.{session_fault};

    /// The fault that ends the session of the line. A log that could not be written ends it as want of memory does:
    /// earlier answers are written, and the line has none.
    pub(crate) fn session_fault(self) -> EngineFault
        ensures { result ≡ session_fault self }
    {
        match self {
            AnswerError::NoMemory | AnswerError::NotLogged => EngineFault::NoMemory,
            AnswerError::WriteFailed => EngineFault::WriteFailed,
        }
    }
}

/// Why a line has no answer, by why its order has no reply.
pub(crate) fn answer_error(why: AttemptError) -> AnswerError
    ensures { result ≡ answer_error why }
{
    match why {
        AttemptError::NoMemory => AnswerError::NoMemory,
        AttemptError::NotLogged => AnswerError::NotLogged,
    }
}
