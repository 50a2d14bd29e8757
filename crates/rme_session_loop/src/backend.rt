//! The backend, which answers the lines of sessions.

use crate::attempt_error::{AnswerError, AttemptError};
use crate::buffers::Buffers;
use crate::client::{Client, CloseHandle};
use rme_wire::{Names, Sink};
use std::alloc::Global;
use std::sync::Wait;
use std::time::Clock;

/// Answers the lines of sessions, which share it. `session` reads the lines and writes the answers.
pub trait Backend {
    ghost use Rattle.std.specs.Prelude.{◌≡◌, ◌↔◌, ℕ, List, [], IfErr, IsTrue, OnOk, Option, string_bytes};
    ghost use Rattle.rme_line_io.specs.Cuts.{input_line_of};
    ghost use Rattle.rme_line_io.specs.Pieces.{InputLine};
    ghost use Rattle.rme_line_io.specs.BufferedWrites.{BufferedWrite};
    ghost use Rattle.rme_line_io.specs.StreamEvents.{LastWriteFailed, WritesMade};
    ghost use Rattle.rme_session_loop.specs.SessionAnswers.{AnswerFailure};

    /// The state of a session between two lines. It need not be `Drop`: a session ends by `end_session`.
    type Stand;

    /// The handle by which a client that has a worker is closed.
    type Handle: CloseHandle;

    // The property of the backend that a caller shows.
    ghost fits: { Self → Type 0 };

    // The property of a session's state that every call preserves.
    ghost may_hold: { Self → Self.Stand → Type 0 };

    // A session without a worker.
    ghost nobody: { Self → Self.Stand };

    // How a line is answered: what is known once the client was found to be gone, the session before, the line, the
    // bytes of the answer with its newline, and the session after.
    ghost answers: { Self → Type 0 → Self.Stand → InputLine → List ℕ → Self.Stand → Type 0 };

    // A session in this state is finished: it ends behind the line that led to it. By default none is.
    ghost finished: { Self → Self.Stand → Type 0 } = { λ _ _. ⊥ };

    // The worker that a session in this state has attached, if any.
    ghost attached: { Self → Self.Stand → Option ℕ };

    // How a session in this state ended.
    ghost ends: { Self → Self.Stand → Type 0 };

    /// The allocator of the sessions' buffers.
    fn alloc(&self) -> Global;

    /// The names of the locks in lines and answers.
    fn names(&self) -> &Names;

    /// Whether it answers no more lines, so that its server ends. Once true, it stays true.
    fn is_over<R: Wait>(&self, rt: &R) -> bool;

    /// A session without a worker.
    fn begin_session(&self) -> Self::Stand
        ensures nobody { result ≡ nobody self.now }
        ensures may_hold { may_hold self.now result };

    /// Whether the session is finished, so that no further line of its client is answered.
    fn is_finished(&self, stand: &Self::Stand) -> bool
        ensures { IsTrue result ↔ finished self.now stand.now };

    /// The worker that the session has attached, if any.
    fn attached_worker(&self, stand: &Self::Stand) -> Option<u32>
        ensures { result ≡ attached self.now stand.now };

    /// Answers the last line: `buffers.text` becomes the answer and a newline; none of it is buffered or
    /// written yet. If the answer will take long, the buffered answers are written first.
    fn answer<R: Wait + Clock, O: Sink, C: Client<Handle = Self::Handle>>(
        &self,
        rt: &R,
        stand: Self::Stand,
        buffers: &mut Buffers,
        writer: &mut O,
        client: &C,
    ) -> (Self::Stand, Result<(), AnswerError>)
        requires fits { fits self.now }
        requires may_hold { may_hold self.now stand }
        ensures may_hold { may_hold self.now result.0 }
        ensures answers { OnOk result.1 (answers self.now (C.gone client.now) stand
            (input_line_of buffers.old.cut buffers.old.exchange.line.items) (string_bytes buffers.new.text) result.0) }
        ensures gathers { OnOk result.1 (BufferedWrite (O.contents writer.old) buffers.old.exchange.pending []
            (O.contents writer.new) buffers.new.exchange.pending) }
        ensures err { IfErr result.1 (λ why. AnswerFailure why (O.contents writer.old) buffers.old.exchange.pending
            (O.contents writer.new) buffers.new.exchange.pending) }
        ensures writes { WritesMade (O.took writer.old) (O.took writer.new) }
        ensures broke { IfErr result.1 (λ why. why ≡ AnswerError.WriteFailed
            → LastWriteFailed (O.took writer.old) (O.took writer.new)) };

    /// Ends a session, for whatever reason, and takes back what it has, of which its client is told. An error if that
    /// could not be logged: then the backend is over.
    fn end_session<R: Wait + Clock, C: Client<Handle = Self::Handle>>(
        &self,
        rt: &R,
        stand: Self::Stand,
        client: &C,
    ) -> Result<(), AttemptError>
        requires fits { fits self.now }
        requires may_hold { may_hold self.now stand }
        ensures ends { OnOk result (ends self.now stand) };
}
