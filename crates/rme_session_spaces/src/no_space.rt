//! The backend of a session that uses no space.

ghost use Rattle.std.specs.Prelude.{◌≡◌, IfOk};
ghost use Rattle.rme_session_spaces.specs.NoSpaceAnswers as spec;

use rme_session_loop::{AnswerError, AttemptError, Backend, Buffers, Client};
use rme_session_protocol::{Order, SERVICE_NUMBERS, SessionReply};
use rme_session_server::Closer;
use rme_wire::{Cut, Names, Sink, ValueReader, ValueStorage, do_member};
use rme_words::{NoMemory, Refusal};
use std::alloc::Global;
use std::sync::Wait;
use std::time::Clock;

/// The backend of a session that uses no space: it answers `ping`, and refuses every other order `NoSpace`.
#[derive(Drop)]
pub struct NoSpace<'a> {
    pub alloc: Global,
    /// No names.
    pub names: &'a Names,
}

/// A line with a word of `do`, a text, counts as an order, whatever its other keys are.
impl Backend for NoSpace<'_> {
    ghost use Rattle.std.specs.Prelude.{⊤, None};
    ghost use Rattle.rme_session_spaces.specs.NoSpaceAnswers.{NoSpaceLineAnswer};

    type Stand = ();

    type Handle = Closer;

    ghost fits = { λ _. ⊤ };

    ghost may_hold = { λ _ _. ⊤ };

    ghost nobody = { λ _. record {} };

    ghost answers = { λ front _ _ line bytes _. NoSpaceLineAnswer front.names.now line bytes };

    ghost attached = { λ _ _. None };

    ghost ends = { λ _ _. ⊤ };

    fn alloc(&self) -> Global {
        self.alloc
    }

    fn names(&self) -> &Names {
        self.names
    }

    fn is_over<R: Wait>(&self, _rt: &R) -> bool {
        false
    }

    fn begin_session(&self) {}

    fn is_finished(&self, _stand: &()) -> bool {
        false
    }

    fn attached_worker(&self, _stand: &()) -> Option<u32> {
        None
    }

    fn answer<R: Wait + Clock, O: Sink, C: Client<Handle = Closer>>(
        &self,
        _rt: &R,
        _stand: (),
        buffers: &mut Buffers,
        _writer: &mut O,
        _client: &C,
    ) -> ((), Result<(), AnswerError>) {
        let answered = match self.reply(buffers) {
            Ok(reply) => buffers.write_reply(self.names, reply),
            Err(_) => Err(AnswerError::NoMemory),
        };
        ((), answered)
    }

    fn end_session<R: Wait + Clock, C: Client<Handle = Closer>>(
        &self,
        _rt: &R,
        _stand: (),
        _client: &C,
    ) -> Result<(), AttemptError> {
        Ok(())
    }
}

impl NoSpace<'_> {
    ghost use Rattle.std.specs.Prelude.{◌≡◌, IfOk};
    ghost use Rattle.rme_line_io.specs.Cuts.{input_line_of};
    ghost use Rattle.rme_session_spaces.specs.NoSpaceAnswers.{no_space_reply};

    /// The reply to the last line.
    fn reply(&self, buffers: &mut Buffers) -> Result<SessionReply, NoMemory>
        ensures reply { IfOk result (λ reply. reply ≡ no_space_reply self.now.names.now
            (input_line_of buffers.old.cut buffers.old.exchange.line.items)) }
        ensures same { buffers.new.exchange ≡ buffers.old.exchange }
    {
        if buffers.cut == Cut::TooLong {
            return Ok(SessionReply::Refused(Refusal::LineTooLong));
        }
        match buffers.parse_order(self.names, SERVICE_NUMBERS) {
            Ok(Ok(Order::Ping)) => Ok(SessionReply::Pong),
            Ok(Ok(_)) => Ok(SessionReply::Refused(Refusal::NoSpace)),
            Ok(Err(_)) => non_order_reply(self.alloc, buffers.exchange.line()),
            Err(why) => Err(why),
        }
    }
}

/// The reply to a line that is no order of a session.
fn non_order_reply(alloc: Global, line: &[u8]) -> Result<SessionReply, NoMemory>
    ensures { IfOk result (λ reply. reply ≡ spec.non_order_reply line.now) }
{
    let mut values = ValueReader::new(alloc);
    let mut room = ValueStorage::new();
    let Some(value) = values.read(&mut room, line)? else {
        return Ok(SessionReply::Refused(Refusal::BadLine));
    };
    match do_member(&value) {
        Some(_) => Ok(SessionReply::Refused(Refusal::NoSpace)),
        None => Ok(SessionReply::Refused(Refusal::BadLine)),
    }
}
