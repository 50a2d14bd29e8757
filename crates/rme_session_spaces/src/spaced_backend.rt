//! A backend whose sessions go from space to space.

ghost use Rattle.std.specs.Prelude.{◌≡◌, IfErr, IfOk, OnOk, string_bytes};
ghost use Rattle.rme_line_io.specs.Cuts.{input_line_of};
ghost use Rattle.rme_session_spaces.specs.SpacedAnswers.{asked_space_line};
ghost use Rattle.rme_space_orders.specs.SpaceReplies.{space_reply_text};

use crate::directory::SpaceDirectory;
use rme_session_loop::{AnswerError, AttemptError, Backend, Buffers, Client};
use rme_session_protocol::SessionReply;
use rme_space_orders::{
    NewSpace, SpaceLine, SpaceName, SpaceOrder, SpaceReply, parse_space_order, push_space_reply,
};
use rme_wire::{Cut, Names, Sink};
use rme_words::{NoMemory, Refusal};
use std::alloc::Global;
use std::sync::Wait;
use std::time::Clock;

/// The state of a session: its state at the backend below, and the visit to the space that it goes on with, if it is
/// finished here.
#[derive(Drop)]
pub struct SpacedStand<T, V> {
    pub stand: T,
    pub visit: Option<V>,
}

/// A backend over another one, which answers what is no order on spaces.
#[derive(Drop)]
pub struct SpacedBackend<'a, B, D> {
    pub backend: &'a B,
    pub spaces: &'a D,
    /// The names of the backend's locks.
    pub names: &'a Names,
}

/// An order on spaces is executed by the directory, and never reaches the backend below; every other line is passed on.
/// `use` is refused `Busy` while the session has a worker. Once it succeeds, the session is finished here.
impl<B: Backend, D: SpaceDirectory> Backend for SpacedBackend<'_, B, D> {
    ghost use Rattle.std.specs.Prelude.{◌⊎◌, None, IsSome};
    ghost use Rattle.rme_session_spaces.specs.SpacedAnswers.{SpacedLineAnswer, spaced_terms};

    type Stand = SpacedStand<B::Stand, D::Visit>;

    type Handle = B::Handle;

    ghost fits = { λ spaced. B.fits spaced.backend.now };

    ghost may_hold = { λ spaced session. B.may_hold spaced.backend.now session.stand };

    ghost nobody = { λ spaced. record { stand = B.nobody spaced.backend.now; visit = None } };

    ghost answers = { λ spaced gone. SpacedLineAnswer (spaced_terms spaced.names.now (D.calls spaced.spaces.now)
        (B.attached spaced.backend.now)) (B.answers spaced.backend.now gone) };

    ghost attached = { λ spaced session. B.attached spaced.backend.now session.stand };

    ghost finished = { λ spaced session. IsSome session.visit ⊎ B.finished spaced.backend.now session.stand };

    ghost ends = { λ spaced session. B.ends spaced.backend.now session.stand };

    fn alloc(&self) -> Global {
        self.backend.alloc()
    }

    fn names(&self) -> &Names {
        self.names
    }

    fn is_over<R: Wait>(&self, rt: &R) -> bool {
        self.backend.is_over(rt)
    }

    fn begin_session(&self) -> SpacedStand<B::Stand, D::Visit> {
        SpacedStand {
            stand: self.backend.begin_session(),
            visit: None,
        }
    }

    fn is_finished(&self, session: &SpacedStand<B::Stand, D::Visit>) -> bool {
        match &session.visit {
            Some(_) => true,
            None => self.backend.is_finished(&session.stand),
        }
    }

    fn attached_worker(&self, session: &SpacedStand<B::Stand, D::Visit>) -> Option<u32> {
        self.backend.attached_worker(&session.stand)
    }

    fn answer<R: Wait + Clock, O: Sink, C: Client<Handle = B::Handle>>(
        &self,
        rt: &R,
        session: SpacedStand<B::Stand, D::Visit>,
        buffers: &mut Buffers,
        writer: &mut O,
        client: &C,
    ) -> (SpacedStand<B::Stand, D::Visit>, Result<(), AnswerError>) {
        let SpacedStand { stand, visit } = session;
        match parse_last(self.backend.alloc(), buffers) {
            Ok(SpaceLine::Other) => {
                let (stand, answered) = self.backend.answer(rt, stand, buffers, writer, client);
                (SpacedStand { stand, visit }, answered)
            }
            Ok(SpaceLine::Refused(why)) => {
                let answered = self.refuse(why, buffers);
                (SpacedStand { stand, visit }, answered)
            }
            Ok(SpaceLine::Order(order)) => {
                let session = SpacedStand { stand, visit };
                self.answer_space_order(rt, session, order, buffers)
            }
            Err(_) => (SpacedStand { stand, visit }, Err(AnswerError::NoMemory)),
        }
    }

    fn end_session<R: Wait + Clock, C: Client<Handle = B::Handle>>(
        &self,
        rt: &R,
        session: SpacedStand<B::Stand, D::Visit>,
        client: &C,
    ) -> Result<(), AttemptError> {
        let SpacedStand { stand, visit: _ } = session;
        self.backend.end_session(rt, stand, client)
    }
}

/// What the last line is for a server of spaces.
fn parse_last(alloc: Global, buffers: &Buffers) -> Result<SpaceLine, NoMemory>
    ensures { IfOk result (λ found. found
        ≡ asked_space_line (input_line_of buffers.now.cut buffers.now.exchange.line.items)) }
{
    if buffers.cut == Cut::TooLong {
        return Ok(SpaceLine::Other);
    }
    parse_space_order(alloc, buffers.exchange.line())
}

impl<B: Backend, D: SpaceDirectory> SpacedBackend<'_, B, D> {
    ghost use Rattle.std.specs.Prelude.{◌≡◌, IfErr, IfOk, OnOk, string_bytes};
    ghost use Rattle.rme_session_spaces.specs.SpacedAnswers.{AnswersSpaceOrder, AnswersUse, TellsCall, answer_line};
    ghost use Rattle.rme_session_spaces.specs.SpacedAnswers.{created_line, dropped_line, page_line, refused_order_line};
    ghost use Rattle.rme_session_spaces.specs.SpacedAnswers.{spaced_terms, used_line};

    /// Answers an order on spaces, and the session then.
    fn answer_space_order<R: Wait + Clock>(
        &self,
        rt: &R,
        session: SpacedStand<B::Stand, D::Visit>,
        order: SpaceOrder,
        buffers: &mut Buffers,
    ) -> (SpacedStand<B::Stand, D::Visit>, Result<(), AnswerError>)
        ensures stand { result.0.stand ≡ session.stand }
        ensures answers { OnOk result.1 (AnswersSpaceOrder (spaced_terms self.now.names.now
            (D.calls self.now.spaces.now) (B.attached self.now.backend.now)) session order
            (string_bytes buffers.new.text) result.0) }
        ensures same { buffers.new.exchange ≡ buffers.old.exchange }
        ensures err { IfErr result.1 (λ why. why ≡ AnswerError.NoMemory) }
    {
        match order {
            SpaceOrder::Use(name) => self.answer_use(rt, session, &name, buffers),
            SpaceOrder::Create(space) => {
                let answered = self.answer_create(rt, &space, buffers);
                (session, answered)
            }
            SpaceOrder::Spaces(after) => {
                let answered = self.answer_list(rt, after, buffers);
                (session, answered)
            }
            SpaceOrder::Drop(name) => {
                let answered = self.answer_drop(rt, &name, buffers);
                (session, answered)
            }
        }
    }

    /// Answers an order to use a space.
    fn answer_use<R: Wait + Clock>(
        &self,
        rt: &R,
        session: SpacedStand<B::Stand, D::Visit>,
        name: &SpaceName,
        buffers: &mut Buffers,
    ) -> (SpacedStand<B::Stand, D::Visit>, Result<(), AnswerError>)
        ensures stand { result.0.stand ≡ session.stand }
        ensures answers { OnOk result.1 (AnswersUse (spaced_terms self.now.names.now (D.calls self.now.spaces.now)
            (B.attached self.now.backend.now)) session name.now (string_bytes buffers.new.text) result.0
            (B.attached self.now.backend.now session.stand)) }
        ensures same { buffers.new.exchange ≡ buffers.old.exchange }
        ensures err { IfErr result.1 (λ why. why ≡ AnswerError.NoMemory) }
    {
        if self.backend.attached_worker(&session.stand).is_some() {
            let answered = self.refuse(Refusal::Busy, buffers);
            return (session, answered);
        }
        match self.begin_visit(rt, name, buffers) {
            Ok(Ok(visit)) => {
                let SpacedStand { stand, visit: _ } = session;
                let visit = Some(visit);
                (SpacedStand { stand, visit }, Ok(()))
            }
            Ok(Err(_)) => (session, Ok(())),
            Err(why) => (session, Err(why)),
        }
    }

    /// Asks the directory for a visit to a space, and tells its answer.
    fn begin_visit<R: Wait + Clock>(
        &self,
        rt: &R,
        name: &SpaceName,
        buffers: &mut Buffers,
    ) -> Result<Result<D::Visit, Refusal>, AnswerError>
        ensures entered { IfOk result ((D.calls self.now.spaces.now).entered name.now) }
        ensures says { IfOk result (λ answer. string_bytes buffers.new.text
            ≡ answer_line self.now.names.now used_line answer) }
        ensures same { buffers.new.exchange ≡ buffers.old.exchange }
        ensures err { IfErr result (λ why. why ≡ AnswerError.NoMemory) }
    {
        // Memory for the answer comes first: no visit may begin whose session is not told of it.
        write_space_reply(SpaceReply::Used, buffers)?;
        match self.spaces.enter(rt, name) {
            Ok(visit) => Ok(Ok(visit)),
            Err(why) => {
                self.refuse(why, buffers)?;
                Ok(Err(why))
            }
        }
    }

    /// Asks the directory to create a space, and tells its answer.
    fn answer_create<R: Wait + Clock>(
        &self,
        rt: &R,
        space: &NewSpace,
        buffers: &mut Buffers,
    ) -> Result<(), AnswerError>
        ensures says { OnOk result (TellsCall (D.calls self.now.spaces.now).created created_line self.now.names.now
            space.now (string_bytes buffers.new.text)) }
        ensures same { buffers.new.exchange ≡ buffers.old.exchange }
        ensures err { IfErr result (λ why. why ≡ AnswerError.NoMemory) }
    {
        match self.spaces.create(rt, space) {
            Ok(()) => write_space_reply(SpaceReply::Created, buffers),
            Err(why) => self.refuse(why, buffers),
        }
    }

    /// Asks the directory for the names of spaces, and tells its answer.
    fn answer_list<R: Wait>(
        &self,
        rt: &R,
        after: Option<SpaceName>,
        buffers: &mut Buffers,
    ) -> Result<(), AnswerError>
        ensures says { OnOk result (TellsCall (D.calls self.now.spaces.now).listed page_line self.now.names.now
            after (string_bytes buffers.new.text)) }
        ensures same { buffers.new.exchange ≡ buffers.old.exchange }
        ensures err { IfErr result (λ why. why ≡ AnswerError.NoMemory) }
    {
        match self.spaces.list(rt, after.as_ref()) {
            Ok(page) => {
                let reply = SpaceReply::Spaces {
                    names: page.names.as_slice(),
                    more: page.has_more,
                };
                write_space_reply(reply, buffers)
            }
            Err(why) => self.refuse(why, buffers),
        }
    }

    /// Asks the directory to drop a space, and tells its answer.
    fn answer_drop<R: Wait + Clock>(
        &self,
        rt: &R,
        name: &SpaceName,
        buffers: &mut Buffers,
    ) -> Result<(), AnswerError>
        ensures says { OnOk result (TellsCall (D.calls self.now.spaces.now).removed dropped_line self.now.names.now
            name.now (string_bytes buffers.new.text)) }
        ensures same { buffers.new.exchange ≡ buffers.old.exchange }
        ensures err { IfErr result (λ why. why ≡ AnswerError.NoMemory) }
    {
        match self.spaces.remove(rt, name) {
            Ok(()) => write_space_reply(SpaceReply::Dropped, buffers),
            Err(why) => self.refuse(why, buffers),
        }
    }

    /// Replaces the text by a refusal.
    fn refuse(&self, why: Refusal, buffers: &mut Buffers) -> Result<(), AnswerError>
        ensures says { OnOk result (string_bytes buffers.new.text ≡ refused_order_line self.now.names.now why) }
        ensures same { buffers.new.exchange ≡ buffers.old.exchange }
        ensures err { IfErr result (λ why. why ≡ AnswerError.NoMemory) }
    {
        buffers.write_reply(self.names, SessionReply::Refused(why))
    }
}

/// Replaces the text by the answer to an order on spaces. After an error the text is unspecified.
fn write_space_reply(reply: SpaceReply<'_>, buffers: &mut Buffers) -> Result<(), AnswerError>
    ensures says { OnOk result (string_bytes buffers.new.text ≡ space_reply_text reply.entry) }
    ensures same { buffers.new.exchange ≡ buffers.old.exchange }
    ensures err { IfErr result (λ why. why ≡ AnswerError.NoMemory) }
{
    buffers.text.clear();
    match push_space_reply(&mut buffers.text, reply) {
        Ok(()) => Ok(()),
        Err(_) => Err(AnswerError::NoMemory),
    }
}
