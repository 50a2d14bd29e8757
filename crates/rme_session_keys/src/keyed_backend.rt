//! A backend whose sessions begin with a secret.

use crate::asked_space::asked_space;
use crate::asked_worker::asked_worker;
use crate::hello::{Greeting, greet, write_hello};
use crate::key_source::KeySource;
use rme_keys::Key;
use rme_session_loop::{AnswerError, AttemptError, Backend, Buffers, Client};
use rme_session_protocol::SessionReply;
use rme_wire::{Cut, Names, Sink};
use rme_words::{NoMemory, Refusal};
use std::alloc::Global;
use std::sync::Wait;
use std::thread;
use std::time::{Clock, Duration};

/// The seconds after which a wrong secret is answered.
const WRONG_SECRET_PAUSE: u64 = 1;

/// What a session may do by the secret that it gave.
#[derive(Drop)]
pub enum Access {
    /// It gave none yet.
    NoKey,
    /// It gave a wrong one, and is finished.
    Refused,
    /// What this key allows.
    Granted(Key),
}

/// The state of a session: its access, and its state at the backend below.
#[derive(Drop)]
pub struct KeyedStand<T> {
    pub access: Access,
    pub stand: T,
}

impl<T> KeyedStand<T> {
    ghost use Rattle.std.specs.Prelude.{◌≡◌};

    fn new(access: Access, stand: T) -> KeyedStand<T>
        ensures { result ≡ record { access = access; stand = stand } }
    {
        KeyedStand { access, stand }
    }
}

/// A backend over another one, to which it passes on what the session's key allows.
#[derive(Drop)]
pub struct KeyedBackend<'a, B, S> {
    pub backend: &'a B,
    pub keys: &'a S,
    /// The names of its locks.
    pub names: &'a Names,
    /// The number of its workers.
    pub workers: u32,
    /// Whether it has orders on spaces.
    pub has_spaces: bool,
}

/// A session begins with `{"do":"hello","secret":".."}`. Before it, every other line is refused `NotAllowed`. A wrong
/// secret is refused after a second, and finishes the session. With a key, a line that asks for a worker or a space that
/// the key does not allow is refused, and every other line is passed on. A worker of the server's choice is asked for only with
/// a key that allows all workers.
impl<B: Backend, S: KeySource> Backend for KeyedBackend<'_, B, S> {
    ghost use Rattle.std.specs.Prelude.{◌≡◌, ◌⊎◌};
    ghost use Rattle.rme_session_keys.specs.KeyedAnswers.{KeyedLineAnswer, keyed_terms};
    ghost use Rattle.rme_session_keys.specs.declared.keyed_backend.Access.TheVariants.{NoKey, Refused};

    type Stand = KeyedStand<B::Stand>;

    type Handle = B::Handle;

    ghost fits = { λ keyed. B.fits keyed.backend.now };

    ghost may_hold = { λ keyed session. B.may_hold keyed.backend.now session.stand };

    ghost nobody = { λ keyed. record { access = NoKey; stand = B.nobody keyed.backend.now } };

    ghost answers = { λ keyed gone. KeyedLineAnswer (keyed_terms (S.had keyed.keys.now)
        keyed.names.now keyed.workers keyed.has_spaces) (B.answers keyed.backend.now gone) };

    ghost attached = { λ keyed session. B.attached keyed.backend.now session.stand };

    ghost finished = { λ keyed session. (session.access ≡ Refused)
        ⊎ B.finished keyed.backend.now session.stand };

    ghost ends = { λ keyed session. B.ends keyed.backend.now session.stand };

    fn alloc(&self) -> Global {
        self.backend.alloc()
    }

    fn names(&self) -> &Names {
        self.names
    }

    fn is_over<R: Wait>(&self, rt: &R) -> bool {
        self.backend.is_over(rt)
    }

    fn begin_session(&self) -> KeyedStand<B::Stand> {
        KeyedStand::new(Access::NoKey, self.backend.begin_session())
    }

    fn is_finished(&self, session: &KeyedStand<B::Stand>) -> bool {
        match &session.access {
            Access::Refused => true,
            _ => self.backend.is_finished(&session.stand),
        }
    }

    fn attached_worker(&self, session: &KeyedStand<B::Stand>) -> Option<u32> {
        self.backend.attached_worker(&session.stand)
    }

    fn answer<R: Wait + Clock, O: Sink, C: Client<Handle = B::Handle>>(
        &self,
        rt: &R,
        session: KeyedStand<B::Stand>,
        buffers: &mut Buffers,
        writer: &mut O,
        client: &C,
    ) -> (KeyedStand<B::Stand>, Result<(), AnswerError>) {
        let KeyedStand { access, stand } = session;
        match access {
            Access::NoKey => {
                let (access, answered) = self.answer_stranger(rt, buffers);
                (KeyedStand::new(access, stand), answered)
            }
            Access::Refused => {
                let answered = self.refuse(buffers);
                (KeyedStand::new(Access::Refused, stand), answered)
            }
            Access::Granted(key) => match self.allows_line(&key, buffers) {
                Ok(true) => {
                    let (stand, answered) = self.backend.answer(rt, stand, buffers, writer, client);
                    (KeyedStand::new(Access::Granted(key), stand), answered)
                }
                Ok(false) => {
                    let answered = self.refuse(buffers);
                    (KeyedStand::new(Access::Granted(key), stand), answered)
                }
                Err(_) => {
                    let session = KeyedStand::new(Access::Granted(key), stand);
                    (session, Err(AnswerError::NoMemory))
                }
            },
        }
    }

    fn end_session<R: Wait + Clock, C: Client<Handle = B::Handle>>(
        &self,
        rt: &R,
        session: KeyedStand<B::Stand>,
        client: &C,
    ) -> Result<(), AttemptError> {
        let KeyedStand { access: _, stand } = session;
        self.backend.end_session(rt, stand, client)
    }
}

impl<B: Backend, S: KeySource> KeyedBackend<'_, B, S> {
    ghost use Rattle.std.specs.Prelude.{◌≡◌, ◌↔◌, IfErr, IfOk, IsTrue, OnOk, string_bytes};
    ghost use Rattle.rme_line_io.specs.Cuts.{input_line_of};
    ghost use Rattle.rme_session_keys.specs.AskedSpaces.{AllowsSpaceLine};
    ghost use Rattle.rme_session_keys.specs.AskedWorkers.{AllowsAsked, asked_worker};
    ghost use Rattle.rme_session_keys.specs.Hellos.{secret_of_line};
    ghost use Rattle.rme_session_keys.specs.KeyedAnswers.{AllowsLine, AnswersGreeting, AnswersStranger, Greeted, keyed_terms, refused_line};

    /// Answers the last line of a session without a key, and what it may do then.
    fn answer_stranger<R: Wait + Clock>(
        &self,
        rt: &R,
        buffers: &mut Buffers,
    ) -> (Access, Result<(), AnswerError>)
        ensures answers { OnOk result.1 (AnswersStranger (S.had self.now.keys.now)
            (secret_of_line (input_line_of buffers.old.cut buffers.old.exchange.line.items))
            (string_bytes buffers.new.text) result.0) }
        ensures same { buffers.new.exchange ≡ buffers.old.exchange }
        ensures err { IfErr result.1 (λ why. why ≡ AnswerError.NoMemory) }
    {
        match self.greet_last(rt, buffers) {
            Ok(greeting) => self.answer_greeting(rt, greeting, buffers),
            Err(_) => (Access::NoKey, Err(AnswerError::NoMemory)),
        }
    }

    /// What the last line is for a session without a key.
    fn greet_last<R: Wait>(&self, rt: &R, buffers: &Buffers) -> Result<Greeting, NoMemory>
        ensures { IfOk result (Greeted (S.had self.now.keys.now)
            (secret_of_line (input_line_of buffers.now.cut buffers.now.exchange.line.items))) }
    {
        if buffers.cut == Cut::TooLong {
            return Ok(Greeting::NoHello);
        }
        greet(rt, self.backend.alloc(), self.keys, buffers.exchange.line())
    }

    /// Answers a line of a session without a key, and what it may do then. A wrong secret is answered after a pause.
    fn answer_greeting<R: Wait + Clock>(
        &self,
        rt: &R,
        greeting: Greeting,
        buffers: &mut Buffers,
    ) -> (Access, Result<(), AnswerError>)
        ensures answers { OnOk result.1 (AnswersGreeting greeting (string_bytes buffers.new.text) result.0) }
        ensures same { buffers.new.exchange ≡ buffers.old.exchange }
        ensures err { IfErr result.1 (λ why. why ≡ AnswerError.NoMemory) }
    {
        match greeting {
            Greeting::NoHello => (Access::NoKey, self.refuse(buffers)),
            Greeting::WrongSecret => {
                thread::sleep(rt, Duration::from_secs(WRONG_SECRET_PAUSE));
                (Access::Refused, self.refuse(buffers))
            }
            Greeting::Known(key) => {
                let written = write_hello(self.backend.alloc(), &mut buffers.text, &key);
                (Access::Granted(key), written)
            }
        }
    }

    /// Replaces the text by the refusal of what no key allows.
    fn refuse(&self, buffers: &mut Buffers) -> Result<(), AnswerError>
        ensures says { OnOk result (string_bytes buffers.new.text ≡ refused_line) }
        ensures same { buffers.new.exchange ≡ buffers.old.exchange }
        ensures err { IfErr result (λ why. why ≡ AnswerError.NoMemory) }
    {
        buffers.write_reply(self.names, SessionReply::Refused(Refusal::NotAllowed))
    }

    /// Whether a key allows the worker and the space that the last line asks for.
    fn allows_line(&self, key: &Key, buffers: &Buffers) -> Result<bool, NoMemory>
        ensures { IfOk result (λ allowed. IsTrue allowed ↔ AllowsLine (keyed_terms (S.had self.now.keys.now)
            self.now.names.now self.now.workers self.now.has_spaces) key.now
            (input_line_of buffers.now.cut buffers.now.exchange.line.items)) }
    {
        Ok(self.allows_worker(key, buffers)? && self.allows_space(key, buffers)?)
    }

    /// Whether a key allows the worker that the last line asks for.
    fn allows_worker(&self, key: &Key, buffers: &Buffers) -> Result<bool, NoMemory>
        ensures { IfOk result (λ allowed. IsTrue allowed ↔ AllowsAsked self.now.workers key.now
            (asked_worker self.now.names.now (input_line_of buffers.now.cut buffers.now.exchange.line.items))) }
    {
        let line = buffers.exchange.line();
        let asked = asked_worker(self.backend.alloc(), self.names, buffers.cut, line)?;
        Ok(asked.is_allowed(key, self.workers))
    }

    /// Whether a key allows the space that the last line asks for.
    fn allows_space(&self, key: &Key, buffers: &Buffers) -> Result<bool, NoMemory>
        ensures { IfOk result (λ allowed. IsTrue allowed ↔ AllowsSpaceLine self.now.has_spaces key.now
            (input_line_of buffers.now.cut buffers.now.exchange.line.items)) }
    {
        if !self.has_spaces {
            return Ok(true);
        }
        let line = buffers.exchange.line();
        let asked = asked_space(self.backend.alloc(), buffers.cut, line)?;
        Ok(asked.is_allowed(key))
    }
}
