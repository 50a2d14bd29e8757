//! The attempts at an order: what differs between backends whose jobs wait for their locks.

use crate::attempt_error::AttemptError;
use crate::client::{Client, CloseHandle};
use crate::session_registry::SessionRegistry;
use rme_program::Ascent;
use rme_session_protocol::Order;
use std::sync::Wait;
use std::time::Clock;

/// The reply of the first attempt at an order, and the number of its tries.
#[derive(Drop)]
pub struct FirstReply<R> {
    pub reply: R,
    /// At least 1.
    pub tries: u32,
}

/// An order of a session, and the session's client.
#[derive(Clone, Copy)]
pub struct OrderRequest<'a, C> {
    pub client: &'a C,
    pub order: Order,
}

/// A backend that executes an order by attempts. `OrderRun` makes them, with the pauses between them.
pub trait OrderAttempts {
    ghost use Rattle.std.specs.Prelude.{◌≡◌, ◌+◌, ◌≤◌, ℕ, IfOk, IsTrue};
    ghost use Rattle.rme_session_protocol.specs.Attempts.{is_still_waiting};
    ghost use Rattle.rme_session_protocol.specs.declared.order.Order.{Order};
    ghost use Rattle.rme_session_protocol.specs.declared.reply.SessionReply.{SessionReply};
    ghost use Rattle.rme_session_protocol.specs.declared.reply.SessionReply.TheVariants.{Refused};
    ghost use Rattle.rme_session_loop.specs.SessionAnswers.{MayContinueOrder};
    ghost use Rattle.rme_words.specs.declared.refusal.Refusal.TheVariants.{Taken};

    /// The state of a session between two attempts. It need not be `Drop`.
    type Session;

    /// The reply to an order, so far.
    type Reply: Drop;

    /// The handle by which a client that has a worker is closed.
    type Handle: CloseHandle;

    // The property of the backend that a caller shows.
    ghost is_usable: { Self → Type 0 };

    // The property of a session's state that every call preserves.
    ghost may_have: { Self → Self.Session → Type 0 };

    // The session reply of a reply.
    ghost says: { Self.Reply → SessionReply };

    // An order was executed by this number of tries: the session before, the order, the session after, and the reply.
    ghost executes: { Self → ℕ → Self.Session → Order → Self.Session → Self.Reply → Type 0 };

    /// The registry that the sessions share.
    fn registry(&self) -> &SessionRegistry<Self::Handle>;

    /// Whether the job of an order with this reply still waits for its lock.
    fn is_waiting(&self, reply: &Self::Reply) -> bool
        ensures { result ≡ is_still_waiting (says reply.now) };

    /// Whether the order was refused because another session has the worker that it would attach.
    fn is_taken(&self, reply: &Self::Reply) -> bool
        ensures { IsTrue result → says reply.now ≡ Refused Taken };

    /// The lock that the session's job waits for, and the levels of its tree that its worker holds, if it is known.
    fn waits_at(&self, session: &Self::Session, reply: &Self::Reply) -> Option<Ascent>;

    /// Makes the first attempt at an order: one try if it is hurried, else perhaps several tries without a pause.
    fn begin<R: Wait + Clock, C: Client<Handle = Self::Handle>>(
        &self,
        rt: &R,
        session: Self::Session,
        request: &OrderRequest<'_, C>,
        is_hurried: bool,
    ) -> (Self::Session, Result<FirstReply<Self::Reply>, AttemptError>)
        requires usable { is_usable self.now }
        requires may_have { may_have self.now session }
        ensures may_have { may_have self.now result.0 }
        ensures some { IfOk result.1 (λ first. 1 ≤ first.tries) }
        ensures executes { IfOk result.1 (λ first. executes self.now first.tries session request.now.order result.0
            first.reply) };

    /// Makes one more try at an order that has this reply so far, and answers the reply to all tries.
    fn retry<R: Wait + Clock, C: Client<Handle = Self::Handle>>(
        &self,
        rt: &R,
        session: Self::Session,
        request: &OrderRequest<'_, C>,
        reply: Self::Reply,
    ) -> (Self::Session, Result<Self::Reply, AttemptError>)
        requires usable { is_usable self.now }
        requires may_have { may_have self.now session }
        requires may { MayContinueOrder request.now.order (says reply) }
        ensures may_have { may_have self.now result.0 }
        ensures executes { IfOk result.1 (λ last. (tries : ℕ) (old : Self.Session) → 1 ≤ tries
            → executes self.now tries old request.now.order session reply
            → executes self.now (tries + 1) old request.now.order result.0 last) };
}
