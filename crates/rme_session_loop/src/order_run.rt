//! The loop that executes an order: at once, or try by try while its job waits for its lock.

ghost use Rattle.std.specs.Prelude.{◌≡◌, ◌≤◌, IsTrue};
ghost use Rattle.rme_session_protocol.specs.Attempts as spec;

use crate::attempt_error::{AnswerError, AttemptError, answer_error};
use crate::client::Client;
use crate::order_attempts::{FirstReply, OrderAttempts, OrderRequest};
use crate::wait_backoff::{LONGEST, WaitBackoff};
use rme_session_protocol::{Attachment, Order, Patience, order_patience};
use rme_wire::{Exchange, Sink};
use std::sync::Wait;
use std::time::{Clock, Duration};

/// An order of a session, and the backend that executes it.
#[derive(Clone, Copy)]
pub struct OrderRun<'a, A, C> {
    pub backend: &'a A,
    pub request: OrderRequest<'a, C>,
}

impl<A: OrderAttempts, C: Client<Handle = A::Handle>> OrderRun<'_, A, C> {
    ghost use Rattle.std.specs.Prelude.{◌≡◌, ◌≤◌, [], IfErr, IfOk, IsFalse, IsTrue, OnOk, true};
    ghost use Rattle.rme_line_io.specs.BufferedWrites.{BufferedWrite};
    ghost use Rattle.rme_line_io.specs.StreamEvents.{LastWriteFailed, WritesMade};
    ghost use Rattle.rme_session_protocol.specs.Attempts.{is_still_waiting};
    ghost use Rattle.rme_session_protocol.specs.declared.order.Order.TheVariants.{Attach};
    ghost use Rattle.rme_session_protocol.specs.declared.reply.SessionReply.TheVariants.{Refused};
    ghost use Rattle.rme_session_loop.specs.OrderRuns.{IsReplyOfTries, MayStopAfter};
    ghost use Rattle.rme_session_loop.specs.SessionAnswers.{AnswerFailure, MayContinueOrder};
    ghost use Rattle.rme_session_loop.specs.declared.attempt_error.AnswerError.TheVariants as error;
    ghost use Rattle.rme_words.specs.declared.refusal.Refusal.TheVariants.{Taken};

    /// Executes the order, and answers its reply. If its job waits for its lock, or another session has the worker that
    /// it takes over, all buffered answers are written before it is tried again, so that no client waits for an answer
    /// that is ready.
    pub fn execute<R: Wait + Clock, O: Sink>(
        &self,
        rt: &R,
        session: A::Session,
        exchange: &mut Exchange,
        writer: &mut O,
    ) -> (A::Session, Result<A::Reply, AnswerError>)
        requires usable { A.is_usable self.now.backend.now }
        requires may_have { A.may_have self.now.backend.now session }
        ensures may_have { A.may_have self.now.backend.now result.0 }
        ensures executes { IfOk result.1
            (IsReplyOfTries (λ tries. A.executes self.now.backend.now tries session self.now.request.order result.0)
            (λ tries reply. MayStopAfter (C.gone self.now.request.client.now) self.now.request.order tries
            (A.says reply))) }
        ensures gathers { OnOk result.1 (BufferedWrite (O.contents writer.old) exchange.old.pending []
            (O.contents writer.new) exchange.new.pending) }
        ensures err { IfErr result.1 (λ why. AnswerFailure why (O.contents writer.old) exchange.old.pending
            (O.contents writer.new) exchange.new.pending) }
        ensures writes { WritesMade (O.took writer.old) (O.took writer.new) }
        ensures broke { IfErr result.1 (λ why. why ≡ error.WriteFailed
            → LastWriteFailed (O.took writer.old) (O.took writer.new)) }
    {
        let is_hurried = exchange.has_unwritten();
        let (session, begun) = self.backend.begin(rt, session, &self.request, is_hurried);
        let first = match begun {
            Ok(first) => first,
            Err(why) => return (session, Err(answer_error(why))),
        };
        if !self.is_to_continue(&first) {
            return (session, Ok(first.reply));
        }
        if exchange.write(writer).is_err() {
            return (session, Err(AnswerError::WriteFailed));
        }
        let (session, replied) = self.continue_order(rt, session, first);
        match replied {
            Ok(reply) => (session, Ok(reply)),
            Err(why) => (session, Err(answer_error(why))),
        }
    }

    /// Whether the order is tried again after its first attempt.
    fn is_to_continue(&self, first: &FirstReply<A::Reply>) -> bool
        requires some { 1 ≤ first.now.tries }
        ensures goes_on { IsTrue result → MayContinueOrder self.now.request.order (A.says first.now.reply) }
        ensures stops { IsFalse result → MayStopAfter (C.gone self.now.request.client.now) self.now.request.order
            first.now.tries (A.says first.now.reply) }
    {
        if let Order::Attach(asked) = &self.request.order {
            return asked.take && self.backend.is_taken(&first.reply);
        }
        if !self.backend.is_waiting(&first.reply) {
            return false;
        }
        match order_patience(&self.request.order) {
            Some(Patience::Tries(most)) => first.tries < most,
            Some(Patience::Wait(milliseconds)) => milliseconds > 0,
            None => false,
        }
    }

    /// Tries the order again after its first attempt.
    fn continue_order<R: Wait + Clock>(
        &self,
        rt: &R,
        session: A::Session,
        first: FirstReply<A::Reply>,
    ) -> (A::Session, Result<A::Reply, AttemptError>)
        requires usable { A.is_usable self.now.backend.now }
        requires may_have { A.may_have self.now.backend.now session }
        requires some { 1 ≤ first.tries }
        requires may { MayContinueOrder self.now.request.order (A.says first.reply) }
        ensures may_have { A.may_have self.now.backend.now result.0 }
        ensures executes { (old : A.Session)
            → A.executes self.now.backend.now first.tries old self.now.request.order session first.reply
            → IfOk result.1 (IsReplyOfTries
            (λ tries. A.executes self.now.backend.now tries old self.now.request.order result.0)
            (λ tries reply. MayStopAfter (C.gone self.now.request.client.now) self.now.request.order tries
            (A.says reply))) }
    {
        match &self.request.order {
            Order::Attach(asked) => self.take_over(rt, session, asked, first),
            _ => self.retry_until_done(rt, session, first),
        }
    }

    /// Attaches the worker once the session that has it detaches it: each attempt that finds it taken closes the client
    /// of that session. Stops waiting if this session's own client is gone.
    fn take_over<R: Wait + Clock>(
        &self,
        rt: &R,
        session: A::Session,
        asked: &Attachment,
        first: FirstReply<A::Reply>,
    ) -> (A::Session, Result<A::Reply, AttemptError>)
        requires usable { A.is_usable self.now.backend.now }
        requires may_have { A.may_have self.now.backend.now session }
        requires some { 1 ≤ first.tries }
        requires attach { self.now.request.order ≡ Attach asked.now }
        requires taken { A.says first.reply ≡ Refused Taken }
        ensures may_have { A.may_have self.now.backend.now result.0 }
        ensures executes { (old : A.Session)
            → A.executes self.now.backend.now first.tries old self.now.request.order session first.reply
            → IfOk result.1 (IsReplyOfTries
            (λ tries. A.executes self.now.backend.now tries old self.now.request.order result.0)
            (λ tries reply. MayStopAfter (C.gone self.now.request.client.now) self.now.request.order tries
            (A.says reply))) }
    {
        let FirstReply { reply, tries: _ } = first;
        let registry = self.backend.registry();
        let mut returned = registry.wait_for_workers(rt);
        let mut session = session;
        let mut reply = reply;
        for _ in rt.forever() {
            // The session that was closed may be waiting for a lock.
            registry.wake_all_waiters(rt);
            returned.wait(rt, 0, Duration::from_micros(LONGEST));
            let (next, retried) = self.backend.retry(rt, session, &self.request, reply);
            session = next;
            reply = match retried {
                Ok(reply) => reply,
                Err(why) => return (session, Err(why)),
            };
            if !self.backend.is_taken(&reply) || self.request.client.is_gone() {
                return (session, Ok(reply));
            }
        }
        unreachable!()
    }

    /// Retries an order whose job waits for its lock, one try at a time, with a pause before each try but the first.
    fn retry_until_done<R: Wait + Clock>(
        &self,
        rt: &R,
        session: A::Session,
        first: FirstReply<A::Reply>,
    ) -> (A::Session, Result<A::Reply, AttemptError>)
        requires usable { A.is_usable self.now.backend.now }
        requires may_have { A.may_have self.now.backend.now session }
        requires some { 1 ≤ first.tries }
        requires waits { is_still_waiting (A.says first.reply) ≡ true }
        requires may { MayContinueOrder self.now.request.order (A.says first.reply) }
        ensures may_have { A.may_have self.now.backend.now result.0 }
        ensures executes { (old : A.Session)
            → A.executes self.now.backend.now first.tries old self.now.request.order session first.reply
            → IfOk result.1 (IsReplyOfTries
            (λ tries. A.executes self.now.backend.now tries old self.now.request.order result.0)
            (λ tries reply. MayStopAfter (C.gone self.now.request.client.now) self.now.request.order tries
            (A.says reply))) }
    {
        let FirstReply { reply, tries } = first;
        let place = self.backend.waits_at(&session, &reply);
        let mut pauses = WaitBackoff::new(rt, place, self.backend.registry());
        let mut session = session;
        let mut reply = reply;
        for made in tries..max_tries(&self.request.order) {
            let place = self.backend.waits_at(&session, &reply);
            pauses.pause(rt, &self.request.order, place);
            let (next, retried) = self.backend.retry(rt, session, &self.request, reply);
            session = next;
            reply = match retried {
                Ok(reply) => reply,
                Err(why) => {
                    pauses.end(rt);
                    return (session, Err(why));
                }
            };
            if !self.backend.is_waiting(&reply) {
                return (session, Ok(reply));
            }
            if pauses.is_over(rt, &self.request.order) || self.is_client_gone(&pauses) {
                pauses.end(rt);
                return (session, Ok(reply));
            }
        }
        pauses.end(rt);
        (session, Ok(reply))
    }

    /// Whether the waiting client is found to be gone. It is not checked between tries that follow without sleeping.
    fn is_client_gone(&self, pauses: &WaitBackoff<'_>) -> bool
        ensures { IsTrue result → C.gone self.now.request.client.now }
    {
        !pauses.is_spinning() && self.request.client.is_gone()
    }
}

/// The largest number of tries of an order.
fn max_tries(order: &Order) -> u32
    ensures { spec.least_patience_tries (spec.order_patience order.now) ≤ result }
{
    match order_patience(order) {
        Some(Patience::Tries(most)) => most,
        Some(Patience::Wait(_)) => u32::MAX,
        None => 0,
    }
}
