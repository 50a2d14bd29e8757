//! The running service as a backend of sessions.

ghost use Rattle.std.specs.Prelude.{◌≡◌, ◌≤◌};
ghost use Rattle.rme_session_protocol.specs.ClientReplies.{reply_of_client};

use crate::worker_choice::ChosenWorker;
use rme_program::Ascent;
use rme_session_loop::{
    AnswerError, AttemptError, Backend, Buffers, Client, CloseHandle, FirstReply, OrderAttempts,
    OrderRequest, OrderRun, ReleaseCause, SessionRegistry, is_take_over,
};
use rme_session_protocol::{
    ClientReply, Order, Patience, SessionReply, WORLD_NUMBERS, WorkerChoice, is_still_waiting,
    merge_replies, order_patience, retry_order, with_tries,
};
use rme_session_threads::{Holding, Slots, Stand, obey};
use rme_table::{Service, Tag};
use rme_wire::{Names, Sink};
use rme_words::Refusal;
use std::alloc::Global;
use std::sync::Wait;
use std::time::Clock;

/// The largest number of tries of a first attempt, whose pauses only yield the processor: together they take about as
/// long as a section.
const QUICK_TRIES: u32 = 12;

/// What all sessions of a service share. `H` is the handle type of their clients.
#[derive(Drop)]
pub struct ServiceBackend<'a, K: Tag, H: CloseHandle> {
    pub alloc: Global,
    pub service: &'a Service,
    pub slots: &'a Slots<K>,
    pub names: &'a Names,
    pub registry: &'a SessionRegistry<H>,
}

/// A line is executed as an order of the running service.
///
/// A job that waits for its lock takes no processor time meanwhile. If its client is found to be gone while it waits,
/// it is not tried again, whatever its order says, and is answered as waiting. However a session ends, its worker
/// crashes, and the worker's Down is back in its slot.
impl<K: Tag, H: CloseHandle> Backend for ServiceBackend<'_, K, H> {
    ghost use Rattle.std.specs.Prelude.{◌≡◌, ⊤};
    ghost use Rattle.rme_server.specs.ServiceChoices.{ServiceLineAnswer};
    ghost use Rattle.rme_session_threads.specs.Stands as stands;

    type Stand = Stand;

    type Handle = H;

    ghost fits = { λ host. host.service.now ≡ K.ident };

    ghost ends = { λ _ _. ⊤ };

    ghost may_hold = { λ host stand. stands.IsValidHolding K.ident host.slots.now stand.value };

    ghost nobody = { λ _. stands.empty_stand };

    ghost attached = { λ _ stand. stands.held_worker_number (stands.held_worker stand.value) };

    ghost answers = { λ host gone. ServiceLineAnswer gone K.ident host.slots.now host.names.now };

    fn alloc(&self) -> Global {
        self.alloc
    }

    fn names(&self) -> &Names {
        self.names
    }

    fn is_over<R: Wait>(&self, _rt: &R) -> bool {
        false
    }

    fn begin_session(&self) -> Stand {
        Stand::empty()
    }

    fn is_finished(&self, _stand: &Stand) -> bool {
        false
    }

    fn attached_worker(&self, stand: &Stand) -> Option<u32> {
        stand.worker()
    }

    fn answer<R: Wait + Clock, O: Sink, C: Client<Handle = H>>(
        &self,
        rt: &R,
        stand: Stand,
        buffers: &mut Buffers,
        writer: &mut O,
        client: &C,
    ) -> (Stand, Result<(), AnswerError>) {
        let order = match buffers.parse_order(self.names, WORLD_NUMBERS) {
            Ok(Ok(order)) => order,
            Ok(Err(why)) => return self.answer_non_order(rt, stand, why, buffers, client),
            Err(_) => return (stand, Err(AnswerError::NoMemory)),
        };
        let run = OrderRun {
            backend: self,
            request: OrderRequest { client, order },
        };
        let (stand, replied) = run.execute(rt, stand, &mut buffers.exchange, writer);
        match replied {
            Ok(reply) => (stand, buffers.write_reply(self.names, reply)),
            Err(why) => (stand, Err(why)),
        }
    }

    fn end_session<R: Wait + Clock, C: Client<Handle = H>>(
        &self,
        rt: &R,
        stand: Stand,
        client: &C,
    ) -> Result<(), AttemptError> {
        self.release(rt, stand, client, ReleaseCause::SessionEnd);
        Ok(())
    }
}

/// An order with this number of tries is one call of the running service; another try is a call with one.
impl<K: Tag, H: CloseHandle> OrderAttempts for ServiceBackend<'_, K, H> {
    ghost use Rattle.std.specs.Prelude.{◌≡◌};
    ghost use Rattle.rme_session_protocol.specs.Attempts.{with_tries};
    ghost use Rattle.rme_session_threads.specs.ThreadSteps.{ThreadSessionStep};
    ghost use Rattle.rme_session_threads.specs.Stands.{IsValidHolding};

    type Session = Stand;

    type Reply = SessionReply;

    type Handle = H;

    ghost is_usable = { λ host. host.service.now ≡ K.ident };

    ghost may_have = { λ host stand. IsValidHolding K.ident host.slots.now stand.value };

    ghost says = { λ reply. reply };

    ghost executes = { λ host tries old its now reply. ThreadSessionStep K.ident host.slots.now old
        (with_tries tries its) now
        reply };

    fn registry(&self) -> &SessionRegistry<H> {
        self.registry
    }

    fn is_waiting(&self, reply: &SessionReply) -> bool {
        is_still_waiting(*reply)
    }

    fn is_taken(&self, reply: &SessionReply) -> bool {
        *reply == SessionReply::Refused(Refusal::Taken)
    }

    fn waits_at(&self, stand: &Stand, _reply: &SessionReply) -> Option<Ascent> {
        match &stand.value {
            Holding::Climb(climb) => Some(climb.ascent()),
            _ => None,
        }
    }

    fn begin<R: Wait + Clock, C: Client<Handle = H>>(
        &self,
        rt: &R,
        stand: Stand,
        request: &OrderRequest<'_, C>,
        is_hurried: bool,
    ) -> (Stand, Result<FirstReply<SessionReply>, AttemptError>) {
        let tries = quick_tries(&request.order, is_hurried);
        let order = with_tries(&request.order, tries);
        let (stand, reply) = self.attempt(rt, stand, &order, request.client);
        (stand, Ok(FirstReply { reply, tries }))
    }

    fn retry<R: Wait + Clock, C: Client<Handle = H>>(
        &self,
        rt: &R,
        stand: Stand,
        request: &OrderRequest<'_, C>,
        reply: SessionReply,
    ) -> (Stand, Result<SessionReply, AttemptError>) {
        let order = retry_order(request.order);
        let (stand, last) = self.attempt(rt, stand, &order, request.client);
        (stand, Ok(merge_replies(reply, last)))
    }
}

impl<K: Tag, H: CloseHandle> ServiceBackend<'_, K, H> {
    ghost use Rattle.std.specs.Prelude.{◌≡◌, IfErr, OnOk, string_bytes};
    ghost use Rattle.rme_server.specs.ServiceChoices.{NonOrderAnswer, ServiceChoice};
    ghost use Rattle.rme_session_protocol.specs.WorkerChoices.{choice_of_bytes};
    ghost use Rattle.rme_session_threads.specs.ThreadSteps.{ThreadSessionStep};
    ghost use Rattle.rme_session_threads.specs.Stands.{IsValidHolding};

    /// Answers a line that is no order: its choice of a worker, or why it is refused.
    fn answer_non_order<R: Wait, C: Client<Handle = H>>(
        &self,
        rt: &R,
        stand: Stand,
        why: Refusal,
        buffers: &mut Buffers,
        client: &C,
    ) -> (Stand, Result<(), AnswerError>)
        requires ours { self.now.service.now ≡ K.ident }
        requires stand { IsValidHolding K.ident self.now.slots.now stand.value }
        ensures ours { IsValidHolding K.ident self.now.slots.now result.0.value }
        ensures answers { OnOk result.1 (NonOrderAnswer K.ident self.now.slots.now self.now.names.now stand why
            (choice_of_bytes buffers.old.exchange.line.items) (string_bytes buffers.new.text) result.0) }
        ensures same { buffers.new.exchange ≡ buffers.old.exchange }
        ensures err { IfErr result.1 (λ why. why ≡ AnswerError.NoMemory) }
    {
        let refused = SessionReply::Refused(why);
        if why != Refusal::BadLine {
            return (stand, buffers.write_reply(self.names, refused));
        }
        match buffers.parse_worker_choice() {
            Ok(Some(asked)) => self.answer_choice(rt, stand, asked.choice, buffers, client),
            Ok(None) => (stand, buffers.write_reply(self.names, refused)),
            Err(_) => (stand, Err(AnswerError::NoMemory)),
        }
    }

    /// Attaches a session to a worker of the service's choice, and answers which, or why it gets none.
    fn answer_choice<R: Wait, C: Client<Handle = H>>(
        &self,
        rt: &R,
        stand: Stand,
        choice: WorkerChoice,
        buffers: &mut Buffers,
        client: &C,
    ) -> (Stand, Result<(), AnswerError>)
        requires ours { self.now.service.now ≡ K.ident }
        requires stand { IsValidHolding K.ident self.now.slots.now stand.value }
        ensures ours { IsValidHolding K.ident self.now.slots.now result.0.value }
        ensures answers { OnOk result.1 (ServiceChoice K.ident self.now.slots.now self.now.names.now stand choice
            (string_bytes buffers.new.text) result.0) }
        ensures same { buffers.new.exchange ≡ buffers.old.exchange }
        ensures err { IfErr result.1 (λ why. why ≡ AnswerError.NoMemory) }
    {
        let (stand, found) = self.attach_any(rt, stand, choice, client);
        let told = match found {
            Ok(ChosenWorker { worker, reply }) => {
                buffers.write_choice_reply(self.names, worker, ClientReply::from(reply))
            }
            Err(why) => buffers.write_reply(self.names, SessionReply::Refused(why)),
        };
        (stand, told)
    }

    /// Executes an order with its worker's claim locked, and updates the claim. If the order takes a worker over that
    /// another session has, the client of that session is closed.
    pub(crate) fn attempt<R: Wait, C: Client<Handle = H>>(
        &self,
        rt: &R,
        stand: Stand,
        order: &Order,
        client: &C,
    ) -> (Stand, SessionReply)
        requires ours { self.now.service.now ≡ K.ident }
        requires stand { IsValidHolding K.ident self.now.slots.now stand.value }
        ensures ours { IsValidHolding K.ident self.now.slots.now result.0.value }
        ensures executes { ThreadSessionStep K.ident self.now.slots.now stand order.now result.0 result.1 }
    {
        let had = stand.worker().is_some();
        let claim = self.registry.claim_worker(rt, order_worker(&stand, order));
        let turn = self.registry.climb_lock(rt, climbed_lock(&stand, order));
        let (stand, reply) = obey(rt, stand, order, self.service, self.slots);
        drop(turn);
        let takes_over = is_take_over(order, client_reply(&reply));
        let has = stand.worker().is_some();
        if let Some(claim) = claim {
            if takes_over {
                claim.close_client(client);
            } else {
                claim.update(client, had, has);
            }
        }
        self.registry.notify_reply(rt, client_reply(&reply));
        (stand, reply)
    }
}

/// The reply, as its client gets it.
fn client_reply(reply: &SessionReply) -> ClientReply
    ensures { reply_of_client result ≡ reply.now }
{
    ClientReply::from(*reply)
}

/// The number of tries of a first attempt: one if it is hurried, else at most `QUICK_TRIES`, and at most as many as the
/// order asks for, but at least one. An `enter` makes one: whoever is inside stays there until its client commits.
fn quick_tries(order: &Order, is_hurried: bool) -> u32
    ensures { 1 ≤ result }
{
    if is_hurried || matches!(order, Order::Enter(_)) {
        return 1;
    }
    match order_patience(order) {
        Some(Patience::Tries(most)) => most.min(QUICK_TRIES).max(1),
        _ => QUICK_TRIES,
    }
}

/// The worker that the order concerns, if any.
fn order_worker(stand: &Stand, order: &Order) -> Option<u32> {
    match (stand.worker(), order) {
        (Some(worker), _) => Some(worker),
        (None, Order::Attach(asked)) => Some(asked.worker),
        (None, _) => None,
    }
}

/// The lock that an order of a session climbs to, if any.
fn climbed_lock(stand: &Stand, order: &Order) -> Option<u32> {
    match (&stand.value, order) {
        (Holding::Climb(climb), _) => Some(climb.lock()),
        (Holding::Ready(_), Order::Submit(its) | Order::Enter(its)) => Some(its.job.lock),
        _ => None,
    }
}
