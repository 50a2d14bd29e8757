//! A session that leaves it to the service which worker it attaches.

ghost use Rattle.std.specs.Prelude.{IsTrue};
ghost use Rattle.rme_server.specs.ServiceChoices.{IsChosenReply};

use crate::service_backend::ServiceBackend;
use rme_session_loop::{Client, CloseHandle, ReleaseCause};
use rme_session_protocol::{Attachment, Order, SessionReply, SessionStance, WorkerChoice};
use rme_session_threads::{Holding, Stand, detach_session};
use rme_table::Tag;
use rme_words::Refusal;
use std::sync::Wait;

/// The worker that a session got, and the reply to its attachment.
#[derive(Clone, Copy)]
pub(crate) struct ChosenWorker {
    pub(crate) worker: u32,
    pub(crate) reply: SessionReply,
}

impl<K: Tag, H: CloseHandle> ServiceBackend<'_, K, H> {
    ghost use Rattle.std.specs.Prelude.{◌≡◌, IfSome};
    ghost use Rattle.rme_server.specs.ServiceChoices.{AttachesChosenWorker, ChoiceOutcome};
    ghost use Rattle.rme_session_threads.specs.Stands.{IsValidHolding};
    ghost use Rattle.rme_session_threads.specs.declared.stand.Holding.TheVariants.{Empty};
    ghost use Rattle.rme_session_threads.specs.declared.stand.Stand.{Stand};

    /// Attaches a session to the lowest worker that no session has and that the choice takes, or answers why it gets
    /// none.
    ///
    /// Whether a worker has a pending job is known once it is recovered. So the workers are attached one after another,
    /// and those that the choice does not take are released. Each of these attachments counts as a restart.
    pub(crate) fn attach_any<R: Wait, C: Client<Handle = H>>(
        &self,
        rt: &R,
        stand: Stand,
        choice: WorkerChoice,
        client: &C,
    ) -> (Stand, Result<ChosenWorker, Refusal>)
        requires ours { self.now.service.now ≡ K.ident }
        requires stand { IsValidHolding K.ident self.now.slots.now stand.value }
        ensures ours { IsValidHolding K.ident self.now.slots.now result.0.value }
        ensures outcome { ChoiceOutcome K.ident self.now.slots.now stand choice result.1 result.0 }
    {
        let Stand {
            value,
            planned,
            life,
        } = stand;
        match value {
            Holding::Empty => self.attach_first(rt, choice, client),
            value => {
                let stand = Stand {
                    value,
                    planned,
                    life,
                };
                (stand, Err(Refusal::Busy))
            }
        }
    }

    /// Attaches a new session to the first worker that the choice takes.
    fn attach_first<R: Wait, C: Client<Handle = H>>(
        &self,
        rt: &R,
        choice: WorkerChoice,
        client: &C,
    ) -> (Stand, Result<ChosenWorker, Refusal>)
        requires ours { self.now.service.now ≡ K.ident }
        ensures ours { IsValidHolding K.ident self.now.slots.now result.0.value }
        ensures outcome { (old : Stand) → old.value ≡ Empty
            → ChoiceOutcome K.ident self.now.slots.now old choice result.1 result.0 }
    {
        for worker in 0..self.service.shape().workers() {
            if let Some((stand, reply)) = self.attach_if_chosen(rt, choice, worker, client) {
                return (stand, Ok(ChosenWorker { worker, reply }));
            }
        }
        (Stand::empty(), Err(Refusal::Taken))
    }

    /// Attaches a new session to this worker, and releases it again if the choice does not take it.
    fn attach_if_chosen<R: Wait, C: Client<Handle = H>>(
        &self,
        rt: &R,
        choice: WorkerChoice,
        worker: u32,
        client: &C,
    ) -> Option<(Stand, SessionReply)>
        requires ours { self.now.service.now ≡ K.ident }
        ensures ours { IfSome result (λ found. IsValidHolding K.ident self.now.slots.now found.0.value) }
        ensures attaches { IfSome result (λ found. AttachesChosenWorker K.ident self.now.slots.now choice worker found.1
            found.0) }
    {
        let order = Order::Attach(Attachment {
            worker,
            take: false,
            after: None,
            label: None,
        });
        let (stand, reply) = self.attempt(rt, Stand::empty(), &order, client);
        if is_chosen_reply(choice, &reply) {
            return Some((stand, reply));
        }
        self.release(rt, stand, client, ReleaseCause::Detach);
        None
    }

    /// Takes back the worker of a session, if it has one: the worker crashes, and its Down is back in its slot.
    pub(crate) fn release<R: Wait, C: Client<Handle = H>>(
        &self,
        rt: &R,
        stand: Stand,
        client: &C,
        how: ReleaseCause,
    )
        requires ours { IsValidHolding K.ident self.now.slots.now stand.value }
    {
        let claim = self.registry.claim_worker(rt, stand.worker());
        detach_session(rt, stand, self.slots);
        if let Some(claim) = claim {
            claim.release(client, how);
        }
        self.registry.notify_worker_free(rt);
    }
}

/// Whether the reply is that of a worker that the choice takes.
fn is_chosen_reply(choice: WorkerChoice, reply: &SessionReply) -> bool
    ensures { IsTrue result → IsChosenReply choice reply.now }
{
    match reply {
        SessionReply::Attached(_, stance) => choice.is_chosen(*stance != SessionStance::Ready),
        _ => false,
    }
}
