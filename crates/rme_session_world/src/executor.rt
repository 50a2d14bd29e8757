//! A world whose workers sessions attach and release.

ghost use Rattle.std.specs.Prelude.{◌≡◌, ◌<◌, IfOk, IfSome, None, replicate, vec_len};
ghost use Rattle.rme_session_world.specs.Executors.{HasCrashedAll, holders_after};
ghost use Rattle.rme_world.specs.WorldInvariants.{WorldInvariant};

use crate::at_rest::are_workers_in_place;
use crate::event_batch::{EventBatch, batch_with_events};
use crate::orders::{apply_order, detach};
use crate::session_of_worker::worker_session;
use crate::work::{crash_worker, recall_invariant};
use rme_session_protocol::{Order, PlannedCrash, Session, SessionReply, WorkerChoice};
use rme_words::{NoMemory, Refusal};
use rme_world::World;
use std::alloc::Global;
use std::marker::Model;

/// A session: its number, its worker, if any, and the planned crash.
#[derive(Clone, Copy)]
pub struct SessionState {
    pub session: u64,
    pub worker: Option<u32>,
    pub planned: PlannedCrash,
}

/// The result of an order.
#[derive(Clone, Copy)]
pub struct ExecutedOrder {
    pub reply: SessionReply,
    /// The events, if there were any: never a batch without an event.
    pub batch: Option<EventBatch>,
}

/// A world, and the session that has each worker. A worker that no session has is down.
#[derive(Drop)]
pub struct Executor {
    world: World,
    /// For each worker the session that has it, if any.
    holders: Vec<Option<u64>>,
}

impl Model for Executor {
    ghost use Rattle.rme_session_world.specs.ExecutorStates.{ExecutorState, ExecutorInvariant};

    ghost Value = { ExecutorState };

    ghost view = { λ executor. record { world = executor.world; holders = executor.holders.items } };

    ghost invariant = { λ executor. ExecutorInvariant record
        { world = executor.world; holders = executor.holders.items } };
}

impl SessionState {
    ghost use Rattle.std.specs.Prelude.{◌≡◌, None};
    ghost use Rattle.rme_session_protocol.specs.declared.planned_crash.PlannedCrash.TheVariants as plan;

    /// A session of this number, without a worker.
    pub fn new(session: u64) -> SessionState
        ensures { result ≡ record { session = session; worker = None; planned = plan.Nothing } }
    {
        SessionState {
            session,
            worker: None,
            planned: PlannedCrash::Nothing,
        }
    }
}

impl Executor {
    ghost use Rattle.std.specs.Prelude.{◌≡◌, ◌<◌, ◌≤◌, ◌↔◌, ℕ, IfOk, IfSome, IsFalse, IsTrue, OnErr, None, Some, replicate, slice_get, true};
    ghost use Rattle.rme_session_protocol.specs.SessionSteps.{SessionStep, TellsPlace, TellsSection};
    ghost use Rattle.rme_session_protocol.specs.Attempts.{is_still_waiting, with_tries};
    ghost use Rattle.rme_session_world.specs.AppliedOrders.{IsOrderWorker, IsSessionStopped};
    ghost use Rattle.rme_session_world.specs.FencingTokens.{HasFinished};
    ghost use Rattle.rme_session_world.specs.SessionBatches.{AppliesSessionOrder};
    ghost use Rattle.rme_session_world.specs.Executors.{HasCrashedAll, HasNoCandidate, IsCandidate, IsChosenWorker, is_worker_taken, owned_worker, held_session, executor_session_view};
    ghost use Rattle.rme_session_protocol.specs.SessionViews.{detached_view};
    ghost use Rattle.rme_session_world.specs.Downs.{IsWorkerDown};
    ghost use Rattle.rme_session_world.specs.ExecutorStates.{ExecutorInvariant};

    /// An executor over a world, in which no session has a worker: each worker that is up is crashed. Takes memory for
    /// the list of holders.
    pub fn new(alloc: Global, world: World) -> Result<Executor, NoMemory>
        ensures fallen { IfOk result (λ executor. HasCrashedAll world executor.world) }
        ensures nobody { IfOk result (λ executor. executor.holders ≡ replicate world.shape.workers None) }
    {
        let mut world = world;
        crash_all_workers(&mut world);
        match no_holders(alloc, world.shape().workers) {
            Ok(holders) => Ok(Executor { world, holders }),
            Err(fault) => Err(fault),
        }
    }

    /// An executor over a world whose workers are as these sessions left them: each worker with a holder is at rest,
    /// and every other is down. `None` if a worker is not.
    pub fn resume(world: World, holders: Vec<Option<u64>>) -> Option<Executor>
        ensures { IfSome result (λ executor. (executor.world ≡ world) × (executor.holders ≡ holders.items)) }
    {
        if !are_workers_in_place(&world, holders.as_slice()) {
            return None;
        }
        Some(Executor { world, holders })
    }

    /// The world.
    pub fn world(&self) -> &World
        ensures { result.now ≡ self.now.world }
    {
        &self.world
    }

    /// For each worker the session that has it, if any.
    pub fn holders(&self) -> &[Option<u64>]
        ensures { result.now ≡ self.now.holders }
    {
        &self.holders
    }

    /// The view of a session's worker, if it has one.
    pub fn session(&self, stand: &SessionState) -> Session
        ensures { result ≡ (executor_session_view self.now stand.now).session }
    {
        match self.owned_worker(stand) {
            Some(worker) => worker_session(&self.world, worker),
            None => Session::Nobody,
        }
    }

    /// The view of the session that has a worker, if one has.
    pub fn held_session(&self, worker: u32) -> Session
        ensures { result ≡ held_session self.now worker }
    {
        match self.holders.get(worker as usize) {
            Some(Some(_)) => worker_session(&self.world, worker),
            _ => Session::Nobody,
        }
    }

    /// Releases the worker of a session, if it has one: the worker crashes. This ends the session.
    pub fn detach_session(&mut self, stand: &mut SessionState) -> Option<EventBatch>
        ensures gone { executor_session_view self.new stand.new ≡ detached_view }
        ensures down { IfSome (owned_worker self.old stand.old) (λ worker. IsWorkerDown self.new.world worker
            × (slice_get self.new.holders worker ≡ Some None)) }
        ensures applies { AppliesSessionOrder stand.old.session self.old result self.new }
        ensures session { stand.new.session ≡ stand.old.session }
    {
        let seat = self.owned_worker(stand);
        let session = stand.session;
        *stand = SessionState::new(session);
        let Some(worker) = seat else {
            return None;
        };
        recall_invariant(&self.world, worker);
        let carried = detach(&mut self.world, worker);
        update_holders(&mut self.holders, seat, None, session);
        batch_with_events(carried.batch)
    }

    /// The worker of a session, if the executor agrees: another session may have taken it over.
    fn owned_worker(&self, stand: &SessionState) -> Option<u32>
        ensures { result ≡ owned_worker self.now stand.now }
    {
        let worker = stand.worker?;
        match self.holders.get(worker as usize) {
            Some(Some(holder)) if *holder == stand.session => Some(worker),
            _ => None,
        }
    }

    /// The lowest of the first `workers` workers that no session has and that has a pending job, or has none, as the
    /// choice says; `None` if there is none.
    pub fn choose_worker(&self, choice: WorkerChoice, workers: u32) -> Option<u32>
        ensures chosen { IfSome result (λ worker. IsChosenWorker self.now choice workers worker) }
        ensures none { result ≡ None → HasNoCandidate self.now choice workers }
    {
        for worker in 0..workers {
            if self.is_candidate(choice, worker) {
                return Some(worker);
            }
        }
        None
    }

    /// Whether no session has the worker, and the choice takes it.
    fn is_candidate(&self, choice: WorkerChoice, worker: u32) -> bool
        ensures is { IsTrue result → (workers : ℕ) → worker < workers → IsCandidate self.now choice workers worker }
        ensures not { IsFalse result → (workers : ℕ) → IsCandidate self.now choice workers worker → ⊥ }
    {
        match self.holders.get(worker as usize) {
            Some(None) => choice.is_chosen(self.world.pending(worker).is_some()),
            _ => false,
        }
    }

    /// Executes an order of a session with this view, with one try if its job waits, and answers the reply with the
    /// event batch.
    ///
    /// A refused order changes nothing, and neither does one for which memory was refused. `Taken` if another session
    /// has the worker to attach. The answer of `enter` tells the number of finished sections of the lock that the worker
    /// owns; the place of a commit's receipt is that number before the commit.
    pub fn execute(
        &mut self,
        stand: &mut SessionState,
        view: &Session,
        order: &Order,
    ) -> Result<ExecutedOrder, NoMemory>
        requires view { view.now ≡ (executor_session_view self.old stand.old).session }
        ensures obeys { IfOk result (λ done. SessionStep self.old.world.shape (executor_session_view self.old stand.old)
            (with_tries 1 order.now) (executor_session_view self.new stand.new) done.reply) }
        ensures applies { IfOk result (λ done. AppliesSessionOrder stand.old.session self.old done.batch self.new) }
        ensures session { stand.new.session ≡ stand.old.session }
        ensures own { IfOk result (λ done. IfSome done.batch
            (λ batch. IsOrderWorker (owned_worker self.old stand.old) order.now batch.worker)) }
        ensures taken { IfOk result (λ done. (done.reply ≡ SessionReply.Refused Refusal.Taken)
            ↔ (is_worker_taken self.old (owned_worker self.old stand.old) order.now ≡ true)) }
        ensures waits { IfOk result (λ done. is_still_waiting done.reply ≡ true
            → IsSessionStopped self.new.world (owned_worker self.new stand.new)) }
        ensures section { IfOk result (λ done. TellsSection (HasFinished self.new.world)
            (executor_session_view self.new stand.new).session done.reply) }
        ensures place { IfOk result (λ done. TellsPlace (HasFinished self.old.world) done.reply) }
        ensures unchanged { OnErr result ((self.new ≡ self.old) × (stand.new ≡ stand.old)) }
    {
        let seat = self.owned_worker(stand);
        if self.is_worker_taken(seat, order) {
            let reply = SessionReply::Refused(Refusal::Taken);
            return Ok(ExecutedOrder { reply, batch: None });
        }
        recall_invariant(&self.world, 0);
        let carried = match apply_order(&mut self.world, seat, view, stand.planned, order) {
            Ok(carried) => carried,
            Err(fault) => return Err(fault),
        };
        update_holders(&mut self.holders, seat, carried.seat, stand.session);
        stand.worker = carried.seat;
        stand.planned = carried.planned;
        Ok(ExecutedOrder {
            reply: carried.reply,
            batch: batch_with_events(carried.batch),
        })
    }

    /// Whether another session has the worker that an order of a session without one would attach.
    fn is_worker_taken(&self, seat: Option<u32>, order: &Order) -> bool
        ensures taken { result ≡ is_worker_taken self.now seat order.now }
        ensures tended { ExecutorInvariant self.now }
    {
        match (seat, order) {
            (None, Order::Attach(asked)) => {
                matches!(self.holders.get(asked.worker as usize), Some(Some(_)))
            }
            _ => false,
        }
    }
}

/// No session for any worker.
fn no_holders(alloc: Global, workers: u32) -> Result<Vec<Option<u64>>, NoMemory>
    ensures { IfOk result (λ holders. holders.items ≡ replicate workers None) }
{
    match vec![in alloc; None; workers as usize] {
        Ok(holders) => Ok(holders),
        Err(_) => Err(NoMemory),
    }
}

/// Crashes each worker that is up.
fn crash_all_workers(world: &mut World)
    ensures fallen { HasCrashedAll world.old world.new }
    ensures kept { WorldInvariant world.new }
{
    for worker in 0..world.shape().workers {
        if world.known(worker).is_some() {
            crash_worker(world, worker);
        }
    }
    recall_invariant(world, 0);
}

/// Updates the holders after an order.
fn update_holders(holders: &mut Vec<Option<u64>>, seat: Option<u32>, now: Option<u32>, session: u64)
    requires own { IfSome seat (λ worker. worker < vec_len holders.old) }
    requires then_ { IfSome now (λ worker. worker < vec_len holders.old) }
    ensures { holders.new.items ≡ holders_after holders.old.items seat now session }
{
    match (seat, now) {
        (_, Some(worker)) => holders[worker as usize] = Some(session),
        (Some(worker), None) => holders[worker as usize] = None,
        (None, None) => {}
    }
}
