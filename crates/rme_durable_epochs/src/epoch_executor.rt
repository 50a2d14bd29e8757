//! An executor over epochs: its event batches are logged, and its clients see numbers that continue over epochs.

ghost use Rattle.std.specs.Prelude.{◌≡◌, IfErr, IfOk, OnOk, string_bytes};
ghost use Rattle.rme_session_world.specs.declared.event_batch.EventBatch.{EventBatch};
ghost use Rattle.rme_durable_epochs.specs.ClientLives.{without_after};
ghost use Rattle.rme_durable_epochs.specs.declared.apply_error.ApplyError.TheVariants as error;
ghost use Rattle.rme_durable_format.specs.BatchCommands.{batch_commands_if};
ghost use Rattle.rme_durable_format.specs.CommandLines.{AppendsCommands};

use crate::apply_error::ApplyError;
use crate::epoch_base::{Base, epoch_order};
use crate::immediate::immediate_reply;
use rme_durable_format::{CommandWriter, append_batch, count_batch, life_of};
use rme_program::{Ascent, Stage};
use rme_session_protocol::{
    Attachment, ClientOutcome, ClientReply, ClientToken, Order, Session, SessionReply,
    is_still_waiting,
};
use rme_session_world::{EventBatch, Executor, SessionState};
use rme_wire::Names;
use rme_words::Refusal;
use rme_world::World;
use std::alloc::Global;
use std::marker::Model;
use std::mem::replace;

/// The bytes reserved for the lines of an order before it is executed: more than they need.
const ROOM: usize = 4_096;

/// The reply to an order, as the client of its session sees it.
#[derive(Clone, Copy)]
pub struct ClientAnswer {
    pub reply: ClientReply,
    /// Where the worker waits for the lock of its job, if it does.
    pub waits_at: Option<Ascent>,
}

/// The reply to an order in one epoch.
#[derive(Clone, Copy)]
struct EpochAnswer {
    reply: SessionReply,
    /// Where the worker waits for the lock of its job, if it does.
    waits_at: Option<Ascent>,
}

/// The beginning of an epoch.
#[derive(Drop)]
pub struct EpochStart {
    pub executor: Executor,
    pub base: Base,
    /// For each worker but the checkpoint worker how often it was restarted, over all epochs.
    pub lives: Vec<u64>,
    /// The number of earlier epochs.
    pub epoch: u64,
    /// The bytes of the lines that led to the executor.
    pub bytes: u64,
}

/// An executor, the pending lines of its event batches, its base, and the lives of its workers.
#[derive(Drop)]
pub struct EpochExecutor {
    executor: Executor,
    writer: CommandWriter,
    lines: String,
    /// Whether an event batch could not be logged. No order is executed after that.
    is_failed: bool,
    base: Base,
    /// For each worker but the checkpoint worker how often it was restarted, over all epochs.
    lives: Vec<u64>,
    /// The number of earlier epochs.
    epoch: u64,
    /// The bytes of the epoch's lines, without the pending ones: of those that were taken. The greatest `u64` if there
    /// are more.
    bytes: u64,
}

impl Model for EpochExecutor {
    ghost use Rattle.std.specs.Prelude.{string_bytes};
    ghost use Rattle.rme_durable_epochs.specs.EpochStates.{EpochState};

    ghost Value = { EpochState };

    ghost view = { λ epoch. record {
      executor = epoch.executor;
      lines = string_bytes epoch.lines;
      base = epoch.base;
      lives = epoch.lives.items;
      epoch = epoch.epoch;
      taken = epoch.bytes;
      failed = epoch.is_failed;
    } };
}

impl EpochExecutor {
    ghost use Rattle.std.specs.Prelude.{◌≡◌, ◌+◌, ◌-◌, ◌^◌, min, [], false, true, length};
    ghost use Rattle.std.specs.Prelude.{IfOk, IfErr, IfSome, IsFalse, IsTrue, None, OnOk, OnSome, Some, option_map, slice_get, string_bytes};
    ghost use Rattle.rme_session_world.specs.Downs.{IsWorkerDown};
    ghost use Rattle.rme_session_world.specs.Executors.{executor_session_view, owned_worker};
    ghost use Rattle.rme_session_protocol.specs.Attempts.{with_tries};
    ghost use Rattle.rme_session_protocol.specs.ClientReplies.{reply_of_client};
    ghost use Rattle.rme_session_protocol.specs.SessionSteps.{SessionStep, TellsPlace, TellsSection};
    ghost use Rattle.rme_session_world.specs.FencingTokens.{HasFinished};
    ghost use Rattle.rme_durable_epochs.specs.EpochStates.{SessionStepAcrossCheckpoints, TellsClientPlace, TellsClientSection, executor_session};
    ghost use Rattle.rme_durable_epochs.specs.ClientLives.{IsOvertaken, TellsClientLife, TellsOvertaken, with_life, without_after};
    ghost use Rattle.rme_durable_epochs.specs.ClientValues.{client_session};
    ghost use Rattle.rme_durable_epochs.specs.LoggedStates.{LoggedStep, logged_state};
    ghost use Rattle.rme_durable_epochs.specs.ImmediateReplies.{immediate_reply};
    ghost use Rattle.rme_durable_epochs.specs.declared.apply_error.ApplyError.TheVariants as error;

    /// An executor of an epoch that begins so, without pending lines.
    pub fn new(alloc: Global, start: EpochStart) -> EpochExecutor
        ensures executor { result.executor ≡ start.executor }
        ensures lines { result.lines ≡ [] }
        ensures base { result.base ≡ start.base }
        ensures lives { result.lives ≡ start.lives.items }
        ensures epoch { result.epoch ≡ start.epoch }
        ensures taken { result.taken ≡ start.bytes }
        ensures works { result.failed ≡ false }
    {
        let EpochStart {
            executor,
            base,
            lives,
            epoch,
            bytes,
        } = start;
        EpochExecutor {
            executor,
            writer: CommandWriter::new(alloc),
            lines: String::new(alloc),
            is_failed: false,
            base,
            lives,
            epoch,
            bytes,
        }
    }

    /// The executor, for reading.
    pub fn executor(&self) -> &Executor
        ensures { result.now ≡ self.now.executor }
    {
        &self.executor
    }

    /// The pending lines, for reading.
    pub fn lines(&self) -> &str
        ensures { result.now ≡ self.now.lines }
    {
        self.lines.as_str()
    }

    /// The base that earlier epochs left.
    pub fn base(&self) -> &Base
        ensures { result.now ≡ self.now.base }
    {
        &self.base
    }

    /// For each worker but the checkpoint worker how often it was restarted, over all epochs.
    pub fn lives(&self) -> &[u64]
        ensures { result.now ≡ self.now.lives }
    {
        self.lives.as_slice()
    }

    /// The number of earlier epochs.
    pub fn epoch(&self) -> u64
        ensures { result ≡ self.now.epoch }
    {
        self.epoch
    }

    /// The bytes of the epoch's lines, the pending ones included, or the greatest `u64` if there are more.
    pub fn bytes(&self) -> u64
        ensures { result ≡ min (self.now.taken + length self.now.lines) (2 ^ 64 - 1) }
    {
        self.bytes.saturating_add(self.lines.len() as u64)
    }

    /// Whether an event batch could not be logged: no order is executed any more.
    pub fn is_failed(&self) -> bool
        ensures { result ≡ self.now.failed }
    {
        self.is_failed
    }

    /// Executes an order of a session with one try, with the numbers that its client sees, and logs its event batch.
    /// `Overtaken` for an attachment of a worker that was restarted after the life that the order has; it is refused so
    /// before `Taken`, and changes nothing.
    ///
    /// After `NoMemory` nothing is changed. After `NotLogged` no order is executed any more.
    pub fn execute(
        &mut self,
        names: &Names,
        session: &mut SessionState,
        order: &Order,
    ) -> Result<ClientAnswer, ApplyError>
        ensures obeys { IfOk result (λ answered. SessionStepAcrossCheckpoints self.old.base
            (executor_session self.old.executor session.old) order.now
            (executor_session self.new.executor session.new) (reply_of_client answered.reply)) }
        ensures section { IfOk result (λ answered. TellsClientSection self.old.base
            (executor_session self.new.executor session.new) (reply_of_client answered.reply)) }
        ensures place { IfOk result (λ answered. TellsClientPlace self.old.base self.old.executor.world
            (reply_of_client answered.reply)) }
        ensures life { IfOk result (λ answered. TellsClientLife self.new.lives
            (executor_session self.new.executor session.new) (reply_of_client answered.reply)) }
        ensures overtaken { IfOk result (λ answered. TellsOvertaken self.old.lives self.old.executor.world.shape.workers
            (executor_session_view self.old.executor session.old).session order.now
            (reply_of_client answered.reply)) }
        ensures written { OnOk result (LoggedStep names.now session.old.session
            (logged_state self.old.executor self.old.lives self.old.lines)
            (logged_state self.new.executor self.new.lives self.new.lines)) }
        ensures session { session.new.session ≡ session.old.session }
        ensures base { self.new.base ≡ self.old.base }
        ensures epoch { self.new.epoch ≡ self.old.epoch }
        ensures taken { self.new.taken ≡ self.old.taken }
        ensures unchanged { IfErr result (λ why. why ≡ error.NoMemory
            → (self.new ≡ self.old) × (session.new ≡ session.old)) }
        ensures failed { IfErr result (λ why. why ≡ error.NotLogged → self.new.failed ≡ true) }
        ensures works { OnOk result (self.new.failed ≡ self.old.failed) }
        ensures stopped { self.old.failed ≡ true → (self.new ≡ self.old) × (session.new ≡ session.old) }
    {
        if self.is_overtaken(session, order) {
            return Ok(ClientAnswer {
                reply: ClientReply::Refused(Refusal::Overtaken),
                waits_at: None,
            });
        }
        let answered = self.execute_at_any_life(names, session, &without_after(order))?;
        Ok(ClientAnswer {
            reply: self.with_life(session, answered.reply),
            ..answered
        })
    }

    /// Whether an order of a session would attach a worker that was restarted after the life that the order has.
    fn is_overtaken(&self, session: &SessionState, order: &Order) -> bool
        ensures is { IsTrue result → IsOvertaken self.now.lives self.now.executor.world.shape.workers
            (executor_session_view self.now.executor session.now).session order.now }
        ensures not { IsFalse result → IsOvertaken self.now.lives self.now.executor.world.shape.workers
            (executor_session_view self.now.executor session.now).session order.now → ⊥ }
    {
        let Order::Attach(asked) = order else {
            return false;
        };
        let Some(life) = asked.after else {
            return false;
        };
        let Session::Nobody = self.executor.session(session) else {
            return false;
        };
        asked.worker < self.executor.world().shape().workers()
            && life < life_of(self.lives(), asked.worker)
    }

    /// The reply to a session, with the life of its worker if it is inside.
    fn with_life(&self, session: &SessionState, reply: ClientReply) -> ClientReply
        ensures { reply_of_client result ≡ with_life self.now.lives
            (executor_session_view self.now.executor session.now).session (reply_of_client reply) }
    {
        let ClientReply::Entered(ClientOutcome::Inside(token)) = reply else {
            return reply;
        };
        let Session::Held(pending) = self.executor.session(session) else {
            return reply;
        };
        let life = life_of(self.lives(), pending.worker);
        ClientReply::Entered(ClientOutcome::Inside(ClientToken { life, ..token }))
    }

    /// Executes an order as `execute` does, but counts no lives: its answer tells none, and no worker is overtaken.
    ///
    /// After `NoMemory` nothing is changed. After `NotLogged` no order is executed any more.
    fn execute_at_any_life(
        &mut self,
        names: &Names,
        session: &mut SessionState,
        order: &Order,
    ) -> Result<ClientAnswer, ApplyError>
        ensures obeys { IfOk result (λ answered. SessionStepAcrossCheckpoints self.old.base
            (executor_session self.old.executor session.old) order.now
            (executor_session self.new.executor session.new) (reply_of_client answered.reply)) }
        ensures section { IfOk result (λ answered. TellsClientSection self.old.base
            (executor_session self.new.executor session.new) (reply_of_client answered.reply)) }
        ensures place { IfOk result (λ answered. TellsClientPlace self.old.base self.old.executor.world
            (reply_of_client answered.reply)) }
        ensures written { OnOk result (LoggedStep names.now session.old.session
            (logged_state self.old.executor self.old.lives self.old.lines)
            (logged_state self.new.executor self.new.lives self.new.lines)) }
        ensures session { session.new.session ≡ session.old.session }
        ensures base { self.new.base ≡ self.old.base }
        ensures epoch { self.new.epoch ≡ self.old.epoch }
        ensures taken { self.new.taken ≡ self.old.taken }
        ensures unchanged { IfErr result (λ why. why ≡ error.NoMemory
            → (self.new ≡ self.old) × (session.new ≡ session.old)) }
        ensures failed { IfErr result (λ why. why ≡ error.NotLogged → self.new.failed ≡ true) }
        ensures works { OnOk result (self.new.failed ≡ self.old.failed) }
        ensures stopped { self.old.failed ≡ true → (self.new ≡ self.old) × (session.new ≡ session.old) }
    {
        let view = self.executor.session(session);
        if let Some(reply) = self.immediate_reply(&view, order)? {
            return Ok(ClientAnswer {
                reply,
                waits_at: None,
            });
        }
        let numbers = self.base.numbers_for(&view, order);
        let executed = self.execute_in_epoch(names, session, &view, &epoch_order(numbers, order))?;
        match self.base.client_reply(numbers, executed.reply) {
            Some(reply) => Ok(ClientAnswer {
                reply,
                waits_at: executed.waits_at,
            }),
            None => Err(self.fail()),
        }
    }

    /// The reply to an order that needs no event, of a session with this view. (No number is too large: that is checked
    /// when an epoch begins.)
    fn immediate_reply(
        &self,
        view: &Session,
        order: &Order,
    ) -> Result<Option<ClientReply>, ApplyError>
        ensures told { IfOk result (λ reply. option_map reply_of_client reply ≡ immediate_reply
            (client_session self.now.base view.now) order.now) }
        ensures why { IfErr result (λ why. why ≡ error.NoMemory) }
    {
        match self.base.client_session(view) {
            Some(over) => Ok(immediate_reply(&over, order)),
            None => Err(ApplyError::NoMemory),
        }
    }

    /// Executes an order with the numbers of this epoch, of a session with this view, and logs its event batch.
    fn execute_in_epoch(
        &mut self,
        names: &Names,
        session: &mut SessionState,
        view: &Session,
        order: &Order,
    ) -> Result<EpochAnswer, ApplyError>
        requires view { view.now ≡ (executor_session_view self.old.executor session.old).session }
        ensures obeys { IfOk result (λ executed. SessionStep self.old.executor.world.shape
            (executor_session_view self.old.executor session.old) (with_tries 1 order.now)
            (executor_session_view self.new.executor session.new) executed.reply) }
        ensures section { IfOk result (λ executed. TellsSection (HasFinished self.new.executor.world)
            (executor_session_view self.new.executor session.new).session executed.reply) }
        ensures place { IfOk result (λ executed. TellsPlace (HasFinished self.old.executor.world) executed.reply) }
        ensures written { OnOk result (LoggedStep names.now session.old.session
            (logged_state self.old.executor self.old.lives self.old.lines)
            (logged_state self.new.executor self.new.lives self.new.lines)) }
        ensures session { session.new.session ≡ session.old.session }
        ensures base { self.new.base ≡ self.old.base }
        ensures epoch { self.new.epoch ≡ self.old.epoch }
        ensures taken { self.new.taken ≡ self.old.taken }
        ensures unchanged { IfErr result (λ why. why ≡ error.NoMemory
            → (self.new ≡ self.old) × (session.new ≡ session.old)) }
        ensures failed { IfErr result (λ why. why ≡ error.NotLogged → self.new.failed ≡ true) }
        ensures works { OnOk result ((self.old.failed ≡ false) × (self.new.failed ≡ false)) }
        ensures stopped { self.old.failed ≡ true → (self.new ≡ self.old) × (session.new ≡ session.old) }
    {
        if self.is_failed {
            return Err(ApplyError::NotLogged);
        }
        if self.lines.reserve(ROOM).is_err() {
            return Err(ApplyError::NoMemory);
        }
        let done = match self.executor.execute(session, view, order) {
            Ok(done) => done,
            Err(_) => return Err(ApplyError::NoMemory),
        };
        count_batch(&mut self.lives, &done.batch);
        if log_batch(&mut self.lines, &mut self.writer, names, done.batch).is_err() {
            return Err(self.fail());
        }
        let waits_at = self.waits_at(session, &done.reply);
        Ok(EpochAnswer {
            reply: done.reply,
            waits_at,
        })
    }

    /// Ends a session: its worker, if it has one, crashes, and that is logged.
    pub fn detach_session(
        &mut self,
        names: &Names,
        session: &mut SessionState,
    ) -> Result<(), ApplyError>
        ensures down { IfSome (owned_worker self.old.executor session.old) (λ worker.
            IsWorkerDown self.new.executor.world worker × (slice_get self.new.executor.holders worker ≡ Some None)) }
        ensures written { OnOk result (LoggedStep names.now session.old.session
            (logged_state self.old.executor self.old.lives self.old.lines)
            (logged_state self.new.executor self.new.lives self.new.lines)) }
        ensures session { session.new.session ≡ session.old.session }
        ensures base { self.new.base ≡ self.old.base }
        ensures epoch { self.new.epoch ≡ self.old.epoch }
        ensures taken { self.new.taken ≡ self.old.taken }
        ensures failed { IfErr result (λ _. self.new.failed ≡ true) }
        ensures works { OnOk result ((self.old.failed ≡ false) × (self.new.failed ≡ false)) }
    {
        let batch = self.executor.detach_session(session);
        count_batch(&mut self.lives, &batch);
        if self.is_failed || log_batch(&mut self.lines, &mut self.writer, names, batch).is_err() {
            return Err(self.fail());
        }
        Ok(())
    }

    /// Takes the pending lines, and leaves this empty text in their place. `None` after an event batch could not be
    /// logged: later lines would be of another world.
    pub fn take_lines(&mut self, empty: String) -> Option<String>
        ensures taken { IfSome result (λ lines. string_bytes lines ≡ self.old.lines) }
        ensures left { OnSome result (self.new.lines ≡ string_bytes empty) }
        ensures executor { self.new.executor ≡ self.old.executor }
        ensures lives { self.new.lives ≡ self.old.lives }
        ensures base { self.new.base ≡ self.old.base }
        ensures epoch { self.new.epoch ≡ self.old.epoch }
        ensures bytes { OnSome result (self.new.taken ≡ min (self.old.taken + length self.old.lines) (2 ^ 64 - 1)) }
        ensures works { OnSome result (self.old.failed ≡ false) }
        ensures failed { self.new.failed ≡ self.old.failed }
    {
        if self.is_failed {
            return None;
        }
        self.bytes = self.bytes();
        Some(replace(&mut self.lines, empty))
    }

    /// An event batch could not be logged: the pending lines are dropped, since they may have only a part of it, and no
    /// order is executed any more.
    fn fail(&mut self) -> ApplyError
        ensures why { result ≡ error.NotLogged }
        ensures executor { self.new.executor ≡ self.old.executor }
        ensures lives { self.new.lives ≡ self.old.lives }
        ensures base { self.new.base ≡ self.old.base }
        ensures epoch { self.new.epoch ≡ self.old.epoch }
        ensures taken { self.new.taken ≡ self.old.taken }
        ensures failed { self.new.failed ≡ true }
    {
        self.lines.clear();
        self.is_failed = true;
        ApplyError::NotLogged
    }

    /// Where a session's worker waits for the lock of its job, if the reply says that the job waits.
    fn waits_at(&self, session: &SessionState, reply: &SessionReply) -> Option<Ascent> {
        if !is_still_waiting(*reply) {
            return None;
        }
        ascent_of(self.executor.world(), session.worker?)
    }
}

/// Where a worker climbs, if it does.
fn ascent_of(world: &World, worker: u32) -> Option<Ascent> {
    let Some(private) = world.known(worker) else {
        return None;
    };
    match private.stage {
        Stage::Climbing(ascent) => Some(ascent),
        _ => None,
    }
}

/// The order without the life that an attachment may have.
fn without_after(order: &Order) -> Order
    ensures { result ≡ without_after order.now }
{
    match order {
        Order::Attach(asked) => Order::Attach(Attachment {
            after: None,
            ..*asked
        }),
        order => *order,
    }
}

/// Appends the lines of an event batch, if there is one.
fn log_batch(
    lines: &mut String,
    writer: &mut CommandWriter,
    names: &Names,
    batch: Option<EventBatch>,
) -> Result<(), ApplyError>
    ensures lines { OnOk result (AppendsCommands names.now (string_bytes lines.old) (batch_commands_if batch)
        (string_bytes lines.new)) }
    ensures kind { IfErr result (λ why. why ≡ error.NotLogged) }
{
    let Some(batch) = batch else {
        return Ok(());
    };
    match append_batch(lines, writer, names, batch) {
        Ok(()) => Ok(()),
        Err(_) => Err(ApplyError::NotLogged),
    }
}
