//! Laws of replay, and of a server's history.

ghost use Rattle.std.specs.Prelude.{◌≡◌, ◌≢◌, ◌+◌, ◌++◌, ◌<◌, ℕ, List, [], Some, length, map, slice_get};
ghost use Rattle.rme_script.specs.declared.job.Job.{Job};
ghost use Rattle.rme_program.specs.declared.event.Event.{Event};
ghost use Rattle.rme_world.specs.WorldViews.{WorldView};
ghost use Rattle.rme_session_world.specs.EventBatches.{AppliesEvents};
ghost use Rattle.rme_line_engine.specs.EngineStates.{EngineState};
ghost use Rattle.rme_line_io.specs.Pieces.{text};
ghost use Rattle.rme_wire.specs.declared.command.Command.{Command};
ghost use Rattle.rme_session_world.specs.Executors.{HasCrashedAll, executor_session_view};
ghost use Rattle.rme_durable_format.specs.BatchCommands.{all_asked_events, crash_commands_from};
ghost use Rattle.rme_durable_format.specs.CommandLines.{AppendsCommands};
ghost use Rattle.rme_durable_format.specs.Lives.{life_of};
ghost use Rattle.rme_durable_format.specs.Recovery.{AcceptsLines, RecoversWorld};
ghost use Rattle.rme_durable_format.specs.WholeLines.{AreWholeLines};
ghost use Rattle.rme_durable_log.specs.Logs.{AreNotByAuthor, log_bytes_after};
ghost use Rattle.rme_durable_log.specs.declared.log_entry.LogEntry.{LogEntry};
ghost use Rattle.rme_program.specs.declared.note.Receipt.{Receipt};
ghost use Rattle.rme_session_protocol.specs.declared.order.Order.{Order};
ghost use Rattle.rme_session_protocol.specs.declared.order.Attachment.{Attachment};
ghost use Rattle.rme_session_protocol.specs.declared.order.Order.TheVariants.{Attach, Commit};
ghost use Rattle.rme_session_protocol.specs.declared.reply.FencingToken.{FencingToken};
ghost use Rattle.rme_session_protocol.specs.declared.reply.JobOutcome.TheVariants.{Inside, Receipt as Received};
ghost use Rattle.rme_session_protocol.specs.declared.reply.SessionReply.{SessionReply};
ghost use Rattle.rme_session_protocol.specs.declared.reply.SessionReply.TheVariants.{Committed, Entered, Refused};
ghost use Rattle.rme_session_protocol.specs.declared.view.PendingWorker.{PendingWorker};
ghost use Rattle.rme_session_protocol.specs.declared.view.Session.TheVariants.{Held, Nobody};
ghost use Rattle.rme_words.specs.declared.refusal.Refusal.TheVariants.{Overtaken};
ghost use Rattle.rme_durable_epochs.specs.ClientValues.{next_client_place};
ghost use Rattle.rme_durable_server.specs.DurableOrders.{DurableAttempt};
ghost use Rattle.rme_durable_server.specs.ServerHistories.{EntriesLead, HasStateHeader, KeepsWorker, ServerState, SessionActs, SessionMoment};
ghost use Rattle.rme_laws.specs.AlikeWorlds.{AreWorldsAlike};
ghost use Rattle.rme_laws.specs.HeldLocks.{BeginsWith, IsSessionInside, IsWorldReachable, WorkerOwnsLock};
ghost use Rattle.rme_laws.specs.Histories.{AreLivesWhole, AreStatesAlike, HaveLivesGrown, RecoversState, checkpoint_count};
ghost use Rattle.rme_laws.specs.LoggedLines.{AreCommandLines, HasAlikeWorldOpen};

use rme_durable_server::ServerTag;

/// The same events, applied to the same world, lead to alike worlds, if no event was refused for want of memory.
pub fn events_are_deterministic()
    ensures { (old one other : WorldView) (events : List Event) → AppliesEvents old events one
        → AppliesEvents old events other → AreWorldsAlike one other }
{}

/// Recovery of the same bytes leads to alike worlds, whose locks have the same names.
pub fn recovery_is_unique()
    ensures { (bytes : List ℕ) (names others : List (List ℕ)) (one other : WorldView) → RecoversWorld bytes names one
        → RecoversWorld bytes others other → (names ≡ others) × AreWorldsAlike one other }
{}

/// The lines of events, once they are read and accepted, lead to the same state as the events: replay restores the
/// world.
///
/// The commands are of the kinds that orders are logged as, and the events those that they ask for. Lines that are read
/// with an alike world open end with an alike world open.
pub fn replay_restores_world()
    ensures { (names : List (List ℕ)) (commands : List Command) (lines : List (List ℕ)) (old new : WorldView)
        (from to : EngineState)
        → AreCommandLines names commands lines → HasAlikeWorldOpen names old from
        → AppliesEvents old (all_asked_events commands) new
        → AcceptsLines from (map text lines) to → HasAlikeWorldOpen names new to }
{}

/// The log determines the history: the same entries lead from alike states to alike states. So the state in which an
/// order was executed is the one to which the log before it leads, whichever session gave the order.
pub fn log_determines_state()
    ensures { (names : List (List ℕ)) (log : List LogEntry) (old again one other : ServerState)
        → AreStatesAlike old again → EntriesLead names old log one → EntriesLead names again log other
        → AreStatesAlike one other }
{}

/// RECOVERY IS PREFIX-CLOSED: recovery of the bytes of any prefix of a server's log, the first entry included, leads to
/// the state to which that prefix leads. So the recovered state has the orders whose entries are in the prefix, and no
/// others.
///
/// `first` are the bytes at the opening, `log` the entries after them.
pub fn recovery_is_prefix_closed()
    ensures { (names others : List (List ℕ)) (first : List ℕ) (log : List LogEntry) (start state : ServerState)
        (world : WorldView)
        → AreWholeLines first → RecoversState names first start → EntriesLead names start log state
        → RecoversWorld (log_bytes_after first log) others world
        → (names ≡ others) × AreWorldsAlike state.executor.world world }
{}

/// The number of the epoch grows by one with each checkpoint, and by nothing else.
pub fn epoch_counts_checkpoints()
    ensures { (names : List (List ℕ)) (log : List LogEntry) (old new : ServerState) → EntriesLead names old log new
        → new.epoch ≡ old.epoch + checkpoint_count log }
{}

/// THE HEADER FOLLOWS FROM THE HISTORY: the bytes of any prefix of a server's log, the first entry included, begin with
/// the header of the state to which that prefix leads: it has the number of its epoch, and its base.
///
/// `first` are the bytes at the opening, `log` the entries after them.
pub fn header_follows_history()
    ensures { (names : List (List ℕ)) (first : List ℕ) (log : List LogEntry) (start state : ServerState)
        → AreWholeLines first → HasStateHeader names first start → EntriesLead names start log state
        → HasStateHeader names (log_bytes_after first log) state }
{}

/// RECOVERY IS IDEMPOTENT: a start appends a crash line for each worker that is up. Recovery then leads to the world with
/// which that start began, in which all workers are down.
pub fn recovery_is_idempotent()
    ensures { (names others : List (List ℕ)) (bytes crashes : List ℕ) (found begun again : WorldView)
        → AreWholeLines bytes → RecoversWorld bytes names found
        → length found.privates ≡ found.shape.workers
        → AppendsCommands names [] (crash_commands_from 0 found.privates) crashes
        → HasCrashedAll found begun → RecoversWorld (bytes ++ crashes) others again
        → (names ≡ others) × AreWorldsAlike begun again }
{}

/// While a session appends nothing to the log, it keeps its worker, and its client sees the same of the worker.
///
/// The worker is not the checkpoint worker, which no session has.
pub fn session_keeps_worker()
    ensures { (names : List (List ℕ)) (session worker : ℕ) (log : List LogEntry) (old new : ServerState)
        → EntriesLead names old log new → AreNotByAuthor session log
        → worker + 1 < old.executor.world.shape.workers
        → slice_get old.executor.holders worker ≡ Some (Some session) → KeepsWorker session worker old new }
{}

/// FROM `held` TO THE COMMIT: a session's worker that is inside a lock after one order is inside it when the session
/// acts next, and owns the lock, whatever other sessions ordered meanwhile, and across checkpoints.
///
/// A session acts by each try of an order, by a look-up and by its end.
pub fn inside_is_kept<J: ServerTag>()
    ensures { (start : ServerState) (old held now : SessionMoment) (before after next last : ServerState) (worker : ℕ)
        (job : Job)
        → BeginsWith J.opening start → SessionActs J.opening old before held after
        → SessionActs J.opening held next now last → IsSessionInside held.session.session worker job after
        → IsSessionInside held.session.session worker job next × WorkerOwnsLock next.executor.world worker job.lock }
{}

/// THE SECTION IS KEPT: between the two acts of `inside_is_kept` the number of the lock's finished sections stays the
/// same, as clients count them over all epochs.
pub fn section_is_kept<J: ServerTag>()
    ensures { (start : ServerState) (old held now : SessionMoment) (before after next last : ServerState) (worker : ℕ)
        (job : Job)
        → BeginsWith J.opening start → SessionActs J.opening old before held after
        → SessionActs J.opening held next now last → IsSessionInside held.session.session worker job after
        → next_client_place next.base next.executor.world job.lock
        ≡ next_client_place after.base after.executor.world job.lock }
{}

/// THE TOKEN IS THE PLACE: where `enter` told a session a token, and the session acts next by a commit, the receipt has
/// the place that the token told, whatever other sessions ordered meanwhile, and across checkpoints.
///
/// The session's worker is not the checkpoint worker, which no session has.
pub fn token_is_place<J: ServerTag>()
    ensures { (start : ServerState) (old held now : SessionMoment) (its : Order) (token : FencingToken)
        (receipt : Receipt) (enters : DurableAttempt J.opening old its held (Entered (Inside token)))
        → BeginsWith J.opening start → DurableAttempt J.opening held Commit now (Committed (Received receipt))
        → ((worker : ℕ) → held.session.worker ≡ Some worker
        → worker + 1 < enters.after.executor.world.shape.workers)
        → receipt.place ≡ token.section }
{}

/// LIVES RISE: along a server's log no worker's life becomes less.
pub fn lives_never_fall()
    ensures { (names : List (List ℕ)) (log : List LogEntry) (old new : ServerState) → AreLivesWhole old.lives
        → EntriesLead names old log new → HaveLivesGrown old.lives new.lives }
{}

/// NOBODY WAS INSIDE MEANWHILE: where `enter` told a session the life of its worker, and a later attachment of that
/// worker after that life is not refused `Overtaken`, the worker's life is still the same: it was not restarted between.
pub fn attachment_finds_life<J: ServerTag>()
    ensures { (old held begun now : SessionMoment) (its : Order) (token : FencingToken) (pending : PendingWorker)
        (asked : Attachment) (answer : SessionReply) (log : List LogEntry)
        (enters : DurableAttempt J.opening old its held (Entered (Inside token)))
        (attaches : DurableAttempt J.opening begun (Attach asked) now answer)
        → AreLivesWhole enters.after.lives → EntriesLead J.opening.names enters.after log attaches.before
        → (executor_session_view enters.after.executor held.session).session ≡ Held pending
        → (executor_session_view attaches.before.executor begun.session).session ≡ Nobody
        → asked.worker ≡ pending.worker → asked.worker < attaches.before.executor.world.shape.workers
        → asked.after ≡ Some token.life → answer ≢ Refused Overtaken
        → life_of attaches.before.lives asked.worker ≡ token.life }
{}

/// A start begins with the recovered world after a crash of each worker that was up. That world is reachable.
pub fn recovered_world_is_reachable()
    ensures { (bytes : List ℕ) (names : List (List ℕ)) (found begun : WorldView)
        → RecoversWorld bytes names found → HasCrashedAll found begun → IsWorldReachable begun }
{}
