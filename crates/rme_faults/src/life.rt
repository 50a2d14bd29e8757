//! The lives of a server in a simulation.

ghost use Rattle.std.specs.Prelude.{◌≡◌, [], IfOk, None, true};
ghost use Rattle.rme_durable_server.specs.ServerHistories.{server_state};

use crate::client::CloseFlag;
use crate::clock::SimulatedRuntime;
use crate::disk::SimulatedFile;
use crate::fault::SimulationFailure;
use crate::plan::{Plan, Sizes};
use crate::run::{LifeEnd, Run, count};
use crate::stage::ScriptedStage;
use rme_cli_messages::CliFault;
use rme_durable_file::{OpenedState, RecoveredFile, StateFile, StateName};
use rme_durable_log::OpenLog;
use rme_durable_lookups::clients_of;
use rme_durable_server::{DurableServer, ServerSetting, ServerTag, StateAndLog, WaitingJobs};
use rme_faults_model::{MOST_LOCKS, is_or, lock_text};
use rme_line_diagnose::Reason;
use rme_session_loop::{LocalClient, SessionEvent, session};
use rme_session_server::ServerObserver;
use rme_wire::{GivenNames, LineReader, Names};
use rme_words::Shape;
use std::alloc::{AllocError, Global};
use std::cell::Cell;
use std::io;
use std::marker::Brand;
use std::sync::{Mutex, Wait};

/// The greatest sizes to which a state grows.
const MOST_WORKERS: u32 = 7;

const MOST_CELLS: u32 = 4;

/// What the lives of a server share.
#[derive(Drop)]
pub struct ServerLifeContext<'a, R> {
    pub runtime: &'a SimulatedRuntime<'a, R>,
    pub name: &'a StateName,
    /// For each session whether its client was closed.
    pub closed: &'a [Cell<bool>],
}

/// A state with the log that is opened over its file.
type SimulatedState<'a> = StateAndLog<StateFile<'a, SimulatedFile<'a>>>;

/// Watches nothing.
struct NoObserver;

impl ServerObserver for NoObserver {
    fn not_accepted(&self, _why: io::Error) {}

    fn no_thread(&self) {}

    fn bad_line(&self, _connection: u64, _line: u64, _why: &Reason) {}

    fn session_event(&self, _connection: Option<u64>, _event: SessionEvent) {}

    fn second_passed(&self) {}
}

/// A state with a log over its file.
fn state_with_log<'a>(opened: OpenedState<'a, SimulatedFile<'a>>) -> SimulatedState<'a>
    requires works { opened.file.works ≡ true }
    ensures names { result.names ≡ opened.entry.names }
    ensures executor { result.executor ≡ opened.entry.executor }
    ensures leader { result.leader ≡ None }
{
    StateAndLog {
        names: opened.names,
        executor: opened.executor,
        log: OpenLog::new(opened.file),
        leader: None,
    }
}

/// Plays a life of a server: its start, and then its steps.
pub fn live<'a, R: Wait>(
    life_context: &ServerLifeContext<'a, R>,
    run: Run<'a>,
) -> Result<Run<'a>, SimulationFailure> {
    let mut run = run;
    run.disk.revive();
    run.end = LifeEnd::Process;
    count(&mut run.counts.lives);
    let opened = match open(life_context, &mut run) {
        Ok(opened) => opened,
        Err(_) => {
            if !run.disk.has_failed() && !run.disk.has_refused() && !run.disk.is_dead() {
                run.note(Err("a start refuses the file"));
            }
            return Ok(run);
        }
    };
    serve_logged::<Brand, R>(life_context, state_with_log(opened), run)
}

/// Recovers the file, crashes each worker that was up, and now and then lets the state grow.
fn open<'a, R>(
    life_context: &ServerLifeContext<'a, R>,
    run: &mut Run<'a>,
) -> Result<OpenedState<'a, SimulatedFile<'a>>, CliFault>
    ensures works { IfOk result (λ state. state.file.works ≡ true) }
    ensures lines { IfOk result (λ state. state.executor.lines ≡ []) }
{
    let disk = run.disk;
    let file = StateFile::new(life_context.name, SimulatedFile { disk }, run.plan.syncs);
    let found = RecoveredFile::read(run.rt, file)?;
    let opened = found.open(run.rt)?;
    learn_sizes(run, &opened)?;
    if run.is_last || !run.draws.is_one_in(6) {
        return Ok(opened);
    }
    let wanted = draw_growth(run);
    let names = lock_names(run.alloc, wanted.locks)?;
    let workers = wanted.workers.saturating_add(1);
    let Ok(shape) = Shape::new(workers, wanted.locks, wanted.cells, run.plan.jobs) else {
        return Ok(opened);
    };
    run.growth = Some(wanted);
    disk.set_growing(true);
    let grown = opened.grow(run.rt, names, shape)?;
    learn_sizes(run, &grown)?;
    count(&mut run.counts.growths);
    Ok(grown)
}

/// The sizes to which a state grows.
fn draw_growth(run: &Run<'_>) -> Sizes {
    let model = &run.model;
    Sizes {
        workers: model
            .worker_count()
            .saturating_add(run.draws.below(2))
            .min(MOST_WORKERS),
        locks: model
            .lock_count()
            .saturating_add(run.draws.below(2))
            .min(MOST_LOCKS),
        cells: model
            .cells
            .saturating_add(run.draws.below(2))
            .min(MOST_CELLS),
    }
}

/// Learns the sizes of a state that was opened: those that are known, or those of the last growth, which the disk may
/// have though the start that wanted it has failed.
fn learn_sizes(
    run: &mut Run<'_>,
    opened: &OpenedState<'_, SimulatedFile<'_>>,
) -> Result<(), AllocError> {
    let shape = opened.executor.executor().world().shape();
    let found = Sizes {
        workers: clients_of(opened.executor.executor().world()),
        locks: shape.locks(),
        cells: shape.cells(),
    };
    run.disk.set_growing(false);
    if run.growth == Some(found) {
        run.model.grow(found.workers, found.locks, found.cells)?;
    }
    let known = Sizes {
        workers: run.model.worker_count(),
        locks: run.model.lock_count(),
        cells: run.model.cells,
    };
    let is_known = found == known || run.model.is_lossy;
    run.note(is_or(is_known, "a state has other sizes"));
    Ok(())
}

/// The names of this number of locks.
pub fn lock_names(alloc: Global, count: u32) -> Result<Names, CliFault> {
    let mut texts = Vec::new(alloc);
    for lock in 0..count {
        if texts
            .push(String::from_str(alloc, lock_text(lock))?)
            .is_err()
        {
            return Err(CliFault::NoMemory);
        }
    }
    let given = GivenNames::of(texts);
    if !given.are_names() {
        return Err(CliFault::BadNames);
    }
    Ok(given.names(alloc)?)
}

/// What a server is asked for, beside its state.
fn setting_of(plan: &Plan) -> ServerSetting {
    ServerSetting {
        sections: plan.sections,
        waiting: if plan.withdraws {
            WaitingJobs::Withdraw
        } else {
            WaitingJobs::Keep
        },
    }
}

/// Makes a server of a state, with a tag for its log and its opening, and plays its life.
fn serve_logged<'a, J: ServerTag, R: Wait>(
    life_context: &ServerLifeContext<'a, R>,
    state: SimulatedState<'a>,
    run: Run<'a>,
) -> Result<Run<'a>, SimulationFailure>
    requires log { state.log ≡ J.book }
    requires lines { state.executor.lines ≡ [] }
    requires named { state.names ≡ J.opening.names }
    requires led { state.leader ≡ J.opening.leader }
    requires begins { J.opening.begins (server_state state.executor) }
{
    let setting = setting_of(&run.plan);
    let server = DurableServer::<StateFile<'a, SimulatedFile<'a>>, CloseFlag<'a>, J>::new(
        run.alloc, setting, state,
    )?;
    if server
        .withdraw_waiting_jobs(life_context.runtime, &NoObserver)
        .is_err()
    {
        return Ok(run);
    }
    let alloc = run.alloc;
    let stage = ScriptedStage {
        server: &server,
        closed: life_context.closed,
        run: Mutex::new(Some(run)),
    };
    let mut lines = LineReader::new(alloc, "go\n".as_bytes())?;
    let mut sink = Vec::new(alloc);
    let _told = session(
        life_context.runtime,
        &stage,
        &LocalClient,
        &mut lines,
        &mut sink,
    );
    let played = stage.run.lock(life_context.runtime).take();
    match played {
        Some(run) => Ok(run),
        None => Err(SimulationFailure::NoMemory),
    }
}
