//! The state of a space, and its server, each made in a thread that ends then.
//!
//! Reading a file and making a server touch far more of a stack than serving does, and an open space keeps what its
//! thread has touched.

ghost use Rattle.std.specs.Prelude.{◌≡◌, [], None};
ghost use Rattle.rme_durable_server.specs.ServerHistories.{server_state};

use rme_cli_durable::{ServedLog, state_and_log};
use rme_cli_messages::CliFault;
use rme_durable_file::{RecoveredFile, StateName, check_replaceable, open_state_file};
use rme_durable_server::{DurableServer, ServerSetting, ServerTag, StateAndLog};
use rme_metrics::LogCounters;
use rme_session_server::Closer;
use rme_words::Refusal;
use std::alloc::Global;
use std::sync::Wait;
use std::thread;
use std::thread::{Builder, Scope, Threads};

/// The stack size in bytes of a thread that reads the file of a space.
pub(crate) const OPENING_STACK: usize = 2_097_152;

/// The file of a space, as the store of its log.
pub(crate) type SpaceLog<'a> = ServedLog<'a>;

/// The opened state of a space, with its log.
#[derive(Drop)]
pub(crate) struct OpenedSpace<'a> {
    pub(crate) state: StateAndLog<SpaceLog<'a>>,
    ghost lines: { state.executor.lines ≡ [] },
    ghost led: { state.leader ≡ None },
}

/// The file of a space that is to be opened, and what its writes are counted by, if they are.
#[derive(Clone, Copy)]
pub(crate) struct SpaceFile<'a> {
    pub(crate) rt: &'a HostRuntime,
    pub(crate) name: &'a StateName,
    pub(crate) syncs: bool,
    pub(crate) writes: Option<&'a LogCounters>,
}

impl<'a> OpenedSpace<'a> {
    /// Opens the state of a space; `None` if it is not there.
    pub(crate) fn open<R: Threads + Wait + Sync>(
        threads: &R,
        file: SpaceFile<'a>,
    ) -> Result<Option<Box<OpenedSpace<'a>, Global>>, CliFault> {
        thread::scope(
            thread::scope_env(),
            threads,
            move |scope| -> Result<Option<Box<OpenedSpace<'_>, Global>>, CliFault> {
                open_beside(threads, scope, file)
            },
        )
    }
}

/// Opens the state of a space in a thread of the scope, and waits for it.
fn open_beside<'s, 'a: 's, E, R: Threads + Wait>(
    threads: &'s R,
    scope: &Scope<'s, E>,
    file: SpaceFile<'a>,
) -> Result<Option<Box<OpenedSpace<'a>, Global>>, CliFault> {
    let opening = move || open_here(file);
    let Ok(opening) = Builder::new()
        .stack_size(OPENING_STACK)
        .spawn_scoped(scope, opening)
    else {
        return Err(CliFault::NoThread);
    };
    opening.join(threads)
}

/// Opens the state of a space in this thread.
fn open_here<'a>(file: SpaceFile<'a>) -> Result<Option<Box<OpenedSpace<'a>, Global>>, CliFault> {
    let SpaceFile {
        rt,
        name,
        syncs,
        writes,
    } = file;
    let Some(file) = open_state_file(rt, name, syncs)? else {
        return Ok(None);
    };
    check_replaceable(rt, name.path())?;
    let opened = RecoveredFile::read(rt, file)?.open(rt)?;
    let space = OpenedSpace {
        state: state_and_log(rt, writes, opened),
    };
    match Box::new(rt.alloc(), space) {
        Ok(space) => Ok(Some(space)),
        Err(_) => Err(CliFault::NoMemory),
    }
}

/// The server of an opened space, with a tag for its log and its opening. `NoMemory` if memory or a thread is refused.
pub(crate) fn server_of<'a, J: ServerTag + Send + Sync + 'static, R: Threads + Wait + Sync>(
    threads: &R,
    alloc: Global,
    setting: ServerSetting,
    opened: Box<OpenedSpace<'a>, Global>,
) -> Result<Box<DurableServer<SpaceLog<'a>, Closer, J>, Global>, Refusal>
    requires log { opened.value.state.log ≡ J.book }
    requires named { opened.value.state.names ≡ J.opening.names }
    requires led { opened.value.state.leader ≡ J.opening.leader }
    requires begins { J.opening.begins (server_state opened.value.state.executor) }
{
    thread::scope(
        thread::scope_env(),
        threads,
        move |scope| -> Result<Box<DurableServer<SpaceLog<'_>, Closer, J>, Global>, Refusal>
            requires log { opened.value.state.log ≡ J.book }
            requires named { opened.value.state.names ≡ J.opening.names }
            requires led { opened.value.state.leader ≡ J.opening.leader }
            requires begins { J.opening.begins (server_state opened.value.state.executor) }
        { server_beside(threads, scope, alloc, setting, opened) },
    )
}

/// Makes the server of an opened space in a thread of the scope, and waits for it.
fn server_beside<'s, 'a: 's, E, J: ServerTag + Send + Sync + 's, R: Threads + Wait>(
    threads: &'s R,
    scope: &Scope<'s, E>,
    alloc: Global,
    setting: ServerSetting,
    opened: Box<OpenedSpace<'a>, Global>,
) -> Result<Box<DurableServer<SpaceLog<'a>, Closer, J>, Global>, Refusal>
    requires log { opened.value.state.log ≡ J.book }
    requires named { opened.value.state.names ≡ J.opening.names }
    requires led { opened.value.state.leader ≡ J.opening.leader }
    requires begins { J.opening.begins (server_state opened.value.state.executor) }
{
    let making = move || -> Result<Box<DurableServer<SpaceLog<'_>, Closer, J>, Global>, Refusal>
        requires log { opened.value.state.log ≡ J.book }
        requires named { opened.value.state.names ≡ J.opening.names }
        requires led { opened.value.state.leader ≡ J.opening.leader }
        requires begins { J.opening.begins (server_state opened.value.state.executor) }
    { server_here(alloc, setting, opened) };
    let Ok(making) = Builder::new()
        .stack_size(OPENING_STACK)
        .spawn_scoped(scope, making)
    else {
        return Err(Refusal::NoMemory);
    };
    making.join(threads)
}

/// Makes the server of an opened space in this thread.
fn server_here<'a, J: ServerTag>(
    alloc: Global,
    setting: ServerSetting,
    opened: Box<OpenedSpace<'a>, Global>,
) -> Result<Box<DurableServer<SpaceLog<'a>, Closer, J>, Global>, Refusal>
    requires log { opened.value.state.log ≡ J.book }
    requires named { opened.value.state.names ≡ J.opening.names }
    requires led { opened.value.state.leader ≡ J.opening.leader }
    requires begins { J.opening.begins (server_state opened.value.state.executor) }
{
    let OpenedSpace { state } = Box::into_inner(opened);
    let Ok(server) = DurableServer::new(alloc, setting, state) else {
        return Err(Refusal::NoMemory);
    };
    match Box::new(alloc, server) {
        Ok(server) => Ok(server),
        Err(_) => Err(Refusal::NoMemory),
    }
}
