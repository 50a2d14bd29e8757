//! The server of one space, in a thread of its own while the space is open.

ghost use Rattle.std.specs.Prelude.{◌≡◌};
ghost use Rattle.rme_durable_server.specs.ServerHistories.{server_state};

use crate::counted_answers::answer_counted;
use crate::opened_space::{OpenedSpace, SpaceFile, SpaceLog, server_of};
use crate::space_directory::{DirectoryVisit, MovingSession, ServedSpaces};
use crate::space_guest::{SpaceGuest, StatusQuestion};
use crate::space_sessions::SpaceSessions;
use rme_cli_listen::{StderrObserver, look_up_status};
use rme_durable_file::StateName;
use rme_durable_log::NotDurable;
use rme_durable_lookups::clients_of;
use rme_durable_server::{DurableServer, ServerSetting, ServerTag};
use rme_session_keys::{KeyedBackend, KeyedStand};
use rme_session_loop::Backend;
use rme_session_server::{Closer, ServerObserver};
use rme_session_spaces::{Arrival, SpaceEntry, SpacedBackend, SpacedStand};
use rme_words::Refusal;
use std::alloc::Global;
use std::marker::Brand;
use std::sync::{Arc, Wait};
use std::thread;
use std::thread::{Builder, Scope, Threads};
use std::time::{Clock, Duration};

/// The stack size in bytes of the thread of a space, and of a session's, in which checkpoints are made.
pub(crate) const SPACE_STACK: usize = 524_288;

/// The period in seconds in which a space's thread looks after its file.
const LOOK_PERIOD: u64 = 1;

/// What the servers of all spaces share.
#[derive(Drop)]
pub(crate) struct SpacesContext<'a, 'g> {
    pub(crate) rt: &'a HostRuntime,
    pub(crate) observer: &'g StderrObserver<'g>,
    pub(crate) spaces: &'a ServedSpaces<'a, 'g>,
    pub(crate) setting: ServerSetting,
    pub(crate) syncs: bool,
    /// The number of seconds without a session after which a space is closed.
    pub(crate) close_after: u32,
}

/// Why a space is no longer served.
#[derive(Clone, Copy, Debug, PartialEq, Eq)]
enum SpaceEnd {
    /// No session visits it.
    Unvisited,
    /// An event could not be logged, or the file lost its name.
    Failed,
}

/// Opens a space, and serves it until it is closed. If it cannot be opened, the reason is told on the standard error.
pub(crate) fn run_space<'g, R: Threads + Wait + Clock + Sync>(
    threads: &R,
    context: &SpacesContext<'_, 'g>,
    entry: &Arc<SpaceEntry<SpaceGuest<'g>>>,
) {
    let registry = &context.spaces.registry;
    let Ok(path) = context.spaces.folder.path_of(entry.name()) else {
        registry.remove_entry(threads, &**entry, Some(Refusal::NoMemory));
        return;
    };
    let name = StateName::new(path);
    let rt: &HostRuntime = context.rt;
    let writes = match &context.spaces.counters {
        Some(counters) => Some(&counters.writes),
        None => None,
    };
    let file = SpaceFile {
        rt,
        name: &name,
        syncs: context.syncs,
        writes,
    };
    match OpenedSpace::open(threads, file) {
        Ok(Some(opened)) => {
            let served = SpaceContext {
                context,
                entry,
                name: &name,
            };
            let refused = serve_logged_space::<Brand, R>(threads, &served, opened);
            name.tell(rt, context.observer.stderr());
            registry.remove_entry(threads, &**entry, refused);
        }
        Ok(None) => registry.remove_entry(threads, &**entry, Some(Refusal::NoSpace)),
        Err(fault) => {
            let refusal = context.spaces.folder.refuse(&fault);
            name.tell(rt, context.observer.stderr());
            registry.remove_entry(threads, &**entry, Some(refusal));
        }
    }
}

/// A space that is served: its entry, and the name of its file.
#[derive(Drop)]
struct SpaceContext<'v, 'a, 'g> {
    context: &'v SpacesContext<'a, 'g>,
    entry: &'v Arc<SpaceEntry<SpaceGuest<'g>>>,
    name: &'v StateName,
}

/// Serves an opened space, with a tag for its log and its opening, until it is closed. Answers why it could not be
/// served, if so.
fn serve_logged_space<J: ServerTag + Send + Sync + 'static, R: Threads + Wait + Clock + Sync>(
    threads: &R,
    space: &SpaceContext<'_, '_, '_>,
    opened: Box<OpenedSpace<'_>, Global>,
) -> Option<Refusal>
    requires log { opened.value.state.log ≡ J.book }
    requires named { opened.value.state.names ≡ J.opening.names }
    requires led { opened.value.state.leader ≡ J.opening.leader }
    requires begins { J.opening.begins (server_state opened.value.state.executor) }
{
    let alloc = space.context.rt.alloc();
    let workers = clients_of(opened.state.executor.executor().world());
    let kept = match server_of::<J, R>(threads, alloc, space.context.setting, opened) {
        Ok(kept) => kept,
        Err(refusal) => return Some(refusal),
    };
    let space: &SpaceContext<'_, '_, '_> = space;
    let kept: &DurableServer<SpaceLog<'_>, Closer, J> = &kept;
    serve_kept_space(threads, space, kept, workers)
}

/// Serves a space by its server, until it is closed. Answers why it could not be served, if so.
fn serve_kept_space<'v, J: ServerTag + Send + Sync, R: Threads + Wait + Clock + Sync>(
    threads: &R,
    space: &'v SpaceContext<'v, '_, '_>,
    kept: &'v DurableServer<SpaceLog<'_>, Closer, J>,
    workers: u32,
) -> Option<Refusal> {
    match kept.withdraw_waiting_jobs(threads, space.context.observer) {
        Ok(()) => {}
        Err(NotDurable) => return Some(Refusal::NoSpace),
    }
    let server = SpaceServer {
        space,
        kept,
        workers,
        sessions: SpaceSessions::new(space.context.rt.alloc()),
    };
    serve_space(threads, &server);
    None
}

/// The server of a space, and the sessions that use it.
#[derive(Drop)]
struct SpaceServer<'v, 'a, 'g, 'f, J: ServerTag> {
    space: &'v SpaceContext<'v, 'a, 'g>,
    kept: &'v DurableServer<SpaceLog<'f>, Closer, J>,
    workers: u32,
    sessions: SpaceSessions<'g>,
}

/// Serves the sessions that come to a space, until it is closed. Returns when all its sessions have gone.
fn serve_space<J: ServerTag + Send + Sync, R: Threads + Wait + Clock + Sync>(
    threads: &R,
    server: &SpaceServer<'_, '_, '_, '_, J>,
) {
    server.space.entry.opened(threads);
    thread::scope(thread::scope_env(), threads, move |scope| {
        if take_sessions(threads, scope, server) == SpaceEnd::Failed {
            server.space.entry.begin_closing(threads);
            server.sessions.close_all(threads);
            finish_arrivals(threads, server);
        }
    })
}

/// Takes the sessions that come to a space, and looks after its file each second, until no session has used it for a
/// while, or it has failed.
fn take_sessions<'s, E, J: ServerTag + Send + Sync, R: Threads + Wait + Clock + Sync>(
    threads: &'s R,
    scope: &Scope<'s, E>,
    server: &'s SpaceServer<'_, '_, '_, '_, J>,
) -> SpaceEnd {
    let context = server.space.context;
    let entry = server.space.entry;
    let mut unvisited = 0u32;
    for _ in threads.forever() {
        let arrival = SpaceEntry::next_arrival(entry, threads, Duration::from_secs(LOOK_PERIOD));
        let mut is_asked = false;
        match arrival {
            Ok(Arrival::Guest(guest, visit)) => {
                unvisited = 0;
                receive_guest(threads, scope, server, guest, visit);
            }
            Ok(Arrival::Close) => is_asked = true,
            Ok(Arrival::Nothing) if entry.has_visits() => unvisited = 0,
            Ok(Arrival::Nothing) => unvisited = unvisited.saturating_add(1),
            Err(_) => {}
        }
        if server.has_failed(threads) {
            return SpaceEnd::Failed;
        }
        // The first second of these may have begun before the last session ended.
        if is_asked || unvisited > context.close_after {
            if context.spaces.registry.close_unvisited(threads, &**entry) {
                return SpaceEnd::Unvisited;
            }
            unvisited = 0;
        }
    }
    unreachable!()
}

impl<J: ServerTag> SpaceServer<'_, '_, '_, '_, J> {
    /// Whether nothing more may be answered: an event could not be logged, or the file lost its name. Reports faults of
    /// the file.
    fn has_failed<R: Wait>(&self, threads: &R) -> bool {
        let rt = self.space.context.rt;
        if self.space.name.check_name(rt) {
            self.kept.fail(threads);
        }
        self.space
            .name
            .tell(rt, self.space.context.observer.stderr());
        self.kept.is_over(threads)
    }
}

/// Starts a session, or has a question answered.
fn receive_guest<'s, 'g: 's, E, J: ServerTag + Send + Sync, R: Threads + Wait + Clock + Sync>(
    threads: &'s R,
    scope: &Scope<'s, E>,
    server: &'s SpaceServer<'_, '_, 'g, '_, J>,
    guest: SpaceGuest<'g>,
    visit: DirectoryVisit<'g>,
) {
    match guest {
        SpaceGuest::Session(session) => start_session(threads, scope, server, session, visit),
        SpaceGuest::Question(question) => start_answer(threads, scope, server, question, visit),
    }
}

/// Has a question answered in a thread of the scope: a look-up touches more of a stack than the thread of a space should
/// keep. Without a thread it stays unanswered.
fn start_answer<'s, 'g: 's, E, J: ServerTag + Send + Sync, R: Threads + Wait + Clock + Sync>(
    threads: &'s R,
    scope: &Scope<'s, E>,
    server: &'s SpaceServer<'_, '_, 'g, '_, J>,
    question: Arc<StatusQuestion>,
    visit: DirectoryVisit<'g>,
) {
    let answering = move || answer_question(threads, server, &question, visit);
    if Builder::new()
        .stack_size(SPACE_STACK)
        .spawn_scoped(scope, answering)
        .is_err()
    {
        server.space.context.observer.no_thread();
    }
}

/// Answers a question for the status of a space, which is visited meanwhile.
fn answer_question<'g, J: ServerTag, R: Wait + Clock>(
    threads: &R,
    server: &SpaceServer<'_, '_, 'g, '_, J>,
    question: &StatusQuestion,
    visit: DirectoryVisit<'g>,
) {
    let status = look_up_status(threads, server.kept).ok();
    question.answer(threads, status.flatten());
    drop(visit);
}

/// Starts a session in a thread of the scope, or ends it if it can't have one.
fn start_session<'s, 'g: 's, E, J: ServerTag + Send + Sync, R: Threads + Wait + Clock + Sync>(
    threads: &'s R,
    scope: &Scope<'s, E>,
    server: &'s SpaceServer<'_, '_, 'g, '_, J>,
    session: MovingSession<'g>,
    visit: DirectoryVisit<'g>,
) {
    if let Err((session, _visit)) = server.sessions.put_waiting(threads, session, visit) {
        server.space.context.spaces.finish(threads, session);
        return;
    }
    let running = move || run_waiting(threads, server);
    if Builder::new()
        .stack_size(SPACE_STACK)
        .spawn_scoped(scope, running)
        .is_err()
    {
        server.space.context.observer.no_thread();
        // As many sessions wait as threads take them, so the one without a thread may be any of them.
        if let Some((session, _visit)) = server.sessions.take_waiting(threads) {
            server.space.context.spaces.finish(threads, session);
        }
    }
}

/// Runs the part of a waiting session that is in this space.
fn run_waiting<J: ServerTag, R: Wait + Clock>(
    threads: &R,
    server: &SpaceServer<'_, '_, '_, '_, J>,
) {
    if let Some((session, visit)) = server.sessions.take_waiting(threads) {
        run_session(threads, server, session, visit);
    }
}

/// Ends the sessions that came and were not started.
fn finish_arrivals<J: ServerTag, R: Wait + Clock>(
    threads: &R,
    server: &SpaceServer<'_, '_, '_, '_, J>,
) {
    let entry = server.space.entry;
    for _ in threads.forever() {
        match SpaceEntry::next_arrival(entry, threads, Duration::ZERO) {
            Ok(Arrival::Guest(guest, _visit)) => refuse_guest(threads, server, guest),
            Ok(Arrival::Close) => {}
            Ok(Arrival::Nothing) => return,
            Err(_) => return,
        }
    }
}

/// Ends a session, or answers that the space has no status.
fn refuse_guest<'g, J: ServerTag, R: Wait + Clock>(
    threads: &R,
    server: &SpaceServer<'_, '_, 'g, '_, J>,
    guest: SpaceGuest<'g>,
) {
    match guest {
        SpaceGuest::Session(session) => server.space.context.spaces.finish(threads, session),
        SpaceGuest::Question(question) => question.answer(threads, None),
    }
}

/// Runs the part of a session that is in this space, and has it go on in the next one or ends it.
fn run_session<'g, J: ServerTag, R: Wait + Clock>(
    threads: &R,
    server: &SpaceServer<'_, '_, 'g, '_, J>,
    session: MovingSession<'g>,
    visit: DirectoryVisit<'g>,
) {
    let number = session.connection.number();
    let is_known = match session.connection.closer() {
        Some(closer) => server.sessions.add(threads, number, closer),
        None => false,
    };
    let (session, next) = if is_known {
        let space = server.space.entry.name().as_str();
        server.space.context.observer.space_used(number, space);
        answer_session(threads, server, session)
    } else {
        (session, None)
    };
    server.sessions.remove(threads, number);
    // The session has left the space before it goes on in the next one.
    drop(visit);
    server
        .space
        .context
        .spaces
        .move_session(threads, session, next);
}

/// Answers the lines of a session, until it ends or goes on in another space.
fn answer_session<'g, J: ServerTag, R: Wait + Clock>(
    threads: &R,
    server: &SpaceServer<'_, '_, 'g, '_, J>,
    session: MovingSession<'g>,
) -> (MovingSession<'g>, Option<DirectoryVisit<'g>>) {
    let MovingSession { connection, access } = session;
    let mut connection = connection;
    let spaces = server.space.context.spaces;
    let spaced = SpacedBackend {
        backend: server.kept,
        spaces,
        names: server.kept.names(),
    };
    let first = spaced.begin_session();
    let Some(keys) = &spaces.keys else {
        let counters = spaces.session_counters();
        let last = answer_counted(threads, counters, &mut connection, &spaced, first);
        let SpacedStand { stand, visit } = last;
        connection.end_session(threads, server.kept, stand);
        return (MovingSession { connection, access }, visit);
    };
    let keyed = KeyedBackend {
        backend: &spaced,
        keys,
        names: spaced.names(),
        workers: server.workers,
        has_spaces: true,
    };
    let first = KeyedStand {
        access,
        stand: first,
    };
    let counters = spaces.session_counters();
    let last = answer_counted(threads, counters, &mut connection, &keyed, first);
    let KeyedStand { access, stand } = last;
    let SpacedStand { stand, visit } = stand;
    connection.end_session(threads, server.kept, stand);
    (MovingSession { connection, access }, visit)
}
