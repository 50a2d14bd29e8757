//! `rme serve --spaces`: a folder of spaces, each a durable server of its own.

use crate::counted_answers::answer_counted;
use crate::opened_space::OPENING_STACK;
use crate::space_directory::{MovingSession, ServedSpaces, SpacesCounters, SpacesObserver};
use crate::space_guest::SpaceGuest;
use crate::space_pages::SpacesPages;
use crate::space_server::{SPACE_STACK, SpacesContext, run_space};
use crate::spaces_folder::SpacesFolder;
use rme_cli_listen::{
    BoundServer, HTTP_STACK, HttpPort, KeysFile, StderrObserver, listen, open_keys,
};
use rme_cli_messages::CliFault;
use rme_cli_options::{Diagnostics, SpacesServeTask, SyncPolicy, WaitingPolicy};
use rme_durable_server::{ServerSetting, WaitingJobs};
use rme_line_diagnose::SessionWords;
use rme_line_io::ServeFault;
use rme_session_keys::{Access, KeyedBackend, KeyedStand};
use rme_session_loop::Backend;
use rme_session_server::{
    AcceptedConnection, Acceptor, ConnectionHandler, Listeners, ServerLimits, SharedObserver,
    serve_connections,
};
use rme_session_spaces::{
    NoSpace, SpaceEntry, SpaceRegistry, SpaceTask, SpacedBackend, SpacedStand,
};
use rme_wire::Names;
use rme_words::Refusal;
use std::alloc::Global;
use std::sync::{Arc, Wait};
use std::thread;
use std::thread::{Builder, Scope, Threads};
use std::time::Clock;

/// Serves the spaces of a folder until the process is killed. Returns if it cannot start.
pub fn run_serve_spaces<R: Threads + Wait + Clock + Sync>(
    rt: &HostRuntime,
    threads: &R,
    task: SpacesServeTask,
) -> Result<u8, CliFault> {
    let limits = limits_of(&task);
    let setting = setting_of(&task);
    let SpacesServeTask {
        folder,
        close_after,
        places,
        http,
        sync,
        keys,
        log,
        ..
    } = task;
    let observer = StderrObserver::new(rt, log);
    let http = HttpPort::listen(rt, http)?;
    let spaces = match open_spaces(rt, folder, keys, http.is_some()) {
        Ok(spaces) => spaces,
        Err(status) => return Ok(status),
    };
    let (listeners, bound) = listen(rt, places, limits)?;
    let context = SpacesContext {
        rt,
        observer: &observer,
        spaces: &spaces,
        setting,
        syncs: sync == SyncPolicy::Always,
        close_after,
    };
    serve_bound(threads, listeners, &bound, &http, &context)
}

/// Says where the server listens, and serves until that ends.
fn serve_bound<R: Threads + Wait + Clock + Sync>(
    threads: &R,
    listeners: Listeners,
    bound: &BoundServer,
    http: &Option<HttpPort>,
    context: &SpacesContext<'_, '_>,
) -> Result<u8, CliFault> {
    let rt = context.rt;
    bound.addresses.print(rt)?;
    let served = match http {
        Some(http) => {
            http.print(rt)?;
            serve_with_pages(threads, listeners, &bound.acceptor, http, context)
        }
        None => serve_all_spaces(threads, listeners, &bound.acceptor, context),
    };
    bound.addresses.clear(rt);
    match served {
        Ok(()) => Ok(0),
        Err(fault) => Err(CliFault::of_serving(fault, bound.addresses.text(rt.alloc())?)),
    }
}

/// The folder and the keys of a server, with counters if something is to be counted. If one is refused, the exit status,
/// of which the standard error was told.
fn open_spaces<'a, 'g>(
    rt: &'a HostRuntime,
    folder: String,
    keys: Option<String>,
    is_counted: bool,
) -> Result<ServedSpaces<'a, 'g>, u8> {
    let keys = match open_keys(rt, keys) {
        Ok(keys) => keys,
        Err(refused) => return Err(refused.status()),
    };
    match SpacesFolder::open(rt, folder) {
        Ok(folder) => Ok(ServedSpaces {
            folder,
            registry: SpaceRegistry::new(rt.alloc()),
            keys,
            counters: is_counted.then(SpacesCounters::new),
        }),
        Err(refused) => Err(refused.status),
    }
}

/// The limits of the server.
fn limits_of(task: &SpacesServeTask) -> ServerLimits {
    ServerLimits {
        connections: None,
        at_once: task.at_once,
        idle: task.idle,
        tells_why: match task.diagnostics {
            Diagnostics::Why => Some(SessionWords {
                has_look_ups: true,
                has_secrets: task.keys.is_some(),
                has_spaces: true,
            }),
            Diagnostics::Nothing => None,
        },
    }
}

/// What each space is served with.
fn setting_of(task: &SpacesServeTask) -> ServerSetting {
    ServerSetting {
        sections: task.sections,
        waiting: match task.waiting {
            WaitingPolicy::Keep => WaitingJobs::Keep,
            WaitingPolicy::Withdraw => WaitingJobs::Withdraw,
        },
    }
}

/// Serves the connections, the spaces that their sessions use, and the pages on the HTTP port.
fn serve_with_pages<'g, R: Threads + Wait + Clock + Sync>(
    threads: &R,
    listeners: Listeners,
    acceptor: &Arc<Acceptor>,
    http: &HttpPort,
    context: &SpacesContext<'_, 'g>,
) -> Result<(), ServeFault> {
    let pages = SpacesPages { context };
    let pages = &pages;
    thread::scope(
        thread::scope_env(),
        threads,
        move |scope| -> Result<(), ServeFault> {
            let serving = move || http.serve(threads, pages);
            let Ok(serving) = Builder::new()
                .stack_size(HTTP_STACK)
                .spawn_scoped(scope, serving)
            else {
                return Err(ServeFault::NoThread);
            };
            let served = serve_all_spaces(threads, listeners, acceptor, context);
            http.stop();
            serving.join(threads);
            served
        },
    )
}

/// Serves the connections, and the spaces that their sessions use.
fn serve_all_spaces<'g, R: Threads + Wait + Clock + Sync>(
    threads: &R,
    listeners: Listeners,
    acceptor: &Arc<Acceptor>,
    context: &SpacesContext<'_, 'g>,
) -> Result<(), ServeFault> {
    let alloc = context.rt.alloc();
    let Ok(names) = Names::new(alloc) else {
        return Err(ServeFault::NoMemory);
    };
    let front = SpacesFront {
        alloc,
        names: &names,
        spaces: context.spaces,
    };
    let front = &front;
    let observer = SharedObserver {
        observer: context.observer,
    };
    thread::scope(
        thread::scope_env(),
        threads,
        move |scope| -> Result<(), ServeFault> {
            let tasks = move || do_tasks(threads, context);
            let Ok(tasks) = Builder::new()
                .stack_size(SPACE_STACK)
                .spawn_scoped(scope, tasks)
            else {
                return Err(ServeFault::NoThread);
            };
            let served = serve_connections(threads, listeners, acceptor, &observer, front);
            context.spaces.registry.end(threads);
            tasks.join(threads);
            served
        },
    )
}

/// Does each task with a space in a thread of its own. Returns when all of them are done.
fn do_tasks<R: Threads + Wait + Clock + Sync>(threads: &R, context: &SpacesContext<'_, '_>) {
    thread::scope(thread::scope_env(), threads, move |scope| {
        start_tasks(threads, scope, context)
    })
}

/// Starts each task in a thread of the scope, until there are no more.
fn start_tasks<'s, 'g: 's, E, R: Threads + Wait + Clock + Sync>(
    threads: &'s R,
    scope: &Scope<'s, E>,
    context: &'s SpacesContext<'_, 'g>,
) {
    for _ in threads.forever() {
        match context.spaces.registry.next_task(threads) {
            Some(SpaceTask::Open(entry)) => start_space(threads, scope, context, entry),
            Some(SpaceTask::Remove(entry)) => start_removal(threads, scope, context, entry),
            None => return,
        }
    }
}

/// Serves a space in a thread of the scope.
fn start_space<'s, 'g: 's, E, R: Threads + Wait + Clock + Sync>(
    threads: &'s R,
    scope: &Scope<'s, E>,
    context: &'s SpacesContext<'_, 'g>,
    entry: Arc<SpaceEntry<SpaceGuest<'g>>>,
) {
    let registry = &context.spaces.registry;
    let Ok(own) = Arc::try_clone(&entry) else {
        registry.remove_entry(threads, &*entry, Some(Refusal::NoMemory));
        return;
    };
    let serving = move || run_space(threads, context, &own);
    if Builder::new()
        .stack_size(SPACE_STACK)
        .spawn_scoped(scope, serving)
        .is_err()
    {
        registry.remove_entry(threads, &*entry, Some(Refusal::NoMemory));
    }
}

/// Removes a space in a thread of the scope.
fn start_removal<'s, 'g: 's, E, R: Threads + Wait + Clock + Sync>(
    threads: &'s R,
    scope: &Scope<'s, E>,
    context: &'s SpacesContext<'_, 'g>,
    entry: Arc<SpaceEntry<SpaceGuest<'g>>>,
) {
    let registry = &context.spaces.registry;
    let Ok(own) = Arc::try_clone(&entry) else {
        registry.end_removal(threads, &*entry, Err(Refusal::NoMemory));
        return;
    };
    let removing = move || {
        let removed = context.spaces.folder.remove(own.name());
        context.spaces.registry.end_removal(threads, &*own, removed);
    };
    if Builder::new()
        .stack_size(OPENING_STACK)
        .spawn_scoped(scope, removing)
        .is_err()
    {
        registry.end_removal(threads, &*entry, Err(Refusal::NoMemory));
    }
}

/// Holds the part of each session that comes before its first space.
#[derive(Drop)]
struct SpacesFront<'a, 'g> {
    alloc: Global,
    /// No names.
    names: &'a Names,
    spaces: &'a ServedSpaces<'a, 'g>,
}

impl<'g> ConnectionHandler<SpacesObserver<'g>> for SpacesFront<'_, 'g> {
    ghost use Rattle.std.specs.Prelude.{⊤};

    ghost fits = { λ _. ⊤ };

    fn alloc(&self) -> Global {
        self.alloc
    }

    fn names(&self) -> &Names {
        self.names
    }

    fn is_over<R: Wait>(&self, _rt: &R) -> bool {
        false
    }

    fn handle<R: Threads + Wait + Clock + Sync>(
        &self,
        rt: &R,
        connection: AcceptedConnection<SpacesObserver<'g>>,
    )
        requires fits { ⊤ }
    {
        let mut connection = connection;
        self.spaces.count_session();
        let counters = self.spaces.session_counters();
        let nothing = NoSpace {
            alloc: self.alloc,
            names: self.names,
        };
        let spaced = SpacedBackend {
            backend: &nothing,
            spaces: self.spaces,
            names: self.names,
        };
        let Some(keys) = &self.spaces.keys else {
            let first = spaced.begin_session();
            let last = answer_counted(rt, counters, &mut connection, &spaced, first);
            let SpacedStand { stand: (), visit } = last;
            let session = MovingSession {
                connection,
                access: Access::NoKey,
            };
            self.spaces.move_session(rt, session, visit);
            return;
        };
        let keyed = KeyedBackend {
            backend: &spaced,
            keys,
            names: self.names,
            workers: 0,
            has_spaces: true,
        };
        let first = keyed.begin_session();
        let last = answer_counted(rt, counters, &mut connection, &keyed, first);
        let KeyedStand { access, stand } = last;
        let SpacedStand { stand: (), visit } = stand;
        self.spaces
            .move_session(rt, MovingSession { connection, access }, visit);
    }
}
