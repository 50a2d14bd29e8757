//! `rme serve`: sessions over TCP and over Unix sockets, which share the workers and the locks of one service.

ghost use Rattle.std.specs.Prelude.{◌≡◌, [], IfOk};
ghost use Rattle.rme_service_steps.specs.Closing.{SeatsAreOfService};
ghost use Rattle.rme_session_threads.specs.WorkerSlots.{AreDownsInPlace};
ghost use Rattle.rme_cli_commands.specs.FinalReports.{FinalReportSays};

use crate::final_report::{FinalReport, end_with, report_service};
use log::sink::Console;
use log::{Level, Logged, info};
use rme_cli_listen::{
    BoundServer, HttpPort, KeysFile, MeteredSite, ServicePages, StderrObserver, keyed, listen,
    open_keys, serve_metered,
};
use rme_cli_messages::{CliFault, why_not_locks, why_not_sizes};
use rme_cli_options::{Diagnostics, ListenAddresses, ServeTask, ServerLog};
use rme_line_diagnose::SessionWords;
use rme_metrics::ServerCounters;
use rme_server::{Listeners, ServeFault, ServerLimits, SessionRegistry, Slots};
use rme_table::{CountRoom, Down, Service, Tag};
use rme_wire::{GivenNames, Names};
use rme_words::Shape;
use std::alloc::Global;
use std::io;
use std::marker::Brand;
use std::sync::Wait;
use std::thread::Threads;
use std::time::Clock;

/// Serves the connections, prints the final state of the locks, and answers the status.
pub fn run_serve<R: Threads + Wait + Clock + Sync>(
    rt: &HostRuntime,
    threads: &R,
    task: ServeTask,
) -> Result<u8, CliFault> {
    let shape = shape_of(&task);
    let limits = limits_of(&task);
    let ServeTask {
        places,
        http,
        log,
        keys,
        locks,
        ..
    } = task;
    let names = names_of(rt.alloc(), locks)?;
    let shape = shape?;
    let keys = match open_keys(rt, keys) {
        Ok(keys) => keys,
        Err(refused) => return Ok(refused.status()),
    };
    let ports = ServerPorts {
        places,
        http,
        limits,
        log,
    };
    let (host, listeners) = listen_with(rt, ports, keys, &names)?;
    let ended = serve_workers(threads, &host, listeners, shape);
    host.bound.addresses.clear(rt);
    ended
}

/// The names of the locks.
fn names_of(alloc: Global, locks: Vec<String>) -> Result<Names, CliFault> {
    let why = why_not_locks(alloc, &locks)?;
    let locks = GivenNames::of(locks);
    if !locks.are_names() {
        return Err(CliFault::BadArguments(why));
    }
    Ok(locks.names(alloc)?)
}

/// Where a server listens, its limits, and its log.
#[derive(Drop)]
struct ServerPorts {
    places: ListenAddresses,
    http: Option<u16>,
    limits: ServerLimits,
    log: ServerLog,
}

/// Listens for clients, with these keys.
fn listen_with<'a>(
    rt: &'a HostRuntime,
    ports: ServerPorts,
    keys: Option<KeysFile<'a>>,
    names: &'a Names,
) -> Result<(ServeContext<'a>, Listeners), CliFault> {
    let ServerPorts {
        places,
        http,
        limits,
        log,
    } = ports;
    let http = HttpPort::listen(rt, http)?;
    let (listeners, bound) = listen(rt, places, limits)?;
    let host = ServeContext {
        rt,
        bound,
        http,
        connections: limits.connections,
        log,
        keys,
        names,
    };
    Ok((host, listeners))
}

/// The limits of the requested server.
fn limits_of(task: &ServeTask) -> ServerLimits {
    ServerLimits {
        connections: task.connections,
        at_once: task.at_once,
        idle: task.idle,
        tells_why: match task.diagnostics {
            Diagnostics::Why => Some(SessionWords {
                has_look_ups: false,
                has_secrets: task.keys.is_some(),
                has_spaces: false,
            }),
            Diagnostics::Nothing => None,
        },
    }
}

/// The shape of the requested service.
fn shape_of(task: &ServeTask) -> Result<Shape, CliFault> {
    let locks = u32::try_from(task.locks.len()).unwrap_or(u32::MAX);
    match Shape::new(task.workers, locks, task.cells, task.jobs) {
        Ok(shape) => Ok(shape),
        Err(_) => Err(CliFault::BadArguments(why_not_sizes(
            ("--workers", task.workers),
            ("--cells", task.cells),
            ("--jobs", task.jobs),
        ))),
    }
}

/// A server's addresses and acceptor, its HTTP port if it has one, the number of connections that it serves if there is
/// a limit, its log, its keys if it has some, and the names of the locks.
#[derive(Drop)]
struct ServeContext<'a> {
    rt: &'a HostRuntime,
    bound: BoundServer,
    http: Option<HttpPort>,
    connections: Option<u32>,
    log: ServerLog,
    keys: Option<KeysFile<'a>>,
    names: &'a Names,
}

impl ServeContext<'_> {
    /// Prints a line for each address, and for the HTTP port.
    fn print_addresses(&self) -> Result<(), CliFault> {
        self.bound.addresses.print(self.rt)?;
        match &self.http {
            Some(http) => http.print(self.rt),
            None => Ok(()),
        }
    }
}

/// Serves the workers of a new service of this shape, prints the final state of its locks, and answers the status.
fn serve_workers<R: Threads + Wait + Clock + Sync>(
    threads: &R,
    host: &ServeContext<'_>,
    listeners: Listeners,
    shape: Shape,
) -> Result<u8, CliFault> {
    let (service, downs) = Service::new(host.rt.alloc(), shape)?;
    let room = service.room_for_counts()?;
    let closing = FinalReport::with_room(host.rt.alloc())?;
    host.print_addresses()?;
    let (downs, served) = serve_all::<Brand, R>(threads, host, listeners, &service, downs)?;
    log_served(host.rt, host.connections.unwrap_or(0));
    let status = close(host, service, downs, room, closing)?;
    match served {
        Ok(()) => Ok(status),
        Err(fault) => Err(CliFault::of_serving(fault, host.bound.addresses.text(host.rt.alloc())?)),
    }
}

/// Logs that a server has served all its connections.
fn log_served(rt: &HostRuntime, connections: u32) {
    info!(Logged::new(rt, Level::Info, Console(rt)); target: "rme", "served {connections}");
}

/// Closes the service, prints the state of its locks, and answers the status. All room for that was reserved before.
fn close(
    host: &ServeContext<'_>,
    service: Service,
    downs: Vec<Down>,
    room: CountRoom,
    closing: FinalReport,
) -> Result<u8, CliFault>
    requires ours { SeatsAreOfService service downs.items }
    requires room { room ≡ service.shape }
    requires none { FinalReportSays closing [] [] 0 }
{
    let closed = service.close_counted(downs, room);
    let closing = report_service(closing, host.names, &closed)?;
    end_with(&mut io::writer(host.rt), &mut host.rt.stderr(), &closing)
}

/// Serves these workers, all of the service, to the sessions of the connections; gives back those that are present at
/// the end, with the server's fault, if any.
fn serve_all<'s, K: Tag + Send + Sync, R: Threads + Wait + Clock + Sync>(
    threads: &R,
    host: &'s ServeContext<'s>,
    listeners: Listeners,
    service: &'s Service,
    downs: Vec<Down>,
) -> Result<(Vec<Down>, Result<(), ServeFault>), CliFault>
    requires named { service.now ≡ K.ident }
    requires all { AreDownsInPlace service.now downs.items }
    ensures ours { IfOk result (λ served. SeatsAreOfService service.now served.0.items) }
{
    let alloc = host.rt.alloc();
    let room = Vec::with_capacity(alloc, downs.len())?;
    let Ok(slots) = Slots::<K>::new(threads, alloc, downs) else {
        return Err(CliFault::NoMemory);
    };
    let registry = SessionRegistry::new(alloc, service.shape())?;
    let shared = rme_server::ServiceBackend {
        alloc,
        service,
        slots: &slots,
        names: host.names,
        registry: &registry,
    };
    let counters = ServerCounters::new();
    let site = MeteredSite {
        acceptor: &host.bound.acceptor,
        observer: &StderrObserver::new(host.rt, host.log),
        http: host.http.as_ref(),
        counters: &counters,
        pages: &ServicePages {
            alloc,
            counters: &counters,
        },
    };
    let workers = service.shape().workers();
    let served = match keyed(&host.keys, &shared, workers) {
        Some(keyed) => serve_metered(threads, listeners, &site, &keyed),
        None => serve_metered(threads, listeners, &site, &shared),
    };
    Ok((slots.into_downs_in(threads, room), served))
}
