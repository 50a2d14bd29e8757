//! Serving a state whose log is opened, wherever it lies.

ghost use Rattle.std.specs.Prelude.{◌≡◌, []};
ghost use Rattle.rme_durable_server.specs.ServerHistories.{server_state};

use crate::state_pages::StatePages;
use crate::state_watch::StateWatch;
use rme_cli_listen::{
    BoundServer, HttpPort, KeysFile, MeteredSite, StderrObserver, keyed, look_up_status,
    serve_metered,
};
use rme_cli_messages::CliFault;
use rme_cli_options::ServerLog;
use rme_durable_log::{LogStore, NotDurable};
use rme_durable_lookups::clients_of;
use rme_durable_server::{DurableServer, ServerSetting, ServerTag, StateAndLog};
use rme_line_diagnose::Reason;
use rme_line_io::ServeFault;
use rme_metrics::{LogCounters, ServerCounters};
use rme_session_loop::{Backend, SessionEvent};
use rme_session_server::{Closer, Listeners, ServerObserver};
use std::io;
use std::sync::Wait;
use std::thread::Threads;
use std::time::Clock;

/// A durable server's addresses and acceptor, its HTTP port if it has one, its log, its keys if it has some, what it
/// looks after, and the counters of the writes of its state.
#[derive(Drop)]
pub struct StateSite<'a, W> {
    pub rt: &'a HostRuntime,
    pub bound: BoundServer,
    pub http: Option<HttpPort>,
    pub log: ServerLog,
    pub keys: Option<KeysFile<'a>>,
    pub watch: &'a W,
    pub setting: ServerSetting,
    pub writes: &'a LogCounters,
}

impl<'a, W> StateSite<'a, W> {
    /// The counters of the writes, if somebody can see what they tell.
    pub fn counted_writes(&self) -> Option<&'a LogCounters> {
        match self.http {
            Some(_) => Some(self.writes),
            None => None,
        }
    }

    /// Prints a line for each address, and for the HTTP port.
    fn print_addresses(&self) -> Result<(), CliFault> {
        self.bound.addresses.print(self.rt)?;
        match &self.http {
            Some(http) => http.print(self.rt),
            None => Ok(()),
        }
    }
}

/// Serves a state on these listeners, with a tag for its log and its opening, until the process is killed, or until an
/// event cannot be logged: this is reported then, and the answer is the status.
pub fn serve_logged<
    L: LogStore + Send,
    J: ServerTag + Send + Sync,
    W: StateWatch + Sync,
    R: Threads + Wait + Clock + Sync,
>(
    threads: &R,
    site: &StateSite<'_, W>,
    listeners: Listeners,
    state: StateAndLog<L>,
) -> Result<u8, CliFault>
    requires log { state.log ≡ J.book }
    requires lines { state.executor.lines ≡ [] }
    requires named { state.names ≡ J.opening.names }
    requires led { state.leader ≡ J.opening.leader }
    requires begins { J.opening.begins (server_state state.executor) }
{
    let workers = clients_of(state.executor.executor().world());
    let kept = DurableServer::<L, Closer, J>::new(site.rt.alloc(), site.setting, state)?;
    site.print_addresses()?;
    serve_durable_state(threads, site, listeners, &kept, workers)
}

/// Serves a durable state of this number of workers on these listeners, once no job waits without a session if such jobs
/// are withdrawn. If an event cannot be logged, this is reported at the end.
fn serve_durable_state<
    L: LogStore + Send,
    J: ServerTag + Send + Sync,
    W: StateWatch + Sync,
    R: Threads + Wait + Clock + Sync,
>(
    threads: &R,
    site: &StateSite<'_, W>,
    listeners: Listeners,
    kept: &DurableServer<L, Closer, J>,
    workers: u32,
) -> Result<u8, CliFault> {
    let complaints = StderrObserver::new(site.rt, site.log);
    let observer = StateObserver {
        complaints: &complaints,
        threads,
        watch: site.watch,
        kept,
    };
    let served = match kept.withdraw_waiting_jobs(threads, &observer) {
        Ok(()) => serve_clients(threads, site, listeners, &observer, workers),
        Err(NotDurable) => Ok(()),
    };
    site.watch.tell(site.rt, complaints.stderr());
    if kept.is_over(threads) {
        site.watch.tell_end(site.rt, complaints.stderr());
        return Ok(CliFault::WriteFailed.status());
    }
    match served {
        Ok(()) => Ok(0),
        Err(fault) => Err(CliFault::of_serving(fault, site.bound.addresses.text(site.rt.alloc())?)),
    }
}

/// Serves the clients of a durable state of this number of workers on these listeners, and its pages on the HTTP port.
fn serve_clients<
    'x,
    L: LogStore + Send,
    J: ServerTag + Send + Sync,
    W: StateWatch + Sync,
    R: Threads + Wait + Clock + Sync,
>(
    threads: &R,
    site: &'x StateSite<'x, W>,
    listeners: Listeners,
    observer: &'x StateObserver<'x, L, J, W, R>,
    workers: u32,
) -> Result<(), ServeFault> {
    let kept = observer.kept;
    let counters = ServerCounters::new();
    let metered = MeteredSite {
        acceptor: &site.bound.acceptor,
        observer,
        http: site.http.as_ref(),
        counters: &counters,
        pages: &StatePages {
            rt: site.rt,
            kept,
            counters: &counters,
            log: site.writes,
            watch: site.watch,
        },
    };
    match keyed(&site.keys, kept, workers) {
        Some(keyed) => serve_metered(threads, listeners, &metered, &keyed),
        None => serve_metered(threads, listeners, &metered, kept),
    }
}

/// Observes a durable server: each second it checks whether the state is still the server's, without which nothing may be
/// answered, and reports faults of its storage. A log that others may claim it asks by a look-up as of a client: so an
/// idle server learns that it was overtaken, and those who wait that it runs.
#[derive(Drop)]
struct StateObserver<'a, L: LogStore, J: ServerTag, W, R> {
    complaints: &'a StderrObserver<'a>,
    threads: &'a R,
    watch: &'a W,
    kept: &'a DurableServer<L, Closer, J>,
}

impl<L: LogStore, J: ServerTag, W: StateWatch, R: Wait + Clock> ServerObserver
    for StateObserver<'_, L, J, W, R> {
    fn not_accepted(&self, why: io::Error) {
        self.complaints.not_accepted(why);
    }

    fn no_thread(&self) {
        self.complaints.no_thread();
    }

    fn bad_line(&self, connection: u64, line: u64, why: &Reason) {
        self.complaints.bad_line(connection, line, why);
    }

    fn session_event(&self, connection: Option<u64>, event: SessionEvent) {
        self.complaints.session_event(connection, event);
    }

    fn second_passed(&self) {
        let rt = self.complaints.rt();
        if self.watch.is_lost(rt) {
            self.kept.fail(self.threads);
        }
        if self.watch.asks_log() {
            // Only whether it is answered is of interest, which the server itself sees.
            let _ = look_up_status(self.threads, self.kept);
        }
        self.watch.tell(rt, self.complaints.stderr());
    }
}
