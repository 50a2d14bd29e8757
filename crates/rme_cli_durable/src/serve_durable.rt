//! `rme serve --state`: sessions over a world that is logged to a file.

ghost use Rattle.std.specs.Prelude.{◌≡◌, [], IfOk, true};

use crate::log_of_state::{ServedLog, state_and_log};
use crate::opening::open_grown;
use crate::requested_state::{Growth, ServerConfig, first_lines, growth_of};
use crate::server_request::{limits_of, setting_of, split_task};
use crate::serving::{StateSite, serve_logged};
use rme_cli_listen::{HttpPort, KeysFile, listen, open_keys};
use rme_cli_messages::{BadArgument, CliFault, Stderr, escape_controls};
use rme_cli_options::{DurableServeTask, ListenAddresses, ServerLog};
use rme_durable_file::{
    OpenedState, RecoveredFile, StateName, SystemFile, check_replaceable, make_state,
    open_state_file,
};
use rme_durable_server::ServerSetting;
use rme_metrics::LogCounters;
use rme_session_server::{Listeners, ServerLimits};
use std::marker::Brand;
use std::sync::Wait;
use std::thread::Threads;
use std::time::Clock;

/// Serves a state until the process is killed, and creates it first if it does not exist. Returns if it cannot start,
/// and if an event cannot be logged, which was already reported.
///
/// A start decides everything that depends on the command line and on the files, and listens, before it changes
/// anything: a refused start leaves each file unchanged.
pub fn run_serve_durable<R: Threads + Wait + Clock + Sync>(
    rt: &HostRuntime,
    threads: &R,
    task: DurableServeTask,
) -> Result<u8, CliFault> {
    let limits = limits_of(&task);
    let setting = setting_of(&task);
    let (log, http) = (task.log, task.http);
    let (asked, places, keys) = split_task(task);
    let keys = match open_keys(rt, keys) {
        Ok(keys) => keys,
        Err(refused) => return Ok(refused.status()),
    };
    let name = StateName::new(String::from_str(rt.alloc(), asked.path.as_str())?);
    let start = DurableStart {
        rt,
        asked: &asked,
        name: &name,
        http,
        limits,
        setting,
        log,
    };
    start.serve(threads, places, keys)
}

/// What a server is asked for beside its addresses and keys.
#[derive(Clone, Copy)]
struct DurableStart<'a> {
    rt: &'a HostRuntime,
    asked: &'a ServerConfig,
    name: &'a StateName,
    http: Option<u16>,
    limits: ServerLimits,
    setting: ServerSetting,
    log: ServerLog,
}

impl DurableStart<'_> {
    /// Plans the start, listens, and serves.
    fn serve<R: Threads + Wait + Clock + Sync>(
        &self,
        threads: &R,
        places: ListenAddresses,
        keys: Option<KeysFile<'_>>,
    ) -> Result<u8, CliFault> {
        let planned = plan_start(self.rt, self.asked, self.name)?;
        let writes = LogCounters::new();
        let (site, listeners) = self.listen(places, keys, &writes)?;
        let served = self.serve_planned(threads, &site, listeners, planned);
        site.bound.addresses.clear(self.rt);
        served
    }

    /// Listens for clients, with these keys.
    fn listen<'f>(
        &'f self,
        places: ListenAddresses,
        keys: Option<KeysFile<'f>>,
        writes: &'f LogCounters,
    ) -> Result<(StateSite<'f, StateName>, Listeners), CliFault> {
        let http = HttpPort::listen(self.rt, self.http)?;
        let (listeners, bound) = listen(self.rt, places, self.limits)?;
        let site = StateSite {
            rt: self.rt,
            bound,
            http,
            log: self.log,
            keys,
            watch: self.name,
            setting: self.setting,
            writes,
        };
        Ok((site, listeners))
    }

    /// Opens or creates the file, and serves its state.
    fn serve_planned<R: Threads + Wait + Clock + Sync>(
        &self,
        threads: &R,
        site: &StateSite<'_, StateName>,
        listeners: Listeners,
        planned: StartPlan<'_>,
    ) -> Result<u8, CliFault> {
        match open_or_create(site.rt, self.asked, site.watch, planned) {
            Ok(opened) => serve_opened(threads, site, listeners, opened),
            Err(fault) => {
                self.name.tell(self.rt, &Stderr::new(self.rt));
                Err(fault)
            }
        }
    }
}

/// Serves a state whose file was opened.
fn serve_opened<'a, R: Threads + Wait + Clock + Sync>(
    threads: &R,
    site: &StateSite<'a, StateName>,
    listeners: Listeners,
    opened: OpenedState<'a, SystemFile<'a>>,
) -> Result<u8, CliFault>
    requires works { opened.file.works ≡ true }
    requires lines { opened.executor.lines ≡ [] }
{
    let state = state_and_log(site.rt, site.counted_writes(), opened);
    serve_logged::<ServedLog<'a>, Brand, StateName, R>(threads, site, listeners, state)
}

/// The plan of a start: nothing was changed yet.
#[derive(Drop)]
enum StartPlan<'a> {
    /// Continue with a file, which no other server has, and let it grow first if more was asked for than it has.
    GoOn(RecoveredFile<'a, SystemFile<'a>>, Option<Growth>),
    /// Create a file with these lines.
    Make(String),
}

/// Plans a start, and changes nothing. A file that exists is recovered: it must be a state, and have nothing that the
/// request has not. If it does not exist, the requested state must be a possible one. And the file must be one that a
/// checkpoint can replace.
fn plan_start<'a>(
    rt: &'a HostRuntime,
    asked: &ServerConfig,
    name: &'a StateName,
) -> Result<StartPlan<'a>, CliFault> {
    if asked.path.is_empty() {
        return Err(CliFault::BadArguments(BadArgument::NoFile("--state")));
    }
    let planned = match recover_file(rt, asked, name)? {
        Some((found, growth)) => StartPlan::GoOn(found, growth),
        None => StartPlan::Make(first_lines(rt, asked)?),
    };
    check_replaceable(rt, name.path())?;
    Ok(planned)
}

/// The file, if it exists, recovered, and what the request adds to its state. Then no other server can have it.
fn recover_file<'a>(
    rt: &'a HostRuntime,
    asked: &ServerConfig,
    name: &'a StateName,
) -> Result<Option<(RecoveredFile<'a, SystemFile<'a>>, Option<Growth>)>, CliFault> {
    let Some(file) = open_state_file(rt, name, asked.syncs)? else {
        return Ok(None);
    };
    let found = RecoveredFile::read(rt, file)?;
    let growth = growth_of(rt, asked, found.log())?;
    Ok(Some((found, growth)))
}

/// Executes the plan: creates the file if it does not exist, logs a crash of each worker that was up, and lets the state
/// grow.
fn open_or_create<'a>(
    rt: &'a HostRuntime,
    asked: &ServerConfig,
    name: &'a StateName,
    planned: StartPlan<'a>,
) -> Result<OpenedState<'a, SystemFile<'a>>, CliFault>
    ensures works { IfOk result (λ state. state.file.works ≡ true) }
    ensures lines { IfOk result (λ state. state.executor.lines ≡ []) }
{
    let lines = match planned {
        StartPlan::GoOn(found, growth) => return open_grown(rt, found, growth),
        StartPlan::Make(lines) => lines,
    };
    make_state(rt, asked.path.as_str(), lines.as_bytes())?;
    let Some((found, growth)) = recover_file(rt, asked, name)? else {
        let path = escape_controls(rt.alloc(), asked.path.as_str())?;
        return Err(CliFault::BadArguments(BadArgument::NoState(path)));
    };
    open_grown(rt, found, growth)
}
