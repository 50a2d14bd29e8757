//! `rme serve --state etcd:NAME`: a server stands by, claims the log, and serves.

ghost use Rattle.std.specs.Prelude.{◌≡◌, []};

use crate::cluster_log::{ClusterLog, state_and_cluster_log};
use crate::lead_note::{LeadNote, LeadOutcome};
use crate::lead_watch::LeadWatch;
use crate::noted_engine::NotedEngine;
use crate::standby::Standby;
use rme_cli_cluster::{
    ClusterFault, LogFault, asking_limits, end_of_command, new_writer, open_cluster, storing_limits,
};
use rme_cli_durable::{
    Growth, ServerConfig, StateSite, growth_of, limits_of, open_grown, serve_logged, setting_of,
    split_task,
};
use rme_cli_listen::{HttpPort, KeysFile, listen, open_keys};
use rme_cli_messages::CliFault;
use rme_cli_options::{EtcdPlace, LeaderSetting, ListenAddresses, ReplicatedServeTask, ServerLog};
use rme_durable_file::{RecoveredFile, StateFile, StateName};
use rme_durable_server::{ServerSetting, StateAndLog};
use rme_etcd::EtcdFault;
use rme_metrics::LogCounters;
use rme_replica::Claimant;
use rme_replica_state::{ReadFault, ReplicaState};
use rme_session_server::{Listeners, ServerLimits};
use std::alloc::{AllocError, Global};
use std::marker::Brand;
use std::sync::Wait;
use std::thread::Threads;
use std::time::Clock;

/// Serves a state in a log in a cluster, once no other server leads it, until the process is killed. A log that does
/// not exist is created first. Returns if it cannot start, and if an event cannot be logged, as when another server has
/// taken over, which was already reported.
pub fn run_serve_replicated<R: Threads + Wait + Clock + Sync>(
    rt: &HostRuntime,
    threads: &R,
    task: ReplicatedServeTask,
) -> Result<u8, CliFault> {
    let ReplicatedServeTask { serve, log, leader } = task;
    let limits = limits_of(&serve);
    let setting = setting_of(&serve);
    let (server_log, http) = (serve.log, serve.http);
    let (asked, places, keys) = split_task(serve);
    let request = LeadRequest {
        rt,
        place: &log,
        leader: &leader,
        asked: &asked,
        places: &places,
        keys: &keys,
        http,
        limits,
        setting,
        log: server_log,
    };
    end_of_command(rt, request.serve(threads))
}

/// What a server is asked for.
#[derive(Drop)]
struct LeadRequest<'a> {
    rt: &'a HostRuntime,
    place: &'a EtcdPlace,
    leader: &'a LeaderSetting,
    asked: &'a ServerConfig,
    places: &'a ListenAddresses,
    /// The file of its keys, if its sessions need one.
    keys: &'a Option<String>,
    http: Option<u16>,
    limits: ServerLimits,
    setting: ServerSetting,
    log: ServerLog,
}

/// The notes of a leading server beside the state: its name, the outcome of the last call, and counts of writes.
#[derive(Clone, Copy)]
struct LeadNotes<'f> {
    name: &'f StateName,
    note: &'f LeadNote,
    writes: &'f LogCounters,
}

/// The state in a log, as it was read: nothing was changed yet.
type FoundState<'a> = RecoveredFile<'a, ReplicaState<NotedEngine<'a>>>;

/// A server that leads a log.
type LeadSite<'a> = StateSite<'a, LeadWatch<'a>>;

impl LeadRequest<'_> {
    /// Stands by until it leads, and serves.
    fn serve<R: Threads + Wait + Clock + Sync>(&self, threads: &R) -> Result<u8, ClusterFault> {
        let mut standby = Standby {
            rt: self.rt,
            place: self.place,
            leader: self.leader,
            asked: self.asked,
            engine: open_cluster(self.rt, self.place, asking_limits(self.place))?,
            takes: self.leader.takes,
        };
        standby.ensure_log()?;
        self.check()?;
        for _ in 0..u64::MAX {
            let term = standby.wait()?;
            if let Some(status) = self.try_lead(threads, term)? {
                return Ok(status);
            }
        }
        Ok(0)
    }

    /// Refuses words that contradict the state, before its leader is waited for.
    fn check(&self) -> Result<(), ClusterFault> {
        let note = LeadNote::new();
        let name = self.state_name()?;
        self.find_state(&name, &note)?;
        Ok(())
    }

    /// Claims the log in this term, and serves until an event cannot be logged; `None` if another server was faster.
    fn try_lead<R: Threads + Wait + Clock + Sync>(
        &self,
        threads: &R,
        term: Option<u64>,
    ) -> Result<Option<u8>, ClusterFault> {
        let note = LeadNote::new();
        let name = self.state_name()?;
        let writes = LogCounters::new();
        let notes = LeadNotes {
            name: &name,
            note: &note,
            writes: &writes,
        };
        self.lead(threads, notes, term)
    }

    /// The same, with the notes, which outlive the state.
    fn lead<'f, R: Threads + Wait + Clock + Sync>(
        &'f self,
        threads: &R,
        notes: LeadNotes<'f>,
        term: Option<u64>,
    ) -> Result<Option<u8>, ClusterFault> {
        let keys = match open_keys(self.rt, copy_of(self.rt.alloc(), self.keys)?) {
            Ok(keys) => keys,
            Err(refused) => return Ok(Some(refused.status())),
        };
        match self.find_in_term(notes, term)? {
            Some(found) => self.lead_found(threads, notes, keys, found),
            None => Ok(None),
        }
    }

    /// The state in the log; `None` if the log has another term.
    fn find_in_term<'f>(
        &self,
        notes: LeadNotes<'f>,
        term: Option<u64>,
    ) -> Result<Option<(FoundState<'f>, Option<Growth>)>, ClusterFault> {
        let found = self.find_state(notes.name, notes.note)?;
        if term.is_some_and(|term| term != notes.note.term()) {
            return Ok(None);
        }
        Ok(Some(found))
    }

    /// Listens, claims the log of a state that was read, and serves it.
    fn lead_found<'f, R: Threads + Wait + Clock + Sync>(
        &'f self,
        threads: &R,
        notes: LeadNotes<'f>,
        keys: Option<KeysFile<'f>>,
        found: (FoundState<'f>, Option<Growth>),
    ) -> Result<Option<u8>, ClusterFault> {
        let watch = LeadWatch {
            place: self.place,
            note: notes.note,
        };
        let (site, listeners) = self.listen(keys, &watch, notes.writes)?;
        let served = self.claim(threads, &site, listeners, found);
        site.bound.addresses.clear(self.rt);
        served
    }

    /// Listens for clients, with these keys.
    fn listen<'f>(
        &'f self,
        keys: Option<KeysFile<'f>>,
        watch: &'f LeadWatch<'f>,
        writes: &'f LogCounters,
    ) -> Result<(LeadSite<'f>, Listeners), ClusterFault> {
        let http = HttpPort::listen(self.rt, self.http)?;
        let places = copy_of_places(self.rt.alloc(), self.places)?;
        let (listeners, bound) = listen(self.rt, places, self.limits)?;
        let site = StateSite {
            rt: self.rt,
            bound,
            http,
            log: self.log,
            keys,
            watch,
            setting: self.setting,
            writes,
        };
        Ok((site, listeners))
    }

    /// Claims the log of a state that was read, and serves it.
    fn claim<'f, R: Threads + Wait + Clock + Sync>(
        &self,
        threads: &R,
        site: &LeadSite<'f>,
        listeners: Listeners,
        (found, growth): (FoundState<'f>, Option<Growth>),
    ) -> Result<Option<u8>, ClusterFault> {
        let note = site.watch.note;
        let address = String::from_str(self.rt.alloc(), self.leader.address.as_str())?;
        match open_grown(self.rt, found, growth) {
            Ok(opened) => {
                let leader = note.leader(address);
                let state = state_and_cluster_log(site.rt, site.counted_writes(), opened, leader);
                serve_claimed(threads, site, listeners, state)
            }
            Err(fault) => self.not_claimed(fault, note),
        }
    }

    /// What it means that the log was not claimed: `None` if another server was faster.
    fn not_claimed(&self, fault: CliFault, note: &LeadNote) -> Result<Option<u8>, ClusterFault> {
        match note.last() {
            LeadOutcome::Overtaken => Ok(None),
            LeadOutcome::Lost(why) => Err(self.call_fault(why)),
            LeadOutcome::Own => Err(ClusterFault::Cli(fault)),
        }
    }

    /// The state in the log, and the sizes and locks that the request adds to it.
    fn find_state<'f>(
        &self,
        name: &'f StateName,
        note: &'f LeadNote,
    ) -> Result<(FoundState<'f>, Option<Growth>), ClusterFault> {
        let state = self.read_state(note)?;
        let found = RecoveredFile::read(self.rt, StateFile::new(name, state, true))?;
        let growth = growth_of(self.rt, self.asked, found.log())?;
        Ok((found, growth))
    }

    /// The log, as it was read.
    fn read_state<'f>(
        &self,
        note: &'f LeadNote,
    ) -> Result<ReplicaState<NotedEngine<'f>>, ClusterFault> {
        let alloc = self.rt.alloc();
        let by = Claimant {
            address: String::from_str(alloc, self.leader.address.as_str())?,
            writer: new_writer(self.rt)?,
        };
        let engine = NotedEngine {
            engine: open_cluster(self.rt, self.place, storing_limits(self.place))?,
            note,
        };
        match ReplicaState::read(alloc, engine, by) {
            Ok(state) => Ok(state),
            Err(ReadFault::NoMemory) => Err(ClusterFault::Cli(CliFault::NoMemory)),
            Err(ReadFault::Lost) => Err(self.read_fault(note)),
        }
    }

    /// The fault of a log that could not be read.
    fn read_fault(&self, note: &LeadNote) -> ClusterFault {
        match note.last() {
            LeadOutcome::Lost(why) => self.call_fault(why),
            _ => self.call_fault(EtcdFault::Unreachable),
        }
    }

    /// The fault of a call of the log.
    fn call_fault(&self, why: EtcdFault) -> ClusterFault {
        ClusterFault::of_log(self.rt.alloc(), self.place, LogFault::Call(why))
    }

    /// The name of the state, as faults have it: `etcd:NAME`.
    fn state_name(&self) -> Result<StateName, ClusterFault> {
        let path = String::from_str(self.rt.alloc(), self.asked.path.as_str())?;
        Ok(StateName::new(path))
    }
}

/// Serves a state whose log was claimed.
fn serve_claimed<R: Threads + Wait + Clock + Sync>(
    threads: &R,
    site: &LeadSite<'_>,
    listeners: Listeners,
    state: StateAndLog<ClusterLog<'_>>,
) -> Result<Option<u8>, ClusterFault>
    requires lines { state.executor.lines ≡ [] }
{
    let status = serve_logged::<ClusterLog<'_>, Brand, LeadWatch<'_>, R>(
        threads, site, listeners, state,
    )?;
    Ok(Some(status))
}

fn copy_of(alloc: Global, text: &Option<String>) -> Result<Option<String>, AllocError> {
    match text {
        Some(text) => Ok(Some(String::from_str(alloc, text.as_str())?)),
        None => Ok(None),
    }
}

fn copy_of_places(alloc: Global, places: &ListenAddresses) -> Result<ListenAddresses, AllocError> {
    Ok(match places {
        ListenAddresses::Port(port) => ListenAddresses::Port(*port),
        ListenAddresses::Socket(path) => {
            ListenAddresses::Socket(String::from_str(alloc, path.as_str())?)
        }
        ListenAddresses::Both(port, path) => {
            ListenAddresses::Both(*port, String::from_str(alloc, path.as_str())?)
        }
    })
}
