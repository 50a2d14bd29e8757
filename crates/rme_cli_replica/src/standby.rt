//! Standing by while another server leads the log.

use crate::creating::create_log;
use crate::fencing::fence_leader;
use rme_cli_cluster::{ClusterFault, LogFault, is_unfinished_move};
use rme_cli_durable::ServerConfig;
use rme_cli_messages::{CliFault, escape_controls};
use rme_cli_options::{EtcdPlace, LeaderSetting};
use rme_etcd::EtcdEngine;
use rme_replica::Head;
use std::random::RandomSource;
use std::thread;
use std::time::Duration;

/// The pause between two looks at a leader, in milliseconds.
const PAUSE: u64 = 500;

/// The most milliseconds that a standby waits for a quiet leader beyond the requested time. Each wait has a random part
/// of them, so two standbys seldom claim the log at once.
const MOST_LONGER: u64 = 1_000;

/// A server that waits until it may claim the log.
#[derive(Drop)]
pub(crate) struct Standby<'a> {
    pub(crate) rt: &'a HostRuntime,
    pub(crate) place: &'a EtcdPlace,
    pub(crate) leader: &'a LeaderSetting,
    pub(crate) asked: &'a ServerConfig,
    pub(crate) engine: EtcdEngine,
    /// Whether it still takes over at once.
    pub(crate) takes: bool,
}

/// A look at a log: each append and each beat of its leader changes it.
#[derive(Drop)]
struct LogView {
    head: Head,
    beat: Option<Vec<u8>>,
}

impl Standby<'_> {
    /// Makes sure that the log exists: creates it if it does not.
    pub(crate) fn ensure_log(&mut self) -> Result<(), ClusterFault> {
        match self.look()? {
            Some(_) => Ok(()),
            None => self.create(),
        }
    }

    /// Waits until the log may be claimed: no server has led it yet, its leader was quiet for long enough, or this
    /// server takes over at once. Then it has fenced the leader, which it does only once. If it has to wait, it first
    /// prints the address of the leader.
    ///
    /// Answers the term in which the log may be claimed: in another one another server was faster. `None` if that makes no
    /// difference.
    pub(crate) fn wait(&mut self) -> Result<Option<u64>, ClusterFault> {
        let Some(first) = self.look()? else {
            return self.create_unled();
        };
        if first.head.term() == 0 {
            return Ok(Some(0));
        }
        if self.takes {
            self.takes = false;
            fence_leader(self.rt, self.place, self.leader)?;
            return Ok(None);
        }
        self.print(&first.head)?;
        self.wait_for_quiet(first)
    }

    /// Waits until the log has not changed for long enough, and answers its term.
    fn wait_for_quiet(&mut self, first: LogView) -> Result<Option<u64>, ClusterFault> {
        let mut before = first;
        let wanted = self.quiet_looks();
        let mut quiet = 0u64;
        for _ in 0..u64::MAX {
            if quiet >= wanted {
                break;
            }
            thread::sleep(self.rt, Duration::from_millis(PAUSE));
            let Some(now) = self.look()? else {
                return self.create_unled();
            };
            quiet = match now.is_same(&before) {
                true => quiet.saturating_add(1),
                false => 0,
            };
            before = now;
        }
        Ok(Some(before.head.term()))
    }

    /// The number of looks, each after a pause, that must find no change. Looks are counted, not time: a process that
    /// was stopped meanwhile has made none.
    fn quiet_looks(&self) -> u64 {
        let mut random = [0; 2];
        let longer = match self.rt.fill_bytes(&mut random) {
            Ok(()) => u64::from(u16::from_le_bytes(random)) % MOST_LONGER,
            Err(_) => 0,
        };
        let wanted = u64::from(self.leader.quiet).saturating_mul(1_000);
        wanted.saturating_add(longer).div_ceil(PAUSE)
    }

    /// A look at the log; `None` if it does not exist.
    fn look(&mut self) -> Result<Option<LogView>, ClusterFault> {
        let Ok(found) = self.engine.find_head() else {
            return Err(self.fault());
        };
        let Some(head) = found else {
            return Ok(None);
        };
        if is_unfinished_move(&head) {
            let alloc = self.rt.alloc();
            return Err(ClusterFault::of_log(alloc, self.place, LogFault::MoveUnfinished));
        }
        let Ok(beat) = self.engine.find_beat() else {
            return Err(self.fault());
        };
        Ok(Some(LogView { head, beat }))
    }

    /// Creates the log, and answers its term: that of a log which no server has led.
    fn create_unled(&mut self) -> Result<Option<u64>, ClusterFault> {
        self.create()?;
        Ok(Some(0))
    }

    fn create(&mut self) -> Result<(), ClusterFault> {
        let address = self.leader.address.as_str();
        create_log(self.rt, self.place, self.asked, &mut self.engine, address)
    }

    fn fault(&self) -> ClusterFault {
        ClusterFault::of_call(self.rt.alloc(), self.place, &self.engine)
    }

    /// Prints the address of the leader.
    fn print(&self, head: &Head) -> Result<(), ClusterFault> {
        let address = escape_controls(self.rt.alloc(), head.address())?;
        match println!(self.rt; "standby behind {address}") {
            Ok(()) => Ok(()),
            Err(_) => Err(ClusterFault::Cli(CliFault::WriteFailed)),
        }
    }
}

impl LogView {
    /// Whether nothing has changed between two looks.
    fn is_same(&self, other: &LogView) -> bool {
        self.head.is_same(&other.head) && self.beat == other.beat
    }
}
