//! Whether a server leads a log: one that does changes something each second.

use crate::cluster_fault::ClusterFault;
use rme_cli_options::EtcdPlace;
use rme_etcd::EtcdEngine;
use rme_replica::{Head, Lost};
use std::thread;
use std::time::{Duration, Instant};

/// The pause between two looks, in milliseconds.
const PAUSE: u64 = 100;

/// What a log shows of its leader at some moment.
#[derive(Drop)]
pub struct LeaderView {
    head: Option<Head>,
    beat: Option<Vec<u8>>,
    /// When it was asked for; `None` if the clock cannot be read.
    since: Option<Instant>,
}

impl LeaderView {
    /// Looks once.
    pub fn look(
        rt: &HostRuntime,
        place: &EtcdPlace,
        engine: &mut EtcdEngine,
    ) -> Result<LeaderView, ClusterFault> {
        match LeaderView::try_look(rt, engine) {
            Ok(view) => Ok(view),
            Err(Lost) => Err(ClusterFault::of_call(rt.alloc(), place, engine)),
        }
    }

    fn try_look(rt: &HostRuntime, engine: &mut EtcdEngine) -> Result<LeaderView, Lost> {
        Ok(LeaderView {
            since: Instant::now(rt).ok(),
            head: engine.find_head()?,
            beat: engine.find_beat()?,
        })
    }

    /// The head, if there is a log.
    pub fn head(&self) -> Option<&Head> {
        self.head.as_ref()
    }

    /// The time since the look.
    pub fn age(&self, rt: &HostRuntime) -> Duration {
        match &self.since {
            Some(since) => since.elapsed(rt).unwrap_or(Duration::ZERO),
            None => Duration::ZERO,
        }
    }

    /// Looks again, a tenth of a second after each look, until something has changed. Answers the last view before the
    /// change; `None` if this number of looks found no change.
    pub fn until_changed(
        self,
        rt: &HostRuntime,
        place: &EtcdPlace,
        engine: &mut EtcdEngine,
        looks: u32,
    ) -> Result<Option<LeaderView>, ClusterFault> {
        let mut before = self;
        for _ in 0..looks {
            thread::sleep(rt, Duration::from_millis(PAUSE));
            let now = LeaderView::look(rt, place, engine)?;
            if !now.is_same(&before) {
                return Ok(Some(before));
            }
            before = now;
        }
        Ok(None)
    }

    /// Whether nothing has changed between two views.
    fn is_same(&self, other: &LeaderView) -> bool {
        let is_same_head = match (&self.head, &other.head) {
            (Some(head), Some(other)) => head.is_same(other),
            (None, None) => true,
            _ => false,
        };
        is_same_head && self.beat == other.beat
    }
}
