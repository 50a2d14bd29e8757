//! The watch of a server over its log in a cluster, and its report when it ends.

use crate::lead_note::{LeadNote, LeadOutcome};
use rme_cli_cluster::{ClusterFault, LogFault, asking_limits, open_cluster};
use rme_cli_durable::StateWatch;
use rme_cli_messages::{Stderr, escape_controls};
use rme_cli_options::EtcdPlace;
use std::alloc::AllocError;

/// The watch over a log in a cluster.
#[derive(Drop)]
pub(crate) struct LeadWatch<'a> {
    pub(crate) place: &'a EtcdPlace,
    pub(crate) note: &'a LeadNote,
}

impl StateWatch for LeadWatch<'_> {
    /// Only the log itself can tell.
    fn is_lost(&self, _rt: &HostRuntime) -> bool {
        false
    }

    fn asks_log(&self) -> bool {
        true
    }

    fn tell(&self, _rt: &HostRuntime, _stderr: &Stderr<'_>) {}

    fn tell_end(&self, rt: &HostRuntime, stderr: &Stderr<'_>) {
        stderr.tell(self.end_text(rt));
    }

    fn bytes(&self, _rt: &HostRuntime) -> u64 {
        self.note.bytes()
    }
}

impl LeadWatch<'_> {
    /// Why the server ends.
    fn end_text(&self, rt: &HostRuntime) -> Result<String, AllocError> {
        let alloc = rt.alloc();
        let name = self.place.name.as_str();
        match self.note.last() {
            LeadOutcome::Overtaken => {
                let leader = self.leader(rt)?;
                format!(in alloc;
                    "fault: {leader} has taken over etcd:{name}: nothing more is answered here\n"
                )
            }
            LeadOutcome::Lost(why) => {
                let fault = ClusterFault::Log(String::from_str(alloc, name)?, LogFault::Call(why));
                format!(in alloc; "fault: {fault}\n")
            }
            LeadOutcome::Own => {
                format!(in alloc;
                    "fault: an event can't be written to etcd:{name}: no memory, or the log is full\n"
                )
            }
        }
    }

    /// The address of the server that leads the log now, if the cluster answers.
    fn leader(&self, rt: &HostRuntime) -> Result<String, AllocError> {
        let alloc = rt.alloc();
        if let Ok(mut engine) = open_cluster(rt, self.place, asking_limits(self.place)) {
            if let Ok(Some(head)) = engine.find_head() {
                return escape_controls(alloc, head.address());
            }
        }
        String::from_str(alloc, "another server")
    }
}
