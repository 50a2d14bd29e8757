//! A state in a log in a cluster, with its log.

ghost use Rattle.std.specs.Prelude.{◌≡◌, Some, true};

use crate::noted_engine::NotedEngine;
use rme_durable_file::{OpenedState, StateFile};
use rme_durable_log::{LogStore, NotDurable, OpenLog};
use rme_durable_metrics::{MeteredStore, WriteSample};
use rme_durable_server::{LeaderNote, StateAndLog};
use rme_metrics::LogCounters;
use rme_replica_state::ReplicaState;

/// The log in a cluster as the store of a server, whose writes are counted.
#[derive(Drop)]
pub(crate) struct ClusterLog<'a> {
    metered: MeteredStore<'a, StateFile<'a, ReplicaState<NotedEngine<'a>>>, HostRuntime>,
}

/// Each call is as that of the state in the log. The type has one lifetime, as a call that chooses the tag of a log asks
/// for.
impl LogStore for ClusterLog<'_> {
    ghost use Rattle.std.specs.Prelude.{true};
    ghost use Rattle.rme_durable_file.specs.FileStores.{store_state};

    ghost holds = { λ served. store_state true served.metered.store };

    ghost shared = { true };

    fn append(&mut self, lines: &[u8]) -> Result<(), NotDurable> {
        self.metered.append(lines)
    }

    fn replace(&mut self, bytes: &[u8]) -> Result<(), NotDurable> {
        self.metered.replace(bytes)
    }

    fn is_quick(&self) -> bool {
        self.metered.is_quick()
    }

    fn is_shared(&self) -> bool {
        self.metered.is_shared()
    }

    fn fail(&mut self) {
        self.metered.fail();
    }
}

/// A state whose log was claimed by this leader, with this log, to which nothing was appended since then. Its writes are
/// counted if counters are given.
pub(crate) fn state_and_cluster_log<'a>(
    rt: &'a HostRuntime,
    counters: Option<&'a LogCounters>,
    opened: OpenedState<'a, ReplicaState<NotedEngine<'a>>>,
    leader: LeaderNote,
) -> StateAndLog<ClusterLog<'a>>
    requires works { opened.file.works ≡ true }
    requires barriers { opened.file.barriers ≡ 0 }
    ensures names { result.names ≡ opened.entry.names }
    ensures executor { result.executor ≡ opened.entry.executor }
    ensures leader { result.leader ≡ Some leader }
{
    StateAndLog {
        names: opened.names,
        executor: opened.executor,
        log: OpenLog::new(ClusterLog {
            metered: MeteredStore {
                store: opened.file,
                counters,
                sample: WriteSample::new(),
                clock: rt,
            },
        }),
        leader: Some(leader),
    }
}
