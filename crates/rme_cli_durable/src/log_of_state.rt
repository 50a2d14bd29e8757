//! A state that is opened, with its log.

ghost use Rattle.std.specs.Prelude.{◌≡◌, None, true};

use rme_durable_file::{OpenedState, StateFile, SystemFile};
use rme_durable_log::{LogStore, NotDurable, OpenLog};
use rme_durable_metrics::{MeteredStore, WriteSample};
use rme_durable_server::StateAndLog;
use rme_metrics::LogCounters;

/// The file of a state as the store of its log, whose writes are counted.
#[derive(Drop)]
pub struct ServedLog<'a> {
    metered: MeteredStore<'a, StateFile<'a, SystemFile<'a>>, HostRuntime>,
}

/// Each call is as that of the file. The type has one lifetime, as a call that chooses the tag of a log asks for.
impl LogStore for ServedLog<'_> {
    ghost use Rattle.std.specs.Prelude.{false};
    ghost use Rattle.rme_durable_file.specs.FileStores.{store_state};

    ghost holds = { λ served. store_state false served.metered.store };

    ghost shared = { false };

    fn append(&mut self, lines: &[u8]) -> Result<(), NotDurable> {
        self.metered.append(lines)
    }

    fn replace(&mut self, bytes: &[u8]) -> Result<(), NotDurable> {
        self.metered.replace(bytes)
    }

    fn is_quick(&self) -> bool {
        self.metered.is_quick()
    }

    fn is_shared(&self) -> bool {
        self.metered.is_shared()
    }

    fn fail(&mut self) {
        self.metered.fail();
    }
}

/// A state with a log over its file, which no other server may claim. If there are counters, its writes are counted.
pub fn state_and_log<'a>(
    rt: &'a HostRuntime,
    counters: Option<&'a LogCounters>,
    opened: OpenedState<'a, SystemFile<'a>>,
) -> StateAndLog<ServedLog<'a>>
    requires works { opened.file.works ≡ true }
    ensures names { result.names ≡ opened.entry.names }
    ensures executor { result.executor ≡ opened.entry.executor }
    ensures leader { result.leader ≡ None }
{
    StateAndLog {
        names: opened.names,
        executor: opened.executor,
        log: OpenLog::new(ServedLog {
            metered: MeteredStore {
                store: opened.file,
                counters,
                sample: WriteSample::new(),
                clock: rt,
            },
        }),
        leader: None,
    }
}
