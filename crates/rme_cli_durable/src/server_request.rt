//! What a server is asked for: its limits and settings, and its state.

use crate::requested_state::ServerConfig;
use rme_cli_options::{Diagnostics, DurableServeTask, ListenAddresses, SyncPolicy, WaitingPolicy};
use rme_durable_server::{ServerSetting, WaitingJobs};
use rme_line_diagnose::SessionWords;
use rme_session_server::ServerLimits;

/// The limits of the server.
pub fn limits_of(task: &DurableServeTask) -> ServerLimits {
    ServerLimits {
        connections: None,
        at_once: task.at_once,
        idle: task.idle,
        tells_why: match task.diagnostics {
            Diagnostics::Why => Some(SessionWords {
                has_look_ups: true,
                has_secrets: task.keys.is_some(),
                has_spaces: false,
            }),
            Diagnostics::Nothing => None,
        },
    }
}

/// What the server is asked for, beside its state.
pub fn setting_of(task: &DurableServeTask) -> ServerSetting {
    ServerSetting {
        sections: task.sections,
        waiting: match task.waiting {
            WaitingPolicy::Keep => WaitingJobs::Keep,
            WaitingPolicy::Withdraw => WaitingJobs::Withdraw,
        },
    }
}

/// The requested state, the addresses, and the file of the keys.
pub fn split_task(task: DurableServeTask) -> (ServerConfig, ListenAddresses, Option<String>) {
    let DurableServeTask {
        state,
        workers,
        cells,
        jobs,
        places,
        sync,
        keys,
        locks,
        ..
    } = task;
    let asked = ServerConfig {
        path: state,
        workers,
        cells,
        jobs,
        locks,
        syncs: sync == SyncPolicy::Always,
    };
    (asked, places, keys)
}
