//! The command itself.

use crate::leader_line::push_leader;
use rme_cli_cluster::{
    ClusterFault, LeaderView, LogFault, asking_limits, end_of_command, is_unfinished_move,
    open_cluster,
};
use rme_cli_look::{print_logged_state, run_look};
use rme_cli_messages::CliFault;
use rme_cli_options::{EtcdPlace, LookTask, OutputFormat};
use rme_etcd::EtcdEngine;
use rme_replica::{Head, LogEngine};

/// The number of looks, a tenth of a second apart, after which a log without a change counts as led by no server.
const LOOKS: u32 = 20;

/// Prints the contents of a file or of a log in a cluster, and answers the status.
pub fn run_any_look(rt: &HostRuntime, task: LookTask) -> Result<u8, CliFault> {
    let LookTask { state, log, form } = task;
    match log {
        Some(place) => end_of_command(rt, look_at_log(rt, &place, state.as_str(), form)),
        None => run_look(rt, LookTask { state, log, form }),
    }
}

/// Prints the contents of a log, which faults call by this word. The leader's line stands before tables.
fn look_at_log(
    rt: &HostRuntime,
    place: &EtcdPlace,
    word: &str,
    form: OutputFormat,
) -> Result<u8, ClusterFault> {
    let mut engine = open_cluster(rt, place, asking_limits(place))?;
    let has_tables = matches!(form, OutputFormat::Tables | OutputFormat::AllTables);
    let change = if has_tables {
        last_change(rt, place, &mut engine)?
    } else {
        None
    };
    let (head, bytes) = read_log(rt, place, &mut engine)?;
    let mut text = String::new(rt.alloc());
    if has_tables {
        push_leader(&mut text, rt, &head, change)?;
    }
    Ok(print_logged_state(rt, text, word, bytes.as_slice(), form)?)
}

/// The last view before something changed in a log; `None` if nothing does. If there is no log, this is a fault.
fn last_change(
    rt: &HostRuntime,
    place: &EtcdPlace,
    engine: &mut EtcdEngine,
) -> Result<Option<LeaderView>, ClusterFault> {
    let first = LeaderView::look(rt, place, engine)?;
    if first.head().is_none() {
        return Err(ClusterFault::of_log(rt.alloc(), place, LogFault::NoLog));
    }
    first.until_changed(rt, place, engine, LOOKS)
}

/// The head of a log, and its bytes.
fn read_log(
    rt: &HostRuntime,
    place: &EtcdPlace,
    engine: &mut EtcdEngine,
) -> Result<(Head, Vec<u8>), ClusterFault> {
    let Ok((head, bytes)) = engine.read(rt.alloc()) else {
        return Err(ClusterFault::of_call(rt.alloc(), place, engine));
    };
    if is_unfinished_move(&head) {
        return Err(ClusterFault::of_log(rt.alloc(), place, LogFault::MoveUnfinished));
    }
    Ok((head, bytes))
}
