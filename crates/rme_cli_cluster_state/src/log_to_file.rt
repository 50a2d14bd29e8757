//! A state from a log to a file.

use crate::move_fault::MoveFault;
use crate::moved_state::{MovedState, moved_state};
use rme_cli_cluster::{
    ClusterFault, LeaderView, LogFault, asking_limits, is_unfinished_move, open_cluster,
};
use rme_cli_messages::{CliFault, escape_controls};
use rme_cli_options::EtcdPlace;
use rme_durable_file::{ContentsError, contents_fault, create_whole, write_end};
use rme_etcd::EtcdEngine;
use rme_replica::{Head, LogEngine};
use std::fs;
use std::io::ErrorKind;

/// The number of looks, a tenth of a second apart, that must find no change in a log before it is moved.
const LOOKS: u32 = 30;

/// Moves the state of a log that no server leads to a file that does not exist yet.
pub(crate) fn move_to_file(
    rt: &HostRuntime,
    place: &EtcdPlace,
    path: &str,
) -> Result<MovedState, MoveFault> {
    check_no_file(rt, path)?;
    let mut engine = open_cluster(rt, place, asking_limits(place))?;
    check_quiet(rt, place, &mut engine)?;
    let Ok((head, bytes)) = engine.read(rt.alloc()) else {
        return Err(MoveFault::from(ClusterFault::of_call(rt.alloc(), place, &engine)));
    };
    let name = place.name.as_str();
    let word = format!(in rt.alloc(); "etcd:{name}")?;
    let state = moved_state(rt, word.as_str(), bytes.as_slice())?;
    if state.torn > 0 {
        // A record is all of a write: nothing may be left over.
        let line = write_end(bytes.as_slice(), bytes.len().saturating_sub(state.torn));
        let why = ContentsError::Changed(line);
        return Err(MoveFault::from(contents_fault(rt, word.as_str(), why)?));
    }
    check_unchanged(rt, place, &mut engine, &head)?;
    match create_whole(rt, path, state.write.as_slice()) {
        Ok(()) => Ok(state),
        Err(error) if error.kind() == ErrorKind::AlreadyExists => Err(file_there(rt, path)?),
        Err(error) => {
            let kind = error.kind();
            let path = escape_controls(rt.alloc(), path)?;
            Err(MoveFault::from(CliFault::on_file(kind, CliFault::StateUnwritten(path, error))))
        }
    }
}

/// Refuses a file that exists.
fn check_no_file(rt: &HostRuntime, path: &str) -> Result<(), MoveFault> {
    match fs::symlink_metadata(rt, path) {
        Ok(_) => Err(file_there(rt, path)?),
        Err(_) => Ok(()),
    }
}

/// Refuses a log that does not exist, or that a server leads.
fn check_quiet(
    rt: &HostRuntime,
    place: &EtcdPlace,
    engine: &mut EtcdEngine,
) -> Result<(), MoveFault> {
    let first = LeaderView::look(rt, place, engine)?;
    let address = match first.head() {
        None => return Err(log_fault(rt, place, LogFault::NoLog)),
        Some(head) if is_unfinished_move(head) => {
            return Err(log_fault(rt, place, LogFault::MoveUnfinished));
        }
        Some(head) => escape_controls(rt.alloc(), head.address())?,
    };
    match first.until_changed(rt, place, engine, LOOKS)? {
        Some(_) => {
            let name = escape_controls(rt.alloc(), place.name.as_str())?;
            Err(MoveFault::Led(name, address))
        }
        None => Ok(()),
    }
}

/// Refuses a log whose head has changed since it was read.
fn check_unchanged(
    rt: &HostRuntime,
    place: &EtcdPlace,
    engine: &mut EtcdEngine,
    head: &Head,
) -> Result<(), MoveFault> {
    match engine.is(head) {
        Ok(true) => Ok(()),
        Ok(false) => Err(MoveFault::Changed(escape_controls(rt.alloc(), place.name.as_str())?)),
        Err(_) => Err(MoveFault::from(ClusterFault::of_call(rt.alloc(), place, engine))),
    }
}

/// A fault with the log.
fn log_fault(rt: &HostRuntime, place: &EtcdPlace, why: LogFault) -> MoveFault {
    MoveFault::from(ClusterFault::of_log(rt.alloc(), place, why))
}

fn file_there(rt: &HostRuntime, path: &str) -> Result<MoveFault, MoveFault> {
    Ok(MoveFault::FileThere(escape_controls(rt.alloc(), path)?))
}
