//! A state from a file to a log.
//!
//! All bytes come to the log at one moment: the log is made with a head that names no state, its next epoch is staged
//! in parts, and then one transaction puts the head that names them.

use crate::move_fault::MoveFault;
use crate::moved_state::{MovedState, moved_state};
use rme_cli_cluster::{
    ClusterFault, MOVER, asking_limits, is_unfinished_move, new_writer, open_cluster,
    storing_limits,
};
use rme_cli_messages::{CliFault, escape_controls};
use rme_cli_options::EtcdPlace;
use rme_durable_file::{StateName, open_state_file};
use rme_durable_log::LogStore;
use rme_etcd::EtcdEngine;
use rme_replica::{Added, Head, LogEngine, Lost, Ownership, ReplicaLog};
use std::fs;

/// The record of a log while a state is moved to it: no start takes it for a state.
const UNFINISHED: &[u8] = b"{\"rme\":\"moving\"}\n";

/// Moves the state of a file, which no server has meanwhile, to a log that is not there yet.
pub(crate) fn move_to_log(
    rt: &HostRuntime,
    path: &str,
    place: &EtcdPlace,
) -> Result<MovedState, MoveFault> {
    let name = StateName::new(String::from_str(rt.alloc(), path)?);
    // Its lock is held until the end.
    let Some(_file) = open_state_file(rt, &name, false)? else {
        return Err(MoveFault::NoFile(escape_controls(rt.alloc(), path)?));
    };
    let bytes = bytes_of(rt, path)?;
    let state = moved_state(rt, path, bytes.as_slice())?;
    let head = claim_new_log(rt, place)?;
    put_bytes(rt, place, head, state.write.as_slice())?;
    tell_torn(rt, path, state.torn)?;
    Ok(state)
}

/// Says how many bytes are left out behind the last write of the file.
fn tell_torn(rt: &HostRuntime, path: &str, torn: usize) -> Result<(), MoveFault> {
    if torn > 0 {
        let path = escape_controls(rt.alloc(), path)?;
        let _ = eprintln!(rt;
            "rme: {torn} bytes at the end of {path} were never known to be with the disk, and are not moved"
        );
    }
    Ok(())
}

/// The bytes of the file.
fn bytes_of(rt: &HostRuntime, path: &str) -> Result<Vec<u8>, MoveFault> {
    match fs::read(rt, path) {
        Ok(bytes) => Ok(bytes),
        Err(error) => {
            let kind = error.kind();
            let path = escape_controls(rt.alloc(), path)?;
            Err(MoveFault::from(CliFault::on_file(kind, CliFault::StateUnread(path, error))))
        }
    }
}

/// Creates the log with a head that names no state, or takes over the log of an unfinished move.
fn claim_new_log(rt: &HostRuntime, place: &EtcdPlace) -> Result<Head, MoveFault> {
    let mut engine = open_cluster(rt, place, asking_limits(place))?;
    let mut head = Head::new(String::from_str(rt.alloc(), MOVER)?, 0, new_writer(rt)?);
    let Ok(found) = engine.find_head() else {
        return Err(MoveFault::from(ClusterFault::of_call(rt.alloc(), place, &engine)));
    };
    let claimed = match found {
        None => {
            head.set_place(0, 1);
            engine.create(&head, UNFINISHED)
        }
        Some(found) if is_unfinished_move(&found) => take_over(&mut engine, &found, &mut head),
        Some(_) => return Err(log_there(rt, place)?),
    };
    match claimed {
        Ok(Added::Made) => Ok(head),
        Ok(Added::Moved(found)) if found.is_same(&head) => Ok(head),
        Ok(Added::Moved(_)) => Err(other_move(rt, place)?),
        Err(_) => Err(MoveFault::from(ClusterFault::of_call(rt.alloc(), place, &engine))),
    }
}

/// Puts a head of this move in the place of the one that an earlier move left.
fn take_over(engine: &mut EtcdEngine, found: &Head, head: &mut Head) -> Result<Added, Lost> {
    if found.sequence() == u64::MAX {
        return Err(Lost);
    }
    let epoch = found.epoch();
    let sequence = found.sequence() + 1;
    head.set_place(epoch, sequence);
    engine.add(found, head, UNFINISHED)
}

/// Puts these bytes in the place of all that the log with this head has.
fn put_bytes(
    rt: &HostRuntime,
    place: &EtcdPlace,
    head: Head,
    bytes: &[u8],
) -> Result<(), MoveFault> {
    let engine = open_cluster(rt, place, storing_limits(place))?;
    let copy = head.copy(rt.alloc())?;
    let mut store = ReplicaLog::new(engine, head, copy);
    if store.replace(bytes).is_ok() {
        return Ok(());
    }
    let is_fenced = store.ownership() == Ownership::Fenced;
    let engine = store.into_engine();
    if is_fenced {
        return Err(other_move(rt, place)?);
    }
    Err(MoveFault::from(ClusterFault::of_call(rt.alloc(), place, &engine)))
}

fn log_there(rt: &HostRuntime, place: &EtcdPlace) -> Result<MoveFault, MoveFault> {
    Ok(MoveFault::LogThere(escape_controls(rt.alloc(), place.name.as_str())?))
}

fn other_move(rt: &HostRuntime, place: &EtcdPlace) -> Result<MoveFault, MoveFault> {
    Ok(MoveFault::OtherMove(escape_controls(rt.alloc(), place.name.as_str())?))
}
