//! Opening a log: the addresses of the nodes, the user, and the time that calls may take.

use crate::cluster_fault::ClusterFault;
use rme_cli_messages::{BadArgument, CliFault, escape_controls};
use rme_cli_options::{EtcdLogin, EtcdPlace};
use rme_etcd::{CallLimits, Endpoint, EtcdEngine, EtcdUser};
use std::fs;
use std::net::ToSocketAddrs;
use std::random::RandomSource;
use std::time::Duration;

/// The number of tries at nodes that keep silent for which the time of a call is enough.
const TRIES: u32 = 3;

/// The most seconds that one try of a store has.
const STORE_TRY: u64 = 1;

/// The limits of calls that are made once: each has the patience that was asked for.
pub fn asking_limits(place: &EtcdPlace) -> CallLimits {
    let patience = patience_of(place);
    CallLimits {
        one_try: patience / TRIES,
        call: patience,
    }
}

/// The limits of the calls of a store, which tries each again: all tries together have the patience.
pub fn storing_limits(place: &EtcdPlace) -> CallLimits {
    CallLimits::of_patience(patience_of(place), Duration::from_secs(STORE_TRY))
}

fn patience_of(place: &EtcdPlace) -> Duration {
    Duration::from_secs(u64::from(place.patience))
}

/// The engine of a log. The names of nodes are looked up and the password is read; no node is asked yet.
pub fn open_cluster(
    rt: &HostRuntime,
    place: &EtcdPlace,
    limits: CallLimits,
) -> Result<EtcdEngine, ClusterFault> {
    let user = match &place.login {
        Some(login) => Some(user_of(rt, login)?),
        None => None,
    };
    let endpoints = endpoints_of(rt, place)?;
    Ok(EtcdEngine::new(rt.clone()?, place.name.as_str(), endpoints, user, limits)?)
}

/// The endpoints of the nodes, one for each address that a node has.
fn endpoints_of(rt: &HostRuntime, place: &EtcdPlace) -> Result<Vec<Endpoint>, ClusterFault> {
    let mut endpoints = Vec::new(rt.alloc());
    for node in place.engines.as_slice() {
        push_endpoints(&mut endpoints, rt, node.as_str())?;
    }
    Ok(endpoints)
}

/// Adds the endpoints of a node.
fn push_endpoints(
    endpoints: &mut Vec<Endpoint>,
    rt: &HostRuntime,
    node: &str,
) -> Result<(), ClusterFault> {
    let addresses = match node.to_socket_addrs(rt) {
        Ok(addresses) => addresses,
        Err(why) => return Err(ClusterFault::UnknownNode(escape_controls(rt.alloc(), node)?, why)),
    };
    for address in addresses {
        let endpoint = Endpoint::new(rt.alloc(), node, address)?;
        endpoints.push(endpoint).map_err(|_| CliFault::NoMemory)?;
    }
    Ok(())
}

/// The user, with the password: the first line of its file.
fn user_of(rt: &HostRuntime, login: &EtcdLogin) -> Result<EtcdUser, ClusterFault> {
    let path = login.password_file.as_str();
    if path.is_empty() {
        return Err(ClusterFault::Cli(CliFault::BadArguments(BadArgument::NoFile(
            "--password-file",
        ))));
    }
    let text = match fs::read_to_string(rt, path) {
        Ok(text) => text,
        Err(why) => return Err(ClusterFault::PasswordUnread(why)),
    };
    let line = text.as_str().lines().next().unwrap_or("");
    Ok(EtcdUser {
        name: String::from_str(rt.alloc(), login.user.as_str())?,
        password: String::from_str(rt.alloc(), line)?,
    })
}

/// The mark of a new run of a writer: random, so that no two heads are ever equal.
pub fn new_writer(rt: &HostRuntime) -> Result<[u8; 12], ClusterFault> {
    let mut writer = [0; 12];
    match rt.fill_bytes(&mut writer) {
        Ok(()) => Ok(writer),
        Err(why) => Err(ClusterFault::NoRandom(why)),
    }
}
