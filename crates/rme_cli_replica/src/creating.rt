//! Creating a log.

use rme_cli_cluster::{ClusterFault, new_writer};
use rme_cli_durable::{ServerConfig, first_lines};
use rme_cli_messages::CliFault;
use rme_cli_options::EtcdPlace;
use rme_etcd::EtcdEngine;
use rme_replica::{Added, Head};
use rme_replica_state::first_record;

/// Creates the log of a new state, unless a log of this name exists by then. No server leads it yet.
pub(crate) fn create_log(
    rt: &HostRuntime,
    place: &EtcdPlace,
    asked: &ServerConfig,
    engine: &mut EtcdEngine,
    address: &str,
) -> Result<(), ClusterFault> {
    let alloc = rt.alloc();
    let lines = first_lines(rt, asked)?;
    let Ok(record) = first_record(alloc, lines.as_bytes()) else {
        return Err(ClusterFault::Cli(CliFault::NoMemory));
    };
    let mut head = Head::new(String::from_str(alloc, address)?, 0, new_writer(rt)?);
    head.set_place(0, 1);
    match engine.create(&head, record.as_slice()) {
        // Where another one was created meanwhile, that is the log.
        Ok(Added::Made | Added::Moved(_)) => Ok(()),
        Err(_) => Err(ClusterFault::of_call(alloc, place, engine)),
    }
}
