//! Taking the lead of a log from its leader at once.

use rme_cli_cluster::{ClusterFault, new_writer, open_cluster, storing_limits};
use rme_cli_options::{EtcdPlace, LeaderSetting};
use rme_replica::{Claimant, Ownership, ReplicaLog};

/// The most claims of a log whose leader changes it each time between the look at its head and the claim.
const CLAIMS: u32 = 1_000;

/// Claims the log without any lines, so that its leader adds nothing more. Then the log stays the same until this server
/// has read it and claims it again with the first lines of its start. If the leader was faster each time, it still
/// leads.
pub(crate) fn fence_leader(
    rt: &HostRuntime,
    place: &EtcdPlace,
    leader: &LeaderSetting,
) -> Result<(), ClusterFault> {
    let alloc = rt.alloc();
    let mut engine = open_cluster(rt, place, storing_limits(place))?;
    for _ in 0..CLAIMS {
        let Ok(found) = engine.find_head() else {
            return Err(ClusterFault::of_call(alloc, place, &engine));
        };
        let Some(head) = found else {
            return Ok(());
        };
        let by = Claimant {
            address: String::from_str(alloc, leader.address.as_str())?,
            writer: new_writer(rt)?,
        };
        let copy = head.copy(alloc)?;
        let mut log = ReplicaLog::new(engine, head, copy);
        let claimed = log.claim(alloc, by, &[]);
        let ownership = log.ownership();
        engine = log.into_engine();
        match (claimed, ownership) {
            (Ok(()), _) => return Ok(()),
            (Err(_), Ownership::Fenced) => {}
            (Err(_), _) => return Err(ClusterFault::of_call(alloc, place, &engine)),
        }
    }
    Ok(())
}
