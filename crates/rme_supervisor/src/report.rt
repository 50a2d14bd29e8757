//! The answers of a supervised run.

use crate::end::End;
use rme_table::{Closed, Down, Service};
use rme_words::Refusal;

/// The end of each worker's lives and the number of lives started, and the Downs of all workers at the end, in order.
#[derive(Drop)]
pub struct Attended {
    pub ends: Vec<End>,
    pub lives: Vec<u32>,
    pub downs: Vec<Down>,
}

/// The run was not made, or not all workers came back from it according to their plans: `why` is that of a `Fault`.
#[derive(Drop)]
pub struct Unattended {
    pub why: Refusal,
    pub downs: Vec<Down>,
}

/// The end of each worker's lives, the number of lives started, and the closed service.
#[derive(Drop)]
pub struct Report {
    pub ends: Vec<End>,
    pub lives: Vec<u32>,
    pub closed: Closed,
}

/// The run was not made, or was made and could not be closed; the service and the Downs come back.
///
/// `why` is `BadShape` if the number of plans is not that of the Downs, the falls of a plan do not increase strictly,
/// or its lives or its sweeps are 0: then nothing was done. It is `NoMemory` if memory was refused, before the run or
/// after it. It is `NoWorker` if after the run a Down is missing, or the entries of a worker that began without any are
/// not those of its plan.
#[derive(Drop)]
pub struct Fault {
    pub why: Refusal,
    pub service: Service,
    pub downs: Vec<Down>,
}
