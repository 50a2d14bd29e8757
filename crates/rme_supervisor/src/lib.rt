//! Supervised workers: each has a keeper thread, which starts a thread for each of its lives.
//!
//! A plan gives the jobs of a worker, its falls, and its greatest numbers of lives and blocked sweeps. A life recovers,
//! continues the pending job, and posts the plan's jobs from the next one on, until the worker falls or ends. Between
//! two lives its Down is in a locked slot, whose type names the service. The crate stands on rme_table, whose values
//! the lives hold.
//!
//! The crates above use the contracts of `attend` and of `supervise` (`specs/Supervised.antt`), which also closes the
//! service as `Service::close` does: each end has its stated condition, each fall is where its plan says, and the
//! entries of workers that began without any are the first jobs of their plans. Begin with `plan.rt` and `run.rt`.
#![tactic(auto)]

mod checking;
mod end;
mod fall_countdown;
mod keeping;
mod life;
mod life_results;
mod life_stop;
mod plan;
mod report;
mod run;
mod run_tag;
mod slots;
mod worker_slot;

pub use end::End;
pub use plan::{RunContext, Schedule, WorkerPlan};
pub use report::{Attended, Fault, Report, Unattended};
pub use rme_table::{Free, Gate};
pub use run::{attend, supervise};
