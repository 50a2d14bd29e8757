//! The checks before and after a run.

ghost use Rattle.std.specs.Prelude.{◌≡◌, ◌↔◌, IsTrue, true, length, take};
ghost use Rattle.rme_supervisor.specs.Plans.{CountsRise, IsWorkerPlan, AreWorkerPlans, planned_jobs};
ghost use Rattle.rme_supervisor.specs.Supervised.{AreAllDowns, AllEntriesFollowPlans, EntriesFollowPlan, DownsFollowPlans, all_fresh, job_of_entry, jobs_of_entries};

use crate::end::End;
use crate::plan::{Schedule, WorkerPlan};
use rme_history::EntryList;
use rme_program::Entry;
use rme_script::Job;
use rme_table::Down;
use rme_words::Shape;

/// Whether there are `count` plans, and each can be supervised.
pub(crate) fn are_worker_plans(plans: &[WorkerPlan], count: usize) -> bool
    ensures { IsTrue result ↔ AreWorkerPlans plans.now count }
{
    if plans.len() != count {
        return false;
    }
    for plan in plans {
        if !is_worker_plan(plan) {
            return false;
        }
    }
    true
}

/// Whether the falls of a plan increase strictly, and its lives and sweeps are not 0.
fn is_worker_plan(plan: &WorkerPlan) -> bool
    ensures { IsTrue result ↔ IsWorkerPlan plan.now }
{
    plan.lives != 0 && plan.sweeps != 0 && is_rising(plan.falls.as_slice())
}

/// Whether each count is less than the next.
fn is_rising(counts: &[u32]) -> bool
    ensures { IsTrue result ↔ CountsRise counts.now }
{
    for i in 1..counts.len() {
        if counts[i - 1] >= counts[i] {
            return false;
        }
    }
    true
}

/// Whether no worker has an entry or a draft.
pub(crate) fn are_fresh(downs: &[Down]) -> bool
    ensures { result ≡ all_fresh downs.now }
{
    for down in downs {
        if !down.fresh() {
            return false;
        }
    }
    true
}

/// Whether these are the Downs of all workers, in order, and the entries of each follow its plan, if all were fresh.
pub(crate) fn are_downs_as_planned(
    fresh: bool,
    schedule: &Schedule<'_>,
    downs: &[Down],
    ends: &[End],
    shape: Shape,
) -> bool
    requires plans { length schedule.now.plans.now ≡ shape.workers }
    requires ends { length ends.now ≡ length downs.now }
    ensures { IsTrue result
        ↔ DownsFollowPlans shape schedule.now.rounds schedule.now.plans.now fresh downs.now ends.now }
{
    if !are_all_downs(downs, shape) {
        return false;
    }
    are_entries_as_planned(fresh, schedule, downs, ends)
}

/// Whether these are the Downs of all workers, in order.
fn are_all_downs(downs: &[Down], shape: Shape) -> bool
    ensures { IsTrue result ↔ AreAllDowns shape downs.now }
{
    if downs.len() != shape.workers() as usize {
        return false;
    }
    for worker in 0..downs.len() {
        if downs[worker].worker() as usize != worker {
            return false;
        }
    }
    true
}

/// Whether the entries of each worker follow its plan, if all were fresh.
fn are_entries_as_planned(
    fresh: bool,
    schedule: &Schedule<'_>,
    downs: &[Down],
    ends: &[End],
) -> bool
    requires plans { length schedule.now.plans.now ≡ length downs.now }
    requires ends { length ends.now ≡ length downs.now }
    ensures { IsTrue result
        ↔ (fresh ≡ true → AllEntriesFollowPlans schedule.now.rounds schedule.now.plans.now downs.now ends.now) }
{
    let Schedule { plans, rounds } = *schedule;
    if !fresh {
        return true;
    }
    for worker in 0..downs.len() {
        if !is_plan_followed(
            &plans[worker],
            rounds,
            downs[worker].entries(),
            ends[worker],
        ) {
            return false;
        }
    }
    true
}

/// Whether entries are the first jobs of a plan, in order, each once, and all of them if the end is AllDone.
fn is_plan_followed(plan: &WorkerPlan, rounds: u32, entries: &EntryList, end: End) -> bool
    ensures { IsTrue result ↔ EntriesFollowPlan rounds plan.now entries.now.entries end }
{
    are_first_jobs(plan, rounds, entries)
        && (end != End::AllDone || plan.job(rounds, entries.len()).is_none())
}

/// Whether entries are the first jobs of a plan, in order, each once.
fn are_first_jobs(plan: &WorkerPlan, rounds: u32, entries: &EntryList) -> bool
    ensures { IsTrue result
        ↔ (jobs_of_entries entries.now.entries ≡ take (length entries.now.entries) (planned_jobs rounds plan.now)) }
{
    for i in 0..entries.len() {
        let Some(entry) = entries.get(i) else {
            unreachable!();
        };
        let Some(job) = plan.job(rounds, i) else {
            return false;
        };
        if !is_of_job(&entry, job) {
            return false;
        }
    }
    true
}

/// Whether an entry is of this job.
fn is_of_job(entry: &Entry, job: &Job) -> bool
    ensures { IsTrue result ↔ (job_of_entry entry.now ≡ job.now) }
{
    entry.receipt.lock == job.lock && entry.script.same(&job.script)
}
