//! The next stance of each step. A stance in which the step does not begin is unchanged.

ghost use Rattle.std.specs.Prelude.{◌≡◌};
ghost use Rattle.rme_machine.specs.Machine.{stance_after_crash};
ghost use Rattle.rme_core_checker.specs.Deciding.{stance_after_ask, stance_after_take, stance_after_finish, stance_script};

use rme_machine::JobStance;
use rme_script::Script;

/// A worker with a submitted job waits with it under this number.
pub fn stance_after_ask(number: u32, stance: JobStance) -> JobStance
    ensures { result ≡ stance_after_ask number stance }
{
    match stance {
        JobStance::Handed(job) => JobStance::Waiting(number, job),
        _ => stance,
    }
}

/// A waiting worker is inside.
pub fn stance_after_take(stance: JobStance) -> JobStance
    ensures { result ≡ stance_after_take stance }
{
    match stance {
        JobStance::Waiting(number, job) => JobStance::Inside(number, job),
        _ => stance,
    }
}

/// A worker inside has finished.
pub fn stance_after_finish(stance: JobStance) -> JobStance
    ensures { result ≡ stance_after_finish stance }
{
    match stance {
        JobStance::Inside(number, job) => JobStance::Finished(number, job),
        _ => stance,
    }
}

/// A crash drops a job that has no number yet.
pub fn stance_after_crash(stance: JobStance) -> JobStance
    ensures { result ≡ stance_after_crash stance }
{
    match stance {
        JobStance::Handed(_) => JobStance::Idle,
        _ => stance,
    }
}

/// The script of the section that a worker is inside; an empty one if it is inside none.
pub fn stance_script(stance: &JobStance) -> Script
    ensures { result ≡ stance_script stance.now }
{
    match stance {
        JobStance::Inside(_, job) => job.script,
        _ => Script::of(&[]),
    }
}
