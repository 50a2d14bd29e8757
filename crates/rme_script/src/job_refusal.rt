//! Why a worker is refused a job.

use crate::job::Job;
use rme_words::{Refusal, Shape};

impl Job {
    ghost use Rattle.std.specs.Prelude.{◌≡◌, ◌<◌, None};
    ghost use Rattle.rme_script.specs.JobRefusals.{job_refusal};
    ghost use Rattle.rme_script.specs.Jobs.{IsJob};

    /// Why a worker of the shape that has begun this number of jobs is refused this one; `None` if it is not.
    ///
    /// In order of priority: `NoLock` if there is no such lock, `BadScript` if the script has more than 8 operations,
    /// `NoCell` if it names a cell that is not there, and `TooManyJobs` if the worker has begun as many jobs as the
    /// shape has.
    pub fn refusal(&self, shape: Shape, begun: u32) -> Option<Refusal>
        ensures exact { result ≡ job_refusal shape begun self.now }
        ensures may { result ≡ None → IsJob shape self.now × (begun < shape.jobs) }
    {
        if self.lock >= shape.locks {
            return Some(Refusal::NoLock);
        }
        if let Err(refusal) = self.script.check(shape) {
            return Some(refusal);
        }
        if begun >= shape.jobs {
            return Some(Refusal::TooManyJobs);
        }
        None
    }
}
