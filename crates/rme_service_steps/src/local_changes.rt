//! The changes of a worker's part before the first step of a call. A change is made together with that step.

ghost use Rattle.rme_script.specs.declared.job.Job.{Job};
ghost use Rattle.rme_service_steps.specs.declared.seat_record.Part.{Part};

use std::marker::{Brand, PhantomData};

/// A change of a worker's part that is not a step.
pub trait LocalChange {
    ghost lead: { Part → Part };
}

/// A job, in proofs only.
pub trait JobTag {
    ghost job: { Job };
}

impl JobTag for Brand {
    ghost use Rattle.rme_service_steps.specs.Placeholders.{no_job};

    ghost job = { no_job };
}

/// No change before the step.
pub struct NoChange;

impl LocalChange for NoChange {
    ghost use Rattle.rme_service_steps.specs.Parts.{unchanged_part};

    ghost lead = { unchanged_part };
}

/// The worker crashed, and restarts.
pub struct Restart;

impl LocalChange for Restart {
    ghost use Rattle.rme_service_steps.specs.Parts.{restarted_part};

    ghost lead = { restarted_part };
}

/// The worker was given a job.
pub struct Submit<J: JobTag> {
    job: PhantomData<J>,
}

impl<J: JobTag> LocalChange for Submit<J> {
    ghost use Rattle.rme_service_steps.specs.Parts.{submitted_part};

    ghost lead = { submitted_part J.job };
}

/// The worker gives up its job.
pub struct Withdraw;

impl LocalChange for Withdraw {
    ghost use Rattle.rme_service_steps.specs.Parts.{withdrawing_part};

    ghost lead = { withdrawing_part };
}
