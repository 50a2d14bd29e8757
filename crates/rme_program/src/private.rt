//! The private state of one worker, which a crash loses.

use crate::stage::{Ascent, Departure, Recovery, Slate, Stage};
use rme_script::Job;

/// What one worker knows: its own number, the number of jobs that it has begun, and its stage. A crash loses it all.
#[derive(Clone, Copy)]
pub struct Private {
    pub worker: u32,
    /// The value of the worker's word `begun`, once it is loaded.
    pub begun: u32,
    pub stage: Stage,
}

/// What every step of a worker may write: its own number, and that of the last job that it has begun.
#[derive(Clone, Copy)]
pub struct StepNumbers {
    pub worker: u32,
    pub begun: u32,
}

impl Private {
    ghost use Rattle.std.specs.Prelude.{◌≡◌, ◌<◌};
    ghost use Rattle.rme_words.specs.declared.shape.Shape.{Shape};
    ghost use Rattle.rme_program.specs.Conditions.{IsPrivate};
    ghost use Rattle.rme_script.specs.Jobs.{IsJob};
    ghost use Rattle.rme_program.specs.Steps.{ready_private, restarted_private, submitted_private, withdrawing_private};

    /// The private state of a ready worker; `begun` is the value of its word of that name.
    pub fn ready(worker: u32, begun: u32) -> Private
        ensures { result ≡ ready_private worker begun }
    {
        Private {
            worker,
            begun,
            stage: Stage::Resting,
        }
    }

    /// The private state of a worker that restarts after a crash: it knows only its own number.
    pub fn restart(worker: u32) -> Private
        ensures { result ≡ restarted_private worker }
    {
        Private {
            worker,
            begun: 0,
            stage: Stage::Recovering(Recovery::LoadBegun),
        }
    }

    /// The private state of a ready worker that is given a job of the shape.
    pub fn submit(private: Private, job: Job) -> Private
        requires { private.stage ≡ Stage.Resting }
        ensures { result ≡ submitted_private private job }
    {
        Private {
            stage: Stage::Posting(Slate { job, stored: 0 }),
            ..private
        }
    }

    /// The private state of a worker in phase Enter that withdraws its job.
    pub fn withdraw(private: Private) -> Private
        requires { (ascent : Ascent) × (private.stage ≡ Stage.Climbing ascent) }
        ensures { result ≡ withdrawing_private private }
    {
        match private.stage {
            Stage::Climbing(Ascent { lock, held }) => {
                Private {
                    stage: Stage::Leaving(Departure::WithdrawPlace { lock, held }),
                    ..private
                }
            }
            _ => unreachable!(),
        }
    }
}
