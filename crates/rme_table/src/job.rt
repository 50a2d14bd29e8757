//! The job of a worker that waits, or that is inside with its job pending.

ghost use Rattle.std.specs.Prelude.{◌≡◌, true};
ghost use Rattle.rme_service_steps.specs.Parts.{draft_script};
ghost use Rattle.rme_service_phases.specs.Sections.{has_unfinished_job};

use rme_script::{Job, Script};
use rme_service_phases::read_script;
use rme_service_steps::{WordTable, WorkerSeat};

/// The worker's job on this lock, with its script read from the worker's slate. No step is made.
pub(crate) fn read_job(seat: &mut WorkerSeat, service: &WordTable, lock: u32) -> Job
    requires ours { seat.old.ident ≡ service.now }
    requires waiting { has_unfinished_job seat.old.part.private.stage ≡ true }
    ensures same { seat.new ≡ seat.old }
    ensures job { result ≡ record { lock = lock; script = draft_script seat.old.part.draft } }
{
    let mut script = Script::of(&[]);
    read_script(seat, service, &mut script);
    Job { lock, script }
}
