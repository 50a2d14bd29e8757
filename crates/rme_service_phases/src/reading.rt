//! The script of a worker's job, read by reader's loads.

ghost use Rattle.std.specs.Prelude.{◌≡◌, ◌*◌, ◌≤◌, true, take};
ghost use Rattle.rme_script.specs.Slates.{slate_of};
ghost use Rattle.rme_service_steps.specs.Parts.{draft_script};
ghost use Rattle.rme_service_phases.specs.Sections.{has_unfinished_job};

use rme_script::{Script, read_slate};
use rme_service_steps::{WordTable, WorkerSeat, layout};

/// Reads, from its slate, the script of the job with which the worker waits or is inside. It makes no own step, and
/// changes no word.
pub fn read_script(seat: &mut WorkerSeat, service: &WordTable, script: &mut Script)
    requires ours { seat.old.ident ≡ service.now }
    requires waiting { has_unfinished_job seat.old.part.private.stage ≡ true }
    ensures same { seat.new ≡ seat.old }
    ensures script { script.new ≡ draft_script seat.old.part.draft }
{
    let shape = service.shape();
    let worker = seat.worker();
    let operations = seat.load_as_reader(service, layout::slate_len_at(shape, worker));
    let words = read_words(seat, service, operations as u32);
    if !read_slate(operations, &words, script) {
        unreachable!();
    }
}

/// Reads the words of the slate's first `operations` operations; the worker's job has at least as many.
fn read_words(seat: &mut WorkerSeat, service: &WordTable, operations: u32) -> [u64; 24]
    requires ours { seat.old.ident ≡ service.now }
    requires waiting { has_unfinished_job seat.old.part.private.stage ≡ true }
    requires few { operations ≤ 8 }
    requires operations { operations ≡ (draft_script seat.old.part.draft).n }
    ensures same { seat.new ≡ seat.old }
    ensures words { take (3 * operations) result ≡ take (3 * operations)
        (slate_of (draft_script seat.old.part.draft).ops) }
{
    let shape = service.shape();
    let worker = seat.worker();
    let mut words = [0; 24];
    for i in 0..3 * operations {
        words[i as usize] = seat.load_as_reader(
            service,
            layout::slate_at(shape, worker, i / 3, i % 3),
        );
    }
    words
}
