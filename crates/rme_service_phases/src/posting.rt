//! Phase Post: a worker logs its job.

ghost use Rattle.std.specs.Prelude.{◌≡◌, ◌+◌, ◌*◌, ◌<◌, MatchResult};
ghost use Rattle.rme_program.specs.declared.note.Note.TheVariants.{Asked};
ghost use Rattle.rme_program.specs.declared.stage.Stage.TheVariants.{Resting, Posting, Climbing};
ghost use Rattle.rme_script.specs.Jobs.{IsJob};
ghost use Rattle.rme_service_steps.specs.Parts.{unchanged_part, submitted_part};
ghost use Rattle.rme_service_steps.specs.CallSteps.{seat_call, CallProgress, CallFell, PartIsBeforeStage};

use rme_script::{Job, slate_word};
use rme_service_steps::{Chance, Fell, JobTag, NoChange, WordTable, WorkerSeat, layout};

/// Phase Post: stores the job's lock, the number of its operations and their words, and then increments `Begun`, so
/// that the job has its number. `begun` is the value of that word, as the ready worker knows it.
pub fn post<J: JobTag, C: Chance>(
    seat: &mut WorkerSeat,
    service: &WordTable,
    chance: &mut C,
    begun: u32,
    job: &Job,
) -> Result<(), Fell>
    requires ours { seat.old.ident ≡ service.now }
    requires at { PartIsBeforeStage service.now.shape seat.old.part Resting }
    requires begun { begun ≡ seat.old.part.private.begun }
    requires named { job.now ≡ J.job }
    requires good { IsJob service.now.shape job.now }
    requires few { begun < service.now.shape.jobs }
    ensures posted { let call = seat_call service.now.shape (submitted_part job.now) seat.old seat.new
        (C.tally chance.old) (C.tally chance.new) in
        MatchResult result (λ _. CallProgress call (3 + 3 * job.now.script.n) (begun + 1) (Climbing
        record { lock = job.now.lock; held = 0 }))
        (λ _. CallFell call (3 + 3 * job.now.script.n)) }
{
    let shape = service.shape();
    let worker = seat.worker();
    let at = layout::slate_lock_at(shape, worker);
    seat.submit::<J, C>(service, chance, at, job.lock as u64)?;
    let at = layout::slate_len_at(shape, worker);
    seat.store::<NoChange, C>(service, chance, at, job.script.n() as u64)?;
    write_operations(seat, service, chance, job)?;
    let at = layout::begun_at(shape, worker);
    seat.store::<NoChange, C>(service, chance, at, begun as u64 + 1)?;
    Ok(())
}

/// Stores the words of the job's operations.
fn write_operations<C: Chance>(
    seat: &mut WorkerSeat,
    service: &WordTable,
    chance: &mut C,
    job: &Job,
) -> Result<(), Fell>
    requires ours { seat.old.ident ≡ service.now }
    requires at { PartIsBeforeStage service.now.shape seat.old.part (Posting record { job = job.now; stored = 2 }) }
    ensures { let call = seat_call service.now.shape unchanged_part seat.old seat.new (C.tally chance.old)
        (C.tally chance.new) in
        MatchResult result (λ _. CallProgress call (3 * job.now.script.n) seat.old.part.private.begun (Posting
        record { job = job.now; stored = 2 + 3 * job.now.script.n }))
        (λ _. CallFell call (3 * job.now.script.n)) }
{
    let shape = service.shape();
    let worker = seat.worker();
    for i in 0..3 * job.script.n() {
        let at = layout::slate_at(shape, worker, i / 3, i % 3);
        seat.store::<NoChange, C>(service, chance, at, slate_word(&job.script, i))?;
    }
    Ok(())
}
