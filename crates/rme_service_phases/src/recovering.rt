//! Phase Recover: what a worker finds as it restarts after a crash.

ghost use Rattle.std.specs.Prelude.{◌≡◌, ◌+◌, ◌<◌, MatchResult};
ghost use Rattle.rme_words.specs.declared.shape.Shape.{Shape};
ghost use Rattle.rme_service_steps.specs.Layout.{position_of_address};
ghost use Rattle.rme_program.specs.declared.stage.Stage.TheVariants.{Recovering};
ghost use Rattle.rme_program.specs.declared.stage.Recovery.TheVariants.{LoadPath};
ghost use Rattle.rme_program.specs.Steps.{after_other_node};
ghost use Rattle.rme_service_steps.specs.Parts.{unchanged_part, restarted_part};
ghost use Rattle.rme_service_steps.specs.CallSteps.{seat_call, CallFell, PartIsBeforeStage};
ghost use Rattle.rme_service_phases.specs.Recoveries.{lock_address, resume_stage, resume_note, levels_read, steps_of_recover, RecoverySteps};

use rme_service_steps::{Chance, Fell, NoChange, Restart, WordTable, WorkerSeat, layout};
use rme_tree::{node, side};
use rme_words::Shape;

/// What Recover finds: the number of jobs that the worker has begun, and where its last life ended.
#[derive(Clone, Copy)]
pub struct RecoveredWorker {
    pub begun: u32,
    pub found: ResumePoint,
}

/// Where a worker's last life ended, and so where it continues.
#[derive(Clone, Copy)]
pub enum ResumePoint {
    /// No job is pending, and no node is held.
    Ready,
    /// The last job waits for this lock, with `held` nodes held.
    Climbing { lock: u32, held: u32 },
    /// The worker owns this lock; its last job is pending, or its section is finished.
    Inside { lock: u32, pending: bool },
    /// No job is pending, and `level` nodes are still held.
    Leaving { lock: u32, level: u32 },
}

/// The position of the word with the lock's number.
fn lock_at(shape: Shape, worker: u32, pending: bool) -> usize
    requires { worker < shape.workers }
    ensures { result ≡ position_of_address shape (lock_address pending worker) }
{
    if pending {
        return layout::slate_lock_at(shape, worker);
    }
    layout::receipt_lock_at(shape, worker)
}

/// The result if the worker has `held` nodes, and not the next one.
fn partial_resume_point(lock: u32, held: u32, pending: bool) -> ResumePoint
    ensures leads { after_other_node pending lock held ≡ (resume_stage result, resume_note result) }
    ensures read { (shape : Shape) → levels_read shape result ≡ held + 1 }
{
    if pending {
        return ResumePoint::Climbing { lock, held };
    }
    if held == 0 {
        return ResumePoint::Ready;
    }
    ResumePoint::Leaving { lock, level: held }
}

/// Searches the worker's path from the leaf for the first node that is not its own.
fn find_path<C: Chance>(
    seat: &mut WorkerSeat,
    service: &WordTable,
    chance: &mut C,
    lock: u32,
    pending: bool,
) -> Result<ResumePoint, Fell>
    requires ours { seat.old.ident ≡ service.now }
    requires at { PartIsBeforeStage service.now.shape seat.old.part (Recovering (LoadPath pending lock 0)) }
    ensures { let call = seat_call service.now.shape unchanged_part seat.old seat.new (C.tally chance.old)
        (C.tally chance.new) in
        MatchResult result (λ found. RecoverySteps call seat.old.part.private.begun found
        (levels_read service.now.shape found) 1 service.now.shape.height)
        (λ _. CallFell call service.now.shape.height) }
{
    let shape = service.shape();
    let worker = seat.worker();
    let mut held = 0;
    while held < shape.height {
        let at = layout::node_at(shape, lock, node(shape, worker, held + 1));
        let word = seat.load::<NoChange, C>(service, chance, at)?;
        if word != side(shape, worker, held + 1) {
            return Ok(partial_resume_point(lock, held, pending));
        }
        held += 1;
    }
    Ok(ResumePoint::Inside { lock, pending })
}

/// Phase Recover of a worker that restarts after a crash and knows only its own number: finds the number of jobs that
/// it has begun, whether the last one is pending, its lock, and the number of nodes of the path that it holds there.
pub fn recover<C: Chance>(
    seat: &mut WorkerSeat,
    service: &WordTable,
    chance: &mut C,
) -> Result<RecoveredWorker, Fell>
    requires ours { seat.old.ident ≡ service.now }
    ensures { let call = seat_call service.now.shape restarted_part seat.old seat.new (C.tally chance.old)
        (C.tally chance.new) in
        MatchResult result (λ its. RecoverySteps call its.begun its.found
        (steps_of_recover service.now.shape its.begun its.found) 2 (service.now.shape.height + 3))
        (λ _. CallFell call (service.now.shape.height + 3)) }
{
    let shape = service.shape();
    let worker = seat.worker();
    let begun_at = layout::begun_at(shape, worker);
    let begun = seat.load::<Restart, C>(service, chance, begun_at)?;
    let done_at = layout::done_at(shape, worker);
    let done = seat.load::<NoChange, C>(service, chance, done_at)?;
    if begun == 0 {
        return Ok(RecoveredWorker {
            begun: 0,
            found: ResumePoint::Ready,
        });
    }
    let pending = done < begun;
    let lock_at = lock_at(shape, worker, pending);
    let lock = seat.load::<NoChange, C>(service, chance, lock_at)?;
    let found = find_path(seat, service, chance, lock as u32, pending)?;
    Ok(RecoveredWorker {
        begun: begun as u32,
        found,
    })
}
