//! The next request of a session, drawn by what its client was told.

use crate::draws::Draws;
use crate::model::Model;
use crate::request::{
    AttachRequest, MOST_LOCKS, NumberedJob, SimulatedRequest, SimulatedSubmission,
};
use crate::view::{KnownStanding, KnownWorker, SeenPendingJob};
use rme_script::{Op, Script};

/// Draws the next request of a session.
pub fn draw_request(draws: &Draws, model: &Model, session: u32) -> SimulatedRequest {
    if draws.is_one_in(6) {
        return draw_lookup(draws, model);
    }
    let Some(worker) = model.worker_of(session) else {
        return draw_attachment(draws, model);
    };
    let view = model.view(worker);
    match (view.standing, view.job()) {
        (KnownStanding::Ready, _) => draw_for_ready(draws, model, &view),
        (KnownStanding::Climb, Some(pending)) => draw_for_waiting(draws, model, &pending),
        (KnownStanding::Held, Some(pending)) => draw_for_holder(draws, model, &pending),
        (_, Some(pending)) if draws.is_one_in(3) => submission(draws, pending.job),
        _ => SimulatedRequest::Last,
    }
}

fn draw_lock(draws: &Draws, model: &Model) -> u32 {
    if draws.is_one_in(50) {
        return MOST_LOCKS;
    }
    draws.below(model.lock_count().max(1))
}

fn draw_lookup(draws: &Draws, model: &Model) -> SimulatedRequest {
    match draws.below(8) {
        0 | 1 => SimulatedRequest::Owner(draw_lock(draws, model)),
        2 | 3 | 4 => SimulatedRequest::Cells(draw_lock(draws, model)),
        5 => SimulatedRequest::Status,
        6 => SimulatedRequest::Ping,
        _ => SimulatedRequest::BadLine,
    }
}

fn draw_attachment(draws: &Draws, model: &Model) -> SimulatedRequest {
    if draws.is_one_in(6) {
        return SimulatedRequest::AttachAny {
            pending: draws.is_one_in(2),
        };
    }
    if draws.is_one_in(30) {
        return draw_stray(draws, model);
    }
    let is_none = draws.is_one_in(40);
    let count = model.worker_count();
    let worker = if is_none {
        count
    } else {
        draws.below(count.max(1))
    };
    let after = if draws.is_one_in(6) {
        let least = model.view(worker).least_life();
        Some(least.saturating_sub(u64::from(draws.below(2))))
    } else {
        None
    };
    SimulatedRequest::Attach(AttachRequest {
        worker,
        take: draws.is_one_in(3),
        after,
    })
}

/// A request without a worker.
fn draw_stray(draws: &Draws, model: &Model) -> SimulatedRequest {
    match draws.below(4) {
        0 => SimulatedRequest::Commit,
        1 => SimulatedRequest::Last,
        2 => SimulatedRequest::Detach,
        _ => submission(draws, draw_job(draws, model, 1)),
    }
}

fn draw_job(draws: &Draws, model: &Model, number: u64) -> NumberedJob {
    NumberedJob {
        number,
        lock: draw_lock(draws, model),
        script: draw_script(draws, model.cells.max(1)),
    }
}

fn draw_script(draws: &Draws, cells: u32) -> Script {
    let count = draws.between(0, 3);
    let first = draw_operation(draws, cells);
    let second = draw_operation(draws, cells);
    let third = draw_operation(draws, cells);
    match count {
        0 => Script::of(&[]),
        1 => Script::of(&[first]),
        2 => Script::of(&[first, second]),
        _ => Script::of(&[first, second, third]),
    }
}

fn draw_operation(draws: &Draws, cells: u32) -> Op {
    let cell = draws.below(cells.max(1));
    let other = draws.below(cells.max(1));
    match draws.below(8) {
        0 => Op::Get(cell),
        1 => Op::Set(cell, u64::from(draws.below(1000))),
        2 => Op::Copy(cell, other),
        3 => Op::Swap(cell, other),
        _ => Op::Add(cell, u64::from(draws.between(1, 1000))),
    }
}

fn submission(draws: &Draws, job: NumberedJob) -> SimulatedRequest {
    SimulatedRequest::Submit(SimulatedSubmission {
        enters: draws.is_one_in(2),
        job,
        tries: draws.between(1, 3),
    })
}

fn draw_for_ready(draws: &Draws, model: &Model, view: &KnownWorker) -> SimulatedRequest {
    match draws.below(24) {
        0 => SimulatedRequest::Last,
        1 => SimulatedRequest::CrashAfter(draws.below(60)),
        2 => SimulatedRequest::Detach,
        3 => SimulatedRequest::Pending,
        4 => SimulatedRequest::Commit,
        5 => SimulatedRequest::Withdraw,
        6 => SimulatedRequest::Resume,
        7 | 8 => submission(draws, draw_job(draws, model, view.done)),
        9 => submission(draws, draw_job(draws, model, view.next().saturating_add(1))),
        10 => SimulatedRequest::AttachAny { pending: false },
        _ => submission(draws, draw_job(draws, model, view.next())),
    }
}

fn draw_for_waiting(draws: &Draws, model: &Model, pending: &SeenPendingJob) -> SimulatedRequest {
    match draws.below(20) {
        0 => SimulatedRequest::Last,
        1 => SimulatedRequest::CrashAfter(draws.below(40)),
        2 => SimulatedRequest::Detach,
        3 => SimulatedRequest::Pending,
        4 => SimulatedRequest::Commit,
        5 | 6 => SimulatedRequest::Withdraw,
        7 => submission(draws, draw_job(draws, model, pending.job.number)),
        8..12 => SimulatedRequest::Resume,
        _ => submission(draws, pending.job),
    }
}

fn draw_for_holder(draws: &Draws, model: &Model, pending: &SeenPendingJob) -> SimulatedRequest {
    match draws.below(20) {
        0 => SimulatedRequest::Last,
        1 => SimulatedRequest::CrashAfter(draws.below(30)),
        2 => SimulatedRequest::Detach,
        3 => SimulatedRequest::Pending,
        4 => SimulatedRequest::Withdraw,
        5 => submission(draws, draw_job(draws, model, pending.job.number)),
        6 => submission(
            draws,
            draw_job(draws, model, pending.job.number.saturating_add(1)),
        ),
        7 => SimulatedRequest::Resume,
        8 | 9 => submission(draws, pending.job),
        10..13 => SimulatedRequest::Cells(pending.job.lock),
        _ => SimulatedRequest::Commit,
    }
}
