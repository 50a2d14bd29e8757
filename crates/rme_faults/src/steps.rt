//! The steps of one life of a server.

use crate::client::{LineFeed, SimulatedClient};
use crate::defect::Defect;
use crate::recovering::check_recovery;
use crate::run::{LifeEnd, Run, count};
use crate::stage::SimulatedServer;
use rme_durable_server::ServerTag;
use rme_faults_model::{
    AttachRequest, Found, KnownStanding, SeenAnswer, SimulatedRequest, draw_request, is_or,
    push_request, read_answer,
};
use rme_session_loop::{AnswerError, Backend, Buffers};
use rme_wire::LineReader;
use rme_words::NoMemory;
use std::alloc::AllocFailed;
use std::cell::Cell;
use std::mem::replace;
use std::sync::Wait;
use std::time::Clock;

/// The rounds in which the last life of a server finishes all jobs.
const LAST_ROUNDS: u32 = 40;

/// A number that no session has.
const NO_SESSION: u32 = u32::MAX;

/// The state of a session between two lines.
type ServerStand<'a, J> = <SimulatedServer<'a, J> as Backend>::Stand;

/// A server, and what its sessions share.
#[derive(Drop)]
struct Floor<'s, 'a, J: ServerTag, R> {
    rt: &'s R,
    server: &'s SimulatedServer<'a, J>,
    closed: &'a [Cell<bool>],
    checkpoints: &'a Cell<u64>,
    spare: &'a Cell<bool>,
    feed: &'s Cell<Option<String>>,
}

/// What a line is read with.
#[derive(Drop)]
struct Desk<'s> {
    buffers: &'s mut Buffers,
    lines: LineReader<LineFeed<'s>>,
    sink: Vec<u8>,
}

/// Plays a life of a server, until it ends or all steps are made.
pub fn play<'a, J: ServerTag, R: Wait + Clock>(
    rt: &R,
    server: &SimulatedServer<'a, J>,
    closed: &'a [Cell<bool>],
    buffers: &mut Buffers,
    run: Run<'a>,
) -> Run<'a> {
    let mut run = run;
    let feed = Cell::new(None);
    let floor = Floor {
        rt,
        server,
        closed,
        checkpoints: run.checkpoints,
        spare: run.spare,
        feed: &feed,
    };
    let Ok(lines) = LineReader::new(run.alloc, LineFeed { line: &feed }) else {
        run.note(Err("no memory"));
        return run;
    };
    let mut desk = Desk {
        buffers,
        lines,
        sink: Vec::new(run.alloc),
    };
    let mut stands = Vec::new(run.alloc);
    begin_sessions(&floor, &mut stands, &mut run);
    if run.is_last {
        finish_all(&floor, &mut stands, &mut desk, &mut run);
    } else {
        make_steps(&floor, &mut stands, &mut desk, &mut run);
    }
    run.disk.kill();
    end_all(&floor, stands);
    run
}

/// Begins as many sessions as there are, or one for each worker, if those are more.
fn begin_sessions<'a, J: ServerTag, R: Wait + Clock>(
    floor: &Floor<'_, 'a, J, R>,
    stands: &mut Vec<ServerStand<'a, J>>,
    run: &mut Run<'a>,
) {
    for closed in floor.closed {
        closed.set(false);
        if let Err(failed) = stands.push(floor.server.begin_session()) {
            let AllocFailed { value } = failed;
            end_stand(floor, NO_SESSION, value);
            run.note(Err("no memory"));
        }
    }
}

/// The client of a session.
fn client_of<'a, J: ServerTag, R>(
    floor: &Floor<'_, 'a, J, R>,
    session: u32,
    is_hurried: bool,
) -> SimulatedClient<'a> {
    SimulatedClient {
        closed: floor.closed.get(session as usize).unwrap_or(floor.spare),
        is_hurried,
        checkpoints: floor.checkpoints,
    }
}

/// Ends the session of a state, and answers whether that was logged.
fn end_stand<'a, J: ServerTag, R: Wait + Clock>(
    floor: &Floor<'_, 'a, J, R>,
    session: u32,
    stand: ServerStand<'a, J>,
) -> bool {
    let client = client_of(floor, session, true);
    floor.server.end_session(floor.rt, stand, &client).is_ok()
}

/// Takes the state of a session, which is then one without a worker.
fn take_stand<'a, J: ServerTag, R>(
    floor: &Floor<'_, 'a, J, R>,
    stands: &mut Vec<ServerStand<'a, J>>,
    session: u32,
) -> ServerStand<'a, J> {
    let fresh = floor.server.begin_session();
    match stands.get_mut(session as usize) {
        Some(place) => replace(place, fresh),
        None => fresh,
    }
}

/// Ends all sessions of a server, which is dead: nothing of it is logged.
fn end_all<'a, J: ServerTag, R: Wait + Clock>(
    floor: &Floor<'_, 'a, J, R>,
    stands: Vec<ServerStand<'a, J>>,
) {
    let mut stands = stands;
    let mut session = 0u32;
    while let Some(stand) = stands.pop() {
        end_stand(floor, session, stand);
        session = session.saturating_add(1);
    }
    stands.destroy_empty();
}

/// Ends a session whose client is gone.
fn end_one<'a, J: ServerTag, R: Wait + Clock>(
    floor: &Floor<'_, 'a, J, R>,
    stands: &mut Vec<ServerStand<'a, J>>,
    session: u32,
    run: &mut Run<'a>,
) {
    let stand = take_stand(floor, stands, session);
    let is_logged = end_stand(floor, session, stand);
    if let Some(closed) = floor.closed.get(session as usize) {
        closed.set(false);
    }
    run.trace(
        "end",
        session,
        "",
        if is_logged { "logged" } else { "not logged" },
    );
    run.model.end_session(session);
    if is_logged && run.disk.has_failed() && !run.disk.is_dead() {
        run.note(Err("a session's end is logged after a failed append"));
    }
}

/// Makes steps until the server's life ends or all steps are made.
fn make_steps<'a, J: ServerTag, R: Wait + Clock>(
    floor: &Floor<'_, 'a, J, R>,
    stands: &mut Vec<ServerStand<'a, J>>,
    desk: &mut Desk<'_>,
    run: &mut Run<'a>,
) {
    for _ in run.step..run.plan.steps {
        run.step = run.step.saturating_add(1);
        if run.failure.is_some() {
            break;
        }
        if floor.server.is_over(floor.rt) || run.disk.is_dead() {
            run.end = draw_end(run);
            return;
        }
        if run.draws.is_one_in(run.plan.crash_odds) {
            run.end = draw_end(run);
            return;
        }
        make_step(floor, stands, desk, run);
    }
    run.end = LifeEnd::Steps;
}

fn draw_end(run: &Run<'_>) -> LifeEnd {
    if run.draws.is_one_in(3) {
        LifeEnd::Machine
    } else {
        LifeEnd::Process
    }
}

/// Makes a step: the disk's, the end of a session, or an order.
fn make_step<'a, J: ServerTag, R: Wait + Clock>(
    floor: &Floor<'_, 'a, J, R>,
    stands: &mut Vec<ServerStand<'a, J>>,
    desk: &mut Desk<'_>,
    run: &mut Run<'a>,
) {
    if !run.plan.syncs && run.draws.is_one_in(10) {
        run.disk.write_back();
    }
    if run.draws.is_one_in(10) {
        let found = check_recovery(run);
        run.note(found);
    }
    let session = run.draws.below(run.plan.sessions.max(1));
    let is_closed = floor
        .closed
        .get(session as usize)
        .is_some_and(|closed| closed.get());
    if is_closed || run.draws.is_one_in(25) {
        end_one(floor, stands, session, run);
        return;
    }
    let request = draw_request(run.draws, &run.model, session);
    send(floor, stands, desk, run, (session, &request));
}

/// Sends a request of a session, and checks its answer.
fn send<'a, J: ServerTag, R: Wait + Clock>(
    floor: &Floor<'_, 'a, J, R>,
    stands: &mut Vec<ServerStand<'a, J>>,
    desk: &mut Desk<'_>,
    run: &mut Run<'a>,
    asked: (u32, &SimulatedRequest),
) {
    let (session, request) = asked;
    if load_line(floor, desk, run, request).is_err() {
        run.note(Err("no memory"));
        return;
    }
    count(&mut run.counts.orders);
    let is_hurried = matches!(request, SimulatedRequest::Attach(_)) || run.draws.is_one_in(2);
    let client = client_of(floor, session, is_hurried);
    let stand = take_stand(floor, stands, session);
    let (stand, answered) = floor
        .server
        .answer(floor.rt, stand, desk.buffers, &mut desk.sink, &client);
    match stands.get_mut(session as usize) {
        Some(place) => {
            let empty = replace(place, stand);
            end_stand(floor, session, empty);
        }
        None => {
            end_stand(floor, session, stand);
        }
    }
    take_answer(run, desk, asked, answered);
}

/// Puts the line of a request where the next answer reads it.
fn load_line<J: ServerTag, R>(
    floor: &Floor<'_, '_, J, R>,
    desk: &mut Desk<'_>,
    run: &Run<'_>,
    request: &SimulatedRequest,
) -> Result<(), NoMemory> {
    let mut line = String::new(run.alloc);
    push_request(&mut line, request)?;
    floor.feed.set(Some(line));
    match desk
        .buffers
        .exchange
        .next_line(&mut desk.lines, &mut desk.sink)
    {
        Ok(cut) => {
            desk.buffers.cut = cut;
            Ok(())
        }
        Err(_) => Err(NoMemory),
    }
}

/// Checks the answer to a session's request. If the session got no answer, notes that.
fn take_answer<'a>(
    run: &mut Run<'a>,
    desk: &Desk<'_>,
    asked: (u32, &SimulatedRequest),
    answered: Result<(), AnswerError>,
) {
    let (session, request) = asked;
    let line = str::from_utf8(desk.buffers.exchange.line()).unwrap_or("");
    if run.disk.is_dead() || answered.is_err() {
        run.trace("lost", session, line, "");
        run.model.miss(session, request);
        return;
    }
    let text = desk.buffers.text.as_str();
    run.trace("told", session, line, text);
    count(&mut run.counts.answers);
    let found = check_answer(run, asked, text);
    run.note(found);
}

/// Checks an answer.
fn check_answer(run: &mut Run<'_>, asked: (u32, &SimulatedRequest), text: &str) -> Found {
    let (session, request) = asked;
    let Some(answer) = read_answer(run.alloc, request, text.as_bytes()) else {
        return Err("no answer to this request");
    };
    let is_fixed = matches!(answer, SeenAnswer::Refused(1 | 6, _));
    is_or(
        is_fixed || !run.disk.has_failed(),
        "an answer after a failed append",
    )?;
    if let SeenAnswer::Receipt(_) = answer {
        count(&mut run.counts.receipts);
    }
    let answer = stale_or(run, request, answer, text);
    run.model.learn(session, request, &answer)
}

/// The answer, or by a planted defect an earlier one to the same look-up.
fn stale_or(
    run: &mut Run<'_>,
    request: &SimulatedRequest,
    answer: SeenAnswer,
    text: &str,
) -> SeenAnswer {
    if run.plan.asked.defect != Defect::StaleLookup
        || !matches!(request, SimulatedRequest::Cells(0))
    {
        return answer;
    }
    let earlier = run.saved.take();
    run.saved = String::from_str(run.alloc, text).ok();
    match earlier {
        Some(earlier) if run.draws.is_one_in(2) => {
            read_answer(run.alloc, request, earlier.as_bytes()).unwrap_or(answer)
        }
        _ => answer,
    }
}

/// Finishes all jobs, and looks at everything.
fn finish_all<'a, J: ServerTag, R: Wait + Clock>(
    floor: &Floor<'_, 'a, J, R>,
    stands: &mut Vec<ServerStand<'a, J>>,
    desk: &mut Desk<'_>,
    run: &mut Run<'a>,
) {
    if run.model.is_lossy {
        send(floor, stands, desk, run, (0, &SimulatedRequest::Status));
        return;
    }
    for _ in 0..LAST_ROUNDS {
        for worker in 0..run.model.worker_count() {
            if let Some(request) = next_to_finish(run, worker) {
                send(floor, stands, desk, run, (worker, &request));
            }
        }
    }
    for lock in 0..run.model.lock_count() {
        send(
            floor,
            stands,
            desk,
            run,
            (0, &SimulatedRequest::Owner(lock)),
        );
        send(
            floor,
            stands,
            desk,
            run,
            (0, &SimulatedRequest::Cells(lock)),
        );
    }
    send(floor, stands, desk, run, (0, &SimulatedRequest::Status));
    if floor.server.is_over(floor.rt) {
        run.note(Err("the last life of the server has failed"));
    }
    let found = run.model.check_all();
    run.note(found);
}

/// The request that brings a worker nearer to the end of its job, if it needs one.
fn next_to_finish(run: &Run<'_>, worker: u32) -> Option<SimulatedRequest> {
    let view = run.model.view(worker);
    if view.session.is_none() {
        return Some(SimulatedRequest::Attach(AttachRequest {
            worker,
            take: false,
            after: None,
        }));
    }
    match view.standing {
        KnownStanding::Climb | KnownStanding::Held => Some(SimulatedRequest::Resume),
        KnownStanding::Unlearned => Some(SimulatedRequest::Last),
        KnownStanding::Ready | KnownStanding::Unsure => None,
    }
}
