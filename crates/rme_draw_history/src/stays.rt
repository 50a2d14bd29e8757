//! The stays of workers in phases.

ghost use Rattle.std.specs.Prelude.{◌≡◌, ◌++◌, Option, OnOk, IfOk, slice_get, slice_set, map};
ghost use Rattle.std.specs.List.{range_with_len};
ghost use Rattle.rme_draw_history.specs.Stays as spec;

use crate::line_marks::{is_ready_line, line_worker, withdrawal_line};
use crate::phase::{are_same_phase, phase_after};
use rme_core_checker::{CheckedWorker, Machine};
use rme_draw_picture::{DrawnPhase, DrawnStay};
use rme_line_text::EventLine;
use rme_machine::JobStance;
use std::alloc::{AllocError, Global};

/// The present stay of a worker.
#[derive(Clone, Copy)]
pub struct OngoingStay {
    pub stay: DrawnStay,
    /// The line at which it withdrew its job in this stay. The transcript does not say whether it has nodes to release;
    /// only if it has, it becomes ready by a later note.
    pub gave_up: Option<u64>,
}

/// The first stays of `workers` workers: all are ready.
pub fn first_stays(alloc: Global, workers: u32) -> Result<Vec<OngoingStay>, AllocError>
    ensures { IfOk result (λ staying. staying.items ≡ map spec.first_stay (range_with_len 0 workers)) }
{
    (0..workers).map(|worker| first_stay(worker)).collect(alloc)
}

fn first_stay(worker: u32) -> OngoingStay
    ensures { result ≡ spec.first_stay worker }
{
    OngoingStay {
        stay: ready_stay_from(worker, 1),
        gave_up: None,
    }
}

/// Begins a new stay if the worker of a line has changed its phase, and adds the one that has ended.
pub fn push_stay(
    stays: &mut Vec<DrawnStay>,
    staying: &mut Vec<OngoingStay>,
    event_line: &EventLine,
    machine: &Machine,
    line: u64,
) -> Result<(), AllocError>
    ensures over { OnOk result (stays.new.items ≡ stays.old.items
        ++ spec.ended_stays_after event_line.now line machine.now
        staying.old.items) }
    ensures next { OnOk result (staying.new.items ≡ spec.ongoing_stays_after event_line.now line machine.now
        staying.old.items) }
{
    let worker = line_worker(event_line);
    let are_few = staying.len() <= 2;
    let Some(me) = machine.worker(worker) else {
        return Ok(());
    };
    let before = match stay_at(staying.as_slice(), worker) {
        Some(before) => before,
        None => return Ok(()),
    };
    let goes_on = stay_goes_on(event_line, are_few, me, before);
    set_stay(
        staying,
        worker,
        next_stay(event_line, line, are_few, me, before),
    );
    push_ended(stays, event_line, line, goes_on, before)
}

/// The present stay of a worker, if there is such a worker.
fn stay_at(staying: &[OngoingStay], worker: u32) -> Option<OngoingStay>
    ensures { result ≡ slice_get staying.now worker }
{
    match staying.get(worker as usize) {
        Some(before) => Some(*before),
        None => None,
    }
}

/// Sets the present stay of a worker, if there is such a worker.
fn set_stay(staying: &mut Vec<OngoingStay>, worker: u32, stay: OngoingStay)
    ensures { staying.new.items ≡ slice_set staying.old.items worker stay }
{
    let worker = worker as usize;
    if worker < staying.len() {
        staying[worker] = stay;
    }
}

/// Whether the worker is still in the same phase.
fn stay_goes_on(
    event_line: &EventLine,
    are_few: bool,
    me: &CheckedWorker,
    before: OngoingStay,
) -> bool
    ensures { result ≡ spec.stay_goes_on event_line.now are_few me.now before }
{
    let phase = before.stay.phase;
    are_same_phase(phase_after(me, event_line, are_few, phase), phase)
}

/// The stay of a line's worker after the line.
fn next_stay(
    event_line: &EventLine,
    line: u64,
    are_few: bool,
    me: &CheckedWorker,
    before: OngoingStay,
) -> OngoingStay
    ensures { result ≡ spec.next_stay event_line.now line are_few me.now before }
{
    let gave_up = withdrawal_line(event_line, line);
    if stay_goes_on(event_line, are_few, me, before) {
        return OngoingStay {
            stay: before.stay,
            gave_up: first_if_some(before.gave_up, gave_up),
        };
    }
    let stay = DrawnStay {
        worker: line_worker(event_line),
        phase: phase_after(me, event_line, are_few, before.stay.phase),
        lock: stance_lock(&me.stance()),
        from: line,
        to: line,
    };
    OngoingStay { stay, gave_up }
}

fn first_if_some(earlier: Option<u64>, later: Option<u64>) -> Option<u64>
    ensures { result ≡ spec.first_if_some earlier later }
{
    match earlier {
        None => later,
        Some(line) => Some(line),
    }
}

/// Adds the stay that a line ended, unless it continues.
fn push_ended(
    stays: &mut Vec<DrawnStay>,
    event_line: &EventLine,
    line: u64,
    goes_on: bool,
    before: OngoingStay,
) -> Result<(), AllocError>
    ensures { OnOk result (stays.new.items ≡ stays.old.items
        ++ spec.stays_ended_by goes_on event_line.now line before) }
{
    if goes_on {
        return Ok(());
    }
    push_over(stays, before, line, is_ready_line(event_line))
}

/// Adds a stay that has ended. A worker that withdrew its job was ready at once, unless it became ready by a later
/// note.
pub fn push_over(
    stays: &mut Vec<DrawnStay>,
    over: OngoingStay,
    to: u64,
    tells_ready: bool,
) -> Result<(), AllocError>
    ensures { OnOk result (stays.new.items ≡ stays.old.items ++ spec.stays_over over to tells_ready) }
{
    match over.gave_up {
        None => push_stretch(stays, over.stay, to),
        Some(line) => {
            let is_split = are_same_phase(over.stay.phase, DrawnPhase::Exit) && !tells_ready;
            push_split(stays, over.stay, line, to, is_split)
        }
    }
}

/// Adds a stay, in two parts if the worker was ready from a line on.
fn push_split(
    stays: &mut Vec<DrawnStay>,
    stay: DrawnStay,
    line: u64,
    to: u64,
    is_split: bool,
) -> Result<(), AllocError>
    ensures { OnOk result (stays.new.items ≡ stays.old.items ++ spec.stays_split_if is_split stay line to) }
{
    if !is_split {
        return push_stretch(stays, stay, to);
    }
    push_stretch(stays, stay, line)?;
    push_stretch(stays, ready_stay_from(stay.worker, line), to)
}

/// Adds a stay up to a line, unless it is empty.
fn push_stretch(stays: &mut Vec<DrawnStay>, stay: DrawnStay, to: u64) -> Result<(), AllocError>
    ensures { OnOk result (stays.new.items ≡ stays.old.items ++ spec.stay_up_to stay to) }
{
    if stay.from < to {
        stays.push(DrawnStay { to, ..stay })?;
    }
    Ok(())
}

/// The stay of a worker that is ready from a line on.
fn ready_stay_from(worker: u32, line: u64) -> DrawnStay
    ensures { result ≡ spec.ready_stay_from worker line }
{
    DrawnStay {
        worker,
        phase: DrawnPhase::Ready,
        lock: None,
        from: line,
        to: line,
    }
}

/// The lock of a worker's job, if it has one.
pub fn stance_lock(stance: &JobStance) -> Option<u32>
    ensures { result ≡ spec.stance_lock stance.now }
{
    match stance {
        JobStance::Idle => None,
        JobStance::Handed(job) => Some(job.lock),
        JobStance::Waiting(_, job) => Some(job.lock),
        JobStance::Inside(_, job) => Some(job.lock),
        JobStance::Finished(_, job) => Some(job.lock),
    }
}

/// Adds all stays that end with the run.
pub fn push_last_stays(
    stays: &mut Vec<DrawnStay>,
    all: &[OngoingStay],
    to: u64,
) -> Result<(), AllocError>
    ensures { OnOk result (stays.new.items ≡ stays.old.items ++ spec.stays_at_end all.now to) }
{
    for staying in all {
        push_over(stays, *staying, to, false)?;
    }
    Ok(())
}
