//! The worker that blocks another, as far as the notes of a run show it.
//!
//! Notes name no nodes. They show in which lock's tree a worker may hold nodes, and who owns the lock; if only one
//! worker can hold the next node of a worker that is blocked, it is the blocker.

ghost use Rattle.std.specs.Prelude.{◌≡◌, slice_set};
ghost use Rattle.rme_draw_history.specs.declared.blockers.PossibleBlockers.TheVariants.{Nobody};
ghost use Rattle.rme_draw_history.specs.Blockers as spec;

use crate::line_marks::line_worker;
use crate::stays::stance_lock;
use rme_core_checker::{CheckedWorker, Machine};
use rme_line_text::EventLine;
use rme_machine::JobStance;
use rme_program::Note;

/// The workers found so far that can block another.
#[derive(Clone, Copy)]
pub enum PossibleBlockers {
    Nobody,
    Only(u32),
    Several,
}

/// Sets the lock in whose tree the worker of a line may hold nodes after it.
pub fn see_climb(climbing: &mut Vec<Option<u32>>, event_line: &EventLine, machine: &Machine)
    ensures { climbing.new.items ≡ spec.climbing_after event_line.now machine.now climbing.old.items }
{
    let shape = machine.shape();
    let are_few = shape.workers() <= 2;
    match machine.worker(line_worker(event_line)) {
        Some(me) => see_climb_of(climbing, event_line, are_few, me),
        None => {}
    }
}

/// Does so for this state of the worker.
fn see_climb_of(
    climbing: &mut Vec<Option<u32>>,
    event_line: &EventLine,
    are_few: bool,
    me: &CheckedWorker,
)
    ensures { climbing.new.items ≡ spec.climbing_with event_line.now are_few me.now climbing.old.items }
{
    let worker = line_worker(event_line);
    let before = climb_at(climbing.as_slice(), worker);
    let after = climb_after(event_line, are_few, &me.stance(), before);
    set_climb(climbing, worker, after);
}

/// The lock in whose tree a worker may hold nodes, if there is one.
fn climb_at(climbing: &[Option<u32>], worker: u32) -> Option<u32>
    ensures { result ≡ spec.climb_at climbing.now worker }
{
    match climbing.get(worker as usize) {
        Some(lock) => *lock,
        None => None,
    }
}

fn set_climb(climbing: &mut Vec<Option<u32>>, worker: u32, lock: Option<u32>)
    ensures { climbing.new.items ≡ slice_set climbing.old.items worker lock }
{
    let worker = worker as usize;
    if worker < climbing.len() {
        climbing[worker] = lock;
    }
}

/// The lock in whose tree a worker may hold nodes after a line of it: from the note that it asked, up to the one that
/// it is ready. A worker that is handed a job was ready, and holds none.
fn climb_after(
    event_line: &EventLine,
    are_few: bool,
    stance: &JobStance,
    before: Option<u32>,
) -> Option<u32>
    ensures { result ≡ spec.climb_after event_line.now are_few stance.now before }
{
    match event_line {
        EventLine::Submit(_) => None,
        EventLine::Note(_, note) => climb_after_note(note, are_few, stance, before),
        _ => before,
    }
}

fn climb_after_note(
    note: &Note,
    are_few: bool,
    stance: &JobStance,
    before: Option<u32>,
) -> Option<u32>
    ensures { result ≡ spec.climb_after_note note.now are_few stance.now before }
{
    match note {
        Note::Asked(_) => stance_lock(stance),
        Note::Left(_) | Note::Withdrew(_) => climb_after_leaving(are_few, before),
        Note::Ready => None,
        _ => before,
    }
}

/// In a tree of one level, a worker that left its lock or withdrew its job holds no node.
fn climb_after_leaving(are_few: bool, before: Option<u32>) -> Option<u32>
    ensures { result ≡ spec.climb_after_leaving are_few before }
{
    if are_few { None } else { before }
}

/// The blocker of the worker of a line, if the line says that it is blocked and only one worker can block it.
pub fn line_blocker(
    climbing: &[Option<u32>],
    event_line: &EventLine,
    machine: &Machine,
) -> Option<u32>
    ensures { result ≡ spec.line_blocker climbing.now event_line.now machine.now }
{
    match event_line {
        EventLine::Note(worker, note) => note_blocker(climbing, *worker, note, machine),
        _ => None,
    }
}

fn note_blocker(
    climbing: &[Option<u32>],
    worker: u32,
    note: &Note,
    machine: &Machine,
) -> Option<u32>
    ensures { result ≡ spec.note_blocker climbing.now worker note.now machine.now }
{
    match note {
        Note::Blocked => blocker_of(climbing, worker, climb_at(climbing, worker), machine),
        _ => None,
    }
}

/// The only worker that can block a worker which waits for this lock, if it waits for one.
fn blocker_of(
    climbing: &[Option<u32>],
    worker: u32,
    lock: Option<u32>,
    machine: &Machine,
) -> Option<u32>
    ensures { result ≡ spec.blocker_of climbing.now worker lock machine.now }
{
    match lock {
        None => None,
        Some(lock) => {
            let found = possible_blockers(climbing, worker, lock, machine.owner(lock));
            only_blocker(found)
        }
    }
}

/// The workers that can block a worker which waits for a lock with this owner.
fn possible_blockers(
    climbing: &[Option<u32>],
    worker: u32,
    lock: u32,
    owner: Option<u32>,
) -> PossibleBlockers
    ensures { result ≡ spec.found_among worker lock owner climbing.now 0 Nobody }
{
    let mut found = PossibleBlockers::Nobody;
    let mut other = 0u32;
    for climb in climbing {
        let is_possible = can_block(*climb, lock, other, worker, owner);
        found = found_after(found, other, is_possible);
        other = other.saturating_add(1);
    }
    found
}

/// Whether another worker, which may hold nodes in this tree, can hold the next node of a worker that is blocked in a
/// lock with this owner.
fn can_block(climb: Option<u32>, lock: u32, other: u32, worker: u32, owner: Option<u32>) -> bool
    ensures { result ≡ spec.can_block climb lock other worker owner }
{
    other != worker && is_same_lock(climb, lock) && is_below_owner(other, worker, owner)
}

fn is_same_lock(climb: Option<u32>, lock: u32) -> bool
    ensures { result ≡ spec.is_same_lock climb lock }
{
    match climb {
        None => false,
        Some(own) => own == lock,
    }
}

/// Whether another worker is the owner, or its path meets the worker's path below the owner's. From the node on at
/// which the owner's path meets it, the owner holds the nodes.
fn is_below_owner(other: u32, worker: u32, owner: Option<u32>) -> bool
    ensures { result ≡ spec.is_below_owner other worker owner }
{
    match owner {
        None => true,
        Some(owner) => other == owner || meets_below(other, owner, worker),
    }
}

/// Whether a worker's path meets another's below a third's: the highest bit in which it differs is a lower one.
fn meets_below(other: u32, owner: u32, worker: u32) -> bool
    ensures { result ≡ spec.meets_below other owner worker }
{
    let distance = other ^ worker;
    distance < (owner ^ worker) && distance < (other ^ owner)
}

fn found_after(found: PossibleBlockers, other: u32, can_block: bool) -> PossibleBlockers
    ensures { result ≡ spec.found_after found other can_block }
{
    if !can_block {
        return found;
    }
    match found {
        PossibleBlockers::Nobody => PossibleBlockers::Only(other),
        _ => PossibleBlockers::Several,
    }
}

fn only_blocker(found: PossibleBlockers) -> Option<u32>
    ensures { result ≡ spec.only_blocker found }
{
    match found {
        PossibleBlockers::Only(other) => Some(other),
        _ => None,
    }
}
