//! The phase in which a worker is drawn.

ghost use Rattle.std.specs.Prelude.{◌≡◌, ◌==◌, ◌↔◌, true, false};
ghost use Rattle.rme_draw_history.specs.Phases as spec;
ghost use Rattle.rme_draw_history.specs.Phases.{is_in_section, is_without_lock};

use rme_core_checker::CheckedWorker;
use rme_draw_picture::DrawnPhase;
use rme_line_text::EventLine;
use rme_machine::JobStance;
use rme_program::Note;

/// The phase of a worker, from the machine's state of it after a line of that worker.
///
/// `are_few` says that a world has one worker or two. There, the step that leaves a lock makes the worker
/// ready, as does the one that withdraws. Quiet steps are not in a transcript: a recovery is drawn up to the next note.
pub fn phase_after(
    me: &CheckedWorker,
    line: &EventLine,
    are_few: bool,
    before: DrawnPhase,
) -> DrawnPhase
    ensures drawn { result ≡ spec.phase_after line.now are_few before me.now }
    ensures section { result ≡ DrawnPhase.Section ↔ is_in_section me.now ≡ true }
    ensures down { result ≡ DrawnPhase.Down ↔ me.now.up ≡ false }
{
    if !me.is_up() {
        return DrawnPhase::Down;
    }
    match me.stance() {
        JobStance::Handed(_) => DrawnPhase::Post,
        JobStance::Waiting(_, _) => waiting_phase_after(line, before),
        JobStance::Inside(_, _) => owner_phase(me.has_entered(), DrawnPhase::Section),
        JobStance::Finished(_, _) => owner_phase(me.has_entered(), DrawnPhase::Exit),
        JobStance::Idle => idle_phase_after(line, are_few, before),
    }
}

/// The phase of a worker that owns its lock: after a crash it recovers until it has re-entered.
fn owner_phase(has_entered: bool, phase: DrawnPhase) -> DrawnPhase
    ensures phase { result ≡ spec.owner_phase has_entered phase }
    ensures entered { has_entered ≡ true → result ≡ phase }
    ensures fallen { has_entered ≡ false → result ≡ DrawnPhase.Recover }
{
    if has_entered {
        phase
    } else {
        DrawnPhase::Recover
    }
}

/// The phase of a worker that has a number and waits for its lock.
fn waiting_phase_after(line: &EventLine, before: DrawnPhase) -> DrawnPhase
    ensures phase { result ≡ spec.waiting_phase_after line.now before }
    ensures without_lock { is_without_lock result ≡ true }
{
    match line {
        EventLine::Restart(_) => DrawnPhase::Recover,
        EventLine::Withdraw(_) => DrawnPhase::Exit,
        EventLine::Note(_, note) => waiting_phase_after_note(note, before),
        _ => DrawnPhase::Enter,
    }
}

/// The phase of a worker that waits for its lock after a step with this note.
fn waiting_phase_after_note(note: &Note, before: DrawnPhase) -> DrawnPhase
    ensures phase { result ≡ spec.waiting_phase_after_note note.now before }
    ensures without_lock { is_without_lock result ≡ true }
{
    match note {
        Note::Quiet | Note::Ready => phase_after_quiet(before, DrawnPhase::Enter),
        _ => DrawnPhase::Enter,
    }
}

/// The phase of a worker that has no job.
fn idle_phase_after(line: &EventLine, are_few: bool, before: DrawnPhase) -> DrawnPhase
    ensures phase { result ≡ spec.idle_phase_after line.now are_few before }
    ensures without_lock { is_without_lock result ≡ true }
{
    match line {
        EventLine::Restart(_) => DrawnPhase::Recover,
        EventLine::Note(_, note) => idle_phase_after_note(note, are_few, before),
        _ => DrawnPhase::Ready,
    }
}

/// The phase of a worker that has no job after a step with this note.
fn idle_phase_after_note(note: &Note, are_few: bool, before: DrawnPhase) -> DrawnPhase
    ensures phase { result ≡ spec.idle_phase_after_note note.now are_few before }
    ensures without_lock { is_without_lock result ≡ true }
{
    match note {
        Note::Left(_) | Note::Withdrew(_) => phase_after_leaving(are_few),
        Note::Quiet => phase_after_quiet(before, DrawnPhase::Ready),
        _ => DrawnPhase::Ready,
    }
}

/// The phase of a worker that left its lock or withdrew its job.
fn phase_after_leaving(are_few: bool) -> DrawnPhase
    ensures phase { result ≡ spec.phase_after_leaving are_few }
    ensures without_lock { is_without_lock result ≡ true }
{
    if are_few {
        DrawnPhase::Ready
    } else {
        DrawnPhase::Exit
    }
}

/// The phase after a step without a note: a worker that recovers or leaves still does so.
fn phase_after_quiet(before: DrawnPhase, other: DrawnPhase) -> DrawnPhase
    ensures phase { result ≡ spec.phase_after_quiet before other }
    ensures without_lock { is_without_lock other ≡ true → is_without_lock result ≡ true }
{
    match before {
        DrawnPhase::Recover | DrawnPhase::Exit => before,
        _ => other,
    }
}

/// Whether two phases are the same.
pub fn are_same_phase(phase: DrawnPhase, other: DrawnPhase) -> bool
    ensures { result ≡ (spec.drawn_phase_rank phase == spec.drawn_phase_rank other) }
{
    drawn_phase_rank(phase) == drawn_phase_rank(other)
}

/// The index of a phase among the phases.
fn drawn_phase_rank(phase: DrawnPhase) -> u8
    ensures { result ≡ spec.drawn_phase_rank phase }
{
    match phase {
        DrawnPhase::Ready => 0,
        DrawnPhase::Post => 1,
        DrawnPhase::Enter => 2,
        DrawnPhase::Section => 3,
        DrawnPhase::Exit => 4,
        DrawnPhase::Recover => 5,
        DrawnPhase::Down => 6,
    }
}
