//! The machine step of an event and its answer.

ghost use Rattle.std.specs.Prelude.{◌≡◌};
ghost use Rattle.rme_machine.specs.Labels.{event_label};
ghost use Rattle.rme_machine.specs.AbstractState.{act_of_note};

use rme_machine::{Act, Label};
use rme_program::{Answer, Event, Note};

/// The label of an event and its answer, if the pair has one.
pub fn event_label(event: &Event, answer: &Answer) -> Option<Label>
    ensures { result ≡ event_label event.now answer.now }
{
    match (event, answer) {
        (_, Answer::Refused(_)) => Some(Label::Nothing),
        (Event::Submit(worker, job), Answer::Handed(number)) => {
            Some(Label::Of(*worker, Act::Hand(*number, *job)))
        }
        (Event::Step(worker), Answer::Stepped(note)) => Some(Label::Of(*worker, act_of_note(note))),
        (Event::Crash(worker), Answer::Crashed) => Some(Label::Of(*worker, Act::Crash)),
        (Event::Restart(worker), Answer::Restarted) => Some(Label::Of(*worker, Act::Restart)),
        (Event::Withdraw(worker), Answer::Withdrawing) => Some(Label::Of(*worker, Act::Wait)),
        _ => None,
    }
}

/// The step of a note.
fn act_of_note(note: &Note) -> Act
    ensures { result ≡ act_of_note note.now }
{
    match note {
        Note::Quiet | Note::Ready => Act::Still,
        Note::Asked(number) => Act::Ask(*number),
        Note::Blocked => Act::Wait,
        Note::Entered(lock) => Act::Take(*lock),
        Note::Reentered(lock) => Act::Reenter(*lock),
        Note::Finished(receipt) => Act::Finish(*receipt),
        Note::Left(lock) => Act::Leave(*lock),
        Note::Withdrew(number) => Act::Withdraw(*number),
    }
}
