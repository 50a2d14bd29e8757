//! Lists of events.

use crate::world::walks::job;
use rme_program::{Answer, Event, Note, Receipt};
use rme_words::{Refusal, Shape};
use rme_world::World;
use std::test::Fail;

const QUIET: Answer = Answer::Stepped(Note::Quiet);

/// Row `run and admits`: the answers to the empty job of one worker and to 19 steps.
const ANSWERS: [Answer; 20] = [
    Answer::Handed(1),
    QUIET,
    QUIET,
    Answer::Stepped(Note::Asked(1)),
    Answer::Stepped(Note::Entered(0)),
    QUIET,
    QUIET,
    QUIET,
    QUIET,
    QUIET,
    QUIET,
    QUIET,
    QUIET,
    QUIET,
    QUIET,
    Answer::Stepped(Note::Finished(Receipt {
        worker: 0,
        lock: 0,
        number: 1,
        place: 0,
        reply: 0,
    })),
    QUIET,
    QUIET,
    Answer::Stepped(Note::Left(0)),
    Answer::Refused(Refusal::Idle),
];

/// Row `run and admits`, the run: the events of a list are answered as the single calls are.
#[test]
fn run(rt: HostRuntime) -> Result<(), Fail> {
    let mut world = World::new(rt.alloc(), Shape::new(1, 1, 1, 10)?)?;
    let mut events = [Event::Step(0); 20];
    events[0] = Event::Submit(0, job(&[]));
    let answers = world.run(&events)?;
    assert!(rt; answers.as_slice() == ANSWERS.as_slice());
    Ok(())
}
