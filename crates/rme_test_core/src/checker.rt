//! The checker's machine, where no transcript tests it: its finished sections, and pairs that no line spells.
//! Transcripts test which steps it has, in `rows/transcripts/*.verdicts.tsv`.

use rme_core_checker::Machine;
use rme_program::{Answer, Event, Note};
use rme_script::{Job, Script};
use rme_words::{NoMemory, Refusal, Shape};
use rme_world::World;
use std::alloc::Global;
use std::process::Abort;
use std::test::Fail;

/// A pair of an event and its answer.
type Pair = (Event, Answer);

const QUIET: Answer = Answer::Stepped(Note::Quiet);

/// The submission of an empty job on this lock.
fn submit(lock: u32) -> Event {
    let script = Script::of(&[]);
    Event::Submit(0, Job { lock, script })
}

/// The machine has each of these steps, one after another; or it has none of them, and is unchanged.
fn all_admit(
    rt: &impl Abort,
    machine: &mut Machine,
    pairs: &[Pair],
    wanted: bool,
) -> Result<(), NoMemory> {
    for (event, answer) in pairs {
        assert!(rt; machine.admits(event, answer)? == wanted);
    }
    Ok(())
}

/// The events of one worker's empty job and 19 steps, as a world answers them.
fn pairs_of_a_job(alloc: Global, shape: Shape) -> Result<Vec<Pair>, Fail> {
    let mut world = World::new(alloc, shape)?;
    let mut events = [Event::Step(0); 20];
    events[0] = submit(0);
    let answers = world.run(&events)?;
    pairs_of(alloc, &events, &answers)
}

fn pairs_of(alloc: Global, events: &[Event], answers: &[Answer]) -> Result<Vec<Pair>, Fail> {
    let mut pairs = Vec::new(alloc);
    for (event, answer) in events.iter().zip(answers.iter()) {
        pairs.push((*event, *answer))?;
    }
    Ok(pairs)
}

/// Row `run and admits`: the machine has each step of a world.
#[test]
fn run_and_admits(rt: HostRuntime) -> Result<(), Fail> {
    let shape = Shape::new(1, 1, 1, 10)?;
    let pairs = pairs_of_a_job(rt.alloc(), shape)?;
    let mut machine = Machine::new(rt.alloc(), shape)?;
    all_admit(&rt, &mut machine, &pairs, true)?;
    assert!(rt; pairs.len() == 20 && machine.finished().len() == 1);
    assert!(rt; machine.owner(0) == None);
    Ok(())
}

/// Pairs without a label are no steps: the event can't have the answer, or names a lock that no transcript can name. A
/// refused event changes nothing, whatever it is, so it is a step of the machine.
#[test]
fn labels(rt: HostRuntime) -> Result<(), Fail> {
    let mut machine = Machine::new(rt.alloc(), Shape::new(2, 2, 1, 10)?)?;
    all_admit(&rt, &mut machine, &unlabelled(), false)?;
    all_admit(&rt, &mut machine, &refused(), true)?;
    Ok(())
}

fn unlabelled() -> [Pair; 9] {
    [
        (submit(0), QUIET),
        (submit(0), Answer::Crashed),
        (submit(2), Answer::Handed(1)),
        (Event::Step(0), Answer::Handed(1)),
        (Event::Step(0), Answer::Stepped(Note::Entered(2))),
        (Event::Crash(0), QUIET),
        (Event::Crash(0), Answer::Restarted),
        (Event::Restart(0), Answer::Withdrawing),
        (Event::Withdraw(0), Answer::Stepped(Note::Withdrew(1))),
    ]
}

fn refused() -> [Pair; 5] {
    [
        (submit(0), Answer::Refused(Refusal::Busy)),
        (Event::Step(7), Answer::Refused(Refusal::NoMemory)),
        (Event::Crash(0), Answer::Refused(Refusal::Down)),
        (Event::Restart(0), Answer::Refused(Refusal::Busy)),
        (Event::Withdraw(1), Answer::Refused(Refusal::Down)),
    ]
}
