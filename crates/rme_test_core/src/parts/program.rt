//! Rows of the step table, worked out by hand.

ghost use Rattle.std.specs.Prelude.{◌≡◌, IsTrue};
ghost use Rattle.rme_words.specs.Words.{IsShapeAddress};
ghost use Rattle.rme_program.specs.ActionEffects.{action_address};
ghost use Rattle.rme_program.specs.Conditions.{IsPrivate, IsValidLoad};

use rme_program::{
    Action, Departure, Log, Note, Phase, Private, Receipt, Recovery, Stage, after, left, next,
    phase,
};
use rme_script::{Job, Op, Script, from_slate};
use rme_words::{Address, Bank, Shape};
use std::process::Abort;
use std::test::Fail;

/// One step by hand: the steps left before it, its action, and its note.
type ExpectedStep = (u32, Action, Note);

/// A worker of two runs one script of one operation: 6 + 1 + 18 + 3 steps.
const PLAIN_PATH: [ExpectedStep; 28] = [
    (6, Action::Store(Address::SlateLock(0), 0), Note::Quiet),
    (5, Action::Store(Address::SlateLen(0), 1), Note::Quiet),
    (
        4,
        Action::Store(Address::SlateWord(0, 0, 0), 2),
        Note::Quiet,
    ),
    (
        3,
        Action::Store(Address::SlateWord(0, 0, 1), 0),
        Note::Quiet,
    ),
    (
        2,
        Action::Store(Address::SlateWord(0, 0, 2), 5),
        Note::Quiet,
    ),
    (1, Action::Store(Address::Begun(0), 1), Note::Asked(1)),
    (1, Action::Swap(Address::Node(0, 1), 0, 1), Note::Entered(0)),
    (39, Action::Load(Address::Turn(0)), Note::Quiet),
    (38, Action::Load(Address::SlateLen(0)), Note::Quiet),
    (16, Action::Load(Address::SlateWord(0, 0, 0)), Note::Quiet),
    (15, Action::Load(Address::SlateWord(0, 0, 1)), Note::Quiet),
    (14, Action::Load(Address::SlateWord(0, 0, 2)), Note::Quiet),
    (13, Action::Load(Address::Cell(0, 0)), Note::Quiet),
    (12, Action::Store(Address::Shadow(0, 0), 5), Note::Quiet),
    (11, Action::Store(Address::ShadowReply(0), 5), Note::Quiet),
    (10, Action::Store(Address::Mask(0), 1), Note::Quiet),
    (9, Action::Store(Address::Turn(0), 1), Note::Quiet),
    (8, Action::Load(Address::Mask(0)), Note::Quiet),
    (7, Action::Load(Address::Shadow(0, 0)), Note::Quiet),
    (6, Action::Store(Address::Cell(0, 0), 5), Note::Quiet),
    (5, Action::Load(Address::ShadowReply(0)), Note::Quiet),
    (4, Action::Store(Address::Reply(0), 5), Note::Quiet),
    (3, Action::Store(Address::Place(0), 0), Note::Quiet),
    (2, Action::Store(Address::At(0), 0), Note::Quiet),
    (
        1,
        Action::Store(Address::Done(0), 1),
        Note::Finished(Receipt {
            worker: 0,
            lock: 0,
            number: 1,
            place: 0,
            reply: 5,
        }),
    ),
    (3, Action::Load(Address::Turn(0)), Note::Quiet),
    (2, Action::Store(Address::Turn(0), 2), Note::Quiet),
    (1, Action::Store(Address::Node(0, 1), 0), Note::Left(0)),
];

/// A worker of four posts an empty script and takes one of its two nodes.
const ONE_LEVEL: [ExpectedStep; 4] = [
    (3, Action::Store(Address::SlateLock(0), 0), Note::Quiet),
    (2, Action::Store(Address::SlateLen(0), 0), Note::Quiet),
    (1, Action::Store(Address::Begun(0), 1), Note::Asked(1)),
    (2, Action::Swap(Address::Node(0, 2), 0, 1), Note::Quiet),
];

/// Then it gives up: 4 + 1 steps.
const WITHDRAWAL: [ExpectedStep; 5] = [
    (5, Action::Store(Address::Place(0), u64::MAX), Note::Quiet),
    (4, Action::Store(Address::At(0), 0), Note::Quiet),
    (3, Action::Store(Address::Reply(0), 0), Note::Quiet),
    (2, Action::Store(Address::Done(0), 1), Note::Withdrew(1)),
    (1, Action::Store(Address::Node(0, 2), 0), Note::Ready),
];

/// And after a crash it finds no job of its own.
const RECOVERY: [ExpectedStep; 4] = [
    (5, Action::Load(Address::Begun(0)), Note::Quiet),
    (4, Action::Load(Address::Done(0)), Note::Quiet),
    (3, Action::Load(Address::At(0)), Note::Quiet),
    (2, Action::Load(Address::Node(0, 2)), Note::Ready),
];

/// Whether a world's words may have the value that the worker loaded.
fn may_be(shape: Shape, private: &Private, value: u64) -> bool
    requires { IsPrivate shape private.now }
    ensures { IsTrue result → IsValidLoad shape private.now.stage value }
{
    match private.stage {
        Stage::Recovering(Recovery::LoadBegun | Recovery::LoadDone) => {
            value <= u64::from(shape.jobs)
        }
        Stage::Recovering(Recovery::LoadLock { .. }) => value < u64::from(shape.locks),
        Stage::Logging(Log::LoadTurn { .. }) => value < 1 << 32,
        Stage::Logging(Log::LoadLen { .. }) => value <= 8,
        Stage::Logging(
            Log::LoadSlate {
                operations,
                mut words,
                loaded,
                ..
            },
        ) => {
            words[loaded as usize] = value;
            match from_slate(u64::from(operations), &words) {
                Some(script) => script.check(shape).is_ok(),
                None => loaded + 1 < 3 * operations,
            }
        }
        Stage::Leaving(Departure::LoadExitTurn { .. }) => value < 1 << 32,
        _ => true,
    }
}

/// Performs an action, and answers the value that it loaded or found.
fn perform(bank: &mut Bank, action: Action) -> u64
    requires { IsShapeAddress bank.old.shape (action_address action) }
    ensures { bank.new.shape ≡ bank.old.shape }
{
    match action {
        Action::Load(address) => bank.load(address),
        Action::Store(address, value) => {
            bank.store(address, value);
            value
        }
        Action::Swap(address, old, new) => bank.compare_exchange(address, old, new),
    }
}

/// Makes one step, which must be this one.
fn make(rt: &impl Abort, bank: &mut Bank, private: &mut Private, step: ExpectedStep)
    requires { IsPrivate bank.old.shape private.old }
    ensures shape { bank.new.shape ≡ bank.old.shape }
    ensures private { IsPrivate bank.new.shape private.new }
{
    let shape = bank.shape();
    if let Stage::Resting = private.stage {
        panic!(rt; "no step is left");
    }
    let most = left(shape, private);
    let action = next(shape, private);
    let value = perform(bank, action);
    assert!(rt; may_be(shape, private, value));
    let note = after(shape, private, value);
    assert!(rt; (most, action, note) == step);
}

/// Makes these steps in turn.
fn walk(rt: &impl Abort, bank: &mut Bank, first: Private, steps: &[ExpectedStep]) -> Private
    requires { IsPrivate bank.old.shape first }
    ensures shape { bank.new.shape ≡ bank.old.shape }
    ensures private { IsPrivate bank.new.shape result }
{
    let mut private = first;
    for step in steps {
        make(rt, bank, &mut private, *step);
    }
    private
}

#[test]
fn walks_the_plain_path(rt: HostRuntime) -> Result<(), Fail> {
    let shape = Shape::new(2, 1, 1, 10)?;
    let mut bank = Bank::new(rt.alloc(), shape)?;
    let script = Script::of(&[Op::Add(0, 5)]);
    script.check(shape)?;
    let first = Private::submit(Private::ready(0, 0), Job { lock: 0, script });
    let last = walk(&rt, &mut bank, first, &PLAIN_PATH);
    assert!(rt; phase(&last) == Phase::Ready);
    Ok(())
}

#[test]
fn gives_up_and_recovers(rt: HostRuntime) -> Result<(), Fail> {
    let shape = Shape::new(4, 1, 1, 10)?;
    let mut bank = Bank::new(rt.alloc(), shape)?;
    let script = Script::of(&[]);
    script.check(shape)?;
    let first = Private::submit(Private::ready(0, 0), Job { lock: 0, script });
    give_up(&rt, &mut bank, first);
    let restarted = walk(&rt, &mut bank, Private::restart(0), &RECOVERY);
    assert!(rt; phase(&restarted) == Phase::Ready);
    Ok(())
}

/// A worker that posts its job takes one node and gives up.
fn give_up(rt: &impl Abort, bank: &mut Bank, first: Private)
    requires { IsPrivate bank.old.shape first }
    ensures { bank.new.shape ≡ bank.old.shape }
{
    let climbing = walk(rt, bank, first, &ONE_LEVEL);
    assert!(rt; phase(&climbing) == Phase::Enter);
    let Stage::Climbing(_) = climbing.stage else {
        panic!(rt; "it waits for its lock");
    };
    let given_up = walk(rt, bank, Private::withdraw(climbing), &WITHDRAWAL);
    assert!(rt; phase(&given_up) == Phase::Ready);
}
