ghost use Rattle.std.specs.Prelude.{◌≡◌, ◌↔◌, ◌∷◌, List, take};
ghost use Rattle.rme_program.specs.Steps.{private_action};
ghost use Rattle.rme_process_core.specs.Batches.{ActionMatches, batch_actions};
ghost use Rattle.rme_process_core.specs.Calls.{AnswersBatch};
ghost use Rattle.rme_process_core.specs.Folds.{ValuesAccepted};
ghost use Rattle.rme_process_core.specs.declared.flat.FlatAction.{FlatAction};
ghost use Rattle.rme_process_abi.specs.Handles.{IsLiveHandle};

use crate::exports::{
    rme_core_after, rme_core_free, rme_core_new, rme_core_next, rme_core_restart, rme_core_stance,
    rme_core_submit, rme_core_withdraw,
};
use crate::handle::Handle;
use crate::words::{rme_core_word, rme_core_words};
use rme_process_core::{
    BATCH_OUT, Batch, BatchOutcome, DAMAGED, FlatAction, FlatNote, FlatStance, NO_BATCH, NO_WORD,
};
use std::test::Fail;

const NO_ACTION: FlatAction = FlatAction {
    kind: 0,
    word: 0,
    value: 0,
};

fn no_batch() -> Batch {
    Batch {
        count: 0,
        actions: [NO_ACTION; 96],
        values: [0; 96],
    }
}

const NO_NOTE: FlatNote = FlatNote {
    kind: 0,
    worker: 0,
    lock: 0,
    number: 0,
    place: 0,
    reply: 0,
};

fn no_outcome() -> BatchOutcome {
    BatchOutcome {
        count: 0,
        phase: 0,
        notes: [NO_NOTE; 97],
    }
}

fn no_stance() -> FlatStance {
    FlatStance {
        phase: 0,
        lock: 0,
        number: 0,
    }
}

/// Two workers, a lock, a cell: 31 words of each worker, and then a node, the turn, the cell, its shadow, the shadow
/// reply and the mask.
const WORDS: usize = 68;

/// The script that adds 5 to the cell.
const ADD_FIVE: [u64; 24] = [
    2, 0, 5, 0, 0, 0, 0, 0, 0, 0, 0, 0, 0, 0, 0, 0, 0, 0, 0, 0, 0, 0, 0, 0,
];

/// Does one action on the words; answers the value that it found, and whether the batch continues.
fn act(words: &mut [u64; WORDS], action: FlatAction) -> (u64, bool) {
    let Some(word) = words.get_mut(action.word) else {
        return (0, false);
    };
    let found = *word;
    match action.kind {
        2 => {
            *word = action.value;
            (found, true)
        }
        3 => {
            if found == 0 {
                *word = action.value;
            }
            (found, found == 0)
        }
        4 => (found, found == action.value),
        5 => (found, found % 2 == 0 && found < 1 << 32),
        _ => (found, true),
    }
}

/// Does the actions of a batch, as C does, and answers their number.
fn make(words: &mut [u64; WORDS], batch: &mut Batch) -> u32 {
    for at in 0..batch.count.min(96) {
        let (found, goes_on) = act(words, batch.actions[at as usize]);
        batch.values[at as usize] = found;
        if !goes_on {
            return at + 1;
        }
    }
    batch.count
}

/// The words, and the structs that C passes.
#[derive(Drop)]
struct TestCaller {
    words: [u64; WORDS],
    batch: Batch,
    outcome: BatchOutcome,
}

impl TestCaller {
    fn new() -> TestCaller {
        TestCaller {
            words: [0; WORDS],
            batch: no_batch(),
            outcome: no_outcome(),
        }
    }
}

/// The number of predicted steps, that of their notes, and the phase.
fn summary(host: &TestCaller) -> (u32, u32, u32) {
    (host.batch.count, host.outcome.count, host.outcome.phase)
}

/// The kinds of the first two notes.
fn kinds(host: &TestCaller) -> (u32, u32) {
    (host.outcome.notes[0].kind, host.outcome.notes[1].kind)
}

/// Asks for the worker's next own steps. The first action is the operation of the next one, and no other batch is told
/// while this one is outstanding.
fn ask(rt: &HostRuntime, handle: &mut Handle, until: u32, batch: &mut Batch) -> u32
    requires { IsLiveHandle handle.old }
    ensures live { IsLiveHandle handle.new }
    ensures next { result ≡ 0 → (action : FlatAction) (others : List FlatAction)
        → batch_actions batch.new ≡ action ∷ others
        → ActionMatches handle.old.value.shape action
        (private_action handle.old.value.shape handle.old.value.private) }
{
    let refusal = rme_core_next(rt.alloc(), handle, until, batch);
    if refusal == 0 {
        let again = rme_core_next(rt.alloc(), handle, until, batch);
        prove!(again == BATCH_OUT);
    }
    refusal
}

/// Gives the values of the first `count` actions. They are taken exactly if each is one that its step may find.
fn give(
    rt: &HostRuntime,
    handle: &mut Handle,
    batch: &Batch,
    count: u32,
    outcome: &mut BatchOutcome,
) -> u32
    requires { IsLiveHandle handle.old }
    ensures live { IsLiveHandle handle.new }
    ensures exact { AnswersBatch handle.old.value count
        → (result ≡ 0) ↔ ValuesAccepted handle.old.value.shape handle.old.value.private (take count batch.now.values) }
{
    rme_core_after(rt.alloc(), handle, batch, count, outcome)
}

/// Has a worker make its next own steps on the words.
fn step(rt: &HostRuntime, handle: &mut Handle, until: u32, host: &mut TestCaller) -> u32
    requires { IsLiveHandle handle.old }
    ensures { IsLiveHandle handle.new }
{
    let refusal = ask(rt, handle, until, &mut host.batch);
    if refusal != 0 {
        return refusal;
    }
    let made = make(&mut host.words, &mut host.batch);
    give(rt, handle, &host.batch, made, &mut host.outcome)
}

#[test]
fn makes_a_job(rt: HostRuntime) -> Result<(), Fail> {
    let mut handle = Handle::dead(rt.alloc());
    let mut host = TestCaller::new();
    let mut number = 0;
    assert_eq!(rt; rme_core_new(rt.alloc(), 2, 1, 1, 10, 1, &mut handle), 0);
    assert_eq!(rt; step(&rt, &mut handle, 0, &mut host), 0);
    assert_eq!(rt; step(&rt, &mut handle, 0, &mut host), 0);
    assert_eq!(rt; (host.outcome.count, host.outcome.phase), (1, 5));
    assert_eq!(rt; kinds(&host).0, 7);
    assert_eq!(rt;
        rme_core_submit(rt.alloc(), &mut handle, 0, 1, &ADD_FIVE, &mut number),
        0
    );
    // The post, the sweep and the loads; then the stores, the copy, the receipt and the exit.
    assert_eq!(rt; step(&rt, &mut handle, 0, &mut host), 0);
    assert_eq!(rt; summary(&host), (13, 2, 3));
    assert_eq!(rt; kinds(&host), (1, 3));
    assert_eq!(rt; step(&rt, &mut handle, 0, &mut host), 0);
    assert_eq!(rt; summary(&host), (15, 2, 5));
    assert_eq!(rt; (kinds(&host), host.outcome.notes[0].reply), ((5, 6), 5));
    assert_eq!(rt;
        (
            host.words[33],
            host.words[62],
            host.words[63],
            host.words[64]
        ),
        (5, 0, 2, 5)
    );
    rme_core_free(handle);
    Ok(())
}

#[test]
fn ends_where_it_is_told_to(rt: HostRuntime) -> Result<(), Fail> {
    let mut handle = Handle::dead(rt.alloc());
    let mut host = TestCaller::new();
    let mut number = 0;
    assert_eq!(rt; rme_core_new(rt.alloc(), 2, 1, 1, 10, 1, &mut handle), 0);
    assert_eq!(rt; step(&rt, &mut handle, 0, &mut host), 0);
    assert_eq!(rt; step(&rt, &mut handle, 0, &mut host), 0);
    assert_eq!(rt;
        rme_core_submit(rt.alloc(), &mut handle, 0, 1, &ADD_FIVE, &mut number),
        0
    );
    assert_eq!(rt; step(&rt, &mut handle, 1, &mut host), 0);
    assert_eq!(rt; (host.batch.count, host.outcome.phase), (6, 2));
    // Another worker holds the node: the batch ends after the swap.
    host.words[62] = 1;
    assert_eq!(rt; step(&rt, &mut handle, 3, &mut host), 0);
    assert_eq!(rt; (host.outcome.count, host.outcome.notes[0].kind), (1, 2));
    host.words[62] = 0;
    assert_eq!(rt; step(&rt, &mut handle, 3, &mut host), 0);
    assert_eq!(rt;
        (host.batch.count, host.outcome.notes[0].kind, host.words[62]),
        (1, 3, 2)
    );
    // The slate has a word of no script: the load does not find what was expected, and the word is damaged.
    host.words[38] = 9;
    assert_eq!(rt; step(&rt, &mut handle, 0, &mut host), 0);
    assert_eq!(rt; step(&rt, &mut handle, 0, &mut host), DAMAGED);
    assert_eq!(rt; (host.outcome.count, host.outcome.phase), (0, 3));
    rme_core_free(handle);
    Ok(())
}

#[test]
fn refuses_what_does_not_come_now(rt: HostRuntime) -> Result<(), Fail> {
    let mut handle = Handle::dead(rt.alloc());
    let mut batch = no_batch();
    let mut outcome = no_outcome();
    let mut stance = no_stance();
    let mut number = 0;
    assert_eq!(rt; rme_core_new(rt.alloc(), 2, 1, 1, 10, 1, &mut handle), 0);
    assert_eq!(rt;
        rme_core_submit(rt.alloc(), &mut handle, 0, 1, &ADD_FIVE, &mut number),
        9
    );
    assert_eq!(rt; rme_core_next(rt.alloc(), &mut handle, 0, &mut batch), 0);
    assert_eq!(rt;
        (batch.count, batch.actions[0].kind, batch.actions[0].word),
        (1, 1, 31)
    );
    assert_eq!(rt;
        rme_core_next(rt.alloc(), &mut handle, 0, &mut batch),
        BATCH_OUT
    );
    assert_eq!(rt; rme_core_withdraw(rt.alloc(), &mut handle), BATCH_OUT);
    batch.values[0] = 11;
    assert_eq!(rt;
        rme_core_after(rt.alloc(), &mut handle, &batch, 1, &mut outcome),
        DAMAGED
    );
    assert_eq!(rt;
        rme_core_after(rt.alloc(), &mut handle, &batch, 1, &mut outcome),
        NO_BATCH
    );
    assert_eq!(rt; rme_core_stance(rt.alloc(), &mut handle, &mut stance), 0);
    assert_eq!(rt;
        (stance.phase, stance.lock, stance.number),
        (0, u32::MAX, 0)
    );
    rme_core_restart(rt.alloc(), &mut handle);
    rme_core_free(handle);
    Ok(())
}

#[test]
fn words_have_numbers(rt: HostRuntime) -> Result<(), Fail> {
    let mut word = 0;
    assert_eq!(rt; rme_core_words(2, 1, 1, 10, &mut word), 0);
    assert_eq!(rt; word, 68);
    assert_eq!(rt; rme_core_word(2, 1, 1, 10, 9, 0, 0, 0, &mut word), 0);
    assert_eq!(rt; word, 63);
    assert_eq!(rt; rme_core_word(2, 1, 1, 10, 9, 1, 0, 0, &mut word), NO_WORD);
    Ok(())
}
