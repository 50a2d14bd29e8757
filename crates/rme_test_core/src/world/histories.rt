//! Histories as an observer reads them: in the order of their places, replayed, and the steps tallied.

ghost use Rattle.std.specs.Prelude.{IfSome};
ghost use Rattle.rme_history.specs.Legal.{IsFirstBrokenEntry};

use crate::world::walks::cells_are;
use rme_history::{EntryList, ReplayFault, Tally, by_place, replay};
use rme_program::{Entry, Phase, Receipt};
use rme_script::{Op, Script};
use rme_words::{Refusal, Shape};
use std::alloc::Global;
use std::process::Abort;
use std::test::Fail;

/// The receipt of an entry: worker, lock, number, place and reply.
type EntryNumbers = (u32, u32, u32, u32, u64);

fn receipt((worker, lock, number, place, reply): EntryNumbers) -> Receipt {
    Receipt {
        worker,
        lock,
        number,
        place,
        reply,
    }
}

/// Appends an entry of one operation.
fn put(entries: &mut EntryList, numbers: EntryNumbers, op: Op) -> Result<(), Fail> {
    entries.reserve(1)?;
    entries.push(receipt(numbers), &Script::of(&[op]));
    Ok(())
}

/// The two finished sections of row `re-entry`, of which the second has this reply.
fn re_entry(alloc: Global, reply: u64) -> Result<EntryList, Fail> {
    let mut entries = EntryList::new(alloc);
    put(&mut entries, (0, 0, 1, 0, 5), Op::Add(0, 5))?;
    put(&mut entries, (1, 0, 1, 1, reply), Op::Add(0, 1))?;
    Ok(entries)
}

/// A list answers each entry that was put to it, and none past its end.
#[test]
fn listed(rt: HostRuntime) -> Result<(), Fail> {
    check_second(&rt, &re_entry(rt.alloc(), 6)?);
    Ok(())
}

fn check_second(rt: &impl Abort, entries: &EntryList) {
    let second = receipt((1, 0, 1, 1, 6));
    assert!(rt; entries.receipt(1) == Some(second));
    assert!(rt; entries.receipt(2) == None);
    for entry in [entries.get(1), entries.last()] {
        assert!(rt; is_entry(entry, second, Op::Add(0, 1)));
    }
    assert!(rt; entries.operations(0) == Some([Op::Add(0, 5)].as_slice()));
}

/// Whether there is an entry, of this receipt and this only operation.
fn is_entry(entry: Option<Entry>, receipt: Receipt, op: Op) -> bool {
    match entry {
        Some(entry) => entry.receipt == receipt && entry.script == Script::of(&[op]),
        None => false,
    }
}

/// A list with room for two entries has no entry yet.
#[test]
fn listed_with_room(rt: HostRuntime) -> Result<(), Fail> {
    let mut entries = EntryList::with_room(rt.alloc(), 2)?;
    assert!(rt; entries.len() == 0 && entries.last().is_none());
    entries.push(receipt((0, 0, 1, 0, 0)), &Script::of(&[]));
    assert!(rt; entries.len() == 1);
    Ok(())
}

/// Row `small calls`: the replay of the history of `re-entry` gives its row.
#[test]
fn replayed(rt: HostRuntime) -> Result<(), Fail> {
    let entries = re_entry(rt.alloc(), 6)?;
    let Ok(rows) = replay(rt.alloc(), Shape::new(2, 1, 1, 10)?, &entries) else {
        return Err(Refusal::NoMemory.into());
    };
    assert!(rt; rows.len() == 1 && entries.len() == 2);
    assert!(rt; cells_are(&rows[0], &[6]));
    Ok(())
}

/// The index of the first entry that does not follow from those before it.
fn first_broken(alloc: Global, shape: Shape, entries: &EntryList) -> Option<usize>
    ensures { IfSome result (λ i. IsFirstBrokenEntry shape entries.now.entries i) }
{
    match replay(alloc, shape, entries) {
        Err(ReplayFault::Broken(i)) => Some(i),
        _ => None,
    }
}

/// Row `small calls`: the replay of the history of `re-entry` with a wrong reply finds the fault.
#[test]
fn replayed_with_another_reply(rt: HostRuntime) -> Result<(), Fail> {
    let entries = re_entry(rt.alloc(), 7)?;
    assert!(rt; first_broken(rt.alloc(), Shape::new(2, 1, 1, 10)?, &entries) == Some(1));
    Ok(())
}

/// Entries in the order of their places: by lock, place, worker and number. Two entries with the same lock and place
/// are in no list of a world.
const IN_ORDER: [EntryNumbers; 5] = [
    (1, 0, 2, 0, 0),
    (1, 0, 3, 0, 0),
    (2, 0, 1, 0, 0),
    (0, 0, 1, 1, 0),
    (0, 1, 1, 0, 0),
];

/// The same entries in another order are put in this one.
#[test]
fn ties_of_places(rt: HostRuntime) -> Result<(), Fail> {
    let mut mixed = Vec::new(rt.alloc());
    for at in [4, 3, 2, 1, 0usize] {
        let receipt = receipt(IN_ORDER[at]);
        let script = Script::of(&[]);
        mixed.push(Entry { receipt, script })?;
    }
    let sorted = by_place(mixed);
    assert!(rt; sorted.len() == 5);
    for at in 0..5usize {
        assert!(rt; sorted[at].receipt == receipt(IN_ORDER[at]));
    }
    Ok(())
}

/// Puts the first or the second entry of a lock, each of which adds the lock's number plus 1. The shape has no such
/// workers, and no job such a number.
fn put_added(entries: &mut EntryList, lock: u32, place: u32) -> Result<(), Fail> {
    let sum = u64::from(lock) + 1;
    let reply = if place == 0 { sum } else { sum + sum };
    put(
        entries,
        (4_294_967_295, lock, 0, place, reply),
        Op::Add(0, sum),
    )
}

/// The cell that the two entries of each lock leave.
const SUMS: [u64; 16] = [2, 4, 6, 8, 10, 12, 14, 16, 18, 20, 22, 24, 26, 28, 30, 32];

/// A replay over sixteen locks, with two entries of each, keeps their rows apart. It does not check workers and
/// numbers.
#[test]
fn replay_over_sixteen_locks(rt: HostRuntime) -> Result<(), Fail> {
    let mut entries = EntryList::new(rt.alloc());
    for place in 0..2u32 {
        for lock in 0..16u32 {
            put_added(&mut entries, lock, place)?;
        }
    }
    let Ok(rows) = replay(rt.alloc(), Shape::new(1, 16, 1, 32)?, &entries) else {
        return Err(Refusal::NoMemory.into());
    };
    assert!(rt; rows.len() == 16);
    for lock in 0..16usize {
        assert!(rt; cells_are(&rows[lock], &[SUMS[lock]]));
    }
    Ok(())
}

/// A tally has the greatest count of each phase, and none of a worker that is ready. Rows by lines read it by `report`.
#[test]
fn tallied(rt: HostRuntime) {
    let mut tally = Tally::new();
    tally.see(Phase::Post, 6);
    tally.see(Phase::Exit, 3);
    tally.see(Phase::Post, 3);
    tally.see(Phase::Ready, 100);
    assert!(rt; tally.most(Phase::Post) == 6 && tally.most(Phase::Exit) == 3);
    assert!(rt; tally.most(Phase::Enter) == 0 && tally.most(Phase::Ready) == 0);
}
