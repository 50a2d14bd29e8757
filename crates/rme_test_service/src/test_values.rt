//! The values of the tests of both parts: a service and its Downs, jobs, entries and closed locks.

ghost use Rattle.std.specs.Prelude.{◌≡◌, IfOk};
ghost use Rattle.rme.specs.Closing.{SeatsAreOfService};
ghost use Rattle.rme.specs.Supervised.{AreAllDowns};

use rme::service::{ClosedLock, Down, Service};
use rme::{Entry, Job, Op, Receipt, Script, Shape};
use std::alloc::Global;
use std::process::Abort;
use std::test::Fail;

/// The operations of row `five operations`: each kind but a get, and a sum that wraps.
pub const FIVE_OPERATIONS: &[Op] = &[
    Op::Set(1, 5),
    Op::Set(0, 18446744073709551615),
    Op::Add(0, 1),
    Op::Swap(0, 0),
    Op::Copy(1, 1),
];

/// A job on a lock.
pub fn job(lock: u32, operations: &[Op]) -> Job {
    Job {
        lock,
        script: Script::of(operations),
    }
}

/// A new service of these workers, locks, cells and jobs, and its Downs.
pub fn open(alloc: Global, sizes: (u32, u32, u32, u32)) -> Result<(Service, Vec<Down>), Fail>
    ensures ours { IfOk result (λ opened. SeatsAreOfService opened.0 opened.1.items) }
    ensures all { IfOk result (λ opened. AreAllDowns opened.0.shape opened.1.items) }
{
    let (workers, locks, cells, jobs) = sizes;
    Ok(Service::new(alloc, Shape::new(workers, locks, cells, jobs)?)?)
}

/// A Down of a service with one worker, as a list.
pub fn alone(
    rt: &impl Abort,
    alloc: Global,
    service: &Service,
    down: Down,
) -> Result<Vec<Down>, Fail>
    requires ours { down.ident ≡ service.now }
    ensures ours { IfOk result (λ downs. SeatsAreOfService service.now downs.items) }
    ensures all { IfOk result (λ downs. AreAllDowns service.now.shape downs.items) }
{
    assert!(rt; service.shape().workers == 1);
    assert!(rt; down.worker() == 0);
    let mut downs = Vec::with_capacity(alloc, 1)?;
    downs.push_reserved(down);
    Ok(downs)
}

/// The numbers of a receipt: worker, lock, number, place and reply.
pub type ReceiptNumbers = (u32, u32, u32, u32, u64);

/// A receipt of these numbers.
pub fn receipt((worker, lock, number, place, reply): ReceiptNumbers) -> Receipt {
    Receipt {
        worker,
        lock,
        number,
        place,
        reply,
    }
}

/// An entry: a receipt and the operations of its job.
pub type ExpectedEntry<'a> = (ReceiptNumbers, &'a [Op]);

/// Whether an entry is this one.
pub fn entry_is(entry: &Entry, expected: &ExpectedEntry<'_>) -> bool {
    let (numbers, operations) = expected;
    entry.receipt == receipt(*numbers) && entry.script == Script::of(operations)
}

/// Whether a list has exactly these entries.
fn entries_are(entries: &[Entry], expected: &[ExpectedEntry<'_>]) -> bool {
    for (entry, expected) in entries.iter().zip(expected) {
        if !entry_is(entry, expected) {
            return false;
        }
    }
    entries.len() == expected.len()
}

/// Whether a closed lock has exactly these cells and entries, and is settled as given.
pub fn lock_is(
    lock: &ClosedLock,
    cells: &[u64],
    settled: bool,
    expected: &[ExpectedEntry<'_>],
) -> bool {
    lock.cells.as_slice() == cells
        && lock.settled == settled
        && entries_are(&lock.entries, expected)
}
