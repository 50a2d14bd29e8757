//! The header of the next epoch.

use crate::checkpoint_builder::CheckpointFailed;
use rme_durable_epochs::{Base, EpochExecutor, Sections, last_receipts};
use rme_durable_format::{LastJob, LogHeader};
use rme_line_text::ClientReceipt;
use rme_program::Receipt;
use rme_words::Shape;
use rme_world::World;
use std::alloc::Global;

/// The header of the next epoch, of this shape, in which the checkpoint worker makes this number of sections of each
/// lock.
pub(crate) fn next_header(
    alloc: Global,
    old: &EpochExecutor,
    shape: Shape,
    sections_made: &[u32],
) -> Result<LogHeader, CheckpointFailed> {
    let Ok(mut header) = LogHeader::first(alloc, shape) else {
        return Err(CheckpointFailed);
    };
    let Some(epoch) = old.epoch().checked_add(1) else {
        return Err(CheckpointFailed);
    };
    header.epoch = epoch;
    set_lives(&mut header, old.lives());
    set_places(&mut header, old, sections_made)?;
    set_workers(alloc, &mut header, old)?;
    Ok(header)
}

/// Sets the lives of each worker that had some.
fn set_lives(header: &mut LogHeader, lives: &[u64]) {
    for worker in 0..lives.len() {
        if let Some(life) = header.lives.get_mut(worker) {
            *life = lives[worker];
        }
    }
}

/// Sets the place offset of each lock.
fn set_places(
    header: &mut LogHeader,
    old: &EpochExecutor,
    sections_made: &[u32],
) -> Result<(), CheckpointFailed> {
    let sections = Sections::of(old.executor().world());
    let mut lock: u32 = 0;
    for place in header.places.as_mut_slice() {
        let made = sections_made.get(lock as usize).copied().unwrap_or(0);
        let Some(next) = old.base().sections_before(lock, sections.at(lock)) else {
            return Err(CheckpointFailed);
        };
        let Ok(next) = i64::try_from(next) else {
            return Err(CheckpointFailed);
        };
        *place = next.saturating_sub(i64::from(made));
        lock = lock.saturating_add(1);
    }
    Ok(())
}

/// Sets the last number and outcome of each worker.
fn set_workers(
    alloc: Global,
    header: &mut LogHeader,
    old: &EpochExecutor,
) -> Result<(), CheckpointFailed> {
    let world = old.executor().world();
    let Ok(receipts) = last_receipts(alloc, world) else {
        return Err(CheckpointFailed);
    };
    for worker in 0..world.shape().workers.saturating_sub(1) {
        let place = worker as usize;
        let last = receipts.get(place).copied().unwrap_or(None);
        let (numbers, word) = next_worker_base(world, old.base(), worker, last)?;
        if let Some(number) = header.numbers.get_mut(place) {
            *number = numbers;
        }
        if let Some(last) = header.last.get_mut(place) {
            *last = word;
        }
    }
    Ok(())
}

/// The count of a worker's numbers over all epochs, without a pending one, and the outcome of the last of them.
/// `receipt` is that of its last section in this epoch, if it has one.
fn next_worker_base(
    world: &World,
    base: &Base,
    worker: u32,
    receipt: Option<Receipt>,
) -> Result<(u64, LastJob), CheckpointFailed> {
    if worker >= world.shape().workers {
        return Err(CheckpointFailed);
    }
    let Ok(begun) = u32::try_from(world.number(worker)) else {
        return Err(CheckpointFailed);
    };
    let pending = u32::from(world.pending(worker).is_some());
    let Some(over) = begun.checked_sub(pending) else {
        return Err(CheckpointFailed);
    };
    let past = base.worker_base(worker);
    let last = receipt.filter(|receipt| receipt.number == over);
    match (
        past.numbers.checked_add(u64::from(over)),
        base.client_last(past, over, last),
    ) {
        (Some(numbers), Some(last)) => Ok((numbers, last_job(numbers, last))),
        _ => Err(CheckpointFailed),
    }
}

/// The outcome of the last of this count of numbers.
fn last_job(numbers: u64, last: Option<ClientReceipt>) -> LastJob {
    match last {
        Some(receipt) => LastJob::Receipt(receipt),
        None if numbers == 0 => LastJob::Nothing,
        None => LastJob::Withdrawn,
    }
}
