//! The calls of C. Each call is a method of the `CoreWorker` of a handle.
//!
//! Each handle that a call takes is one that `rme_core_new` wrote and that `rme_core_free` has not freed, and no other
//! call has it at the same time. C must keep to this; nothing checks it. Numbers may have any value. A parameter
//! `alloc` takes no bytes, and C does not pass it.

ghost use Rattle.std.specs.Prelude.{◌≡◌, take};
ghost use Rattle.rme_words.specs.declared.shape.Shape.{Shape};
ghost use Rattle.rme_process_abi.specs.Handles.{IsLiveHandle, AbiNewCall, HasShapeNumbers, shape_numbers};
ghost use Rattle.rme_process_core.specs.Workers.{WorkerRestarted};
ghost use Rattle.rme_process_core.specs.Calls.{AbiNextCall, AbiAfterCall, AbiStanceCall, AbiSubmitCall, AbiWithdrawCall, after_state, submit_state, submitted_slate};
ghost use Rattle.rme_process_core.specs.Processes.{NewIsCall, NextIsCall, AfterIsCall, SubmitIsCall, WithdrawIsCall, RestartIsCall};

use crate::handle::Handle;
use rme_process_core::{Batch, BatchOutcome, CoreWorker, FlatStance};
use rme_script::SLATE_WORDS;
use rme_words::{Refusal, Shape};
use std::alloc::Global;

/// Makes the private state of a worker that restarts after a crash, and writes its handle. It allocates once. A handle
/// that is already live is overwritten, and its worker is never freed.
///
/// Answers 0, 5 (`BadShape`), 6 (`NoWorker`) or 20 (`NoMemory`); a refusal leaves the handle unchanged.
#[unsafe(no_mangle)]
pub extern "C" fn rme_core_new(
    alloc: Global,
    workers: u32,
    locks: u32,
    cells: u32,
    jobs: u32,
    worker: u32,
    handle: &mut Handle,
) -> u32
    ensures made { AbiNewCall (shape_numbers workers locks cells jobs) worker handle.old result handle.new }
    ensures call { result ≡ 0 → (shape : Shape)
        → HasShapeNumbers (shape_numbers workers locks cells jobs) shape → NewIsCall shape worker handle.new.value }
{
    let shape = match Shape::new(workers, locks, cells, jobs) {
        Ok(shape) => shape,
        Err(refusal) => return refusal.code(),
    };
    if worker >= shape.workers {
        return Refusal::NoWorker.code();
    }
    match Box::new(alloc, CoreWorker::restarted(shape, worker)) {
        Ok(made) => {
            handle.close(made);
            0
        }
        Err(_) => Refusal::NoMemory.code(),
    }
}

/// Frees the worker of a handle.
#[unsafe(no_mangle)]
pub extern "C" fn rme_core_free(handle: Handle)
    requires { IsLiveHandle handle }
{
    drop(handle.into_box());
}

/// Fills the batch with the worker's next own steps, at least one and at most 96, and none after one whose note has the
/// kind `until`. C does not make the steps after a swap that stores nothing, or after a load that does not find the
/// expected value.
///
/// Answers 0, 102 while a batch is outstanding, or 10 (`Idle`) if the worker is ready; neither changes anything.
#[unsafe(no_mangle)]
pub extern "C" fn rme_core_next(
    alloc: Global,
    handle: &mut Handle,
    until: u32,
    batch: &mut Batch,
) -> u32
    requires { IsLiveHandle handle.old }
    ensures told { AbiNextCall handle.old.value until batch.old result handle.new.value batch.new }
    ensures call { result ≡ 0 → NextIsCall handle.old.value batch.new handle.new.value }
    ensures live { IsLiveHandle handle.new }
{
    let mut worker = handle.open(alloc);
    let answer = worker.predict(until, batch);
    handle.close(worker);
    answer
}

/// Takes back the values that the steps of a batch found, and writes the outcome.
///
/// `count` is the number of steps of the outstanding batch that were made, at least one: all, or those up to the first
/// that ended it. Answers 0; 100 if no world can have one of the values: then the worker is as after the steps before
/// it; or 101 if no batch of that many steps is outstanding, which changes nothing. After 0 and 100 no batch is
/// outstanding.
#[unsafe(no_mangle)]
pub extern "C" fn rme_core_after(
    alloc: Global,
    handle: &mut Handle,
    batch: &Batch,
    count: u32,
    outcome: &mut BatchOutcome,
) -> u32
    requires { IsLiveHandle handle.old }
    ensures took { AbiAfterCall (after_state handle.old.value outcome.old) batch.now count result
        (after_state handle.new.value outcome.new) }
    ensures call { result ≡ 0 → AfterIsCall handle.old.value (take count batch.now.values) handle.new.value }
    ensures live { IsLiveHandle handle.new }
{
    let mut worker = handle.open(alloc);
    let answer = worker.accept_values(batch, count, outcome);
    handle.close(worker);
    answer
}

/// Writes where the worker is, and answers 0.
#[unsafe(no_mangle)]
pub extern "C" fn rme_core_stance(
    alloc: Global,
    handle: &mut Handle,
    stance: &mut FlatStance,
) -> u32
    requires { IsLiveHandle handle.old }
    ensures stood { AbiStanceCall handle.old.value stance.new }
    ensures answer { result ≡ 0 }
    ensures unchanged { handle.new.value ≡ handle.old.value }
    ensures live { IsLiveHandle handle.new }
{
    let worker = handle.open(alloc);
    worker.write_stance(stance);
    handle.close(worker);
    0
}

/// Gives a job to a ready worker, and writes the number that the job will have.
///
/// The script has three words for each of its operations; further words are not read. The refusals, in this order, are
/// 9 (`Busy`), 11 (`NoLock`), 12 (`BadScript`), 13 (`NoCell`) and 14 (`TooManyJobs`); they change nothing.
#[unsafe(no_mangle)]
pub extern "C" fn rme_core_submit(
    alloc: Global,
    handle: &mut Handle,
    lock: u32,
    operations: u32,
    words: &[u64; SLATE_WORDS],
    number: &mut u64,
) -> u32
    requires { IsLiveHandle handle.old }
    ensures posted { AbiSubmitCall (submit_state handle.old.value number.old)
        (submitted_slate lock operations words.now) result
        (submit_state handle.new.value number.new) }
    ensures call { result ≡ 0
        → SubmitIsCall handle.old.value (submitted_slate lock operations words.now) handle.new.value }
    ensures live { IsLiveHandle handle.new }
{
    let mut worker = handle.open(alloc);
    let answer = worker.post(lock, operations, words, number);
    handle.close(worker);
    answer
}

/// Has a worker that waits for a lock give up its job: its next steps withdraw it.
///
/// Answers 0, 102 while a batch is outstanding, 10 (`Idle`) if the worker is ready, or 21 (`NotWaiting`) if it is not
/// in phase Enter; none of these changes anything.
#[unsafe(no_mangle)]
pub extern "C" fn rme_core_withdraw(alloc: Global, handle: &mut Handle) -> u32
    requires { IsLiveHandle handle.old }
    ensures withdrew { AbiWithdrawCall handle.old.value result handle.new.value }
    ensures call { result ≡ 0 → WithdrawIsCall handle.old.value handle.new.value }
    ensures live { IsLiveHandle handle.new }
{
    let mut worker = handle.open(alloc);
    let answer = worker.withdraw();
    handle.close(worker);
    answer
}

/// Forgets all that the worker knows but its number, and the outstanding batch: its recovery begins.
#[unsafe(no_mangle)]
pub extern "C" fn rme_core_restart(alloc: Global, handle: &mut Handle)
    requires { IsLiveHandle handle.old }
    ensures restarted { WorkerRestarted handle.old.value.shape handle.old.value.private.worker handle.new.value }
    ensures call { RestartIsCall handle.old.value handle.new.value }
    ensures live { IsLiveHandle handle.new }
{
    let mut worker = handle.open(alloc);
    worker.restart();
    handle.close(worker);
}
