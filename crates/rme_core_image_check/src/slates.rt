//! The slate of a worker.

ghost use Rattle.std.specs.Prelude.{◌≡◌, ◌<◌, ◌≤◌, ◌↔◌, IsTrue, take};
ghost use Rattle.rme_words.specs.Words.{memory_of};
ghost use Rattle.rme_machine.specs.Views.{slate_of_worker, slate_script, slate_job, is_pending, current_lock};
ghost use Rattle.rme_machine.specs.Invariant.{SlateHasJob};
ghost use Rattle.rme_core_image_check.specs.Reads.{bank_worker_words};

use rme_script::{Script, from_slate};
use rme_words::{Address, Bank};

/// The first `count` words of a worker's slate.
fn slate_words(bank: &Bank, worker: u32, count: u32) -> [u64; 24]
    requires worker { worker < bank.now.shape.workers }
    requires count { count ≤ 24 }
    ensures { take count result ≡ take count (slate_of_worker (memory_of bank.now) worker) }
{
    let mut words = [0; 24];
    for i in 0..count {
        words[i as usize] = bank.load(Address::SlateWord(worker, i / 3, i % 3));
    }
    words
}

/// The script of a worker's slate, if it is one.
fn slate_script(bank: &Bank, worker: u32) -> Option<Script>
    requires { worker < bank.now.shape.workers }
    ensures { result ≡ slate_script (bank_worker_words bank.now worker) }
{
    let n = bank.load(Address::SlateLen(worker));
    if n > 8 {
        return None;
    }
    from_slate(n, &slate_words(bank, worker, 3 * n as u32))
}

/// The script of a worker's slate; an empty one if the slate encodes none.
pub fn slate(bank: &Bank, worker: u32) -> Script
    requires { worker < bank.now.shape.workers }
    ensures { result ≡ (slate_job (bank_worker_words bank.now worker)).script }
{
    match slate_script(bank, worker) {
        Some(script) => script,
        None => Script::of(&[]),
    }
}

/// Whether a worker's slate has a job of the shape.
pub fn is_slate_job_valid(bank: &Bank, worker: u32) -> bool
    requires { worker < bank.now.shape.workers }
    ensures { IsTrue result ↔ SlateHasJob bank.now.shape (bank_worker_words bank.now worker) }
{
    let shape = bank.shape();
    if bank.load(Address::SlateLock(worker)) >= u64::from(shape.locks) {
        return false;
    }
    match slate_script(bank, worker) {
        Some(script) => script.check(shape).is_ok(),
        None => false,
    }
}

/// Whether a worker's last job is begun and not done.
pub fn is_pending(bank: &Bank, worker: u32) -> bool
    requires { worker < bank.now.shape.workers }
    ensures { result ≡ is_pending (bank_worker_words bank.now worker) }
{
    bank.load(Address::Done(worker)) < bank.load(Address::Begun(worker))
}

/// The lock that a worker is at: its slate's while a job is pending, otherwise that of its last receipt.
pub fn current_lock(bank: &Bank, worker: u32) -> u64
    requires { worker < bank.now.shape.workers }
    ensures { result ≡ current_lock (bank_worker_words bank.now worker) }
{
    if is_pending(bank, worker) {
        return bank.load(Address::SlateLock(worker));
    }
    bank.load(Address::At(worker))
}
