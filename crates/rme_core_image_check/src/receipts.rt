//! Whether a worker's receipt words are those of its last number.

ghost use Rattle.std.specs.Prelude.{◌≡◌, ◌<◌, ◌≤◌, ◌↔◌, IsTrue};
ghost use Rattle.rme_core_image_check.specs.Reads.{bank_worker_words};
ghost use Rattle.rme_core_image_check.specs.Workers.{IsReceiptOfEntry, IsReceiptOfLastEntry, IsWithdrawnReceipt, ReceiptIsBlank, ReceiptIsValid};

use crate::last_entry_lists::last_number;
use crate::slates::is_pending;
use rme_program::{Entry, WITHDRAWN_PLACE};
use rme_words::{Address, Bank};

/// Whether the receipt words are those of an entry.
fn is_receipt_of_entry(bank: &Bank, worker: u32, entry: &Entry) -> bool
    requires { worker < bank.now.shape.workers }
    ensures { IsTrue result ↔ IsReceiptOfEntry (bank_worker_words bank.now worker) entry.now }
{
    let receipt = entry.receipt;
    if bank.load(Address::Done(worker)) != u64::from(receipt.number) {
        return false;
    }
    if bank.load(Address::Reply(worker)) != receipt.reply {
        return false;
    }
    if bank.load(Address::Place(worker)) != u64::from(receipt.place) {
        return false;
    }
    bank.load(Address::At(worker)) == u64::from(receipt.lock)
}

/// Whether the receipt words are those of the last entry, and there is one.
fn is_last_receipt(bank: &Bank, worker: u32, last: &Option<Entry>) -> bool
    requires { worker < bank.now.shape.workers }
    ensures { IsTrue result ↔ IsReceiptOfLastEntry (bank_worker_words bank.now worker) last.now }
{
    match last {
        None => false,
        Some(entry) => is_receipt_of_entry(bank, worker, entry),
    }
}

/// Whether the receipt words are those of a withdrawn number, which is not the last entry's.
fn is_withdrawn_receipt(bank: &Bank, worker: u32, last: &Option<Entry>) -> bool
    requires { worker < bank.now.shape.workers }
    ensures { IsTrue result ↔ IsWithdrawnReceipt bank.now.shape (bank_worker_words bank.now worker) last.now }
{
    if bank.load(Address::Done(worker)) == u64::from(last_number(last)) {
        return false;
    }
    if bank.load(Address::Reply(worker)) != 0 {
        return false;
    }
    bank.load(Address::At(worker)) < u64::from(bank.shape().locks)
}

/// Whether the receipt words are 0.
fn is_blank(bank: &Bank, worker: u32) -> bool
    requires { worker < bank.now.shape.workers }
    ensures { IsTrue result ↔ ReceiptIsBlank (bank_worker_words bank.now worker) }
{
    if bank.load(Address::Reply(worker)) != 0 {
        return false;
    }
    if bank.load(Address::Place(worker)) != 0 {
        return false;
    }
    bank.load(Address::At(worker)) == 0
}

/// Whether the receipt words are valid for the worker's last entry.
pub fn is_receipt_valid(bank: &Bank, worker: u32, last: &Option<Entry>) -> bool
    requires { worker < bank.now.shape.workers }
    ensures { IsTrue result ↔ ReceiptIsValid bank.now.shape (bank_worker_words bank.now worker) last.now }
{
    if u64::from(last_number(last)) > bank.load(Address::Done(worker)) {
        return false;
    }
    if bank.load(Address::Begun(worker)) == 0 {
        return is_blank(bank, worker);
    }
    if is_pending(bank, worker) {
        return true;
    }
    if bank.load(Address::Place(worker)) == WITHDRAWN_PLACE {
        return is_withdrawn_receipt(bank, worker, last);
    }
    is_last_receipt(bank, worker, last)
}
