//! The numbers of the words, for callers that read them.

ghost use Rattle.std.specs.Prelude.{◌≡◌, ◌↔◌, IsTrue, IfSome};
ghost use Rattle.rme_words.specs.Words.{IsShapeAddress};
ghost use Rattle.rme_process_abi.specs.Handles.{shape_numbers};
ghost use Rattle.rme_process_abi.specs.Words.{AbiWordCall, AbiWordCountCall, address_of_kind};

use rme_process_core::NO_WORD;
use rme_words::{Address, Shape};

/// The number of a word of the shape of these numbers.
///
/// `kind` is 0 for `Begun`, 1 `Done`, 2 `Reply`, 3 `Place`, 4 `At`, 5 `SlateLock`, 6 `SlateLen`, 7 `SlateWord`, 8
/// `Node`, 9 `Turn`, 10 `Cell`, 11 `Shadow`, 12 `ShadowReply` and 13 `Mask`. The other numbers are those of the
/// address, as many as it has. Answers 0, 5 (`BadShape`), or 103 if the shape has no such word; these write nothing.
#[unsafe(no_mangle)]
pub extern "C" fn rme_core_word(
    workers: u32,
    locks: u32,
    cells: u32,
    jobs: u32,
    kind: u32,
    first: u32,
    second: u32,
    third: u32,
    word: &mut u32,
) -> u32
    ensures { AbiWordCall (shape_numbers workers locks cells jobs) (address_of_kind kind first second third)
        word.old result
        word.new }
{
    let shape = match Shape::new(workers, locks, cells, jobs) {
        Ok(shape) => shape,
        Err(refusal) => return refusal.code(),
    };
    let Some(address) = address_of_kind(kind, first, second, third) else {
        return NO_WORD;
    };
    if !is_of_shape(shape, address) {
        return NO_WORD;
    }
    *word = shape.word(address) as u32;
    0
}

/// The number of words of a shape of these numbers.
///
/// Answers 0 or 5 (`BadShape`), which writes nothing.
#[unsafe(no_mangle)]
pub extern "C" fn rme_core_words(
    workers: u32,
    locks: u32,
    cells: u32,
    jobs: u32,
    words: &mut u32,
) -> u32
    ensures { AbiWordCountCall (shape_numbers workers locks cells jobs) words.old result words.new }
{
    let shape = match Shape::new(workers, locks, cells, jobs) {
        Ok(shape) => shape,
        Err(refusal) => return refusal.code(),
    };
    *words = shape.words() as u32;
    0
}

/// The address of a kind and its numbers.
fn address_of_kind(kind: u32, first: u32, second: u32, third: u32) -> Option<Address>
    ensures { result ≡ address_of_kind kind first second third }
{
    match kind {
        0 => Some(Address::Begun(first)),
        1 => Some(Address::Done(first)),
        2 => Some(Address::Reply(first)),
        3 => Some(Address::Place(first)),
        4 => Some(Address::At(first)),
        5 => Some(Address::SlateLock(first)),
        6 => Some(Address::SlateLen(first)),
        7 => Some(Address::SlateWord(first, second, third)),
        8 => Some(Address::Node(first, second)),
        9 => Some(Address::Turn(first)),
        10 => Some(Address::Cell(first, second)),
        11 => Some(Address::Shadow(first, second)),
        12 => Some(Address::ShadowReply(first)),
        13 => Some(Address::Mask(first)),
        _ => None,
    }
}

/// The shape has a word of this address.
fn is_of_shape(shape: Shape, address: Address) -> bool
    ensures { IsTrue result ↔ IsShapeAddress shape address }
{
    match address {
        Address::Begun(worker) | Address::Done(worker) | Address::Reply(worker) => {
            worker < shape.workers
        }
        Address::Place(worker) | Address::At(worker) => worker < shape.workers,
        Address::SlateLock(worker) | Address::SlateLen(worker) => worker < shape.workers,
        Address::SlateWord(worker, operation, part) => {
            worker < shape.workers && operation < 8 && part < 3
        }
        Address::Node(lock, node) => lock < shape.locks && 1 <= node && node < shape.leaves,
        Address::Turn(lock) | Address::ShadowReply(lock) | Address::Mask(lock) => lock
            < shape.locks,
        Address::Cell(lock, cell) | Address::Shadow(lock, cell) => {
            lock < shape.locks && cell < shape.cells
        }
    }
}
