//! The positions of a shape's words in the table of a service.
//!
//! The words are in the order of their numbers, block after block, with a gap before each block and after the last, so
//! that no cache line has words of two blocks. A thread that stores a word invalidates no cache line of threads at
//! other locks; and waiting workers, which swap the nodes of a lock all the time, invalidate no cache line of its
//! owner.

ghost use Rattle.std.specs.Prelude.{◌≡◌, ◌<◌, ◌≤◌, ◌+◌, ◌*◌};
ghost use Rattle.rme_words.specs.Words.{lock_block, word_count};
ghost use Rattle.rme_words.specs.declared.address.Address.{Address};
ghost use Rattle.rme_service_steps.specs.Layout.{block_of_word, half_of_lock, position_of_address, position_of_word, table_size};

use rme_words::Shape;

/// The number of unused words between two blocks. With seven, a line of 64 bytes has no words of both, wherever the
/// table begins.
const GAP: usize = 7;

/// The number of a worker's words.
const OWN_WORDS: usize = 31;

/// The number of words in the table of this shape.
pub(crate) fn table_size(shape: Shape) -> usize
    ensures { result ≡ table_size shape }
{
    shape.words() + GAP * (1 + (shape.workers as usize + 2 * shape.locks as usize))
}

/// The position of the word with this number.
pub(crate) fn position_of_word(shape: Shape, number: usize) -> usize
    requires { number < word_count shape }
    ensures position { result ≡ position_of_word shape number }
    ensures inside { result < table_size shape }
{
    number + GAP * (1 + block_of_word(shape, number))
}

/// The block of the word with this number: the workers' blocks come first, then two for each lock.
fn block_of_word(shape: Shape, number: usize) -> usize
    requires { number < word_count shape }
    ensures block { result ≡ block_of_word shape number }
    ensures few { result ≤ shape.workers + 2 * shape.locks }
{
    let own = OWN_WORDS * shape.workers as usize;
    if number < own {
        return number / OWN_WORDS;
    }
    let lock_block = shape.leaves as usize + 2 + 2 * shape.cells as usize;
    let behind = number - own;
    shape.workers as usize + (2 * (behind / lock_block) + half_of_lock(shape, behind % lock_block))
}

/// The half of a lock's words with the word at this offset: the first half has the nodes.
fn half_of_lock(shape: Shape, offset: usize) -> usize
    ensures half { result ≡ half_of_lock shape offset }
    ensures few { result ≤ 1 }
{
    if offset < shape.leaves as usize - 1 {
        0
    } else {
        1
    }
}

/// The position of the word with this number, which is in this block.
fn position_in_block(shape: Shape, number: usize, block: u32) -> usize
    requires number { number < word_count shape }
    requires block { block < shape.workers + 2 * shape.locks }
    ensures { result ≡ number + 7 * (1 + block) }
{
    number + GAP * (1 + block as usize)
}

/// The block of a lock's nodes.
fn block_of_nodes(shape: Shape, lock: u32) -> u32
    requires { lock < shape.locks }
    ensures { result ≡ shape.workers + 2 * lock }
{
    shape.workers + 2 * lock
}

/// The block of a lock's other words.
fn block_of_lock_words(shape: Shape, lock: u32) -> u32
    requires { lock < shape.locks }
    ensures { result ≡ shape.workers + (2 * lock + 1) }
{
    shape.workers + (2 * lock + 1)
}

/// The position of `Begun(worker)`.
pub fn begun_at(shape: Shape, worker: u32) -> usize
    requires { worker < shape.workers }
    ensures { result ≡ position_of_address shape (Address.Begun worker) }
{
    position_in_block(shape, shape.begun_at(worker), worker)
}

/// The position of `Done(worker)`.
pub fn done_at(shape: Shape, worker: u32) -> usize
    requires { worker < shape.workers }
    ensures { result ≡ position_of_address shape (Address.Done worker) }
{
    position_in_block(shape, shape.done_at(worker), worker)
}

/// The position of `Reply(worker)`.
pub fn reply_at(shape: Shape, worker: u32) -> usize
    requires { worker < shape.workers }
    ensures { result ≡ position_of_address shape (Address.Reply worker) }
{
    position_in_block(shape, shape.reply_at(worker), worker)
}

/// The position of `Place(worker)`.
pub fn place_at(shape: Shape, worker: u32) -> usize
    requires { worker < shape.workers }
    ensures { result ≡ position_of_address shape (Address.Place worker) }
{
    position_in_block(shape, shape.place_at(worker), worker)
}

/// The position of `At(worker)`.
pub fn receipt_lock_at(shape: Shape, worker: u32) -> usize
    requires { worker < shape.workers }
    ensures { result ≡ position_of_address shape (Address.At worker) }
{
    position_in_block(shape, shape.receipt_lock_at(worker), worker)
}

/// The position of `SlateLock(worker)`.
pub fn slate_lock_at(shape: Shape, worker: u32) -> usize
    requires { worker < shape.workers }
    ensures { result ≡ position_of_address shape (Address.SlateLock worker) }
{
    position_in_block(shape, shape.slate_lock_at(worker), worker)
}

/// The position of `SlateLen(worker)`.
pub fn slate_len_at(shape: Shape, worker: u32) -> usize
    requires { worker < shape.workers }
    ensures { result ≡ position_of_address shape (Address.SlateLen worker) }
{
    position_in_block(shape, shape.slate_len_at(worker), worker)
}

/// The position of `SlateWord(worker, operation, part)`.
pub fn slate_at(shape: Shape, worker: u32, operation: u32, part: u32) -> usize
    requires worker { worker < shape.workers }
    requires operation { operation < 8 }
    requires part { part < 3 }
    ensures { result ≡ position_of_address shape (Address.SlateWord worker operation part) }
{
    position_in_block(shape, shape.slate_at(worker, operation, part), worker)
}

/// The position of `Node(lock, node)`.
pub fn node_at(shape: Shape, lock: u32, node: u32) -> usize
    requires lock { lock < shape.locks }
    requires node { 1 ≤ node }
    requires below { node < shape.leaves }
    ensures { result ≡ position_of_address shape (Address.Node lock node) }
{
    position_in_block(
        shape,
        shape.node_at(lock, node),
        block_of_nodes(shape, lock),
    )
}

/// The position of `Turn(lock)`.
pub fn turn_at(shape: Shape, lock: u32) -> usize
    requires { lock < shape.locks }
    ensures { result ≡ position_of_address shape (Address.Turn lock) }
{
    position_in_block(shape, shape.turn_at(lock), block_of_lock_words(shape, lock))
}

/// The position of `ShadowReply(lock)`.
pub fn shadow_reply_at(shape: Shape, lock: u32) -> usize
    requires { lock < shape.locks }
    ensures { result ≡ position_of_address shape (Address.ShadowReply lock) }
{
    position_in_block(
        shape,
        shape.shadow_reply_at(lock),
        block_of_lock_words(shape, lock),
    )
}

/// The position of `Mask(lock)`.
pub fn mask_at(shape: Shape, lock: u32) -> usize
    requires { lock < shape.locks }
    ensures { result ≡ position_of_address shape (Address.Mask lock) }
{
    position_in_block(shape, shape.mask_at(lock), block_of_lock_words(shape, lock))
}

/// The position of `Cell(lock, cell)`.
pub fn cell_at(shape: Shape, lock: u32, cell: u32) -> usize
    requires lock { lock < shape.locks }
    requires cell { cell < shape.cells }
    ensures { result ≡ position_of_address shape (Address.Cell lock cell) }
{
    position_in_block(
        shape,
        shape.cell_at(lock, cell),
        block_of_lock_words(shape, lock),
    )
}

/// The position of `Shadow(lock, cell)`.
pub fn shadow_at(shape: Shape, lock: u32, cell: u32) -> usize
    requires lock { lock < shape.locks }
    requires cell { cell < shape.cells }
    ensures { result ≡ position_of_address shape (Address.Shadow lock cell) }
{
    position_in_block(
        shape,
        shape.shadow_at(lock, cell),
        block_of_lock_words(shape, lock),
    )
}
