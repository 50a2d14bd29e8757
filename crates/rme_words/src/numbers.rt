//! The number of each address among the words of a shape.

ghost use Rattle.std.specs.Prelude.{◌≡◌, ◌+◌, ◌*◌};

use crate::address::Address;
use crate::shape::Shape;

impl Shape {
    ghost use Rattle.std.specs.Prelude.{◌≡◌, ◌<◌, ◌≤◌, ◌+◌, ◌*◌};
    ghost use Rattle.rme_words.specs.Words.{IsShapeAddress, lock_start, word_number, word_count};
    ghost use Rattle.rme_words.specs.declared.address.Address.{Address};

    /// The number of words of the shape: 31 for each worker, and for each lock its leaves, 2, and twice its cells.
    pub fn words(&self) -> usize
        ensures { result ≡ word_count self.now }
    {
        31 * self.workers as usize + self.locks as usize * self.lock_block()
    }

    /// The number of words of each lock.
    fn lock_block(&self) -> usize
        ensures { result ≡ self.now.leaves + 2 + 2 * self.now.cells }
    {
        self.leaves as usize + 2 + 2 * self.cells as usize
    }

    /// The number of an address: distinct addresses have distinct numbers, all below `words`. If the kind of the
    /// address is known, the function of that kind is faster: `begun_at` to `mask_at`.
    pub fn word(&self, address: Address) -> usize
        requires { IsShapeAddress self.now address }
        ensures number { result ≡ word_number self.now address }
        ensures below { result < word_count self.now }
        ensures distinct { (other : Address) → IsShapeAddress self.now other → word_number self.now other ≡ result
            → other ≡ address }
    {
        self.number(address)
    }

    fn number(&self, address: Address) -> usize
        requires { IsShapeAddress self.now address }
        ensures { result ≡ word_number self.now address }
    {
        match address {
            Address::Begun(worker) => self.begun_at(worker),
            Address::Done(worker) => self.done_at(worker),
            Address::Reply(worker) => self.reply_at(worker),
            Address::Place(worker) => self.place_at(worker),
            Address::At(worker) => self.receipt_lock_at(worker),
            Address::SlateLock(worker) => self.slate_lock_at(worker),
            Address::SlateLen(worker) => self.slate_len_at(worker),
            Address::SlateWord(worker, operation, part) => self.slate_at(worker, operation, part),
            Address::Node(lock, node) => self.node_at(lock, node),
            Address::Turn(lock) => self.turn_at(lock),
            Address::Cell(lock, cell) => self.cell_at(lock, cell),
            Address::Shadow(lock, cell) => self.shadow_at(lock, cell),
            Address::ShadowReply(lock) => self.shadow_reply_at(lock),
            Address::Mask(lock) => self.mask_at(lock),
        }
    }

    /// The number of `Begun(worker)`.
    pub fn begun_at(&self, worker: u32) -> usize
        requires { worker < self.now.workers }
        ensures { result ≡ word_number self.now (Address.Begun worker) }
    {
        own(worker, 0)
    }

    /// The number of `Done(worker)`.
    pub fn done_at(&self, worker: u32) -> usize
        requires { worker < self.now.workers }
        ensures { result ≡ word_number self.now (Address.Done worker) }
    {
        own(worker, 1)
    }

    /// The number of `Reply(worker)`.
    pub fn reply_at(&self, worker: u32) -> usize
        requires { worker < self.now.workers }
        ensures { result ≡ word_number self.now (Address.Reply worker) }
    {
        own(worker, 2)
    }

    /// The number of `Place(worker)`.
    pub fn place_at(&self, worker: u32) -> usize
        requires { worker < self.now.workers }
        ensures { result ≡ word_number self.now (Address.Place worker) }
    {
        own(worker, 3)
    }

    /// The number of `At(worker)`.
    pub fn receipt_lock_at(&self, worker: u32) -> usize
        requires { worker < self.now.workers }
        ensures { result ≡ word_number self.now (Address.At worker) }
    {
        own(worker, 4)
    }

    /// The number of `SlateLock(worker)`.
    pub fn slate_lock_at(&self, worker: u32) -> usize
        requires { worker < self.now.workers }
        ensures { result ≡ word_number self.now (Address.SlateLock worker) }
    {
        own(worker, 5)
    }

    /// The number of `SlateLen(worker)`.
    pub fn slate_len_at(&self, worker: u32) -> usize
        requires { worker < self.now.workers }
        ensures { result ≡ word_number self.now (Address.SlateLen worker) }
    {
        own(worker, 6)
    }

    /// The number of `SlateWord(worker, operation, part)`.
    pub fn slate_at(&self, worker: u32, operation: u32, part: u32) -> usize
        requires worker { worker < self.now.workers }
        requires operation { operation < 8 }
        requires part { part < 3 }
        ensures { result ≡ word_number self.now (Address.SlateWord worker operation part) }
    {
        own(worker, 7 + 3 * operation + part)
    }

    /// The number of `Node(lock, node)`.
    pub fn node_at(&self, lock: u32, node: u32) -> usize
        requires lock { lock < self.now.locks }
        requires node { 1 ≤ node }
        requires below { node < self.now.leaves }
        ensures { result ≡ word_number self.now (Address.Node lock node) }
    {
        self.of_lock(lock, node - 1)
    }

    /// The number of `Turn(lock)`.
    pub fn turn_at(&self, lock: u32) -> usize
        requires { lock < self.now.locks }
        ensures { result ≡ word_number self.now (Address.Turn lock) }
    {
        self.of_lock(lock, self.leaves - 1)
    }

    /// The number of `Cell(lock, cell)`.
    pub fn cell_at(&self, lock: u32, cell: u32) -> usize
        requires lock { lock < self.now.locks }
        requires cell { cell < self.now.cells }
        ensures { result ≡ word_number self.now (Address.Cell lock cell) }
    {
        self.of_lock(lock, self.leaves + cell)
    }

    /// The number of `Shadow(lock, cell)`.
    pub fn shadow_at(&self, lock: u32, cell: u32) -> usize
        requires lock { lock < self.now.locks }
        requires cell { cell < self.now.cells }
        ensures { result ≡ word_number self.now (Address.Shadow lock cell) }
    {
        self.of_lock(lock, self.leaves + self.cells + cell)
    }

    /// The number of `ShadowReply(lock)`.
    pub fn shadow_reply_at(&self, lock: u32) -> usize
        requires { lock < self.now.locks }
        ensures { result ≡ word_number self.now (Address.ShadowReply lock) }
    {
        self.of_lock(lock, self.leaves + 2 * self.cells)
    }

    /// The number of `Mask(lock)`.
    pub fn mask_at(&self, lock: u32) -> usize
        requires { lock < self.now.locks }
        ensures { result ≡ word_number self.now (Address.Mask lock) }
    {
        self.of_lock(lock, self.leaves + 1 + 2 * self.cells)
    }

    /// The number of the word at an offset of a lock's block.
    fn of_lock(&self, lock: u32, offset: u32) -> usize
        requires { lock < self.now.locks }
        ensures { result ≡ lock_start self.now lock + offset }
    {
        31 * self.workers as usize + lock as usize * self.lock_block() + offset as usize
    }
}

/// The number of the word at an offset of a worker's block.
fn own(worker: u32, offset: u32) -> usize
    ensures { result ≡ 31 * worker + offset }
{
    31 * worker as usize + offset as usize
}
