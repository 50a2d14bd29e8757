//! The words of a shape, in one list.

ghost use Rattle.std.specs.Prelude.{◌≡◌, ◌≢◌, ◌+◌, ◌*◌, ◌<◌, IfOk, length, replicate};
ghost use Rattle.rme_words.specs.Words.{IsShapeAddress, StoreEffect, memory_of, read_word_at, word_number, word_count};

use crate::address::Address;
use crate::refusal::NoMemory;
use crate::shape::Shape;
use std::alloc::Global;
use std::marker::Model;

/// The words of a shape.
#[derive(Drop)]
pub struct Bank {
    shape: Shape,
    words: Vec<u64>,
}

impl Model for Bank {
    ghost use Rattle.std.specs.Prelude.{◌≡◌, length};
    ghost use Rattle.rme_words.specs.Words.{Memory, word_count};

    ghost Value = { Memory };

    ghost view = { λ bank. record { shape = bank.shape; words = bank.words.items } };

    ghost invariant = { λ bank. length bank.words.items ≡ word_count bank.shape };
}

/// As many zeros as the shape has words.
fn zeros(alloc: Global, count: usize) -> Result<Vec<u64>, NoMemory>
    ensures { IfOk result (λ words. words.items ≡ replicate count 0) }
{
    match vec![in alloc; 0u64; count] {
        Ok(words) => Ok(words),
        Err(_) => Err(NoMemory),
    }
}

impl Bank {
    /// The words of a shape, all 0. Takes memory for them all; `NoMemory` if that was refused.
    pub fn new(alloc: Global, shape: Shape) -> Result<Bank, NoMemory>
        ensures { IfOk result (λ bank. bank ≡ record { shape = shape; words = replicate (word_count shape) 0 }) }
    {
        let words = zeros(alloc, shape.words())?;
        Ok(Bank { shape, words })
    }

    /// The bank of these words, as many as the shape has.
    pub fn of(shape: Shape, words: Vec<u64>) -> Bank
        requires { length words.items ≡ word_count shape }
        ensures { result ≡ record { shape = shape; words = words.items } }
    {
        Bank { shape, words }
    }

    /// The words, each at the number of its address in the shape.
    pub fn words(&self) -> &[u64]
        ensures words { result.now ≡ self.now.words }
        ensures whole { length result.now ≡ word_count self.now.shape }
    {
        &self.words
    }

    /// The shape of the words.
    pub fn shape(&self) -> Shape
        ensures { result ≡ self.now.shape }
    {
        self.shape
    }

    /// The value of one word.
    pub fn load(&self, address: Address) -> u64
        requires { IsShapeAddress self.now.shape address }
        ensures { result ≡ memory_of self.now address }
    {
        self.words[self.shape.word(address)]
    }

    /// Stores a value into one word.
    pub fn store(&mut self, address: Address, value: u64)
        requires { IsShapeAddress self.old.shape address }
        ensures shape { self.new.shape ≡ self.old.shape }
        ensures stored { StoreEffect (memory_of self.old) (memory_of self.new) address value }
    {
        let at = self.shape.word(address);
        self.words[at] = value;
    }

    /// Compare-and-swap: stores `new` into one word if its value is `old`, and answers the value that it had.
    pub fn compare_exchange(&mut self, address: Address, old: u64, new: u64) -> u64
        requires { IsShapeAddress self.old.shape address }
        ensures shape { self.new.shape ≡ self.old.shape }
        ensures found { result ≡ memory_of self.old address }
        ensures stored { result ≡ old → StoreEffect (memory_of self.old) (memory_of self.new) address new }
        ensures kept { result ≢ old → self.new ≡ self.old }
    {
        let found = self.load(address);
        if found == old {
            self.store(address, new);
        }
        found
    }
}
