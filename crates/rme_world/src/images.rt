//! Saved worlds.

ghost use Rattle.std.specs.Prelude.{◌≡◌, ℕ, IfOk, map, Option, None};
ghost use Rattle.std.specs.List.{range_with_len};
ghost use Rattle.rme_program.specs.declared.private.Private.{Private};

use crate::world::{World, no_counts};
use rme_core_image::{encode, parse};
use rme_core_image_check::is_valid_memory;
use rme_program::Private;
use rme_words::{Bank, NoMemory, Refusal};
use std::alloc::Global;

impl World {
    ghost use Rattle.std.specs.Prelude.{◌≡◌, IfOk};
    ghost use Rattle.rme_world.specs.Images.{LoadContract, SaveContract};

    /// The image of the world, in version 2: its sizes, its words and its history. It holds no private states and no
    /// counts: the world that `load` makes of it is this world after a crash of every worker that is up.
    ///
    /// Takes memory for the image; `NoMemory` if that was refused.
    pub fn save(&self) -> Result<Vec<u8>, NoMemory>
        ensures { IfOk result (λ bytes. SaveContract self.now bytes.items) }
    {
        let alloc = *self.counts.allocator();
        encode(alloc, self.shape(), self.bank.words(), &self.history)
    }

    /// A copy of the words, which a reader can look at while the world goes on. Takes memory for it; `NoMemory` if that
    /// was refused.
    pub fn copy_words(&self) -> Result<Bank, NoMemory>
        ensures shape { IfOk result (λ bank. bank.shape ≡ self.now.shape) }
        ensures words { IfOk result (λ bank. bank.words ≡ self.now.words) }
    {
        let alloc = *self.counts.allocator();
        let mut words = Vec::new(alloc);
        words.extend_from_slice(self.bank.words())?;
        Ok(Bank::of(self.shape(), words))
    }

    /// The world of an image, of version 2 or of the older version 1. All its workers are down, and all its counts are
    /// 0.
    ///
    /// Refused by `BadImage` if the bytes are no image, or violate a clause of valid images, and by `NoMemory`. Memory
    /// is taken as the bytes are read, never by a length field alone. The time is linear in the number of bytes.
    pub fn load(alloc: Global, image: &[u8]) -> Result<World, Refusal>
        ensures { LoadContract image.now result }
    {
        let parsed = parse(alloc, image)?;
        let shape = parsed.shape;
        let bank = Bank::of(shape, parsed.words);
        let mut history = parsed.entries;
        match is_valid_memory(alloc, &bank, &history) {
            Ok(true) => {}
            Ok(false) => return Err(Refusal::BadImage),
            Err(_) => return Err(Refusal::NoMemory),
        }
        match history.reserve(shape.workers as usize) {
            Ok(()) => {}
            Err(_) => return Err(Refusal::NoMemory),
        }
        let Ok(privates) = all_down(alloc, shape.workers) else {
            return Err(Refusal::NoMemory);
        };
        let Ok(counts) = no_counts(alloc, shape) else {
            return Err(Refusal::NoMemory);
        };
        Ok(World {
            bank,
            privates,
            history,
            counts,
        })
    }
}

/// No private state for any worker.
fn all_down(alloc: Global, workers: u32) -> Result<Vec<Option<Private>>, NoMemory>
    ensures { IfOk result (λ privates. privates.items ≡ map (λ (worker : ℕ). None) (range_with_len 0 workers)) }
{
    match (0..workers).map(|_| None).collect(alloc) {
        Ok(privates) => Ok(privates),
        Err(_) => Err(NoMemory),
    }
}
