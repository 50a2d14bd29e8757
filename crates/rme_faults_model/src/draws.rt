//! Pseudo-random numbers: everything in a simulation is drawn from its seed.

ghost use Rattle.std.specs.Prelude.{◌<◌, ◌≤◌};

use std::cell::Cell;

/// A xorshift generator, shared by all parts of a simulation.
#[derive(Drop)]
pub struct Draws {
    state: Cell<u64>,
}

impl Draws {
    /// The generator of a seed.
    pub fn new(seed: u64) -> Draws {
        let mixed = seed
            .wrapping_add(0x9e37_79b9_7f4a_7c15)
            .wrapping_mul(0xbf58_476d_1ce4_e5b9);
        let draws = Draws {
            state: Cell::new((mixed ^ (mixed >> 29)) | 1),
        };
        for _ in 0..8 {
            let _early = draws.word();
        }
        draws
    }

    /// The next word.
    fn word(&self) -> u64 {
        let mut word = self.state.get();
        word ^= word << 13;
        word ^= word >> 7;
        word ^= word << 17;
        self.state.set(word);
        word.wrapping_mul(0x2545_f491_4f6c_dd1d) >> 16
    }

    /// A number below `count`.
    pub fn below(&self, count: u32) -> u32
        requires { 1 ≤ count }
        ensures { result < count }
    {
        (self.word() % u64::from(count)) as u32
    }

    /// A number from `least` to `most`.
    pub fn between(&self, least: u32, most: u32) -> u32
        requires { least ≤ most }
        ensures least { least ≤ result }
        ensures most { result ≤ most }
    {
        let more = most - least;
        if more == u32::MAX {
            return most;
        }
        least + self.below(more + 1)
    }

    /// A length up to `most`.
    pub fn length_up_to(&self, most: usize) -> usize
        ensures { result ≤ most }
    {
        if most == usize::MAX {
            return most;
        }
        (self.word() % (most as u64 + 1)) as usize
    }

    /// Whether a thing happens that happens once in `count` times; never, if `count` is 0.
    pub fn is_one_in(&self, count: u32) -> bool {
        count > 0 && self.below(count) == 0
    }
}
