//! A row: the cells of one lock.

ghost use Rattle.std.specs.Prelude.{◌≡◌, ◌<◌, length, replicate, slice_index, slice_set};

use rme_words::Shape;
use std::marker::Model;

/// The cells of one lock, at most sixteen.
#[derive(Clone, Copy, PartialEq, Eq)]
pub struct Row {
    cells: [u64; 16],
    len: u32,
}

impl Model for Row {
    ghost use Rattle.std.specs.Prelude.{◌-◌, ◌++◌, ℕ, List, take, replicate, length};
    ghost use Rattle.rme_script.specs.Padding.{IsPaddedList, padding_is_restored};

    ghost Value = { List ℕ };

    ghost view = { λ r. take r.len r.cells };

    ghost invariant = { λ r. IsPaddedList 0 16 r.len r.cells };

    ghost inverse = { λ v. record { cells = v ++ replicate (16 - length v) 0; len = length v } };

    ghost inverse_ok = { λ a h. padding_is_restored (λ cells len. record { cells = cells; len = len }) 0 16 a.len
        a.cells h };
}

impl Row {
    /// A row with as many cells as each lock of the shape has, all 0.
    pub fn zeros(shape: Shape) -> Row
        ensures { result ≡ replicate shape.cells 0 }
    {
        Row {
            cells: [0; 16],
            len: shape.cells,
        }
    }

    /// The number of cells of the row.
    pub fn len(&self) -> u32
        ensures { result ≡ length self.now }
    {
        self.len
    }

    /// The value of a cell.
    pub fn get(&self, c: u32) -> u64
        requires { c < length self.now }
        ensures { result ≡ slice_index self.now c }
    {
        self.cells[c as usize]
    }

    /// Writes one cell.
    pub fn set(&mut self, c: u32, value: u64)
        requires { c < length self.old }
        ensures { self.new ≡ slice_set self.old c value }
    {
        self.cells[c as usize] = value;
    }
}
