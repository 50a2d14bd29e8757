//! The cells that a script names as the bits of a mask, and the cells of a mask in order.

ghost use Rattle.std.specs.Prelude.{◌≡◌, ℕ, ◌+◌, ◌^◌, ◌<◌, ◌≤◌, [], ◌∷◌, length, MatchOption, IfSome};
ghost use Rattle.rme_script.specs.Scripts.{OpIsWithin, IsScript};
ghost use Rattle.rme_script.specs.Cells.{IsMaskOfOps, IsNextCell, mask_has_cell, mask_cells, mask_cells_from, cells_of_ops};

use crate::op::Op;
use crate::script::Script;

/// The mask of one cell.
fn bit(c: u32) -> u64
    requires { c < 64 }
    ensures { result ≡ 2 ^ c }
{
    1 << c
}

/// The mask of the cells that an operation names.
#[tactic(auto, using(crate::proofs::Masks::one_bit, crate::proofs::Masks::two_bits))]
fn op_mask(op: Op) -> u64
    requires { OpIsWithin 16 op }
    ensures { IsMaskOfOps result (op ∷ []) }
{
    match op {
        Op::Get(c) | Op::Set(c, _) | Op::Add(c, _) => bit(c),
        Op::Copy(a, b) | Op::Swap(a, b) => bit(a) | bit(b),
    }
}

/// The mask of the cells that a script names: bit c is set if and only if the script names cell c.
///
/// The script passes `check` for some shape.
pub fn named(script: &Script) -> u64
    requires { IsScript 16 script.now }
    ensures mask { IsMaskOfOps result script.now.ops }
    ensures cells { (cells : ℕ) → mask_cells result cells ≡ cells_of_ops script.now.ops cells }
{
    let mut mask = 0;
    for i in 0..script.n() {
        mask |= op_mask(script.op(i));
    }
    mask
}

/// Whether a mask has a cell.
pub fn has_cell(mask: u64, c: u32) -> bool
    requires { c < 64 }
    ensures { result ≡ mask_has_cell mask c }
{
    (mask >> c) & 1 == 1
}

/// The first cell of a mask that is at or after `from` and below `cells`, or `None`.
///
/// Bits of `cells` and above are not read. To iterate over the cells of a mask, begin with `from` 0 and continue with
/// one more than the answer.
pub fn next_cell(mask: u64, from: u32, cells: u32) -> Option<u32>
    requires { cells ≤ 64 }
    ensures rest { MatchOption result (mask_cells_from mask from cells ≡ [])
        (λ c. mask_cells_from mask from cells ≡ c ∷ mask_cells_from mask (c + 1) cells) }
    ensures next { IfSome result (λ c. IsNextCell mask from cells c) }
{
    for c in from..cells {
        if has_cell(mask, c) {
            return Some(c);
        }
    }
    None
}

/// The number of cells of a mask below `cells`. Bits of `cells` and above are not read.
pub fn cell_count(mask: u64, cells: u32) -> u32
    requires { cells ≤ 64 }
    ensures count { result ≡ length (mask_cells mask cells) }
    ensures most { result ≤ cells }
{
    let mut count = 0;
    for c in 0..cells {
        if has_cell(mask, c) {
            count += 1;
        }
    }
    count
}
