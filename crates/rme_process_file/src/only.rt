//! The cells of a mask.

ghost use Rattle.std.specs.Prelude.{◌≡◌, ◌<◌, ◌≤◌, ◌↔◌, ℕ, true, IsTrue};
ghost use Rattle.rme_script.specs.Cells.{mask_has_cell};

use rme_script::has_cell;

/// Whether a mask has only cells below `cells`.
pub fn has_only(mask: u64, cells: u32) -> bool
    ensures { IsTrue result ↔ ((cell : ℕ) → cell < 64 → mask_has_cell mask cell ≡ true → cell < cells) }
{
    for cell in 0..64 {
        if has_cell(mask, cell) && cell >= cells {
            return false;
        }
    }
    true
}
