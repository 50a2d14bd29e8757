//! The cells of a mask, in order.

ghost use Rattle.std.specs.Prelude.{◌≡◌, ◌<◌, ◌≤◌, IfSome};
ghost use Rattle.rme_script.specs.Scripts.{IsScript};
ghost use Rattle.rme_program.specs.Masks.{mask_of, first_cell};

use rme_script::{Script, named, next_cell};

/// The first cell of a mask that is at or after `from` and below `cells`.
pub fn first_cell(mask: u64, from: u32, cells: u32) -> Option<u32>
    requires { cells ≤ 16 }
    ensures first { result ≡ first_cell mask from cells }
    ensures below { IfSome result (λ cell. cell < cells) }
{
    next_cell(mask, from, cells)
}

/// The mask of the cells that a script names.
pub fn mask_of(script: &Script) -> u64
    requires { IsScript 16 script.now }
    ensures { result ≡ mask_of script.now.ops }
{
    named(script)
}
