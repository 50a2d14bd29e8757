//! The cells and the shadow words of a lock, compared with a row.

ghost use Rattle.std.specs.Prelude.{◌≡◌, ℕ, ◌<◌, ◌↔◌, ◌⊎◌, IsTrue, true, length, slice_index};
ghost use Rattle.rme_script.specs.Cells.{mask_has_cell};
ghost use Rattle.rme_script.specs.Scripts.{IsScript};
ghost use Rattle.rme_machine.specs.Invariant.{MaskCoversOps};
ghost use Rattle.rme_core_image_check.specs.Reads.{bank_lock_words};
ghost use Rattle.rme_core_image_check.specs.Locks.{IsShadowOfRow};

use rme_script::{Row, Script, has_cell, named};
use rme_words::{Address, Bank, Shape};

/// Whether the mask has only cells of the lock, among them all that the script names.
fn is_mask_covering(shape: Shape, mask: u64, script: &Script) -> bool
    requires { IsScript shape.cells script.now }
    ensures { IsTrue result ↔ MaskCoversOps shape mask script.now.ops }
{
    let wanted = named(script);
    for c in 0..64 {
        if has_cell(mask, c) {
            if c >= shape.cells {
                return false;
            }
        } else if has_cell(wanted, c) {
            return false;
        }
    }
    true
}

/// Whether the shadow words of the mask's cells are those of a row.
fn has_shadows(bank: &Bank, lock: u32, mask: u64, row: &Row) -> bool
    requires lock { lock < bank.now.shape.locks }
    requires row { length row.now ≡ bank.now.shape.cells }
    ensures { IsTrue result ↔ ((c : ℕ) → c < bank.now.shape.cells → mask_has_cell mask c ≡ true
        → slice_index (bank_lock_words bank.now lock).shadows c ≡ slice_index row.now c) }
{
    for c in 0..bank.shape().cells {
        if has_cell(mask, c) && bank.load(Address::Shadow(lock, c)) != row.get(c) {
            return false;
        }
    }
    true
}

/// Whether the mask covers the script, the shadow words of its cells are those of a row, and the shadow reply is the
/// reply.
pub fn is_shadow_of_row(bank: &Bank, lock: u32, script: &Script, row: &Row, reply: u64) -> bool
    requires lock { lock < bank.now.shape.locks }
    requires script { IsScript bank.now.shape.cells script.now }
    requires row { length row.now ≡ bank.now.shape.cells }
    ensures { IsTrue result
        ↔ IsShadowOfRow bank.now.shape (bank_lock_words bank.now lock) script.now.ops row.now reply }
{
    let mask = bank.load(Address::Mask(lock));
    if !is_mask_covering(bank.shape(), mask, script) {
        return false;
    }
    if !has_shadows(bank, lock, mask, row) {
        return false;
    }
    bank.load(Address::ShadowReply(lock)) == reply
}

/// Whether the cells of a lock are a row.
pub fn has_cells(bank: &Bank, lock: u32, row: &Row) -> bool
    requires lock { lock < bank.now.shape.locks }
    requires row { length row.now ≡ bank.now.shape.cells }
    ensures { IsTrue result ↔ ((bank_lock_words bank.now lock).cells ≡ row.now) }
{
    for c in 0..bank.shape().cells {
        if bank.load(Address::Cell(lock, c)) != row.get(c) {
            return false;
        }
    }
    true
}

/// Whether each cell of a lock is that of one row or of the other.
pub fn has_mixed_cells(bank: &Bank, lock: u32, before: &Row, after: &Row) -> bool
    requires lock { lock < bank.now.shape.locks }
    requires before { length before.now ≡ bank.now.shape.cells }
    requires after { length after.now ≡ bank.now.shape.cells }
    ensures { IsTrue result ↔ ((c : ℕ) → c < bank.now.shape.cells
        → (slice_index (bank_lock_words bank.now lock).cells c ≡ slice_index before.now c)
        ⊎ (slice_index (bank_lock_words bank.now lock).cells c ≡ slice_index after.now c)) }
{
    for c in 0..bank.shape().cells {
        let cell = bank.load(Address::Cell(lock, c));
        if cell != before.get(c) && cell != after.get(c) {
            return false;
        }
    }
    true
}
