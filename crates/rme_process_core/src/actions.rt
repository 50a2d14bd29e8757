//! The actions of a batch, some more at a time.

ghost use Rattle.std.specs.Prelude.{◌≡◌, ◌≤◌, ◌+◌, ◌++◌};
ghost use Rattle.rme_process_core.specs.Flat.{flat_load, flat_expecting_load, flat_even_load, flat_store, flat_swap};
ghost use Rattle.rme_process_core.specs.Batches.{batch_actions};

use crate::flat::{Batch, FlatAction};

/// Puts some more actions into the batch.
pub fn put<const N: usize>(batch: &mut Batch, actions: [FlatAction; N])
    requires room { batch.old.count + N ≤ 96 }
    ensures told { batch_actions batch.new ≡ batch_actions batch.old ++ actions.entry }
    ensures count { batch.new.count ≡ batch.old.count + N }
{
    let place = batch.count as usize;
    for at in 0..N {
        batch.actions[place + at] = actions[at];
    }
    batch.count += N as u32;
}

/// A load that may find anything.
pub fn load(word: usize) -> FlatAction
    ensures { result ≡ flat_load word }
{
    FlatAction {
        kind: 1,
        word,
        value: 0,
    }
}

/// A load that should find this.
pub fn expect(word: usize, value: u64) -> FlatAction
    ensures { result ≡ flat_expecting_load word value }
{
    FlatAction {
        kind: 4,
        word,
        value,
    }
}

/// A load that should find an even turn.
pub fn expect_even(word: usize) -> FlatAction
    ensures { result ≡ flat_even_load word }
{
    FlatAction {
        kind: 5,
        word,
        value: 0,
    }
}

/// A store.
pub fn store(word: usize, value: u64) -> FlatAction
    ensures { result ≡ flat_store word value }
{
    FlatAction {
        kind: 2,
        word,
        value,
    }
}

/// A swap, which should find 0.
pub fn swap(word: usize, value: u64) -> FlatAction
    ensures { result ≡ flat_swap word value }
{
    FlatAction {
        kind: 3,
        word,
        value,
    }
}
