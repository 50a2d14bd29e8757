//! Laws of tries, each the contract of a function that does nothing.

ghost use Rattle.rme_replica.specs.Tries.{IsMadeAtMostOnce, TellsByHead};

/// Of any number of tries of one add, late ones among them, at most one is made. If the log ends with the very head
/// that the add puts, one was made.
pub fn lost_add_is_made_once()
    ensures once { IsMadeAtMostOnce }
    ensures told { TellsByHead }
{}
