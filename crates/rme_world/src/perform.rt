//! One operation on one word.

ghost use Rattle.std.specs.Prelude.{◌≡◌};
ghost use Rattle.rme_words.specs.Words.{IsShapeAddress, memory_of};
ghost use Rattle.rme_program.specs.ActionEffects.{ActionEffect, action_address};

use rme_program::Action;
use rme_words::Bank;

/// Executes an action, and answers the value that was loaded, found or stored.
pub fn perform(bank: &mut Bank, action: Action) -> u64
    requires { IsShapeAddress bank.old.shape (action_address action) }
    ensures shape { bank.new.shape ≡ bank.old.shape }
    ensures did { ActionEffect (memory_of bank.old) (memory_of bank.new) action result }
{
    match action {
        Action::Load(address) => bank.load(address),
        Action::Store(address, value) => {
            bank.store(address, value);
            value
        }
        Action::Swap(address, old, new) => bank.compare_exchange(address, old, new),
    }
}
