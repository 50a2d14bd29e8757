//! The words of a world.

ghost use Rattle.std.specs.Prelude.{◌≡◌, IfOk};
ghost use Rattle.rme_waiting.specs.WorldWords.{world_bank};

use rme_words::{Bank, NoMemory};
use rme_world::World;

/// A copy of the words of a world. Takes memory for it; `NoMemory` if that was refused.
pub fn world_words(world: &World) -> Result<Bank, NoMemory>
    ensures { IfOk result (λ bank. bank ≡ world_bank world.now) }
{
    world.copy_words()
}
