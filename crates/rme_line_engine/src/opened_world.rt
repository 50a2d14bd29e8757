//! Opening a world.

ghost use Rattle.std.specs.Prelude.{◌≡◌, IfOk, IfErr};
ghost use Rattle.rme_words.specs.declared.shape.Shape.{Shape};
ghost use Rattle.rme_wire.specs.Openings.{ShapeIsAsGiven, IsGoodOpening, MayRefuseOpening};
ghost use Rattle.rme_line_engine.specs.Tallies.{tallied_opening};

use crate::tallied::TalliedWorld;
use rme_wire::{Names, Opening, names_and_shape};
use rme_words::Refusal;
use rme_world::World;
use std::alloc::Global;

/// A world and the names of its locks.
#[derive(Drop)]
pub struct OpenedWorld {
    pub names: Names,
    pub world: TalliedWorld,
}

/// The world and the names of an opening. `BadShape` if the names or the numbers are outside the limits; `NoMemory`
/// only otherwise.
pub fn open_world(alloc: Global, opening: &Opening) -> Result<OpenedWorld, Refusal>
    ensures ok { IfOk result (λ opened. IsGoodOpening opening.now × (opened.names ≡ opening.now.locks)
        × ((shape : Shape) × ShapeIsAsGiven opening.now shape × (opened.world ≡ tallied_opening shape))) }
    ensures err { IfErr result (MayRefuseOpening opening.now) }
{
    let (names, shape) = match names_and_shape(alloc, opening) {
        Ok(given) => given,
        Err(refusal) => return Err(refusal),
    };
    let Ok(world) = World::new(alloc, shape) else {
        return Err(Refusal::NoMemory);
    };
    Ok(OpenedWorld {
        names,
        world: TalliedWorld::new(world),
    })
}
