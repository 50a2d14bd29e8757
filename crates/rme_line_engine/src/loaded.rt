//! Loading a saved world.

ghost use Rattle.std.specs.Prelude.{◌↔◌, IsTrue, IfOk, IfErr};
ghost use Rattle.rme_line_engine.specs.Lines.{IsLoadedWorld, ImageReadAs, MayNameLocks, MayRefuseLoad};

use crate::opened_world::OpenedWorld;
use crate::tallied::TalliedWorld;
use rme_wire::{GivenNames, Image, Loading};
use rme_words::Refusal;
use rme_world::World;
use std::alloc::Global;

/// The world and the names of a loading. `BadImage` first, if the image is not valid, then `BadShape` if the names are
/// outside the limits or their number is not that of the image's locks; `NoMemory` may come before either.
pub fn load_world(alloc: Global, loading: &Loading) -> Result<OpenedWorld, Refusal>
    ensures ok { IfOk result (λ opened. IsLoadedWorld loading.now opened.names opened.world) }
    ensures err { IfErr result (MayRefuseLoad loading.now) }
{
    let world = match world_of(alloc, &loading.image) {
        Ok(world) => world,
        Err(refusal) => return Err(refusal),
    };
    if !may_name(&loading.locks, &world) {
        return Err(Refusal::BadShape);
    }
    match loading.locks.names(alloc) {
        Ok(names) => Ok(OpenedWorld {
            names,
            world: TalliedWorld::new(world),
        }),
        Err(_) => Err(Refusal::NoMemory),
    }
}

/// The world of an image, if there is one.
fn world_of(alloc: Global, image: &Option<Image>) -> Result<World, Refusal>
    ensures { ImageReadAs image.now result }
{
    match image {
        None => Err(Refusal::BadImage),
        Some(image) => World::load(alloc, image.as_slice()),
    }
}

/// Whether names are within the limits, and their number is that of a world's locks.
fn may_name(names: &GivenNames, world: &World) -> bool
    ensures { IsTrue result ↔ MayNameLocks names.now world.now }
{
    if !names.are_names() {
        return false;
    }
    names.len() == world.shape().locks as usize
}
