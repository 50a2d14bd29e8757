//! The names and the shape that an opening asks for.

ghost use Rattle.std.specs.Prelude.{◌≡◌, IfOk, IfErr};
ghost use Rattle.rme_wire.specs.Openings.{ShapeIsAsGiven, IsGoodOpening, MayRefuseOpening};

use crate::opening::Opening;
use rme_line_io::Names;
use rme_words::{Refusal, Shape};
use std::alloc::Global;

/// The names and the shape of an opening. `BadShape` if the names or the numbers are outside the limits; `NoMemory`
/// only otherwise.
pub fn names_and_shape(alloc: Global, opening: &Opening) -> Result<(Names, Shape), Refusal>
    ensures ok { IfOk result (λ given. IsGoodOpening opening.now × (given.0 ≡ opening.now.locks)
        × ShapeIsAsGiven opening.now given.1) }
    ensures err { IfErr result (MayRefuseOpening opening.now) }
{
    if !opening.locks.are_names() {
        return Err(Refusal::BadShape);
    }
    let locks = opening.locks.len() as u32;
    let shape = match Shape::new(opening.workers, locks, opening.cells, opening.jobs) {
        Ok(shape) => shape,
        Err(refusal) => return Err(refusal),
    };
    match opening.locks.names(alloc) {
        Ok(names) => Ok((names, shape)),
        Err(_) => Err(Refusal::NoMemory),
    }
}
