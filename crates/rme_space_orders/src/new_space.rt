//! A space that may be created.

ghost use Rattle.std.specs.Prelude.{◌≡◌, IfOk, map, string_bytes};
ghost use Rattle.rme_wire.specs.Openings.{are_lock_names};
ghost use Rattle.rme_space_orders.specs.NewSpaces.{are_possible_sizes};

use crate::space_name::SpaceName;
use rme_wire::GivenNames;
use rme_words::{MOST_CELLS, MOST_WORKERS};
use std::alloc::{AllocError, Global};
use std::marker::Model;

/// The number of workers of a space whose order names none.
pub const USUAL_WORKERS: u32 = 8;

/// The number of cells of each lock of a space whose order names none.
pub const USUAL_CELLS: u32 = 1;

/// The greatest number of workers of a space: checkpoints need one of those of a shape.
const MOST_SPACE_WORKERS: u32 = MOST_WORKERS - 1;

/// A space that may be created: its name, the names of its locks, and its sizes.
///
/// The names are 1 to 16 names of locks, each once, and the sizes are within the limits of a shape with one worker
/// more.
#[derive(Drop)]
pub struct NewSpace {
    pub name: SpaceName,
    pub locks: Vec<String>,
    /// 1 to 255.
    pub workers: u32,
    /// The cells of each lock, 1 to 16.
    pub cells: u32,
}

impl Model for NewSpace {
    ghost use Rattle.std.specs.Prelude.{map, string_bytes};
    ghost use Rattle.rme_space_orders.specs.NewSpaces.{IsPossibleSpace, SpaceRequest};

    ghost Value = { SpaceRequest };

    ghost view = { λ space. record {
      name = space.name;
      locks = map string_bytes space.locks.items;
      workers = space.workers;
      cells = space.cells;
    } };

    ghost invariant = { λ space. IsPossibleSpace (map string_bytes space.locks.items) space.workers space.cells };
}

impl NewSpace {
    ghost use Rattle.std.specs.Prelude.{◌≡◌, IfOk, map, string_bytes};
    ghost use Rattle.rme_space_orders.specs.NewSpaces.{possible_space};

    /// The space with this name, these locks and these sizes; `None` if the texts cannot name locks, or a size is
    /// outside its limits. `AllocError` if memory was refused.
    #[tactic(auto, using(crate::proofs::Possible::is_possible_space), unfolding(crate::specs::NewSpaces::is_possible))]
    pub fn of(
        alloc: Global,
        name: SpaceName,
        locks: Vec<String>,
        workers: u32,
        cells: u32,
    ) -> Result<Option<NewSpace>, AllocError>
        ensures { IfOk result (λ space. space ≡ possible_space (record {
          name = name;
          locks = map string_bytes locks.items;
          workers = workers;
          cells = cells;
        })) }
    {
        if !are_lock_names(alloc, locks.as_slice())? {
            return Ok(None);
        }
        if !are_possible_sizes(workers, cells) {
            return Ok(None);
        }
        Ok(Some(NewSpace {
            name,
            locks,
            workers,
            cells,
        }))
    }
}

/// Whether these texts may name the locks of a world.
fn are_lock_names(alloc: Global, texts: &[String]) -> Result<bool, AllocError>
    ensures { IfOk result (λ are. are ≡ are_lock_names (map string_bytes texts.now)) }
{
    let copies = Vec::from_clones(alloc, texts)?;
    Ok(GivenNames::of(copies).are_names())
}

/// Whether a space can have these sizes.
fn are_possible_sizes(workers: u32, cells: u32) -> bool
    ensures { result ≡ are_possible_sizes workers cells }
{
    1 <= workers && workers <= MOST_SPACE_WORKERS && 1 <= cells && cells <= MOST_CELLS
}
