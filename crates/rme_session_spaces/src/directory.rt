//! The spaces of a server, as its sessions see them.

use rme_space_orders::{NewSpace, SpaceName};
use rme_words::Refusal;
use std::sync::Wait;
use std::time::Clock;

/// Names of spaces, in order.
#[derive(Drop)]
pub struct SpacePage {
    pub names: Vec<SpaceName>,
    /// Whether there are further spaces after these.
    pub has_more: bool,
}

/// The spaces of a server.
///
/// Its four calls are those of the orders on spaces. The ghost member `calls` says which answers each of them gives.
pub trait SpaceDirectory {
    ghost use Rattle.std.specs.Option.{option_copied};
    ghost use Rattle.rme_session_spaces.specs.DirectoryCalls.{DirectoryCalls};

    /// A session's stay in a space, from its order `use` on.
    type Visit: Drop;

    // The answers that each call gives to what it is asked for.
    ghost calls: { Self → DirectoryCalls Self.Visit };

    /// Creates a space. If there is one of that name already, nothing changes: `SpaceDiffers` unless it has these
    /// workers, cells and locks. `NoMemory` if memory or the disk was refused.
    fn create<R: Wait + Clock>(&self, rt: &R, space: &NewSpace) -> Result<(), Refusal>
        ensures { (calls self.now).created space.now result };

    /// Begins a visit to a space, which is opened if it is not open yet. `NoSpace` if there is none of that name, or it
    /// cannot be opened.
    fn enter<R: Wait + Clock>(&self, rt: &R, name: &SpaceName) -> Result<Self::Visit, Refusal>
        ensures { (calls self.now).entered name.now result };

    /// The names of at most 1,000 spaces: the first ones, or the first ones after this name.
    fn list<R: Wait>(&self, rt: &R, after: Option<&SpaceName>) -> Result<SpacePage, Refusal>
        ensures { (calls self.now).listed (option_copied after.entry) result };

    /// Drops a space and its history. `NoSpace` if there is none of that name; `Busy` if a session uses it, or a job is
    /// pending in it.
    fn remove<R: Wait + Clock>(&self, rt: &R, name: &SpaceName) -> Result<(), Refusal>
        ensures { (calls self.now).removed name.now result };
}
