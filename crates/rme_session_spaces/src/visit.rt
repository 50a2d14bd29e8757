//! A session's stay in a space.

use crate::entry::SpaceEntry;
use rme_space_orders::SpaceName;
use std::sync::Arc;

/// A session's stay in a space. The space is not closed for want of sessions meanwhile. It ends when it is dropped.
pub struct SpaceVisit<G> {
    entry: Arc<SpaceEntry<G>>,
}

impl<G: Drop> SpaceVisit<G> {
    ghost use Rattle.std.specs.Prelude.{◌≡◌};
    ghost use Rattle.std.specs.Arc.{arc_value};
    ghost use Rattle.rme_session_spaces.specs.Visits.{entry_name, visit_name};

    /// Begins a visit, while the registry is locked.
    pub(crate) fn begin(entry: Arc<SpaceEntry<G>>) -> SpaceVisit<G>
        ensures { visit_name result ≡ entry_name (arc_value entry) }
    {
        entry.count_visit();
        SpaceVisit { entry }
    }

    /// A visit that is counted already.
    pub(crate) fn of(entry: Arc<SpaceEntry<G>>) -> SpaceVisit<G>
        ensures { visit_name result ≡ entry_name (arc_value entry) }
    {
        SpaceVisit { entry }
    }

    /// The name of the space.
    pub fn name(&self) -> &SpaceName
        ensures { result.now ≡ visit_name self.now }
    {
        self.entry.name()
    }

    /// The entry of the space.
    pub(crate) fn entry(&self) -> &SpaceEntry<G>
        ensures { entry_name result.now ≡ visit_name self.now }
    {
        &*self.entry
    }

    /// The entry of the space, for which the visit stays counted.
    pub(crate) fn into_entry(self) -> Arc<SpaceEntry<G>>
        ensures { entry_name (arc_value result) ≡ visit_name self }
    {
        let SpaceVisit { entry } = self;
        entry
    }
}

impl<G: Drop> Drop for SpaceVisit<G> {
    fn drop(self) {
        self.entry.count_end_of_visit();
        let SpaceVisit { entry: _ } = self;
    }
}
