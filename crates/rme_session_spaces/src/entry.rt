//! The entry of a space.

use crate::visit::SpaceVisit;
use rme_space_orders::SpaceName;
use rme_words::Refusal;
use std::alloc::{AllocError, Global};
use std::sync::atomic::{AtomicU64, Ordering};
use std::sync::{Arc, Condvar, Mutex, Wait};
use std::time::{Clock, Duration};

/// A space that is opened, open, being closed or removed.
#[derive(Drop)]
pub struct SpaceEntry<G> {
    name: SpaceName,
    /// The number of visits. It rises only while the registry is locked.
    visits: AtomicU64,
    state: Mutex<EntryState<G>>,
    /// Notified when the stage changes, a guest arrives, or the space is asked to close.
    changed: Condvar,
}

#[derive(Drop)]
struct EntryState<G> {
    stage: EntryStage,
    /// Whether the space is asked to close.
    should_close: bool,
    /// The guests that no thread has taken yet.
    guests: Vec<G>,
    /// Whether the space was removed, if it was to be.
    removed: Option<Result<(), Refusal>>,
}

/// The stage of a space.
#[derive(Clone, Copy, Debug, PartialEq, Eq)]
enum EntryStage {
    /// It is opened or removed. Visitors wait.
    Opening,
    /// Guests are taken.
    Open,
    /// No more guests are taken. Visitors wait.
    Closing,
    /// The entry is no longer that of its space: visitors look for the next one.
    Closed,
    /// It could not be opened.
    Failed(Refusal),
}

/// How a visit to a space goes on.
#[derive(Clone, Copy, Debug, PartialEq, Eq)]
pub(crate) enum Opened {
    Open,
    Closed,
    Refused(Refusal),
}

/// What came for the thread that serves a space.
#[derive(Drop)]
pub enum Arrival<G> {
    /// A guest, with its visit.
    Guest(G, SpaceVisit<G>),
    /// The space is asked to close.
    Close,
    /// Nothing came in time.
    Nothing,
}

impl<G: Drop> SpaceEntry<G> {
    ghost use Rattle.std.specs.Prelude.{◌≡◌, ◌↔◌, IfOk, IsTrue};
    ghost use Rattle.std.specs.Arc.{arc_value};
    ghost use Rattle.rme_session_spaces.specs.Visits.{ComesTo, entry_name};

    /// An entry of a space that is opened.
    pub(crate) fn new(alloc: Global, name: SpaceName) -> SpaceEntry<G>
        ensures { entry_name result ≡ name }
    {
        SpaceEntry {
            name,
            visits: AtomicU64::new(0),
            state: Mutex::new(EntryState {
                stage: EntryStage::Opening,
                should_close: false,
                guests: Vec::new(alloc),
                removed: None,
            }),
            changed: Condvar::new(),
        }
    }

    /// The name of the space.
    pub fn name(&self) -> &SpaceName
        ensures { result.now ≡ entry_name self.now }
    {
        &self.name
    }

    /// Whether the space has this name.
    pub(crate) fn has_name(&self, name: &SpaceName) -> bool
        ensures { IsTrue result ↔ (entry_name self.now ≡ name.now) }
    {
        self.name.as_str() == name.as_str()
    }

    /// The space is open: guests are taken from now on.
    pub fn opened<R: Wait>(&self, rt: &R) {
        self.set_stage(rt, EntryStage::Open);
    }

    /// No more guests are taken from now on. Visitors wait until the space is open again.
    pub fn begin_closing<R: Wait>(&self, rt: &R) {
        self.set_stage(rt, EntryStage::Closing);
    }

    /// Waits until a guest comes or the space is asked to close, at most this long. A guest has a visit to this space.
    pub fn next_arrival<R: Wait + Clock>(
        this: &Arc<SpaceEntry<G>>,
        rt: &R,
        most: Duration,
    ) -> Result<Arrival<G>, AllocError>
        ensures { IfOk result (ComesTo (entry_name (arc_value this.now))) }
    {
        let state = this.state.lock(rt);
        let (mut state, _) = this.changed.wait_timeout_while(rt, state, most, |state| {
            state.guests.is_empty() && !state.should_close
        });
        if let Some(guest) = state.guests.pop() {
            // The visit was begun when the guest was handed over.
            let visit = SpaceVisit::of(Arc::try_clone(this)?);
            return Ok(Arrival::Guest(guest, visit));
        }
        if state.should_close {
            state.should_close = false;
            return Ok(Arrival::Close);
        }
        Ok(Arrival::Nothing)
    }

    /// Gives a guest to the thread that serves the space. If it takes no more, the guest is returned, and its visit ends.
    pub(crate) fn take_guest<R: Wait>(&self, rt: &R, guest: G) -> Result<(), G> {
        let mut state = self.state.lock(rt);
        if state.stage != EntryStage::Open {
            return Err(guest);
        }
        match state.guests.push(guest) {
            Ok(()) => {
                self.changed.notify_all();
                Ok(())
            }
            Err(refused) => Err(refused.value),
        }
    }

    /// Asks the space to close.
    pub(crate) fn ask_to_close<R: Wait>(&self, rt: &R) {
        self.state.lock(rt).should_close = true;
        self.changed.notify_all();
    }

    /// Waits until the space is open, or its entry is over.
    pub(crate) fn wait_until_open<R: Wait>(&self, rt: &R) -> Opened {
        let state = self.state.lock(rt);
        let state = self.changed.wait_while(rt, state, |state| {
            matches!(state.stage, EntryStage::Opening | EntryStage::Closing)
        });
        match state.stage {
            EntryStage::Open => Opened::Open,
            EntryStage::Failed(why) => Opened::Refused(why),
            _ => Opened::Closed,
        }
    }

    /// Waits until the entry is over.
    pub(crate) fn wait_until_over<R: Wait>(&self, rt: &R) {
        let state = self.state.lock(rt);
        let _state = self.changed.wait_while(rt, state, |state| {
            matches!(
                state.stage,
                EntryStage::Opening | EntryStage::Open | EntryStage::Closing
            )
        });
    }

    /// Waits until the space is removed, or could not be.
    pub(crate) fn wait_until_removed<R: Wait>(&self, rt: &R) -> Result<(), Refusal> {
        let state = self.state.lock(rt);
        let state = self
            .changed
            .wait_while(rt, state, |state| state.removed.is_none());
        match state.removed {
            Some(removed) => removed,
            None => Ok(()),
        }
    }

    /// The space is removed or could not be, and the entry is over, as the registry knows already.
    pub(crate) fn end_removal<R: Wait>(&self, rt: &R, removed: Result<(), Refusal>) {
        self.state.lock(rt).removed = Some(removed);
        self.set_stage(rt, EntryStage::Closed);
    }

    /// The entry is over, as the registry knows already.
    pub(crate) fn end<R: Wait>(&self, rt: &R, refused: Option<Refusal>) {
        match refused {
            Some(why) => self.set_stage(rt, EntryStage::Failed(why)),
            None => self.set_stage(rt, EntryStage::Closed),
        }
    }

    /// Whether a session visits the space, or is on its way into it.
    pub fn has_visits(&self) -> bool {
        self.visits.load(Ordering::SeqCst) > 0
    }

    pub(crate) fn count_visit(&self) {
        self.visits.fetch_add(1, Ordering::SeqCst);
    }

    pub(crate) fn count_end_of_visit(&self) {
        self.visits.fetch_sub(1, Ordering::SeqCst);
    }

    fn set_stage<R: Wait>(&self, rt: &R, stage: EntryStage) {
        self.state.lock(rt).stage = stage;
        self.changed.notify_all();
    }
}
