//! The registry of the spaces that are open.

use crate::entry::{Opened, SpaceEntry};
use crate::visit::SpaceVisit;
use rme_space_orders::SpaceName;
use rme_words::{NoMemory, Refusal};
use std::alloc::{AllocError, Global};
use std::sync::{Arc, Condvar, Mutex, Wait};

/// The spaces that are opened, open, being closed, or reserved.
#[derive(Drop)]
pub struct SpaceRegistry<G> {
    alloc: Global,
    listed: Mutex<ListedSpaces<G>>,
    /// Notified when there is a task, and at the end.
    asked: Condvar,
}

#[derive(Drop)]
struct ListedSpaces<G> {
    entries: Vec<Arc<SpaceEntry<G>>>,
    /// What no thread does yet.
    tasks: Vec<SpaceTask<G>>,
    is_over: bool,
}

/// What a thread of its own is to do with a space.
#[derive(Drop)]
pub enum SpaceTask<G> {
    /// Open it, and serve it until it is closed.
    Open(Arc<SpaceEntry<G>>),
    /// Remove it. Nobody visits it meanwhile.
    Remove(Arc<SpaceEntry<G>>),
}

/// Whether a space can be removed.
enum Removing<G> {
    /// It waits for its thread.
    Begun(Arc<SpaceEntry<G>>),
    /// A session visits it.
    Visited,
    /// It is asked to close first.
    Closing(Arc<SpaceEntry<G>>),
}

impl<G: Drop> SpaceRegistry<G> {
    ghost use Rattle.std.specs.Prelude.{◌≡◌, IfOk};
    ghost use Rattle.rme_session_spaces.specs.Visits.{RemovesNamed, visit_name};

    /// A registry without spaces.
    pub fn new(alloc: Global) -> SpaceRegistry<G> {
        SpaceRegistry {
            alloc,
            listed: Mutex::new(ListedSpaces {
                entries: Vec::new(alloc),
                tasks: Vec::new(alloc),
                is_over: false,
            }),
            asked: Condvar::new(),
        }
    }

    /// Begins a visit to the space of this name, and waits until it is open. The refusal is that of whoever could not
    /// open it, or `NoMemory`.
    pub fn enter<R: Wait>(&self, rt: &R, name: &SpaceName) -> Result<SpaceVisit<G>, Refusal>
        ensures { IfOk result (λ visit. visit_name visit ≡ name.now) }
    {
        for _ in rt.forever() {
            let visit = self.begin_visit(rt, name)?;
            match visit.entry().wait_until_open(rt) {
                Opened::Open => return Ok(visit),
                Opened::Refused(why) => return Err(why),
                Opened::Closed => {}
            }
        }
        unreachable!()
    }

    /// Hands a guest over to the thread that serves the space of its visit. If the space takes no more guests, or memory
    /// was refused, the guest is returned, and its visit has ended.
    pub fn hand_over<R: Wait>(&self, rt: &R, visit: SpaceVisit<G>, guest: G) -> Result<(), G> {
        let entry = visit.into_entry();
        match entry.take_guest(rt, guest) {
            Ok(()) => Ok(()),
            Err(guest) => {
                entry.count_end_of_visit();
                Err(guest)
            }
        }
    }

    /// Waits for the next task that no thread does yet. `None` at the end.
    pub fn next_task<R: Wait>(&self, rt: &R) -> Option<SpaceTask<G>> {
        let listed = self.listed.lock(rt);
        let mut listed = self.asked.wait_while(rt, listed, |listed| {
            listed.tasks.is_empty() && !listed.is_over
        });
        listed.tasks.pop()
    }

    /// No more spaces are opened, and those that are open are asked to close.
    pub fn end<R: Wait>(&self, rt: &R) {
        let mut listed = self.listed.lock(rt);
        listed.is_over = true;
        for entry in &listed.entries {
            entry.ask_to_close(rt);
        }
        self.asked.notify_all();
    }

    /// Closes a space that no session visits: no more guests are taken then. Answers whether it has none.
    pub fn close_unvisited<R: Wait>(&self, rt: &R, entry: &SpaceEntry<G>) -> bool {
        let _listed = self.listed.lock(rt);
        if entry.has_visits() {
            return false;
        }
        entry.begin_closing(rt);
        true
    }

    /// The space is closed, or could not be opened for this reason. Its next visit opens it anew.
    pub fn remove_entry<R: Wait>(&self, rt: &R, entry: &SpaceEntry<G>, refused: Option<Refusal>) {
        self.unlist(rt, entry);
        entry.end(rt, refused);
    }

    /// The space is removed, or could not be for this reason.
    pub fn end_removal<R: Wait>(
        &self,
        rt: &R,
        entry: &SpaceEntry<G>,
        removed: Result<(), Refusal>,
    ) {
        self.unlist(rt, entry);
        entry.end_removal(rt, removed);
    }

    /// Has a space removed by a thread, and waits for that. It is closed first if it is open. `Busy` if a session visits
    /// it.
    pub fn remove_space<R: Wait>(&self, rt: &R, name: &SpaceName) -> Result<(), Refusal> {
        for _ in rt.forever() {
            match self.begin_removal(rt, name)? {
                Removing::Begun(entry) => return entry.wait_until_removed(rt),
                Removing::Visited => return Err(Refusal::Busy),
                Removing::Closing(entry) => entry.wait_until_over(rt),
            }
        }
        unreachable!()
    }

    /// Has a space of this name removed, if it has no entry; else has it closed, unless a session visits it.
    fn begin_removal<R: Wait>(&self, rt: &R, name: &SpaceName) -> Result<Removing<G>, NoMemory>
        ensures { IfOk result (RemovesNamed name.now) }
    {
        let mut listed = self.listed.lock(rt);
        if let Some(entry) = listed.find(name) {
            if entry.has_visits() {
                return Ok(Removing::Visited);
            }
            entry.ask_to_close(rt);
            return Ok(Removing::Closing(Arc::try_clone(entry)?));
        }
        let entry = listed.add_to_remove(self.alloc, name)?;
        self.asked.notify_all();
        Ok(Removing::Begun(entry))
    }

    /// The next visit to the space of an entry makes a new entry.
    fn unlist<R: Wait>(&self, rt: &R, entry: &SpaceEntry<G>) {
        self.listed
            .lock(rt)
            .entries
            .retain(|listed| !listed.has_name(entry.name()));
    }

    /// Begins a visit to the space of this name, which need not be open yet, and has it opened if nobody does.
    fn begin_visit<R: Wait>(&self, rt: &R, name: &SpaceName) -> Result<SpaceVisit<G>, NoMemory>
        ensures { IfOk result (λ visit. visit_name visit ≡ name.now) }
    {
        let mut listed = self.listed.lock(rt);
        if let Some(entry) = listed.find(name) {
            return Ok(SpaceVisit::begin(Arc::try_clone(entry)?));
        }
        let entry = listed.add_to_open(self.alloc, name)?;
        self.asked.notify_all();
        Ok(SpaceVisit::begin(entry))
    }
}

impl<G: Drop> ListedSpaces<G> {
    ghost use Rattle.std.specs.Prelude.{◌≡◌, IfOk, IfSome};
    ghost use Rattle.std.specs.Arc.{arc_value};
    ghost use Rattle.rme_session_spaces.specs.Visits.{entry_name};

    /// The entry of the space of this name, if there is one.
    fn find(&self, name: &SpaceName) -> Option<&Arc<SpaceEntry<G>>>
        ensures { IfSome result (λ entry. entry_name (arc_value entry.now) ≡ name.now) }
    {
        self.entries.iter().find(|entry| entry.has_name(name))
    }

    /// Adds an entry of a space of this name, which nobody opens yet.
    fn add_to_open(
        &mut self,
        alloc: Global,
        name: &SpaceName,
    ) -> Result<Arc<SpaceEntry<G>>, AllocError>
        ensures { IfOk result (λ entry. entry_name (arc_value entry) ≡ name.now) }
    {
        // With room for it, the last push cannot fail: each listed entry has its task.
        self.tasks.try_reserve(1)?;
        let entry = self.add(alloc, name)?;
        let task = SpaceTask::Open(Arc::try_clone(&entry)?);
        self.tasks.push(task)?;
        Ok(entry)
    }

    /// Adds an entry of a space of this name, which nobody removes yet.
    fn add_to_remove(
        &mut self,
        alloc: Global,
        name: &SpaceName,
    ) -> Result<Arc<SpaceEntry<G>>, AllocError>
        ensures { IfOk result (λ entry. entry_name (arc_value entry) ≡ name.now) }
    {
        self.tasks.try_reserve(1)?;
        let entry = self.add(alloc, name)?;
        let task = SpaceTask::Remove(Arc::try_clone(&entry)?);
        self.tasks.push(task)?;
        Ok(entry)
    }

    /// Adds an entry of a space of this name.
    fn add(&mut self, alloc: Global, name: &SpaceName) -> Result<Arc<SpaceEntry<G>>, AllocError>
        ensures { IfOk result (λ entry. entry_name (arc_value entry) ≡ name.now) }
    {
        let entry = Arc::new(alloc, SpaceEntry::new(alloc, name.copied(alloc)?))?;
        self.entries.push(Arc::try_clone(&entry)?)?;
        Ok(entry)
    }
}
