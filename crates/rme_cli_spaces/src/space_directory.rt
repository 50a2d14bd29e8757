//! The spaces of a server, for its sessions.

use crate::space_guest::SpaceGuest;
use crate::spaces_folder::SpacesFolder;
use rme_cli_listen::{KeysFile, StderrObserver};
use rme_metrics::{LogCounters, ServerCounters};
use rme_session_keys::Access;
use rme_session_server::{AcceptedConnection, SharedObserver};
use rme_session_spaces::{SpaceDirectory, SpacePage, SpaceRegistry, SpaceVisit};
use rme_space_orders::{NewSpace, SpaceName};
use rme_words::Refusal;
use std::sync::Wait;
use std::time::Clock;

/// The observer of a server of spaces.
pub(crate) type SpacesObserver<'g> = SharedObserver<'g, StderrObserver<'g>>;

/// A session that goes on in another space: its connection, and what its key allows.
#[derive(Drop)]
pub(crate) struct MovingSession<'g> {
    pub(crate) connection: AcceptedConnection<SpacesObserver<'g>>,
    pub(crate) access: Access,
}

/// A visit to a space.
pub(crate) type DirectoryVisit<'g> = SpaceVisit<SpaceGuest<'g>>;

/// The spaces of a server: their folder, those that are open, the keys, if the server has some, and the counters, if
/// somebody can see what they tell.
#[derive(Drop)]
pub(crate) struct ServedSpaces<'a, 'g> {
    pub(crate) folder: SpacesFolder<'a>,
    pub(crate) registry: SpaceRegistry<SpaceGuest<'g>>,
    pub(crate) keys: Option<KeysFile<'a>>,
    pub(crate) counters: Option<SpacesCounters>,
}

/// The counters of a server of spaces: of all its sessions, and of the writes to all its logs.
#[derive(Drop)]
pub(crate) struct SpacesCounters {
    pub(crate) sessions: ServerCounters,
    pub(crate) writes: LogCounters,
}

impl SpacesCounters {
    /// Counters of 0.
    pub(crate) fn new() -> SpacesCounters {
        SpacesCounters {
            sessions: ServerCounters::new(),
            writes: LogCounters::new(),
        }
    }
}

impl<'g> ServedSpaces<'_, 'g> {
    /// The counters of the sessions, if they are counted.
    pub(crate) fn session_counters(&self) -> Option<&ServerCounters> {
        match &self.counters {
            Some(counters) => Some(&counters.sessions),
            None => None,
        }
    }

    /// Counts a session that begins.
    pub(crate) fn count_session(&self) {
        if let Some(counters) = &self.counters {
            counters.sessions.session_began();
        }
    }

    /// Ends a session that was counted.
    pub(crate) fn finish<R: Wait>(&self, rt: &R, session: MovingSession<'g>) {
        if let Some(counters) = &self.counters {
            counters.sessions.session_ended();
        }
        session.connection.finish(rt);
    }

    /// Has a session go on in the space of its visit, or ends it if it has none.
    pub(crate) fn move_session<R: Wait>(
        &self,
        rt: &R,
        session: MovingSession<'g>,
        visit: Option<DirectoryVisit<'g>>,
    ) {
        let guest = SpaceGuest::Session(session);
        let refused = match visit {
            Some(visit) => self.registry.hand_over(rt, visit, guest),
            None => Err(guest),
        };
        if let Err(SpaceGuest::Session(session)) = refused {
            self.finish(rt, session);
        }
    }
}

/// A visit is one to the space of the name that was asked for. Nothing is said of what the folder has: no contract knows
/// files.
impl<'g> SpaceDirectory for ServedSpaces<'_, 'g> {
    ghost use Rattle.std.specs.Prelude.{◌≡◌, ⊤, IfOk};
    ghost use Rattle.rme_session_spaces.specs.Visits.{visit_name};

    type Visit = DirectoryVisit<'g>;

    ghost calls = { λ _. record {
      created = λ _ _. ⊤;
      entered = λ name answer. IfOk answer (λ visit. visit_name visit ≡ name);
      listed = λ _ _. ⊤;
      removed = λ _ _. ⊤;
    } };

    fn create<R: Wait + Clock>(&self, _rt: &R, space: &NewSpace) -> Result<(), Refusal> {
        self.folder.create(space)
    }

    fn enter<R: Wait + Clock>(
        &self,
        rt: &R,
        name: &SpaceName,
    ) -> Result<DirectoryVisit<'g>, Refusal> {
        self.registry.enter(rt, name)
    }

    fn list<R: Wait>(&self, _rt: &R, after: Option<&SpaceName>) -> Result<SpacePage, Refusal> {
        self.folder.list(after)
    }

    fn remove<R: Wait + Clock>(&self, rt: &R, name: &SpaceName) -> Result<(), Refusal> {
        self.registry.remove_space(rt, name)
    }
}
