//! The sessions of a space.

use crate::space_directory::{DirectoryVisit, MovingSession};
use rme_session_loop::CloseHandle;
use rme_session_server::Closer;
use std::alloc::Global;
use std::sync::{Mutex, Wait};

/// The sessions of a space: those that wait for their thread, and those that have one.
#[derive(Drop)]
pub(crate) struct SpaceSessions<'g> {
    waiting: Mutex<Vec<(MovingSession<'g>, DirectoryVisit<'g>)>>,
    running: Mutex<RunningSessions>,
}

#[derive(Drop)]
struct RunningSessions {
    sessions: Vec<RunningSession>,
    /// Whether no more sessions run from now on.
    is_over: bool,
}

/// A session that runs: the number of its connection, and what closes it.
#[derive(Drop)]
struct RunningSession {
    number: u64,
    closer: Closer,
}

impl<'g> SpaceSessions<'g> {
    /// No sessions yet.
    pub(crate) fn new(alloc: Global) -> SpaceSessions<'g> {
        SpaceSessions {
            waiting: Mutex::new(Vec::new(alloc)),
            running: Mutex::new(RunningSessions {
                sessions: Vec::new(alloc),
                is_over: false,
            }),
        }
    }

    /// Has a session wait for its thread. It is returned if memory was refused.
    pub(crate) fn put_waiting<R: Wait>(
        &self,
        rt: &R,
        session: MovingSession<'g>,
        visit: DirectoryVisit<'g>,
    ) -> Result<(), (MovingSession<'g>, DirectoryVisit<'g>)> {
        match self.waiting.lock(rt).push((session, visit)) {
            Ok(()) => Ok(()),
            Err(refused) => Err(refused.value),
        }
    }

    /// A session that waits for its thread.
    pub(crate) fn take_waiting<R: Wait>(
        &self,
        rt: &R,
    ) -> Option<(MovingSession<'g>, DirectoryVisit<'g>)> {
        self.waiting.lock(rt).pop()
    }

    /// Adds a session that runs. Answers whether it may run: there is memory for it, and the space has not failed.
    pub(crate) fn add<R: Wait>(&self, rt: &R, number: u64, closer: Closer) -> bool {
        let mut running = self.running.lock(rt);
        !running.is_over
            && running
                .sessions
                .push(RunningSession { number, closer })
                .is_ok()
    }

    /// Removes a session that no longer runs.
    pub(crate) fn remove<R: Wait>(&self, rt: &R, number: u64) {
        self.running
            .lock(rt)
            .sessions
            .retain(|session| session.number != number);
    }

    /// Closes the connections of all sessions, so that they end, and lets no more run.
    pub(crate) fn close_all<R: Wait>(&self, rt: &R) {
        let mut running = self.running.lock(rt);
        running.is_over = true;
        for session in &running.sessions {
            session.closer.close();
        }
    }
}
