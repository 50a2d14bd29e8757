//! What comes to the server of a space: sessions, and questions of the pages.

use crate::space_directory::MovingSession;
use std::sync::{Arc, Condvar, Mutex, Wait};
use std::time::{Clock, Duration};

/// The seconds after which a question is given up, if nobody answers it.
const MOST_WAIT: u64 = 8;

/// What comes to the server of a space.
#[derive(Drop)]
pub(crate) enum SpaceGuest<'g> {
    /// A session, which goes on in the space.
    Session(MovingSession<'g>),
    /// A question for its status.
    Question(Arc<StatusQuestion>),
}

/// A question for the status of a space, which the server of the space answers.
#[derive(Drop)]
pub(crate) struct StatusQuestion {
    state: Mutex<QuestionState>,
    /// Notified when the question is answered.
    answered: Condvar,
}

#[derive(Drop)]
enum QuestionState {
    Asked,
    /// `None` if the space has no status any more.
    Answered(Option<String>),
}

impl StatusQuestion {
    /// A question that is not answered yet.
    pub(crate) fn new() -> StatusQuestion {
        StatusQuestion {
            state: Mutex::new(QuestionState::Asked),
            answered: Condvar::new(),
        }
    }

    /// Answers the question.
    pub(crate) fn answer<R: Wait>(&self, rt: &R, status: Option<String>) {
        *self.state.lock(rt) = QuestionState::Answered(status);
        self.answered.notify_all();
    }

    /// Waits for the answer. `None` if the space has no status any more, or does not answer in time.
    pub(crate) fn wait<R: Wait + Clock>(&self, rt: &R) -> Option<String> {
        let state = self.state.lock(rt);
        let most = Duration::from_secs(MOST_WAIT);
        let (mut state, _) = self.answered.wait_timeout_while(rt, state, most, |state| {
            matches!(state, QuestionState::Asked)
        });
        match &mut *state {
            QuestionState::Answered(status) => status.take(),
            QuestionState::Asked => None,
        }
    }
}
