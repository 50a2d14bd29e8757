//! A session of the durable server.

ghost use Rattle.std.specs.Prelude.{◌≡◌};

use crate::durable_executor::DurableReply;
use rme_durable_epochs::ClientAnswer;
use rme_durable_log::{LogAppender, LogAuthor, LogPosition, LogStore, LogTag};
use rme_session_world::SessionState;
use std::marker::{Brand, Model};

/// A type that names the opening of one server, only for proofs. Each call of a program chooses it.
pub trait ServerTag: LogTag {
    ghost use Rattle.rme_durable_server.specs.ServerHistories.{ServerOpening};

    // The names of the locks, who leads the log, and the state with which the server begins.
    ghost opening: { ServerOpening };
}

impl ServerTag for Brand {
    ghost use Rattle.rme_durable_server.specs.ServerHistories.{no_opening};

    ghost opening = { no_opening };
}

/// A session: its state, the right to append its lines, and the position of the log that it has seen.
pub struct DurableSession<L: LogStore, J: LogTag> {
    pub(crate) state: SessionState,
    pub(crate) author: LogAuthor<J>,
    pub(crate) end: LogPosition<L, J>,
}

impl<L: LogStore, J: LogTag> Model for DurableSession<L, J> {
    ghost use Rattle.std.specs.Prelude.{◌≡◌};
    ghost use Rattle.rme_durable_server.specs.ServerHistories.{SessionMoment};

    ghost Value = { SessionMoment };

    ghost view = { λ session. record { session = session.state; log = session.end } };

    ghost invariant = { λ session. session.author ≡ session.state.session };
}

impl<L: LogStore, J: LogTag> DurableSession<L, J> {
    ghost use Rattle.std.specs.Prelude.{◌≡◌, IfSome, None};
    ghost use Rattle.rme_durable_server.specs.DurableAnswers.{IsSessionBegun};
    ghost use Rattle.rme_durable_server.specs.ServerHistories.{session_moment};

    /// A session without a worker, at the end of the log, in which nothing is its own. `None` if memory was refused, or
    /// if there are no more numbers of sessions.
    pub(crate) fn begin(appender: &mut LogAppender<L, J>) -> Option<DurableSession<L, J>>
        ensures begun { IfSome result (λ session. IsSessionBegun None session) }
        ensures end { IfSome result (λ session. session.log ≡ appender.old.log) }
        ensures log { appender.new.log ≡ appender.old.log }
        ensures waits { appender.new.waits ≡ appender.old.waits }
    {
        let author = appender.new_author()?;
        Some(DurableSession {
            state: SessionState::new(author.number()),
            author,
            end: appender.position(),
        })
    }

    /// The session at a later position of the log.
    pub(crate) fn moved_to(self, end: LogPosition<L, J>) -> DurableSession<L, J>
        ensures { result ≡ session_moment self.session end }
    {
        let DurableSession {
            state,
            author,
            end: _,
        } = self;
        DurableSession { state, author, end }
    }

    /// Moves the session to the moment of an order's reply.
    pub(crate) fn advance(&mut self, reply: DurableReply<L, J>) -> ClientAnswer
        requires { reply.state.session ≡ self.old.session.session }
        ensures now { self.new ≡ session_moment reply.state reply.end }
        ensures answered { result ≡ reply.answered }
    {
        let DurableReply {
            answered,
            state,
            end,
        } = reply;
        self.state = state;
        self.end = end;
        answered
    }
}
