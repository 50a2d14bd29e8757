//! A life of a server, whose sessions are moved by one thread.
//!
//! A stage is a backend of one line, and the answer to that line is a life of the server that it has: so it has the
//! buffers with which sessions call a backend.

ghost use Rattle.std.specs.Prelude.{◌≡◌, ⊤};

use crate::client::{CloseFlag, LineFeed, SimulatedClient};
use crate::disk::SimulatedFile;
use crate::run::Run;
use crate::steps::play;
use rme_durable_file::StateFile;
use rme_durable_server::{DurableServer, ServerTag};
use rme_session_loop::{AnswerError, AttemptError, Backend, Buffers, Client, NoCloseHandle};
use rme_wire::{Exchange, Names, Sink};
use std::alloc::Global;
use std::cell::Cell;
use std::mem::replace;
use std::sync::{Mutex, Wait};
use std::time::Clock;

/// The server that is simulated.
pub type SimulatedServer<'a, J> = DurableServer<StateFile<'a, SimulatedFile<'a>>, CloseFlag<'a>, J>;

/// A server, and the simulation of which a life is played on it.
#[derive(Drop)]
pub struct ScriptedStage<'s, 'a, J: ServerTag> {
    pub server: &'s SimulatedServer<'a, J>,
    /// For each session whether its client was closed.
    pub closed: &'a [Cell<bool>],
    pub run: Mutex<Option<Run<'a>>>,
}

impl<J: ServerTag> Backend for ScriptedStage<'_, '_, J> {
    ghost use Rattle.std.specs.Prelude.{⊤, None};

    type Stand = ();

    type Handle = NoCloseHandle;

    ghost fits = { λ _. ⊤ };

    ghost may_hold = { λ _ _. ⊤ };

    ghost nobody = { λ _. record {} };

    ghost answers = { λ _ _ _ _ _ _. ⊤ };

    ghost attached = { λ _ _. None };

    ghost ends = { λ _ _. ⊤ };

    fn alloc(&self) -> Global {
        self.server.alloc()
    }

    fn names(&self) -> &Names {
        self.server.names()
    }

    fn is_over<R: Wait>(&self, rt: &R) -> bool {
        self.server.is_over(rt)
    }

    fn begin_session(&self) {}

    fn is_finished(&self, _stand: &()) -> bool {
        false
    }

    fn attached_worker(&self, _stand: &()) -> Option<u32> {
        None
    }

    fn answer<R: Wait + Clock, O: Sink, C: Client<Handle = NoCloseHandle>>(
        &self,
        rt: &R,
        _stand: (),
        buffers: &mut Buffers,
        _writer: &mut O,
        _client: &C,
    ) -> ((), Result<(), AnswerError>) {
        let Ok(fresh) = Exchange::new(self.server.alloc()) else {
            return ((), Err(AnswerError::NoMemory));
        };
        let own = replace(&mut buffers.exchange, fresh);
        let run = self.run.lock(rt).take();
        if let Some(run) = run {
            let run = play(rt, self.server, self.closed, buffers, run);
            *self.run.lock(rt) = Some(run);
        }
        buffers.exchange = own;
        buffers.text.clear();
        ((), Ok(()))
    }

    fn end_session<R: Wait + Clock, C: Client<Handle = NoCloseHandle>>(
        &self,
        _rt: &R,
        _stand: (),
        _client: &C,
    ) -> Result<(), AttemptError> {
        Ok(())
    }
}
