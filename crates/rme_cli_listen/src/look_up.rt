//! A look-up, asked of a backend as by a client.

ghost use Rattle.std.specs.Prelude.{◌≡◌, IfOk, IfSome, string_bytes};
ghost use Rattle.rme_cli_listen.specs.StatusLookUps.{AnswersStatus};
ghost use Rattle.rme_session_loop.specs.SessionRuns.{AnswersWhileOpen};

use rme_session_loop::{Backend, Client, session};
use rme_session_server::Closer;
use rme_wire::{EngineFault, LineReader};
use rme_words::NoMemory;
use std::sync::Wait;
use std::time::Clock;

/// The order, as a client sends it.
const STATUS_LINE: &str = "{\"do\":\"status\"}\n";

/// A client that has no connection, so that nobody can close it.
#[derive(Clone, Copy, Drop)]
struct PageClient;

impl Client for PageClient {
    ghost gone = { λ _. ⊥ };

    type Handle = Closer;

    fn is_gone(&self) -> bool {
        false
    }

    fn handle(&self) -> Option<Closer> {
        None
    }
}

/// What a session of this backend without a worker is answered to the order `status`, with its newline. `None` if it
/// gets no answer, as when an event could not be logged.
pub fn look_up_status<B: Backend<Handle = Closer>, R: Wait + Clock>(
    rt: &R,
    backend: &B,
) -> Result<Option<String>, NoMemory>
    requires fits { B.fits backend.now }
    ensures { IfOk result (λ found. IfSome found (λ text.
        AnswersStatus (AnswersWhileOpen (B.finished backend.now) (B.answers backend.now ⊥)) (B.nobody backend.now)
        (string_bytes text))) }
{
    let alloc = backend.alloc();
    let mut lines = LineReader::new(alloc, STATUS_LINE.as_bytes())?;
    let mut answer = Vec::new(alloc);
    match session(rt, backend, &PageClient, &mut lines, &mut answer) {
        Ok(_) => Ok(text_of(answer)),
        Err(EngineFault::NoMemory) if !backend.is_over(rt) => Err(NoMemory),
        Err(_) => Ok(None),
    }
}

/// The text of these bytes; `None` if they are not UTF-8.
fn text_of(bytes: Vec<u8>) -> Option<String>
    ensures { IfSome result (λ text. string_bytes text ≡ bytes.items) }
{
    match String::from_utf8(bytes) {
        Ok(text) => Some(text),
        Err(_) => None,
    }
}
