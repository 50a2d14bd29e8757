//! A conversation with a server, and the console on which it is shown.

use crate::console::Console;
use rme_ask_client::Conversation;
use rme_cli_messages::CliFault;
use rme_line_io::{Sink, Source};
use std::alloc::Global;

/// A conversation with a server, and the console on which it is shown. Requests and their texts take memory here.
#[derive(Drop)]
pub(crate) struct Dialogue<R, W, O, E> {
    pub(crate) alloc: Global,
    pub(crate) talk: Conversation<R, W>,
    pub(crate) console: Console<O, E>,
}

impl<R: Source + Drop, W: Sink + Drop, O: Sink + Drop, E: Sink + Drop> Dialogue<R, W, O, E> {
    ghost use Rattle.std.specs.Prelude.{◌≡◌, IfErr};

    /// Prints the line of the last answer.
    pub(crate) fn print_answer(&mut self) -> Result<(), CliFault>
        ensures { IfErr result (λ fault. fault ≡ CliFault.WriteFailed) }
    {
        self.console.print_line(self.talk.answer_line())
    }
}
