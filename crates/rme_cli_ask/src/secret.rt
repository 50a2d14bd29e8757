//! The secret of a client, which begins its conversation with a server that has keys.

use crate::ask_end::AskFault;
use crate::dialogue::Dialogue;
use rme_ask_client::ClientRequest;
use rme_cli_messages::{BadArgument, CliFault};
use rme_line_io::{Sink, Source};
use std::{fs, io};

/// Why the secret of a file cannot be had.
#[derive(Drop)]
pub(crate) enum SecretFault {
    /// The file cannot be read, or is no text.
    Unread(io::Error),
    Cli(CliFault),
}

/// The secret of the file of this path: its first line, without spaces around it.
pub(crate) fn read_secret(rt: &HostRuntime, path: &str) -> Result<String, SecretFault> {
    if path.is_empty() {
        let no_file = CliFault::BadArguments(BadArgument::NoFile("--key-file"));
        return Err(SecretFault::Cli(no_file));
    }
    let text = match fs::read_to_string(rt, path) {
        Ok(text) => text,
        Err(error) => return Err(SecretFault::Unread(error)),
    };
    let line = text.as_str().lines().next().unwrap_or("");
    match String::from_str(rt.alloc(), line.trim()) {
        Ok(secret) => Ok(secret),
        Err(_) => Err(SecretFault::Cli(CliFault::NoMemory)),
    }
}

impl<R: Source + Drop, W: Sink + Drop, O: Sink + Drop, E: Sink + Drop> Dialogue<R, W, O, E> {
    /// Sends the secret, if one was given. Answers whether the server accepted it; a refusal is explained on the
    /// standard error.
    pub(crate) fn begin(&mut self, secret: &Option<String>) -> Result<bool, AskFault> {
        let Some(secret) = secret else {
            return Ok(true);
        };
        let greeted = self.accepted(ClientRequest::Hello(secret.as_str()))?;
        Ok(greeted.is_some())
    }
}
