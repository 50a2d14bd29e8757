//! The text of a refusal: its name, its explanation, and a hint for the request.

use crate::ask_end::AskFault;
use crate::dialogue::Dialogue;
use rme_ask_client::{ClientRequest, RefusedAnswer, ServerAnswer};
use rme_cli_messages::{escape_controls, refusal_advice, refusal_of, refusal_when};
use rme_line_io::{Sink, Source};
use serde_json::Value;
use std::alloc::{AllocError, Global};

/// The number of `BadLine`.
const BAD_LINE: u64 = 1;

/// The number of `BadShape`.
const BAD_SHAPE: u64 = 5;

/// The number of `Busy`.
pub(crate) const BUSY: u64 = 9;

/// The number of `NoSpace`.
const NO_SPACE: u64 = 23;

/// The number of `Taken`.
const TAKEN: u64 = 18;

impl<R: Source + Drop, W: Sink + Drop, O: Sink + Drop, E: Sink + Drop> Dialogue<R, W, O, E> {
    /// Sends a request, and answers what was accepted; `None` if it was refused, which is explained on the standard
    /// error.
    pub(crate) fn accepted(
        &mut self,
        request: ClientRequest<'_>,
    ) -> Result<Option<Value>, AskFault> {
        match self.talk.ask(request)? {
            ServerAnswer::Accepted(value) => Ok(Some(value)),
            ServerAnswer::Refused(refused) => {
                if self.console.is_json() {
                    self.print_answer()?;
                }
                let text = refusal_text(self.alloc, request, &refused)?;
                self.console.tell(text.as_str());
                Ok(None)
            }
        }
    }
}

/// The text of a refusal of this request.
fn refusal_text(
    alloc: Global,
    request: ClientRequest<'_>,
    refused: &RefusedAnswer,
) -> Result<String, AllocError> {
    let mut text = String::new(alloc);
    push_explanation(&mut text, alloc, refused)?;
    if let Some(hint) = hint(request, refused.code) {
        write!(text, "  {hint}\n")?;
    }
    Ok(text)
}

/// Appends the name of a refusal, and its explanation if this program knows one.
fn push_explanation(
    out: &mut String,
    alloc: Global,
    refused: &RefusedAnswer,
) -> Result<(), AllocError> {
    let code = refused.code;
    let known = match u32::try_from(code) {
        Ok(code) => refusal_of(code),
        Err(_) => None,
    };
    match known {
        Some(refusal) => {
            let name = refusal.name();
            let when = refusal_when(&refusal);
            let advice = refusal_advice(&refusal);
            write!(out, "rme: refused: {code} {name}: {when}\n  {advice}\n")
        }
        None => {
            let name = escape_controls(alloc, refused.name.as_str())?;
            write!(out, "rme: refused: {code} {name}\n")
        }
    }
}

/// What the explanation of a refusal does not say of this request.
fn hint(request: ClientRequest<'_>, code: u64) -> Option<&'static str> {
    match request {
        ClientRequest::Status | ClientRequest::Owner(_) | ClientRequest::Cells(_)
            if code == BAD_LINE => Some(
            "A server without a state has no look-ups: only `rme serve --state FILE` has them.",
        ),
        ClientRequest::Status
        | ClientRequest::Owner(_)
        | ClientRequest::Cells(_)
        | ClientRequest::Attach(_)
        | ClientRequest::TakeOver(_)
            if code == NO_SPACE => Some("--space NAME says in which space it is asked."),
        ClientRequest::UseSpace(_)
        | ClientRequest::CreateSpace(_)
        | ClientRequest::DropSpace(_)
        | ClientRequest::Spaces(_) => space_hint(request, code),
        ClientRequest::Pending if code == BAD_LINE => Some(
            "The server is of an earlier version, which has no order `pending`.",
        ),
        ClientRequest::Attach(_) if code == TAKEN => Some(
            "Where that session's client will not come back, --take ends the session and takes the worker.",
        ),
        _ => None,
    }
}

/// The same of a request about spaces.
fn space_hint(request: ClientRequest<'_>, code: u64) -> Option<&'static str> {
    match (request, code) {
        (_, BAD_LINE) => Some("Only a server with `rme serve --spaces DIR` has spaces."),
        (ClientRequest::CreateSpace(_), BAD_SHAPE) => Some(
            "The name of a space has 1 to 64 of a-z 0-9 _ and -; it has 1 to 255 workers, and 1 to 16 locks of 1 to 16 cells.",
        ),
        (_, BAD_SHAPE) => Some("The name of a space has 1 to 64 of a-z 0-9 _ and -."),
        (ClientRequest::DropSpace(_), BUSY) => Some(
            "A session uses the space, or a job is pending in it: `rme ask --space NAME status` shows its workers.",
        ),
        _ => None,
    }
}
