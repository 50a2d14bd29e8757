//! Look-ups and requests about spaces: one request, and its answer as tables and sentences, or as the server's line.

ghost use Rattle.std.specs.Prelude.{◌≡◌, ◌≢◌, IfErr, IfOk, string_bytes};
ghost use Rattle.serde_json.specs.View.{view};
ghost use Rattle.rme_ask_client.specs.Members.{NoneSaidUnless};
ghost use Rattle.rme_ask_client.specs.StatusAnswers.{CellsSay, OwnerSays, StatusSays};
ghost use Rattle.rme_ask_client.specs.declared.client_error.ClientError.TheVariants.{NoMemory};
ghost use Rattle.rme_cli_ask.specs.LookUps.{LacksAnswer, ShowsAnswer, ShowsCells, ShowsOwner, ShowsStatus, space_sentence};

use crate::ask_end::{AskEnd, AskFault};
use crate::dialogue::Dialogue;
use crate::status_rows::{cells_rows, owner_rows, status_text};
use crate::table::push_table;
use rme_ask_client::{ClientError, ClientRequest, cells_answer, owner_answer, server_status};
use rme_line_io::{Sink, Source};
use serde_json::Value;
use std::alloc::Global;

impl<R: Source + Drop, W: Sink + Drop, O: Sink + Drop, E: Sink + Drop> Dialogue<R, W, O, E> {
    /// Sends a request, and prints its answer.
    pub(crate) fn ask_and_show(&mut self, request: ClientRequest<'_>) -> Result<AskEnd, AskFault> {
        let Some(value) = self.accepted(request)? else {
            return Ok(AskEnd::Refused);
        };
        if self.console.is_json() {
            self.print_answer()?;
            return Ok(AskEnd::Done);
        }
        let text = answer_text(self.alloc, request, &value)?;
        self.console.print(text.as_str())?;
        Ok(AskEnd::Done)
    }
}

/// The answer to a request, for people: tables of what it says, or a sentence. An error if it does not say that.
fn answer_text(
    alloc: Global,
    request: ClientRequest<'_>,
    value: &Value,
) -> Result<String, ClientError>
    ensures shows { IfOk result (λ text. ShowsAnswer request.entry (view value.now) (string_bytes text)) }
    ensures lacks { IfErr result (λ error. error ≢ NoMemory → LacksAnswer request.entry (view value.now)) }
{
    match request {
        ClientRequest::Status => status_answer_text(alloc, value),
        ClientRequest::Owner(lock) => owner_answer_text(alloc, lock, value),
        ClientRequest::Cells(lock) => cells_answer_text(alloc, lock, value),
        ClientRequest::CreateSpace(space) => space_text(alloc, space.name, "is there"),
        ClientRequest::DropSpace(space) => space_text(alloc, space, "is gone"),
        _ => Ok(String::from_str(alloc, "the server answers\n")?),
    }
}

/// What became of a space.
fn space_text(alloc: Global, space: &str, what: &str) -> Result<String, ClientError>
    ensures said { IfOk result (λ text. string_bytes text ≡ space_sentence space.now what.now) }
    ensures memory { IfErr result (λ error. error ≡ NoMemory) }
{
    Ok(format!(in alloc; "space {space} {what}\n")?)
}

/// The tables of locks and workers of an answer to `status`.
fn status_answer_text(alloc: Global, value: &Value) -> Result<String, ClientError>
    ensures shows { IfOk result (λ text. ShowsStatus (view value.now) (string_bytes text)) }
    ensures lacks { IfErr result (NoneSaidUnless StatusSays (view value.now)) }
{
    let status = server_status(alloc, value)?;
    Ok(status_text(alloc, &status)?)
}

/// The table of an answer to `owner`.
fn owner_answer_text(alloc: Global, lock: &str, value: &Value) -> Result<String, ClientError>
    ensures shows { IfOk result (λ text. ShowsOwner lock.now (view value.now) (string_bytes text)) }
    ensures lacks { IfErr result (NoneSaidUnless OwnerSays (view value.now)) }
{
    let rows = owner_rows(alloc, lock, owner_answer(value)?)?;
    let mut text = String::new(alloc);
    push_table(&mut text, rows.as_slice())?;
    Ok(text)
}

/// The table of an answer to `cells`.
fn cells_answer_text(alloc: Global, lock: &str, value: &Value) -> Result<String, ClientError>
    ensures shows { IfOk result (λ text. ShowsCells lock.now (view value.now) (string_bytes text)) }
    ensures lacks { IfErr result (NoneSaidUnless CellsSay (view value.now)) }
{
    let cells = cells_answer(alloc, value)?;
    let rows = cells_rows(alloc, lock, &cells)?;
    let mut text = String::new(alloc);
    push_table(&mut text, rows.as_slice())?;
    Ok(text)
}
