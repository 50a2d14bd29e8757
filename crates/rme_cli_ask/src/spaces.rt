//! The spaces of a server: the one in which a session works, and the names of all.

ghost use Rattle.std.specs.Prelude.{◌≡◌, ◌≢◌, ◌++◌, true, IfErr, IfOk, OnOk, string_bytes};
ghost use Rattle.std.specs.List.{flat_map};
ghost use Rattle.serde_json.specs.View.{view};
ghost use Rattle.rme_ask_client.specs.declared.client_error.ClientError.TheVariants.{NoMemory};
ghost use Rattle.rme_cli_ask.specs.SpaceLines.{IsNextStart, LacksPage, ShowsPage, name_line, space_line};

use crate::ask_end::{AskEnd, AskFault};
use crate::dialogue::Dialogue;
use rme_ask_client::{ClientError, ClientRequest, CreateRequest, SpacesPage, spaces_page};
use rme_cli_messages::escape_controls;
use rme_cli_options::CreateTask;
use rme_line_io::{Sink, Source};
use serde_json::Value;
use std::alloc::{AllocError, Global};
use std::sync::Wait;

/// A page of the names of spaces, as it is shown.
#[derive(Drop)]
struct ShownPage {
    /// A line for each name.
    text: String,
    /// The name behind which the next page begins; `None` at the last page.
    next: Option<String>,
}

impl<R: Source + Drop, W: Sink + Drop, O: Sink + Drop, E: Sink + Drop> Dialogue<R, W, O, E> {
    /// Uses the space, if one was given. Answers whether the server accepted it; a refusal is explained on the standard
    /// error.
    pub(crate) fn use_space(&mut self, space: &Option<String>) -> Result<bool, AskFault> {
        let Some(space) = space else {
            return Ok(true);
        };
        let used = self.accepted(ClientRequest::UseSpace(space.as_str()))?;
        Ok(used.is_some())
    }

    /// Creates a space.
    pub(crate) fn create_space(&mut self, task: &CreateTask) -> Result<AskEnd, AskFault> {
        self.ask_and_show(ClientRequest::CreateSpace(CreateRequest {
            name: task.space.as_str(),
            locks: task.locks.as_slice(),
            workers: task.workers,
            cells: task.cells,
        }))
    }

    /// Prints the names of all spaces, page by page.
    pub(crate) fn list_spaces<P: Wait>(&mut self, threads: &P) -> Result<AskEnd, AskFault> {
        let mut next: Option<String> = None;
        for _ in threads.forever() {
            let after = next.as_ref().map(|name| name.as_str());
            let Some(value) = self.accepted(ClientRequest::Spaces(after))? else {
                return Ok(AskEnd::Refused);
            };
            let page = shown_page(self.alloc, &value)?;
            if self.console.is_json() {
                self.print_answer()?;
            } else {
                self.console.print(page.text.as_str())?;
            }
            next = page.next;
            if next.is_none() {
                break;
            }
        }
        Ok(AskEnd::Done)
    }
}

/// What is shown of an answer to `spaces`. An error if the answer says no page, or more names behind a page without
/// one.
fn shown_page(alloc: Global, value: &Value) -> Result<ShownPage, ClientError>
    ensures shows { IfOk result (ShowsPage (view value.now)) }
    ensures lacks { IfErr result (λ error. error ≢ NoMemory → LacksPage (view value.now)) }
{
    let page = spaces_page(alloc, value)?;
    let text = page_text(alloc, page.spaces.as_slice())?;
    let next = next_start(page)?;
    Ok(ShownPage { text, next })
}

/// The name behind which the page after this one begins: the last one, if there are more.
fn next_start(page: SpacesPage) -> Result<Option<String>, ClientError>
    ensures next { IfOk result (IsNextStart page) }
    ensures more { IfErr result (λ _. page.more ≡ true) }
{
    let SpacesPage { mut spaces, more } = page;
    if !more {
        return Ok(None);
    }
    match spaces.pop() {
        Some(last) => Ok(Some(last)),
        None => Err(ClientError::NoMember("spaces")),
    }
}

/// A line for each name.
fn page_text(alloc: Global, spaces: &[String]) -> Result<String, AllocError>
    ensures { IfOk result (λ text. string_bytes text ≡ flat_map space_line spaces.now) }
{
    let mut text = String::new(alloc);
    for space in spaces {
        push_space(&mut text, alloc, space.as_str())?;
    }
    Ok(text)
}

/// Appends the line of a name.
fn push_space(out: &mut String, alloc: Global, space: &str) -> Result<(), AllocError>
    ensures { OnOk result (string_bytes out.new ≡ string_bytes out.old ++ name_line space.now) }
{
    let name = escape_controls(alloc, space)?;
    write!(out, "{name}\n")
}
