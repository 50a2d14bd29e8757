//! The requests that a client sends.

ghost use Rattle.std.specs.Prelude.{◌≡◌, ◌++◌, IfOk, OnOk, string_bytes};
ghost use Rattle.std.specs.List.{flat_map};
ghost use Rattle.serde_json.specs.Data.{string};
ghost use Rattle.serde_json.specs.Written.{compact_text};
ghost use Rattle.rme_ask_client.specs.RequestTexts as spec;

use serde_json::Value;
use std::alloc::{AllocError, Global};

/// A request of a client.
#[derive(Clone, Copy)]
pub enum ClientRequest<'a> {
    /// Begin with this secret, at a server with keys.
    Hello(&'a str),
    /// Work in the space of this name.
    UseSpace(&'a str),
    /// Create a space, unless it is there just so.
    CreateSpace(CreateRequest<'a>),
    /// Remove the space of this name, with all that it holds.
    DropSpace(&'a str),
    /// The names of the spaces, in order; only those behind this name if there is one.
    Spaces(Option<&'a str>),
    /// Everything at once.
    Status,
    /// The owner of the lock of this name.
    Owner(&'a str),
    /// The cells of the lock of this name.
    Cells(&'a str),
    Ping,
    /// Take this worker.
    Attach(u32),
    /// Take this worker, also from a session that has it.
    TakeOver(u32),
    /// The pending job of the worker.
    Pending,
    /// Go on with the pending job, and wait for its lock for at most this number of milliseconds.
    Resume(u32),
    /// Give up the pending job.
    Withdraw,
    /// The last receipt of the worker.
    Last,
    /// Let the worker go.
    Detach,
}

/// A space that is to be created. A size that is not given is the server's default.
#[derive(Clone, Copy)]
pub struct CreateRequest<'a> {
    pub name: &'a str,
    /// The names of its locks.
    pub locks: &'a [String],
    pub workers: Option<u32>,
    /// The number of cells of each lock.
    pub cells: Option<u32>,
}

impl ClientRequest<'_> {
    /// The word of the request, which its answer repeats.
    pub fn word(self) -> &'static str
        ensures { result.now ≡ spec.request_word self.entry }
    {
        match self {
            ClientRequest::Hello(_) => "hello",
            ClientRequest::UseSpace(_) => "use",
            ClientRequest::CreateSpace(_) => "create",
            ClientRequest::DropSpace(_) => "drop",
            ClientRequest::Spaces(_) => "spaces",
            ClientRequest::Status => "status",
            ClientRequest::Owner(_) => "owner",
            ClientRequest::Cells(_) => "cells",
            ClientRequest::Ping => "ping",
            ClientRequest::Attach(_) | ClientRequest::TakeOver(_) => "attach",
            ClientRequest::Pending => "pending",
            ClientRequest::Resume(_) => "resume",
            ClientRequest::Withdraw => "withdraw",
            ClientRequest::Last => "last",
            ClientRequest::Detach => "detach",
        }
    }
}

/// Appends the line of a request, without its newline.
pub fn push_request(
    out: &mut String,
    alloc: Global,
    request: ClientRequest<'_>,
) -> Result<(), AllocError>
    ensures { OnOk result (string_bytes out.new ≡ string_bytes out.old ++ spec.request_text request.entry) }
{
    match request {
        ClientRequest::Hello(secret) => push_text_request(out, alloc, "hello", "secret", secret),
        ClientRequest::UseSpace(space) | ClientRequest::DropSpace(space) => {
            push_text_request(out, alloc, request.word(), "space", space)
        }
        ClientRequest::CreateSpace(space) => push_create(out, alloc, space),
        ClientRequest::Spaces(Some(last)) => {
            push_text_request(out, alloc, "spaces", "after", last)
        }
        ClientRequest::Owner(lock) | ClientRequest::Cells(lock) => {
            push_text_request(out, alloc, request.word(), "lock", lock)
        }
        ClientRequest::Attach(worker) => write!(out, "{{\"do\":\"attach\",\"worker\":{worker}}}"),
        ClientRequest::TakeOver(worker) => {
            write!(
                out,
                "{{\"do\":\"attach\",\"take\":true,\"worker\":{worker}}}"
            )
        }
        ClientRequest::Resume(wait) => write!(out, "{{\"do\":\"resume\",\"wait\":{wait}}}"),
        _ => push_plain_request(out, request.word()),
    }
}

/// Appends a request that has only its word.
fn push_plain_request(out: &mut String, word: &str) -> Result<(), AllocError>
    ensures { OnOk result (string_bytes out.new ≡ string_bytes out.old ++ spec.plain_request_text word.now) }
{
    write!(out, "{{\"do\":\"{word}\"}}")
}

/// Appends a request that has a text beside its word, under this key.
fn push_text_request(
    out: &mut String,
    alloc: Global,
    word: &str,
    key: &str,
    text: &str,
) -> Result<(), AllocError>
    ensures { OnOk result (string_bytes out.new ≡ string_bytes out.old
        ++ spec.text_request_text word.now key.now text.now) }
{
    let text = quoted(alloc, text)?;
    write!(out, "{{\"do\":\"{word}\",\"{key}\":{text}}}")
}

/// Appends the request to create a space.
fn push_create(out: &mut String, alloc: Global, space: CreateRequest<'_>) -> Result<(), AllocError>
    ensures { OnOk result (string_bytes out.new ≡ string_bytes out.old ++ spec.create_request_text space.entry) }
{
    let name = quoted(alloc, space.name)?;
    let locks = name_list(alloc, space.locks)?;
    let workers = size_member(alloc, "workers", space.workers)?;
    let cells = size_member(alloc, "cells", space.cells)?;
    write!(
        out,
        "{{\"do\":\"create\",\"space\":{name},\"locks\":[{locks}]{workers}{cells}}}"
    )
}

/// A size of a space under this key, behind a comma; nothing if there is none.
fn size_member(alloc: Global, key: &str, size: Option<u32>) -> Result<String, AllocError>
    ensures { IfOk result (λ text. string_bytes text ≡ spec.size_text key.now size) }
{
    match size {
        Some(size) => format!(in alloc; ",\"{key}\":{size}"),
        None => Ok(String::new(alloc)),
    }
}

/// Names in JSON, separated by commas.
fn name_list(alloc: Global, names: &[String]) -> Result<String, AllocError>
    ensures { IfOk result (λ text. string_bytes text ≡ spec.name_list_text names.now) }
{
    let mut text = String::new(alloc);
    push_names(&mut text, alloc, names)?;
    Ok(text)
}

/// Appends names in JSON, separated by commas.
fn push_names(out: &mut String, alloc: Global, names: &[String]) -> Result<(), AllocError>
    ensures { OnOk result (string_bytes out.new ≡ string_bytes out.old ++ spec.name_list_text names.now) }
{
    match names.split_first() {
        Some((first, others)) => {
            out.push_str(quoted(alloc, first.as_str())?.as_str())?;
            push_other_names(out, alloc, others)
        }
        None => Ok(()),
    }
}

/// Appends names in JSON, with a comma before each.
fn push_other_names(out: &mut String, alloc: Global, names: &[String]) -> Result<(), AllocError>
    ensures { OnOk result (string_bytes out.new ≡ string_bytes out.old ++ flat_map spec.next_name_text names.now) }
{
    for name in names {
        let name = quoted(alloc, name.as_str())?;
        write!(out, ",{name}")?;
    }
    Ok(())
}

/// A text in JSON, with its quotes.
fn quoted(alloc: Global, text: &str) -> Result<String, AllocError>
    ensures { IfOk result (λ json. string_bytes json ≡ compact_text (string text.now)) }
{
    Value::String(String::from_str(alloc, text)?).to_string(alloc)
}
