//! Parsing the words after `ask`.

use crate::mistake::Mistake;
use crate::parsing::{USUAL_PORT, text_of, texts_of};
use crate::tasks::{AnswerForm, AskRequest, AskTask, CreateTask, FinishTask, ServerAddress};
use clap::ArgMatches;
use std::alloc::{AllocError, Global};

/// The task of the words after `ask`.
pub(crate) fn ask_task<'a>(alloc: Global, found: &ArgMatches<'_>) -> Result<AskTask, Mistake<'a>> {
    let form = if found.get_flag("json") {
        AnswerForm::Json
    } else {
        AnswerForm::Text
    };
    Ok(AskTask {
        servers: server_addresses(alloc, found)?,
        key_file: text_of(alloc, found, "key-file")?,
        space: text_of(alloc, found, "space")?,
        request: ask_request(alloc, found)?,
        form,
    })
}

/// The addresses of the server that is asked, in the order in which they are tried; at least one.
fn server_addresses(
    alloc: Global,
    found: &ArgMatches<'_>,
) -> Result<Vec<ServerAddress>, AllocError> {
    let mut servers = Vec::new(alloc);
    for path in texts_of(alloc, found, "socket")? {
        servers.push(ServerAddress::Socket(path))?;
    }
    if servers.is_empty() {
        push_ports(&mut servers, found)?;
    }
    Ok(servers)
}

/// Appends the ports that were given, or the default one. Each was parsed before, as a port.
fn push_ports(servers: &mut Vec<ServerAddress>, found: &ArgMatches<'_>) -> Result<(), AllocError> {
    let Some(ports) = found.get_many::<u16>("port") else {
        servers.push(ServerAddress::Port(USUAL_PORT))?;
        return Ok(());
    };
    for port in ports {
        servers.push(ServerAddress::Port(port.unwrap_or(USUAL_PORT)))?;
    }
    Ok(())
}

/// What the server is asked.
fn ask_request<'a>(alloc: Global, found: &ArgMatches<'_>) -> Result<AskRequest, Mistake<'a>> {
    let word = found.get_str("WORD");
    if let Some(text) = misplaced_option(word, found) {
        return Err(Mistake::ask_words(text));
    }
    match (word, text_of(alloc, found, "NAME")?) {
        (None, None) => Ok(AskRequest::Lines),
        (Some("status"), None) => Ok(AskRequest::Status),
        (Some("ping"), None) => Ok(AskRequest::Ping),
        (Some("top"), None) => Ok(AskRequest::Top(found.get_one("count"))),
        (Some("spaces"), None) => Ok(AskRequest::Spaces),
        (Some(word), Some(name)) => request_on(alloc, found, word, name),
        _ => Err(Mistake::ask_words(rme_cli_help::ask_words_wanted())),
    }
}

/// What the server is asked by a word that takes a name.
fn request_on<'a>(
    alloc: Global,
    found: &ArgMatches<'_>,
    word: &str,
    name: String,
) -> Result<AskRequest, Mistake<'a>> {
    match word {
        "owner" => Ok(AskRequest::Owner(name)),
        "cells" => Ok(AskRequest::Cells(name)),
        "finish" => finish_request(found, name.as_str()),
        "drop" => Ok(AskRequest::DropSpace(name)),
        "create" if found.contains_id("LOCK") => {
            Ok(AskRequest::CreateSpace(create_task(alloc, found, name)?))
        }
        _ => Err(Mistake::ask_words(rme_cli_help::ask_words_wanted())),
    }
}

/// The request to create the space of this name.
fn create_task(
    alloc: Global,
    found: &ArgMatches<'_>,
    space: String,
) -> Result<CreateTask, AllocError> {
    Ok(CreateTask {
        space,
        locks: texts_of(alloc, found, "LOCK")?,
        workers: found.get_one("workers"),
        cells: found.get_one("cells"),
    })
}

/// The request to finish the job of the worker of this word.
fn finish_request<'a>(found: &ArgMatches<'_>, worker: &str) -> Result<AskRequest, Mistake<'a>> {
    let Ok(worker) = worker.parse::<u32>() else {
        return Err(Mistake::ask_words(rme_cli_help::worker_wanted()));
    };
    Ok(AskRequest::Finish(FinishTask {
        worker,
        takes_over: found.get_flag("take"),
        seconds: found.get_one("wait"),
        withdraws: found.get_flag("withdraw"),
    }))
}

/// What is wrong if the words after `ask` have an option or locks that go with another word.
fn misplaced_option<'a>(word: Option<&str>, found: &ArgMatches<'_>) -> Option<&'a str> {
    if word != Some("finish") && has_finish_option(found) {
        return Some(rme_cli_help::finish_options_alone());
    }
    if word != Some("top") && found.contains_id("count") {
        return Some(rme_cli_help::count_option_alone());
    }
    if word == Some("create") {
        return None;
    }
    if found.contains_id("workers") || found.contains_id("cells") {
        return Some(rme_cli_help::create_options_alone());
    }
    if found.contains_id("LOCK") {
        return Some(rme_cli_help::ask_words_wanted());
    }
    None
}

/// Whether an option was given that only `finish` has.
fn has_finish_option(found: &ArgMatches<'_>) -> bool {
    found.get_flag("take") || found.get_flag("withdraw") || found.contains_id("wait")
}
