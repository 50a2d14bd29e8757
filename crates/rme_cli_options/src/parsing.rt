//! Parsing the words of the command line into a task.

use crate::ask_words::ask_task;
use crate::cluster_words::{
    has_cluster_option, has_leader_option, leader_setting, log_name, log_place, move_task,
};
use crate::commands::command;
use crate::mistake::Mistake;
use crate::tasks::{
    CliTask, Diagnostics, DrawTask, DurableServeTask, LineTask, ListenAddresses, LookTask,
    OutputFormat, ReplicatedServeTask, RunImages, ServeTask, ServerLog, SpacesServeTask,
    SyncPolicy, ThreadsTask, WaitingPolicy,
};
use clap::error::ErrorKind;
use clap::{ArgMatches, Error};
use std::alloc::{AllocError, Global};

/// The default port of a durable server, and of a client.
pub(crate) const USUAL_PORT: u16 = 7000;

/// The default number of sessions that a server runs at a time.
const AT_ONCE: u32 = 1000;

/// The default number of finished jobs between two checkpoints of a state's file.
const USUAL_SECTIONS: u32 = 100_000;

/// The default number of seconds without a session after which a space is closed.
const CLOSE_AFTER: u32 = 300;

/// The task of the words, the first of which is the program's own name.
///
/// An error has the text to print: help, the version or the mistake; or its kind is `OutOfMemory`.
pub fn task_of(alloc: Global, words: &[String]) -> Result<CliTask, Error> {
    match command(alloc)?.try_get_matches_from(words) {
        Ok(found) => task_of_matches(alloc, &found),
        Err(error) => Err(explain_error(alloc, words, error)?),
    }
}

/// The error in the words. For a `serve` with missing arguments, the shortest valid command comes first.
fn explain_error(alloc: Global, words: &[String], error: Error) -> Result<Error, AllocError> {
    let is_serve = words.get(1).is_some_and(|word| word.as_str() == "serve");
    let kind = ErrorKind::MissingRequiredArgument;
    if !is_serve || error.kind() != kind {
        return Ok(error);
    }
    let text = rme_cli_help::shortest_start();
    error_of(alloc, Mistake::Words { kind, text })
}

/// The task of words that clap takes.
fn task_of_matches(alloc: Global, found: &ArgMatches<'_>) -> Result<CliTask, Error> {
    match any_task(alloc, found) {
        Ok(task) => Ok(task),
        Err(mistake) => Err(error_of(alloc, mistake)?),
    }
}

/// A mistake in clap's form.
fn error_of(alloc: Global, mistake: Mistake<'_>) -> Result<Error, AllocError> {
    match mistake {
        Mistake::NoMemory => Err(AllocError),
        Mistake::Words { kind, text } => command(alloc)?.error(kind, text),
    }
}

/// The task of matches, by the command of which they are.
fn any_task<'a>(alloc: Global, found: &ArgMatches<'_>) -> Result<CliTask, Mistake<'a>> {
    if let Some(task) = service_task(alloc, found)? {
        return Ok(task);
    }
    if let Some(ask) = found.subcommand_matches("ask") {
        return Ok(CliTask::Ask(ask_task(alloc, ask)?));
    }
    if let Some(moved) = found.subcommand_matches("move") {
        return Ok(CliTask::Move(move_task(alloc, moved)?));
    }
    if let Some(draw) = found.subcommand_matches("draw") {
        return Ok(CliTask::Draw(draw_task(draw)?));
    }
    Ok(CliTask::Lines(line_task(alloc, found)?))
}

/// The task of words that request a service in threads.
fn service_task<'a>(alloc: Global, found: &ArgMatches<'_>) -> Result<Option<CliTask>, Mistake<'a>> {
    if let Some(threads) = found.subcommand_matches("threads") {
        return Ok(Some(CliTask::Threads(threads_task(alloc, threads)?)));
    }
    if let Some(look) = found.subcommand_matches("look") {
        return Ok(Some(CliTask::Look(look_task(alloc, look)?)));
    }
    let Some(serve) = found.subcommand_matches("serve") else {
        return Ok(None);
    };
    Ok(Some(any_serve_task(alloc, serve)?))
}

/// The task of the words after `serve`: for a folder of spaces, for a state in a cluster or in a file, or for neither.
fn any_serve_task<'a>(alloc: Global, found: &ArgMatches<'_>) -> Result<CliTask, Mistake<'a>> {
    if let Some(text) = misplaced_option(found) {
        return Err(Mistake::conflict(text));
    }
    if let Some(folder) = text_of(alloc, found, "spaces")? {
        return Ok(CliTask::ServeSpaces(spaces_serve_task(alloc, found, folder)?));
    }
    let Some(state) = text_of(alloc, found, "state")? else {
        return Ok(CliTask::Serve(serve_task(alloc, found)?));
    };
    let Some(name) = log_name(state.as_str()) else {
        return Ok(CliTask::ServeDurable(durable_serve_task(alloc, found, state)?));
    };
    let (log, leader) = (
        log_place(alloc, found, name)?,
        leader_setting(alloc, found)?,
    );
    let serve = durable_serve_task(alloc, found, state)?;
    Ok(CliTask::ServeReplicated(ReplicatedServeTask { serve, log, leader }))
}

/// What is wrong if the words after `serve` have an option that goes only with one that they do not have.
fn misplaced_option<'a>(found: &ArgMatches<'_>) -> Option<&'a str> {
    let has_spaces = found.contains_id("spaces");
    if found.contains_id("close-after") && !has_spaces {
        return Some(rme_cli_help::spaces_option_alone());
    }
    if found
        .get_str("spaces")
        .is_some_and(|folder| log_name(folder).is_some())
    {
        return Some(rme_cli_help::folder_wanted());
    }
    let is_log = found
        .get_str("state")
        .is_some_and(|state| log_name(state).is_some());
    if is_log && found.contains_id("sync") {
        return Some(rme_cli_help::sync_with_files());
    }
    if !is_log && (has_cluster_option(found) || has_leader_option(found)) {
        return Some(rme_cli_help::leader_options_alone());
    }
    let keeps = has_spaces || found.contains_id("state");
    let of_states = ["sync", "waiting", "sections"];
    if !keeps && of_states.iter().any(|option| found.contains_id(option)) {
        return Some(rme_cli_help::state_options_alone());
    }
    None
}

/// The task of the words after `draw`. Each number was parsed before, as that of a line.
fn draw_task<'a>(found: &ArgMatches<'_>) -> Result<DrawTask, Mistake<'a>> {
    let from = found.get_one::<u64>("from");
    let to = found.get_one::<u64>("to");
    if from.unwrap_or(1) > to.unwrap_or(u64::MAX) {
        return Err(Mistake::Words {
            kind: ErrorKind::ValueValidation,
            text: rme_cli_help::draw_lines_in_order(),
        });
    }
    Ok(DrawTask {
        from,
        to,
        is_of_state: found.get_flag("state"),
    })
}

/// The task of the words after `look`.
fn look_task<'a>(alloc: Global, found: &ArgMatches<'_>) -> Result<LookTask, Mistake<'a>> {
    let form = look_form(found);
    let state = text_of(alloc, found, "FILE")?.unwrap_or(String::new(alloc));
    let log = match log_name(state.as_str()) {
        Some(name) => Some(log_place(alloc, found, name)?),
        None if has_cluster_option(found) => {
            return Err(Mistake::conflict(rme_cli_help::cluster_options_alone()));
        }
        None => None,
    };
    Ok(LookTask { state, log, form })
}

/// The requested output of `look`.
fn look_form(found: &ArgMatches<'_>) -> OutputFormat {
    if found.get_flag("check") {
        OutputFormat::Check
    } else if found.get_flag("lines") {
        OutputFormat::Lines
    } else if found.get_flag("json") {
        OutputFormat::Json
    } else if found.get_flag("all") {
        OutputFormat::AllTables
    } else {
        OutputFormat::Tables
    }
}

/// The task of words that request something over lines, or an explanation.
fn line_task(alloc: Global, found: &ArgMatches<'_>) -> Result<LineTask, AllocError> {
    if let Some(explain) = found.subcommand_matches("explain") {
        return Ok(LineTask::Explain(texts_of(alloc, explain, "CODE")?));
    }
    match found.subcommand_matches("run") {
        None => Ok(LineTask::Check),
        Some(run) => run_task(alloc, run),
    }
}

/// The task of the words after `run`.
fn run_task(alloc: Global, found: &ArgMatches<'_>) -> Result<LineTask, AllocError> {
    let diagnostics = diagnostics_of(found);
    if found.get_flag("transcript") {
        return Ok(LineTask::Transcript(diagnostics));
    }
    let load = text_of(alloc, found, "image")?;
    let save = text_of(alloc, found, "save")?;
    if load.is_none() && save.is_none() {
        return Ok(LineTask::Run(diagnostics));
    }
    let locks = texts_of(alloc, found, "locks")?;
    Ok(LineTask::Images(RunImages { load, locks, save }, diagnostics))
}

/// The requested diagnostics of lines.
fn diagnostics_of(found: &ArgMatches<'_>) -> Diagnostics {
    if found.get_flag("why") {
        return Diagnostics::Why;
    }
    Diagnostics::Nothing
}

/// The requested log of a server.
fn server_log_of(found: &ArgMatches<'_>) -> ServerLog {
    if found.get_flag("log") {
        return ServerLog::On;
    }
    ServerLog::Off
}

/// The texts of an argument, in order.
pub(crate) fn texts_of(
    alloc: Global,
    found: &ArgMatches<'_>,
    argument: &str,
) -> Result<Vec<String>, AllocError> {
    let mut texts = Vec::new(alloc);
    for text in found.get_strs(argument).unwrap_or(&[]) {
        texts.push(text.to_string(alloc)?)?;
    }
    Ok(texts)
}

/// The text of an option, if it was given.
pub(crate) fn text_of(
    alloc: Global,
    found: &ArgMatches<'_>,
    option: &str,
) -> Result<Option<String>, AllocError> {
    match found.get_str(option) {
        None => Ok(None),
        Some(text) => Ok(Some(text.to_string(alloc)?)),
    }
}

/// The task of the words after `threads`. Each number was parsed before, as an argument of its type.
fn threads_task(alloc: Global, found: &ArgMatches<'_>) -> Result<ThreadsTask, AllocError> {
    let mut falls = Vec::new(alloc);
    if let Some(given) = found.get_many::<u32>("FALL") {
        for fall in given {
            falls.push(fall.unwrap_or(0))?;
        }
    }
    Ok(ThreadsTask {
        workers: found.get_one("WORKERS").unwrap_or(0),
        jobs: found.get_one("JOBS").unwrap_or(0),
        falls,
        is_quiet: found.get_flag("quiet"),
    })
}

/// The addresses of the words after `serve`, with this default port. A port is required if there is no socket, no
/// state and no folder of spaces.
fn listen_addresses_of(
    alloc: Global,
    found: &ArgMatches<'_>,
    usual: u16,
) -> Result<ListenAddresses, AllocError> {
    let port = found.get_one::<u16>("port");
    let socket = text_of(alloc, found, "socket")?;
    Ok(match (port, socket) {
        (None, Some(path)) => ListenAddresses::Socket(path),
        (Some(port), Some(path)) => ListenAddresses::Both(port, path),
        (port, None) => ListenAddresses::Port(port.unwrap_or(usual)),
    })
}

/// The task of the words after `serve`. Each number was parsed before, as an argument of its type.
fn serve_task(alloc: Global, found: &ArgMatches<'_>) -> Result<ServeTask, AllocError> {
    Ok(ServeTask {
        workers: found.get_one("workers").unwrap_or(0),
        cells: found.get_one("cells").unwrap_or(0),
        jobs: found.get_one("jobs").unwrap_or(0),
        places: listen_addresses_of(alloc, found, 0)?,
        http: found.get_one("http"),
        connections: found.get_one("connections"),
        at_once: found.get_one("at-once").unwrap_or(AT_ONCE),
        idle: found.get_one("idle"),
        diagnostics: diagnostics_of(found),
        log: server_log_of(found),
        keys: text_of(alloc, found, "keys")?,
        locks: texts_of(alloc, found, "LOCK")?,
    })
}

/// The task of the words after `serve` with a state.
fn durable_serve_task(
    alloc: Global,
    found: &ArgMatches<'_>,
    state: String,
) -> Result<DurableServeTask, AllocError> {
    Ok(DurableServeTask {
        state,
        workers: found.get_one("workers"),
        cells: found.get_one("cells"),
        jobs: found.get_one("jobs"),
        sections: found.get_one("sections").unwrap_or(USUAL_SECTIONS),
        places: listen_addresses_of(alloc, found, USUAL_PORT)?,
        http: found.get_one("http"),
        at_once: found.get_one("at-once").unwrap_or(AT_ONCE),
        idle: found.get_one("idle"),
        sync: sync_policy_of(found),
        waiting: waiting_policy_of(found),
        diagnostics: diagnostics_of(found),
        log: server_log_of(found),
        keys: text_of(alloc, found, "keys")?,
        locks: texts_of(alloc, found, "LOCK")?,
    })
}

/// The task of the words after `serve` with a folder of spaces.
fn spaces_serve_task(
    alloc: Global,
    found: &ArgMatches<'_>,
    folder: String,
) -> Result<SpacesServeTask, AllocError> {
    Ok(SpacesServeTask {
        folder,
        close_after: found.get_one("close-after").unwrap_or(CLOSE_AFTER),
        places: listen_addresses_of(alloc, found, USUAL_PORT)?,
        http: found.get_one("http"),
        at_once: found.get_one("at-once").unwrap_or(AT_ONCE),
        idle: found.get_one("idle"),
        sync: sync_policy_of(found),
        waiting: waiting_policy_of(found),
        sections: found.get_one("sections").unwrap_or(USUAL_SECTIONS),
        keys: text_of(alloc, found, "keys")?,
        log: server_log_of(found),
        diagnostics: diagnostics_of(found),
    })
}

/// The requested sync policy.
fn sync_policy_of(found: &ArgMatches<'_>) -> SyncPolicy {
    match found.get_str("sync") {
        Some("always") => SyncPolicy::Always,
        _ => SyncPolicy::Never,
    }
}

/// What is requested for waiting jobs.
fn waiting_policy_of(found: &ArgMatches<'_>) -> WaitingPolicy {
    match found.get_str("waiting") {
        Some("withdraw") => WaitingPolicy::Withdraw,
        _ => WaitingPolicy::Keep,
    }
}
