//! Parsing a log in a cluster: the word `etcd:NAME`, and the options beside it.

use crate::mistake::Mistake;
use crate::parsing::{text_of, texts_of};
use crate::tasks::{EtcdLogin, EtcdPlace, LeaderSetting, MoveDirection, MoveTask};
use clap::ArgMatches;
use std::alloc::Global;

/// What the word for a log begins with.
const LOG_MARK: &str = "etcd:";

/// The length of the longest name of a log, in bytes.
const MOST_LOG_NAME: usize = 64;

/// The length of the longest address of a server, in bytes.
const MOST_ADDRESS: usize = 255;

/// The default number of seconds that a call may wait for the cluster.
const PATIENCE: u32 = 10;

/// The default number of seconds for which a leader must be quiet.
const QUIET: u32 = 3;

/// The name of the log that a word is for; `None` for a file.
pub(crate) fn log_name(word: &str) -> Option<&str> {
    word.strip_prefix(LOG_MARK)
}

/// Whether an option of the cluster was given.
pub(crate) fn has_cluster_option(found: &ArgMatches<'_>) -> bool {
    ["engine", "patience", "user", "password-file"]
        .iter()
        .any(|option| found.contains_id(option))
}

/// Whether an option was given that says how a server takes the lead.
pub(crate) fn has_leader_option(found: &ArgMatches<'_>) -> bool {
    found.get_flag("take") || found.contains_id("name") || found.contains_id("quiet")
}

/// The log of this name, in the cluster of the options.
pub(crate) fn log_place<'a>(
    alloc: Global,
    found: &ArgMatches<'_>,
    name: &str,
) -> Result<EtcdPlace, Mistake<'a>> {
    if !is_log_name(name) {
        return Err(Mistake::conflict(rme_cli_help::log_name_wanted()));
    }
    let engines = texts_of(alloc, found, "engine")?;
    if engines.is_empty() {
        return Err(Mistake::conflict(rme_cli_help::engine_wanted()));
    }
    if !engines.iter().all(|node| is_node(node.as_str())) {
        return Err(Mistake::conflict(rme_cli_help::node_wanted()));
    }
    Ok(EtcdPlace {
        name: name.to_string(alloc)?,
        engines,
        login: login_of(alloc, found)?,
        patience: found.get_one("patience").unwrap_or(PATIENCE),
    })
}

/// The user of the cluster, if one was given. Each of the two options requires the other.
fn login_of<'a>(alloc: Global, found: &ArgMatches<'_>) -> Result<Option<EtcdLogin>, Mistake<'a>> {
    match (
        text_of(alloc, found, "user")?,
        text_of(alloc, found, "password-file")?,
    ) {
        (Some(user), Some(password_file)) => Ok(Some(EtcdLogin {
            user,
            password_file,
        })),
        (Some(_), None) => Err(Mistake::conflict(rme_cli_help::password_file_wanted())),
        (None, Some(_)) => Err(Mistake::conflict(rme_cli_help::user_wanted())),
        (None, None) => Ok(None),
    }
}

/// How a server takes the lead of its log.
pub(crate) fn leader_setting<'a>(
    alloc: Global,
    found: &ArgMatches<'_>,
) -> Result<LeaderSetting, Mistake<'a>> {
    let Some(address) = text_of(alloc, found, "name")? else {
        return Err(Mistake::conflict(rme_cli_help::address_wanted()));
    };
    if !is_address(address.as_str()) {
        return Err(Mistake::conflict(rme_cli_help::other_address_wanted()));
    }
    Ok(LeaderSetting {
        address,
        quiet: found.get_one("quiet").unwrap_or(QUIET),
        takes: found.get_flag("take"),
    })
}

/// The task of the words after `move`.
pub(crate) fn move_task<'a>(
    alloc: Global,
    found: &ArgMatches<'_>,
) -> Result<MoveTask, Mistake<'a>> {
    let from = found.get_str("FROM").unwrap_or("");
    let to = found.get_str("TO").unwrap_or("");
    let (direction, file, name) = match (log_name(from), log_name(to)) {
        (None, Some(name)) => (MoveDirection::FileToLog, from, name),
        (Some(name), None) => (MoveDirection::LogToFile, to, name),
        _ => return Err(Mistake::conflict(rme_cli_help::move_words_wanted())),
    };
    Ok(MoveTask {
        direction,
        file: file.to_string(alloc)?,
        log: log_place(alloc, found, name)?,
    })
}

/// Whether a log can have this name.
fn is_log_name(name: &str) -> bool {
    let is_short = !name.is_empty() && name.len() <= MOST_LOG_NAME;
    is_short
        && name.bytes().all(|byte| byte.is_ascii_lowercase()
            || byte.is_ascii_digit()
            || matches!(byte, b'_' | b'-'))
}

/// Whether a word is the address of a node: HOST:PORT.
fn is_node(word: &str) -> bool {
    let Some((host, port)) = word.rsplit_once(':') else {
        return false;
    };
    let is_host = !host.is_empty()
        && host.bytes().all(|byte| byte.is_ascii_alphanumeric()
            || matches!(byte, b'.' | b'-' | b'_' | b':' | b'[' | b']'));
    is_host && port.parse::<u16>().is_ok_and(|port| port > 0)
}

/// Whether a server can tell others this address.
fn is_address(word: &str) -> bool {
    let is_short = !word.is_empty() && word.len() <= MOST_ADDRESS;
    is_short && word.bytes().all(|byte| byte.is_ascii_graphic())
}
