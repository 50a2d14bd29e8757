//! The options and arguments of `rme serve`, by subject and in the order of help.

use crate::arguments::{
    ArgumentKind, ArgumentPresence, ArgumentSpec, ArgumentValue, option_of, optional, text_option,
    why,
};

/// The sizes of a service. An existing state has its own, and so has each space.
pub(crate) fn sizes<'a>() -> [ArgumentSpec<'a>; 3] {
    [
        size(
            "workers",
            "How many workers there are, 1 to 256; with --state 1 to 255, and 8 without it",
        ),
        size(
            "cells",
            "How many cells each lock guards, 1 to 16; with --state 1 without it",
        ),
        size(
            "jobs",
            "How many jobs each worker may make, 1 to 1000000; with --state 10000 without it, after which FILE is renewed",
        ),
    ]
}

/// One of them.
fn size<'a>(name: &'a str, help: &'a str) -> ArgumentSpec<'a> {
    ArgumentSpec {
        presence: ArgumentPresence::RequiredWithout(&["state", "spaces"]),
        ..option_of(ArgumentValue::Number, name, "N", help)
    }
}

/// Where it listens.
pub(crate) fn addresses<'a>() -> [ArgumentSpec<'a>; 3] {
    [
        ArgumentSpec {
            presence: ArgumentPresence::RequiredWithout(&["socket", "state", "spaces"]),
            ..option_of(
                ArgumentValue::Port,
                "port",
                "N",
                "The port to listen on; 0 takes a free one; with --state or --spaces 7000 without it",
            )
        },
        text_option(
            "socket",
            "PATH",
            "The Unix socket to listen on, in place of the port or beside it, for this user alone",
        ),
        option_of(
            ArgumentValue::Port,
            "http",
            "N",
            "The port of metrics and, with --state or --spaces, of a page to look at; 0 takes a free one",
        ),
    ]
}

/// The file of its state, or the folder of its spaces.
pub(crate) fn files<'a>() -> [ArgumentSpec<'a>; 3] {
    [
        text_option(
            "state",
            "FILE",
            "Keeps what it did in this file before it answers, and goes on from there; or in etcd:NAME",
        ),
        ArgumentSpec {
            conflicts: &["state", "workers", "cells", "jobs", "connections", "LOCK"],
            ..text_option(
                "spaces",
                "DIR",
                "Serves the spaces of this folder, which clients create; each is a state of its own",
            )
        },
        option_of(
            ArgumentValue::Count,
            "close-after",
            "SECONDS",
            "With --spaces: how long a space stays open without a session, 1 to 1000000; 300 without it",
        ),
    ]
}

/// How a state is kept: its syncs, its waiting jobs and its checkpoints.
pub(crate) fn policies<'a>() -> [ArgumentSpec<'a>; 3] {
    [
        option_of(
            ArgumentValue::Sync,
            "sync",
            "WHEN",
            "always: the disk has it before each answer; never, without it: the system has",
        ),
        option_of(
            ArgumentValue::Waiting,
            "waiting",
            "WHAT",
            "A job that waits when its session ends: keep, without it, or withdraw",
        ),
        option_of(
            ArgumentValue::Count,
            "sections",
            "N",
            "FILE is renewed after this number of finished jobs, 1 to 1000000; 100000 without it",
        ),
    ]
}

/// The sessions that it serves: their number, their time and their keys.
pub(crate) fn sessions<'a>() -> [ArgumentSpec<'a>; 4] {
    [
        ArgumentSpec {
            conflicts: &["state"],
            ..option_of(
                ArgumentValue::Count,
                "connections",
                "N",
                "How many connections to serve, 1 to 1000000; without it it serves until it is killed",
            )
        },
        option_of(
            ArgumentValue::Count,
            "at-once",
            "N",
            "How many sessions run at a time, 1 to 1000000; 1000 without it",
        ),
        option_of(
            ArgumentValue::Count,
            "idle",
            "SECONDS",
            "How long a client may send nothing, 1 to 1000000; for good without it",
        ),
        text_option(
            "keys",
            "FILE",
            "Serves only clients with a secret that this file has a key for",
        ),
    ]
}

/// What it says on the standard error, and the names of its locks.
pub(crate) fn others<'a>() -> [ArgumentSpec<'a>; 3] {
    [
        why(),
        optional("log", ArgumentKind::Flag('l'), rme_cli_help::log_help()),
        ArgumentSpec {
            presence: ArgumentPresence::RequiredWithout(&["state", "spaces"]),
            ..optional(
                "LOCK",
                ArgumentKind::Arguments(0),
                "The names of the locks, 1 to 16, each of 1 to 32 of a-z 0-9 _ -",
            )
        },
    ]
}
