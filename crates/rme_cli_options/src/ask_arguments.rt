//! The options and arguments of `rme ask`, by subject and in the order of help.

use crate::arguments::{
    ArgumentKind, ArgumentSpec, ArgumentValue, option_of, optional, text_option,
};

/// The server, how a session with it begins, and the form of its answers.
pub(crate) fn server<'a>() -> [ArgumentSpec<'a>; 5] {
    [
        ArgumentSpec {
            conflicts: &["socket"],
            value: ArgumentValue::ServerPort,
            ..optional(
                "port",
                ArgumentKind::List("PORTS"),
                "The port of the server, on 127.0.0.1, or ports with commas between, tried in turn; 7000 without it",
            )
        },
        optional(
            "socket",
            ArgumentKind::Repeated("PATH"),
            "The Unix socket of the server, in place of the port; several of these options are tried in turn",
        ),
        text_option(
            "key-file",
            "FILE",
            "The file whose first line is the secret, for a server with --keys",
        ),
        text_option(
            "space",
            "NAME",
            "The space that is used first, at a server with --spaces",
        ),
        optional(
            "json",
            ArgumentKind::Flag('j'),
            "Prints the server's lines, for programs",
        ),
    ]
}

/// The options of `finish`.
pub(crate) fn of_finish<'a>() -> [ArgumentSpec<'a>; 3] {
    [
        optional(
            "take",
            ArgumentKind::Flag('t'),
            "finish: takes the worker also from a session that has it, which is ended",
        ),
        option_of(
            ArgumentValue::Number,
            "wait",
            "SECONDS",
            "finish: how long to wait for the lock; as long as it takes without it",
        ),
        optional(
            "withdraw",
            ArgumentKind::Flag('w'),
            "finish: gives the job up where it waits for its lock",
        ),
    ]
}

/// The options of `top` and of `create`.
pub(crate) fn of_top_and_create<'a>() -> [ArgumentSpec<'a>; 3] {
    [
        option_of(
            ArgumentValue::Count,
            "count",
            "N",
            "top: ends after this number of tables, 1 to 1000000",
        ),
        option_of(
            ArgumentValue::Number,
            "workers",
            "N",
            "create: how many workers the space has, 1 to 255; 8 without it",
        ),
        option_of(
            ArgumentValue::Number,
            "cells",
            "N",
            "create: how many cells each of its locks guards, 1 to 16; 1 without it",
        ),
    ]
}

/// The request, and its names.
pub(crate) fn words<'a>() -> [ArgumentSpec<'a>; 3] {
    [
        ArgumentSpec {
            value: ArgumentValue::AskWord,
            ..optional(
                "WORD",
                ArgumentKind::Argument,
                "What is asked; without it each line of the standard input is sent",
            )
        },
        optional(
            "NAME",
            ArgumentKind::Argument,
            "The lock of owner and cells, the worker of finish, the space of create and drop",
        ),
        optional(
            "LOCK",
            ArgumentKind::Arguments(0),
            "The names of the locks of create, 1 to 16",
        ),
    ]
}
