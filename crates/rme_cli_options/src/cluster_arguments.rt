//! The options of a log in a cluster, in the order of help.

use crate::arguments::{
    ArgumentKind, ArgumentSpec, ArgumentValue, option_of, optional, text_option,
};

/// The cluster of a log, and how it is asked.
pub(crate) fn cluster<'a>() -> [ArgumentSpec<'a>; 4] {
    [
        optional(
            "engine",
            ArgumentKind::List("NODES"),
            "With etcd:NAME: the nodes of the cluster, HOST:PORT each, with commas between",
        ),
        option_of(
            ArgumentValue::Count,
            "patience",
            "SECONDS",
            "With etcd:NAME: how long to wait for the cluster, 1 to 1000000; 10 without it",
        ),
        text_option(
            "user",
            "NAME",
            "With etcd:NAME: the user of the cluster, if it asks for one",
        ),
        text_option(
            "password-file",
            "FILE",
            "With etcd:NAME: the file whose first line is that user's password",
        ),
    ]
}

/// How a server takes the lead of a log.
pub(crate) fn leader<'a>() -> [ArgumentSpec<'a>; 3] {
    [
        text_option(
            "name",
            "ADDRESS",
            "With etcd:NAME: where clients reach this server, which it tells the others",
        ),
        option_of(
            ArgumentValue::Count,
            "quiet",
            "SECONDS",
            "With etcd:NAME: it takes over when the leader was quiet for this time; 3 without it",
        ),
        optional(
            "take",
            ArgumentKind::Flag('t'),
            "With etcd:NAME: takes over at once from the server that leads",
        ),
    ]
}
