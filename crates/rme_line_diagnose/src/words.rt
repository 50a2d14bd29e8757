//! The words of `do`, and the keys of each.

use std::fmt;

/// The lines that are diagnosed.
#[derive(Clone, Copy, PartialEq, Eq)]
pub enum Vocabulary {
    /// The commands of `rme run`.
    Commands,
    /// Those of `rme run --transcript`, which loads no world.
    Transcript,
    /// The orders of a session.
    Orders(SessionWords),
}

/// The words that not every server has.
#[derive(Clone, Copy, Debug, PartialEq, Eq)]
pub struct SessionWords {
    /// Look-ups, as a server with a state has them.
    pub has_look_ups: bool,
    /// Secrets, as a server with keys has them.
    pub has_secrets: bool,
    /// Orders on spaces, as a server of spaces has them.
    pub has_spaces: bool,
}

/// The valid values of a key.
#[derive(Clone, Copy)]
pub enum KeyKind {
    Text,
    /// A text of at most this number of bytes.
    ShortText(usize),
    Flag,
    /// A whole number from the first to the second.
    Number(u64, u64),
    /// The kind of note that ends a walk.
    Note,
    Texts,
    Script,
    /// Which worker a session asks for, if it leaves the choice to the server.
    Choice,
}

/// A key other than `do`.
#[derive(Clone, Copy)]
pub struct LineKey {
    pub name: &'static str,
    pub kind: KeyKind,
    pub is_optional: bool,
}

/// Any number of 32 bits.
const NUMBER: KeyKind = KeyKind::Number(0, 4_294_967_295);

const WORKERS: LineKey = LineKey {
    name: "workers",
    kind: NUMBER,
    is_optional: false,
};

const CELLS: LineKey = LineKey {
    name: "cells",
    kind: NUMBER,
    is_optional: false,
};

const JOBS: LineKey = LineKey {
    name: "jobs",
    kind: NUMBER,
    is_optional: false,
};

const WORKER: LineKey = LineKey {
    name: "worker",
    kind: NUMBER,
    is_optional: false,
};

const LOCK: LineKey = LineKey {
    name: "lock",
    kind: KeyKind::Text,
    is_optional: false,
};

const LOCKS: LineKey = LineKey {
    name: "locks",
    kind: KeyKind::Texts,
    is_optional: false,
};

const IMAGE: LineKey = LineKey {
    name: "image",
    kind: KeyKind::Text,
    is_optional: false,
};

const SCRIPT: LineKey = LineKey {
    name: "script",
    kind: KeyKind::Script,
    is_optional: false,
};

const UNTIL: LineKey = LineKey {
    name: "until",
    kind: KeyKind::Note,
    is_optional: true,
};

const MAX: LineKey = LineKey {
    name: "max",
    kind: KeyKind::Number(1, 10_000),
    is_optional: true,
};

const NUMBER_OF_JOB: LineKey = LineKey {
    name: "number",
    kind: NUMBER,
    is_optional: false,
};

const TRIES: LineKey = LineKey {
    name: "tries",
    kind: KeyKind::Number(1, 1_000_000),
    is_optional: true,
};

const WAIT: LineKey = LineKey {
    name: "wait",
    kind: KeyKind::Number(0, 3_600_000),
    is_optional: true,
};

const TAKE: LineKey = LineKey {
    name: "take",
    kind: KeyKind::Flag,
    is_optional: true,
};

/// A life: at most 2^53.
const AFTER: LineKey = LineKey {
    name: "after",
    kind: KeyKind::Number(0, 9_007_199_254_740_992),
    is_optional: true,
};

/// The label of a client.
const AS: LineKey = LineKey {
    name: "as",
    kind: KeyKind::ShortText(64),
    is_optional: true,
};

const ANY: LineKey = LineKey {
    name: "any",
    kind: KeyKind::Choice,
    is_optional: false,
};

const SECRET: LineKey = LineKey {
    name: "secret",
    kind: KeyKind::Text,
    is_optional: false,
};

const STEPS: LineKey = LineKey {
    name: "steps",
    kind: KeyKind::Number(0, 1_000_000),
    is_optional: false,
};

const SPACE: LineKey = LineKey {
    name: "space",
    kind: KeyKind::Text,
    is_optional: false,
};

/// The number of workers of a new space.
const SPACE_WORKERS: LineKey = LineKey {
    name: "workers",
    kind: NUMBER,
    is_optional: true,
};

/// The number of cells of each lock of a new space.
const SPACE_CELLS: LineKey = LineKey {
    name: "cells",
    kind: NUMBER,
    is_optional: true,
};

/// The name of a space behind which the list begins.
const AFTER_SPACE: LineKey = LineKey {
    name: "after",
    kind: KeyKind::Text,
    is_optional: true,
};

/// The keys of an attachment that leaves the choice of the worker to the server.
pub const CHOICE_KEYS: &[LineKey] = &[ANY, AS];

/// The keys of a word, or `None` if it is no word of this vocabulary.
pub fn keys_of(vocabulary: Vocabulary, word: &str) -> Option<&'static [LineKey]> {
    match vocabulary {
        Vocabulary::Orders(words) => order_keys(words, word),
        Vocabulary::Transcript if word == "load" => None,
        _ => command_keys(word),
    }
}

fn command_keys(word: &str) -> Option<&'static [LineKey]> {
    match word {
        "open" => Some(&[WORKERS, LOCKS, CELLS, JOBS]),
        "submit" => Some(&[WORKER, LOCK, SCRIPT]),
        "walk" => Some(&[WORKER, UNTIL, MAX]),
        "step" | "crash" | "restart" | "withdraw" | "last" => Some(&[WORKER]),
        "owner" | "cells" => Some(&[LOCK]),
        "history" | "report" | "save" => Some(&[]),
        "load" => Some(&[IMAGE, LOCKS]),
        _ => None,
    }
}

fn order_keys(words: SessionWords, word: &str) -> Option<&'static [LineKey]> {
    match word {
        "status" if words.has_look_ups => Some(&[]),
        "owner" | "cells" if words.has_look_ups => Some(&[LOCK]),
        "hello" if words.has_secrets => Some(&[SECRET]),
        "create" if words.has_spaces => Some(&[SPACE, LOCKS, SPACE_WORKERS, SPACE_CELLS]),
        "use" | "drop" if words.has_spaces => Some(&[SPACE]),
        "spaces" if words.has_spaces => Some(&[AFTER_SPACE]),
        "attach" => Some(&[WORKER, TAKE, AFTER, AS]),
        "submit" | "enter" => Some(&[NUMBER_OF_JOB, LOCK, SCRIPT, TRIES, WAIT]),
        "resume" => Some(&[TRIES, WAIT]),
        "crash_after" => Some(&[STEPS]),
        "commit" | "withdraw" | "last" | "pending" | "detach" | "ping" => Some(&[]),
        _ => None,
    }
}

impl fmt::Display for KeyKind {
    fn fmt<W: fmt::Write>(&self, f: &mut fmt::Formatter<W>) -> fmt::Result {
        match self {
            KeyKind::Text => f.write_str("a text"),
            KeyKind::ShortText(most) => write!(f, "a text of at most {most} bytes"),
            KeyKind::Flag => f.write_str("true or false"),
            KeyKind::Number(least, most) => write!(f, "a whole number from {least} to {most}"),
            KeyKind::Note => f.write_str(
                "\"asked\", \"entered\", \"reentered\", \"finished\", \"left\", \"ready\" or \"withdrew\"",
            ),
            KeyKind::Texts => f.write_str("a list of texts"),
            KeyKind::Choice => f.write_str("\"pending\" or \"ready\""),
            KeyKind::Script => f.write_str(
                "a list of operations: [\"get\",c], [\"set\",c,v], [\"add\",c,v], [\"copy\",a,b] or [\"swap\",a,b]",
            ),
        }
    }
}
