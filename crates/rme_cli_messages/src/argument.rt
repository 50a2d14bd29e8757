//! The refused words of the command line, with their reasons.

ghost use Rattle.std.specs.Prelude.{◌≡◌, ◌++◌, IfOk, OnOk, string_bytes};
ghost use Rattle.rme_cli_messages.specs.EscapedTexts.{escaped_char, escaped_text};

use std::alloc::{AllocError, Global};
use std::error::Error;
use std::fmt::Write;
use std::{fmt, io};

/// A word of the command line that cannot be accepted, with the reason. Words in it are as `escape_controls` writes
/// them.
#[derive(Debug, Drop)]
pub enum BadArgument {
    NoText,
    NoFile(&'static str),
    NoName(String),
    Twice(String),
    ManyLocks(usize, u32),
    OutOfRange(&'static str, u32, u32),
    FallsBack(u32, u32),
    NoSocket(String),
    ServedAlready(String),
    /// The file with the name of a state cannot be one.
    NoState(String),
    /// Another server has the state.
    StateServed(String),
    /// An option's number, which is not that of the state.
    OtherSize(&'static str, u32, u32),
    /// The state has other locks, namely these.
    OtherNames(String, String),
    /// No locks were given, and no state exists that names some.
    NoNames(String),
    /// The file with this name may not be replaced, but a checkpoint's new file would have this name until it replaces
    /// the state.
    RenewalTaken(String),
    /// A checkpoint's new file cannot have this name, for this reason.
    RenewalUnnamed(String, io::Error),
}

impl fmt::Display for BadArgument {
    ghost use Rattle.rme_cli_messages.specs.FaultTexts.{bad_argument_text};

    ghost output = { λ argument. bad_argument_text argument };

    fn fmt<W: fmt::Write>(&self, f: &mut fmt::Formatter<W>) -> fmt::Result {
        match self {
            BadArgument::NoText => f.write_str("a word is no text in UTF-8"),
            BadArgument::NoFile(option) => write!(f, "{option} names no file: its value is empty"),
            BadArgument::NoName(word) => write!(
                f,
                "the lock {word}: a name has 1 to 32 of a-z 0-9 _ and -"
            ),
            BadArgument::Twice(word) => write!(f, "the lock {word}: each name stands once"),
            BadArgument::ManyLocks(count, most) => write!(
                f,
                "{count} locks: a service has 1 to {most}"
            ),
            BadArgument::OutOfRange(option, number, most) => write!(
                f,
                "{option} {number}: it is 1 to {most}"
            ),
            BadArgument::FallsBack(before, after) => write!(
                f,
                "FALL {after} after {before}: each is greater than the one before"
            ),
            BadArgument::NoSocket(path) => write!(
                f,
                "--socket {path}: it is there, and is no socket"
            ),
            BadArgument::ServedAlready(path) => write!(
                f,
                "--socket {path}: a server listens on it"
            ),
            BadArgument::NoState(path) => write!(
                f,
                "--state {path}: it is there, and is no regular file"
            ),
            BadArgument::StateServed(path) => write!(f, "--state {path}: a server has it"),
            BadArgument::OtherSize(option, number, has) => write!(
                f,
                "{option} {number}: the state has {has}"
            ),
            BadArgument::OtherNames(path, locks) => write!(
                f,
                "LOCK: the state {path} has other locks: {locks}"
            ),
            BadArgument::NoNames(path) => write!(
                f,
                "LOCK: the state {path} is not there, and its locks need names"
            ),
            BadArgument::RenewalTaken(path) => write!(
                f,
                "--state: {path} is there and was not made by a server, so that the state could not be renewed"
            ),
            BadArgument::RenewalUnnamed(path, why) => write!(
                f,
                "--state: the state could not be renewed, since {path} can't be made: {why}"
            ),
        }
    }
}

impl Error for BadArgument {}

/// A word as a text shows it: control characters of a terminal are written as their numbers, as `\u{1b}`.
pub fn escape_controls(alloc: Global, word: &str) -> Result<String, AllocError>
    ensures { IfOk result (λ text. string_bytes text ≡ escaped_text word.now) }
{
    let mut text = String::new(alloc);
    for letter in word.chars() {
        push_escaped(&mut text, letter)?;
    }
    Ok(text)
}

/// Appends a character, or its number if it is a control character.
fn push_escaped(out: &mut String, letter: char) -> Result<(), AllocError>
    ensures { OnOk result (string_bytes out.new ≡ string_bytes out.old ++ escaped_char letter) }
{
    if !letter.is_control() {
        return out.push(letter);
    }
    let number = u32::from(letter);
    write!(out, "\\u{{{number:x}}}")
}
