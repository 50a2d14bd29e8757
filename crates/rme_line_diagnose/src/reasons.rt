//! What is wrong with a line.

use crate::words::LineKey;
use std::alloc::{AllocError, Global};
use std::fmt;
use std::fmt::Write;

/// The number of characters of a word or a key that are shown.
const MOST_SHOWN: usize = 40;

/// What is wrong with a line that is answered `BadLine`. The line's words and keys in it are as `escape_excerpt` writes
/// them.
#[derive(Drop)]
pub enum Reason {
    Empty,
    /// It ends before its JSON does.
    Unfinished,
    /// It is not JSON from this column on, counted from 1.
    NoJson(usize),
    NoObject,
    /// It has no `do`, or one that is no text.
    NoWord,
    UnknownWord(String),
    /// The word has no such key.
    Further(String, String),
    /// The word needs this key.
    Missing(String, LineKey),
    /// The value of this key is not valid.
    Wrong(LineKey),
    /// This key stands beside `any`.
    BesideChoice(String),
    /// It has both `tries` and `wait`.
    TriesAndWait,
}

impl fmt::Display for Reason {
    fn fmt<W: fmt::Write>(&self, f: &mut fmt::Formatter<W>) -> fmt::Result {
        match self {
            Reason::Empty => f.write_str("it is empty"),
            Reason::Unfinished => f.write_str("it ends before its JSON does"),
            Reason::NoJson(column) => write!(f, "it is no JSON at column {column}"),
            Reason::NoObject => f.write_str("it is no JSON object"),
            Reason::NoWord => f.write_str("it has no key \"do\" with a text"),
            Reason::UnknownWord(word) => write!(f, "there is no word \"{word}\" of \"do\" here"),
            Reason::Further(word, key) => write!(f, "\"{word}\" takes no key \"{key}\""),
            Reason::Missing(word, key) => {
                let name = key.name;
                write!(f, "\"{word}\" needs the key \"{name}\"")
            }
            Reason::Wrong(key) => {
                let name = key.name;
                let kind = key.kind;
                write!(f, "the key \"{name}\" must be {kind}")
            }
            Reason::BesideChoice(key) => {
                write!(f, "the key \"{key}\" may not stand beside the key \"any\"")
            }
            Reason::TriesAndWait => f.write_str(
                "only one of the keys \"tries\" and \"wait\" may stand",
            ),
        }
    }
}

/// A text of a line as a reason shows it: at most its front, with control characters of a terminal as their numbers.
pub fn escape_excerpt(alloc: Global, word: &str) -> Result<String, AllocError> {
    let mut text = String::new(alloc);
    for letter in word.chars().take(MOST_SHOWN) {
        if letter.is_control() {
            write!(text, "\\u{{{:x}}}", u32::from(letter))?;
        } else {
            text.push(letter)?;
        }
    }
    if word.chars().nth(MOST_SHOWN).is_some() {
        text.push_str("..")?;
    }
    Ok(text)
}
