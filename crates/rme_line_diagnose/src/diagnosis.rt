//! The diagnosis of a line.

use crate::reasons::{Reason, escape_excerpt};
use crate::words::{CHOICE_KEYS, KeyKind, LineKey, Vocabulary, keys_of};
use rme_wire::{Value, do_member, lend, script_of_value, whole_up_to};
use serde_json::{Error, Map, Value as Owned};
use std::alloc::{AllocError, Global};

/// Why a line is answered `BadLine`, or `None` if it is not. Not for a line that is too long.
pub fn reason(
    alloc: Global,
    vocabulary: Vocabulary,
    line: &[u8],
) -> Result<Option<Reason>, AllocError> {
    match Owned::from_slice(alloc, line) {
        Ok(value) => reason_of_value(alloc, vocabulary, &value),
        Err(error) if error.is_memory() => Err(AllocError),
        Err(error) => Ok(Some(reason_of_text(line, &error))),
    }
}

/// Why a line is not JSON.
fn reason_of_text(line: &[u8], error: &Error) -> Reason {
    if line.iter().all(|byte| byte.is_ascii_whitespace()) {
        return Reason::Empty;
    }
    if error.is_eof() {
        return Reason::Unfinished;
    }
    Reason::NoJson(error.column())
}

/// Why a value is neither a command nor an order.
fn reason_of_value(
    alloc: Global,
    vocabulary: Vocabulary,
    value: &Owned,
) -> Result<Option<Reason>, AllocError> {
    let Some(members) = value.as_object() else {
        return Ok(Some(Reason::NoObject));
    };
    let value = lend(alloc, value).ok_or(AllocError)?;
    let Some(word) = do_member(&value) else {
        return Ok(Some(Reason::NoWord));
    };
    if leaves_choice(vocabulary, word, &value) {
        return reason_of_choice(alloc, members, &value);
    }
    let Some(keys) = keys_of(vocabulary, word) else {
        return Ok(Some(Reason::UnknownWord(escape_excerpt(alloc, word)?)));
    };
    if let Some(further) = further_key(members, keys) {
        let word = escape_excerpt(alloc, word)?;
        return Ok(Some(Reason::Further(word, escape_excerpt(alloc, further)?)));
    }
    for key in keys {
        match value.get(key.name) {
            None if key.is_optional => {}
            None => return Ok(Some(Reason::Missing(escape_excerpt(alloc, word)?, *key))),
            Some(given) if !is_of_key_kind(key.kind, given) => return Ok(Some(Reason::Wrong(*key))),
            Some(_) => {}
        }
    }
    if value.get("tries").is_some() && value.get("wait").is_some() {
        return Ok(Some(Reason::TriesAndWait));
    }
    Ok(None)
}

/// Whether an order leaves the choice of its worker to the server.
fn leaves_choice(vocabulary: Vocabulary, word: &str, value: &Value<'_>) -> bool {
    matches!(vocabulary, Vocabulary::Orders(_)) && word == "attach" && value.get("any").is_some()
}

/// What is wrong with such an order.
fn reason_of_choice(
    alloc: Global,
    members: &Map<String, Owned>,
    value: &Value<'_>,
) -> Result<Option<Reason>, AllocError> {
    if let Some(further) = further_key(members, CHOICE_KEYS) {
        return Ok(Some(Reason::BesideChoice(escape_excerpt(alloc, further)?)));
    }
    for key in CHOICE_KEYS {
        if let Some(given) = value.get(key.name)
            && !is_of_key_kind(key.kind, given)
        {
            return Ok(Some(Reason::Wrong(*key)));
        }
    }
    Ok(None)
}

/// The first key that is neither `do` nor one of these.
fn further_key<'a>(members: &'a Map<String, Owned>, keys: &[LineKey]) -> Option<&'a str> {
    members
        .keys()
        .map(|key| key.as_str())
        .find(|key| !is_known(keys, *key))
}

/// Whether a key is `do` or one of these.
fn is_known(keys: &[LineKey], name: &str) -> bool {
    name == "do" || keys.iter().any(|key| key.name == name)
}

/// Whether a value is of this kind.
fn is_of_key_kind(kind: KeyKind, value: &Value<'_>) -> bool {
    match kind {
        KeyKind::Text => value.as_str().is_some(),
        KeyKind::ShortText(most) => value.as_str().is_some_and(|text| text.len() <= most),
        KeyKind::Flag => value.as_bool().is_some(),
        KeyKind::Number(least, most) => match whole_up_to(most, value) {
            Some(number) => number >= least,
            None => false,
        },
        KeyKind::Note => is_note(value),
        KeyKind::Texts => match value.as_array() {
            Some(items) => items.iter().all(|item| item.as_str().is_some()),
            None => false,
        },
        KeyKind::Script => script_of_value(value).is_some(),
        KeyKind::Choice => matches!(value.as_str(), Some("pending" | "ready")),
    }
}

fn is_note(value: &Value<'_>) -> bool {
    matches!(
        value.as_str(),
        Some("asked" | "entered" | "reentered" | "finished" | "left" | "ready" | "withdrew")
    )
}
