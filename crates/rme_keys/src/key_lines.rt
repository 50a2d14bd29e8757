//! Reading the key of a line.

ghost use Rattle.std.specs.Prelude.{◌≡◌, ◌↔◌, ◌++◌, [], ◌∷◌, IfErr, IsTrue, OnOk, map};
ghost use Rattle.std.specs.List.{Any};
ghost use Rattle.rme_keys.specs.Allowing.{digest_of, name_of};
ghost use Rattle.rme_keys.specs.KeyFiles.{AddsWords, IsNew, IsWhyNotAdded, IsWhyNotNew, line_words};
ghost use Rattle.rme_keys.specs.KeyLines.{AreKeyWords, IsKeyOf, IsWhyNoKey, IsWhyNoKeyOf, ReadsKey};

use crate::digests::DIGEST_LENGTH;
use crate::faults::{BadKeyLine, LineError};
use crate::key::Key;
use crate::pieces::{are_bytes, before_comment, words_of};
use crate::spaces::spaces_of_word;
use crate::workers::workers_of_text;
use hex::FromHex;
use std::alloc::Global;
use std::str;

/// Adds the key of a line to the keys of the lines before it. A line without words adds none.
///
/// `Bad` if the line has words, but they are not those of a new key. `NoMemory` if memory was refused.
pub(crate) fn add_line(alloc: Global, line: &[u8], keys: &mut Vec<Key>) -> Result<(), LineError>
    ensures ok { OnOk result (AddsWords (line_words line.now) keys.old.items keys.new.items) }
    ensures err { IfErr result (IsWhyNotAdded keys.old.items (line_words line.now)) }
{
    let words = words_of(alloc, before_comment(line))?;
    add_words(alloc, words.as_slice(), keys)
}

/// Adds the key of a line's words.
fn add_words(alloc: Global, words: &[&[u8]], keys: &mut Vec<Key>) -> Result<(), LineError>
    ensures ok { OnOk result (AddsWords (map (λ word. word.now) words.now) keys.old.items keys.new.items) }
    ensures err { IfErr result (IsWhyNotAdded keys.old.items (map (λ word. word.now) words.now)) }
{
    if words.is_empty() {
        return Ok(());
    }
    match key_of_line(alloc, words) {
        Ok(key) => add_key(key, keys),
        Err(error) => Err(error),
    }
}

/// Adds a key to others.
///
/// `SameName` or `SameDigest` if one of them has its name or its digest. `NoMemory` if memory was refused.
fn add_key(key: Key, keys: &mut Vec<Key>) -> Result<(), LineError>
    ensures ok { OnOk result (IsNew keys.old.items key × (keys.new.items ≡ keys.old.items ++ key ∷ [])) }
    ensures err { IfErr result (IsWhyNotNew keys.old.items key) }
{
    if has_name(keys.as_slice(), &key) {
        return Err(LineError::Bad(BadKeyLine::SameName));
    }
    if has_digest(keys.as_slice(), &key) {
        return Err(LineError::Bad(BadKeyLine::SameDigest));
    }
    keys.push(key)?;
    Ok(())
}

/// Whether one of these keys has the name of another.
fn has_name(keys: &[Key], key: &Key) -> bool
    ensures { IsTrue result ↔ Any (λ other. name_of other ≡ name_of key.now) keys.now }
{
    keys.iter().any(|other| are_bytes(other.name.as_bytes(), key.name.as_bytes()))
}

/// Whether one of these keys has the digest of another.
fn has_digest(keys: &[Key], key: &Key) -> bool
    ensures { IsTrue result ↔ Any (λ other. digest_of other ≡ digest_of key.now) keys.now }
{
    keys.iter().any(|other| are_bytes(other.digest.as_slice(), key.digest.as_slice()))
}

/// The key of the words of a line.
///
/// `Words` if there are not three or four. The other errors are those of `key_of_words`.
fn key_of_line(alloc: Global, words: &[&[u8]]) -> Result<Key, LineError>
    ensures { ReadsKey (AreKeyWords (map (λ word. word.now) words.now))
        (IsWhyNoKey (map (λ word. word.now) words.now)) result }
{
    if words.len() == 3 {
        return key_of_words(alloc, words[0], words[1], words[2], b"*");
    }
    if words.len() == 4 {
        return key_of_words(alloc, words[0], words[1], words[2], words[3]);
    }
    Err(LineError::Bad(BadKeyLine::Words))
}

/// The key of four words.
///
/// `Name`, `Digest`, `Workers` or `Spaces` for the first word that is bad. `NoMemory` if memory was refused.
fn key_of_words(
    alloc: Global,
    name: &[u8],
    digest: &[u8],
    workers: &[u8],
    spaces: &[u8],
) -> Result<Key, LineError>
    ensures { ReadsKey (IsKeyOf name.now digest.now workers.now spaces.now)
        (IsWhyNoKeyOf name.now digest.now workers.now spaces.now) result }
{
    let Ok(text) = str::from_utf8(name) else {
        return Err(LineError::Bad(BadKeyLine::Name));
    };
    let Ok(bytes) = <[u8; DIGEST_LENGTH]>::from_hex(digest) else {
        return Err(LineError::Bad(BadKeyLine::Digest));
    };
    let found_ranges = workers_of_text(alloc, workers)?;
    let Some(ranges) = found_ranges else {
        return Err(LineError::Bad(BadKeyLine::Workers));
    };
    let found_spaces = spaces_of_word(alloc, spaces)?;
    let Some(said) = found_spaces else {
        return Err(LineError::Bad(BadKeyLine::Spaces));
    };
    let owned = String::from_str(alloc, text)?;
    Ok(Key {
        name: owned,
        digest: bytes,
        workers: ranges,
        spaces: said.patterns,
        may_create: said.may_create,
    })
}
