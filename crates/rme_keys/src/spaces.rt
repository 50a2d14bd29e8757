//! The spaces that may be used: names and prefixes of names, and the text that names them.

ghost use Rattle.std.specs.Prelude.{◌≡◌, ◌≢◌, ◌↔◌, ◌++◌, [], ◌∷◌, ℕ, List, IfOk, IsTrue, MatchOption, map, option_map};
ghost use Rattle.std.specs.List.{list_all};
ghost use Rattle.rme_keys.specs.Finding.{Finds, NameInTurn};
ghost use Rattle.rme_keys.specs.Spaces.{CoverName, Covers, IsNamePattern, IsPatternText, IsPrefixPattern, IsSpacesText, IsTextOf, IsWordOf, is_space_byte, is_space_front, is_space_name};

use crate::pieces::{are_bytes, pieces_of};
use std::alloc::{AllocError, Global};

/// The greatest length of a space's name in bytes.
const SPACE_NAME_LIMIT: usize = 64;

/// Spaces, by their names.
#[derive(Drop)]
pub(crate) enum SpacePattern {
    /// The space of this name.
    Name(Vec<u8>),
    /// Each space whose name begins with this prefix.
    Prefix(Vec<u8>),
}

impl SpacePattern {
    /// Whether it covers a name.
    fn covers(&self, name: &[u8]) -> bool
        ensures { IsTrue result ↔ Covers self.now name.now }
    {
        match self {
            SpacePattern::Name(only) => are_bytes(name, only.as_slice()),
            SpacePattern::Prefix(front) => begins_with(name, front.as_slice()),
        }
    }
}

impl Clone for SpacePattern {
    ghost use Rattle.rme_keys.specs.Spaces.{IsSamePattern};

    ghost is_clone = { λ pattern copy. IsSamePattern pattern copy };

    fn clone(&self) -> Result<SpacePattern, AllocError> {
        match self {
            SpacePattern::Name(only) => Ok(SpacePattern::Name(only.clone()?)),
            SpacePattern::Prefix(front) => Ok(SpacePattern::Prefix(front.clone()?)),
        }
    }
}

/// Whether a name begins with a prefix.
fn begins_with(name: &[u8], front: &[u8]) -> bool
    ensures { IsTrue result ↔ ((rest : List ℕ) × (name.now ≡ front.now ++ rest)) }
{
    name.starts_with(front)
}

/// Whether one of these patterns covers a name.
pub(crate) fn cover_name(patterns: &[SpacePattern], name: &[u8]) -> bool
    ensures { IsTrue result ↔ CoverName patterns.now name.now }
{
    patterns.iter().any(|pattern| pattern.covers(name))
}

/// Whether a byte may stand in a space's name.
fn is_space_byte(byte: u8) -> bool
    ensures { result ≡ is_space_byte byte }
{
    matches!(byte, b'a'..=b'z' | b'0'..=b'9' | b'_' | b'-')
}

/// Whether each byte may stand in a space's name.
fn are_space_bytes(bytes: &[u8]) -> bool
    ensures { result ≡ list_all is_space_byte bytes.now }
{
    bytes.iter().all(|byte| is_space_byte(*byte))
}

/// Whether each byte may stand in a space's name, and there are at most 64.
fn is_space_front(bytes: &[u8]) -> bool
    ensures { result ≡ is_space_front bytes.now }
{
    if bytes.len() > SPACE_NAME_LIMIT {
        return false;
    }
    are_space_bytes(bytes)
}

/// Whether a text may name a space: 1 to 64 bytes of `a` to `z`, `0` to `9`, `_` and `-`.
pub(crate) fn is_space_name(text: &[u8]) -> bool
    ensures { result ≡ is_space_name text.now }
{
    if text.is_empty() {
        return false;
    }
    is_space_front(text)
}

/// The spaces of a key, and whether they may also be created and dropped.
#[derive(Drop)]
pub(crate) struct SpacesWord {
    pub(crate) may_create: bool,
    pub(crate) patterns: Vec<SpacePattern>,
}

/// What the word of a key's spaces says: names and prefixes with commas between. `+` in front lets the holder of the
/// secret create and drop them. `None` for any other word.
pub(crate) fn spaces_of_word(alloc: Global, word: &[u8]) -> Result<Option<SpacesWord>, AllocError>
    ensures { IfOk result (Finds (IsWordOf word.now)) }
{
    match word_after_plus(word) {
        Some(text) => spaces_with(alloc, true, text),
        None => spaces_with(alloc, false, word),
    }
}

/// What follows the `+` at the start of a word. `None` if there is no `+`.
fn word_after_plus(word: &[u8]) -> Option<&[u8]>
    ensures { MatchOption result ((rest : List ℕ) → word.now ≢ 43 ∷ rest) (λ rest. word.now ≡ 43 ∷ rest.now) }
{
    word.strip_prefix(b"+")
}

/// The spaces that a text names, and whether they may be created.
fn spaces_with(
    alloc: Global,
    may_create: bool,
    text: &[u8],
) -> Result<Option<SpacesWord>, AllocError>
    ensures { IfOk result (Finds (IsTextOf may_create text.now)) }
{
    let found = spaces_of_text(alloc, text)?;
    let Some(patterns) = found else {
        return Ok(None);
    };
    Ok(Some(SpacesWord {
        may_create,
        patterns,
    }))
}

/// The spaces that a text names: names, and prefixes that end with `*`, with commas between. `None` for any other text.
fn spaces_of_text(alloc: Global, text: &[u8]) -> Result<Option<Vec<SpacePattern>>, AllocError>
    ensures { IfOk result (λ found. Finds (IsSpacesText text.now) (option_map (λ patterns. patterns.items) found)) }
{
    let pieces = pieces_of(alloc, text, b',')?;
    patterns_of(alloc, pieces.as_slice())
}

/// The patterns that the texts name, one for each. `None` if a text names none.
fn patterns_of(alloc: Global, texts: &[&[u8]]) -> Result<Option<Vec<SpacePattern>>, AllocError>
    ensures { IfOk result (λ found. Finds (NameInTurn IsPatternText (map (λ text. text.now) texts.now))
        (option_map (λ patterns. patterns.items) found)) }
{
    let mut patterns = Vec::new(alloc);
    for text in texts {
        let found = pattern_of_text(alloc, text)?;
        let Some(pattern) = found else {
            return Ok(None);
        };
        patterns.push(pattern)?;
    }
    Ok(Some(patterns))
}

/// The pattern that a text names: a space's name, or a prefix of names that ends with `*`.
fn pattern_of_text(alloc: Global, text: &[u8]) -> Result<Option<SpacePattern>, AllocError>
    ensures { IfOk result (Finds (IsPatternText text.now)) }
{
    match prefix_in(text) {
        Some(front) => prefix_pattern(alloc, front),
        None => name_pattern(alloc, text),
    }
}

/// What precedes the `*` at the end of a text. `None` if there is no `*`.
fn prefix_in(text: &[u8]) -> Option<&[u8]>
    ensures { MatchOption result ((front : List ℕ) → text.now ≢ front ++ 42 ∷ [])
        (λ front. text.now ≡ front.now ++ 42 ∷ []) }
{
    text.strip_suffix(b"*")
}

/// The pattern for the names that begin with this text. `None` if no name does.
fn prefix_pattern(alloc: Global, text: &[u8]) -> Result<Option<SpacePattern>, AllocError>
    ensures { IfOk result (Finds (IsPrefixPattern text.now)) }
{
    if !is_space_front(text) {
        return Ok(None);
    }
    let front = Vec::from_slice(alloc, text)?;
    Ok(Some(SpacePattern::Prefix(front)))
}

/// The pattern for this name. `None` if it is not a space's name.
fn name_pattern(alloc: Global, text: &[u8]) -> Result<Option<SpacePattern>, AllocError>
    ensures { IfOk result (Finds (IsNamePattern text.now)) }
{
    if !is_space_name(text) {
        return Ok(None);
    }
    let only = Vec::from_slice(alloc, text)?;
    Ok(Some(SpacePattern::Name(only)))
}
