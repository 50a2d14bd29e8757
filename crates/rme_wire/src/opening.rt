//! The line that opens a world.

ghost use Rattle.std.specs.Prelude.{◌≡◌, ◌≤◌, ◌++◌, IfOk, map, length, option_and_then, string_bytes, bytes_eq, [], true};
ghost use Rattle.std.specs.List.{list_any};
ghost use Rattle.rme_line_json.specs.View.{items_view, value_view};
ghost use Rattle.rme_wire.specs.Openings as spec;

use crate::value::whole_u32;
use rme_line_io::{Names, is_name};
use rme_line_json::Value;
use rme_words::{MOST_LOCKS, NoMemory};
use std::alloc::{AllocError, Global};
use std::marker::Model;

/// The names of locks as a line gives them: any texts, in order.
#[derive(Drop)]
pub struct GivenNames {
    texts: Vec<String>,
}

impl Model for GivenNames {
    ghost use Rattle.std.specs.Prelude.{ℕ, List, map, string_bytes};

    ghost Value = { List (List ℕ) };

    ghost view = { λ given. map string_bytes given.texts.items };
}

/// The request of `open`.
#[derive(Drop)]
pub struct Opening {
    pub workers: u32,
    pub locks: GivenNames,
    pub cells: u32,
    pub jobs: u32,
}

/// The numbers of an opening.
#[derive(Clone, Copy)]
struct OpeningSizes {
    workers: u32,
    cells: u32,
    jobs: u32,
}

#[tactic(auto, unfolding(crate::specs::Openings::opening_sizes_of))]
fn opening_sizes_of(value: &Value<'_>) -> Option<OpeningSizes>
    ensures { result ≡ spec.opening_sizes_of (value_view value.now) }
{
    let workers = whole_u32(value.get("workers")?)?;
    let cells = whole_u32(value.get("cells")?)?;
    let jobs = whole_u32(value.get("jobs")?)?;
    Some(OpeningSizes {
        workers,
        cells,
        jobs,
    })
}

/// The texts of a list, or `None` if an item is no text.
fn texts_of_items(alloc: Global, items: &[Value<'_>]) -> Result<Option<GivenNames>, AllocError>
    ensures { IfOk result (λ given. given ≡ spec.texts_of_items (items_view items.now)) }
{
    let mut texts = Vec::new(alloc);
    for item in items {
        let Some(text) = item.as_str() else {
            return Ok(None);
        };
        texts.push(String::from_str(alloc, text)?)?;
    }
    Ok(Some(GivenNames { texts }))
}

/// The member `locks`, a list of texts.
#[tactic(auto, unfolding(crate::specs::Openings::locks_member))]
pub fn locks_member(alloc: Global, value: &Value<'_>) -> Result<Option<GivenNames>, AllocError>
    ensures { IfOk result (λ given. given ≡ spec.locks_member (value_view value.now)) }
{
    let Some(list) = value.get("locks") else {
        return Ok(None);
    };
    let Some(items) = list.as_array() else {
        return Ok(None);
    };
    texts_of_items(alloc, items)
}

/// The opening of a value with this number of members.
#[tactic(auto, unfolding(crate::specs::Openings::opening_of))]
pub fn opening_of(
    alloc: Global,
    count: usize,
    value: &Value<'_>,
) -> Result<Option<Opening>, AllocError>
    ensures { IfOk result (λ opening. opening ≡ spec.opening_of count (value_view value.now)) }
{
    if count != 5 {
        return Ok(None);
    }
    let Some(sizes) = opening_sizes_of(value) else {
        return Ok(None);
    };
    let Some(locks) = locks_member(alloc, value)? else {
        return Ok(None);
    };
    Ok(Some(Opening {
        workers: sizes.workers,
        locks,
        cells: sizes.cells,
        jobs: sizes.jobs,
    }))
}

/// Whether a text is one of these.
fn is_among(text: &str, texts: &[String]) -> bool
    ensures { result ≡ list_any (λ other. bytes_eq text.now (string_bytes other)) texts.now }
{
    texts.iter().any(|other| text == other.as_str())
}

/// Whether each text is a name, and no two are equal.
fn are_new_names(texts: &[String]) -> bool
    ensures { result ≡ spec.are_new_names [] (map string_bytes texts.now) }
{
    for (index, text) in texts.iter().enumerate() {
        if !is_name(text.as_str()) {
            return false;
        }
        if is_among(text.as_str(), &texts[..index]) {
            return false;
        }
    }
    true
}

/// Whether these texts may name the locks of a world: 1 to 16 names, each once.
fn are_lock_names(texts: &[String]) -> bool
    ensures { result ≡ spec.are_lock_names (map string_bytes texts.now) }
{
    if texts.is_empty() {
        return false;
    }
    if texts.len() > MOST_LOCKS as usize {
        return false;
    }
    are_new_names(texts)
}

/// Texts that are names, numbered in order.
fn names_of(alloc: Global, texts: &[String]) -> Result<Names, NoMemory>
    requires { spec.are_lock_names (map string_bytes texts.now) ≡ true }
    ensures { IfOk result (λ names. names ≡ map string_bytes texts.now) }
{
    let mut names = Names::new(alloc)?;
    for text in texts {
        match names.add(text.as_str()) {
            Ok(_) => {}
            Err(_) => return Err(NoMemory),
        }
    }
    Ok(names)
}

impl GivenNames {
    /// These texts, in order.
    pub fn of(texts: Vec<String>) -> GivenNames
        ensures { result ≡ map string_bytes texts.items }
    {
        GivenNames { texts }
    }

    /// Whether these may name the locks of a world: 1 to 16 names, each once.
    pub fn are_names(&self) -> bool
        ensures result { result ≡ spec.are_lock_names self.now }
        ensures few { result ≡ true → length self.now ≤ 16 }
    {
        are_lock_names(&self.texts)
    }

    /// The number of texts.
    pub fn len(&self) -> usize
        ensures { result ≡ length self.now }
    {
        self.texts.as_slice().len()
    }

    /// These names, numbered in order.
    pub fn names(&self, alloc: Global) -> Result<Names, NoMemory>
        requires { spec.are_lock_names self.now ≡ true }
        ensures { IfOk result (λ names. names ≡ self.now) }
    {
        names_of(alloc, &self.texts)
    }
}
