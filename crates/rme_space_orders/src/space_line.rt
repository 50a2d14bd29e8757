//! The orders on spaces, and the lines that are orders.

ghost use Rattle.std.specs.Prelude.{◌≡◌, ◌≤◌, IfOk, map, option_map, string_bytes};
ghost use Rattle.rme_line_json.specs.View.{items_view, value_view};
ghost use Rattle.rme_wire.specs.Openings.{locks_member, texts_of_items};
ghost use Rattle.rme_space_orders.specs.SpaceOrders as spec;

use crate::new_space::{NewSpace, USUAL_CELLS, USUAL_WORKERS};
use crate::space_name::SpaceName;
use rme_wire::{Value, ValueReader, ValueStorage, do_member, whole_u32};
use rme_words::{NoMemory, Refusal};
use std::alloc::{AllocError, Global};

/// An order on spaces.
#[derive(Drop)]
pub enum SpaceOrder {
    /// Create a space.
    Create(NewSpace),
    /// Let the session use the space of this name.
    Use(SpaceName),
    /// List the spaces: all, or those after this name.
    Spaces(Option<SpaceName>),
    /// Drop the space of this name.
    Drop(SpaceName),
}

/// What a line is for a server of spaces.
#[derive(Drop)]
pub enum SpaceLine {
    /// An order on spaces.
    Order(SpaceOrder),
    /// It has the word of an order on spaces, but is refused: `BadLine` if it does not have exactly the keys of that
    /// order, or a value has the wrong type; `BadShape` if its name is no name of a space, or a new space cannot have
    /// its locks and sizes.
    Refused(Refusal),
    /// It has no word of an order on spaces.
    Other,
}

/// The sizes of a new space.
#[derive(Clone, Copy)]
struct SpaceSizes {
    workers: u32,
    cells: u32,
}

/// What a line is for a server of spaces. `NoMemory` if memory was refused.
#[tactic(auto, unfolding(crate::specs::SpaceOrders::line_of_bytes))]
pub fn parse_space_order(alloc: Global, line: &[u8]) -> Result<SpaceLine, NoMemory>
    ensures { IfOk result (λ found. found ≡ spec.line_of_bytes line.now) }
{
    let mut values = ValueReader::new(alloc);
    let mut room = ValueStorage::new();
    match values.read(&mut room, line)? {
        None => Ok(SpaceLine::Other),
        Some(value) => Ok(line_of_value(alloc, &value)?),
    }
}

#[tactic(auto, unfolding(crate::specs::SpaceOrders::line_of_value))]
fn line_of_value(alloc: Global, value: &Value<'_>) -> Result<SpaceLine, AllocError>
    ensures { IfOk result (λ found. found ≡ spec.line_of_value (value_view value.now)) }
{
    let Some(count) = value.key_count() else {
        return Ok(SpaceLine::Other);
    };
    match do_member(value) {
        None => Ok(SpaceLine::Other),
        Some(word) => line_named(alloc, word, count, value),
    }
}

/// The line of a value whose member `do` is this word and that has this number of members.
#[tactic(auto, unfolding(crate::specs::SpaceOrders::line_named))]
fn line_named(
    alloc: Global,
    word: &str,
    count: usize,
    value: &Value<'_>,
) -> Result<SpaceLine, AllocError>
    ensures { IfOk result (λ found. found ≡ spec.line_named word.now count (value_view value.now)) }
{
    match word {
        "create" => create_line(alloc, count, value),
        "use" => use_line(alloc, only_space(count, value)),
        "spaces" => spaces_line(alloc, count, value),
        "drop" => drop_line(alloc, only_space(count, value)),
        _ => Ok(SpaceLine::Other),
    }
}

/// The member `space`, a text.
#[tactic(auto, unfolding(crate::specs::SpaceOrders::space_member))]
fn space_member<'a>(value: &Value<'a>) -> Option<&'a str>
    ensures { option_map (λ text. text.now) result ≡ spec.space_member (value_view value.now) }
{
    value.get("space")?.as_str()
}

/// The member `space` of a value that has only this and `do`.
#[tactic(auto, unfolding(crate::specs::SpaceOrders::only_space))]
fn only_space<'a>(count: usize, value: &Value<'a>) -> Option<&'a str>
    ensures { option_map (λ text. text.now) result ≡ spec.only_space count (value_view value.now) }
{
    if count != 2 {
        return None;
    }
    space_member(value)
}

/// The name of a space that a text is; the refusal if there is no text, or it is no name.
fn named_space(alloc: Global, text: Option<&str>) -> Result<Result<SpaceName, Refusal>, AllocError>
    ensures { IfOk result (λ name. name ≡ spec.named_space (option_map (λ given. given.now) text.entry)) }
{
    let Some(text) = text else {
        return Ok(Err(Refusal::BadLine));
    };
    match SpaceName::parse(alloc, text)? {
        Some(name) => Ok(Ok(name)),
        None => Ok(Err(Refusal::BadShape)),
    }
}

fn use_line(alloc: Global, text: Option<&str>) -> Result<SpaceLine, AllocError>
    ensures { IfOk result (λ found. found ≡ spec.use_line
        (spec.named_space (option_map (λ given. given.now) text.entry))) }
{
    match named_space(alloc, text)? {
        Ok(name) => Ok(SpaceLine::Order(SpaceOrder::Use(name))),
        Err(refusal) => Ok(SpaceLine::Refused(refusal)),
    }
}

fn drop_line(alloc: Global, text: Option<&str>) -> Result<SpaceLine, AllocError>
    ensures { IfOk result (λ found. found ≡ spec.drop_line
        (spec.named_space (option_map (λ given. given.now) text.entry))) }
{
    match named_space(alloc, text)? {
        Ok(name) => Ok(SpaceLine::Order(SpaceOrder::Drop(name))),
        Err(refusal) => Ok(SpaceLine::Refused(refusal)),
    }
}

/// The line of a list of spaces, with or without its optional member.
#[tactic(auto, unfolding(crate::specs::SpaceOrders::spaces_line))]
fn spaces_line(alloc: Global, count: usize, value: &Value<'_>) -> Result<SpaceLine, AllocError>
    ensures { IfOk result (λ found. found ≡ spec.spaces_line count (value_view value.now)) }
{
    match value.get("after") {
        None => Ok(all_spaces_line(count)),
        Some(after) => later_spaces_line(alloc, count, after),
    }
}

fn all_spaces_line(count: usize) -> SpaceLine
    ensures { result ≡ spec.spaces_line_by count None }
{
    if count == 1 {
        SpaceLine::Order(SpaceOrder::Spaces(None))
    } else {
        SpaceLine::Refused(Refusal::BadLine)
    }
}

fn later_spaces_line(
    alloc: Global,
    count: usize,
    after: &Value<'_>,
) -> Result<SpaceLine, AllocError>
    ensures { IfOk result (λ found. found ≡ spec.spaces_line_by count (Some (value_view after.now))) }
{
    if count != 2 {
        return Ok(SpaceLine::Refused(Refusal::BadLine));
    }
    match named_space(alloc, after.as_str())? {
        Ok(name) => Ok(SpaceLine::Order(SpaceOrder::Spaces(Some(name)))),
        Err(refusal) => Ok(SpaceLine::Refused(refusal)),
    }
}

/// The line of a new space.
#[tactic(auto, unfolding(crate::specs::SpaceOrders::request_of))]
fn create_line(alloc: Global, count: usize, value: &Value<'_>) -> Result<SpaceLine, AllocError>
    ensures { IfOk result (λ found. found ≡ spec.create_line (spec.request_of count (value_view value.now))) }
{
    let Some(text) = space_member(value) else {
        return Ok(SpaceLine::Refused(Refusal::BadLine));
    };
    let Some(sizes) = sizes_of(count, value) else {
        return Ok(SpaceLine::Refused(Refusal::BadLine));
    };
    match locks_of(alloc, value)? {
        None => Ok(SpaceLine::Refused(Refusal::BadLine)),
        Some(locks) => new_space_line(alloc, text, locks, sizes),
    }
}

/// The line that asks for a space with this name, these locks and these sizes.
fn new_space_line(
    alloc: Global,
    text: &str,
    locks: Vec<String>,
    sizes: SpaceSizes,
) -> Result<SpaceLine, AllocError>
    ensures { IfOk result (λ found. found ≡ spec.new_space_line (record {
      name = text.now;
      locks = map string_bytes locks.items;
      workers = sizes.workers;
      cells = sizes.cells;
    })) }
{
    let Some(name) = SpaceName::parse(alloc, text)? else {
        return Ok(SpaceLine::Refused(Refusal::BadShape));
    };
    match NewSpace::of(alloc, name, locks, sizes.workers, sizes.cells)? {
        Some(space) => Ok(SpaceLine::Order(SpaceOrder::Create(space))),
        None => Ok(SpaceLine::Refused(Refusal::BadShape)),
    }
}

/// The sizes of a new space, if the value has no further member than these, `do`, `locks` and `space`.
#[tactic(auto, unfolding(crate::specs::SpaceOrders::sizes_of))]
fn sizes_of(count: usize, value: &Value<'_>) -> Option<SpaceSizes>
    ensures { result ≡ spec.sizes_of count (value_view value.now) }
{
    let workers = size_or(USUAL_WORKERS, value.get("workers"))?;
    let cells = size_or(USUAL_CELLS, value.get("cells"))?;
    if count != 3 + size_keys(value) {
        return None;
    }
    Some(SpaceSizes { workers, cells })
}

/// A size, or the usual one if its member is absent.
fn size_or(usual: u32, member: Option<&Value<'_>>) -> Option<u32>
    ensures { result ≡ spec.size_or usual (option_map (λ given. value_view given.now) member.entry) }
{
    match member {
        None => Some(usual),
        Some(given) => whole_u32(given),
    }
}

/// The number of a value's members that are sizes.
#[tactic(auto, unfolding(crate::specs::SpaceOrders::size_keys))]
fn size_keys(value: &Value<'_>) -> usize
    ensures keys { result ≡ spec.size_keys (value_view value.now) }
    ensures few { result ≤ 2 }
{
    usize::from(value.get("workers").is_some()) + usize::from(value.get("cells").is_some())
}

/// The member `locks`, a list of texts.
#[tactic(auto, unfolding(rme_wire::specs::Openings::locks_member))]
fn locks_of(alloc: Global, value: &Value<'_>) -> Result<Option<Vec<String>>, AllocError>
    ensures { IfOk result (λ locks. option_map (λ texts. map string_bytes texts.items) locks
        ≡ locks_member (value_view value.now)) }
{
    let Some(list) = value.get("locks") else {
        return Ok(None);
    };
    match list.as_array() {
        None => Ok(None),
        Some(items) => texts_of_items(alloc, items),
    }
}

/// The texts of a list, or `None` if an item is no text.
fn texts_of_items(alloc: Global, items: &[Value<'_>]) -> Result<Option<Vec<String>>, AllocError>
    ensures { IfOk result (λ found. option_map (λ texts. map string_bytes texts.items) found
        ≡ texts_of_items (items_view items.now)) }
{
    let mut texts = Vec::new(alloc);
    for item in items {
        let Some(text) = item.as_str() else {
            return Ok(None);
        };
        texts.push(String::from_str(alloc, text)?)?;
    }
    Ok(Some(texts))
}
