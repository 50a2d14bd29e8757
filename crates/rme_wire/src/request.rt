//! The request of a line.

ghost use Rattle.std.specs.Prelude.{◌≡◌, IfOk, option_map};
ghost use Rattle.rme_line_json.specs.View.{value_view};
ghost use Rattle.rme_wire.specs.Requests as spec;

use crate::command::{Command, command_named};
use crate::loading::{Loading, loading_of};
use crate::opening::{Opening, opening_of};
use crate::value::do_member;
use rme_line_io::Names;
use rme_line_json::{Value, ValueReader, ValueStorage};
use rme_words::NoMemory;
use std::alloc::{AllocError, Global};

/// The request of a command line.
#[derive(Drop)]
pub enum Request {
    /// Open a world.
    Open(Opening),
    /// Load a saved world, in place of an open one.
    Load(Loading),
    /// A command to the open world.
    World(Command),
}

/// The request of a command line, or `None` if the line is no command.
///
/// The names are those of the open world, and none if no world is open. `NoMemory` if memory for the line's value, or
/// for a copy of its names and its image, was refused.
pub fn request_of(
    alloc: Global,
    values: &mut ValueReader,
    names: &Names,
    line: &[u8],
) -> Result<Option<Request>, NoMemory>
    ensures { IfOk result (λ request. request ≡ spec.request_of_line names.now line.now) }
{
    let mut room = ValueStorage::new();
    match values.read(&mut room, line)? {
        None => Ok(None),
        Some(value) => match request_of_value(alloc, names, &value) {
            Ok(request) => Ok(request),
            Err(_) => Err(NoMemory),
        },
    }
}

#[tactic(auto, unfolding(crate::specs::Requests::request_of_value))]
fn request_of_value(
    alloc: Global,
    names: &Names,
    value: &Value<'_>,
) -> Result<Option<Request>, AllocError>
    ensures { IfOk result (λ request. request ≡ spec.request_of_value names.now (value_view value.now)) }
{
    let Some(count) = value.key_count() else {
        return Ok(None);
    };
    let Some(word) = do_member(value) else {
        return Ok(None);
    };
    if word == "open" {
        return open_request(alloc, count, value);
    }
    if word == "load" {
        return load_request(alloc, count, value);
    }
    Ok(world_request(names, word, count, value))
}

fn open_request(
    alloc: Global,
    count: usize,
    value: &Value<'_>,
) -> Result<Option<Request>, AllocError>
    ensures { IfOk result (λ request. request ≡ spec.open_request count (value_view value.now)) }
{
    let Some(opening) = opening_of(alloc, count, value)? else {
        return Ok(None);
    };
    Ok(Some(Request::Open(opening)))
}

fn load_request(
    alloc: Global,
    count: usize,
    value: &Value<'_>,
) -> Result<Option<Request>, AllocError>
    ensures { IfOk result (λ request. request ≡ spec.load_request count (value_view value.now)) }
{
    let Some(loading) = loading_of(alloc, count, value)? else {
        return Ok(None);
    };
    Ok(Some(Request::Load(loading)))
}

fn world_request(names: &Names, word: &str, count: usize, value: &Value<'_>) -> Option<Request>
    ensures { result ≡ spec.world_request names.now word.now count (value_view value.now) }
{
    let command = command_named(names, word, count, value)?;
    Some(Request::World(command))
}
