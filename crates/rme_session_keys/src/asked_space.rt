//! The space that a line asks for.

ghost use Rattle.std.specs.Prelude.{◌≡◌, IfOk};
ghost use Rattle.rme_line_io.specs.Cuts.{input_line_of};
ghost use Rattle.rme_line_json.specs.View.{value_view};
ghost use Rattle.rme_session_keys.specs.AskedSpaces as spec;

use rme_keys::Key;
use rme_space_orders::{NewSpace, SpaceLine, SpaceName, SpaceOrder, parse_space_order};
use rme_wire::{Cut, Value, ValueReader, ValueStorage, do_member};
use rme_words::NoMemory;
use std::alloc::Global;

/// The space that a line asks for.
#[derive(Drop)]
pub(crate) enum AskedSpace {
    /// It asks for none.
    NoSpace,
    /// It uses the one of this name.
    Used(SpaceName),
    /// It creates or drops the one of this name.
    Made(SpaceName),
    /// It creates or drops one, and is refused for its form.
    Unnamed,
}

impl AskedSpace {
    ghost use Rattle.std.specs.Prelude.{◌↔◌, IsTrue};
    ghost use Rattle.rme_session_keys.specs.AskedSpaces.{AllowsAskedSpace};

    /// Whether a key allows it.
    pub(crate) fn is_allowed(&self, key: &Key) -> bool
        ensures { IsTrue result ↔ AllowsAskedSpace key.now self.now }
    {
        match self {
            AskedSpace::NoSpace => true,
            AskedSpace::Used(name) => key.allows_space(name.as_str()),
            AskedSpace::Made(name) => key.may_create() && key.allows_space(name.as_str()),
            AskedSpace::Unnamed => key.may_create(),
        }
    }
}

/// The space that a line asks for, by how the line was cut. `NoMemory` if memory was refused.
pub(crate) fn asked_space(alloc: Global, cut: Cut, line: &[u8]) -> Result<AskedSpace, NoMemory>
    ensures { IfOk result (λ asked. asked ≡ spec.asked_space (input_line_of cut line.now)) }
{
    if cut == Cut::TooLong {
        return Ok(AskedSpace::NoSpace);
    }
    match parse_space_order(alloc, line)? {
        SpaceLine::Order(order) => Ok(space_of_order(order)),
        SpaceLine::Refused(_) => refused_space(alloc, line),
        SpaceLine::Other => Ok(AskedSpace::NoSpace),
    }
}

/// The space that a line asks for that is refused for its form.
fn refused_space(alloc: Global, line: &[u8]) -> Result<AskedSpace, NoMemory>
    ensures { IfOk result (λ asked. asked ≡ spec.refused_space line.now) }
{
    let mut values = ValueReader::new(alloc);
    let mut room = ValueStorage::new();
    match values.read(&mut room, line)? {
        Some(value) => Ok(space_of_value(&value)),
        None => Ok(AskedSpace::NoSpace),
    }
}

/// The space that a line with this value asks for, if it is refused for its form.
fn space_of_value(value: &Value<'_>) -> AskedSpace
    ensures { result ≡ spec.space_of_value (value_view value.now) }
{
    let Some(word) = do_member(value) else {
        return AskedSpace::NoSpace;
    };
    if word == "create" || word == "drop" {
        return AskedSpace::Unnamed;
    }
    AskedSpace::NoSpace
}

/// The space that an order asks for.
fn space_of_order(order: SpaceOrder) -> AskedSpace
    ensures { result ≡ spec.space_of_order order }
{
    match order {
        SpaceOrder::Create(space) => {
            let NewSpace {
                name,
                locks: _,
                workers: _,
                cells: _,
            } = space;
            AskedSpace::Made(name)
        }
        SpaceOrder::Use(name) => AskedSpace::Used(name),
        SpaceOrder::Spaces(_) => AskedSpace::NoSpace,
        SpaceOrder::Drop(name) => AskedSpace::Made(name),
    }
}
