//! The name of a space.

ghost use Rattle.std.specs.Prelude.{◌≡◌};
ghost use Rattle.std.specs.List.{list_all};
ghost use Rattle.rme_keys.specs.Spaces.{is_space_byte, is_space_name};

use std::alloc::{AllocError, Global};
use std::marker::Model;

/// The greatest length of a name in bytes.
const MOST_NAME_BYTES: usize = 64;

/// The name of a space: 1 to 64 bytes of `a` to `z`, `0` to `9`, `_` and `-`.
#[derive(Drop)]
pub struct SpaceName {
    text: String,
}

impl Model for SpaceName {
    ghost use Rattle.std.specs.Prelude.{ℕ, List, string_bytes};
    ghost use Rattle.rme_space_orders.specs.SpaceNames.{IsSpaceName};

    ghost Value = { List ℕ };

    ghost view = { λ name. string_bytes name.text };

    ghost invariant = { λ name. IsSpaceName (string_bytes name.text) };
}

impl SpaceName {
    ghost use Rattle.std.specs.Prelude.{◌≡◌, IfOk};
    ghost use Rattle.rme_space_orders.specs.SpaceNames.{IsSpaceName, space_name};

    /// The name with this text, or `None` if the text is not a name. `AllocError` if memory was refused.
    pub fn parse(alloc: Global, text: &str) -> Result<Option<SpaceName>, AllocError>
        ensures { IfOk result (λ name. name ≡ space_name text.now) }
    {
        if !is_space_name(text) {
            return Ok(None);
        }
        let text = String::from_str(alloc, text)?;
        Ok(Some(SpaceName { text }))
    }

    /// The text.
    pub fn as_str(&self) -> &str
        ensures text { result.now ≡ self.now }
        ensures name { IsSpaceName self.now }
    {
        self.text.as_str()
    }

    /// The same name again. `AllocError` if memory was refused.
    pub fn copied(&self, alloc: Global) -> Result<SpaceName, AllocError>
        ensures { IfOk result (λ copy. copy ≡ self.now) }
    {
        let text = String::from_str(alloc, self.text.as_str())?;
        Ok(SpaceName { text })
    }
}

/// Whether a text is the name of a space.
fn is_space_name(text: &str) -> bool
    ensures { result ≡ is_space_name text.now }
{
    if text.is_empty() || text.len() > MOST_NAME_BYTES {
        return false;
    }
    are_space_bytes(text.as_bytes())
}

/// Whether each byte may stand in a name.
fn are_space_bytes(bytes: &[u8]) -> bool
    ensures { result ≡ list_all is_space_byte bytes.now }
{
    bytes.iter().all(|byte| is_space_byte(*byte))
}

fn is_space_byte(byte: u8) -> bool
    ensures { result ≡ is_space_byte byte }
{
    matches!(byte, b'a'..=b'z' | b'0'..=b'9' | b'_' | b'-')
}
