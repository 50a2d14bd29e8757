//! The line that loads a saved world.

ghost use Rattle.std.specs.Prelude.{◌≡◌, IfOk, option_map, option_and_then};
ghost use Rattle.std.specs.List.{list_all};
ghost use Rattle.rme_line_json.specs.View.{value_view};
ghost use Rattle.rme_wire.specs.Loadings as spec;

use crate::opening::{GivenNames, locks_member};
use hex::FromHexError;
use rme_line_io::Image;
use rme_line_json::Value;
use std::alloc::{AllocError, Global};

/// The request of `load`.
#[derive(Drop)]
pub struct Loading {
    /// `None` if the line's text is not lower-case hexadecimal of even length.
    pub image: Option<Image>,
    pub locks: GivenNames,
}

fn is_hex_digit(byte: u8) -> bool
    ensures { result ≡ spec.is_hex_digit byte }
{
    matches!(byte, b'0'..=b'9' | b'a'..=b'f')
}

/// Whether each byte is a lower-case hexadecimal digit.
fn are_hex_digits(bytes: &[u8]) -> bool
    ensures { result ≡ list_all spec.is_hex_digit bytes.now }
{
    bytes.iter().all(|byte| is_hex_digit(*byte))
}

/// The image of a text in lower-case hexadecimal, if it is one.
#[tactic(auto, unfolding(crate::specs::Loadings::image_bytes))]
fn image_of(alloc: Global, text: &str) -> Result<Option<Image>, AllocError>
    ensures { IfOk result (λ image. image ≡ spec.image_bytes text.now) }
{
    if !are_hex_digits(text.as_bytes()) {
        return Ok(None);
    }
    match hex::decode(alloc, text) {
        Ok(bytes) => Ok(Some(Image::new(bytes))),
        Err(FromHexError::OutOfMemory) => Err(AllocError),
        Err(_) => Ok(None),
    }
}

/// The member `image`, a text.
#[tactic(auto, unfolding(crate::specs::Loadings::image_member))]
fn image_member<'a>(value: &Value<'a>) -> Option<&'a str>
    ensures { option_map (λ digits. digits.now) result ≡ spec.image_member (value_view value.now) }
{
    value.get("image")?.as_str()
}

/// The loading of a value with this number of members.
#[tactic(auto, unfolding(crate::specs::Loadings::loading_of))]
pub fn loading_of(
    alloc: Global,
    count: usize,
    value: &Value<'_>,
) -> Result<Option<Loading>, AllocError>
    ensures { IfOk result (λ loading. loading ≡ spec.loading_of count (value_view value.now)) }
{
    if count != 3 {
        return Ok(None);
    }
    let Some(digits) = image_member(value) else {
        return Ok(None);
    };
    let Some(locks) = locks_member(alloc, value)? else {
        return Ok(None);
    };
    let image = image_of(alloc, digits)?;
    Ok(Some(Loading { image, locks }))
}
