//! The most frequent kind of number.

ghost use Rattle.std.specs.Prelude.{◌≡◌, ◌==◌, Some, IfSome, slice_index};
ghost use Rattle.serde_json.specs.Read.{number_of};
ghost use Rattle.serde_json.specs.View.{number_view};

use fast_float::Numeral;
use serde_json::Number;

/// A whole number from 0 to 2^64 - 1, if the token has no sign, point and exponent.
pub fn whole_number(text: &str) -> Option<Number>
    ensures { IfSome result (λ number. number_of text.now ≡ Some (number_view number)) }
{
    let bytes = text.as_bytes();
    if has_minus(bytes) {
        return None;
    }
    let number = Numeral::scan(bytes).to_u64()?;
    Some(Number::from(number))
}

/// Whether a number has a sign.
fn has_minus(bytes: &[u8]) -> bool
    ensures { result ≡ (slice_index bytes.now 0 == 45) }
{
    if bytes.is_empty() {
        return false;
    }
    bytes[0] == b'-'
}
