//! The numbers and words in the JSON value of a line.

ghost use Rattle.std.specs.Prelude.{◌≡◌, option_map, option_and_then};
ghost use Rattle.rme_line_json.specs.View.{value_view};
ghost use Rattle.rme_wire.specs.Values as spec;

use rme_line_json::Value;

/// The member `do`, a text; `None` if there is none.
#[tactic(auto, unfolding(crate::specs::Values::do_member))]
pub fn do_member<'a>(value: &Value<'a>) -> Option<&'a str>
    ensures { option_map (λ word. word.now) result ≡ spec.do_member (value_view value.now) }
{
    value.get("do")?.as_str()
}

/// A whole number that is at most this; `None` if the value is none.
#[tactic(auto, unfolding(crate::specs::Values::whole_up_to))]
pub fn whole_up_to(most: u64, value: &Value<'_>) -> Option<u64>
    ensures { result ≡ spec.whole_up_to most (value_view value.now) }
{
    let number = value.as_u64()?;
    if number > most { None } else { Some(number) }
}

/// A whole number below 2^32; `None` if the value is none.
#[tactic(auto, unfolding(crate::specs::Values::whole_u32))]
pub fn whole_u32(value: &Value<'_>) -> Option<u32>
    ensures { result ≡ spec.whole_u32 (value_view value.now) }
{
    let number = value.as_u64()?;
    if number > u64::from(u32::MAX) {
        return None;
    }
    Some(number as u32)
}
