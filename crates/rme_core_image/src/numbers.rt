//! Big-endian numbers at the front of some bytes.

ghost use Rattle.std.specs.Prelude.{◌≡◌, option_map};
ghost use Rattle.std.specs.Int.{w8, w16, w32, w64};
ghost use Rattle.rme_core_image.specs.Parsing.{parse_number};

/// The number of one byte at the front, and the bytes after it.
#[tactic(auto, unfolding(crate::specs::Parsing::parse_number))]
pub fn number8(bytes: &[u8]) -> Option<(u8, &[u8])>
    ensures { parse_number w8 bytes.now ≡ option_map (λ x. (x.0, x.1.now)) result }
{
    let Some((front, rest)) = bytes.split_first_chunk::<1>() else {
        return None;
    };
    Some((u8::from_be_bytes(*front), rest))
}

/// The number of two bytes at the front, and the bytes after it.
#[tactic(auto, unfolding(crate::specs::Parsing::parse_number))]
pub fn number16(bytes: &[u8]) -> Option<(u16, &[u8])>
    ensures { parse_number w16 bytes.now ≡ option_map (λ x. (x.0, x.1.now)) result }
{
    let Some((front, rest)) = bytes.split_first_chunk::<2>() else {
        return None;
    };
    Some((u16::from_be_bytes(*front), rest))
}

/// The number of four bytes at the front, and the bytes after it.
#[tactic(auto, unfolding(crate::specs::Parsing::parse_number))]
pub fn number32(bytes: &[u8]) -> Option<(u32, &[u8])>
    ensures { parse_number w32 bytes.now ≡ option_map (λ x. (x.0, x.1.now)) result }
{
    let Some((front, rest)) = bytes.split_first_chunk::<4>() else {
        return None;
    };
    Some((u32::from_be_bytes(*front), rest))
}

/// The number of eight bytes at the front, and the bytes after it.
#[tactic(auto, unfolding(crate::specs::Parsing::parse_number))]
pub fn number64(bytes: &[u8]) -> Option<(u64, &[u8])>
    ensures { parse_number w64 bytes.now ≡ option_map (λ x. (x.0, x.1.now)) result }
{
    let Some((front, rest)) = bytes.split_first_chunk::<8>() else {
        return None;
    };
    Some((u64::from_be_bytes(*front), rest))
}
