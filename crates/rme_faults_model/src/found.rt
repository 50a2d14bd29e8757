//! What a check finds.

/// Nothing, or what is wrong.
pub type Found = Result<(), &'static str>;

/// Nothing, if this holds.
pub fn is_or(holds: bool, wrong: &'static str) -> Found {
    if holds { Ok(()) } else { Err(wrong) }
}
