//! The pieces of a picture's text.

use itoa::Buffer;

/// A piece of text. It borrows its characters, so that putting it on a page allocates nothing.
#[derive(Clone, Copy)]
pub enum Piece<'a> {
    Text(&'a str),
    Number(u64),
}

/// The number of characters of some pieces.
pub fn length_of(pieces: &[Piece]) -> u64 {
    let mut length = 0u64;
    for piece in pieces {
        length = length.saturating_add(match *piece {
            Piece::Text(text) => text.len() as u64,
            Piece::Number(number) => digits_of(number),
        });
    }
    length
}

/// The number of a number's digits.
pub fn digits_of(number: u64) -> u64 {
    Buffer::new().format(number).len() as u64
}
