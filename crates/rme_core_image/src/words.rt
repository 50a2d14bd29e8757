//! The words of an image.

ghost use Rattle.std.specs.Prelude.{◌≡◌, ◌<◌, ◌≤◌, ◌+◌, ◌*◌, [], length, IfOk, option_map};
ghost use Rattle.rme_words.specs.Words.{word_count};
ghost use Rattle.rme_core_image.specs.Images.{version_omits_word};
ghost use Rattle.rme_core_image.specs.Parsing.{is_end_of_block, implied_mask, parse_word, parse_many};

use crate::header::OLD_VERSION;
use crate::numbers::number64;
use rme_words::{NoMemory, Shape};
use std::alloc::Global;

/// Whether the word with this number is the last of a lock's block, which is the lock's mask.
#[tactic(auto, unfolding(crate::specs::Parsing::is_end_of_block))]
fn is_end_of_block(shape: Shape, number: usize) -> bool
    ensures { result ≡ is_end_of_block shape number }
{
    let start = 31 * shape.workers as usize;
    let block = shape.leaves as usize + 2 + 2 * shape.cells as usize;
    number >= start && (number - start) % block == block - 1
}

/// Whether an image of this version leaves out the word with this number.
fn version_omits_word(version: u8, shape: Shape, number: usize) -> bool
    requires { number < word_count shape }
    ensures { result ≡ version_omits_word version shape number }
{
    version == OLD_VERSION && is_end_of_block(shape, number)
}

/// The mask after these words, as their turn implies it: all cells if it is odd, otherwise none.
#[tactic(auto, unfolding(crate::specs::Parsing::implied_mask))]
fn implied_mask(shape: Shape, earlier: &[u64]) -> u64
    requires { 2 + 2 * shape.cells ≤ length earlier.now }
    ensures { result ≡ implied_mask shape earlier.now }
{
    let turn = earlier[earlier.len() - (2 + 2 * shape.cells as usize)];
    if turn % 2 == 1 {
        return (1 << shape.cells) - 1;
    }
    0
}

/// The next word after these, and the bytes after it.
#[tactic(auto, unfolding(crate::specs::Parsing::parse_word))]
fn read_word<'a>(
    version: u8,
    shape: Shape,
    earlier: &[u64],
    bytes: &'a [u8],
) -> Option<(u64, &'a [u8])>
    requires { length earlier.now < word_count shape }
    ensures { parse_word version shape earlier.now bytes.now ≡ option_map (λ x. (x.0, x.1.now)) result }
{
    if version_omits_word(version, shape, earlier.len()) {
        return Some((implied_mask(shape, earlier), bytes));
    }
    number64(bytes)
}

/// All words of the shape, and the bytes after them. The masks of the older version are the implied ones. Memory is
/// taken as the words are parsed, so that a short image takes little.
pub fn read_words(
    alloc: Global,
    version: u8,
    shape: Shape,
    bytes: &[u8],
) -> Result<Option<(Vec<u64>, &[u8])>, NoMemory>
    ensures { IfOk result (λ read. parse_many (parse_word version shape) (word_count shape) [] bytes.now ≡ option_map
        (λ x. (x.0.items, x.1.now)) read) }
{
    let mut words = Vec::new(alloc);
    let mut rest = bytes;
    for _ in 0..shape.words() {
        let Some((next, after)) = read_word(version, shape, words.as_slice(), rest) else {
            return Ok(None);
        };
        match words.push(next) {
            Ok(()) => rest = after,
            Err(_) => return Err(NoMemory),
        }
    }
    Ok(Some((words, rest)))
}
