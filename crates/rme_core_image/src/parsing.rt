//! Parsing an image.

ghost use Rattle.std.specs.Prelude.{◌≡◌, ◌⊎◌, ℕ, List, IfOk, IfErr};
ghost use Rattle.rme_words.specs.declared.shape.Shape.{Shape};
ghost use Rattle.rme_program.specs.declared.note.Entry.{Entry};
ghost use Rattle.rme_core_image.specs.Images.{IsImageVersion, BytesEncodeImage};

use crate::entries::read_entries;
use crate::header::{read_header, shape_of};
use crate::words::read_words;
use rme_history::EntryList;
use rme_words::{Refusal, Shape};
use std::alloc::Global;

/// The contents of an image.
#[derive(Drop)]
pub struct Parsed {
    /// The version of the image, 1 or 2.
    pub version: u8,
    /// The sizes of the world.
    pub shape: Shape,
    /// The words, each at the number of its address in the shape. In an image of version 1, which has no masks, the
    /// masks are the implied ones: all cells of a lock whose turn is odd, otherwise none.
    pub words: Vec<u64>,
    /// The entries in order of finishing.
    pub entries: EntryList,
}

/// The contents of the bytes, all of which are the image.
///
/// `BadImage` if they are no image: another header, a version other than 1 and 2, sizes outside the limits, version 1
/// with more than 64 workers, three words that are no operation, more than eight operations, an end too early or too
/// late. Whether the words and entries are those of a world is not checked. Takes memory for the words and the entries
/// as it parses them, in time linear in the bytes; `NoMemory` if that was refused.
pub fn parse(alloc: Global, bytes: &[u8]) -> Result<Parsed, Refusal>
    ensures found { IfOk result (λ p. IsImageVersion p.version p.shape
        × BytesEncodeImage p.version bytes.now p.shape p.words.items p.entries.entries) }
    ensures only { (version : ℕ) (shape : Shape) (words : List ℕ) (entries : List Entry) → IsImageVersion version shape
        → BytesEncodeImage version bytes.now shape words entries
        → IfOk result (λ p. (p.version ≡ version) × (p.shape ≡ shape) × (p.words.items ≡ words)
        × (p.entries.entries ≡ entries))
        × IfErr result (λ e. e ≡ Refusal.NoMemory) }
    ensures refused { IfErr result (λ e. (e ≡ Refusal.BadImage) ⊎ (e ≡ Refusal.NoMemory)) }
{
    let Some((header, rest)) = read_header(bytes) else {
        return Err(Refusal::BadImage);
    };
    let Some(shape) = shape_of(header) else {
        return Err(Refusal::BadImage);
    };
    let Some((words, rest)) = read_words(alloc, header.version, shape, rest)? else {
        return Err(Refusal::BadImage);
    };
    let Some(entries) = read_entries(alloc, rest)? else {
        return Err(Refusal::BadImage);
    };
    Ok(Parsed {
        version: header.version,
        shape,
        words,
        entries,
    })
}
