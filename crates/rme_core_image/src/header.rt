//! The header of an image: its version and the sizes of its world.

ghost use Rattle.std.specs.Prelude.{◌≡◌, ℕ, IfSome, IfNone, option_map};
ghost use Rattle.rme_words.specs.declared.shape.Shape.{Shape};
ghost use Rattle.rme_core_image.specs.Images.{IsImageVersion, image_header};
ghost use Rattle.rme_core_image.specs.Parsing.{parse_header};

use crate::numbers::{number8, number16, number32};
use rme_words::Shape;

/// The first four bytes of each image, "RMEI", as a number.
pub const MAGIC: u32 = 0x524d_4549;

/// The version that is written.
pub const VERSION: u8 = 2;

/// The older version that is still parsed: it has no masks.
pub const OLD_VERSION: u8 = 1;

/// The greatest number of workers of an image of the older version.
const MOST_OLD_WORKERS: u32 = 64;

/// The header, which precedes the words.
#[derive(Clone, Copy)]
pub struct ImageHeader {
    pub version: u8,
    pub workers: u16,
    pub locks: u8,
    pub cells: u8,
    pub jobs: u32,
}

/// The header at the front, and the bytes after it.
#[tactic(auto, unfolding(crate::specs::Parsing::parse_header))]
pub fn read_header(bytes: &[u8]) -> Option<(ImageHeader, &[u8])>
    ensures { parse_header bytes.now ≡ option_map (λ x. (x.0, x.1.now)) result }
{
    let Some((magic, rest)) = number32(bytes) else {
        return None;
    };
    let Some((version, rest)) = number8(rest) else {
        return None;
    };
    let Some((workers, rest)) = number16(rest) else {
        return None;
    };
    let Some((locks, rest)) = number8(rest) else {
        return None;
    };
    let Some((cells, rest)) = number8(rest) else {
        return None;
    };
    let Some((jobs, rest)) = number32(rest) else {
        return None;
    };
    if magic != MAGIC {
        return None;
    }
    let header = ImageHeader {
        version,
        workers,
        locks,
        cells,
        jobs,
    };
    Some((header, rest))
}

/// The shape with the header's sizes, if they are within the limits and the version is one with such a shape.
pub fn shape_of(header: ImageHeader) -> Option<Shape>
    ensures found { IfSome result (λ shape. (image_header header.version shape ≡ header)
        × IsImageVersion header.version shape) }
    ensures none { IfNone result ((version : ℕ) (shape : Shape) → IsImageVersion version shape
        → image_header version shape ≡ header → ⊥) }
{
    let workers = u32::from(header.workers);
    let locks = u32::from(header.locks);
    let cells = u32::from(header.cells);
    let Ok(shape) = Shape::new(workers, locks, cells, header.jobs) else {
        return None;
    };
    if header.version == VERSION {
        return Some(shape);
    }
    if header.version == OLD_VERSION && workers <= MOST_OLD_WORKERS {
        return Some(shape);
    }
    None
}
