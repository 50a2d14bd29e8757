//! A line that is being cut.

ghost use Rattle.std.specs.Prelude.{◌≡◌, OnOk};
ghost use Rattle.rme_line_io.specs.Pieces.{extended_line};
ghost use Rattle.rme_line_io.specs.Cuts.{cut_of, last_cut_of};

use std::alloc::AllocError;

/// The greatest length of a line in bytes, without its newline.
const LINE_LIMIT: usize = 65_536;

/// The result of cutting a line off the reader's bytes.
#[derive(Clone, Copy, PartialEq, Eq)]
pub enum Cut {
    /// A line of at most 65,536 bytes, a last piece without a newline included.
    Line,
    /// A longer line, read to its newline or to the end.
    TooLong,
    /// No line is left.
    End,
}

/// Adds a piece to a line, of which at most one byte more than the limit is stored.
pub fn extend_line(line: &mut Vec<u8>, piece: &[u8]) -> Result<(), AllocError>
    ensures { OnOk result (line.new.items ≡ extended_line 65537 line.old.items piece.now) }
{
    let room = (LINE_LIMIT + 1).saturating_sub(line.len());
    line.extend_from_slice(&piece[..room.min(piece.len())])
}

/// A line that was read to its newline.
pub fn cut_of(line: &Vec<u8>) -> Cut
    ensures { result ≡ cut_of line.now.items }
{
    if line.as_slice().len() > LINE_LIMIT {
        Cut::TooLong
    } else {
        Cut::Line
    }
}

/// A line that was read to the end; an empty one is no line.
pub fn last_cut_of(line: &Vec<u8>) -> Cut
    ensures { result ≡ last_cut_of line.now.items }
{
    if line.as_slice().is_empty() {
        Cut::End
    } else {
        cut_of(line)
    }
}
