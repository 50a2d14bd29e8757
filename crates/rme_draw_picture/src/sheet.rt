//! The layout of the sheet. Lengths are in units of the picture, about a pixel each.

use crate::blocked::BlockedLines;
use crate::drawing::Drawing;
use crate::entries::entry_lines;
use crate::piece::{Piece, digits_of, length_of};
use std::alloc::{AllocError, Global};

/// The height of what is above the rows: the title, the legend and the numbers of lines.
pub const HEAD: u64 = 128;

/// The height of a worker's row.
pub const WORKER_ROW: u64 = 62;

/// The height of a lock's row without its entries.
const LOCK_ROW: u64 = 52;

/// The height of a line of text.
pub const TEXT_LINE: u64 = 14;

/// The least width of the picture, so that its legend has room.
const LEAST_WIDTH: u64 = 980;

/// The width of a column without the digits of the numbers in it.
const COLUMN: u64 = 62;

/// The width of a character of a row's name.
const NAME_LETTER: u64 = 9;

/// Room after the last column, for the text of an entry there.
const BEHIND: u64 = 64;

/// About the width of any other character.
const LETTER: u64 = 7;

/// No other character is wider.
const WIDEST_LETTER: u64 = 11;

/// The room above the numbers of lines of each strip after the first.
const GAP: u64 = 12;

/// Each later strip repeats what the first has below this height: the numbers of lines, and the rows.
const STRIP_TOP: u64 = 100;

/// The greatest width of a strip: common viewers refuse a picture of more than 32,767 pixels.
const STRIP_WIDTH: u64 = 30_000;

/// A position on the sheet.
#[derive(Clone, Copy)]
pub struct Point {
    pub x: u64,
    pub y: u64,
}

impl Point {
    /// The position this far below.
    pub fn below(self, distance: u64) -> Point {
        Point {
            x: self.x,
            y: self.y.saturating_add(distance),
        }
    }
}

/// The positions of a drawing's columns and rows. A long drawing is cut into strips, one below the other.
#[derive(Drop)]
pub struct Sheet {
    left: u64,
    column: u64,
    pub width: u64,
    /// The number of lines in a strip.
    pub lines: u64,
    /// The top of each lock's row; a lock that nobody used has none.
    pub locks: Vec<Option<u64>>,
    /// The lower end of the last row of a strip.
    pub bottom: u64,
    /// The workers that block others.
    pub blocked: BlockedLines,
}

impl Sheet {
    /// The sheet of a drawing.
    pub fn of(alloc: Global, drawing: &Drawing) -> Result<Sheet, AllocError> {
        let used = used_locks(alloc, drawing)?;
        let left = longest_name(drawing, used.as_slice())
            .saturating_mul(NAME_LETTER)
            .saturating_add(40);
        let digits = digits_of(u64::from(drawing.number));
        let column = COLUMN.saturating_add(digits.saturating_mul(4));
        let most = STRIP_WIDTH.saturating_sub(left).saturating_sub(BEHIND) / column.max(1);
        let shown = drawing.last.saturating_add(1).saturating_sub(drawing.first);
        let lines = shown.min(most.saturating_sub(1)).max(1);
        let width = lines
            .saturating_add(1)
            .saturating_mul(column)
            .saturating_add(left)
            .saturating_add(BEHIND);
        let mut sheet = Sheet {
            left,
            column,
            width: width.max(LEAST_WIDTH),
            lines,
            locks: Vec::new(alloc),
            bottom: top_of_worker(u64::from(drawing.workers)).saturating_add(8),
            blocked: BlockedLines::of(alloc, drawing)?,
        };
        sheet.place_locks(alloc, drawing, used.as_slice())?;
        Ok(sheet)
    }

    /// Gives each lock that was used a row, with room for its entries.
    fn place_locks(
        &mut self,
        alloc: Global,
        drawing: &Drawing,
        used: &[bool],
    ) -> Result<(), AllocError> {
        let needed = most_lines(alloc, drawing)?;
        for (lines, is_used) in needed.iter().zip(used) {
            if !*is_used {
                self.locks.push(None)?;
                continue;
            }
            self.locks.push(Some(self.bottom))?;
            self.bottom = self
                .bottom
                .saturating_add(LOCK_ROW)
                .saturating_add(lines.saturating_mul(TEXT_LINE));
        }
        Ok(())
    }

    /// The height of the picture with `strips` strips.
    pub fn height(&self, strips: u64) -> u64 {
        self.top(strips.saturating_sub(1))
            .saturating_add(self.bottom)
            .saturating_add(GAP)
    }

    /// The distance from the first strip down to the one after `strips` strips.
    pub fn top(&self, strips: u64) -> u64 {
        let height = self.bottom.saturating_sub(STRIP_TOP).saturating_add(GAP);
        strips.saturating_mul(height)
    }

    /// The middle of a column, counted from 1 in its strip.
    pub fn x(&self, column: u64) -> u64 {
        self.left
            .saturating_add(column.saturating_mul(self.column))
            .saturating_sub(self.column / 2)
    }

    /// The width of `count` columns.
    pub fn columns(&self, count: u64) -> u64 {
        count.saturating_mul(self.column)
    }

    /// Whether a text has room in a width.
    pub fn has_room(&self, text: &[Piece], width: u64) -> bool {
        length_of(text).saturating_mul(LETTER).saturating_add(6) <= width
    }

    /// Whether a row's name that begins in a column ends on the sheet.
    pub fn has_room_for_name(&self, name: &[Piece], column: u64) -> bool {
        let width = length_of(name).saturating_mul(WIDEST_LETTER);
        self.x(column).saturating_add(width) <= self.width
    }

    /// The top of a lock's row.
    pub fn lock(&self, lock: u32) -> u64 {
        match self.locks.get(lock as usize) {
            Some(Some(top)) => *top,
            _ => self.bottom,
        }
    }
}

/// The top of a worker's row.
pub fn top_of_worker(worker: u64) -> u64 {
    worker.saturating_mul(WORKER_ROW).saturating_add(HEAD)
}

/// The number of characters of the longest name of a row.
fn longest_name(drawing: &Drawing, used: &[bool]) -> u64 {
    let mut longest = "worker 000".len();
    for (name, is_used) in drawing.names.iter().zip(used) {
        if *is_used {
            longest = longest.max(name.as_str().len().saturating_add("lock ".len()));
        }
    }
    longest as u64
}

/// For each lock, whether a worker had a job on it.
fn used_locks(alloc: Global, drawing: &Drawing) -> Result<Vec<bool>, AllocError> {
    let mut used = vec![in alloc; false; drawing.names.len()]?;
    for stay in &drawing.stays {
        if let Some(lock) = stay.lock {
            if let Some(is_used) = used.get_mut(lock as usize) {
                *is_used = true;
            }
        }
    }
    Ok(used)
}

/// For each lock, the greatest number of lines of its entries' texts.
fn most_lines(alloc: Global, drawing: &Drawing) -> Result<Vec<u64>, AllocError> {
    let mut lines = vec![in alloc; 0u64; drawing.names.len()]?;
    for finish in &drawing.finishes {
        if let Some(most) = lines.get_mut(finish.receipt.lock as usize) {
            *most = (*most).max(entry_lines(&finish.cells));
        }
    }
    Ok(lines)
}
