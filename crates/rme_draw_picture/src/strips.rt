//! The strips of a picture: parts of the transcript, which are drawn one below the other.

use crate::drawing::{Drawing, DrawnStay, Hold};
use std::alloc::{AllocError, Global};

/// The lines from `first` to `last`, and what happened in them, by its indices in the drawing.
#[derive(Drop)]
pub struct Strip {
    pub first: u64,
    pub last: u64,
    pub stays: Vec<usize>,
    pub holds: Vec<usize>,
    pub marks: Vec<usize>,
    pub finishes: Vec<usize>,
}

impl Strip {
    /// The column of a line of this strip.
    pub fn column(&self, line: u64) -> u64 {
        line.saturating_sub(self.first).saturating_add(1)
    }

    /// The part of some lines that is in this strip: the column of the first, and their number.
    pub fn part(&self, from: u64, to: u64) -> (u64, u64) {
        let first = from.max(self.first);
        let end = to.min(self.last.saturating_add(1));
        (self.column(first), end.saturating_sub(first))
    }
}

/// The cut of a drawing into strips of `lines` lines, from its first line on.
#[derive(Clone, Copy)]
struct StripCut {
    first: u64,
    lines: u64,
}

impl StripCut {
    /// The number of the strip with a line, from 0; 0 for an earlier line.
    fn place_of(self, line: u64) -> u64 {
        line.saturating_sub(self.first) / self.lines.max(1)
    }
}

/// A drawing in strips of `lines` lines, in order. A stay or a hold is in each strip into which it reaches.
pub fn strips_of(alloc: Global, drawing: &Drawing, lines: u64) -> Result<Vec<Strip>, AllocError> {
    let cut = StripCut {
        first: drawing.first,
        lines,
    };
    let mut strips = empty_strips(alloc, drawing.last, cut)?;
    for (index, stay) in drawing.stays.iter().enumerate() {
        add_stay(&mut strips, index, stay, cut)?;
    }
    for (index, hold) in drawing.holds.iter().enumerate() {
        add_hold(&mut strips, index, hold, cut)?;
    }
    add_marks(&mut strips, drawing, cut)?;
    Ok(strips)
}

/// Empty strips, up to the last line.
fn empty_strips(alloc: Global, last: u64, cut: StripCut) -> Result<Vec<Strip>, AllocError> {
    let mut strips = Vec::new(alloc);
    for place in 0..=cut.place_of(last) {
        let first = cut.first.saturating_add(place.saturating_mul(cut.lines));
        strips.push(Strip {
            first,
            last: first.saturating_add(cut.lines).saturating_sub(1).min(last),
            stays: Vec::new(alloc),
            holds: Vec::new(alloc),
            marks: Vec::new(alloc),
            finishes: Vec::new(alloc),
        })?;
    }
    Ok(strips)
}

/// Adds a stay to each strip into which it reaches.
fn add_stay(
    strips: &mut [Strip],
    index: usize,
    stay: &DrawnStay,
    cut: StripCut,
) -> Result<(), AllocError> {
    let last = cut.place_of(stay.to.saturating_sub(1));
    for place in cut.place_of(stay.from)..=last {
        if let Some(strip) = strips.get_mut(place as usize) {
            strip.stays.push(index)?;
        }
    }
    Ok(())
}

/// Adds a hold to each strip into which it reaches.
fn add_hold(
    strips: &mut [Strip],
    index: usize,
    hold: &Hold,
    cut: StripCut,
) -> Result<(), AllocError> {
    let last = cut.place_of(hold.to.saturating_sub(1));
    for place in cut.place_of(hold.from)..=last {
        if let Some(strip) = strips.get_mut(place as usize) {
            strip.holds.push(index)?;
        }
    }
    Ok(())
}

/// Adds the marks and the finished sections, each to the strip of its line.
fn add_marks(strips: &mut [Strip], drawing: &Drawing, cut: StripCut) -> Result<(), AllocError> {
    for (index, mark) in drawing.marks.iter().enumerate() {
        if let Some(strip) = strips.get_mut(cut.place_of(mark.line) as usize) {
            strip.marks.push(index)?;
        }
    }
    add_finishes(strips, drawing, cut)
}

fn add_finishes(strips: &mut [Strip], drawing: &Drawing, cut: StripCut) -> Result<(), AllocError> {
    for (index, finish) in drawing.finishes.iter().enumerate() {
        if let Some(strip) = strips.get_mut(cut.place_of(finish.line) as usize) {
            strip.finishes.push(index)?;
        }
    }
    Ok(())
}
