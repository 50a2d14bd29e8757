//! The first line that is drawn: what ended before it is dropped.

ghost use Rattle.std.specs.Prelude.{◌≡◌, IfOk, OnOk, filter, nat_lt, nat_le};
ghost use Rattle.rme_draw_picture.specs.Pictures.{picture_of_drawing};
ghost use Rattle.rme_draw_history.specs.DrawnParts as spec;

use rme_draw_picture::{Drawing, DrawnStay, Finish, Hold, Mark};
use std::alloc::{AllocError, Global};

/// Drops from a drawing the stays and holds that ended before a line, and the events of the lines before it.
pub fn draw_from(alloc: Global, drawing: &mut Drawing, first: u64) -> Result<(), AllocError>
    ensures { OnOk result (picture_of_drawing drawing.new ≡ spec.picture_from first (picture_of_drawing drawing.old)) }
{
    drawing.first = first;
    drawing.stays = stays_from(alloc, drawing.stays.as_slice(), first)?;
    drawing.holds = holds_from(alloc, drawing.holds.as_slice(), first)?;
    drawing.marks = marks_from(alloc, drawing.marks.as_slice(), first)?;
    drawing.finishes = finishes_from(alloc, drawing.finishes.as_slice(), first)?;
    Ok(())
}

fn stays_from(alloc: Global, stays: &[DrawnStay], first: u64) -> Result<Vec<DrawnStay>, AllocError>
    ensures { IfOk result (λ drawn. drawn.items ≡ filter (λ stay. nat_lt first stay.to) stays.now) }
{
    stays
        .iter()
        .copied()
        .filter(|stay| first < stay.to)
        .collect(alloc)
}

fn holds_from(alloc: Global, holds: &[Hold], first: u64) -> Result<Vec<Hold>, AllocError>
    ensures { IfOk result (λ drawn. drawn.items ≡ filter (λ hold. nat_lt first hold.to) holds.now) }
{
    holds
        .iter()
        .copied()
        .filter(|hold| first < hold.to)
        .collect(alloc)
}

fn marks_from(alloc: Global, marks: &[Mark], first: u64) -> Result<Vec<Mark>, AllocError>
    ensures { IfOk result (λ drawn. drawn.items ≡ filter (λ mark. nat_le first mark.line) marks.now) }
{
    marks
        .iter()
        .copied()
        .filter(|mark| first <= mark.line)
        .collect(alloc)
}

fn finishes_from(alloc: Global, finishes: &[Finish], first: u64) -> Result<Vec<Finish>, AllocError>
    ensures { IfOk result (λ drawn. drawn.items ≡ filter (λ finish. nat_le first finish.line) finishes.now) }
{
    finishes
        .iter()
        .copied()
        .filter(|finish| first <= finish.line)
        .collect(alloc)
}
