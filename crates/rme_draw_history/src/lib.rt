//! A picture of a run: a transcript drawn as a timeline in SVG.
//!
//! The crate stands on rme_line_check, whose check of a transcript it observes; on rme_core_checker, whose machine it
//! draws; on rme_draw_picture, which writes the picture's text; on rme_wire for lines and names; and on rme_line_text,
//! rme_line_io, rme_machine, rme_program and rme_words for their types. The program uses one contract, that of
//! `draw_lines`: if the verdict of the check is yes, and the lines to draw are there, it writes the picture of these
//! lines, and else nothing. Begin with `draw.rt`, then `specs/PictureBuilding.antt`, which defines the picture of a
//! run; `picture_builder.rt` builds it, and `drawn_lines.rt` has the lines that are drawn.
#![tactic(auto)]

mod blockers;
mod draw;
mod drawn_lines;
mod first_line;
mod holds;
mod line_marks;
mod phase;
mod picture_builder;
mod stays;

pub use draw::{draw_lines, draw_with};
pub use drawn_lines::{DrawAnswer, DrawRequest, DrawnLines};
pub use phase::phase_after;
pub use rme_draw_picture::{DrawnPhase, Paint, Svg};
