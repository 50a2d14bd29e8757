//! The text of a picture: stays, holds, marks and finished sections as a timeline in SVG.
//!
//! The crate knows no transcript and no machine; rme_draw_history fills a `Drawing`, and a painter puts it on a `Page`:
//! `Svg`, by `put_svg`. It stands on rme_line_io for writers, on rme_program and rme_script for receipts and cells, and
//! on itoa for numbers. Begin with `drawing.rt`, the contents of a picture; `page.rt`, which buffers its text for a
//! writer; and `svg.rt`. `sheet.rt` and `strips.rt` have the layout; `rows.rt`, `entries.rt` and `mark_kind.rt` have
//! the style.
#![tactic(auto)]

mod blocked;
mod drawing;
mod drawn_phase;
mod entries;
mod mark_kind;
mod page;
mod paint;
mod piece;
mod rows;
mod sheet;
mod strips;
mod svg;

pub use drawing::{Drawing, DrawnStay, Finish, Hold, Mark};
pub use drawn_phase::DrawnPhase;
pub use mark_kind::MarkKind;
pub use page::Page;
pub use paint::{Paint, Svg};
