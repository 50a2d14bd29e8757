//! The painter of a picture.

use crate::drawing::Drawing;
use crate::page::Page;
use crate::svg::put_svg;
use rme_line_io::Sink;
use std::alloc::{AllocError, Global};

/// Puts the text of a picture on a page.
pub trait Paint {
    ghost use Rattle.std.specs.Prelude.{◌≡◌, ℕ, List, OnErr, OnOk};
    ghost use Rattle.rme_draw_picture.specs.Pages.{TextOfKindPut, page_state};
    ghost use Rattle.rme_draw_picture.specs.Pictures.{Picture, picture_of_drawing};

    // Which texts are texts of a picture. It may be any relation; so what is drawn with every painter is this painter's
    // text of that very picture.
    ghost paints: { Picture → List ℕ → Type 0 };

    /// Puts the text of a drawing. An error is lack of memory, and comes before anything is put.
    fn paint<W: Sink>(
        &self,
        alloc: Global,
        drawing: &Drawing,
        page: &mut Page,
        writer: &mut W,
    ) -> Result<(), AllocError>
        ensures painted { OnOk result (TextOfKindPut (paints (picture_of_drawing drawing.now))
            (page_state W.contents W.took page.old writer.old) (page_state W.contents W.took page.new writer.new)) }
        ensures refused { OnErr result (writer.new ≡ writer.old) };
}

/// A timeline in SVG.
#[derive(Clone, Copy)]
pub struct Svg;

impl Paint for Svg {
    ghost use Rattle.rme_draw_picture.specs.Pictures.{IsSvg};

    ghost paints = { IsSvg };

    fn paint<W: Sink>(
        &self,
        alloc: Global,
        drawing: &Drawing,
        page: &mut Page,
        writer: &mut W,
    ) -> Result<(), AllocError> {
        put_svg(alloc, drawing, page, writer)
    }
}
