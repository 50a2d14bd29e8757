//! The text of a picture.

ghost use Rattle.std.specs.Prelude.{◌≡◌, OnErr, OnOk};
ghost use Rattle.rme_draw_picture.specs.Pages.{SomeTextPut};

use crate::drawing::Drawing;
use crate::drawn_phase::DrawnPhase;
use crate::entries::put_finish;
use crate::page::Page;
use crate::piece::Piece;
use crate::piece::Piece::{Number, Text};
use crate::rows::{NamedStay, colour_of, lock_waited_for, name_of, put_hold, put_mark, put_stay};
use crate::sheet::{Point, Sheet, top_of_worker};
use crate::strips::{Strip, strips_of};
use rme_line_io::Sink;
use std::alloc::{AllocError, Global};

/// The phases, as the legend names them.
const PHASES: [DrawnPhase; 7] = [
    DrawnPhase::Ready,
    DrawnPhase::Post,
    DrawnPhase::Enter,
    DrawnPhase::Section,
    DrawnPhase::Exit,
    DrawnPhase::Recover,
    DrawnPhase::Down,
];

/// The names of rows are written again after this number of columns.
const NAMES_EVERY: u64 = 20;

/// Puts the picture of a drawing. What allocates comes first, so that after an error nothing was put.
pub fn put_svg<W: Sink>(
    alloc: Global,
    drawing: &Drawing,
    page: &mut Page,
    writer: &mut W,
) -> Result<(), AllocError>
    ensures put { OnOk result (SomeTextPut W.contents W.took page.old writer.old page.new writer.new) }
    ensures refused { OnErr result (writer.new ≡ writer.old) }
{
    let sheet = Sheet::of(alloc, drawing)?;
    let strips = strips_of(alloc, drawing, sheet.lines)?;
    put_picture(page, writer, &sheet, drawing, strips.as_slice());
    Ok(())
}

/// Puts a picture with its strips.
fn put_picture<W: Sink>(
    page: &mut Page,
    writer: &mut W,
    sheet: &Sheet,
    drawing: &Drawing,
    strips: &[Strip],
)
    ensures { SomeTextPut W.contents W.took page.old writer.old page.new writer.new }
{
    put_head(page, writer, sheet, drawing, strips.len() as u64);
    put_legend(page, writer);
    page.put(writer, &[Text(signs())]);
    let mut before = 0u64;
    for strip in strips {
        put_group(page, writer, sheet, before);
        put_strip(page, writer, sheet, drawing, strip);
        before = before.saturating_add(1);
    }
    page.put(writer, &[Text("</g>\n</svg>\n")]);
}

/// Puts the contents of a strip.
fn put_strip<W: Sink>(
    page: &mut Page,
    writer: &mut W,
    sheet: &Sheet,
    drawing: &Drawing,
    strip: &Strip,
)
    ensures { SomeTextPut W.contents W.took page.old writer.old page.new writer.new }
{
    put_columns(page, writer, sheet, strip);
    put_workers(page, writer, sheet, drawing, strip);
    put_locks(page, writer, sheet, drawing, strip);
    put_rows(page, writer, sheet, drawing, strip);
}

/// Begins a strip after `before` others; the first one is begun with the picture.
fn put_group<W: Sink>(page: &mut Page, writer: &mut W, sheet: &Sheet, before: u64)
    ensures { SomeTextPut W.contents W.took page.old writer.old page.new writer.new }
{
    let top = sheet.top(before);
    if before > 0 {
        page.put(
            writer,
            &[
                Text("</g>\n<g transform=\"translate(0 "),
                Number(top),
                Text(")\">\n"),
            ],
        );
    }
}

/// Puts the start of the picture, its title and its background, which is white on any page.
fn put_head<W: Sink>(page: &mut Page, writer: &mut W, sheet: &Sheet, drawing: &Drawing, strips: u64)
    ensures { SomeTextPut W.contents W.took page.old writer.old page.new writer.new }
{
    let width = sheet.width;
    let height = sheet.height(strips);
    put_opening(page, writer, width, height);
    put_title(page, writer, drawing);
    page.put(
        writer,
        &[
            Text("</title>\n<rect width=\""),
            Number(width),
            Text("\" height=\""),
            Number(height),
            Text("\" fill=\"#ffffff\"/>\n<g>\n"),
            Text("<text x=\"16\" y=\"28\" font-size=\"16\" font-weight=\"bold\" fill=\"#111111\">"),
        ],
    );
    put_title(page, writer, drawing);
    page.put(writer, &[Text("</text>\n")]);
}

/// Begins a picture of this width and height, and its title.
fn put_opening<W: Sink>(page: &mut Page, writer: &mut W, width: u64, height: u64)
    ensures { SomeTextPut W.contents W.took page.old writer.old page.new writer.new }
{
    page.put(
        writer,
        &[
            Text("<svg xmlns=\"http://www.w3.org/2000/svg\" width=\""),
            Number(width),
            Text("\" height=\""),
            Number(height),
            Text("\" viewBox=\"0 0 "),
            Number(width),
            Text(" "),
            Number(height),
            Text(
                "\" font-family=\"DejaVu Sans, Helvetica, Arial, sans-serif\" font-size=\"11\">\n<title>",
            ),
        ],
    );
}

/// Puts a description of the picture.
fn put_title<W: Sink>(page: &mut Page, writer: &mut W, drawing: &Drawing)
    ensures { SomeTextPut W.contents W.took page.old writer.old page.new writer.new }
{
    let workers = u64::from(drawing.workers);
    let locks = drawing.names.len() as u64;
    page.put(
        writer,
        &[
            Text("A run of "),
            Number(workers),
            Text(" worker"),
            Text(plural_of(workers)),
            Text(" and "),
            Number(locks),
            Text(" lock"),
            Text(plural_of(locks)),
        ],
    );
    page.put(writer, &extent_of(drawing));
}

/// The words for the lines that are drawn: all, or these of so many.
fn extent_of<'a>(drawing: &Drawing) -> [Piece<'a>; 6] {
    if drawing.first <= 1 && drawing.last >= drawing.lines {
        return [
            Text(", "),
            Number(drawing.lines),
            Text(" line"),
            Text(plural_of(drawing.lines)),
            Text(""),
            Text(""),
        ];
    }
    [
        Text(", lines "),
        Number(drawing.first),
        Text(" to "),
        Number(drawing.last),
        Text(" of "),
        Number(drawing.lines),
    ]
}

/// The ending of the noun after a number.
fn plural_of(count: u64) -> &'static str {
    if count == 1 { "" } else { "s" }
}

/// Puts the colours of the phases.
fn put_legend<W: Sink>(page: &mut Page, writer: &mut W)
    ensures { SomeTextPut W.contents W.took page.old writer.old page.new writer.new }
{
    let mut x = 16u64;
    for phase in PHASES {
        let name = name_of(phase);
        page.put(
            writer,
            &[
                Text("<rect x=\""),
                Number(x),
                Text("\" y=\"42\" width=\"16\" height=\"14\" fill=\""),
                Text(colour_of(phase)),
                Text("\" stroke=\"#8a96a5\"/><text x=\""),
                Number(x.saturating_add(22)),
                Text("\" y=\"53\" fill=\"#333333\">"),
                Text(name),
                Text("</text>\n"),
            ],
        );
        x = x
            .saturating_add(46)
            .saturating_add((name.len() as u64).saturating_mul(6));
    }
}

/// The meaning of the signs and the columns. It is a function, not a constant: the value of a constant is known to each
/// proof in the modules that use it, and a long text is costly there.
fn signs() -> &'static str {
    r##"<path d="M17 66 L29 78 M29 66 L17 78" stroke="#b03030" stroke-width="3"/>
<text x="38" y="76" fill="#333333">crash</text>
<path d="M93 66 L100 78 L86 78 Z" fill="#6a3fa0"/>
<text x="108" y="76" fill="#333333">restart</text>
<circle cx="171" cy="72" r="5" fill="#1f5fa8"/>
<text x="182" y="76" fill="#333333">a finished section of a lock: its place, its worker and job, its reply, and the cells after it</text>
<text x="16" y="96" fill="#555555">One column for each line of the transcript. A worker recovers up to its next note; a lock keeps an owner that is down (dashed).</text>
"##
}

/// Puts a line for each column of a strip, with the number of the transcript's line.
fn put_columns<W: Sink>(page: &mut Page, writer: &mut W, sheet: &Sheet, strip: &Strip)
    ensures { SomeTextPut W.contents W.took page.old writer.old page.new writer.new }
{
    page.put(
        writer,
        &[Text("<text x=\"16\" y=\"118\" fill=\"#555555\">line</text>\n")],
    );
    for line in strip.first..strip.last.saturating_add(1) {
        put_column(page, writer, sheet, sheet.x(strip.column(line)), line);
    }
}

fn put_column<W: Sink>(page: &mut Page, writer: &mut W, sheet: &Sheet, x: u64, line: u64)
    ensures { SomeTextPut W.contents W.took page.old writer.old page.new writer.new }
{
    page.put(
        writer,
        &[
            Text("<path d=\"M"),
            Number(x),
            Text(" 122 V"),
            Number(sheet.bottom),
            Text("\" stroke=\"#e4e8ee\"/><text x=\""),
            Number(x),
            Text("\" y=\"118\" text-anchor=\"middle\" fill=\"#555555\">"),
            Number(line),
            Text("</text>\n"),
        ],
    );
}

/// Puts the names of the workers' rows of a strip.
fn put_workers<W: Sink>(
    page: &mut Page,
    writer: &mut W,
    sheet: &Sheet,
    drawing: &Drawing,
    strip: &Strip,
)
    ensures { SomeTextPut W.contents W.took page.old writer.old page.new writer.new }
{
    let columns = strip.column(strip.last);
    for worker in 0..u64::from(drawing.workers) {
        let name = [Text("worker "), Number(worker)];
        let row = RowExtent {
            top: top_of_worker(worker),
            columns,
        };
        put_name(page, writer, sheet, row, &name);
    }
    put_checkpoint_label(page, writer, drawing);
}

/// Puts the label of the checkpoint worker below the name of its row, if there is one.
fn put_checkpoint_label<W: Sink>(page: &mut Page, writer: &mut W, drawing: &Drawing)
    ensures { SomeTextPut W.contents W.took page.old writer.old page.new writer.new }
{
    if !drawing.has_checkpoint_worker {
        return;
    }
    let worker = u64::from(drawing.workers).saturating_sub(1);
    let base = top_of_worker(worker).saturating_add(45);
    page.put(
        writer,
        &[
            Text("<text x=\"16\" y=\""),
            Number(base),
            Text("\" fill=\"#555555\">"),
            Text("checkpoint worker"),
            Text("</text>\n"),
        ],
    );
}

/// Puts the names of the locks' rows of a strip.
fn put_locks<W: Sink>(
    page: &mut Page,
    writer: &mut W,
    sheet: &Sheet,
    drawing: &Drawing,
    strip: &Strip,
)
    ensures { SomeTextPut W.contents W.took page.old writer.old page.new writer.new }
{
    let columns = strip.column(strip.last);
    for (name, top) in drawing.names.iter().zip(&sheet.locks) {
        if let Some(top) = top {
            let name = [Text("lock "), Text(name.as_str())];
            let row = RowExtent { top: *top, columns };
            put_name(page, writer, sheet, row, &name);
        }
    }
}

/// The top of a row of a strip, and its number of columns.
#[derive(Clone, Copy)]
struct RowExtent {
    top: u64,
    columns: u64,
}

/// Puts the name of a row, at its left end and again along it, where there is room.
fn put_name<W: Sink>(page: &mut Page, writer: &mut W, sheet: &Sheet, row: RowExtent, name: &[Piece])
    ensures { SomeTextPut W.contents W.took page.old writer.old page.new writer.new }
{
    put_first_name(page, writer, row.top.saturating_add(29), name);
    let y = row.top.saturating_add(8);
    for again in 1..(row.columns / NAMES_EVERY).saturating_add(1) {
        let column = again.saturating_mul(NAMES_EVERY);
        if !sheet.has_room_for_name(name, column) {
            continue;
        }
        let x = sheet.x(column);
        put_name_again(page, writer, Point { x, y }, name);
    }
}

fn put_first_name<W: Sink>(page: &mut Page, writer: &mut W, base: u64, name: &[Piece])
    ensures { SomeTextPut W.contents W.took page.old writer.old page.new writer.new }
{
    page.put(
        writer,
        &[
            Text("<text x=\"16\" y=\""),
            Number(base),
            Text("\" font-size=\"13\" font-weight=\"bold\" fill=\"#111111\">"),
        ],
    );
    page.put(writer, name);
    page.put(writer, &[Text("</text>\n")]);
}

fn put_name_again<W: Sink>(page: &mut Page, writer: &mut W, at: Point, name: &[Piece])
    ensures { SomeTextPut W.contents W.took page.old writer.old page.new writer.new }
{
    page.put(
        writer,
        &[
            Text("<text x=\""),
            Number(at.x),
            Text("\" y=\""),
            Number(at.y),
            Text("\" fill=\"#555555\">"),
        ],
    );
    page.put(writer, name);
    page.put(writer, &[Text("</text>\n")]);
}

/// Puts the rows of a strip.
fn put_rows<W: Sink>(
    page: &mut Page,
    writer: &mut W,
    sheet: &Sheet,
    drawing: &Drawing,
    strip: &Strip,
)
    ensures { SomeTextPut W.contents W.took page.old writer.old page.new writer.new }
{
    put_stays(page, writer, sheet, drawing, strip);
    put_holds(page, writer, sheet, drawing, strip);
    put_marks(page, writer, sheet, drawing, strip);
    put_finishes(page, writer, sheet, drawing, strip);
}

fn put_stays<W: Sink>(
    page: &mut Page,
    writer: &mut W,
    sheet: &Sheet,
    drawing: &Drawing,
    strip: &Strip,
)
    ensures { SomeTextPut W.contents W.took page.old writer.old page.new writer.new }
{
    for index in &strip.stays {
        let Some(stay) = drawing.stays.get(*index) else {
            continue;
        };
        let named = NamedStay {
            stay: *stay,
            lock: lock_waited_for(drawing, stay),
            blocker: sheet.blocked.last_in(stay),
        };
        put_stay(page, writer, sheet, strip, named);
    }
}

fn put_holds<W: Sink>(
    page: &mut Page,
    writer: &mut W,
    sheet: &Sheet,
    drawing: &Drawing,
    strip: &Strip,
)
    ensures { SomeTextPut W.contents W.took page.old writer.old page.new writer.new }
{
    for index in &strip.holds {
        let Some(hold) = drawing.holds.get(*index) else {
            continue;
        };
        put_hold(page, writer, sheet, strip, hold);
    }
}

fn put_marks<W: Sink>(
    page: &mut Page,
    writer: &mut W,
    sheet: &Sheet,
    drawing: &Drawing,
    strip: &Strip,
)
    ensures { SomeTextPut W.contents W.took page.old writer.old page.new writer.new }
{
    for index in &strip.marks {
        let Some(mark) = drawing.marks.get(*index) else {
            continue;
        };
        put_mark(page, writer, sheet, strip, mark);
    }
}

fn put_finishes<W: Sink>(
    page: &mut Page,
    writer: &mut W,
    sheet: &Sheet,
    drawing: &Drawing,
    strip: &Strip,
)
    ensures { SomeTextPut W.contents W.took page.old writer.old page.new writer.new }
{
    for index in &strip.finishes {
        let Some(finish) = drawing.finishes.get(*index) else {
            continue;
        };
        put_finish(page, writer, sheet, strip, finish);
    }
}
