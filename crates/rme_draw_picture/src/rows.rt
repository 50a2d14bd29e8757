//! The rows of a picture: stays, holds, and marks.

ghost use Rattle.rme_draw_picture.specs.Pages.{SomeTextPut};

use crate::drawing::{Drawing, DrawnStay, Hold, Mark};
use crate::drawn_phase::DrawnPhase;
use crate::mark_kind::{MarkKind, words_of_mark};
use crate::page::Page;
use crate::piece::Piece;
use crate::piece::Piece::{Number, Text};
use crate::sheet::{Point, Sheet, top_of_worker};
use crate::strips::Strip;
use rme_line_io::Sink;

/// From the top of a row to its bar.
pub const BAR: u64 = 12;

/// The height of a bar.
pub const BAR_HEIGHT: u64 = 24;

/// From the top of a row to the words below its bar.
pub const WORDS: u64 = 50;

/// The colour of a phase.
pub fn colour_of(phase: DrawnPhase) -> &'static str {
    match phase {
        DrawnPhase::Ready => "#e9edf2",
        DrawnPhase::Post => "#c9dcf2",
        DrawnPhase::Enter => "#f5e0a9",
        DrawnPhase::Section => "#5fb37a",
        DrawnPhase::Exit => "#c5e6cf",
        DrawnPhase::Recover => "#dccbf0",
        DrawnPhase::Down => "#f3c6c6",
    }
}

/// The name of a phase.
pub fn name_of(phase: DrawnPhase) -> &'static str {
    match phase {
        DrawnPhase::Ready => "ready",
        DrawnPhase::Post => "Post",
        DrawnPhase::Enter => "Enter",
        DrawnPhase::Section => "Critical section",
        DrawnPhase::Exit => "Exit",
        DrawnPhase::Recover => "Recover",
        DrawnPhase::Down => "down",
    }
}

/// The position of a bar, by the top of its row, its first column and its number of columns; and its style.
#[derive(Clone, Copy)]
struct Bar {
    top: u64,
    column: u64,
    count: u64,
    colour: &'static str,
    edge: &'static str,
    dashes: &'static str,
}

/// The texts of a bar: `tip` is shown while the pointer is on the bar; the bar has the long text, or else the short
/// one, if there is room.
#[derive(Clone, Copy)]
struct BarTexts<'a> {
    tip: &'a [Piece<'a>],
    long: &'a [Piece<'a>],
    short: &'a [Piece<'a>],
}

/// Puts a bar with its texts.
fn put_bar<W: Sink>(page: &mut Page, writer: &mut W, sheet: &Sheet, bar: Bar, texts: BarTexts)
    ensures { SomeTextPut W.contents W.took page.old writer.old page.new writer.new }
{
    let x = sheet.x(bar.column);
    let width = sheet.columns(bar.count);
    let y = bar.top.saturating_add(BAR);
    put_box(page, writer, bar, Point { x, y }, width);
    page.put(writer, texts.tip);
    page.put(writer, &[Text("</title></rect>\n")]);
    let middle = Point {
        x: x.saturating_add(width / 2),
        y: y.saturating_add(16),
    };
    if sheet.has_room(texts.long, width) {
        put_centred(page, writer, middle, texts.long);
    } else if sheet.has_room(texts.short, width) {
        put_centred(page, writer, middle, texts.short);
    }
}

/// Puts the box of a bar, and begins its tooltip.
fn put_box<W: Sink>(page: &mut Page, writer: &mut W, bar: Bar, at: Point, width: u64)
    ensures { SomeTextPut W.contents W.took page.old writer.old page.new writer.new }
{
    page.put(
        writer,
        &[
            Text("<rect x=\""),
            Number(at.x),
            Text("\" y=\""),
            Number(at.y),
            Text("\" width=\""),
            Number(width),
            Text("\" height=\""),
            Number(BAR_HEIGHT),
            Text("\" fill=\""),
            Text(bar.colour),
            Text("\" stroke=\""),
            Text(bar.edge),
            Text("\""),
            Text(bar.dashes),
            Text("><title>"),
        ],
    );
}

/// Puts a text into a bar.
fn put_centred<W: Sink>(page: &mut Page, writer: &mut W, middle: Point, text: &[Piece])
    ensures { SomeTextPut W.contents W.took page.old writer.old page.new writer.new }
{
    page.put(
        writer,
        &[
            Text("<text x=\""),
            Number(middle.x),
            Text("\" y=\""),
            Number(middle.y),
            Text("\" text-anchor=\"middle\" fill=\"#111111\">"),
        ],
    );
    page.put(writer, text);
    page.put(writer, &[Text("</text>\n")]);
}

/// A stay; the name of the lock that it waits for, if it waits for one; and the worker that last blocked it there, if
/// that is known.
#[derive(Clone, Copy)]
pub struct NamedStay<'a> {
    pub stay: DrawnStay,
    pub lock: &'a str,
    pub blocker: Option<u32>,
}

/// Puts a worker's stay in a phase. Its bar names the blocker if there is room.
pub fn put_stay<W: Sink>(
    page: &mut Page,
    writer: &mut W,
    sheet: &Sheet,
    strip: &Strip,
    named: NamedStay,
)
    ensures { SomeTextPut W.contents W.took page.old writer.old page.new writer.new }
{
    let stay = named.stay;
    let (column, count) = strip.part(stay.from, stay.to);
    let words = words_with_room(sheet, sheet.columns(count), named);
    put_bar(
        page,
        writer,
        sheet,
        bar_of_stay(&stay, column, count),
        BarTexts {
            tip: &tip_of_stay(named),
            long: &words,
            short: &[Text(short_name_of(stay.phase))],
        },
    );
}

/// The words of a stay's tooltip.
fn tip_of_stay(named: NamedStay<'_>) -> [Piece<'_>; 12] {
    let [name, gap, lock, by, blocker] = words_of_stay(named);
    [
        Text("worker "),
        Number(u64::from(named.stay.worker)),
        Text(": "),
        name,
        gap,
        lock,
        by,
        blocker,
        Text(", lines "),
        Number(named.stay.from),
        Text(" to "),
        Number(named.stay.to),
    ]
}

/// The words of a stay, without its blocker if there is no room for that in this width.
fn words_with_room<'a>(sheet: &Sheet, width: u64, named: NamedStay<'a>) -> [Piece<'a>; 5] {
    let words = words_of_stay(named);
    if sheet.has_room(&words, width) {
        return words;
    }
    words_of_stay(NamedStay {
        blocker: None,
        ..named
    })
}

/// The name of a stay's phase, the lock that it waits for, and the worker that blocks it.
fn words_of_stay(named: NamedStay<'_>) -> [Piece<'_>; 5] {
    let gap = if named.stay.phase == DrawnPhase::Enter {
        " "
    } else {
        ""
    };
    let [by, blocker] = blocker_words(named.blocker);
    [
        Text(name_of(named.stay.phase)),
        Text(gap),
        Text(named.lock),
        by,
        blocker,
    ]
}

/// The words for the worker that blocks another, if there is one.
fn blocker_words(blocker: Option<u32>) -> [Piece<'static>; 2] {
    match blocker {
        Some(blocker) => [Text(", blocked by worker "), Number(u64::from(blocker))],
        None => [Text(""), Text("")],
    }
}

/// The bar of a stay. Down has a dashed edge.
fn bar_of_stay(stay: &DrawnStay, column: u64, count: u64) -> Bar {
    let is_down = stay.phase == DrawnPhase::Down;
    Bar {
        top: top_of_worker(u64::from(stay.worker)),
        column,
        count,
        colour: colour_of(stay.phase),
        edge: if is_down { "#b03030" } else { "#8a96a5" },
        dashes: dashes_if(is_down),
    }
}

/// The name of a phase for a bar of one column.
fn short_name_of(phase: DrawnPhase) -> &'static str {
    match phase {
        DrawnPhase::Section => "Section",
        _ => name_of(phase),
    }
}

/// Puts a hold of a lock. If the owner is down, the bar is paler and has a dashed edge.
pub fn put_hold<W: Sink>(page: &mut Page, writer: &mut W, sheet: &Sheet, strip: &Strip, hold: &Hold)
    ensures { SomeTextPut W.contents W.took page.old writer.old page.new writer.new }
{
    let owner = u64::from(hold.owner);
    let down = if hold.is_up { "" } else { ", down" };
    let (column, count) = strip.part(hold.from, hold.to);
    let tip = [
        Text("owned by worker "),
        Number(owner),
        Text(down),
        Text(", lines "),
        Number(hold.from),
        Text(" to "),
        Number(hold.to),
    ];
    put_bar(
        page,
        writer,
        sheet,
        bar_of_hold(sheet, hold, column, count),
        BarTexts {
            tip: &tip,
            long: &[Text("worker "), Number(owner), Text(down)],
            short: &[Text("worker "), Number(owner)],
        },
    );
}

/// The bar of a hold.
fn bar_of_hold(sheet: &Sheet, hold: &Hold, column: u64, count: u64) -> Bar {
    Bar {
        top: sheet.lock(hold.lock),
        column,
        count,
        colour: owner_colour(hold.owner),
        edge: if hold.is_up { "#5b6673" } else { "#b03030" },
        dashes: dashes_if(!hold.is_up),
    }
}

/// The colour of an owner: six, in turn.
fn owner_colour(owner: u32) -> &'static str {
    match owner % 6 {
        0 => "#9ec5e8",
        1 => "#f0c38a",
        2 => "#b5d99c",
        3 => "#d5b8e6",
        4 => "#efb9b9",
        _ => "#a5d8d3",
    }
}

/// The attribute of a dashed edge.
fn dashes_if(is_dashed: bool) -> &'static str {
    if is_dashed {
        " stroke-dasharray=\"5 3\" fill-opacity=\"0.6\""
    } else {
        ""
    }
}

/// The name of the lock that a stay waits for, if it waits for one.
pub fn lock_waited_for<'a>(drawing: &'a Drawing, stay: &DrawnStay) -> &'a str {
    if stay.phase != DrawnPhase::Enter {
        return "";
    }
    let Some(lock) = stay.lock else {
        return "";
    };
    match drawing.names.get(lock as usize) {
        Some(name) => name.as_str(),
        None => "",
    }
}

/// Puts an event of a worker: a sign on its bar, and the words below.
pub fn put_mark<W: Sink>(page: &mut Page, writer: &mut W, sheet: &Sheet, strip: &Strip, mark: &Mark)
    ensures { SomeTextPut W.contents W.took page.old writer.old page.new writer.new }
{
    let x = sheet.x(strip.column(mark.line));
    let top = top_of_worker(u64::from(mark.worker));
    let at = Point { x, y: top };
    put_sign(page, writer, at.below(BAR), mark.kind);
    put_words(page, writer, at.below(WORDS), mark.kind);
}

/// Puts the words for an event.
fn put_words<W: Sink>(page: &mut Page, writer: &mut W, at: Point, kind: MarkKind)
    ensures { SomeTextPut W.contents W.took page.old writer.old page.new writer.new }
{
    let (words, number) = words_of_mark(kind);
    page.put(
        writer,
        &[
            Text("<text x=\""),
            Number(at.x),
            Text("\" y=\""),
            Number(at.y),
            Text("\" text-anchor=\"middle\" fill=\""),
            Text(ink_of(kind)),
            Text("\">"),
            Text(words),
            number_or_nothing(number),
            Text("</text>\n"),
        ],
    );
}

fn number_or_nothing(number: Option<u32>) -> Piece<'static> {
    match number {
        Some(number) => Number(u64::from(number)),
        None => Text(""),
    }
}

/// The colour of the words for an event.
fn ink_of(kind: MarkKind) -> &'static str {
    match kind {
        MarkKind::Crash => "#b03030",
        MarkKind::Restart => "#6a3fa0",
        _ => "#333333",
    }
}

/// Puts the sign of an event: a cross for a crash, a triangle for a restart, and a short line for any other.
fn put_sign<W: Sink>(page: &mut Page, writer: &mut W, at: Point, kind: MarkKind)
    ensures { SomeTextPut W.contents W.took page.old writer.old page.new writer.new }
{
    page.put(
        writer,
        &[
            Text("<path transform=\"translate("),
            Number(at.x),
            Text(" "),
            Number(at.y),
            Text(")\" d=\""),
            Text(shape_of(kind)),
            Text("/>\n"),
        ],
    );
}

/// The shape of a sign, and its style.
fn shape_of(kind: MarkKind) -> &'static str {
    match kind {
        MarkKind::Crash => "M-7 5 L7 19 M7 5 L-7 19\" stroke=\"#b03030\" stroke-width=\"3.5\"",
        MarkKind::Restart => "M0 4 L8 19 L-8 19 Z\" fill=\"#6a3fa0\"",
        _ => "M0 20 V28\" stroke=\"#555555\"",
    }
}
