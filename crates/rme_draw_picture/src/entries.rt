//! The entries of a picture: the finished sections, and the cells of a lock after each.

ghost use Rattle.rme_draw_picture.specs.Pages.{SomeTextPut};

use crate::drawing::Finish;
use crate::page::Page;
use crate::piece::Piece::{Number, Text};
use crate::piece::digits_of;
use crate::rows::{BAR, BAR_HEIGHT, WORDS};
use crate::sheet::{Point, Sheet, TEXT_LINE};
use crate::strips::Strip;
use rme_line_io::Sink;
use rme_script::Row;

/// The greatest number of characters of a line of an entry's text: an entry is three columns from the next one of its
/// lock.
const ENTRY_LETTERS: u64 = 24;

/// The lines of an entry's text before the cells: its place, its worker and number, and its reply.
const RECEIPT_LINES: u64 = 3;

/// The word before the values of the cells.
const CELLS: &str = "cells";

/// A line of an entry's text with values of cells.
#[derive(Clone, Copy)]
struct CellLine {
    /// The number of lines of cells above it.
    above: u64,
    letters: u64,
    /// Whether the cell is the first one in it.
    is_new: bool,
}

impl CellLine {
    /// The line before the first cell.
    fn first() -> CellLine {
        CellLine {
            above: 0,
            letters: CELLS.len() as u64,
            is_new: false,
        }
    }

    /// The line of the next cell: this one if it has room for the value.
    fn with(self, value: u64) -> CellLine {
        let more = digits_of(value).saturating_add(1);
        let letters = self.letters.saturating_add(more);
        if letters <= ENTRY_LETTERS {
            return CellLine {
                above: self.above,
                letters,
                is_new: false,
            };
        }
        CellLine {
            above: self.above.saturating_add(1),
            letters: more,
            is_new: true,
        }
    }
}

/// The number of lines of an entry's text with these cells.
pub fn entry_lines(cells: &Row) -> u64 {
    let mut line = CellLine::first();
    for cell in 0..cells.len() {
        line = line.with(cells.get(cell));
    }
    line.above.saturating_add(RECEIPT_LINES + 1)
}

/// Puts a finished section: a dot on its lock's bar, and the text below.
pub fn put_finish<W: Sink>(
    page: &mut Page,
    writer: &mut W,
    sheet: &Sheet,
    strip: &Strip,
    finish: &Finish,
)
    ensures { SomeTextPut W.contents W.took page.old writer.old page.new writer.new }
{
    let x = sheet.x(strip.column(finish.line));
    let top = sheet.lock(finish.receipt.lock);
    let y = top.saturating_add(BAR + BAR_HEIGHT);
    page.put(
        writer,
        &[
            Text("<circle cx=\""),
            Number(x),
            Text("\" cy=\""),
            Number(y),
            Text("\" r=\"5\" fill=\"#1f5fa8\"/>\n"),
        ],
    );
    let first = Point { x, y: top }.below(WORDS + TEXT_LINE / 2);
    put_receipt(page, writer, first, finish);
    let below = first.below(RECEIPT_LINES * TEXT_LINE);
    put_cells(page, writer, below, &finish.cells);
}

/// Puts the place of a finished section, its worker and number, and its reply.
fn put_receipt<W: Sink>(page: &mut Page, writer: &mut W, first: Point, finish: &Finish)
    ensures { SomeTextPut W.contents W.took page.old writer.old page.new writer.new }
{
    let receipt = finish.receipt;
    let worker = u64::from(receipt.worker);
    let number = u64::from(receipt.number);
    put_line(page, writer, first, "place ", u64::from(receipt.place));
    put_opening(page, writer, first.below(TEXT_LINE));
    page.put(
        writer,
        &[
            Text("worker "),
            Number(worker),
            Text(", job "),
            Number(number),
            Text("</text>\n"),
        ],
    );
    put_line(
        page,
        writer,
        first.below(2 * TEXT_LINE),
        "reply ",
        receipt.reply,
    );
}

/// Puts a line of an entry's text: a word and a number.
fn put_line<W: Sink>(page: &mut Page, writer: &mut W, at: Point, word: &'static str, number: u64)
    ensures { SomeTextPut W.contents W.took page.old writer.old page.new writer.new }
{
    put_opening(page, writer, at);
    page.put(writer, &[Text(word), Number(number), Text("</text>\n")]);
}

/// Begins a line of an entry's text.
fn put_opening<W: Sink>(page: &mut Page, writer: &mut W, at: Point)
    ensures { SomeTextPut W.contents W.took page.old writer.old page.new writer.new }
{
    page.put(
        writer,
        &[
            Text("<text x=\""),
            Number(at.x),
            Text("\" y=\""),
            Number(at.y),
            Text("\" fill=\"#333333\">"),
        ],
    );
}

/// Puts the values of the cells, in as many lines as they need.
fn put_cells<W: Sink>(page: &mut Page, writer: &mut W, first: Point, cells: &Row)
    ensures { SomeTextPut W.contents W.took page.old writer.old page.new writer.new }
{
    put_opening(page, writer, first);
    page.put(writer, &[Text(CELLS)]);
    let mut line = CellLine::first();
    for cell in 0..cells.len() {
        let value = cells.get(cell);
        line = line.with(value);
        let at = first.below(line.above.saturating_mul(TEXT_LINE));
        put_cell(page, writer, at, line.is_new, value);
    }
    page.put(writer, &[Text("</text>\n")]);
}

/// Puts the value of a cell, in a new line if it begins one.
fn put_cell<W: Sink>(page: &mut Page, writer: &mut W, at: Point, is_new: bool, value: u64)
    ensures { SomeTextPut W.contents W.took page.old writer.old page.new writer.new }
{
    if !is_new {
        page.put(writer, &[Text(" "), Number(value)]);
        return;
    }
    page.put(writer, &[Text("</text>\n")]);
    put_opening(page, writer, at);
    page.put(writer, &[Text(" "), Number(value)]);
}
