//! The texts of answers: compact JSON with sorted keys.

ghost use Rattle.std.specs.Prelude.{◌≡◌, ◌++◌, OnOk, codes, decimal, string_bytes};
ghost use Rattle.rme_line_text.specs.Texts as spec;
ghost use Rattle.rme_line_text.specs.ClientReceipts.{as_receipt};

use crate::client_receipt::ClientReceipt;
use itoa::Buffer;
use rme_history::EntryList;
use rme_line_io::Names;
use rme_program::{Entry, Note, Receipt};
use rme_script::{Op, Row, Script};
use std::alloc::AllocError;

/// The name of a lock; the empty text for a number of no lock.
pub fn lock_name(names: &Names, lock: u32) -> &str
    ensures { result.now ≡ spec.lock_name names.now lock }
{
    if lock < names.len() {
        names.name(lock)
    } else {
        ""
    }
}

/// Appends a note, as `["asked",1]`.
pub fn push_note(out: &mut String, names: &Names, note: Note) -> Result<(), AllocError>
    ensures { OnOk result (string_bytes out.new ≡ string_bytes out.old ++ spec.note_text names.now note) }
{
    match note {
        Note::Quiet => out.push_str("[\"quiet\"]"),
        Note::Asked(number) => write!(out, "[\"asked\",{number}]"),
        Note::Blocked => out.push_str("[\"blocked\"]"),
        Note::Entered(lock) => push_lock_note(out, "entered", lock_name(names, lock)),
        Note::Reentered(lock) => push_lock_note(out, "reentered", lock_name(names, lock)),
        Note::Finished(receipt) => push_finished(out, names, receipt),
        Note::Left(lock) => push_lock_note(out, "left", lock_name(names, lock)),
        Note::Ready => out.push_str("[\"ready\"]"),
        Note::Withdrew(number) => write!(out, "[\"withdrew\",{number}]"),
    }
}

fn push_lock_note(out: &mut String, word: &str, name: &str) -> Result<(), AllocError>
    ensures { OnOk result (string_bytes out.new ≡ string_bytes out.old ++ spec.lock_note_text word.now name.now) }
{
    write!(out, "[\"{word}\",\"{name}\"]")
}

fn push_finished(out: &mut String, names: &Names, receipt: Receipt) -> Result<(), AllocError>
    ensures { OnOk result (string_bytes out.new ≡ string_bytes out.old ++ spec.finished_text names.now receipt) }
{
    let name = lock_name(names, receipt.lock);
    let Receipt {
        worker: _,
        lock: _,
        number,
        place,
        reply,
    } = receipt;
    write!(out, "[\"finished\",\"{name}\",{number},{place},{reply}]")
}

/// Appends a receipt, as `{"lock":"bank","number":1,"place":0,"reply":5,"worker":0}`. An error means that memory was
/// refused; the text is then of no use.
pub fn push_receipt(
    out: &mut String,
    names: &Names,
    receipt: ClientReceipt,
) -> Result<(), AllocError>
    ensures { OnOk result (string_bytes out.new ≡ string_bytes out.old ++ spec.receipt_text names.now
        (as_receipt receipt)) }
{
    push_lock(out, lock_name(names, receipt.lock))?;
    push_then(out, "\",\"number\":", receipt.number)?;
    push_then(out, ",\"place\":", receipt.place)?;
    push_then(out, ",\"reply\":", receipt.reply)?;
    push_receipt_end(out, receipt.worker)?;
    Ok(())
}

/// Appends the text of a receipt up to the end of its lock's name.
fn push_lock(out: &mut String, name: &str) -> Result<(), AllocError>
    ensures { OnOk result (string_bytes out.new ≡ string_bytes out.old ++ (codes "{\"lock\":\"" ++ name.now)) }
{
    out.push_str("{\"lock\":\"")?;
    out.push_str(name)
}

/// Appends a text, followed by a number.
fn push_then(out: &mut String, text: &str, number: u64) -> Result<(), AllocError>
    ensures { OnOk result (string_bytes out.new ≡ string_bytes out.old ++ (text.now ++ decimal number)) }
{
    out.push_str(text)?;
    push_number(out, number)
}

/// Appends the text of a receipt after its reply.
fn push_receipt_end(out: &mut String, worker: u32) -> Result<(), AllocError>
    ensures { OnOk result (string_bytes out.new ≡ string_bytes out.old ++
        (codes ",\"worker\":" ++ (decimal worker ++ codes "}"))) }
{
    push_then(out, ",\"worker\":", u64::from(worker))?;
    out.push_str("}")
}

/// Appends a comma if other items came earlier.
fn push_comma(out: &mut String, later: bool) -> Result<(), AllocError>
    ensures { OnOk result (string_bytes out.new ≡ string_bytes out.old ++ spec.comma_text later) }
{
    if later { out.push_str(",") } else { Ok(()) }
}

fn push_number(out: &mut String, number: u64) -> Result<(), AllocError>
    ensures { OnOk result (string_bytes out.new ≡ string_bytes out.old ++ decimal number) }
{
    out.push_str(Buffer::new().format(number))
}

/// Appends an operation, as `["add",0,5]`.
fn push_op(out: &mut String, op: Op) -> Result<(), AllocError>
    ensures { OnOk result (string_bytes out.new ≡ string_bytes out.old ++ spec.op_text op) }
{
    match op {
        Op::Get(cell) => write!(out, "[\"get\",{cell}]"),
        Op::Set(cell, value) => write!(out, "[\"set\",{cell},{value}]"),
        Op::Add(cell, value) => write!(out, "[\"add\",{cell},{value}]"),
        Op::Copy(from, to) => write!(out, "[\"copy\",{from},{to}]"),
        Op::Swap(first, second) => write!(out, "[\"swap\",{first},{second}]"),
    }
}

/// Appends the operations of a script, separated by commas.
pub fn push_ops(out: &mut String, script: &Script) -> Result<(), AllocError>
    ensures { OnOk result (string_bytes out.new ≡ string_bytes out.old ++ spec.ops_text script.now.ops) }
{
    let mut later = false;
    for index in 0..script.n().min(8) {
        push_comma(out, later)?;
        push_op(out, script.op(index))?;
        later = true;
    }
    Ok(())
}

/// Appends the text of an entry before its script's operations.
fn push_entry_front(out: &mut String, name: &str, receipt: Receipt) -> Result<(), AllocError>
    ensures { OnOk result (string_bytes out.new ≡ string_bytes out.old ++ spec.entry_front name.now receipt) }
{
    let Receipt {
        worker: _,
        lock: _,
        number,
        place,
        reply,
    } = receipt;
    write!(
        out,
        "{{\"lock\":\"{name}\",\"number\":{number},\"place\":{place},\"reply\":{reply},\"script\":["
    )
}

/// Appends the text of an entry, or of a submission, after its script's operations.
pub fn push_script_end(out: &mut String, worker: u32) -> Result<(), AllocError>
    ensures { OnOk result (string_bytes out.new ≡ string_bytes out.old ++ spec.script_end worker) }
{
    write!(out, "],\"worker\":{worker}}}")
}

/// Appends an entry: a receipt with the further key `script`.
fn push_entry(out: &mut String, names: &Names, entry: &Entry) -> Result<(), AllocError>
    ensures { OnOk result (string_bytes out.new ≡ string_bytes out.old ++ spec.entry_text names.now entry.now) }
{
    push_entry_front(out, lock_name(names, entry.receipt.lock), entry.receipt)?;
    push_ops(out, &entry.script)?;
    push_script_end(out, entry.receipt.worker)?;
    Ok(())
}

/// Appends entries, separated by commas.
pub fn push_entries(out: &mut String, names: &Names, entries: &EntryList) -> Result<(), AllocError>
    ensures { OnOk result (string_bytes out.new ≡ string_bytes out.old ++ spec.entries_text names.now
        entries.now.entries) }
{
    let mut later = false;
    for i in 0..entries.len() {
        let Some(entry) = entries.get(i) else {
            unreachable!();
        };
        push_comma(out, later)?;
        push_entry(out, names, &entry)?;
        later = true;
    }
    Ok(())
}

/// Appends notes, separated by commas.
pub fn push_notes(out: &mut String, names: &Names, notes: &[Note]) -> Result<(), AllocError>
    ensures { OnOk result (string_bytes out.new ≡ string_bytes out.old ++ spec.notes_text names.now notes.now) }
{
    let mut later = false;
    for note in notes {
        push_comma(out, later)?;
        push_note(out, names, *note)?;
        later = true;
    }
    Ok(())
}

/// Appends a text that needs no escape, in quotes.
fn push_quoted(out: &mut String, text: &str) -> Result<(), AllocError>
    ensures { OnOk result (string_bytes out.new ≡ string_bytes out.old ++ spec.quoted_text text.now) }
{
    write!(out, "\"{text}\"")
}

/// Appends the names of locks, separated by commas.
pub fn push_names(out: &mut String, names: &Names) -> Result<(), AllocError>
    ensures { OnOk result (string_bytes out.new ≡ string_bytes out.old ++ spec.names_text names.now) }
{
    let mut later = false;
    for number in 0..names.len() {
        push_comma(out, later)?;
        push_quoted(out, names.name(number))?;
        later = true;
    }
    Ok(())
}

/// Appends the cells of a row, separated by commas.
pub fn push_cells(out: &mut String, row: &Row) -> Result<(), AllocError>
    ensures { OnOk result (string_bytes out.new ≡ string_bytes out.old ++ spec.cells_text row.now) }
{
    let mut later = false;
    for index in 0..row.len() {
        push_comma(out, later)?;
        push_number(out, row.get(index))?;
        later = true;
    }
    Ok(())
}
