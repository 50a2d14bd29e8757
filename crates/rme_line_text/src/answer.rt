//! The texts of single answers, without their newline.

ghost use Rattle.std.specs.Prelude.{◌≡◌, ◌++◌, OnOk, option_map, string_bytes, slice_index};
ghost use Rattle.rme_line_text.specs.Texts as text;
ghost use Rattle.rme_line_text.specs.Replies as spec;
ghost use Rattle.rme_line_text.specs.ClientReceipts.{as_receipt};

use crate::client_receipt::ClientReceipt;
use crate::texts::{push_cells, push_entries, push_note, push_notes, push_receipt};
use crate::walked::Walked;
use rme_history::EntryList;
use rme_line_io::{Image, Names};
use rme_program::Note;
use rme_script::Row;
use rme_words::Refusal;
use std::alloc::AllocError;

/// An order whose answer is only its own word.
#[derive(Clone, Copy)]
pub enum Acknowledgement {
    Open,
    Load,
    Crash,
    Restart,
    Withdraw,
}

/// Appends the answer of an order that is only its word, as `{"ok":"crash"}`.
pub fn push_acknowledgement(out: &mut String, done: Acknowledgement) -> Result<(), AllocError>
    ensures { OnOk result (string_bytes out.new ≡ string_bytes out.old ++ spec.acknowledgement_text done) }
{
    match done {
        Acknowledgement::Open => out.push_str("{\"ok\":\"open\"}"),
        Acknowledgement::Load => out.push_str("{\"ok\":\"load\"}"),
        Acknowledgement::Crash => out.push_str("{\"ok\":\"crash\"}"),
        Acknowledgement::Restart => out.push_str("{\"ok\":\"restart\"}"),
        Acknowledgement::Withdraw => out.push_str("{\"ok\":\"withdraw\"}"),
    }
}

/// Appends the answer of `submit`.
pub fn push_number(out: &mut String, number: u32) -> Result<(), AllocError>
    ensures { OnOk result (string_bytes out.new ≡ string_bytes out.old ++ spec.number_text number) }
{
    write!(out, "{{\"number\":{number},\"ok\":\"submit\"}}")
}

/// Appends the answer of `step`.
pub fn push_stepped(out: &mut String, names: &Names, note: Note) -> Result<(), AllocError>
    ensures { OnOk result (string_bytes out.new ≡ string_bytes out.old ++ spec.stepped_text names.now note) }
{
    out.push_str("{\"note\":")?;
    push_note(out, names, note)?;
    out.push_str(",\"ok\":\"step\"}")?;
    Ok(())
}

/// Appends the answer of `walk`.
pub fn push_walked(out: &mut String, names: &Names, walked: &Walked) -> Result<(), AllocError>
    ensures { OnOk result (string_bytes out.new ≡ string_bytes out.old ++ spec.walked_text names.now walked.now.end
        walked.now.notes) }
{
    push_walk_front(out, walked.end.word())?;
    push_notes(out, names, walked.notes.as_slice())?;
    out.push_str("],\"ok\":\"walk\"}")?;
    Ok(())
}

/// Appends the text of a walk's answer before its notes.
fn push_walk_front(out: &mut String, end: &str) -> Result<(), AllocError>
    ensures { OnOk result (string_bytes out.new ≡ string_bytes out.old ++ spec.walk_front end.now) }
{
    write!(out, "{{\"end\":\"{end}\",\"notes\":[")
}

/// Appends the answer of `owner`.
pub fn push_owner(out: &mut String, owner: Option<u32>) -> Result<(), AllocError>
    ensures { OnOk result (string_bytes out.new ≡ string_bytes out.old ++ spec.owner_text owner) }
{
    match owner {
        Some(worker) => write!(out, "{{\"ok\":\"owner\",\"owner\":{worker}}}"),
        None => out.push_str("{\"ok\":\"owner\",\"owner\":null}"),
    }
}

/// Appends the answer of `cells`.
pub fn push_row(out: &mut String, row: &Row, settled: bool) -> Result<(), AllocError>
    ensures { OnOk result (string_bytes out.new ≡ string_bytes out.old ++ spec.row_text row.now settled) }
{
    out.push_str("{\"cells\":[")?;
    push_cells(out, row)?;
    push_settled(out, settled)?;
    Ok(())
}

fn push_settled(out: &mut String, settled: bool) -> Result<(), AllocError>
    ensures { OnOk result (string_bytes out.new ≡ string_bytes out.old ++ spec.settled_text settled) }
{
    if settled {
        return out.push_str("],\"ok\":\"cells\",\"settled\":true}");
    }
    out.push_str("],\"ok\":\"cells\",\"settled\":false}")
}

/// Appends the answer of `last`. An error means that memory was refused; the text is then of no use.
pub fn push_last(
    out: &mut String,
    names: &Names,
    last: Option<ClientReceipt>,
) -> Result<(), AllocError>
    ensures { OnOk result (string_bytes out.new ≡ string_bytes out.old ++ spec.last_text names.now
        (option_map as_receipt last)) }
{
    match last {
        Some(receipt) => push_last_receipt(out, names, receipt),
        None => out.push_str("{\"last\":null,\"ok\":\"last\"}"),
    }
}

fn push_last_receipt(
    out: &mut String,
    names: &Names,
    receipt: ClientReceipt,
) -> Result<(), AllocError>
    ensures { OnOk result (string_bytes out.new ≡ string_bytes out.old ++ spec.last_receipt_text names.now
        (as_receipt receipt)) }
{
    out.push_str("{\"last\":")?;
    push_receipt(out, names, receipt)?;
    out.push_str(",\"ok\":\"last\"}")?;
    Ok(())
}

/// Appends the answer of `history`.
pub fn push_history(out: &mut String, names: &Names, entries: &EntryList) -> Result<(), AllocError>
    ensures { OnOk result (string_bytes out.new ≡ string_bytes out.old ++ spec.history_text names.now
        entries.now.entries) }
{
    out.push_str("{\"entries\":[")?;
    push_entries(out, names, entries)?;
    out.push_str("],\"ok\":\"history\"}")?;
    Ok(())
}

/// For each phase with steps, the greatest number of own steps of one stay in it.
#[derive(Clone, Copy)]
pub struct TallyReport {
    pub recover: u32,
    pub post: u32,
    pub enter: u32,
    pub section: u32,
    pub exit: u32,
}

/// Appends the answer of `report`.
pub fn push_report(out: &mut String, report: TallyReport) -> Result<(), AllocError>
    ensures { OnOk result (string_bytes out.new ≡ string_bytes out.old ++ spec.report_text report) }
{
    let TallyReport {
        recover,
        post,
        enter,
        section,
        exit,
    } = report;
    write!(
        out,
        "{{\"enter\":{enter},\"exit\":{exit},\"ok\":\"report\",\"post\":{post},\"recover\":{recover},\"section\":{section}}}"
    )
}

/// Appends the answer of `save`.
pub fn push_image(out: &mut String, image: &Image) -> Result<(), AllocError>
    ensures { OnOk result (string_bytes out.new ≡ string_bytes out.old ++ spec.image_text image.now) }
{
    let digits = hex::encode(*out.allocator(), image.as_slice())?;
    write!(out, "{{\"image\":\"{digits}\",\"ok\":\"save\"}}")
}

/// Appends the answer of a refused line. An error means that memory was refused; the text is then of no use.
pub fn push_refusal(out: &mut String, refusal: Refusal) -> Result<(), AllocError>
    ensures { OnOk result (string_bytes out.new ≡ string_bytes out.old ++ spec.refusal_text refusal) }
{
    match refusal {
        Refusal::WrongNumber(expected) => write!(
            out,
            "{{\"code\":16,\"error\":\"WrongNumber\",\"expected\":{expected}}}"
        ),
        other => push_plain_refusal(out, other.code(), other.name()),
    }
}

fn push_plain_refusal(out: &mut String, code: u32, name: &str) -> Result<(), AllocError>
    ensures { OnOk result (string_bytes out.new ≡ string_bytes out.old ++ spec.plain_refusal_text code name.now) }
{
    write!(out, "{{\"code\":{code},\"error\":\"{name}\"}}")
}
