//! The answers to command lines.

ghost use Rattle.std.specs.Prelude.{◌≡◌, ◌++◌, OnOk, string_bytes};
ghost use Rattle.rme_line_text.specs.Replies as spec;

use crate::answer::{
    Acknowledgement, TallyReport, push_acknowledgement, push_history, push_image, push_last,
    push_number, push_owner, push_refusal, push_report, push_row, push_stepped, push_walked,
};
use crate::client_receipt::client_receipt_of;
use crate::walked::Walked;
use rme_history::EntryList;
use rme_line_io::{Image, Names};
use rme_program::{Note, Receipt};
use rme_script::Row;
use rme_words::Refusal;
use std::alloc::AllocError;

/// The answer to a command line, as plain data.
///
/// `History` is the only answer that the reply does not hold: it is as long as the history, and is written directly
/// from it.
#[derive(Drop)]
pub enum Reply {
    /// The order was executed, and there is no more to answer.
    Done(Acknowledgement),
    /// The number that the job will have.
    Handed(u32),
    /// The note of a step.
    Stepped(Note),
    /// The result of a walk.
    Walked(Walked),
    /// The worker that owns the lock, or `None`.
    Owner(Option<u32>),
    /// The cells of the lock, and whether they are settled.
    Cells(Row, bool),
    /// The worker's last receipt, if it has one.
    Last(Option<Receipt>),
    /// All finished sections.
    History,
    /// The greatest number of own steps of one stay in each phase.
    Report(TallyReport),
    /// The bytes of the saved world.
    Image(Image),
    /// The line was refused, and changed nothing.
    Refused(Refusal),
}

/// Appends the answer to a command line, without its newline. The history is that of the open world; only the answer
/// `History` uses it.
///
/// An error means that memory was refused; the text is then of no use.
pub fn push_reply(
    out: &mut String,
    names: &Names,
    history: &EntryList,
    reply: &Reply,
) -> Result<(), AllocError>
    ensures { OnOk result (string_bytes out.new ≡ string_bytes out.old ++ spec.reply_text names.now history.now.entries
        reply.now) }
{
    match reply {
        Reply::Done(done) => push_acknowledgement(out, *done),
        Reply::Handed(number) => push_number(out, *number),
        Reply::Stepped(note) => push_stepped(out, names, *note),
        Reply::Walked(walked) => push_walked(out, names, walked),
        Reply::Owner(owner) => push_owner(out, *owner),
        Reply::Cells(row, settled) => push_row(out, row, *settled),
        Reply::Last(last) => push_last(out, names, client_receipt_of(*last)),
        Reply::History => push_history(out, names, history),
        Reply::Report(report) => push_report(out, *report),
        Reply::Image(image) => push_image(out, image),
        Reply::Refused(refusal) => push_refusal(out, *refusal),
    }
}
