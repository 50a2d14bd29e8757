//! The buffers of a session: the line that it reads, and the text of its answer.

ghost use Rattle.std.specs.Prelude.{◌≡◌, ◌++◌, OnOk, string_bytes};
ghost use Rattle.rme_session_protocol.specs.SessionLines.{choice_reply_line, session_reply_line};
ghost use Rattle.rme_session_protocol.specs.ClientReplies.{reply_of_client};

use crate::attempt_error::AnswerError;
use rme_session_protocol::{
    ChoiceRequest, ClientReply, Order, SessionReply, parse_order, parse_worker_choice,
    push_choice_reply, push_session_reply,
};
use rme_wire::{Cut, Exchange, Names, ValueReader};
use rme_words::{NoMemory, Refusal};
use std::alloc::{AllocError, Global};

/// The first capacity of the text, in bytes: room for the answer to most orders.
const USUAL_ROOM: usize = 256;

/// The last line of a session and how it was cut, its buffered answers, and the text of the answer to the last line.
#[derive(Drop)]
pub struct Buffers {
    pub exchange: Exchange,
    pub cut: Cut,
    pub text: String,
    values: ValueReader,
}

impl Buffers {
    ghost use Rattle.std.specs.Prelude.{◌≡◌, [], IfOk, IfErr, OnOk, string_bytes};
    ghost use Rattle.rme_line_io.specs.Cuts.{input_line_of};
    ghost use Rattle.rme_session_protocol.specs.SessionLines.{choice_reply_line, session_reply_line};
    ghost use Rattle.rme_session_protocol.specs.WorkerChoices.{choice_of_bytes};
    ghost use Rattle.rme_session_loop.specs.SessionAnswers.{parsed_order};
    ghost use Rattle.rme_session_protocol.specs.ClientReplies.{reply_of_client};

    /// Buffers without a line and without buffered answers.
    pub(crate) fn new(alloc: Global) -> Result<Buffers, AllocError>
        ensures { IfOk result (λ buffers. buffers.exchange.pending ≡ []) }
    {
        Ok(Buffers {
            text: String::with_capacity(alloc, USUAL_ROOM)?,
            exchange: Exchange::new(alloc)?,
            cut: Cut::End,
            values: ValueReader::new(alloc),
        })
    }

    /// Parses the last line to its order, or to the refusal that answers it. A job's number is at most `most`.
    pub fn parse_order(
        &mut self,
        names: &Names,
        most: u64,
    ) -> Result<Result<Order, Refusal>, NoMemory>
        ensures asked { IfOk result (λ asked. asked ≡ parsed_order names.now most
            (input_line_of self.old.cut self.old.exchange.line.items)) }
        ensures same { self.new.exchange ≡ self.old.exchange }
    {
        if self.cut == Cut::TooLong {
            return Ok(Err(Refusal::LineTooLong));
        }
        let Ok(order) = parse_order(&mut self.values, names, most, self.exchange.line()) else {
            return Err(NoMemory);
        };
        let Some(order) = order else {
            return Ok(Err(Refusal::BadLine));
        };
        Ok(Ok(order))
    }

    /// The choice of a worker that the last line leaves to the server; `None` if it leaves none.
    pub fn parse_worker_choice(&mut self) -> Result<Option<ChoiceRequest>, NoMemory>
        ensures choice { IfOk result (λ choice. choice ≡ choice_of_bytes self.old.exchange.line.items) }
        ensures same { self.new.exchange ≡ self.old.exchange }
    {
        parse_worker_choice(&mut self.values, self.exchange.line())
    }

    /// Replaces the text by a reply and a newline. After an error the text is unspecified.
    pub fn write_reply(&mut self, names: &Names, reply: SessionReply) -> Result<(), AnswerError>
        ensures says { OnOk result (string_bytes self.new.text ≡ session_reply_line names.now reply) }
        ensures err { IfErr result (λ fault. fault ≡ AnswerError.NoMemory) }
        ensures same { self.new.exchange ≡ self.old.exchange }
    {
        self.write_client_reply(names, ClientReply::from(reply))
    }

    /// Replaces the text by a client's reply and a newline. After an error the text is unspecified.
    pub fn write_client_reply(
        &mut self,
        names: &Names,
        told: ClientReply,
    ) -> Result<(), AnswerError>
        ensures says { OnOk result (string_bytes self.new.text ≡ session_reply_line names.now (reply_of_client told)) }
        ensures err { IfErr result (λ fault. fault ≡ AnswerError.NoMemory) }
        ensures same { self.new.exchange ≡ self.old.exchange }
    {
        self.text.clear();
        match push_client_reply(&mut self.text, names, told) {
            Ok(()) => Ok(()),
            Err(_) => Err(AnswerError::NoMemory),
        }
    }

    /// Replaces the text by the reply to the attachment of this worker, which the server chose, and a newline. After an
    /// error the text is unspecified.
    pub fn write_choice_reply(
        &mut self,
        names: &Names,
        worker: u32,
        told: ClientReply,
    ) -> Result<(), AnswerError>
        ensures says { OnOk result (string_bytes self.new.text ≡ choice_reply_line names.now worker
            (reply_of_client told)) }
        ensures err { IfErr result (λ fault. fault ≡ AnswerError.NoMemory) }
        ensures same { self.new.exchange ≡ self.old.exchange }
    {
        self.text.clear();
        match push_choice_line(&mut self.text, names, worker, told) {
            Ok(()) => Ok(()),
            Err(_) => Err(AnswerError::NoMemory),
        }
    }
}

/// Appends the reply to the attachment of a worker that the server chose, and a newline.
fn push_choice_line(
    text: &mut String,
    names: &Names,
    worker: u32,
    told: ClientReply,
) -> Result<(), AllocError>
    ensures { OnOk result (string_bytes text.new ≡ string_bytes text.old ++ choice_reply_line names.now worker
        (reply_of_client told)) }
{
    push_choice_reply(text, names, worker, told)?;
    text.push_str("\n")
}

/// Appends a reply and a newline. After an error the text is unspecified.
pub fn push_reply_line(
    text: &mut String,
    names: &Names,
    reply: SessionReply,
) -> Result<(), AllocError>
    ensures { OnOk result (string_bytes text.new ≡ string_bytes text.old ++ session_reply_line names.now reply) }
{
    push_client_reply(text, names, ClientReply::from(reply))
}

/// Appends a client's reply and a newline.
fn push_client_reply(text: &mut String, names: &Names, told: ClientReply) -> Result<(), AllocError>
    ensures { OnOk result (string_bytes text.new ≡ string_bytes text.old ++ session_reply_line names.now
        (reply_of_client told)) }
{
    push_session_reply(text, names, told)?;
    text.push_str("\n")
}
