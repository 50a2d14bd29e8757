//! A conversation with a server: a line is sent, and a line is received.

use crate::answer::{ServerAnswer, read_answer};
use crate::client_error::ClientError;
use crate::request::{ClientRequest, push_request};
use rme_line_io::{Cut, LineReader, Sink, Source, put_all};
use std::alloc::{AllocError, Global};

/// A session's two streams, and the last line that was received.
#[derive(Drop)]
pub struct Conversation<R, W> {
    alloc: Global,
    lines: LineReader<R>,
    writer: W,
    line: Vec<u8>,
}

impl<R: Source + Drop, W: Sink + Drop> Conversation<R, W> {
    ghost use Rattle.std.specs.Prelude.{◌≡◌, ◌++◌, ◌∷◌, [], IfOk, OnOk, OnErr};
    ghost use Rattle.std.specs.Io.KnownBytes.{Appends, Keeps};
    ghost use Rattle.rme_line_io.specs.BufferedWrites.{WritesPrefix};
    ghost use Rattle.rme_ask_client.specs.Conversations.{AnswerReceived, LineReceived, last_line, sent_bytes, unread_answer_bytes};
    ghost use Rattle.rme_ask_client.specs.RequestTexts.{request_text, request_word};

    /// A conversation in which nothing was sent yet, over the reader and the writer of a connection.
    pub fn new(alloc: Global, reader: R, writer: W) -> Result<Conversation<R, W>, AllocError>
        ensures sent { IfOk result (λ talk. sent_bytes W.contents talk ≡ W.contents writer) }
        ensures unread { IfOk result (λ talk. Keeps (R.remaining reader) (unread_answer_bytes R.remaining talk)) }
    {
        Ok(Conversation {
            alloc,
            lines: LineReader::new(alloc, reader)?,
            writer,
            line: Vec::new(alloc),
        })
    }

    /// Sends a line, to which a newline is added, and receives the next line of the server.
    ///
    /// After an error a part of the line was sent, or all of it, and its answer may still come.
    pub fn exchange(&mut self, line: &[u8]) -> Result<(), ClientError>
        ensures sent { OnOk result (Appends (sent_bytes W.contents self.old) (sent_bytes W.contents self.new)
            (line.now ++ 10 ∷ [])) }
        ensures front { OnErr result (WritesPrefix (sent_bytes W.contents self.old) (sent_bytes W.contents self.new)
            (line.now ++ 10 ∷ [])) }
        ensures received { OnOk result (LineReceived R.remaining self.old self.new) }
    {
        self.line.clear();
        self.line.extend_from_slice(line)?;
        self.line.push(b'\n')?;
        if put_all(&mut self.writer, self.line.as_slice()).is_err() {
            return Err(ClientError::NotSent);
        }
        match self.lines.next_line(&mut self.line, &self.writer) {
            Ok(Cut::Line) => Ok(()),
            Ok(Cut::TooLong) => Err(ClientError::TooLong),
            Ok(Cut::End) => Err(ClientError::Ended),
            Err(fault) => Err(ClientError::of_reading(fault)),
        }
    }

    /// Sends a request, and receives its answer.
    pub fn ask(&mut self, request: ClientRequest<'_>) -> Result<ServerAnswer, ClientError>
        ensures sent { OnOk result (Appends (sent_bytes W.contents self.old) (sent_bytes W.contents self.new)
            (request_text request.entry ++ 10 ∷ [])) }
        ensures received { OnOk result (LineReceived R.remaining self.old self.new) }
        ensures answer { IfOk result (AnswerReceived (request_word request.entry) (last_line self.new)) }
    {
        let mut text = String::new(self.alloc);
        push_request(&mut text, self.alloc, request)?;
        self.exchange(text.as_bytes())?;
        read_answer(self.alloc, self.line.as_slice(), request.word())
    }

    /// The last line that was received, without its newline.
    pub fn answer_line(&self) -> &[u8]
        ensures { result.now ≡ last_line self.now }
    {
        self.line.as_slice()
    }
}
