//! Sending the lines of the standard input.

use crate::ask_end::{AskEnd, AskFault};
use crate::dialogue::Dialogue;
use rme_line_io::{Cut, LineReader, Sink, Source};

impl<R: Source + Drop, W: Sink + Drop, O: Sink + Drop, E: Sink + Drop> Dialogue<R, W, O, E> {
    /// Sends each line of an input, and prints its answer before the next one is read.
    pub(crate) fn relay_lines<I: Source + Drop>(&mut self, input: I) -> Result<AskEnd, AskFault> {
        let mut lines = LineReader::new(self.alloc, input)?;
        let mut line = Vec::new(self.alloc);
        loop {
            match lines.next_line(&mut line, &self.console.out)? {
                Cut::End => return Ok(AskEnd::Done),
                Cut::TooLong => {
                    self.console.tell(
                        "rme: a line has more than 65,536 bytes, and no server takes it\n",
                    );
                    return Ok(AskEnd::Failed);
                }
                Cut::Line => {}
            }
            self.talk.exchange(line.as_slice())?;
            self.print_answer()?;
        }
    }
}
