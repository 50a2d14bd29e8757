//! The line of a command.

ghost use Rattle.std.specs.Prelude.{◌≡◌, ◌≤◌, ◌++◌, ◌∷◌, ◌↔◌, [], IfErr, IsTrue, OnOk, length, string_bytes, true};
ghost use Rattle.std.specs.List.{list_all};
ghost use Rattle.rme_durable_format.specs.CommandLines.{is_no_newline};
ghost use Rattle.rme_durable_format.specs.declared.fault.LineFault.TheVariants as LineFault;

use crate::command_text::push_text;
use crate::fault::LineFault;
use crate::requests::is_request_for;
use rme_wire::{Command, Names, ValueReader, request_of};
use std::alloc::Global;

/// The greatest length of a line in bytes, without its newline.
const LINE_LIMIT: usize = 65_536;

/// Writes the lines of commands. It reuses its memory for each line.
///
/// Each line is written and then parsed as recovery will parse it. So the proof that a line asks for its command does
/// not depend on how the line is written.
#[derive(Drop)]
pub struct CommandWriter {
    alloc: Global,
    values: ValueReader,
    line: String,
}

impl CommandWriter {
    ghost use Rattle.std.specs.Prelude.{◌≡◌, IfErr, OnOk, string_bytes};
    ghost use Rattle.rme_durable_format.specs.CommandLines.{AppendsCommand};
    ghost use Rattle.rme_durable_format.specs.CommandTexts.{HasNoLine};
    ghost use Rattle.rme_durable_format.specs.declared.fault.LineFault.TheVariants as LineFault;

    /// A writer; it takes its memory with the first line.
    pub fn new(alloc: Global) -> CommandWriter {
        CommandWriter {
            alloc,
            values: ValueReader::new(alloc),
            line: String::new(alloc),
        }
    }

    /// Appends the line of a command that changes a world, and its newline.
    ///
    /// After an error the text is of no use. `NoLine` for a command that does not change a world, and for a submission
    /// whose lock has no name or whose script does not fit a line.
    pub fn push(
        &mut self,
        out: &mut String,
        names: &Names,
        command: Command,
    ) -> Result<(), LineFault>
        ensures written { OnOk result (AppendsCommand names.now (string_bytes out.old) command
            (string_bytes out.new)) }
        ensures none { IfErr result (λ why. why ≡ LineFault.NoLine → HasNoLine names.now command) }
    {
        self.line.clear();
        push_text(&mut self.line, names, &command)?;
        if !is_line(self.line.as_bytes()) {
            return Err(LineFault::NoLine);
        }
        let line = self.line.as_bytes();
        let Ok(asked) = request_of(self.alloc, &mut self.values, names, line) else {
            return Err(LineFault::NoMemory);
        };
        if !is_request_for(&asked, command) {
            return Err(LineFault::NoLine);
        }
        push_whole(out, self.line.as_str())
    }
}

/// Whether these bytes may be a line.
fn is_line(bytes: &[u8]) -> bool
    ensures { IsTrue result ↔ ((list_all is_no_newline bytes.now ≡ true) × (length bytes.now ≤ 65536)) }
{
    bytes.len() <= LINE_LIMIT && are_no_newlines(bytes)
}

/// Whether no byte is a newline.
fn are_no_newlines(bytes: &[u8]) -> bool
    ensures { result ≡ list_all is_no_newline bytes.now }
{
    bytes.iter().all(|byte| is_no_newline(*byte))
}

fn is_no_newline(byte: u8) -> bool
    ensures { result ≡ is_no_newline byte }
{
    byte != b'\n'
}

/// Appends a text and a newline.
fn push_whole(out: &mut String, text: &str) -> Result<(), LineFault>
    ensures grown { OnOk result (string_bytes out.new ≡ string_bytes out.old ++ (text.now ++ 10 ∷ [])) }
    ensures err { IfErr result (λ why. why ≡ LineFault.NoMemory) }
{
    out.push_str(text)?;
    out.push_str("\n")?;
    Ok(())
}
