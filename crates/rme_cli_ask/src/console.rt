//! The output of a command.

use rme_cli_messages::CliFault;
use rme_cli_options::AnswerForm;
use rme_line_io::{Sink, put_all};

/// The standard output and the standard error, and the form of the answers.
#[derive(Drop)]
pub(crate) struct Console<O, E> {
    pub(crate) out: O,
    pub(crate) errors: E,
    pub(crate) form: AnswerForm,
}

impl<O: Sink + Drop, E: Sink + Drop> Console<O, E> {
    ghost use Rattle.std.specs.Prelude.{◌≡◌, ◌++◌, ◌∷◌, [], OnOk, OnErr, IfErr};
    ghost use Rattle.std.specs.Io.KnownBytes.{Appends};
    ghost use Rattle.rme_line_io.specs.BufferedWrites.{WritesPrefix};

    /// Whether the server's lines are printed, and no texts for people.
    pub(crate) fn is_json(&self) -> bool {
        self.form == AnswerForm::Json
    }

    /// Prints a text.
    pub(crate) fn print(&mut self, text: &str) -> Result<(), CliFault>
        ensures whole { OnOk result (Appends (O.contents self.old.out) (O.contents self.new.out) text.now) }
        ensures front { OnErr result (WritesPrefix (O.contents self.old.out) (O.contents self.new.out) text.now) }
        ensures kind { IfErr result (λ fault. fault ≡ CliFault.WriteFailed) }
    {
        put_all(&mut self.out, text.as_bytes())?;
        Ok(())
    }

    /// Prints a line of the server, and a newline.
    pub(crate) fn print_line(&mut self, line: &[u8]) -> Result<(), CliFault>
        ensures { IfErr result (λ fault. fault ≡ CliFault.WriteFailed) }
    {
        put_all(&mut self.out, line)?;
        put_all(&mut self.out, b"\n")?;
        Ok(())
    }

    /// Writes a text to the standard error. A failed write is ignored: the status says it too.
    pub(crate) fn tell(&mut self, text: &str)
        ensures { WritesPrefix (E.contents self.old.errors) (E.contents self.new.errors) text.now }
    {
        let _ = put_all(&mut self.errors, text.as_bytes());
    }
}
