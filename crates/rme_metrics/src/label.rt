//! Counts with a label.

ghost use Rattle.std.specs.Prelude.{◌≡◌, ◌++◌, OnOk, string_bytes};
ghost use Rattle.rme_metrics.specs.Labels.{escaped_label, escaped_letter};

use std::alloc::AllocError;

/// A count, and the value of its label.
#[derive(Clone, Copy)]
pub struct LabelledCount<'a> {
    pub label: &'a str,
    pub count: u64,
}

/// Appends the value of a label. A backslash, a quote and a newline in it are escaped.
pub(crate) fn push_label(out: &mut String, label: &str) -> Result<(), AllocError>
    ensures { OnOk result (string_bytes out.new ≡ string_bytes out.old ++ escaped_label label.now) }
{
    for letter in label.chars() {
        push_escaped(out, letter)?;
    }
    Ok(())
}

/// Appends a character of a label.
fn push_escaped(out: &mut String, letter: char) -> Result<(), AllocError>
    ensures { OnOk result (string_bytes out.new ≡ string_bytes out.old ++ escaped_letter letter) }
{
    match letter {
        '\\' => out.push_str("\\\\"),
        '"' => out.push_str("\\\""),
        '\n' => out.push_str("\\n"),
        _ => out.push(letter),
    }
}
