//! The texts of the answers to orders on spaces.

ghost use Rattle.std.specs.Prelude.{◌≡◌, ◌++◌, OnOk, string_bytes};
ghost use Rattle.rme_line_text.specs.Texts.{comma_text, names_text, quoted_text};
ghost use Rattle.rme_space_orders.specs.SpaceReplies as spec;

use crate::space_name::SpaceName;
use std::alloc::AllocError;

/// The answer to an order on spaces that is not refused.
#[derive(Clone, Copy)]
pub enum SpaceReply<'a> {
    Created,
    Used,
    Dropped,
    /// The names of spaces, in order.
    Spaces {
        names: &'a [SpaceName],
        /// Whether there are further spaces after these.
        more: bool,
    },
}

/// Appends the line of an answer, with its newline.
///
/// An error means that memory was refused; the text is then of no use.
pub fn push_space_reply(text: &mut String, reply: SpaceReply<'_>) -> Result<(), AllocError>
    ensures { OnOk result (string_bytes text.new ≡ string_bytes text.old ++ spec.space_reply_text reply.entry) }
{
    match reply {
        SpaceReply::Created => text.push_str("{\"ok\":\"create\"}\n"),
        SpaceReply::Used => text.push_str("{\"ok\":\"use\"}\n"),
        SpaceReply::Dropped => text.push_str("{\"ok\":\"drop\"}\n"),
        SpaceReply::Spaces { names, more } => push_spaces(text, names, more),
    }
}

fn push_spaces(text: &mut String, names: &[SpaceName], more: bool) -> Result<(), AllocError>
    ensures { OnOk result (string_bytes text.new ≡ string_bytes text.old ++ spec.spaces_text names.now more) }
{
    push_spaces_front(text, more)?;
    push_space_names(text, names)?;
    text.push_str("]}\n")
}

fn push_spaces_front(text: &mut String, more: bool) -> Result<(), AllocError>
    ensures { OnOk result (string_bytes text.new ≡ string_bytes text.old ++ spec.spaces_front more) }
{
    write!(text, "{{\"more\":{more},\"ok\":\"spaces\",\"spaces\":[")
}

/// Appends names, separated by commas.
fn push_space_names(text: &mut String, names: &[SpaceName]) -> Result<(), AllocError>
    ensures { OnOk result (string_bytes text.new ≡ string_bytes text.old ++ names_text names.now) }
{
    let mut later = false;
    for name in names {
        push_comma(text, later)?;
        push_quoted(text, name.as_str())?;
        later = true;
    }
    Ok(())
}

/// Appends a comma if other items came earlier.
fn push_comma(text: &mut String, later: bool) -> Result<(), AllocError>
    ensures { OnOk result (string_bytes text.new ≡ string_bytes text.old ++ comma_text later) }
{
    if later { text.push_str(",") } else { Ok(()) }
}

/// Appends a name in quotes. It needs no escape.
fn push_quoted(text: &mut String, name: &str) -> Result<(), AllocError>
    ensures { OnOk result (string_bytes text.new ≡ string_bytes text.old ++ quoted_text name.now) }
{
    write!(text, "\"{name}\"")
}
