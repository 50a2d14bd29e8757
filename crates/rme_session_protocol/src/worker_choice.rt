//! A session that leaves it to the server which worker it attaches: the line that asks for it, and the answer.

ghost use Rattle.std.specs.Prelude.{◌≡◌, ◌++◌, IfOk, OnOk, option_and_then, string_bytes};
ghost use Rattle.rme_line_json.specs.View.{value_view};
ghost use Rattle.rme_session_protocol.specs.ClientReplies.{reply_of_client};
ghost use Rattle.rme_session_protocol.specs.WorkerChoices as spec;

use crate::client_label::ClientLabel;
use crate::client_reply::ClientReply;
use crate::order::as_of;
use crate::reply::{SessionStance, push_session_reply};
use rme_wire::{Names, Value, ValueReader, ValueStorage, do_member};
use rme_words::NoMemory;
use std::alloc::AllocError;

/// Which of the workers that no session has is asked for: always the lowest one of these.
#[derive(Clone, Copy, Debug, PartialEq, Eq)]
pub enum WorkerChoice {
    /// One whose job is pending.
    Pending,
    /// One that has no pending job.
    Ready,
}

impl WorkerChoice {
    ghost use Rattle.std.specs.Prelude.{◌≡◌};
    ghost use Rattle.rme_session_protocol.specs.WorkerChoices.{is_chosen};

    /// Whether a worker that no session has is one of these, by whether it has a pending job.
    pub fn is_chosen(self, is_pending: bool) -> bool
        ensures { result ≡ is_chosen self is_pending }
    {
        match self {
            WorkerChoice::Pending => is_pending,
            WorkerChoice::Ready => !is_pending,
        }
    }
}

/// A request for a worker of the server's choice.
#[derive(Clone, Copy, PartialEq, Eq)]
pub struct ChoiceRequest {
    pub choice: WorkerChoice,
    /// The label of the client, as an attachment may have it.
    pub label: Option<ClientLabel>,
}

/// The choice that a line leaves to the server, or `None` if it is no such line. `NoMemory` if memory for the line's
/// value was refused.
#[tactic(auto, unfolding(crate::specs::WorkerChoices::choice_of_bytes))]
pub fn parse_worker_choice(
    values: &mut ValueReader,
    line: &[u8],
) -> Result<Option<ChoiceRequest>, NoMemory>
    ensures { IfOk result (λ choice. choice ≡ spec.choice_of_bytes line.now) }
{
    let mut room = ValueStorage::new();
    match values.read(&mut room, line)? {
        None => Ok(None),
        Some(value) => Ok(choice_of_value(&value)),
    }
}

#[tactic(auto, unfolding(crate::specs::WorkerChoices::choice_of_value))]
fn choice_of_value(value: &Value<'_>) -> Option<ChoiceRequest>
    ensures { result ≡ spec.choice_of_value (value_view value.now) }
{
    let count = value.key_count()?;
    let word = do_member(value)?;
    choice_named(word, count, value)
}

/// The choice of a value whose member `do` is this word and that has this number of members.
#[tactic(auto, unfolding(crate::specs::WorkerChoices::choice_named))]
fn choice_named(word: &str, count: usize, value: &Value<'_>) -> Option<ChoiceRequest>
    ensures { result ≡ spec.choice_named word.now count (value_view value.now) }
{
    let label = as_of(value)?;
    if word != "attach" || count != 2 + usize::from(value.get("as").is_some()) {
        return None;
    }
    let choice = choice_of_word(value.get("any")?.as_str()?)?;
    Some(ChoiceRequest { choice, label })
}

fn choice_of_word(word: &str) -> Option<WorkerChoice>
    ensures { result ≡ spec.choice_of_word word.now }
{
    match word {
        "pending" => Some(WorkerChoice::Pending),
        "ready" => Some(WorkerChoice::Ready),
        _ => None,
    }
}

/// Appends the answer to a session for which this worker was chosen, by the reply to its attachment, without its
/// newline.
///
/// An error means that memory was refused; the text is then of no use.
pub fn push_choice_reply(
    out: &mut String,
    names: &Names,
    worker: u32,
    reply: ClientReply,
) -> Result<(), AllocError>
    ensures { OnOk result (string_bytes out.new ≡ string_bytes out.old ++ spec.choice_reply_text names.now worker
        (reply_of_client reply)) }
{
    match reply {
        ClientReply::Attached(number, standing) => push_chosen(out, worker, number, standing),
        other => push_session_reply(out, names, other),
    }
}

fn push_chosen(
    out: &mut String,
    worker: u32,
    number: u64,
    standing: SessionStance,
) -> Result<(), AllocError>
    ensures { OnOk result (string_bytes out.new ≡ string_bytes out.old ++ spec.chosen_text worker number standing) }
{
    let word = standing.word();
    write!(
        out,
        "{{\"number\":{number},\"ok\":\"attach\",\"stance\":\"{word}\",\"worker\":{worker}}}"
    )
}
