//! The answer to a request.

ghost use Rattle.std.specs.Prelude.{◌≡◌, Some, IfOk, string_bytes, codes};
ghost use Rattle.serde_json.specs.Read.{read};
ghost use Rattle.serde_json.specs.View.{view};
ghost use Rattle.rme_ask_client.specs.Conversations.{AnswerReceived};
ghost use Rattle.rme_ask_client.specs.Members.{number_member, text_member};

use crate::client_error::ClientError;
use crate::members::{number, string, text};
use serde_json::Value;
use std::alloc::Global;

/// The answer to a request.
#[derive(Drop)]
pub enum ServerAnswer {
    /// It was executed, and this is what was answered.
    Accepted(Value),
    /// It was refused, and changed nothing.
    Refused(RefusedAnswer),
}

/// A refusal, by its number and its name.
#[derive(Drop)]
pub struct RefusedAnswer {
    pub code: u64,
    pub name: String,
}

/// The answer of a line to a request with this word.
pub(crate) fn read_answer(
    alloc: Global,
    line: &[u8],
    word: &'static str,
) -> Result<ServerAnswer, ClientError>
    ensures { IfOk result (AnswerReceived word.now line.now) }
{
    let value = read_value(alloc, line)?;
    if value.get("error").is_some() {
        return Ok(ServerAnswer::Refused(refused_answer(alloc, &value)?));
    }
    if text(&value, "ok")? != word {
        return Err(ClientError::OtherAnswer);
    }
    Ok(ServerAnswer::Accepted(value))
}

/// The JSON value of a line.
fn read_value(alloc: Global, line: &[u8]) -> Result<Value, ClientError>
    ensures { IfOk result (λ value. read line.now ≡ Some (view value)) }
{
    match Value::from_slice(alloc, line) {
        Ok(value) => Ok(value),
        Err(error) if error.is_memory() => Err(ClientError::NoMemory),
        Err(_) => Err(ClientError::NoJson),
    }
}

/// The refusal of an answer.
fn refused_answer(alloc: Global, value: &Value) -> Result<RefusedAnswer, ClientError>
    ensures code { IfOk result (λ refused. number_member (codes "code") (view value.now) ≡ Some refused.code) }
    ensures name { IfOk result (λ refused. text_member (codes "error") (view value.now)
        ≡ Some (string_bytes refused.name)) }
{
    Ok(RefusedAnswer {
        code: number(value, "code")?,
        name: string(alloc, value, "error")?,
    })
}
