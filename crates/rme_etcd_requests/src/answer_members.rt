//! The members of an answer.

ghost use Rattle.std.specs.Prelude.{◌≡◌, IfOk, Some, option_and_then};
ghost use Rattle.serde_json.specs.Find.{as_number, as_str, as_u64, get};
ghost use Rattle.serde_json.specs.View.{view};

use crate::answers::AnswerFault;
use base64::DecodeAllocError;
use base64::engine::general_purpose::STANDARD;
use serde_json::Value;
use std::alloc::Global;

/// The member of this name.
pub(crate) fn member_at<'v>(value: &'v Value, name: &str) -> Result<&'v Value, AnswerFault>
    ensures { IfOk result (λ found. get name.now (view value.now) ≡ Some (view found.now)) }
{
    match value.get(name) {
        Some(found) => Ok(found),
        None => Err(AnswerFault::NotRead),
    }
}

/// The number of this name.
pub(crate) fn number_at(value: &Value, name: &str) -> Result<u64, AnswerFault>
    ensures { IfOk result (λ number. option_and_then as_u64 (option_and_then as_number (get name.now (view value.now)))
        ≡ Some number) }
{
    match member_at(value, name)?.as_u64() {
        Some(number) => Ok(number),
        None => Err(AnswerFault::NotRead),
    }
}

/// The text of this name.
pub(crate) fn text_at<'v>(value: &'v Value, name: &str) -> Result<&'v str, AnswerFault>
    ensures { IfOk result (λ text. option_and_then as_str (get name.now (view value.now)) ≡ Some text.now) }
{
    match member_at(value, name)?.as_str() {
        Some(text) => Ok(text),
        None => Err(AnswerFault::NotRead),
    }
}

/// The bytes of this name; none where it is absent, since the gateway writes no empty text.
pub(crate) fn bytes_at(alloc: Global, value: &Value, name: &str) -> Result<Vec<u8>, AnswerFault> {
    let Some(member) = value.get(name) else {
        return Ok(Vec::new(alloc));
    };
    let Some(text) = member.as_str() else {
        return Err(AnswerFault::NotRead);
    };
    match STANDARD.decode(alloc, text.as_bytes()) {
        Ok(bytes) => Ok(bytes),
        Err(DecodeAllocError::OutOfMemory) => Err(AnswerFault::OutOfMemory),
        Err(DecodeAllocError::DecodeError(_)) => Err(AnswerFault::NotRead),
    }
}
