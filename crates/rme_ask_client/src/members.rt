//! The members of an answer.

ghost use Rattle.std.specs.Prelude.{◌≡◌, Some, None, IfOk, IfErr};
ghost use Rattle.serde_json.specs.View.{view};
ghost use Rattle.rme_ask_client.specs.Members.{LockNameSays, NoneSaidUnless, TextSays, flag_member, number_member, some_member, text_member};

use crate::client_error::ClientError;
use rme_line_io::is_name;
use serde_json::Value;
use std::alloc::Global;

/// The member of this name.
pub(crate) fn member<'v>(value: &'v Value, name: &'static str) -> Result<&'v Value, ClientError>
    ensures found { IfOk result (λ found. some_member name.now (view value.now) ≡ Some (view found.now)) }
    ensures missing { IfErr result (λ _. some_member name.now (view value.now) ≡ None) }
{
    match value.get(name) {
        Some(found) => Ok(found),
        None => Err(ClientError::NoMember(name)),
    }
}

/// The number of this name.
pub(crate) fn number(value: &Value, name: &'static str) -> Result<u64, ClientError>
    ensures found { IfOk result (λ number. number_member name.now (view value.now) ≡ Some number) }
    ensures missing { IfErr result (λ _. number_member name.now (view value.now) ≡ None) }
{
    match member(value, name)?.as_u64() {
        Some(number) => Ok(number),
        None => Err(ClientError::NoMember(name)),
    }
}

/// The truth value of this name.
pub(crate) fn flag(value: &Value, name: &'static str) -> Result<bool, ClientError>
    ensures found { IfOk result (λ flag. flag_member name.now (view value.now) ≡ Some flag) }
    ensures missing { IfErr result (λ _. flag_member name.now (view value.now) ≡ None) }
{
    match member(value, name)?.as_bool() {
        Some(flag) => Ok(flag),
        None => Err(ClientError::NoMember(name)),
    }
}

/// The text of this name.
pub(crate) fn text<'v>(value: &'v Value, name: &'static str) -> Result<&'v str, ClientError>
    ensures found { IfOk result (λ text. text_member name.now (view value.now) ≡ Some text.now) }
    ensures missing { IfErr result (λ _. text_member name.now (view value.now) ≡ None) }
{
    match member(value, name)?.as_str() {
        Some(text) => Ok(text),
        None => Err(ClientError::NoMember(name)),
    }
}

/// A copy of the text of this name.
pub(crate) fn string(
    alloc: Global,
    value: &Value,
    name: &'static str,
) -> Result<String, ClientError>
    ensures said { IfOk result (TextSays name.now (view value.now)) }
    ensures unsaid { IfErr result (NoneSaidUnless (TextSays name.now) (view value.now)) }
{
    Ok(String::from_str(alloc, text(value, name)?)?)
}

/// The name of a lock, in the member of this name. A text that may name no lock is refused: it could steer a terminal.
pub(crate) fn lock_name(
    alloc: Global,
    value: &Value,
    name: &'static str,
) -> Result<String, ClientError>
    ensures said { IfOk result (LockNameSays name.now (view value.now)) }
    ensures unsaid { IfErr result (NoneSaidUnless (LockNameSays name.now) (view value.now)) }
{
    let text = text(value, name)?;
    if !is_name(text) {
        return Err(ClientError::NoMember(name));
    }
    Ok(String::from_str(alloc, text)?)
}
