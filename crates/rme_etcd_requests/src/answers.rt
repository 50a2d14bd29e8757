//! What answers of etcd say.

ghost use Rattle.std.specs.Prelude.{◌≡◌, ◌≢◌, IfOk, MatchBool, Some, codes, true};
ghost use Rattle.serde_json.specs.Data.{Data, boolean};
ghost use Rattle.serde_json.specs.Find.{get};
ghost use Rattle.serde_json.specs.Read.{read};
ghost use Rattle.serde_json.specs.View.{view};
ghost use Rattle.rme_etcd_requests.specs.TransactionAnswers.{SaysTransaction};

use crate::answer_members::{bytes_at, member_at, number_at, text_at};
use serde_json::{Error, Value};
use std::alloc::{AllocError, Global};

/// Why the bytes of an answer are no answer.
#[derive(Clone, Copy, Debug, Drop, PartialEq, Eq)]
pub enum AnswerFault {
    /// Memory was not enough.
    OutOfMemory,
    /// The bytes are not what was asked for.
    NotRead,
}

impl From<AllocError> for AnswerFault {
    fn from(_error: AllocError) -> AnswerFault {
        AnswerFault::OutOfMemory
    }
}

impl From<Error> for AnswerFault {
    fn from(error: Error) -> AnswerFault {
        if error.is_memory() {
            AnswerFault::OutOfMemory
        } else {
            AnswerFault::NotRead
        }
    }
}

/// What an answer to a conditional transaction says.
#[derive(Drop)]
pub enum TransactionAnswer {
    /// The condition held, and the transaction was made.
    Made,
    /// The condition did not hold, and nothing was changed. The head had this value; `None` if there is no head.
    NotMade(Option<Vec<u8>>),
}

/// A page of keys.
#[derive(Drop)]
pub struct RangePage {
    /// The keys and their values, in order.
    pub pairs: Vec<KeyValue>,
    /// Whether more keys follow.
    pub more: bool,
}

/// A key and its value.
#[derive(Drop)]
pub struct KeyValue {
    pub key: Vec<u8>,
    pub value: Vec<u8>,
}

/// Why etcd refused a request.
#[derive(Clone, Copy, Debug, Drop, PartialEq, Eq)]
pub enum EtcdRefusal {
    /// The quota of its storage is used up.
    NoSpace,
    /// The user, the password or the token was refused, or the user may not do this.
    NotAllowed,
    /// Another reason, as an election that goes on.
    Other,
}

/// The code of gRPC for what the user may not do.
const PERMISSION_DENIED: u64 = 7;
/// The code of gRPC for a resource that is used up.
const RESOURCE_EXHAUSTED: u64 = 8;
/// The code of gRPC for a missing or wrong token.
const UNAUTHENTICATED: u64 = 16;

/// What an answer to a conditional transaction says.
pub fn transaction_answer(alloc: Global, body: &[u8]) -> Result<TransactionAnswer, AnswerFault>
    ensures { IfOk result (λ answer. (whole : Data) × (read body.now ≡ Some whole) × SaysTransaction whole answer) }
{
    let whole = Value::from_slice(alloc, body)?;
    let responses = member_at(&whole, "responses")?;
    if is_made(&whole) {
        return Ok(TransactionAnswer::Made);
    }
    let Some(first) = responses.get(0) else {
        return Err(AnswerFault::NotRead);
    };
    let range = member_at(first, "response_range")?;
    Ok(TransactionAnswer::NotMade(first_value(alloc, range)?))
}

/// Whether the condition held. The gateway writes no member that is false.
fn is_made(whole: &Value) -> bool
    ensures { MatchBool result (get (codes "succeeded") (view whole.now) ≡ Some (boolean true))
        (get (codes "succeeded") (view whole.now) ≢ Some (boolean true)) }
{
    match whole.get("succeeded") {
        Some(succeeded) => is_true(succeeded),
        None => false,
    }
}

/// Whether a value is the truth value `true`.
fn is_true(value: &Value) -> bool
    ensures { MatchBool result (view value.now ≡ boolean true) (view value.now ≢ boolean true) }
{
    match value {
        Value::Bool(is) => *is,
        _ => false,
    }
}

/// The value of the first key of a range; `None` if it has no key.
fn first_value(alloc: Global, range: &Value) -> Result<Option<Vec<u8>>, AnswerFault> {
    let Some(pairs) = range.get("kvs") else {
        return Ok(None);
    };
    match pairs.get(0) {
        Some(pair) => Ok(Some(bytes_at(alloc, pair, "value")?)),
        None => Ok(None),
    }
}

/// The page of keys that an answer has.
pub fn range_page(alloc: Global, body: &[u8]) -> Result<RangePage, AnswerFault> {
    let whole = Value::from_slice(alloc, body)?;
    // Each answer has a header.
    let _ = member_at(&whole, "header")?;
    let mut pairs = Vec::new(alloc);
    let more = match whole.get("more") {
        Some(more) => is_true(more),
        None => false,
    };
    let Some(found) = whole.get("kvs") else {
        return Ok(RangePage { pairs, more });
    };
    let Some(items) = found.as_array() else {
        return Err(AnswerFault::NotRead);
    };
    for item in items.as_slice() {
        let key = bytes_at(alloc, item, "key")?;
        let value = bytes_at(alloc, item, "value")?;
        pairs
            .push(KeyValue { key, value })
            .map_err(AllocError::from)?;
    }
    Ok(RangePage { pairs, more })
}

/// The token that an answer to a login has.
pub fn login_token(alloc: Global, body: &[u8]) -> Result<String, AnswerFault> {
    let whole = Value::from_slice(alloc, body)?;
    Ok(String::from_str(alloc, text_at(&whole, "token")?)?)
}

/// Why a request was refused, by the body of the answer.
pub fn refusal_of(alloc: Global, body: &[u8]) -> EtcdRefusal {
    let Ok(whole) = Value::from_slice(alloc, body) else {
        return EtcdRefusal::Other;
    };
    match number_at(&whole, "code") {
        Ok(RESOURCE_EXHAUSTED) => EtcdRefusal::NoSpace,
        Ok(PERMISSION_DENIED | UNAUTHENTICATED) => EtcdRefusal::NotAllowed,
        // Their code is that of any malformed request.
        _ => match text_at(&whole, "error") {
            Ok("etcdserver: authentication failed, invalid user ID or password") =>
                EtcdRefusal::NotAllowed,
            Ok("etcdserver: user name is empty") => EtcdRefusal::NotAllowed,
            _ => EtcdRefusal::Other,
        },
    }
}
