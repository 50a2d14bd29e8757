//! Requests that are no transaction, and the parts of a transaction, as JSON.

ghost use Rattle.std.specs.Prelude.{◌≡◌, IfOk};
ghost use Rattle.serde_json.specs.Data.{array, item, no_items};
ghost use Rattle.serde_json.specs.View.{view};
ghost use Rattle.rme_etcd_requests.specs.Transactions as spec;

use base64::engine::general_purpose::STANDARD;
use serde_json::{Value, json};
use std::alloc::{AllocError, Global};

/// Bytes, as etcd's JSON writes them.
pub(crate) fn coded(alloc: Global, bytes: &[u8]) -> Result<Value, AllocError>
    ensures { IfOk result (λ value. view value ≡ spec.coded_bytes bytes.now) }
{
    let text = STANDARD.encode(alloc, bytes)?;
    Ok(Value::String(text))
}

/// The condition that this key has exactly this value.
pub(crate) fn key_is(alloc: Global, key: &[u8], value: &[u8]) -> Result<Value, AllocError>
    ensures { IfOk result (λ condition. view condition ≡ spec.key_is key.now value.now) }
{
    let key = coded(alloc, key)?;
    let value = coded(alloc, value)?;
    json!(in alloc; {"key": key, "result": "EQUAL", "target": "VALUE", "value": value})
}

/// The condition that this key is absent.
pub(crate) fn key_is_absent(alloc: Global, key: &[u8]) -> Result<Value, AllocError>
    ensures { IfOk result (λ condition. view condition ≡ spec.key_is_absent key.now) }
{
    let key = coded(alloc, key)?;
    json!(in alloc; {"create_revision": "0", "key": key, "result": "EQUAL", "target": "CREATE"})
}

/// The operation that puts this value at this key.
pub(crate) fn put_key(alloc: Global, key: &[u8], value: &[u8]) -> Result<Value, AllocError>
    ensures { IfOk result (λ operation. view operation ≡ spec.put_key key.now value.now) }
{
    let key = coded(alloc, key)?;
    let value = coded(alloc, value)?;
    json!(in alloc; {"request_put": {"key": key, "value": value}})
}

/// The operation that reads this key.
pub(crate) fn look_at(alloc: Global, key: &[u8]) -> Result<Value, AllocError>
    ensures { IfOk result (λ operation. view operation ≡ spec.look_at key.now) }
{
    let key = coded(alloc, key)?;
    json!(in alloc; {"request_range": {"key": key}})
}

/// The operation that deletes all keys from the first up to the second.
pub(crate) fn delete_keys(alloc: Global, from: &[u8], to: &[u8]) -> Result<Value, AllocError>
    ensures { IfOk result (λ operation. view operation ≡ spec.delete_keys from.now to.now) }
{
    let from = coded(alloc, from)?;
    let to = coded(alloc, to)?;
    json!(in alloc; {"request_delete_range": {"key": from, "range_end": to}})
}

/// A list of one operation.
pub(crate) fn one(alloc: Global, operation: Value) -> Result<Value, AllocError>
    ensures { IfOk result (λ list. view list ≡ array (item (view operation) no_items)) }
{
    json!(in alloc; [operation])
}

/// A list of two operations.
pub(crate) fn two(alloc: Global, first: Value, second: Value) -> Result<Value, AllocError>
    ensures { IfOk result (λ list. view list ≡ array (item (view first) (item (view second) no_items))) }
{
    json!(in alloc; [first, second])
}

/// A transaction with one condition, and one operation where it fails.
pub(crate) fn transaction(
    alloc: Global,
    condition: Value,
    operations: Value,
    otherwise: Value,
) -> Result<Value, AllocError>
    ensures { IfOk result (λ whole. view whole ≡ spec.transaction (view condition) (view operations) (view otherwise)) }
{
    json!(in alloc; {"compare": [condition], "failure": [otherwise], "success": operations})
}

/// The request that reads one key.
pub(crate) fn range_of(alloc: Global, key: &[u8]) -> Result<Value, AllocError>
    ensures { IfOk result (λ whole. view whole ≡ spec.range_of key.now) }
{
    let key = coded(alloc, key)?;
    json!(in alloc; {"key": key})
}

/// The request that reads at most this number of keys from the first up to the second.
pub(crate) fn page_of(
    alloc: Global,
    from: &[u8],
    to: &[u8],
    limit: u64,
) -> Result<Value, AllocError>
    ensures { IfOk result (λ whole. view whole ≡ spec.page_of from.now to.now limit) }
{
    let from = coded(alloc, from)?;
    let to = coded(alloc, to)?;
    json!(in alloc; {"key": from, "limit": limit, "range_end": to})
}

/// The request for a token.
pub(crate) fn login_of(alloc: Global, user: &str, password: &str) -> Result<Value, AllocError>
    ensures { IfOk result (λ whole. view whole ≡ spec.login_of user.now password.now) }
{
    json!(in alloc; {"name": user, "password": password})
}
