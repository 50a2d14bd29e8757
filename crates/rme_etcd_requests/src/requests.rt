//! The bodies of requests. Each conditional one reads the head where its condition fails.

ghost use Rattle.std.specs.Prelude.{◌≡◌, IfOk, Some, string_bytes};
ghost use Rattle.serde_json.specs.Data.{array, item, no_items};
ghost use Rattle.serde_json.specs.Read.{read};
ghost use Rattle.rme_etcd_requests.specs.Transactions as spec;

use crate::operations::{
    delete_keys, key_is, key_is_absent, login_of, look_at, one, page_of, put_key, range_of,
    transaction, two,
};
use std::alloc::{AllocError, Global};

/// Reads the head.
pub fn head_request(alloc: Global, head_key: &[u8]) -> Result<String, AllocError>
    ensures { IfOk result (λ text. read (string_bytes text) ≡ Some (spec.range_of head_key.now)) }
{
    let whole = range_of(alloc, head_key)?;
    let text = whole.to_string(alloc)?;
    Ok(text)
}

/// Reads at most this number of keys from the first up to the second, in order.
pub fn page_request(alloc: Global, from: &[u8], to: &[u8], limit: u64) -> Result<String, AllocError>
    ensures { IfOk result (λ text. read (string_bytes text) ≡ Some (spec.page_of from.now to.now limit)) }
{
    let whole = page_of(alloc, from, to, limit)?;
    let text = whole.to_string(alloc)?;
    Ok(text)
}

/// The keys of the head and of one record.
#[derive(Clone, Copy)]
pub struct RecordKeys<'a> {
    pub head: &'a [u8],
    pub record: &'a [u8],
}

/// Creates the head and one record, if there is no head.
pub fn create_request(
    alloc: Global,
    keys: RecordKeys<'_>,
    head: &[u8],
    lines: &[u8],
) -> Result<String, AllocError>
    ensures { IfOk result (λ text. read (string_bytes text) ≡ Some (spec.transaction
        (spec.key_is_absent keys.entry.head.now)
        (array (item (spec.put_key keys.entry.head.now head.now)
        (item (spec.put_key keys.entry.record.now lines.now) no_items)))
        (spec.look_at keys.entry.head.now))) }
{
    let condition = key_is_absent(alloc, keys.head)?;
    let put_head = put_key(alloc, keys.head, head)?;
    let put_record = put_key(alloc, keys.record, lines)?;
    let operations = two(alloc, put_head, put_record)?;
    let otherwise = look_at(alloc, keys.head)?;
    let whole = transaction(alloc, condition, operations, otherwise)?;
    let text = whole.to_string(alloc)?;
    Ok(text)
}

/// Puts the next head and one record with these lines, if the head has the bytes that were seen.
pub fn add_request(
    alloc: Global,
    keys: RecordKeys<'_>,
    seen: &[u8],
    next: &[u8],
    lines: &[u8],
) -> Result<String, AllocError>
    ensures { IfOk result (λ text. read (string_bytes text) ≡ Some (spec.if_head_is keys.entry.head.now seen.now
        (item (spec.put_key keys.entry.head.now next.now)
        (item (spec.put_key keys.entry.record.now lines.now) no_items)))) }
{
    let condition = key_is(alloc, keys.head, seen)?;
    let put_head = put_key(alloc, keys.head, next)?;
    let put_record = put_key(alloc, keys.record, lines)?;
    let operations = two(alloc, put_head, put_record)?;
    let otherwise = look_at(alloc, keys.head)?;
    let whole = transaction(alloc, condition, operations, otherwise)?;
    let text = whole.to_string(alloc)?;
    Ok(text)
}

/// Puts one value, which no head names, if the head has the bytes that were seen. This stages a part.
pub fn stage_request(
    alloc: Global,
    keys: RecordKeys<'_>,
    seen: &[u8],
    bytes: &[u8],
) -> Result<String, AllocError>
    ensures { IfOk result (λ text. read (string_bytes text) ≡ Some (spec.if_head_is keys.entry.head.now seen.now
        (item (spec.put_key keys.entry.record.now bytes.now) no_items))) }
{
    let condition = key_is(alloc, keys.head, seen)?;
    let put = put_key(alloc, keys.record, bytes)?;
    let operations = one(alloc, put)?;
    let otherwise = look_at(alloc, keys.head)?;
    let whole = transaction(alloc, condition, operations, otherwise)?;
    let text = whole.to_string(alloc)?;
    Ok(text)
}

/// Asks whether the head has the bytes that were seen, and if so tells by a value that its writer runs. It reads the head
/// in either case.
pub fn beat_request(
    alloc: Global,
    head_key: &[u8],
    seen: &[u8],
    beat_key: &[u8],
    beat: &[u8],
) -> Result<String, AllocError>
    ensures { IfOk result (λ text. read (string_bytes text) ≡ Some (spec.if_head_is head_key.now seen.now
        (item (spec.put_key beat_key.now beat.now) (item (spec.look_at head_key.now) no_items)))) }
{
    let condition = key_is(alloc, head_key, seen)?;
    let put_beat = put_key(alloc, beat_key, beat)?;
    let look = look_at(alloc, head_key)?;
    let operations = two(alloc, put_beat, look)?;
    let otherwise = look_at(alloc, head_key)?;
    let whole = transaction(alloc, condition, operations, otherwise)?;
    let text = whole.to_string(alloc)?;
    Ok(text)
}

/// Asks whether the head has the bytes that were seen. It reads the head in either case: a node that is cut off answers
/// a transaction without an operation from the past.
pub fn is_request(alloc: Global, head_key: &[u8], seen: &[u8]) -> Result<String, AllocError>
    ensures { IfOk result (λ text. read (string_bytes text) ≡ Some (spec.if_head_is head_key.now seen.now
        (item (spec.look_at head_key.now) no_items))) }
{
    let condition = key_is(alloc, head_key, seen)?;
    let look = look_at(alloc, head_key)?;
    let operations = one(alloc, look)?;
    let otherwise = look_at(alloc, head_key)?;
    let whole = transaction(alloc, condition, operations, otherwise)?;
    let text = whole.to_string(alloc)?;
    Ok(text)
}

/// The keys from one up to another.
#[derive(Clone, Copy)]
pub struct KeyRange<'a> {
    pub from: &'a [u8],
    pub to: &'a [u8],
}

/// Deletes the keys of two ranges, if the head has the bytes that were seen.
pub fn clear_request(
    alloc: Global,
    head_key: &[u8],
    seen: &[u8],
    before: KeyRange<'_>,
    behind: KeyRange<'_>,
) -> Result<String, AllocError>
    ensures { IfOk result (λ text. read (string_bytes text) ≡ Some (spec.if_head_is head_key.now seen.now
        (item (spec.delete_keys before.entry.from.now before.entry.to.now)
        (item (spec.delete_keys behind.entry.from.now behind.entry.to.now) no_items)))) }
{
    let condition = key_is(alloc, head_key, seen)?;
    let delete_before = delete_keys(alloc, before.from, before.to)?;
    let delete_behind = delete_keys(alloc, behind.from, behind.to)?;
    let operations = two(alloc, delete_before, delete_behind)?;
    let otherwise = look_at(alloc, head_key)?;
    let whole = transaction(alloc, condition, operations, otherwise)?;
    let text = whole.to_string(alloc)?;
    Ok(text)
}

/// Asks for a token.
pub fn login_request(alloc: Global, user: &str, password: &str) -> Result<String, AllocError>
    ensures { IfOk result (λ text. read (string_bytes text) ≡ Some (spec.login_of user.now password.now)) }
{
    let whole = login_of(alloc, user, password)?;
    let text = whole.to_string(alloc)?;
    Ok(text)
}
