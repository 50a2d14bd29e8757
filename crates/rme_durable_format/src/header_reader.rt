//! Reading line 1 of a file, the base that earlier epochs left.

ghost use Rattle.std.specs.Prelude.{◌≡◌, ◌⊎◌, ◌<◌, ◌≤◌, ◌^◌, ◌↔◌, ℕ, List, Some, IfOk, IsTrue, codes, length, option_map, pos, slice_get};
ghost use Rattle.std.specs.List.{All};
ghost use Rattle.serde_json.specs.Data.{array, string};
ghost use Rattle.serde_json.specs.Find.{get};
ghost use Rattle.rme_line_json.specs.Values.{json_value_of};
ghost use Rattle.rme_line_json.specs.View.{items_view, value_view};
ghost use Rattle.rme_durable_format.specs.Headers.{HeaderSearch, HasNumberMember, IsPossibleLastJob, IsLogVersion, IsPossibleHeader, AreItemsOf, IsListMember, IsJobCount, HasHeaderMembers, IsPlaceCount, IsReceiptObject, IsWithdrawalObject, IsLastJobObject, AreHeaderLives, HeaderValues, header_values};
ghost use Rattle.rme_durable_format.specs.declared.header.LastJob.{LastJob};

use crate::header::{LastJob, LogHeader, clients_in};
use rme_line_text::ClientReceipt;
use rme_session_protocol::SERVICE_NUMBERS;
use rme_wire::{Names, Value, ValueReader, ValueStorage, whole_u32, whole_up_to};
use rme_words::{NoMemory, Shape};
use std::alloc::{AllocError, Global};

/// The JSON value of a header's line; `None` if the line is not one of a version that is read.
pub(crate) fn header_value<'a>(
    values: &'a mut ValueReader,
    room: &'a mut ValueStorage,
    line: &'a [u8],
) -> Result<Option<Value<'a>>, NoMemory>
    ensures { IfOk result (λ found. HeaderSearch (λ value. (json_value_of line.now ≡ Some value) × IsLogVersion value)
        (option_map value_view found)) }
{
    let Some(value) = values.read(room, line)? else {
        return Ok(None);
    };
    if !is_log_version(&value) {
        return Ok(None);
    }
    Ok(Some(value))
}

/// Whether a value has the members of a header of a version that is read.
fn is_log_version(value: &Value<'_>) -> bool
    ensures { IsTrue result ↔ IsLogVersion (value_view value.now) }
{
    let members = 6 + usize::from(value.get("lives").is_some());
    if value.key_count() != Some(members) {
        return false;
    }
    if text_in(value, "rme") != Some("kept") {
        return false;
    }
    is_read_version(number_in(value, "version"))
}

/// Whether this is the number of a version that is read.
fn is_read_version(version: Option<u64>) -> bool
    ensures { IsTrue result ↔ ((version ≡ Some 1) ⊎ (version ≡ Some 2)) }
{
    version == Some(1) || version == Some(2)
}

/// The header of a value, for a world of this shape with these names of the locks; `None` if the value is no header.
pub(crate) fn header_of(
    alloc: Global,
    names: &Names,
    shape: Shape,
    value: &Value<'_>,
) -> Result<Option<LogHeader>, AllocError>
    ensures { IfOk result (λ found. HeaderSearch (λ past. HasHeaderMembers names.now (value_view value.now) past
        × IsPossibleHeader shape past) (option_map header_values found)) }
{
    let Some(header) = header_of_value(alloc, names, value)? else {
        return Ok(None);
    };
    if !is_possible_header(shape, &header) {
        return Ok(None);
    }
    Ok(Some(header))
}

/// The header of a value, without the check that it is a possible base.
fn header_of_value(
    alloc: Global,
    names: &Names,
    value: &Value<'_>,
) -> Result<Option<LogHeader>, AllocError>
    ensures { IfOk result (λ found. HeaderSearch (HasHeaderMembers names.now (value_view value.now))
        (option_map header_values found)) }
{
    let Some(epoch) = number_in(value, "epoch") else {
        return Ok(None);
    };
    let Some(last) = last_jobs_in(alloc, names, value)? else {
        return Ok(None);
    };
    let Some(numbers) = numbers_in(alloc, value)? else {
        return Ok(None);
    };
    let Some(lives) = lives_in(alloc, value, numbers.as_slice())? else {
        return Ok(None);
    };
    let Some(places) = places_in(alloc, value)? else {
        return Ok(None);
    };
    Ok(Some(LogHeader {
        epoch,
        last,
        lives,
        numbers,
        places,
    }))
}

/// Whether this is a possible base of a world of this shape.
fn is_possible_header(shape: Shape, header: &LogHeader) -> bool
    ensures { IsTrue result ↔ IsPossibleHeader shape (header_values header.now) }
{
    let workers = clients_in(shape);
    if header.last.len() != workers || header.lives.len() != workers {
        return false;
    }
    if header.numbers.len() != workers {
        return false;
    }
    if header.places.len() != shape.locks() as usize {
        return false;
    }
    if !are_last_jobs(header.numbers.as_slice(), header.last.as_slice()) {
        return false;
    }
    if header.epoch != 0 {
        return true;
    }
    is_first_epoch(header.numbers.as_slice(), header.places.as_slice())
}

/// Whether each worker may have its last job, with these counts of numbers.
fn are_last_jobs(numbers: &[u64], words: &[LastJob]) -> bool
    ensures { IsTrue result
        ↔ ((worker n : ℕ) (word : LastJob) → slice_get numbers.now worker ≡ Some n
        → slice_get words.now worker ≡ Some word → IsPossibleLastJob worker n word) }
{
    for worker in 0..numbers.len().min(words.len()) {
        if !is_last_job(worker, numbers[worker], words[worker]) {
            return false;
        }
    }
    true
}

/// Whether a worker may have this last job, with this count of numbers: with numbers it has a last job, and a receipt
/// is the worker's own, of its last number.
fn is_last_job(worker: usize, number: u64, word: LastJob) -> bool
    ensures { IsTrue result ↔ IsPossibleLastJob worker number word }
{
    match word {
        LastJob::Nothing => number == 0,
        LastJob::Withdrawn => number != 0,
        LastJob::Receipt(receipt) => {
            number != 0 && receipt.worker as usize == worker && receipt.number == number
        }
    }
}

/// Whether no worker had a number and no lock a section, as in a first epoch.
fn is_first_epoch(numbers: &[u64], places: &[i64]) -> bool
    ensures { IsTrue result ↔ (All (λ n. n ≡ 0) numbers.now × All (λ place. place ≡ pos 0) places.now) }
{
    numbers.iter().all(|number| *number == 0) && places.iter().all(|place| *place == 0)
}

/// The member `last` of a value.
fn last_jobs_in(
    alloc: Global,
    names: &Names,
    value: &Value<'_>,
) -> Result<Option<Vec<LastJob>>, AllocError>
    ensures { IfOk result (λ found. HeaderSearch (IsListMember (IsLastJobObject names.now) (codes "last")
        (value_view value.now)) (option_map (λ words. words.items) found)) }
{
    let Some(items) = items_in(value, "last") else {
        return Ok(None);
    };
    last_jobs_of(alloc, names, items)
}

fn last_jobs_of(
    alloc: Global,
    names: &Names,
    items: &[Value<'_>],
) -> Result<Option<Vec<LastJob>>, AllocError>
    ensures { IfOk result (λ found. HeaderSearch (AreItemsOf (IsLastJobObject names.now) (items_view items.now))
        (option_map (λ words. words.items) found)) }
{
    let mut words = Vec::new(alloc);
    for item in items {
        let Some(word) = last_job_of(names, item) else {
            return Ok(None);
        };
        words.push(word)?;
    }
    Ok(Some(words))
}

fn last_job_of(names: &Names, value: &Value<'_>) -> Option<LastJob>
    ensures { HeaderSearch (IsLastJobObject names.now (value_view value.now)) result }
{
    if value.is_null() {
        return Some(LastJob::Nothing);
    }
    if is_withdrawn(value) {
        return Some(LastJob::Withdrawn);
    }
    let receipt = receipt_of(names, value)?;
    Some(LastJob::Receipt(receipt))
}

/// Whether a value is a withdrawal.
fn is_withdrawn(value: &Value<'_>) -> bool
    ensures { IsTrue result ↔ IsWithdrawalObject (value_view value.now) }
{
    if value.key_count() != Some(1) {
        return false;
    }
    let Some(withdrawn) = value.get("withdrawn") else {
        return false;
    };
    withdrawn.as_bool() == Some(true)
}

/// The receipt of a value, for a lock with one of these names.
fn receipt_of(names: &Names, value: &Value<'_>) -> Option<ClientReceipt>
    ensures { HeaderSearch (IsReceiptObject names.now (value_view value.now)) result }
{
    if value.key_count()? != 5 {
        return None;
    }
    let worker = small_in(value, "worker")?;
    let lock = names.number(text_in(value, "lock")?)?;
    let number = whole_in(value, "number")?;
    let place = whole_in(value, "place")?;
    let reply = number_in(value, "reply")?;
    Some(ClientReceipt {
        worker,
        lock,
        number,
        place,
        reply,
    })
}

/// The lives of a header; of a value that is no header, an empty list.
pub(crate) fn first_lives(alloc: Global, value: &Value<'_>) -> Result<Vec<u64>, AllocError>
    ensures { IfOk result (λ lives. (names : List (List ℕ)) (past : HeaderValues)
        → HasHeaderMembers names (value_view value.now) past → lives.items ≡ past.lives) }
{
    let Some(numbers) = numbers_in(alloc, value)? else {
        return Ok(Vec::new(alloc));
    };
    let Some(lives) = lives_in(alloc, value, numbers.as_slice())? else {
        return Ok(Vec::new(alloc));
    };
    Ok(lives)
}

/// The member `lives` of a value; without one, no life of each of the workers with these numbers.
fn lives_in(
    alloc: Global,
    value: &Value<'_>,
    numbers: &[u64],
) -> Result<Option<Vec<u64>>, AllocError>
    ensures { IfOk result (λ found. HeaderSearch (AreHeaderLives (value_view value.now) (length numbers.now))
        (option_map (λ lives. lives.items) found)) }
{
    if value.get("lives").is_none() {
        return Ok(Some(vec![in alloc; 0u64; numbers.len()]?));
    }
    let Some(items) = items_in(value, "lives") else {
        return Ok(None);
    };
    numbers_of(alloc, items)
}

/// The member `numbers` of a value.
fn numbers_in(alloc: Global, value: &Value<'_>) -> Result<Option<Vec<u64>>, AllocError>
    ensures { IfOk result (λ found. HeaderSearch (IsListMember IsJobCount (codes "numbers") (value_view value.now))
        (option_map (λ numbers. numbers.items) found)) }
{
    let Some(items) = items_in(value, "numbers") else {
        return Ok(None);
    };
    numbers_of(alloc, items)
}

fn numbers_of(alloc: Global, items: &[Value<'_>]) -> Result<Option<Vec<u64>>, AllocError>
    ensures { IfOk result (λ found. HeaderSearch (AreItemsOf IsJobCount (items_view items.now))
        (option_map (λ numbers. numbers.items) found)) }
{
    let mut numbers = Vec::new(alloc);
    for item in items {
        let Some(number) = number_up_to_max(item) else {
            return Ok(None);
        };
        numbers.push(number)?;
    }
    Ok(Some(numbers))
}

/// A whole number within the limit of numbers and places.
fn number_up_to_max(value: &Value<'_>) -> Option<u64>
    ensures { HeaderSearch (IsJobCount (value_view value.now)) result }
{
    whole_up_to(SERVICE_NUMBERS, value)
}

/// The member `places` of a value.
fn places_in(alloc: Global, value: &Value<'_>) -> Result<Option<Vec<i64>>, AllocError>
    ensures { IfOk result (λ found. HeaderSearch (IsListMember IsPlaceCount (codes "places") (value_view value.now))
        (option_map (λ places. places.items) found)) }
{
    let Some(items) = items_in(value, "places") else {
        return Ok(None);
    };
    places_of(alloc, items)
}

fn places_of(alloc: Global, items: &[Value<'_>]) -> Result<Option<Vec<i64>>, AllocError>
    ensures { IfOk result (λ found. HeaderSearch (AreItemsOf IsPlaceCount (items_view items.now))
        (option_map (λ places. places.items) found)) }
{
    let mut places = Vec::new(alloc);
    for item in items {
        let Some(place) = place_of(item) else {
            return Ok(None);
        };
        places.push(place)?;
    }
    Ok(Some(places))
}

/// The count of a lock's sections in earlier epochs, which may be below 0.
fn place_of(value: &Value<'_>) -> Option<i64>
    ensures { HeaderSearch (IsPlaceCount (value_view value.now)) result }
{
    let place = value.as_i64()?;
    if place.unsigned_abs() > SERVICE_NUMBERS {
        return None;
    }
    Some(place)
}

/// The items of a member that is a list.
fn items_in<'v, 'a>(value: &'v Value<'a>, key: &str) -> Option<&'v [Value<'a>]>
    ensures { HeaderSearch (λ items. get key.now (value_view value.now) ≡ Some (array items))
        (option_map (λ items. items_view items.now) result) }
{
    Some(value.get(key)?.as_array()?.as_slice())
}

/// A member that is a text.
fn text_in<'a>(value: &Value<'a>, key: &str) -> Option<&'a str>
    ensures { HeaderSearch (λ text. get key.now (value_view value.now) ≡ Some (string text))
        (option_map (λ text. text.now) result) }
{
    value.get(key)?.as_str()
}

/// A member that is a whole number.
fn number_in(value: &Value<'_>, key: &str) -> Option<u64>
    ensures { HeaderSearch (HasNumberMember key.now (value_view value.now)) result }
{
    value.get(key)?.as_u64()
}

/// A member that is a whole number below 2^32.
fn small_in(value: &Value<'_>, key: &str) -> Option<u32>
    ensures { HeaderSearch (λ n. HasNumberMember key.now (value_view value.now) n × (n < 2 ^ 32)) result }
{
    whole_u32(value.get(key)?)
}

/// A member that is a whole number within the limit of numbers and places.
fn whole_in(value: &Value<'_>, key: &str) -> Option<u64>
    ensures { HeaderSearch (λ n. HasNumberMember key.now (value_view value.now) n × (n ≤ 2 ^ 53)) result }
{
    number_up_to_max(value.get(key)?)
}
