//! The most frequent orders, read without building the line's value.
//!
//! The fast path takes lines whose members are in the order of their keys, and that submit a job or have only a word.
//! Any other line is read by its value (`order.rt`), which takes longer and gives the same order.

ghost use Rattle.std.specs.Prelude.{◌≡◌, Some, IfSome};
ghost use Rattle.rme_session_protocol.specs.Orders.{order_of_line};
ghost use Rattle.rme_session_protocol.specs.Tokens.{IsPatienceTokens, IsSubmissionTokens, patience_named};

use crate::order::{MOST_TRIES, MOST_WAIT, Order, Patience, Submission, USUAL_TRIES, bare_order};
use crate::tokens::{
    take_end, take_key, take_object, take_script, take_small, take_text, take_whole,
};
use json::Reader;
use rme_script::Job;
use rme_wire::{Names, ValueReader, lock_number};

/// The order of a line, if it is one of these.
///
/// Large values are taken by a `let` that returns: each `?` would copy them twice.
#[inline(always)]
pub fn parse_order_fast(
    values: &mut ValueReader,
    names: &Names,
    most: u64,
    line: &[u8],
) -> Option<Order>
    ensures { IfSome result (λ order. order_of_line names.now most line.now ≡ Some order) }
{
    let Some(mut reader) = values.tokens(line) else {
        return None;
    };
    let reader = &mut reader;
    take_object(reader)?;
    take_key(reader, "do")?;
    let word = take_text(reader)?;
    let Some(key) = reader.next_key().ok()? else {
        if reader.next().is_some() {
            return None;
        }
        return bare_order(word, 1);
    };
    if key != "lock" {
        return None;
    }
    let Some(submission) = take_submission(reader, names, most) else {
        return None;
    };
    if word == "submit" {
        return Some(Order::Submit(submission));
    }
    if word == "enter" {
        return Some(Order::Enter(submission));
    }
    None
}

/// Reads the rest of a submission, after the key `lock`.
#[inline(always)]
fn take_submission(reader: &mut Reader<'_>, names: &Names, most: u64) -> Option<Submission>
    ensures { IfSome result (λ submission. IsSubmissionTokens names.now most reader.old submission) }
{
    let lock = take_text(reader)?;
    take_key(reader, "number")?;
    let number = take_whole(reader)?;
    if number > most {
        return None;
    }
    take_key(reader, "script")?;
    let Some(script) = take_script(reader) else {
        return None;
    };
    let patience = take_patience(reader)?;
    Some(Submission {
        number,
        job: Job {
            lock: lock_number(names, lock),
            script,
        },
        patience,
    })
}

/// Reads the member with the patience, if there is one, and the end of the line.
fn take_patience(reader: &mut Reader<'_>) -> Option<Patience>
    ensures { IfSome result (λ patience. IsPatienceTokens reader.old patience) }
{
    let Some(key) = reader.next_key().ok()? else {
        if reader.next().is_some() {
            return None;
        }
        return Some(Patience::Tries(USUAL_TRIES));
    };
    let number = take_small(reader)?;
    take_end(reader)?;
    patience_named(key, number)
}

/// The patience of a member with this name and this number.
fn patience_named(key: &str, number: u32) -> Option<Patience>
    ensures { result ≡ patience_named key.now number }
{
    match key {
        "tries" => {
            if number == 0 || number > MOST_TRIES {
                return None;
            }
            Some(Patience::Tries(number))
        }
        "wait" => {
            if number > MOST_WAIT {
                return None;
            }
            Some(Patience::Wait(number))
        }
        _ => None,
    }
}
