//! The output of `rme explain`.

ghost use Rattle.std.specs.Prelude.{◌≡◌, ◌++◌, ◌∷◌, [], OnOk, codes, string_bytes};
ghost use Rattle.rme_cli_messages.specs.Explanations.{refusal_advice};

use crate::argument::escape_controls;
use crate::exit_status::{ExitStatus, LAST_STATUS};
use crate::explain::{LAST_CODE, refusal_advice, refusal_of, refusal_when};
use crate::fault::CliFault;
use rme_words::Refusal;
use std::alloc::{AllocError, Global};
use std::fmt::Write;

/// The word before the number or the name of a status.
const STATUS: &str = "status";

/// The greatest number of words of a name, as `no memory`.
const MOST_WORDS: usize = 3;

/// A query: a number or a name, and whether it may be that of a refusal.
#[derive(Clone, Copy)]
struct ExplainQuery<'a> {
    text: &'a str,
    is_status: bool,
}

/// The explanations of these words, in order; without words a line for each refusal and each status.
///
/// A word is a number or a name, which may also be given as a fault prints it, in two words; after the word `status` it
/// is only that of a status. A number or a name of both a refusal and a status explains both.
pub fn explanations(alloc: Global, words: &[String]) -> Result<String, CliFault> {
    let mut out = String::new(alloc);
    if words.is_empty() {
        let all = ExplainQuery {
            text: "",
            is_status: false,
        };
        push_explained(&mut out, all)?;
        return Ok(out);
    }
    let mut rest = words;
    for _ in 0..words.len() {
        if rest.is_empty() {
            break;
        }
        let used = push_next(&mut out, alloc, rest)?;
        rest = rest.get(used..).unwrap_or(&[]);
    }
    Ok(out)
}

/// Appends the explanation of the first of these words, and answers how many words it took.
fn push_next(out: &mut String, alloc: Global, words: &[String]) -> Result<usize, CliFault> {
    let is_status = words.len() > 1 && is_status_word(&words[0]);
    let before = usize::from(is_status);
    let length = out.len();
    let mut text = String::new(alloc);
    for (index, word) in words[before..].iter().take(MOST_WORDS).enumerate() {
        if word.is_empty() {
            break;
        }
        text.push_str(word.as_str())?;
        push_explained(
            out,
            ExplainQuery {
                text: text.as_str(),
                is_status,
            },
        )?;
        if out.len() != length {
            return Ok(before + index + 1);
        }
    }
    Err(unexplained(alloc, words, before)?)
}

fn is_status_word(word: &String) -> bool {
    word.as_bytes().eq_ignore_ascii_case(STATUS.as_bytes())
}

/// The fault if the word at this index, which is 0 or 1, is the number or the name of nothing.
fn unexplained(alloc: Global, words: &[String], place: usize) -> Result<CliFault, AllocError> {
    let word = match words.get(place) {
        Some(word) => word.as_str(),
        None => "",
    };
    if word.is_empty() {
        return Ok(CliFault::NothingAsked);
    }
    Ok(CliFault::Unexplained(escape_controls(alloc, word)?))
}

/// Appends the explanations of a query; nothing if nothing has the number or the name.
fn push_explained(out: &mut String, asked: ExplainQuery<'_>) -> Result<(), AllocError> {
    if !asked.is_status {
        push_refusals(out, asked.text)?;
    }
    for status in 0..=LAST_STATUS {
        if let Some(ending) = ExitStatus::of_status(status) {
            push_exit_status(out, asked.text, status, &ending)?;
        }
    }
    Ok(())
}

/// Appends the explanations of the refusals that match the query.
fn push_refusals(out: &mut String, asked: &str) -> Result<(), AllocError> {
    for code in 1..=LAST_CODE {
        let Some(refusal) = refusal_of(code) else {
            unreachable!();
        };
        push_refusal(out, asked, code, &refusal)?;
    }
    Ok(())
}

/// Appends the explanation of a refusal, if it matches the query; without advice in the list that has one line for each.
fn push_refusal(
    out: &mut String,
    asked: &str,
    code: u32,
    refusal: &Refusal,
) -> Result<(), AllocError> {
    let name = refusal.name();
    if !is_asked(asked, code, name) {
        return Ok(());
    }
    writeln!(out, "{code} {name}: {}", refusal_when(refusal))?;
    if asked.is_empty() {
        return Ok(());
    }
    push_refusal_advice(out, refusal)
}

/// Appends the advice on a refusal, indented, and a newline.
fn push_refusal_advice(out: &mut String, refusal: &Refusal) -> Result<(), AllocError>
    ensures { OnOk result (string_bytes out.new ≡ string_bytes out.old
        ++ (codes "  " ++ (refusal_advice refusal.now ++ 10 ∷ []))) }
{
    writeln!(out, "  {}", refusal_advice(refusal))
}

/// Appends the explanation of a status, in the same way.
fn push_exit_status(
    out: &mut String,
    asked: &str,
    status: u8,
    ending: &ExitStatus,
) -> Result<(), AllocError> {
    let name = ending.name();
    if !is_asked(asked, u32::from(status), name) {
        return Ok(());
    }
    writeln!(out, "status {status} {name}: {}", ending.when())?;
    if asked.is_empty() {
        return Ok(());
    }
    writeln!(out, "  {}", ending.advice())
}

/// Whether this number or this name matches the query.
fn is_asked(asked: &str, number: u32, name: &str) -> bool {
    asked.is_empty()
        || is_number(asked, number)
        || asked.as_bytes().eq_ignore_ascii_case(name.as_bytes())
}

/// Whether a text is this number.
fn is_number(text: &str, number: u32) -> bool {
    match text.parse::<u32>() {
        Ok(parsed) => parsed == number,
        Err(_) => false,
    }
}
