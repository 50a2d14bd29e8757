//! The line that begins a session: its secret.

ghost use Rattle.std.specs.Prelude.{◌≡◌, ◌++◌, IfErr, IfOk, OnOk, option_map, string_bytes};
ghost use Rattle.serde_json.specs.Data.{string};
ghost use Rattle.serde_json.specs.Written.{compact_text};
ghost use Rattle.rme_line_json.specs.View.{value_view};
ghost use Rattle.rme_keys.specs.Allowing.{name_of};
ghost use Rattle.rme_session_keys.specs.Hellos as spec;
ghost use Rattle.rme_session_keys.specs.KeyedAnswers.{Greeted};

use crate::key_source::KeySource;
use rme_keys::Key;
use rme_session_loop::AnswerError;
use rme_wire::{Value as LineValue, ValueReader, ValueStorage, do_member};
use rme_words::NoMemory;
use serde_json::Value;
use std::alloc::{AllocError, Global};
use std::sync::Wait;

/// What a line is for a session that has no key.
#[derive(Drop)]
pub(crate) enum Greeting {
    /// It is no `hello`.
    NoHello,
    /// A `hello` with a secret that no key is for.
    WrongSecret,
    /// A `hello` with the secret of this key.
    Known(Key),
}

/// What a line is for a session without a key, by the keys of the source. `NoMemory` if memory was refused.
#[tactic(auto, unfolding(crate::specs::Hellos::secret_of_bytes))]
pub(crate) fn greet<S: KeySource, R: Wait>(
    rt: &R,
    alloc: Global,
    source: &S,
    line: &[u8],
) -> Result<Greeting, NoMemory>
    ensures { IfOk result (Greeted (S.had source.now) (spec.secret_of_bytes line.now)) }
{
    let mut values = ValueReader::new(alloc);
    let mut room = ValueStorage::new();
    let value = match values.read(&mut room, line)? {
        Some(value) => value,
        None => return Ok(Greeting::NoHello),
    };
    let Some(secret) = secret_of_value(&value) else {
        return Ok(Greeting::NoHello);
    };
    match source.find(rt, secret)? {
        Some(key) => Ok(Greeting::Known(key)),
        None => Ok(Greeting::WrongSecret),
    }
}

/// The secret of a value, `{"do":"hello","secret":".."}`; `None` for any other value.
#[tactic(auto, unfolding(crate::specs::Hellos::secret_of_value))]
fn secret_of_value<'a>(value: &LineValue<'a>) -> Option<&'a str>
    ensures { option_map (λ secret. secret.now) result ≡ spec.secret_of_value (value_view value.now) }
{
    let count = value.key_count()?;
    let word = do_member(value)?;
    if word != "hello" || count != 2 {
        return None;
    }
    value.get("secret")?.as_str()
}

/// Replaces a text by the answer to a `hello`, and a newline. After an error the text is unspecified.
pub(crate) fn write_hello(alloc: Global, text: &mut String, key: &Key) -> Result<(), AnswerError>
    ensures says { OnOk result (string_bytes text.new ≡ spec.hello_line (name_of key.now)) }
    ensures err { IfErr result (λ why. why ≡ AnswerError.NoMemory) }
{
    text.clear();
    match push_hello(alloc, text, key.name()) {
        Ok(()) => Ok(()),
        Err(_) => Err(AnswerError::NoMemory),
    }
}

/// Appends the answer to a `hello` with a key of this name, and a newline.
fn push_hello(alloc: Global, text: &mut String, name: &str) -> Result<(), AllocError>
    ensures { OnOk result (string_bytes text.new ≡ string_bytes text.old ++ spec.hello_line name.now) }
{
    let name = quoted(alloc, name)?;
    write!(text, "{{\"name\":{name},\"ok\":\"hello\"}}\n")
}

/// A text in JSON, with its quotes.
fn quoted(alloc: Global, text: &str) -> Result<String, AllocError>
    ensures { IfOk result (λ json. string_bytes json ≡ compact_text (string text.now)) }
{
    Value::String(String::from_str(alloc, text)?).to_string(alloc)
}
