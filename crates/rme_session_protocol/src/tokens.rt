//! Reading a line token by token.

ghost use Rattle.std.specs.Prelude.{◌≡◌, [], ◌∷◌, IfSome, OnSome};
ghost use Rattle.json.specs.Token.{begin_object, end_object, key, string};
ghost use Rattle.rme_session_protocol.specs.Tokens.{IsWholeToken, IsSmallToken, IsOperationTokens, IsScriptTokens, op_on, small_of};

use json::{Reader, Token};
use rme_script::{Op, Script};
use rme_wire::whole_number;

/// The greatest number of operations of a script. Lines with more are read by their value.
const MOST_OPERATIONS: usize = 8;

/// Reads the brace that opens an object.
pub fn take_object(reader: &mut Reader<'_>) -> Option<()>
    ensures { OnSome result (reader.old ≡ begin_object ∷ reader.new) }
{
    let Token::BeginObject = reader.next()? else {
        return None;
    };
    Some(())
}

/// Reads a key of this name.
pub fn take_key(reader: &mut Reader<'_>, name: &str) -> Option<()>
    ensures { OnSome result (reader.old ≡ key name.now ∷ reader.new) }
{
    let Token::Key(found) = reader.next()? else {
        return None;
    };
    if found == name { Some(()) } else { None }
}

/// Reads a text.
pub fn take_text<'a>(reader: &mut Reader<'a>) -> Option<&'a str>
    ensures { IfSome result (λ text. reader.old ≡ string text.now ∷ reader.new) }
{
    let Token::String(text) = reader.next()? else {
        return None;
    };
    Some(text)
}

/// Reads a whole number that is written only with digits.
pub fn take_whole(reader: &mut Reader<'_>) -> Option<u64>
    ensures { IfSome result (λ n. IsWholeToken reader.old n reader.new) }
{
    let Token::Number(text) = reader.next()? else {
        return None;
    };
    whole_number(text)?.as_u64()
}

/// Reads the brace that closes the object of the line, after which nothing may follow.
pub fn take_end(reader: &mut Reader<'_>) -> Option<()>
    ensures { OnSome result (reader.old ≡ end_object ∷ []) }
{
    let Token::EndObject = reader.next()? else {
        return None;
    };
    if reader.next().is_some() {
        None
    } else {
        Some(())
    }
}

/// Reads a whole number below 2^32.
pub fn take_small(reader: &mut Reader<'_>) -> Option<u32>
    ensures { IfSome result (λ n. IsSmallToken reader.old n reader.new) }
{
    let number = take_whole(reader)?;
    small_of(number)
}

/// Reads a list that encodes an operation.
fn take_operation(reader: &mut Reader<'_>) -> Option<Op>
    ensures { IfSome result (λ op. IsOperationTokens reader.old op reader.new) }
{
    let Token::BeginArray = reader.next()? else {
        return None;
    };
    let word = take_text(reader)?;
    let first = take_small(reader)?;
    if reader.take_end_array() {
        return if word == "get" {
            Some(Op::Get(first))
        } else {
            None
        };
    }
    let second = take_whole(reader)?;
    if !reader.take_end_array() {
        return None;
    }
    op_on(word, first, second)
}

/// The operation of this word on two numbers.
fn op_on(word: &str, first: u32, second: u64) -> Option<Op>
    ensures { result ≡ op_on word.now first second }
{
    match word {
        "set" => Some(Op::Set(first, second)),
        "add" => Some(Op::Add(first, second)),
        "copy" => Some(Op::Copy(first, small_of(second)?)),
        "swap" => Some(Op::Swap(first, small_of(second)?)),
        _ => None,
    }
}

/// A number, if it is below 2^32.
fn small_of(number: u64) -> Option<u32>
    ensures { result ≡ small_of number }
{
    if number > u64::from(u32::MAX) {
        return None;
    }
    Some(number as u32)
}

/// Reads a list that is a script of at most eight operations.
pub fn take_script(reader: &mut Reader<'_>) -> Option<Script>
    ensures { IfSome result (λ script. IsScriptTokens reader.old script reader.new) }
{
    let Token::BeginArray = reader.next()? else {
        return None;
    };
    let mut ops = [Op::Get(0); MOST_OPERATIONS];
    let mut count = 0;
    'operations: while !reader.take_end_array() {
        let op = take_operation(reader)?;
        if count >= MOST_OPERATIONS {
            return None;
        }
        ops[count] = op;
        count += 1;
    }
    Some(Script::of(&ops[..count]))
}
