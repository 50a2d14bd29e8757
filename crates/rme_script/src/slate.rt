//! The words of a script: three for each operation.

ghost use Rattle.std.specs.Prelude.{◌≡◌, ◌*◌, ◌^◌, ◌<◌, ◌≤◌, ◌↔◌, Some, None, IsTrue, IsFalse, length, slice_index};
ghost use Rattle.rme_script.specs.Programs.{Program};
ghost use Rattle.rme_script.specs.Scripts.{OpIsWithin};
ghost use Rattle.rme_script.specs.Slates.{IsSlate, op_words, op_from_words, slate_of, script_from_words};

use crate::limits::{MOST_OPERATIONS, OPERATION_WORDS, SLATE_WORDS};
use crate::op::Op;
use crate::script::Script;

/// The three words of an operation: its kind, and its first and second word.
pub fn op_words(op: Op) -> [u64; OPERATION_WORDS]
    ensures words { result ≡ op_words op }
    ensures within { OpIsWithin (2 ^ 32) op }
{
    match op {
        Op::Get(c) => [0, c as u64, 0],
        Op::Set(c, value) => [1, c as u64, value],
        Op::Add(c, value) => [2, c as u64, value],
        Op::Copy(from, to) => [3, from as u64, to as u64],
        Op::Swap(a, b) => [4, a as u64, b as u64],
    }
}

/// The operation of three words, or `None` if they encode none: a kind above 4, a get whose second word is not 0, or a
/// cell number of 2^32 or more.
pub fn op_from_words(kind: u64, first: u64, second: u64) -> Option<Op>
    ensures { result ≡ op_from_words kind first second }
{
    let c = u32::try_from(first).ok()?;
    match kind {
        0 if second == 0 => Some(Op::Get(c)),
        1 => Some(Op::Set(c, second)),
        2 => Some(Op::Add(c, second)),
        3 => Some(Op::Copy(c, u32::try_from(second).ok()?)),
        4 => Some(Op::Swap(c, u32::try_from(second).ok()?)),
        _ => None,
    }
}

/// One word of a script's slate, within the words of its operations: the word of `slate_words` at `at`.
pub fn slate_word(script: &Script, at: u32) -> u64
    requires { at < 3 * length script.now.ops }
    ensures { result ≡ slice_index (slate_of script.now.ops) at }
{
    let [kind, first, second] = op_words(script.op(at / 3));
    let part = at % 3;
    if part == 0 {
        return kind;
    }
    if part == 1 {
        return first;
    }
    second
}

/// The words of a script of at most eight operations: kind, first and second word of each operation, and 0 in
/// the words that are not used.
pub fn slate_words(script: &Script) -> [u64; SLATE_WORDS]
    requires { script.now.n ≤ 8 }
    ensures words { result ≡ slate_of script.now.ops }
    ensures back { script_from_words script.now.n result ≡ Some script.now }
{
    let mut words = [0; SLATE_WORDS];
    for i in 0..script.n() {
        let start = OPERATION_WORDS * i as usize;
        words[start..start + OPERATION_WORDS].copy_from_slice(&op_words(script.op(i)));
    }
    words
}

/// The script of `n` operations that these words encode.
///
/// `None` if `n` is over 8, or three of the first words encode no operation: a kind above 4, a get whose second word is
/// not 0, a cell number of 2^32 or more. Words after the first 3n are not read.
pub fn from_slate(n: u64, words: &[u64; SLATE_WORDS]) -> Option<Script>
    ensures decoded { result ≡ script_from_words n words.now }
    ensures exact { (p : Program) → (result ≡ Some p) ↔ IsSlate n words.now p }
{
    let mut script = Script::of(&[]);
    if read_slate(n, words, &mut script) {
        return Some(script);
    }
    None
}

/// Reads the script of `from_slate` into `script`, and answers whether there is one. If there is none, `script` may
/// have any value.
pub fn read_slate(n: u64, words: &[u64; SLATE_WORDS], script: &mut Script) -> bool
    ensures read { IsTrue result → Some script.new ≡ script_from_words n words.now }
    ensures none { IsFalse result → None ≡ script_from_words n words.now }
{
    if n > MOST_OPERATIONS as u64 {
        return false;
    }
    script.begin(n as u32);
    for i in 0..n as u32 {
        let at = OPERATION_WORDS * i as usize;
        let Some(op) = op_from_words(words[at], words[at + 1], words[at + 2]) else {
            return false;
        };
        script.put(i, op);
    }
    true
}
