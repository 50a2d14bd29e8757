//! What the text of an answer says.

ghost use Rattle.std.specs.Prelude.{◌≡◌, ◌≤◌, ◌∷◌, ◌++◌, ℕ, List, IfSome, IsTrue, codes, drop, length};
ghost use Rattle.rme_metrics.specs.OrderKinds.{order_kind_word};
ghost use Rattle.rme_session_metrics.specs.AnswerTexts.{SaysAnswer};

use memchr::memmem;
use rme_metrics::{ORDER_KINDS, OrderKind};

/// What an answer counts as.
#[derive(Clone, Copy, Debug, PartialEq, Eq)]
pub enum CountedAnswer {
    /// An order of this kind was answered.
    Answered(OrderKind),
    /// The line was refused with this code.
    Refused(u32),
    /// Neither.
    Uncounted,
}

/// What an answer counts as, by its bytes. An answer is an object whose members are in the order of their names, and a
/// quote within a text is escaped, so `"ok":"` stands in it only as the member that says its kind.
pub fn counted_answer(text: &[u8]) -> CountedAnswer
    ensures { SaysAnswer text.now result }
{
    if let Some(digits) = text.strip_prefix(b"{\"code\":".as_slice()) {
        return match code_of(digits) {
            Some(code) => CountedAnswer::Refused(code),
            None => CountedAnswer::Uncounted,
        };
    }
    match memmem::find(text, b"\"ok\":\"".as_slice()) {
        Some(at) => answered_at(text, at),
        None => CountedAnswer::Uncounted,
    }
}

/// The code that stands before a comma.
fn code_of(digits: &[u8]) -> Option<u32> {
    match digits {
        [ones @ b'0'..=b'9', b',', ..] => Some(u32::from(*ones - b'0')),
        [tens @ b'0'..=b'9', ones @ b'0'..=b'9', b',', ..] => {
            Some(u32::from(*tens - b'0') * 10 + u32::from(*ones - b'0'))
        }
        _ => None,
    }
}

/// What an answer counts as whose member `ok` stands at this place.
fn answered_at(text: &[u8], at: usize) -> CountedAnswer
    requires { at ≤ length text.now }
    ensures { SaysAnswer text.now result }
{
    match kind_at(behind(text, at)) {
        Some(kind) => CountedAnswer::Answered(kind),
        None => CountedAnswer::Uncounted,
    }
}

/// The bytes from this place on.
fn behind(text: &[u8], at: usize) -> &[u8]
    requires { at ≤ length text.now }
    ensures { result.now ≡ drop at text.now }
{
    &text[at..]
}

/// The kind of an answer from its member `ok` on.
fn kind_at(text: &[u8]) -> Option<OrderKind>
    ensures { IfSome result (λ kind. (behind : List ℕ)
        × (text.now ≡ codes "\"ok\":\"" ++ (order_kind_word kind ++ 34 ∷ behind))) }
{
    let word = text.strip_prefix(b"\"ok\":\"".as_slice())?;
    for kind in ORDER_KINDS {
        if is_word(word, kind.word().as_bytes()) {
            return Some(kind);
        }
    }
    None
}

/// Whether a text begins with a word and a quote.
fn is_word(text: &[u8], word: &[u8]) -> bool
    ensures { IsTrue result → (behind : List ℕ) × (text.now ≡ word.now ++ 34 ∷ behind) }
{
    match text.strip_prefix(word) {
        Some([b'"', ..]) => true,
        _ => false,
    }
}
