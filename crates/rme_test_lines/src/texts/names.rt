//! The names of locks.

use rme_wire::{Names, is_name};
use rme_words::Refusal;
use std::process::Abort;
use std::test::Fail;

const BAD: Result<u32, Refusal> = Err(Refusal::BadShape);

/// Texts, whether they are names, and the answers when they are added one after another: a name has 1 to 32 bytes of
/// `a` to `z`, `0` to `9`, `_` and `-`, is added once, and there are at most sixteen.
const ADDED: &[(&str, bool, Result<u32, Refusal>)] = &[
    ("a", true, Ok(0)),
    ("a", true, BAD),
    ("shop_2-b", true, Ok(1)),
    ("abcdefghijklmnopqrstuvwxyz012345", true, Ok(2)),
    ("abcdefghijklmnopqrstuvwxyz0123456", false, BAD),
    ("", false, BAD),
    ("A", false, BAD),
    ("a b", false, BAD),
    ("a.b", false, BAD),
    ("\u{e9}", false, BAD),
    ("d", true, Ok(3)),
    ("e", true, Ok(4)),
    ("f", true, Ok(5)),
    ("g", true, Ok(6)),
    ("h", true, Ok(7)),
    ("i", true, Ok(8)),
    ("j", true, Ok(9)),
    ("k", true, Ok(10)),
    ("l", true, Ok(11)),
    ("m", true, Ok(12)),
    ("n", true, Ok(13)),
    ("o", true, Ok(14)),
    ("p", true, Ok(15)),
    ("q", true, BAD),
];

/// The addition of a text must have this answer. It is a function of its own, since each call of `add` in one body
/// makes the proof of the next slower.
fn check_add(rt: &impl Abort, names: &mut Names, text: &str, wanted: Result<u32, Refusal>) {
    assert!(rt; names.add(text) == wanted);
}

/// Adds all of them, to no names.
fn add_all(rt: &impl Abort, names: &mut Names) {
    for (text, is, wanted) in ADDED {
        assert!(rt; is_name(text) == *is);
        check_add(rt, names, text, *wanted);
    }
}

fn check_names(rt: &impl Abort, names: &Names) {
    assert!(rt; names.len() == 16);
    assert!(rt; names.number("shop_2-b") == Some(1));
    assert!(rt; names.number("b").is_none());
    assert!(rt; names.name(1) == "shop_2-b");
}

#[test]
fn added(rt: HostRuntime) -> Result<(), Fail> {
    let mut names = Names::new(rt.alloc())?;
    add_all(&rt, &mut names);
    check_names(&rt, &names);
    Ok(())
}
