//! Rows worked out by hand: what the keys of a file allow, and why a file is refused. The digests are those that
//! `printf %s apple | sha256sum` prints, and likewise of `banana` and `cherry`.

use rme_keys::{BadKeyLine, Key, KeyFileError, Keys};
use std::alloc::{AllocError, Global};
use std::process::Abort;
use std::test::Fail;

const FILE: &[u8] = b"# three keys
ops 3a7bd3e2360a3d29eea436fcfb7e44c735d117c42d1c1835420b6b9942dd4f1b *

team\tB493D48364AFE44D11C0165CF470A4164D1E2609911EF998BE868D46ADE3DE4E \t0-3,7 +tenant-7,team-*#of the team
looks 2daf0e6c79009f9234ed9baa5bb930898e2847810617e118518d88e4d3140a2e - *";

/// What a secret's key says of a worker and a space, and of creating.
#[derive(Clone, Copy, Debug, PartialEq, Eq)]
enum Said {
    NoKey,
    Key {
        worker: bool,
        space: bool,
        create: bool,
    },
}

fn key_says(worker: bool, space: bool, create: bool) -> Said {
    Said::Key {
        worker,
        space,
        create,
    }
}

fn said_of(keys: &Keys, secret: &str, worker: u32, space: &str) -> Said {
    match keys.find(secret) {
        None => Said::NoKey,
        Some(key) => key_says(
            key.allows_worker(worker),
            key.allows_space(space),
            key.may_create(),
        ),
    }
}

fn check_said(rt: &impl Abort, keys: &Keys, row: (&str, u32, &str), wanted: Said) {
    assert!(rt; said_of(keys, row.0, row.1, row.2) == wanted);
}

#[test]
fn keys_allow_what_their_lines_say(rt: HostRuntime) -> Result<(), Fail> {
    let keys = Keys::parse(rt.alloc(), FILE)?;
    check_said(&rt, &keys, ("apple", 0, "a"), key_says(true, true, false));
    check_said(
        &rt,
        &keys,
        ("apple", 254, "tenant-7"),
        key_says(true, true, false),
    );
    check_said(&rt, &keys, ("apple", 255, ""), key_says(true, false, false));
    check_said(
        &rt,
        &keys,
        ("apple", 4_294_967_295, "Tenant"),
        key_says(true, false, false),
    );
    Ok(())
}

#[test]
fn keys_allow_no_more_than_their_lines_say(rt: HostRuntime) -> Result<(), Fail> {
    let keys = Keys::parse(rt.alloc(), FILE)?;
    check_said(
        &rt,
        &keys,
        ("banana", 3, "tenant-7"),
        key_says(true, true, true),
    );
    check_said(
        &rt,
        &keys,
        ("banana", 7, "team-"),
        key_says(true, true, true),
    );
    check_said(
        &rt,
        &keys,
        ("banana", 4, "tenant-70"),
        key_says(false, false, true),
    );
    check_said(
        &rt,
        &keys,
        ("banana", 8, "team"),
        key_says(false, false, true),
    );
    check_said(&rt, &keys, ("cherry", 0, "z"), key_says(false, true, false));
    check_said(&rt, &keys, ("Apple", 0, "a"), Said::NoKey);
    check_said(&rt, &keys, ("", 0, "a"), Said::NoKey);
    Ok(())
}

/// The name of a secret's key, and whether all workers below a number may be attached.
fn check_below(rt: &impl Abort, keys: &Keys, secret: &str, wanted: (&str, u32, bool)) {
    let (name, count, allowed) = wanted;
    match keys.find(secret) {
        None => assert!(rt; false),
        Some(key) => {
            assert!(rt; key.name() == name);
            assert!(rt; key.allows_workers_below(count) == allowed);
        }
    }
}

#[test]
fn keys_have_names_and_first_workers(rt: HostRuntime) -> Result<(), Fail> {
    let keys = Keys::parse(rt.alloc(), FILE)?;
    check_below(&rt, &keys, "apple", ("ops", 256, true));
    check_below(&rt, &keys, "banana", ("team", 4, true));
    check_below(&rt, &keys, "banana", ("team", 5, false));
    check_below(&rt, &keys, "cherry", ("looks", 0, true));
    check_below(&rt, &keys, "cherry", ("looks", 1, false));
    Ok(())
}

/// A copy of the key of a secret. The keys of the file are let go.
fn copy_of(alloc: Global, secret: &str) -> Result<Option<Key>, KeyFileError> {
    let keys = Keys::parse(alloc, FILE)?;
    match keys.find(secret) {
        None => Ok(None),
        Some(key) => Ok(Some(key.copied(alloc)?)),
    }
}

#[test]
fn copies_allow_what_their_keys_allow(rt: HostRuntime) -> Result<(), Fail> {
    let Some(key) = copy_of(rt.alloc(), "banana")? else {
        assert!(rt; false);
        return Ok(());
    };
    assert!(rt; key.name() == "team");
    assert!(rt; key.allows_worker(7) && !key.allows_worker(4));
    assert!(rt; key.allows_space("tenant-7") && key.allows_space("team-9"));
    assert!(rt; !key.allows_space("tenant-70") && key.may_create());
    Ok(())
}

/// The words after a name and the digest of `apple`, and why they are refused.
const WORDS: &[(&str, Option<BadKeyLine>)] = &[
    ("0", None),
    ("255", None),
    ("0-255", None),
    ("7-7,7,0-3", None),
    ("007", None),
    ("* +*", None),
    ("* +a-b_c,d*", None),
    (
        "* 0123456789012345678901234567890123456789012345678901234567890123",
        None,
    ),
    (
        "* 0123456789012345678901234567890123456789012345678901234567890123*",
        None,
    ),
    ("", Some(BadKeyLine::Words)),
    ("#*", Some(BadKeyLine::Words)),
    ("* * *", Some(BadKeyLine::Words)),
    ("256", Some(BadKeyLine::Workers)),
    ("3-2", Some(BadKeyLine::Workers)),
    ("1,,2", Some(BadKeyLine::Workers)),
    ("1,", Some(BadKeyLine::Workers)),
    ("1-", Some(BadKeyLine::Workers)),
    ("1-2-3", Some(BadKeyLine::Workers)),
    ("*,1", Some(BadKeyLine::Workers)),
    ("+1", Some(BadKeyLine::Workers)),
    ("99999999999999999999", Some(BadKeyLine::Workers)),
    ("256 A", Some(BadKeyLine::Workers)),
    ("* +", Some(BadKeyLine::Spaces)),
    ("* ++a", Some(BadKeyLine::Spaces)),
    ("* a,+b", Some(BadKeyLine::Spaces)),
    ("* A", Some(BadKeyLine::Spaces)),
    ("* a*b", Some(BadKeyLine::Spaces)),
    ("* a,", Some(BadKeyLine::Spaces)),
    (
        "* 01234567890123456789012345678901234567890123456789012345678901234",
        Some(BadKeyLine::Spaces),
    ),
];

fn refusal_of(alloc: Global, words: &str) -> Result<Option<KeyFileError>, AllocError> {
    let digest = "3a7bd3e2360a3d29eea436fcfb7e44c735d117c42d1c1835420b6b9942dd4f1b";
    let line = format!(in alloc; "a {digest} {words}")?;
    Ok(Keys::parse(alloc, line.as_bytes()).err())
}

fn check_words(rt: &impl Abort, refusal: Option<KeyFileError>, why: Option<BadKeyLine>) {
    assert!(rt; refusal == why.map(|why| KeyFileError::BadLine { line: 1, why }));
}

#[test]
fn words_are_read_or_refused(rt: HostRuntime) -> Result<(), Fail> {
    for (words, why) in WORDS {
        let refusal = refusal_of(rt.alloc(), words)?;
        check_words(&rt, refusal, *why);
    }
    Ok(())
}

/// Files, the number of their first bad line, and why it is bad.
const FILES: &[(&[u8], u64, BadKeyLine)] = &[
    (b"a 3a7b *", 1, BadKeyLine::Digest),
    (
        b"\n\na 3a7bd3e2360a3d29eea436fcfb7e44c735d117c42d1c1835420b6b9942dd4f1g *\nb\n",
        3,
        BadKeyLine::Digest,
    ),
    (
        b"#\n\xff 3a7bd3e2360a3d29eea436fcfb7e44c735d117c42d1c1835420b6b9942dd4f1b *",
        2,
        BadKeyLine::Name,
    ),
    (
        b"a 3a7bd3e2360a3d29eea436fcfb7e44c735d117c42d1c1835420b6b9942dd4f1b *\n
a b493d48364afe44d11c0165cf470a4164d1e2609911ef998be868d46ade3de4e *\nb",
        3,
        BadKeyLine::SameName,
    ),
    (
        b"a 3a7bd3e2360a3d29eea436fcfb7e44c735d117c42d1c1835420b6b9942dd4f1b *
b 3A7bd3e2360a3d29eea436fcfb7e44c735d117c42d1c1835420b6b9942dd4f1b -",
        2,
        BadKeyLine::SameDigest,
    ),
    (b"a b c d e\nf", 1, BadKeyLine::Words),
];

#[test]
fn the_first_bad_line_is_named(rt: HostRuntime) -> Result<(), Fail> {
    for (file, line, why) in FILES {
        let refusal = Keys::parse(rt.alloc(), file).err();
        assert!(rt;
            refusal
                == Some(KeyFileError::BadLine {
                    line: *line,
                    why: *why
                })
        );
    }
    Ok(())
}

fn check_no_keys(rt: &impl Abort, alloc: Global, file: &[u8]) -> Result<(), KeyFileError> {
    let keys = Keys::parse(alloc, file)?;
    assert!(rt; keys.find("apple").is_none());
    Ok(())
}

#[test]
fn files_without_words_have_no_keys(rt: HostRuntime) -> Result<(), Fail> {
    check_no_keys(&rt, rt.alloc(), b"")?;
    check_no_keys(&rt, rt.alloc(), b"\n\n")?;
    check_no_keys(&rt, rt.alloc(), b" \t\n#")?;
    check_no_keys(&rt, rt.alloc(), b"  # apple")?;
    Ok(())
}

#[test]
fn errors_have_texts(rt: HostRuntime) -> Result<(), Fail> {
    let error = KeyFileError::BadLine {
        line: 7,
        why: BadKeyLine::SameName,
    };
    let text = format!(in rt.alloc(); "{error}; {}", KeyFileError::NoMemory)?;
    assert_eq!(rt;
        text.as_str(),
        "line 7: an earlier line has this name; no memory"
    );
    Ok(())
}
