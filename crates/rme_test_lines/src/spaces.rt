//! Rows worked out by hand: names, the orders of lines, and the texts of answers.

use rme_space_orders::{
    NewSpace, SpaceLine, SpaceName, SpaceOrder, SpaceReply, parse_space_order, push_space_reply,
};
use rme_words::NoMemory;
use std::alloc::{AllocError, Global};
use std::process::Abort;
use std::test::Fail;

/// What a line is, in words.
fn said(alloc: Global, line: &str) -> Result<String, NoMemory> {
    let mut text = String::new(alloc);
    match parse_space_order(alloc, line.as_bytes())? {
        SpaceLine::Other => text.push_str("other")?,
        SpaceLine::Refused(refusal) => text.push_str(refusal.name())?,
        SpaceLine::Order(SpaceOrder::Create(space)) => push_new_space(&mut text, &space)?,
        SpaceLine::Order(SpaceOrder::Use(name)) => push_word(&mut text, "use", name.as_str())?,
        SpaceLine::Order(SpaceOrder::Drop(name)) => push_word(&mut text, "drop", name.as_str())?,
        SpaceLine::Order(SpaceOrder::Spaces(None)) => text.push_str("spaces")?,
        SpaceLine::Order(SpaceOrder::Spaces(Some(after))) => {
            push_word(&mut text, "spaces after", after.as_str())?
        }
    }
    Ok(text)
}

fn push_word(text: &mut String, word: &str, name: &str) -> Result<(), AllocError> {
    write!(text, "{word} {name}")
}

fn push_new_space(text: &mut String, space: &NewSpace) -> Result<(), AllocError> {
    push_word(text, "create", space.name.as_str())?;
    for lock in space.locks.as_slice() {
        push_word(text, "", lock.as_str())?;
    }
    let NewSpace { workers, cells, .. } = space;
    write!(text, ", {workers} workers, {cells} cells")
}

/// Lines, and what they are.
const LINES: &[(&str, &str)] = &[
    (
        r#"{"do":"create","locks":["bank","log"],"space":"a"}"#,
        "create a bank log, 8 workers, 1 cells",
    ),
    (
        r#"{"cells":16,"do":"create","locks":["x"],"space":"-_09az","workers":255}"#,
        "create -_09az x, 255 workers, 16 cells",
    ),
    (
        r#"{"workers":1,"space":"tenant-7","locks":["x"],"do":"create"}"#,
        "create tenant-7 x, 1 workers, 1 cells",
    ),
    (
        r#"{"cells":2,"do":"create","locks":["x"],"space":"a"}"#,
        "create a x, 8 workers, 2 cells",
    ),
    (r#"{"do":"use","space":"a"}"#, "use a"),
    (r#" {"space" : "a" , "do" : "use"} "#, "use a"),
    (r#"{"do":"use","space":"\u0061"}"#, "use a"),
    (r#"{"do":"use","space":"a","space":"b"}"#, "use b"),
    (r#"{"do":"spaces"}"#, "spaces"),
    (r#"{"after":"a","do":"spaces"}"#, "spaces after a"),
    (r#"{"do":"drop","space":"a"}"#, "drop a"),
    // A key that is missing, or a further one.
    (r#"{"do":"create","locks":["x"]}"#, "BadLine"),
    (r#"{"do":"create","space":"a"}"#, "BadLine"),
    (
        r#"{"do":"create","jobs":1,"locks":["x"],"space":"a"}"#,
        "BadLine",
    ),
    (
        r#"{"cells":1,"do":"create","jobs":1,"locks":["x"],"space":"a","workers":1}"#,
        "BadLine",
    ),
    (r#"{"do":"use"}"#, "BadLine"),
    (r#"{"do":"use","name":"a"}"#, "BadLine"),
    (r#"{"do":"use","space":"a","take":true}"#, "BadLine"),
    (r#"{"do":"spaces","space":"a"}"#, "BadLine"),
    (r#"{"after":"a","do":"spaces","space":"a"}"#, "BadLine"),
    (r#"{"do":"drop"}"#, "BadLine"),
    (r#"{"do":"drop","force":true,"space":"a"}"#, "BadLine"),
    // A value of a wrong type.
    (r#"{"do":"create","locks":["x"],"space":1}"#, "BadLine"),
    (r#"{"do":"create","locks":"x","space":"a"}"#, "BadLine"),
    (r#"{"do":"create","locks":["x",1],"space":"a"}"#, "BadLine"),
    (
        r#"{"do":"create","locks":["x"],"space":"a","workers":"8"}"#,
        "BadLine",
    ),
    (
        r#"{"do":"create","locks":["x"],"space":"a","workers":-1}"#,
        "BadLine",
    ),
    (
        r#"{"do":"create","locks":["x"],"space":"a","workers":4294967296}"#,
        "BadLine",
    ),
    (
        r#"{"cells":1.5,"do":"create","locks":["x"],"space":"a"}"#,
        "BadLine",
    ),
    (
        r#"{"cells":null,"do":"create","locks":["x"],"space":"a"}"#,
        "BadLine",
    ),
    (r#"{"do":"use","space":null}"#, "BadLine"),
    (r#"{"do":"drop","space":["a"]}"#, "BadLine"),
    (r#"{"after":null,"do":"spaces"}"#, "BadLine"),
    // A name that is no name of a space, or locks and sizes that are not possible.
    (r#"{"do":"create","locks":["x"],"space":""}"#, "BadShape"),
    (r#"{"do":"create","locks":["x"],"space":"A"}"#, "BadShape"),
    (r#"{"do":"create","locks":[],"space":"a"}"#, "BadShape"),
    (r#"{"do":"create","locks":[""],"space":"a"}"#, "BadShape"),
    (
        r#"{"do":"create","locks":["x","x"],"space":"a"}"#,
        "BadShape",
    ),
    (
        r#"{"do":"create","locks":["x"],"space":"a","workers":0}"#,
        "BadShape",
    ),
    (
        r#"{"do":"create","locks":["x"],"space":"a","workers":256}"#,
        "BadShape",
    ),
    (
        r#"{"do":"create","locks":["x"],"space":"a","workers":4294967295}"#,
        "BadShape",
    ),
    (
        r#"{"cells":0,"do":"create","locks":["x"],"space":"a"}"#,
        "BadShape",
    ),
    (
        r#"{"cells":17,"do":"create","locks":["x"],"space":"a"}"#,
        "BadShape",
    ),
    (r#"{"do":"use","space":""}"#, "BadShape"),
    (r#"{"do":"use","space":".."}"#, "BadShape"),
    (r#"{"do":"use","space":"a/b"}"#, "BadShape"),
    (r#"{"do":"use","space":"a\u0000"}"#, "BadShape"),
    (r#"{"after":"","do":"spaces"}"#, "BadShape"),
    (r#"{"do":"drop","space":"."}"#, "BadShape"),
    // No order on spaces.
    ("", "other"),
    ("{", "other"),
    ("[]", "other"),
    ("{}", "other"),
    (r#"{"space":"a"}"#, "other"),
    (r#"{"do":1,"space":"a"}"#, "other"),
    (r#"{"do":"Use","space":"a"}"#, "other"),
    (r#"{"do":"space"}"#, "other"),
    (r#"{"do":"attach","worker":0}"#, "other"),
    (r#"["use"]"#, "other"),
];

#[test]
fn lines_are_orders(rt: HostRuntime) -> Result<(), Fail> {
    for (line, wanted) in LINES {
        let text = said(rt.alloc(), line)?;
        assert_eq!(rt; text.as_str(), *wanted, "at {line}");
    }
    Ok(())
}

/// A line that creates a space of this name with this number of locks.
fn creation(alloc: Global, name: &str, locks: u32) -> Result<String, AllocError> {
    let mut line = format!(in alloc; "{{\"do\":\"create\",\"space\":\"{name}\",\"locks\":[\"l0\"")?;
    for lock in 1..locks {
        write!(line, ",\"l{lock}\"")?;
    }
    line.push_str("]}")?;
    Ok(line)
}

fn check_creation(
    rt: &impl Abort,
    alloc: Global,
    locks: u32,
    wanted: &str,
) -> Result<(), NoMemory> {
    let line = creation(alloc, "a", locks)?;
    let text = said(alloc, line.as_str())?;
    assert!(rt; text.as_str().ends_with(wanted), "with {locks} locks");
    Ok(())
}

#[test]
fn spaces_have_at_most_sixteen_locks(rt: HostRuntime) -> Result<(), Fail> {
    check_creation(&rt, rt.alloc(), 16, " l15, 8 workers, 1 cells")?;
    check_creation(&rt, rt.alloc(), 17, "BadShape")?;
    Ok(())
}

/// Whether a text is a name, by the parser of names.
fn is_name(alloc: Global, text: &str) -> Result<bool, AllocError> {
    match SpaceName::parse(alloc, text)? {
        None => Ok(false),
        Some(name) => {
            let copy = name.copied(alloc)?;
            Ok(name.as_str() == text && copy.as_str() == text)
        }
    }
}

/// The bytes that may stand in a name, in order.
const NAME_BYTES: &str = "-0123456789_abcdefghijklmnopqrstuvwxyz";

#[test]
fn characters_stand_in_names(rt: HostRuntime) -> Result<(), Fail> {
    for code in 0..256 {
        let Some(letter) = char::from_u32(code) else {
            continue;
        };
        let text = format!(in rt.alloc(); "a{letter}")?;
        let wanted = NAME_BYTES.contains(letter);
        assert!(rt; is_name(rt.alloc(), text.as_str())? == wanted, "at {code}");
    }
    Ok(())
}

#[test]
fn names_have_1_to_64_bytes(rt: HostRuntime) -> Result<(), Fail> {
    let longest = "0123456789abcdef0123456789abcdef0123456789abcdef0123456789abcdef";
    let longer = format!(in rt.alloc(); "{longest}-")?;
    assert!(rt; is_name(rt.alloc(), longest)?);
    assert!(rt; is_name(rt.alloc(), "-")?);
    assert!(rt; !is_name(rt.alloc(), longer.as_str())?);
    assert!(rt; !is_name(rt.alloc(), "")?);
    assert!(rt; !is_name(rt.alloc(), "..")?);
    Ok(())
}

fn names_of(alloc: Global, texts: &[&str]) -> Result<Vec<SpaceName>, AllocError> {
    let mut names = Vec::new(alloc);
    for text in texts {
        if let Some(name) = SpaceName::parse(alloc, text)? {
            names.push(name)?;
        }
    }
    Ok(names)
}

fn reply_text(alloc: Global, reply: SpaceReply<'_>) -> Result<String, AllocError> {
    let mut text = String::new(alloc);
    push_space_reply(&mut text, reply)?;
    Ok(text)
}

fn list_text(alloc: Global, texts: &[&str], more: bool) -> Result<String, AllocError> {
    let names = names_of(alloc, texts)?;
    let names = names.as_slice();
    reply_text(alloc, SpaceReply::Spaces { names, more })
}

#[test]
fn answers_have_texts(rt: HostRuntime) -> Result<(), Fail> {
    let alloc = rt.alloc();
    assert_eq!(rt;
        reply_text(alloc, SpaceReply::Created)?.as_str(),
        "{\"ok\":\"create\"}\n"
    );
    assert_eq!(rt;
        reply_text(alloc, SpaceReply::Used)?.as_str(),
        "{\"ok\":\"use\"}\n"
    );
    assert_eq!(rt;
        reply_text(alloc, SpaceReply::Dropped)?.as_str(),
        "{\"ok\":\"drop\"}\n"
    );
    assert_eq!(rt;
        list_text(alloc, &["a", "b"], false)?.as_str(),
        "{\"more\":false,\"ok\":\"spaces\",\"spaces\":[\"a\",\"b\"]}\n"
    );
    assert_eq!(rt;
        list_text(alloc, &["team-1"], true)?.as_str(),
        "{\"more\":true,\"ok\":\"spaces\",\"spaces\":[\"team-1\"]}\n"
    );
    assert_eq!(rt;
        list_text(alloc, &[], false)?.as_str(),
        "{\"more\":false,\"ok\":\"spaces\",\"spaces\":[]}\n"
    );
    Ok(())
}
