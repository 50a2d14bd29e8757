//! The values of lines, read one after another by one reader.

use rme_wire::{Value as LentValue, ValueReader, ValueStorage, lend};
use rme_words::NoMemory;
use serde_json::Value;
use std::process::Abort;
use std::test::Fail;

/// Lines of all forms, some of them without a value; each is read with the state that the one before it left.
const LINES: [&str; 14] = [
    r#"{"do":"walk","until":"finished","worker":17}"#,
    r#"{"a":1,"b":[[],[2,"x",null,true]],"c":{"d":false}}"#,
    r#"{"a":1"#,
    r#"[-1,0,-0,1.5,2e3,18446744073709551615,18446744073709551616]"#,
    r#""\u00e9\n""#,
    "7",
    "",
    "7 8",
    "{\"a\":\"\u{e9}\"}",
    "[1,]",
    r#"{"b":1,"a":{"b":2},"c":null,"b":3}"#,
    "1e400",
    "}",
    "[18446744073709551615]",
];

/// Whether a reader finds a value in a line.
fn finds(values: &mut ValueReader, line: &str) -> Result<bool, NoMemory> {
    let mut room = ValueStorage::new();
    Ok(values.read(&mut room, line.as_bytes())?.is_some())
}

/// One reader finds a value in exactly the lines in which serde_json finds one.
#[test]
fn one_after_another(rt: HostRuntime) -> Result<(), Fail> {
    let mut values = ValueReader::new(rt.alloc());
    for line in LINES {
        let is_value = Value::from_slice(rt.alloc(), line.as_bytes()).is_ok();
        assert!(rt; finds(&mut values, line)? == is_value);
    }
    Ok(())
}

/// Texts and the number that each is, or that its member `a` is. Of two members with one name the last counts; an
/// incomplete text, or more than one value, is no value.
const NUMBERS: [(&[u8], Option<u64>); 5] = [
    (br#"{"a":1,"a":2}"#, Some(2)),
    (br#"{"a":1"#, None),
    (b"1 2", None),
    (b"\"\xff\"", None),
    (b"18446744073709551615", Some(18_446_744_073_709_551_615)),
];

/// The number of a text, read into storage that earlier texts used.
fn number_in(
    values: &mut ValueReader,
    room: &mut ValueStorage,
    text: &[u8],
) -> Result<Option<u64>, NoMemory> {
    let Some(value) = values.read(room, text)? else {
        return Ok(None);
    };
    match value.get("a") {
        Some(member) => Ok(member.as_u64()),
        None => Ok(value.as_u64()),
    }
}

#[test]
fn what_is_read(rt: HostRuntime) -> Result<(), Fail> {
    let mut values = ValueReader::new(rt.alloc());
    let mut room = ValueStorage::new();
    for (text, number) in NUMBERS {
        assert!(rt; number_in(&mut values, &mut room, text)? == number);
    }
    Ok(())
}

/// A value that serde_json read is lent unchanged.
#[test]
fn what_is_lent(rt: HostRuntime) -> Result<(), Fail> {
    let Ok(owned) = Value::from_slice(rt.alloc(), br#"[true,-1,1.5,null,{"a":1}]"#) else {
        return Err(Fail::from("no value"));
    };
    check_lent(&rt, &lend(rt.alloc(), &owned).expect(&rt, "room"));
    Ok(())
}

fn check_lent(rt: &impl Abort, lent: &LentValue<'_>) {
    assert!(rt; lent.item_count() == Some(5));
    assert!(rt; lent.at(0).and_then(|it| it.as_bool()) == Some(true));
    assert!(rt; lent.at(1).and_then(|it| it.as_i64()) == Some(-1));
    assert!(rt; lent.at(2).and_then(|it| it.as_u64()).is_none());
    assert!(rt; lent.at(3).map(|it| it.is_null()) == Some(true));
    assert!(rt; lent.at(4).and_then(|it| it.key_count()) == Some(1));
}
