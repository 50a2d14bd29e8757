//! The lines of a state's file, by its version.

use rme_durable_file::{ContentsError, FileContents, line_in_file};
use rme_durable_writes::WriteSealer;
use std::test::*;

/// The lines that a new state begins with.
const BEGINNING: &str =
    "{\"epoch\":0,\"last\":[null],\"lives\":[0],\"numbers\":[0],\"places\":[0],\"rme\":\"kept\",\"version\":2}\n{\"cells\":1,\"do\":\"open\",\"jobs\":9,\"locks\":[\"a\"],\"workers\":2}\n";

const CRASH: &str = "{\"do\":\"crash\",\"worker\":0}\n";

/// A file of version 2 with two writes, the first of which is with the disk when the second is made.
fn sealed_file(rt: &HostRuntime) -> Result<Vec<u8>, Fail> {
    let mut sealer = WriteSealer::new(rt.alloc())?;
    let (mut bytes, mut second) = (Vec::new(rt.alloc()), Vec::new(rt.alloc()));
    sealer.seal(BEGINNING.as_bytes(), &mut bytes)?;
    sealer.mark_durable();
    sealer.seal(CRASH.as_bytes(), &mut second)?;
    bytes.extend_from_slice(second.as_slice())?;
    Ok(bytes)
}

#[test]
fn a_file_of_version_2_is_read_without_its_checksums(rt: HostRuntime) -> Result<(), Fail> {
    let bytes = sealed_file(&rt)?;
    let contents = FileContents::of(rt.alloc(), bytes.as_slice())?;
    let lines = format!(in rt.alloc(); "{BEGINNING}{CRASH}")?;
    assert!(rt; contents.lines.as_slice() == lines.as_bytes());
    assert!(rt; contents.length == bytes.len());
    Ok(())
}

#[test]
fn an_end_that_never_was_durable_is_left_out(rt: HostRuntime) -> Result<(), Fail> {
    let mut bytes = sealed_file(&rt)?;
    let whole = bytes.len();
    bytes.extend_from_slice(b"{\"do\":")?;
    let contents = FileContents::of(rt.alloc(), bytes.as_slice())?;
    assert!(rt; contents.length == whole);
    Ok(())
}

#[test]
fn a_change_of_what_was_durable_is_told_by_its_line(rt: HostRuntime) -> Result<(), Fail> {
    let mut bytes = sealed_file(&rt)?;
    // A byte of the second line.
    if let Some(byte) = bytes.get_mut(BEGINNING.len() - 40) {
        *byte ^= 1;
    }
    let read = FileContents::of(rt.alloc(), bytes.as_slice());
    assert!(rt; matches!(read, Err(ContentsError::Changed(3))));
    Ok(())
}

#[test]
fn a_file_of_another_version_is_all_lines(rt: HostRuntime) -> Result<(), Fail> {
    for text in ["", "no state", "{\"rme\":\"kept\",\"version\":1}\ntorn"] {
        let contents = FileContents::of(rt.alloc(), text.as_bytes())?;
        assert!(rt; contents.lines.as_slice() == text.as_bytes());
        assert!(rt; contents.length == text.len());
    }
    Ok(())
}

#[test]
fn lines_are_counted_with_those_of_checksums(rt: HostRuntime) -> Result<(), Fail> {
    let bytes = sealed_file(&rt)?;
    for (line, number) in [(1, 1), (2, 2), (3, 4), (4, 4)] {
        assert!(rt; line_in_file(rt.alloc(), bytes.as_slice(), line) == number);
    }
    Ok(())
}
