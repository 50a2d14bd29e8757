//! Writes by hand, and what is read of changed bytes.

use rme_durable_writes::{ReadError, SealError, WriteSealer, read_writes};
use std::test::*;

/// Three writes, each of which is with the disk when the next is made. The checksums are those of another program.
const FIRST: &str = "a\nb\n{\"kept\":0,\"seq\":1,\"sum\":\"9cd155a2\"}\n";

const SECOND: &str = "c\n{\"kept\":1,\"seq\":2,\"sum\":\"2322acc1\"}\n";

const THIRD: &str = "d\n{\"kept\":2,\"seq\":3,\"sum\":\"a86495f9\"}\n";

#[test]
fn writes_have_their_numbers_and_checksums(rt: HostRuntime) -> Result<(), Fail> {
    let mut sealer = WriteSealer::new(rt.alloc())?;
    let mut made = Vec::new(rt.alloc());
    for (lines, write) in [("a\nb\n", FIRST), ("c\n", SECOND), ("d\n", THIRD)] {
        sealer.seal(lines.as_bytes(), &mut made)?;
        assert!(rt; made.as_slice() == write.as_bytes());
        sealer.mark_durable();
    }
    Ok(())
}

#[test]
fn another_log_begins_anew(rt: HostRuntime) -> Result<(), Fail> {
    let mut sealer = WriteSealer::new(rt.alloc())?;
    let mut made = Vec::new(rt.alloc());
    sealer.seal(b"x\n", &mut made)?;
    sealer.seal_first(b"a\nb\n", &mut made)?;
    assert!(rt; made.as_slice() == FIRST.as_bytes());
    sealer.begin_log();
    sealer.seal(b"c\n", &mut made)?;
    assert!(rt; made.as_slice() == SECOND.as_bytes());
    Ok(())
}

#[test]
fn what_is_no_whole_lines_is_no_write(rt: HostRuntime) -> Result<(), Fail> {
    let mut sealer = WriteSealer::new(rt.alloc())?;
    let mut made = Vec::new(rt.alloc());
    for lines in ["", "a", "a\nb", "a\n{\"kept\":1}\n"] {
        let refused = sealer.seal(lines.as_bytes(), &mut made);
        assert!(rt; matches!(refused, Err(SealError::NotLines)));
    }
    sealer.seal(b"a\nb\n", &mut made)?;
    assert!(rt; made.as_slice() == FIRST.as_bytes());
    Ok(())
}

/// The number of bytes that are read of these texts, or where a change is found.
fn read_of(rt: &HostRuntime, parts: &[&str]) -> Result<usize, ReadError> {
    let mut bytes = Vec::new(rt.alloc());
    for part in parts {
        bytes.extend_from_slice(part.as_bytes())?;
    }
    match read_writes(rt.alloc(), bytes.as_slice()) {
        Ok(found) => Ok(found.length),
        Err(why) => Err(why),
    }
}

#[test]
fn writes_are_read_up_to_an_end_that_never_was_durable(rt: HostRuntime) -> Result<(), Fail> {
    let (one, two, three) = (
        FIRST.len(),
        FIRST.len() + SECOND.len(),
        FIRST.len() + SECOND.len() + THIRD.len(),
    );
    let broken = "c\n{\"kept\":1,\"seq\":2,\"sum\":\"00000000\"}\n";
    assert!(rt; read_of(&rt, &[FIRST, SECOND, THIRD]) == Ok(three));
    assert!(rt; read_of(&rt, &[FIRST, SECOND, "d\n{\"kept\":2,"]) == Ok(two));
    assert!(rt; read_of(&rt, &[FIRST, SECOND, SECOND]) == Ok(two));
    assert!(rt; read_of(&rt, &[FIRST, broken, "more\n"]) == Ok(one));
    assert!(rt; read_of(&rt, &[FIRST, THIRD, "more\n"]) == Err(ReadError::Changed(one)));
    assert!(rt; read_of(&rt, &[FIRST, broken, THIRD]) == Err(ReadError::Changed(one)));
    assert!(rt; read_of(&rt, &[FIRST, "c\n\n", THIRD]) == Err(ReadError::Changed(one)));
    let glued = &SECOND[..SECOND.len() - 1];
    assert!(rt; read_of(&rt, &[FIRST, glued, THIRD]) == Err(ReadError::Changed(one)));
    assert!(rt; read_of(&rt, &[SECOND, THIRD]) == Err(ReadError::Changed(0)));
    assert!(rt; read_of(&rt, &[]) == Err(ReadError::Changed(0)));
    Ok(())
}

#[test]
fn the_next_write_goes_on_behind_what_was_read(rt: HostRuntime) -> Result<(), Fail> {
    let text = format!(in rt.alloc(); "{FIRST}{SECOND}")?;
    let found = read_writes(rt.alloc(), text.as_bytes())?;
    assert!(rt; found.lines.as_slice() == b"a\nb\nc\n".as_slice());
    let mut sealer = found.sealer;
    sealer.mark_durable();
    let mut made = Vec::new(rt.alloc());
    sealer.seal(b"d\n", &mut made)?;
    assert!(rt; made.as_slice() == THIRD.as_bytes());
    Ok(())
}
