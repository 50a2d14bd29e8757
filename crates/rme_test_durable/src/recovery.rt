//! Which bytes are states, and how they are cut into lines.

ghost use Rattle.std.specs.Prelude.{IfSome};
ghost use Rattle.rme_durable_epochs.specs.RecoveredStates.{IsWhyNoState};

use rme_durable_epochs::recover;
use rme_durable_format::{BadLog, NoProgress, first_two_lines, recover_log, whole_lines};
use std::alloc::Global;
use std::test::*;

/// A header of a world with one client.
pub const HEADER: &str =
    "{\"epoch\":0,\"last\":[null],\"numbers\":[0],\"places\":[0],\"rme\":\"kept\",\"version\":1}\n";

/// A header of a world with two clients.
const OTHER_HEADER: &str =
    "{\"epoch\":0,\"last\":[null,null],\"numbers\":[0,0],\"places\":[0],\"rme\":\"kept\",\"version\":1}\n";

/// A header that leaves no room for one more epoch.
const FULL_HEADER: &str =
    "{\"epoch\":1,\"last\":[null],\"numbers\":[0],\"places\":[9007199254740992],\"rme\":\"kept\",\"version\":1}\n";

pub const OPEN: &str = "{\"cells\":1,\"do\":\"open\",\"jobs\":9,\"locks\":[\"a\"],\"workers\":2}\n";

pub const CRASH: &str = "{\"do\":\"crash\",\"worker\":0}\n";

/// The lines of a file.
fn file(rt: &HostRuntime, header: &str, lines: &str) -> Result<String, Fail> {
    Ok(format!(in rt.alloc(); "{header}{OPEN}{lines}")?)
}

/// Why some whole lines are no state; `None` if they are one.
fn fault_of_lines(rt: &HostRuntime, lines: &[u8]) -> Option<BadLog>
    ensures { IfSome result (IsWhyNoState lines.now) }
{
    match recover(rt.alloc(), lines, &NoProgress) {
        Ok(_) => None,
        Err(why) => Some(why),
    }
}

/// The number of lines that recovery counts in the first two of some bytes, where it accepts these.
fn lines_of_opening(alloc: Global, bytes: &[u8]) -> Option<u64> {
    let Ok(found) = recover_log(alloc, first_two_lines(bytes), &NoProgress) else {
        return None;
    };
    prove!(found.lines == 2);
    Some(found.lines)
}

#[test]
fn recovery_names_the_first_bad_line(rt: HostRuntime) -> Result<(), Fail> {
    for (header, lines, bad) in [
        (HEADER, "", None),
        (HEADER, CRASH, None),
        (HEADER, "a torn line", None),
        (HEADER, "a whole line\n", Some(BadLog::Line(3))),
        (OTHER_HEADER, CRASH, Some(BadLog::Line(1))),
        (OTHER_HEADER, "a whole line\n", Some(BadLog::Line(1))),
        (FULL_HEADER, "a whole line\n", Some(BadLog::Line(1))),
        ("", CRASH, Some(BadLog::Line(1))),
    ] {
        let text = file(&rt, header, lines)?;
        assert!(rt; fault_of_lines(&rt, whole_lines(text.as_bytes())) == bad);
    }
    Ok(())
}

#[test]
fn lines_of_bytes(rt: HostRuntime) -> Result<(), Fail> {
    let text = "a\nb\nc";
    assert!(rt; whole_lines(text.as_bytes()) == "a\nb\n".as_bytes());
    assert!(rt; first_two_lines(text.as_bytes()) == "a\nb\n".as_bytes());
    assert!(rt; first_two_lines("a".as_bytes()) == "a".as_bytes());
    assert!(rt; whole_lines("a".as_bytes()).is_empty());
    Ok(())
}

#[test]
fn a_new_state_has_two_lines(rt: HostRuntime) -> Result<(), Fail> {
    let text = file(&rt, HEADER, CRASH)?;
    assert!(rt; lines_of_opening(rt.alloc(), text.as_bytes()) == Some(2));
    Ok(())
}
