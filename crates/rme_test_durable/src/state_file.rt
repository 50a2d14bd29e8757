//! The fault of a file that is no state, and whether the store of a file is quick.

use rme_cli_messages::CliFault;
use rme_durable_file::{Cause, FileReadError, StateFile, StateName, StateStorage, bad_log_fault};
use rme_durable_format::BadLog;
use rme_durable_log::LogStore;
use std::alloc::{AllocError, Global};
use std::io;
use std::test::*;

/// Why these bytes are no state, for this bad line.
fn bad_line_of(rt: &HostRuntime, text: &str, line: u64) -> Result<CliFault, CliFault> {
    bad_log_fault(rt, "state", text.as_bytes(), BadLog::Line(line))
}

#[test]
fn the_fault_of_a_bad_log_tells_its_line_or_kind(rt: HostRuntime) -> Result<(), Fail> {
    let words = "rmewords and more";
    assert!(rt; matches!(bad_line_of(&rt, words, 3), Ok(CliFault::BadState(_, 3))));
    assert!(rt;
        matches!(
            bad_line_of(&rt, words, 1),
            Ok(CliFault::StateOfProcesses(_))
        )
    );
    assert!(rt; matches!(bad_line_of(&rt, "other", 1), Ok(CliFault::BadState(_, 1))));
    let later = "{\"rme\":\"kept\",\"version\":99}\n";
    assert!(rt;
        matches!(
            bad_line_of(&rt, later, 1),
            Ok(CliFault::StateOfVersion(_, 99))
        )
    );
    let refused = bad_log_fault(&rt, "state", words.as_bytes(), BadLog::NoMemory);
    assert!(rt; matches!(refused, Ok(CliFault::NoMemory)));
    Ok(())
}

#[test]
fn refused_memory_is_a_cause_of_its_own(rt: HostRuntime) -> Result<(), Fail> {
    assert!(rt; Cause::from(AllocError) == Cause::NoMemory);
    Ok(())
}

/// A file that has no bytes.
#[derive(Drop)]
struct EmptyFile;

impl StateStorage for EmptyFile {
    ghost use Rattle.std.specs.Prelude.{None, false};

    ghost contents = { λ _. None };

    ghost shared = { false };

    ghost barriers = { λ _. 0 };

    fn read_all(&mut self, alloc: Global) -> Result<Vec<u8>, FileReadError> {
        Ok(Vec::new(alloc))
    }

    fn line_in_file(&self, _alloc: Global, line: u64) -> u64 {
        line
    }

    fn begin(&mut self, _length: usize, _syncs: bool) -> io::Result<()> {
        Ok(())
    }

    fn append(&mut self, _lines: &[u8], _syncs: bool) -> io::Result<()> {
        Ok(())
    }

    fn replace(&mut self, _bytes: &[u8]) -> Result<Option<Cause>, Cause> {
        Ok(None)
    }

    fn is_shared(&self) -> bool {
        false
    }

    fn asked(&self) -> u64 {
        0
    }
}

#[test]
fn a_store_is_quick_if_no_append_waits_for_the_disk(rt: HostRuntime) -> Result<(), Fail> {
    let name = StateName::new(String::from_str(rt.alloc(), "state")?);
    assert!(rt; StateFile::new(&name, EmptyFile, false).is_quick());
    assert!(rt; !StateFile::new(&name, EmptyFile, true).is_quick());
    Ok(())
}
