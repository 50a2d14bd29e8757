//! The engines over readers and writers that fail at each of their calls.

use crate::streams::flaky::{FlakyLimits, FlakyStream, first_lines, lines_given};
use crate::streams::memory::{ANSWERS, COMMANDS, LINES, TRANSCRIPT};
use rme_line_check::{Verdict, check_lines};
use rme_line_engine::{run_lines, transcript_lines};
use rme_wire::{EngineFault, LineReader};
use std::alloc::Global;
use std::io::{Read, Write};
use std::process::Abort;
use std::test::Fail;

/// The engine that is run.
#[derive(Clone, Copy)]
enum EngineKind {
    Run,
    Tell,
    /// It writes nothing, and its verdict must be `Yes`.
    Check,
}

/// An engine with its input and its output.
struct EngineCase {
    engine: EngineKind,
    input: &'static str,
    output: &'static str,
    /// `lines[n]`: the number of output lines for the first n lines of the input.
    lines: &'static [usize],
    /// The number of bytes that a call moves.
    width: usize,
}

const CASES: [EngineCase; 3] = [
    EngineCase {
        engine: EngineKind::Run,
        input: LINES,
        output: ANSWERS,
        lines: &[0, 1, 2, 3, 4],
        width: 7,
    },
    EngineCase {
        engine: EngineKind::Tell,
        input: COMMANDS,
        output: TRANSCRIPT,
        lines: &[0, 1, 2, 4, 5, 6, 8, 9, 12, 15],
        width: 61,
    },
    EngineCase {
        engine: EngineKind::Check,
        input: TRANSCRIPT,
        output: "",
        lines: &[0; 16],
        width: 61,
    },
];

/// More calls than any of these runs makes.
const MOST_CALLS: usize = 200;

/// Runs an engine on the lines of a reader, which is dropped afterwards.
fn run<R: Read + Drop, W: Write>(
    alloc: Global,
    engine: EngineKind,
    reader: R,
    writer: &mut W,
) -> Result<(), EngineFault> {
    match engine {
        EngineKind::Run => answer(alloc, reader, writer),
        EngineKind::Tell => tell(alloc, reader, writer),
        EngineKind::Check => check(alloc, reader),
    }
}

fn answer<R: Read + Drop, W: Write>(
    alloc: Global,
    reader: R,
    writer: &mut W,
) -> Result<(), EngineFault> {
    let mut lines = LineReader::new(alloc, reader)?;
    run_lines(alloc, &mut lines, writer)
}

fn tell<R: Read + Drop, W: Write>(
    alloc: Global,
    reader: R,
    writer: &mut W,
) -> Result<(), EngineFault> {
    let mut lines = LineReader::new(alloc, reader)?;
    transcript_lines(alloc, &mut lines, writer)
}

fn check<R: Read + Drop>(alloc: Global, reader: R) -> Result<(), EngineFault> {
    let mut lines = LineReader::new(alloc, reader)?;
    match check_lines(alloc, &mut lines)? {
        Verdict::Yes => Ok(()),
        // No stream causes this fault, and no test expects it.
        _ => Err(EngineFault::NoMemory),
    }
}

/// A reader that fails ends a run after the whole output of the lines that it gave completely. Answers whether it
/// failed.
fn read_failing(rt: &impl Abort, alloc: Global, case: &EngineCase, calls: usize) -> bool {
    let input = case.input.as_bytes();
    let width = case.width;
    let mut output = Vec::new(alloc);
    let mut reader = FlakyStream::new(alloc, input, FlakyLimits { width, calls });
    let ran = run(alloc, case.engine, &mut reader, &mut output);
    let given = lines_given(input, reader.unread);
    assert!(rt; given < case.lines.len());
    let wanted = first_lines(case.output.as_bytes(), case.lines[given]);
    assert!(rt; output.as_slice() == wanted);
    assert!(rt; ran == Ok(()) || ran == Err(EngineFault::ReadFailed));
    ran.is_err()
}

/// A writer that fails ends a run after a prefix of the output. Answers whether it failed.
fn write_failing(rt: &impl Abort, alloc: Global, case: &EngineCase, calls: usize) -> bool {
    let whole = case.output.as_bytes();
    let width = case.width;
    let mut writer = FlakyStream::new(alloc, b"", FlakyLimits { width, calls });
    let ran = run(alloc, case.engine, case.input.as_bytes(), &mut writer);
    let held = writer.held.as_slice();
    assert!(rt; whole.starts_with(held));
    assert!(rt; ran.is_ok() == (held.len() == whole.len()));
    assert!(rt; ran == Ok(()) || ran == Err(EngineFault::WriteFailed));
    ran.is_err()
}

/// Whether of the readers with ever more calls some fail, and a later one does not.
fn reads_at_last(rt: &impl Abort, alloc: Global, case: &EngineCase) -> bool {
    for calls in 0..MOST_CALLS {
        if !read_failing(rt, alloc, case, calls) {
            return calls > 0;
        }
    }
    false
}

/// The same for writers.
fn writes_at_last(rt: &impl Abort, alloc: Global, case: &EngineCase) -> bool {
    for calls in 0..MOST_CALLS {
        if !write_failing(rt, alloc, case, calls) {
            return calls > 0;
        }
    }
    false
}

#[test]
fn failing_readers(rt: HostRuntime) -> Result<(), Fail> {
    for case in &CASES {
        assert!(rt; reads_at_last(&rt, rt.alloc(), case));
    }
    Ok(())
}

#[test]
fn failing_writers(rt: HostRuntime) -> Result<(), Fail> {
    for case in &CASES[..2] {
        assert!(rt; writes_at_last(&rt, rt.alloc(), case));
    }
    Ok(())
}

/// A writer that takes no byte ends the run at its first write.
#[test]
fn writer_that_takes_no_byte(rt: HostRuntime) {
    let limits = FlakyLimits {
        width: 0,
        calls: 10,
    };
    let mut writer = FlakyStream::new(rt.alloc(), b"", limits);
    let ran = answer(rt.alloc(), LINES.as_bytes(), &mut writer);
    assert!(rt; ran == Err(EngineFault::WriteFailed) && writer.limits.calls == 9);
}
