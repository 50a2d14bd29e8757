//! Checking a transcript, line by line.

ghost use Rattle.std.specs.Prelude.{◌≡◌, ◌≢◌, ◌≤◌, IfOk, IfErr};
ghost use Rattle.rme_line_io.specs.Readers.{ReadFailure, ReaderEnded, LastReadFailed, SomeReadsMade, NothingRead, bytes_left, reads_left};
ghost use Rattle.rme_line_check.specs.Judging.{RemainingLinesVerdict};
ghost use Rattle.rme_line_check.specs.Verdicts.{InputVerdict};
ghost use Rattle.rme_line_check.specs.Observing.{ObserverSeesInput, ObserverSeesRemaining};

use crate::check_observer::{CheckObserver, NoCheckObserver};
use crate::judge::{Judge, LineFinding};
use rme_wire::{Cut, EngineFault, LineReader, Source};
use std::alloc::Global;
use std::io;

/// The verdict on a transcript. Lines are counted from 1.
#[derive(Clone, Copy, Debug, PartialEq, Eq)]
pub enum Verdict {
    /// The first line opens a world, and each further line is a step that the abstract machine has in its state there.
    Yes,
    /// The first wrong line has an event with an answer that the machine does not have in its state there.
    No(u64),
    /// The first wrong line is no event line, or is the first line and opens no valid shape; or there is no line.
    Bad(u64),
}

/// Checks a transcript against the abstract machine: the first line must open a world, and each further line must be an
/// event with an answer that the machine has in turn.
///
/// The verdict has the first wrong line; later lines are not read. A line is an event line by its syntax only: one with
/// a worker, a number or a cell that does not exist is an event line whose step the machine does not have. `NoMemory`
/// if memory for a line, its value, the machine or its history was refused.
pub fn check_lines<R: Source + Drop>(
    alloc: Global,
    lines: &mut LineReader<R>,
) -> Result<Verdict, EngineFault>
    ensures verdict { IfOk result (InputVerdict (bytes_left R.remaining lines.old)) }
    ensures kind { IfErr result (λ fault. fault ≢ EngineFault.WriteFailed) }
    ensures ended { ReaderEnded lines.old → NothingRead lines.old lines.new }
    ensures failed { IfErr result (λ fault. fault ≡ EngineFault.ReadFailed → ReadFailure lines.old lines.new) }
    ensures reads { SomeReadsMade R.gave lines.old lines.new }
    ensures read_broke { IfErr result (λ fault. fault ≡ EngineFault.ReadFailed
        → LastReadFailed R.gave lines.old lines.new) }
{
    watch_lines(alloc, lines, &mut NoCheckObserver)
}

/// Checks a transcript as `check_lines` does. The observer sees the opening of the first line and then each step of the
/// machine, in order, before the next line is read. The observer does not affect the verdict; its `NoMemory` ends the
/// check.
pub fn watch_lines<R: Source + Drop, V: CheckObserver>(
    alloc: Global,
    lines: &mut LineReader<R>,
    watcher: &mut V,
) -> Result<Verdict, EngineFault>
    ensures verdict { IfOk result (InputVerdict (bytes_left R.remaining lines.old)) }
    ensures shown { IfOk result (λ _. ObserverSeesInput V.sees (bytes_left R.remaining lines.old) watcher.old
        watcher.new) }
    ensures kind { IfErr result (λ fault. fault ≢ EngineFault.WriteFailed) }
    ensures ended { ReaderEnded lines.old → NothingRead lines.old lines.new }
    ensures failed { IfErr result (λ fault. fault ≡ EngineFault.ReadFailed → ReadFailure lines.old lines.new) }
    ensures reads { SomeReadsMade R.gave lines.old lines.new }
    ensures read_broke { IfErr result (λ fault. fault ≡ EngineFault.ReadFailed
        → LastReadFailed R.gave lines.old lines.new) }
{
    let mut line = Vec::new(alloc);
    let first = match lines.next_line(&mut line, &io::sink()) {
        Ok(cut) => cut,
        Err(fault) => return Err(fault),
    };
    if first == Cut::End {
        return Ok(Verdict::Bad(1));
    }
    let mut judge = match Judge::of_line(alloc, first, line.as_slice()) {
        Ok(Some(judge)) => judge,
        Ok(None) => return Ok(Verdict::Bad(1)),
        Err(_) => return Err(EngineFault::NoMemory),
    };
    match watcher.opened(&judge.names, &judge.machine) {
        Ok(()) => judge_lines(&mut judge, lines, &mut line, watcher),
        Err(_) => Err(EngineFault::NoMemory),
    }
}

/// Checks the remaining lines, the first of which is the second of the transcript.
fn judge_lines<R: Source + Drop, V: CheckObserver>(
    judge: &mut Judge,
    lines: &mut LineReader<R>,
    line: &mut Vec<u8>,
    watcher: &mut V,
) -> Result<Verdict, EngineFault>
    ensures verdict { IfOk result (RemainingLinesVerdict judge.old.names judge.old.machine 2
        (bytes_left R.remaining lines.old)) }
    ensures shown { IfOk result (λ _. ObserverSeesRemaining V.sees judge.old.names judge.old.machine
        (bytes_left R.remaining lines.old) watcher.old watcher.new) }
    ensures kind { IfErr result (λ fault. fault ≢ EngineFault.WriteFailed) }
    ensures ended { ReaderEnded lines.old → NothingRead lines.old lines.new }
    ensures fewer_reads { reads_left lines.new ≤ reads_left lines.old }
    ensures failed { IfErr result (λ fault. fault ≡ EngineFault.ReadFailed → ReadFailure lines.old lines.new) }
    ensures reads { SomeReadsMade R.gave lines.old lines.new }
    ensures read_broke { IfErr result (λ fault. fault ≡ EngineFault.ReadFailed
        → LastReadFailed R.gave lines.old lines.new) }
{
    let mut number = 2u64;
    loop {
        let cut = match lines.next_line(line, &io::sink()) {
            Ok(cut) => cut,
            Err(fault) => return Err(fault),
        };
        if cut == Cut::End {
            return Ok(Verdict::Yes);
        }
        match judge.judge_line(cut, line.as_slice(), watcher) {
            Ok(LineFinding::Step) => number += 1,
            Ok(LineFinding::NoStep) => return Ok(Verdict::No(number)),
            Ok(LineFinding::NoEvent) => return Ok(Verdict::Bad(number)),
            Err(_) => return Err(EngineFault::NoMemory),
        }
    }
}
