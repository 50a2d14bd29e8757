//! The final reports of `serve` and of `threads`, and their exit status.

ghost use Rattle.std.specs.Prelude.{◌≡◌, ◌++◌, IfOk, IfErr, OnOk, OnErr, [], count_by, string_bytes};
ghost use Rattle.std.specs.Io.KnownBytes.{Appends};
ghost use Rattle.std.specs.Option.{option_copied};
ghost use Rattle.rme_line_io.specs.BufferedWrites.{WritesPrefix};
ghost use Rattle.rme_cli_commands.specs.FinalReports as spec;

use rme_cli_messages::CliFault;
use rme_supervisor::End;
use rme_table::{CountedLock, CountedService, Unclosed};
use rme_wire::{Names, put_all};
use rme_words::Refusal;
use std::alloc::{AllocError, Global};
use std::io::Write;

/// More bytes than the lines of sixteen locks, each with a name of 32 bytes and sixteen cells of 20 digits, and than
/// the remarks on them.
const MOST_TEXT: usize = 8192;

const MOST_REMARKS: usize = 2048;

/// The final report of a run, and the exit status.
#[derive(Drop)]
pub struct FinalReport {
    /// The lines for the standard output.
    pub text: String,
    /// The lines for the standard error.
    pub diagnostics: String,
    pub status: u8,
}

/// The outcome of supervised workers: the end of each one's lives, and their lock.
#[derive(Drop)]
pub struct ThreadsOutcome {
    pub ends: Vec<End>,
    pub counted: CountedService,
}

impl FinalReport {
    ghost use Rattle.std.specs.Prelude.{[], IfOk};
    ghost use Rattle.rme_cli_commands.specs.FinalReports as spec;

    /// An empty report, with room for every possible text, so that the end takes no memory.
    pub fn with_room(alloc: Global) -> Result<FinalReport, AllocError>
        ensures { IfOk result (λ closing. spec.FinalReportSays closing [] [] 0) }
    {
        Ok(FinalReport {
            text: String::with_capacity(alloc, MOST_TEXT)?,
            diagnostics: String::with_capacity(alloc, MOST_REMARKS)?,
            status: 0,
        })
    }

    /// The same report with this status.
    fn with_status(self, status: u8) -> FinalReport
        requires { spec.FinalReportSays self [] [] 0 }
        ensures { spec.FinalReportSays result [] [] status }
    {
        let FinalReport {
            text,
            diagnostics,
            status: _,
        } = self;
        FinalReport {
            text,
            diagnostics,
            status,
        }
    }
}

/// Writes the report, and answers the status. A failed write to the standard error is ignored.
pub fn end_with<W: Write, E: Write>(
    writer: &mut W,
    errors: &mut E,
    closing: &FinalReport,
) -> Result<u8, CliFault>
    ensures text { OnOk result (Appends (W.contents writer.old) (W.contents writer.new)
        (string_bytes closing.now.text)) }
    ensures front { OnErr result (WritesPrefix (W.contents writer.old) (W.contents writer.new)
        (string_bytes closing.now.text)) }
    ensures diagnostics { WritesPrefix (E.contents errors.old) (E.contents errors.new)
        (string_bytes closing.now.diagnostics) }
    ensures status { IfOk result (λ status. status ≡ closing.now.status) }
    ensures kind { IfErr result (λ fault. fault ≡ CliFault.WriteFailed) }
{
    put_some(errors, closing.diagnostics.as_str().as_bytes());
    put_all(writer, closing.text.as_str().as_bytes())?;
    Ok(closing.status)
}

/// Writes as many of the bytes as the writer takes.
fn put_some<W: Write>(writer: &mut W, bytes: &[u8])
    ensures { WritesPrefix (W.contents writer.old) (W.contents writer.new) bytes.now }
{
    let _ = put_all(writer, bytes);
}

/// The report of `serve` on a service that it closed, or could not close: the line of each lock, a remark on each that
/// is not settled, and status 0; if a worker is missing, nothing, and status 1.
pub fn report_service(
    room: FinalReport,
    names: &Names,
    closed: &Result<CountedService, Unclosed>,
) -> Result<FinalReport, CliFault>
    requires { spec.FinalReportSays room [] [] 0 }
    ensures closing { IfOk result (spec.ServiceReport names.now closed.now) }
    ensures kind { IfErr result (λ fault. fault ≡ CliFault.NoMemory) }
{
    match closed {
        Ok(counted) => Ok(report_locks(room, names, counted.locks.as_slice())?),
        Err(unclosed) => match unclosed.why {
            Refusal::NoWorker => Ok(room.with_status(1)),
            _ => Err(CliFault::NoMemory),
        },
    }
}

/// The lines of the locks of a closed service.
fn report_locks(
    room: FinalReport,
    names: &Names,
    locks: &[CountedLock],
) -> Result<FinalReport, AllocError>
    requires { spec.FinalReportSays room [] [] 0 }
    ensures { IfOk result (λ closing. spec.FinalReportSays closing (spec.closed_locks_text names.now locks.now)
        (spec.lock_remarks_text names.now locks.now) 0) }
{
    let mut closing = room;
    push_locks(&mut closing.text, names, locks)?;
    push_remarks(&mut closing.diagnostics, names, locks)?;
    Ok(closing)
}

/// The report of `threads`, with this number of workers and of jobs for each: their outcome, and status 0 if all
/// workers were done; if a worker is missing, nothing, and status 1.
pub fn report_threads(
    room: FinalReport,
    workers: u32,
    jobs: u32,
    outcome: &Option<ThreadsOutcome>,
) -> Result<FinalReport, AllocError>
    requires { spec.FinalReportSays room [] [] 0 }
    ensures { IfOk result (spec.ThreadsReport workers jobs outcome.now) }
{
    match outcome {
        Some(outcome) => report_ends(
            room,
            workers,
            jobs,
            outcome.ends.as_slice(),
            outcome.counted.locks.first(),
        ),
        None => Ok(room.with_status(1)),
    }
}

/// The lines for workers with these ends and this lock.
fn report_ends(
    room: FinalReport,
    workers: u32,
    jobs: u32,
    ends: &[End],
    lock: Option<&CountedLock>,
) -> Result<FinalReport, AllocError>
    requires { spec.FinalReportSays room [] [] 0 }
    ensures { IfOk result (λ closing. spec.FinalReportSays closing
        (spec.threads_text workers jobs ends.now (option_copied lock.entry)) [] (spec.status_of_ends ends.now)) }
{
    let done = count_done(ends);
    let mut closing = room.with_status(status_of(done, ends.len()));
    if let Some(lock) = lock {
        push_counts(&mut closing.text, workers, jobs, done)?;
        push_only(&mut closing.text, lock)?;
    }
    Ok(closing)
}

/// The status for this number of done workers among all.
fn status_of(done: usize, workers: usize) -> u8
    ensures { result ≡ spec.status_of_counts done workers }
{
    if done == workers { 0 } else { 1 }
}

/// The number of workers that were done.
fn count_done(ends: &[End]) -> usize
    ensures { result ≡ count_by spec.is_all_done ends.now }
{
    ends.iter()
        .filter(|end| matches!(**end, End::AllDone))
        .count()
}

/// Appends the number of workers, of jobs, and of done workers.
fn push_counts(out: &mut String, workers: u32, jobs: u32, done: usize) -> Result<(), AllocError>
    ensures { OnOk result (string_bytes out.new ≡ string_bytes out.old ++ spec.counts_text workers jobs done) }
{
    write!(out, "workers {workers}\njobs {jobs}\nall done {done}\n")
}

/// Appends the first cell of the only lock, and the number of its finished sections.
fn push_only(out: &mut String, lock: &CountedLock) -> Result<(), AllocError>
    ensures { OnOk result (string_bytes out.new ≡ string_bytes out.old ++ spec.only_lock_text lock.now) }
{
    let cell = lock.cells.first().copied().unwrap_or(0);
    let entries = lock.entries;
    write!(out, "cell {cell}\nentries {entries}\n")
}

/// Appends a line for each lock, in their order.
fn push_locks(out: &mut String, names: &Names, locks: &[CountedLock]) -> Result<(), AllocError>
    ensures { OnOk result (string_bytes out.new ≡ string_bytes out.old ++ spec.closed_locks_text names.now locks.now) }
{
    for number in 0..names.len() {
        push_lock_at(out, names.name(number), locks.get(number as usize))?;
    }
    Ok(())
}

/// Appends the line of a lock, if it exists.
fn push_lock_at(out: &mut String, name: &str, lock: Option<&CountedLock>) -> Result<(), AllocError>
    ensures { OnOk result (string_bytes out.new ≡ string_bytes out.old ++ spec.lock_text_at spec.closed_lock_text
        name.now (option_copied lock.entry)) }
{
    match lock {
        Some(lock) => push_lock(out, name, lock),
        None => Ok(()),
    }
}

/// Appends the line of a lock: its name, its cells, and the number of its finished sections.
fn push_lock(out: &mut String, name: &str, lock: &CountedLock) -> Result<(), AllocError>
    ensures { OnOk result (string_bytes out.new ≡ string_bytes out.old ++ spec.closed_lock_text name.now lock.now) }
{
    push_lock_front(out, name)?;
    push_cells(out, lock.cells.as_slice())?;
    push_lock_end(out, lock.entries)?;
    Ok(())
}

fn push_lock_front(out: &mut String, name: &str) -> Result<(), AllocError>
    ensures { OnOk result (string_bytes out.new ≡ string_bytes out.old ++ spec.closed_lock_front name.now) }
{
    write!(out, "lock {name} cells")
}

fn push_lock_end(out: &mut String, entries: u64) -> Result<(), AllocError>
    ensures { OnOk result (string_bytes out.new ≡ string_bytes out.old ++ spec.closed_lock_end entries) }
{
    write!(out, " entries {entries}\n")
}

/// Appends the value of each cell.
fn push_cells(out: &mut String, cells: &[u64]) -> Result<(), AllocError>
    ensures { OnOk result (string_bytes out.new ≡ string_bytes out.old ++ spec.spaced_cells_text cells.now) }
{
    for cell in cells {
        push_cell(out, *cell)?;
    }
    Ok(())
}

fn push_cell(out: &mut String, cell: u64) -> Result<(), AllocError>
    ensures { OnOk result (string_bytes out.new ≡ string_bytes out.old ++ spec.spaced_cell_text cell) }
{
    write!(out, " {cell}")
}

/// Appends a remark on each lock that is not settled, in their order.
fn push_remarks(out: &mut String, names: &Names, locks: &[CountedLock]) -> Result<(), AllocError>
    ensures { OnOk result (string_bytes out.new ≡ string_bytes out.old ++ spec.lock_remarks_text names.now locks.now) }
{
    for number in 0..names.len() {
        push_remark_at(out, names.name(number), locks.get(number as usize))?;
    }
    Ok(())
}

/// Appends a remark on a lock, if it exists and is not settled.
fn push_remark_at(
    out: &mut String,
    name: &str,
    lock: Option<&CountedLock>,
) -> Result<(), AllocError>
    ensures { OnOk result (string_bytes out.new ≡ string_bytes out.old ++ spec.lock_text_at spec.lock_remark_text
        name.now (option_copied lock.entry)) }
{
    match lock {
        Some(lock) => push_remark(out, name, lock.settled, lock.owner),
        None => Ok(()),
    }
}

/// Appends a remark on a lock that is not settled, with the worker that is inside.
fn push_remark(
    out: &mut String,
    name: &str,
    settled: bool,
    owner: Option<u32>,
) -> Result<(), AllocError>
    ensures { OnOk result (string_bytes out.new ≡ string_bytes out.old ++ spec.unsettled_remark_text name.now settled
        owner) }
{
    if settled {
        return Ok(());
    }
    match owner {
        Some(worker) => write!(
            out,
            "rme: lock {name} is not settled: worker {worker} is inside\n"
        ),
        None => Ok(()),
    }
}
