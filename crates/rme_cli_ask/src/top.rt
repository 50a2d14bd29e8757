//! The locks, once a second.

ghost use Rattle.std.specs.Prelude.{◌≡◌, ◌++◌, IfOk, OnOk, string_bytes};
ghost use Rattle.rme_cli_ask.specs.Tables.{table_text};
ghost use Rattle.rme_cli_ask.specs.TopRows as spec;

use crate::ask_end::{AskEnd, AskFault};
use crate::dialogue::Dialogue;
use crate::rows::{RowOf, rows_of};
use crate::status_rows::{NOTHING, number_or, owner_cell, owner_state, since_text, waiting_for};
use crate::table::push_table;
use rme_ask_client::{ClientRequest, ReportedLock, ReportedWorker, ServerStatus, server_status};
use rme_line_io::{Sink, Source};
use std::alloc::{AllocError, Global};
use std::sync::Wait;
use std::thread;
use std::time::{Duration, Instant};

/// The pause between two tables, in milliseconds.
const PAUSE: u64 = 1_000;

/// What clears a terminal, and puts its cursor at the top.
const CLEAR: &str = "\u{1b}[H\u{1b}[J";

/// The number of tables, `None` for one each second without an end; and whether each takes the place of the last one.
#[derive(Clone, Copy)]
pub(crate) struct TopView {
    pub(crate) count: Option<u32>,
    pub(crate) is_terminal: bool,
}

/// A status, and when it was answered; `None` without a clock.
#[derive(Drop)]
struct Sample {
    status: ServerStatus,
    at: Option<Instant>,
}

impl<R: Source + Drop, W: Sink + Drop, O: Sink + Drop, E: Sink + Drop> Dialogue<R, W, O, E> {
    /// Prints a table of the locks each second, until it is interrupted or the server is gone. `made` is the number of
    /// tables, with those of earlier sessions.
    pub(crate) fn top<P: Wait>(
        &mut self,
        rt: &HostRuntime,
        threads: &P,
        view: TopView,
        made: &mut u32,
    ) -> Result<AskEnd, AskFault> {
        let mut last = None;
        for _ in threads.forever() {
            let Some(value) = self.accepted(ClientRequest::Status)? else {
                return Ok(AskEnd::Refused);
            };
            if self.console.is_json() {
                self.print_answer()?;
            } else {
                let sample = Sample {
                    status: server_status(self.alloc, &value)?,
                    at: Instant::now(rt).ok(),
                };
                let mut text = separator(self.alloc, view, *made)?;
                push_sample(&mut text, self.alloc, &last, &sample)?;
                self.console.print(text.as_str())?;
                last = Some(sample);
            }
            *made = made.saturating_add(1);
            if view.count.is_some_and(|count| *made >= count) {
                break;
            }
            thread::sleep(rt, Duration::from_millis(PAUSE));
        }
        Ok(AskEnd::Done)
    }
}

/// What separates a table from this number of earlier ones.
fn separator(alloc: Global, view: TopView, made: u32) -> Result<String, AllocError> {
    let text = if view.is_terminal {
        CLEAR
    } else if made > 0 {
        "\n"
    } else {
        ""
    };
    String::from_str(alloc, text)
}

/// Appends the table of a sample, with the jobs a second since the last one of the session.
fn push_sample(
    out: &mut String,
    alloc: Global,
    last: &Option<Sample>,
    sample: &Sample,
) -> Result<(), AllocError> {
    match last {
        Some(last) => {
            let millis = millis_between(last.at, sample.at);
            push_top(
                out,
                alloc,
                &sample.status,
                last.status.locks.as_slice(),
                millis,
            )
        }
        None => push_top(out, alloc, &sample.status, &[], None),
    }
}

/// Appends the table of the locks, with the jobs a second since they were as before, this number of milliseconds ago.
fn push_top(
    out: &mut String,
    alloc: Global,
    status: &ServerStatus,
    before: &[ReportedLock],
    millis: Option<u64>,
) -> Result<(), AllocError>
    ensures { OnOk result (string_bytes out.new ≡ string_bytes out.old
        ++ table_text (spec.top_rows status.now before.now millis)) }
{
    let rows = top_rows(alloc, status, before, millis)?;
    push_table(out, rows.as_slice())
}

/// The milliseconds from one instant to another.
fn millis_between(from: Option<Instant>, to: Option<Instant>) -> Option<u64> {
    let passed = to?.saturating_duration_since(from?);
    u64::try_from(passed.as_millis()).ok()
}

/// The rows of locks: a header, and a row for each lock. The rates are those since the locks were as before, this
/// number of milliseconds ago.
fn top_rows(
    alloc: Global,
    status: &ServerStatus,
    before: &[ReportedLock],
    millis: Option<u64>,
) -> Result<Vec<Vec<String>>, AllocError>
    ensures { IfOk result (λ rows. spec.rows_view rows.items ≡ spec.top_rows status.now before.now millis) }
{
    let titles = ["LOCK", "OWNER", "STATE", "SINCE", "WAITING", "JOBS/S"];
    let view = TopLocks {
        workers: status.workers.as_slice(),
        before,
        millis,
    };
    rows_of(alloc, &titles, status.locks.as_slice(), &view)
}

/// Locks, beside the workers of their server, and the same locks some milliseconds ago.
#[derive(Drop)]
struct TopLocks<'a> {
    workers: &'a [ReportedWorker],
    before: &'a [ReportedLock],
    millis: Option<u64>,
}

impl<'a> RowOf<ReportedLock> for TopLocks<'a> {
    ghost cells_of = { λ view number lock. spec.top_row view.workers.now view.before.now view.millis number lock };

    fn row(
        &self,
        alloc: Global,
        number: usize,
        lock: &ReportedLock,
    ) -> Result<Vec<String>, AllocError> {
        let waiting = waiting_for(self.workers, lock.name.as_str());
        Ok(vec![in alloc;
            String::from_str(alloc, lock.name.as_str())?,
            owner_cell(alloc, lock.owner)?,
            String::from_str(alloc, owner_state(lock.owner, self.workers))?,
            since_text(alloc, owner_seconds(lock.owner, self.workers))?,
            format!(in alloc; "{waiting}")?,
            number_or(alloc, self.rate(number, lock), NOTHING)?,
        ]?)
    }
}

impl<'a> TopLocks<'a> {
    /// The jobs a second of a lock since its earlier status; `None` without an earlier status, or without a clock.
    fn rate(&self, number: usize, lock: &ReportedLock) -> Option<u64>
        ensures { result ≡ spec.lock_rate self.now.before.now self.now.millis number lock.now }
    {
        let earlier = self.before.get(number)?;
        jobs_per_second(earlier.sections, lock.sections, self.millis?)
    }
}

/// The seconds since the stance of an owner changed, if the server tells them.
fn owner_seconds(owner: Option<u64>, workers: &[ReportedWorker]) -> Option<u64>
    ensures { result ≡ spec.owner_seconds workers.now owner }
{
    workers.get(owner? as usize)?.seconds
}

/// The jobs a second between two numbers of finished sections, this number of milliseconds apart; `None` if no time
/// passed.
fn jobs_per_second(before: u64, after: u64, millis: u64) -> Option<u64>
    ensures { result ≡ spec.jobs_per_second before after millis }
{
    after
        .saturating_sub(before)
        .checked_mul(1_000)?
        .checked_div(millis)
}
