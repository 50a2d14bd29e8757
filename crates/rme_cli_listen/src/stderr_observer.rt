//! Reporting faults of connections, and what happens to workers, on the standard error.

ghost use Rattle.std.specs.Prelude.{◌≡◌, ◌++◌, IfOk, codes, string_bytes};
ghost use Rattle.rme_cli_listen.specs.EventTexts.{connection_text, event_sentence};

use crate::event_line::SessionEventLine;
use jiff::Timestamp;
use rme_cli_messages::{MessageLimit, RepeatCount, Stderr};
use rme_cli_options::ServerLog;
use rme_line_diagnose::Reason;
use rme_session_loop::SessionEvent;
use rme_session_server::ServerObserver;
use std::alloc::{AllocError, Global};
use std::sync::atomic::{AtomicU64, Ordering};
use std::time::Duration;
use std::{io, thread};

/// The pause in milliseconds after a connection that could not be accepted or served, so that others can end.
const PAUSE: u64 = 100;

/// Reports faults on the standard error; a repeated fault once in some seconds, with its count. If there is a log, each
/// event has a line there, with its time.
#[derive(Drop)]
pub struct StderrObserver<'a> {
    rt: &'a HostRuntime,
    stderr: Stderr<'a>,
    log: ServerLog,
    not_accepted: RepeatedFailure,
    no_thread: RepeatedFailure,
}

/// A repeated fault.
#[derive(Drop)]
struct RepeatedFailure {
    count: AtomicU64,
    limit: MessageLimit,
}

impl RepeatedFailure {
    fn new() -> RepeatedFailure {
        RepeatedFailure {
            count: AtomicU64::new(0),
            limit: MessageLimit::new(),
        }
    }

    /// Counts the fault once more. If it is to be reported now, answers its count since the last report.
    fn count_one(&self, stderr: &Stderr<'_>) -> Option<RepeatCount> {
        self.count.fetch_add(1, Ordering::SeqCst);
        if !self.limit.may_tell(stderr) {
            return None;
        }
        Some(RepeatCount(self.count.swap(0, Ordering::SeqCst)))
    }
}

impl<'a> StderrObserver<'a> {
    pub fn new(rt: &'a HostRuntime, log: ServerLog) -> StderrObserver<'a> {
        StderrObserver {
            rt,
            stderr: Stderr::new(rt),
            log,
            not_accepted: RepeatedFailure::new(),
            no_thread: RepeatedFailure::new(),
        }
    }

    pub fn rt(&self) -> &'a HostRuntime {
        self.rt
    }

    pub fn stderr(&self) -> &Stderr<'a> {
        &self.stderr
    }

    /// The session of this connection uses this space from now on. If there is a log, that has a line there, so that the
    /// later lines of the connection tell of the workers of this space.
    pub fn space_used(&self, connection: u64, space: &str) {
        if self.log == ServerLog::Off {
            return;
        }
        let alloc = self.rt.alloc();
        let text = match Timestamp::now(self.rt) {
            Ok(time) => format!(in alloc;
                "rme: {time:.3} connection {connection} uses space {space}\n"
            ),
            Err(_) => format!(in alloc; "rme: connection {connection} uses space {space}\n"),
        };
        self.stderr.tell(text);
    }
}

impl ServerObserver for StderrObserver<'_> {
    fn not_accepted(&self, why: io::Error) {
        if let Some(again) = self.not_accepted.count_one(&self.stderr) {
            let text = format!(in self.rt.alloc();
                "rme: a connection can't be accepted: {why}{again}\n"
            );
            self.stderr.tell(text);
        }
        thread::sleep(self.rt, Duration::from_millis(PAUSE));
    }

    fn no_thread(&self) {
        if let Some(again) = self.no_thread.count_one(&self.stderr) {
            let text = format!(in self.rt.alloc();
                "rme: a connection is closed, since it can't have a thread{again}\n"
            );
            self.stderr.tell(text);
        }
        thread::sleep(self.rt, Duration::from_millis(PAUSE));
    }

    fn bad_line(&self, connection: u64, line: u64, why: &Reason) {
        let text = format!(in self.rt.alloc();
            "rme: connection {connection}, line {line}: {why}\n"
        );
        self.stderr.tell(text);
    }

    fn session_event(&self, connection: Option<u64>, event: SessionEvent) {
        if self.log == ServerLog::Off {
            return;
        }
        let line = SessionEventLine { connection, event };
        let text = match Timestamp::now(self.rt) {
            Ok(time) => format!(in self.rt.alloc(); "rme: {time:.3} {line}\n"),
            // A clock that can't be read costs the line its time.
            Err(_) => line_without_time(self.rt.alloc(), line),
        };
        self.stderr.tell(text);
    }

    fn second_passed(&self) {}
}

/// The line of an event in the log, without its time.
fn line_without_time(alloc: Global, line: SessionEventLine) -> Result<String, AllocError>
    ensures { IfOk result (λ text. string_bytes text
        ≡ codes "rme: " ++ (event_sentence (connection_text line.connection) line.event ++ codes "\n")) }
{
    format!(in alloc; "rme: {line}\n")
}
