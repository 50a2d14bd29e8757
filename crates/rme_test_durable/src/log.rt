//! A log over a store in memory: two threads that commit at once, a replacement, failures, and a quick store.

ghost use Rattle.std.specs.Prelude.{◌≡◌, [], IfOk, true};

use rme_durable_log::{
    GroupCommit, LogAppender, LogAuthor, LogPosition, LogStore, LogTag, LogWriter, NotDurable,
    OpenLog, PendingBatch, PendingLines, QuickWrite,
};
use std::alloc::{AllocError, Global};
use std::marker::{Brand, Model};
use std::mem::replace;
use std::process::Abort;
use std::sync::{Mutex, Wait};
use std::test::*;
use std::thread::{Threads, join};
use std::time::Clock;

/// A store that counts its calls.
#[derive(Drop)]
struct Pages {
    alloc: Global,
    bytes: Vec<u8>,
    losses: u32,
    is_quick: bool,
    works: bool,
}

impl Pages {
    /// A store with these bytes.
    fn new(alloc: Global, bytes: &[u8], is_quick: bool) -> Result<Pages, AllocError>
        ensures { IfOk result (λ pages. pages.works ≡ true) }
    {
        Ok(Pages {
            alloc,
            bytes: Vec::from_slice(alloc, bytes)?,
            losses: 0,
            is_quick,
            works: true,
        })
    }

    fn has(&self, text: &str) -> bool {
        self.bytes.as_slice() == text.as_bytes()
    }
}

impl LogStore for Pages {
    ghost use Rattle.std.specs.Prelude.{Some, false};

    ghost holds = { λ pages. record { bytes = Some pages.bytes.items; works = pages.works; barriers = 0 } };

    ghost shared = { false };

    fn append(&mut self, lines: &[u8]) -> Result<(), NotDurable> {
        match self.bytes.extend_from_slice(lines) {
            Ok(()) => Ok(()),
            Err(_) => {
                self.works = false;
                Err(NotDurable)
            }
        }
    }

    fn replace(&mut self, bytes: &[u8]) -> Result<(), NotDurable> {
        match Vec::from_slice(self.alloc, bytes) {
            Ok(all) => {
                self.bytes = all;
                Ok(())
            }
            Err(_) => Err(NotDurable),
        }
    }

    fn is_quick(&self) -> bool {
        self.is_quick
    }

    fn is_shared(&self) -> bool {
        false
    }

    fn fail(&mut self) {
        self.losses = self.losses.saturating_add(1);
        self.works = false;
    }
}

/// Pending lines, beside their appender; `None` once an event could not be written.
#[derive(Drop)]
pub(crate) struct LineSource<L: LogStore, J: LogTag> {
    lines: String,
    appender: Option<LogAppender<L, J>>,
    author: LogAuthor<J>,
}

impl<L: LogStore, J: LogTag> Model for LineSource<L, J> {
    ghost use Rattle.std.specs.Prelude.{◌≡◌, ℕ, List, IfSome, string_bytes};

    ghost Value = { List ℕ };

    ghost view = { λ source. string_bytes source.lines };

    ghost invariant = { λ source. IfSome source.appender (λ appender. appender.waits ≡ string_bytes source.lines) };
}

impl<L: LogStore, J: LogTag> PendingLines<L, J> for LineSource<L, J> {
    fn take_lines(&mut self, empty: String) -> Option<PendingBatch<L, J>> {
        let mut appender = self.appender.take()?;
        let mut empty = empty;
        empty.clear();
        let taken = appender.take(replace(&mut self.lines, empty))?;
        self.appender = Some(appender);
        Some(taken)
    }
}

impl<L: LogStore, J: LogTag> LineSource<L, J> {
    /// A source without pending lines, with an author of its own.
    pub(crate) fn new(alloc: Global, appender: LogAppender<L, J>) -> Option<LineSource<L, J>>
        requires { appender.waits ≡ [] }
    {
        let mut appender = appender;
        let author = appender.new_author()?;
        Some(LineSource {
            lines: String::new(alloc),
            appender: Some(appender),
            author,
        })
    }

    /// Writes a line and appends it, if there is memory.
    fn write(&mut self, line: &str) -> Option<LogPosition<L, J>> {
        let mut appender = self.appender.take()?;
        if self.lines.push_str(line).is_err() {
            self.appender = Some(appender);
            return None;
        }
        if !appender.append(&self.author, line.as_bytes()) {
            return None;
        }
        let position = appender.position();
        self.appender = Some(appender);
        Some(position)
    }

    /// The end of the log.
    pub(crate) fn position(&self) -> Option<LogPosition<L, J>> {
        match &self.appender {
            Some(appender) => Some(appender.position()),
            None => None,
        }
    }

    /// Whether the author has appended nothing since this position.
    fn wrote_nothing_since(&self, earlier: &LogPosition<L, J>) -> bool {
        match &self.appender {
            Some(appender) => appender.position_after(&self.author, earlier).is_some(),
            None => false,
        }
    }

    /// Replaces all bytes of the store.
    fn replace(&mut self, held: LogWriter<L, J>, bytes: &[u8]) -> Option<LogWriter<L, J>> {
        let mut appender = self.appender.take()?;
        let (held, is_new) = held.replace(&mut appender, bytes).ok()?;
        if !is_new {
            return None;
        }
        self.lines.clear();
        self.appender = Some(appender);
        Some(held)
    }
}

/// Appends a line and commits it.
pub(crate) fn append_and_commit<L: LogStore, J: LogTag, R: Wait + Clock>(
    rt: &R,
    source: &Mutex<LineSource<L, J>>,
    commits: &GroupCommit<L, J>,
    line: &str,
) -> bool {
    let position = source.lock(rt).write(line);
    match position {
        Some(position) => commits.commit(rt, source, &position).is_ok(),
        None => false,
    }
}

/// The final contents of the store, and the number of reported failures.
fn end<J: LogTag, R: Wait>(rt: &R, commits: &GroupCommit<Pages, J>) -> Option<Pages> {
    let (held, spare) = commits.take_writer(rt)?;
    drop(spare);
    Some(held.fail())
}

#[test]
fn two_lines_are_kept(rt: HostRuntime) -> Result<(), Fail> {
    let pages = Pages::new(rt.alloc(), b"before\n", false)?;
    kept_by_two::<Brand, _>(&rt, rt.alloc(), OpenLog::new(pages))
}

fn kept_by_two<J: LogTag + Send + Sync, R: Threads + Wait + Clock + Abort + Sync>(
    rt: &R,
    alloc: Global,
    opened: OpenLog<Pages>,
) -> Result<(), Fail>
    requires { opened ≡ J.book }
{
    let (appender, commits) = opened.split::<J>(alloc);
    let source = Mutex::new(LineSource::new(alloc, appender).ok_or("author")?);
    let (one, two) = join(
        rt,
        || append_and_commit(rt, &source, &commits, "one\n"),
        || append_and_commit(rt, &source, &commits, "two\n"),
    );
    assert!(rt; one && two);
    let pages = end(rt, &commits).ok_or("kept")?;
    let is_first = pages.has("before\none\ntwo\n");
    assert!(rt; is_first || pages.has("before\ntwo\none\n"));
    assert_eq!(rt; pages.losses, 1);
    Ok(())
}

#[test]
fn other_bytes_take_their_place(rt: HostRuntime) -> Result<(), Fail> {
    let pages = Pages::new(rt.alloc(), b"", false)?;
    replaced::<Brand, _>(&rt, rt.alloc(), OpenLog::new(pages))
}

fn replaced<J: LogTag, R: Wait + Clock + Abort>(
    rt: &R,
    alloc: Global,
    opened: OpenLog<Pages>,
) -> Result<(), Fail>
    requires { opened ≡ J.book }
{
    let (appender, commits) = opened.split::<J>(alloc);
    let source = Mutex::new(LineSource::new(alloc, appender).ok_or("author")?);
    assert!(rt; append_and_commit(rt, &source, &commits, "one\n"));
    let (held, spare) = commits.take_writer(rt).ok_or("taken")?;
    let held = source.lock(rt).replace(held, b"all\n").ok_or("replaced")?;
    commits.return_writer(rt, spare, Ok(held));
    assert!(rt; append_and_commit(rt, &source, &commits, "two\n"));
    let pages = end(rt, &commits).ok_or("kept")?;
    assert!(rt; pages.has("all\ntwo\n"));
    Ok(())
}

#[test]
fn nothing_is_kept_once_it_is_broken(rt: HostRuntime) -> Result<(), Fail> {
    let pages = Pages::new(rt.alloc(), b"", false)?;
    broken::<Brand, _>(&rt, rt.alloc(), OpenLog::new(pages))
}

fn broken<J: LogTag, R: Wait + Clock + Abort>(
    rt: &R,
    alloc: Global,
    opened: OpenLog<Pages>,
) -> Result<(), Fail>
    requires { opened ≡ J.book }
{
    let (appender, commits) = opened.split::<J>(alloc);
    let source = Mutex::new(LineSource::new(alloc, appender).ok_or("author")?);
    let position = source.lock(rt).write("one\n").ok_or("appended")?;
    commits.fail(rt);
    assert!(rt; commits.is_failed());
    assert!(rt; commits.commit(rt, &source, &position).is_err());
    assert!(rt; commits.take_writer(rt).is_none());
    Ok(())
}

#[test]
fn a_quick_store_is_written_at_once(rt: HostRuntime) -> Result<(), Fail> {
    let pages = Pages::new(rt.alloc(), b"", true)?;
    kept_at_once::<Brand, _>(&rt, rt.alloc(), OpenLog::new(pages))
}

fn kept_at_once<J: LogTag, R: Wait + Clock + Abort>(
    rt: &R,
    alloc: Global,
    opened: OpenLog<Pages>,
) -> Result<(), Fail>
    requires { opened ≡ J.book }
{
    let (appender, commits) = opened.split::<J>(alloc);
    let source = Mutex::new(LineSource::new(alloc, appender).ok_or("author")?);
    let mut front = source.lock(rt);
    let start = front.write("one\n").ok_or("appended")?;
    let position = front.write("two\n").ok_or("appended")?;
    assert!(rt; front.wrote_nothing_since(&position) && !front.wrote_nothing_since(&start));
    let write = commits
        .begin_quick_write(rt, &mut *front, &position)
        .ok_or("begun")?;
    assert!(rt; front.lines.is_empty());
    // No other thread writes meanwhile.
    let last = front.write("three\n");
    let second = commits.begin_quick_write(rt, &mut *front, &position);
    drop(front);
    commits.end_quick_write(rt, write);
    assert!(rt; !ends_quick_write(rt, &commits, second));
    let last = last.ok_or("appended")?;
    assert!(rt; commits.commit(rt, &source, &position).is_ok());
    assert!(rt; commits.commit(rt, &source, &last).is_ok());
    let pages = end(rt, &commits).ok_or("kept")?;
    assert!(rt; pages.has("one\ntwo\nthree\n"));
    Ok(())
}

/// Ends a write, and tells whether there was one.
fn ends_quick_write<J: LogTag, R: Wait>(
    rt: &R,
    commits: &GroupCommit<Pages, J>,
    write: Option<QuickWrite<Pages, J>>,
) -> bool {
    match write {
        Some(write) => {
            commits.end_quick_write(rt, write);
            true
        }
        None => false,
    }
}
