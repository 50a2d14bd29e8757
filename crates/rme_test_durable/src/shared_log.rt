//! A log over a shared store: an answer waits until the store was asked whether it is still the log's own, also where
//! there are no lines.

ghost use Rattle.std.specs.Prelude.{◌≡◌, true};

use crate::log::{LineSource, append_and_commit};
use rme_durable_log::{LogStore, LogTag, NotDurable, OpenLog};
use std::alloc::Global;
use std::marker::Brand;
use std::process::Abort;
use std::sync::atomic::{AtomicBool, AtomicU64, Ordering};
use std::sync::{Mutex, Wait};
use std::test::*;
use std::time::Clock;

/// What is seen of a store from outside: how often it was asked, and whether another process has taken it over.
#[derive(Drop)]
struct Outside {
    asked: AtomicU64,
    is_taken: AtomicBool,
}

/// A store that another process may take over. Each append asks whether that has happened.
#[derive(Drop)]
struct SharedPages<'a> {
    outside: &'a Outside,
    bytes: Vec<u8>,
    works: bool,
    asked: u64,
}

impl<'a> SharedPages<'a> {
    /// An empty store.
    fn new(alloc: Global, outside: &'a Outside) -> SharedPages<'a>
        ensures works { result.works ≡ true }
        ensures asked { result.asked ≡ 0 }
    {
        SharedPages {
            outside,
            bytes: Vec::new(alloc),
            works: true,
            asked: 0,
        }
    }
}

impl LogStore for SharedPages<'_> {
    ghost use Rattle.std.specs.Prelude.{Some, true};

    ghost holds = { λ pages. record { bytes = Some pages.bytes.items; works = pages.works; barriers = pages.asked } };

    ghost shared = { true };

    fn append(&mut self, lines: &[u8]) -> Result<(), NotDurable> {
        self.outside.asked.fetch_add(1, Ordering::SeqCst);
        let is_own = !self.outside.is_taken.load(Ordering::SeqCst) && self.asked < u64::MAX;
        if is_own && self.bytes.extend_from_slice(lines).is_ok() {
            self.asked += 1;
            Ok(())
        } else {
            self.works = false;
            Err(NotDurable)
        }
    }

    fn replace(&mut self, _bytes: &[u8]) -> Result<(), NotDurable> {
        Err(NotDurable)
    }

    fn is_quick(&self) -> bool {
        false
    }

    fn is_shared(&self) -> bool {
        true
    }

    fn fail(&mut self) {
        self.works = false;
    }
}

#[test]
fn a_shared_store_is_asked(rt: HostRuntime) -> Result<(), Fail> {
    let outside = Outside {
        asked: AtomicU64::new(0),
        is_taken: AtomicBool::new(false),
    };
    let pages = SharedPages::new(rt.alloc(), &outside);
    asked::<Brand, _>(&rt, rt.alloc(), OpenLog::new(pages), &outside)
}

fn asked<'a, J: LogTag, R: Wait + Clock + Abort>(
    rt: &R,
    alloc: Global,
    opened: OpenLog<SharedPages<'a>>,
    outside: &'a Outside,
) -> Result<(), Fail>
    requires { opened ≡ J.book }
{
    let (appender, commits) = opened.split::<J>(alloc);
    let source = Mutex::new(LineSource::new(alloc, appender).ok_or("author")?);
    let start = source.lock(rt).position().ok_or("start")?;
    assert!(rt; commits.commit(rt, &source, &start).is_ok());
    assert_eq!(rt; outside.asked.load(Ordering::SeqCst), 1);
    // The answer to a later look-up at the same bytes asks again, and lines ask as they are written.
    let later = source.lock(rt).position().ok_or("later")?;
    assert!(rt; commits.commit(rt, &source, &later).is_ok());
    assert_eq!(rt; outside.asked.load(Ordering::SeqCst), 2);
    assert!(rt; commits.commit(rt, &source, &start).is_ok());
    assert!(rt; append_and_commit(rt, &source, &commits, "one\n"));
    assert_eq!(rt; outside.asked.load(Ordering::SeqCst), 3);
    let end = source.lock(rt).position().ok_or("end")?;
    outside.is_taken.store(true, Ordering::SeqCst);
    assert!(rt; commits.commit(rt, &source, &end).is_err());
    assert!(rt; commits.is_failed());
    Ok(())
}
