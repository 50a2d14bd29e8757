//! The name of a state's file, and the faults of the file that a server reports.

use crate::cause::Cause;
use rme_cli_messages::{MessageLimit, RepeatCount, Stderr, escape_controls};
use std::fs;
use std::fs::Metadata;
use std::os::unix::fs::MetadataExt;
use std::sync::Mutex;
use std::sync::atomic::{AtomicBool, AtomicU64, Ordering};

/// The name of a state's file, and the file that it must name. The file itself is with the thread that writes to it;
/// any thread may ask here whether the name is still the file's, and report faults.
///
/// A file that has lost its name must not be written any more: no recovery would find what is answered then.
#[derive(Drop)]
pub struct StateName {
    path: String,
    device: AtomicU64,
    inode: AtomicU64,
    /// Twice the number of replacements of the file; odd during a replacement.
    changes: AtomicU64,
    is_lost: AtomicBool,
    /// Lines could not be written, or the file has lost its name.
    unwritten: FaultReport,
    /// Memory for lines was refused.
    no_memory: AtomicBool,
    /// A new file could not take the name.
    unreplaced: FaultReport,
    /// The disk may not have the name of a new file.
    unsure: FaultReport,
}

/// A fault: how often it occurred since it was last reported, and its last cause. It is noted by a thread that must not
/// wait for the reader of the standard error.
#[derive(Drop)]
struct FaultReport {
    count: AtomicU64,
    /// It is locked for no longer than a copy takes.
    cause: Mutex<Cause>,
    limit: MessageLimit,
}

impl FaultReport {
    fn new() -> FaultReport {
        FaultReport {
            count: AtomicU64::new(0),
            cause: Mutex::new(Cause::Unknown),
            limit: MessageLimit::new(),
        }
    }

    /// Notes the fault. If another thread has the cause at this moment, the fault is counted with the earlier cause.
    fn note(&self, cause: Cause) {
        if let Some(mut last) = self.cause.try_lock() {
            *last = cause;
        }
        self.count.fetch_add(1, Ordering::SeqCst);
    }

    /// The number of faults since the last report, and the last cause, if a report is due.
    fn take(&self, stderr: &Stderr<'_>) -> Option<(u64, Cause)> {
        if self.count.load(Ordering::SeqCst) == 0 {
            return None;
        }
        // The lock first: once the limit was asked, the next report has to wait.
        let cause = *self.cause.try_lock()?;
        if !self.limit.may_tell(stderr) {
            return None;
        }
        Some((self.count.swap(0, Ordering::SeqCst), cause))
    }
}

impl StateName {
    /// A name without a known file.
    pub fn new(path: String) -> StateName {
        StateName {
            path,
            device: AtomicU64::new(0),
            inode: AtomicU64::new(0),
            changes: AtomicU64::new(0),
            is_lost: AtomicBool::new(false),
            unwritten: FaultReport::new(),
            no_memory: AtomicBool::new(false),
            unreplaced: FaultReport::new(),
            unsure: FaultReport::new(),
        }
    }

    pub fn path(&self) -> &str {
        self.path.as_str()
    }

    /// Sets the file that it must name.
    pub(crate) fn set(&self, file: &Metadata) {
        self.device.store(file.dev(), Ordering::SeqCst);
        self.inode.store(file.ino(), Ordering::SeqCst);
    }

    /// Marks the begin or the end of a replacement.
    pub(crate) fn change(&self) {
        self.changes.fetch_add(1, Ordering::SeqCst);
    }

    /// Notes that the file has lost its name. The server does not take it back.
    pub(crate) fn mark_lost(&self) {
        if !self.is_lost.swap(true, Ordering::SeqCst) {
            self.unwritten.note(Cause::NameLost);
        }
    }

    /// Whether the file was found to have lost its name.
    pub fn is_lost(&self) -> bool {
        self.is_lost.load(Ordering::SeqCst)
    }

    /// Checks whether the name is still the file's, and answers whether it was lost. If the system does not say, and
    /// during a replacement, the answer is the earlier one.
    pub fn check_name(&self, rt: &HostRuntime) -> bool {
        let before = self.changes.load(Ordering::SeqCst);
        let is_others = match fs::symlink_metadata(rt, self.path.as_str()) {
            Ok(found) => !self.is_of(&found),
            Err(error) => {
                matches!(
                    error.kind(),
                    std::io::ErrorKind::NotFound | std::io::ErrorKind::NotADirectory
                )
            }
        };
        let is_still = before % 2 == 0 && before == self.changes.load(Ordering::SeqCst);
        if is_others && is_still {
            self.mark_lost();
        }
        self.is_lost()
    }

    fn is_of(&self, found: &Metadata) -> bool {
        found.dev() == self.device.load(Ordering::SeqCst)
            && found.ino() == self.inode.load(Ordering::SeqCst)
    }

    pub(crate) fn note_unwritten(&self, cause: Cause) {
        self.unwritten.note(cause);
    }

    pub(crate) fn note_no_memory(&self) {
        self.no_memory.store(true, Ordering::SeqCst);
    }

    pub(crate) fn note_unreplaced(&self, cause: Cause) {
        self.unreplaced.note(cause);
    }

    pub(crate) fn note_unsure(&self, cause: Cause) {
        self.unsure.note(cause);
    }

    /// Reports on the standard error the faults noted since the last report. The calling thread must hold no lock: it
    /// may wait for the reader of the standard error.
    pub fn tell(&self, rt: &HostRuntime, stderr: &Stderr<'_>) {
        let Ok(path) = escape_controls(rt.alloc(), self.path.as_str()) else {
            return;
        };
        if let Some((_, cause)) = self.unwritten.take(stderr) {
            stderr.tell(format!(in rt.alloc();
                "fault: the state {path} can't be written: {cause}\n"
            ));
        }
        if self.no_memory.swap(false, Ordering::SeqCst) {
            stderr.tell(format!(in rt.alloc(); "fault: no memory\n"));
        }
        if let Some((count, cause)) = self.unreplaced.take(stderr) {
            let again = RepeatCount(count);
            stderr.tell(format!(in rt.alloc();
                "rme: the new state {path} can't be put in its place: {cause}{again}\n"
            ));
        }
        if let Some((count, cause)) = self.unsure.take(stderr) {
            let again = RepeatCount(count);
            stderr.tell(format!(in rt.alloc();
                "rme: the new state {path} has its name, and the disk may not have it: {cause}{again}\n"
            ));
        }
    }
}
