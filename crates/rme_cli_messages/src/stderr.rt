//! The standard error of a server, on which no thread waits, even if it is a pipe that nobody reads.

use std::alloc::AllocError;
use std::fs::{File, OpenOptions};
use std::io::Write;
use std::net::TcpStream;
use std::os::fd::AsFd;
use std::os::unix::fs::FileTypeExt;
use std::sync::atomic::{AtomicU64, Ordering};
use std::time::Instant;
use std::{fmt, fs};

/// The standard error of this process, opened as a file of its own.
const OWN_STDERR: &str = "/proc/self/fd/2";

/// A repeated text is written once in this number of milliseconds.
const PAUSE: u64 = 5_000;

/// The standard error of a server. If it is a pipe, text that cannot be written at once is dropped: a server must not
/// stop because nobody reads its messages.
#[derive(Drop)]
pub struct Stderr<'a> {
    rt: &'a HostRuntime,
    /// The pipe, opened once more, so that other programs that write to it still wait.
    pipe: Option<File>,
    began: Option<Instant>,
}

impl<'a> Stderr<'a> {
    pub fn new(rt: &'a HostRuntime) -> Stderr<'a> {
        Stderr {
            rt,
            pipe: pipe_of(rt),
            began: Instant::now(rt).ok(),
        }
    }

    /// Writes a text with its newline, in one write. A text whose memory was refused is dropped.
    pub fn tell(&self, text: Result<String, AllocError>) {
        let Ok(text) = text else {
            return;
        };
        match &self.pipe {
            // A pipe takes a text of up to 4,096 bytes completely or not at all.
            Some(pipe) => {
                let mut pipe = pipe;
                let _ = pipe.write(text.as_bytes());
            }
            None => {
                let _ = eprint!(self.rt; "{text}");
            }
        }
    }

    /// The milliseconds since it was made.
    fn now(&self) -> u64 {
        let Some(began) = &self.began else {
            return 0;
        };
        match began.elapsed(self.rt) {
            Ok(passed) => u64::try_from(passed.as_millis()).unwrap_or(u64::MAX),
            Err(_) => 0,
        }
    }
}

/// The rate limit of a repeated message.
#[derive(Drop)]
pub struct MessageLimit {
    /// The time of the next allowed message.
    next: AtomicU64,
}

impl MessageLimit {
    pub fn new() -> MessageLimit {
        MessageLimit {
            next: AtomicU64::new(0),
        }
    }

    /// Whether the message may be written now; then it may not be for a while.
    pub fn may_tell(&self, stderr: &Stderr<'_>) -> bool {
        let now = stderr.now();
        let next = self.next.load(Ordering::SeqCst);
        if now < next {
            return false;
        }
        let later = now.saturating_add(PAUSE);
        self.next
            .compare_exchange(next, later, Ordering::SeqCst, Ordering::SeqCst)
            .is_ok()
    }
}

/// The count of a repeated message, after its text: nothing if it is 1.
#[derive(Clone, Copy)]
pub struct RepeatCount(pub u64);

impl fmt::Display for RepeatCount {
    fn fmt<W: fmt::Write>(&self, f: &mut fmt::Formatter<W>) -> fmt::Result {
        if self.0 <= 1 {
            return Ok(());
        }
        let count = self.0;
        write!(f, " ({count} times)")
    }
}

/// The pipe of the standard error, opened so that no write waits; `None` if it is no pipe, or cannot be opened.
fn pipe_of(rt: &HostRuntime) -> Option<File> {
    let found = fs::metadata(rt, OWN_STDERR).ok()?;
    if !found.file_type().is_fifo() {
        return None;
    }
    let mut options = OpenOptions::new();
    options.write(true);
    let pipe = options.open(rt, OWN_STDERR).ok()?;
    let socket = TcpStream::from(pipe.as_fd().try_clone_to_owned().ok()?);
    // Both are the same open file, so this sets the flag of it.
    socket.set_nonblocking(true).ok()?;
    Some(pipe)
}
