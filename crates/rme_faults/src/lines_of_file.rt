//! Lines of a file that are left out or repeated, for planted defects.

use std::alloc::{AllocError, Global};

const SUBMISSION: &str = "{\"do\":\"submit\"";

const WALK: &str = "{\"do\":\"walk\"";

/// What becomes of the last job of a file.
#[derive(Clone, Copy, PartialEq, Eq)]
pub enum KnownLastJob {
    LeftOut,
    Repeated,
}

/// Whether a line begins with this text.
fn begins_with(line: &[u8], text: &str) -> bool {
    line.starts_with(text.as_bytes())
}

/// The number of the last line that submits a job, if there is one.
fn last_submission(bytes: &[u8]) -> Option<usize> {
    let mut last = None;
    let mut number = 0usize;
    for line in bytes.split(|byte| *byte == b'\n') {
        if begins_with(line, SUBMISSION) {
            last = Some(number);
        }
        number = number.saturating_add(1);
    }
    last
}

/// Adds a line, behind a newline if it is not the first.
fn push_line(out: &mut Vec<u8>, line: &[u8]) -> Result<(), AllocError> {
    if !out.is_empty() {
        out.push(b'\n')?;
    }
    out.extend_from_slice(line)
}

/// The bytes of a file in which the line of the last submission, and the walk after it, are left out or repeated.
pub fn with_last_job(
    alloc: Global,
    bytes: &[u8],
    what: KnownLastJob,
) -> Result<Vec<u8>, AllocError> {
    let Some(last) = last_submission(bytes) else {
        return bytes.to_vec(alloc);
    };
    let mut out = Vec::new(alloc);
    let mut submission: &[u8] = &[];
    let mut number = 0usize;
    for line in bytes.split(|byte| *byte == b'\n') {
        let is_walk = number == last.saturating_add(1) && begins_with(line, WALK);
        if number == last {
            submission = line;
        }
        if what == KnownLastJob::Repeated || !(is_walk || number == last) {
            push_line(&mut out, line)?;
        }
        if what == KnownLastJob::Repeated && is_walk {
            push_line(&mut out, submission)?;
            push_line(&mut out, line)?;
        }
        number = number.saturating_add(1);
    }
    Ok(out)
}
