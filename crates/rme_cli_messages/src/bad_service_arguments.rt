//! The errors in the words that request a service.

use crate::argument::{BadArgument, escape_controls};
use rme_line_io::is_name;
use rme_words::{MOST_CELLS, MOST_JOBS, MOST_LOCKS, MOST_WORKERS};
use std::alloc::{AllocError, Global};

/// Why texts may not name the locks of a service: the first one that is no name or is repeated, otherwise that they are
/// too many or none.
pub fn why_not_locks(alloc: Global, texts: &[String]) -> Result<BadArgument, AllocError> {
    for (index, text) in texts.iter().enumerate() {
        let word = text.as_str();
        if !is_name(word) {
            return Ok(BadArgument::NoName(escape_controls(alloc, word)?));
        }
        if texts[..index].iter().any(|other| word == other.as_str()) {
            return Ok(BadArgument::Twice(escape_controls(alloc, word)?));
        }
    }
    Ok(BadArgument::ManyLocks(texts.len(), MOST_LOCKS))
}

/// Why a service cannot have these sizes, which are given with these options.
pub fn why_not_sizes(
    workers: (&'static str, u32),
    cells: (&'static str, u32),
    jobs: (&'static str, u32),
) -> BadArgument {
    if workers.1 == 0 || workers.1 > MOST_WORKERS {
        return BadArgument::OutOfRange(workers.0, workers.1, MOST_WORKERS);
    }
    if cells.1 == 0 || cells.1 > MOST_CELLS {
        return BadArgument::OutOfRange(cells.0, cells.1, MOST_CELLS);
    }
    BadArgument::OutOfRange(jobs.0, jobs.1, MOST_JOBS)
}

/// Why these cannot be the falls of a worker: the first one that is not greater than the one before. If all increase,
/// the last one.
pub fn why_not_falls(falls: &[u32]) -> BadArgument {
    let mut before = 0;
    let mut last = 0;
    for (index, fall) in falls.iter().enumerate() {
        before = last;
        last = *fall;
        if index > 0 && last <= before {
            break;
        }
    }
    BadArgument::FallsBack(before, last)
}
