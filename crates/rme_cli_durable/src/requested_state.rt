//! The requested state: the lines of a new one, or what a request adds to the one that is there.

use rme_cli_messages::{BadArgument, CliFault, escape_controls, why_not_locks, why_not_sizes};
use rme_durable_checkpoint::MOST_SET;
use rme_durable_format::{LogHeader, RecoveredLog, push_header};
use rme_durable_lookups::clients_of;
use rme_line_text::{lock_name, push_opening};
use rme_wire::{GivenNames, Names};
use rme_words::{NoMemory, Shape};
use std::alloc::{AllocError, Global};

/// The default number of workers, besides the checkpoint worker.
const USUAL_WORKERS: u32 = 8;

/// The default number of cells of each lock.
const USUAL_CELLS: u32 = 1;

/// The default number of jobs of each worker.
const USUAL_JOBS: u32 = 10_000;

/// The greatest number of workers of a state, besides the checkpoint worker.
const MOST_WORKERS: u32 = 255;

/// The requested state.
#[derive(Drop)]
pub struct ServerConfig {
    pub path: String,
    pub workers: Option<u32>,
    pub cells: Option<u32>,
    pub jobs: Option<u32>,
    pub locks: Vec<String>,
    pub syncs: bool,
}

/// What a state becomes by a request for more than it has: the names of all locks, of which its own are the first, and
/// its larger shape.
#[derive(Drop)]
pub struct Growth {
    pub names: Names,
    pub shape: Shape,
}

/// The lines of a new state.
pub fn first_lines(rt: &HostRuntime, asked: &ServerConfig) -> Result<String, CliFault> {
    let alloc = rt.alloc();
    if asked.locks.as_slice().is_empty() {
        let path = escape_controls(alloc, asked.path.as_str())?;
        return Err(CliFault::BadArguments(BadArgument::NoNames(path)));
    }
    let names = names_of(alloc, &asked.locks)?;
    let shape = new_shape(asked, names.len())?;
    Ok(lines_of(alloc, &names, shape)?)
}

/// The lines of a new state with these locks and sizes, and the usual number of jobs. `None` if a state cannot have them.
pub fn usual_lines(
    alloc: Global,
    locks: &[String],
    workers: u32,
    cells: u32,
) -> Result<Option<String>, NoMemory> {
    let names = GivenNames::of(copies(alloc, locks)?);
    if !names.are_names() {
        return Ok(None);
    }
    let names = names.names(alloc)?;
    let jobs = jobs_for(USUAL_JOBS, names.len(), cells);
    match Shape::new(workers.saturating_add(1), names.len(), cells, jobs) {
        Ok(shape) => Ok(Some(lines_of(alloc, &names, shape)?)),
        Err(_) => Ok(None),
    }
}

/// The names of the locks of a new state.
fn names_of(alloc: Global, locks: &[String]) -> Result<Names, CliFault> {
    let why = why_not_locks(alloc, locks)?;
    let given = GivenNames::of(copies(alloc, locks)?);
    if !given.are_names() {
        return Err(CliFault::BadArguments(why));
    }
    Ok(given.names(alloc)?)
}

fn copies(alloc: Global, texts: &[String]) -> Result<Vec<String>, AllocError> {
    let mut copies = Vec::new(alloc);
    for text in texts {
        copies.push(String::from_str(alloc, text.as_str())?)?;
    }
    Ok(copies)
}

/// The lines of a new state with these names and of this shape.
fn lines_of(alloc: Global, names: &Names, shape: Shape) -> Result<String, AllocError> {
    let mut lines = String::new(alloc);
    push_header(&mut lines, names, &LogHeader::first(alloc, shape)?)?;
    push_opening(&mut lines, names, shape)?;
    lines.push_str("\n")?;
    Ok(lines)
}

/// The shape of a new state: the requested sizes, or the defaults.
fn new_shape(asked: &ServerConfig, locks: u32) -> Result<Shape, CliFault> {
    let cells = asked.cells.unwrap_or(USUAL_CELLS);
    let jobs = asked.jobs.unwrap_or(USUAL_JOBS);
    shape_of(asked.workers.unwrap_or(USUAL_WORKERS), locks, cells, jobs)
}

/// The shape of a state with these sizes, and with the checkpoint worker besides the workers.
fn shape_of(workers: u32, locks: u32, cells: u32, jobs: u32) -> Result<Shape, CliFault> {
    if workers == 0 || workers > MOST_WORKERS {
        let why = BadArgument::OutOfRange("--workers", workers, MOST_WORKERS);
        return Err(CliFault::BadArguments(why));
    }
    match Shape::new(workers + 1, locks, cells, jobs_for(jobs, locks, cells)) {
        Ok(shape) => Ok(shape),
        Err(_) => Err(CliFault::BadArguments(why_not_sizes(
            ("--workers", workers),
            ("--cells", cells),
            ("--jobs", jobs),
        ))),
    }
}

/// The number of jobs of each worker for a requested number: at least as many as the checkpoint worker may need, which
/// sets the cells of each lock at the beginning of an epoch, eight in a job. Clients do not notice it: their numbers
/// continue.
fn jobs_for(jobs: u32, locks: u32, cells: u32) -> u32 {
    if jobs == 0 {
        return jobs;
    }
    let of_a_lock = cells.div_ceil(MOST_SET);
    jobs.max(locks.saturating_mul(of_a_lock))
}

/// What a request adds to a state; `None` if the state has all of it. A request is refused that has fewer workers,
/// cells or locks than the state, another number of jobs, or other names in the place of those that the state has.
pub fn growth_of(
    rt: &HostRuntime,
    asked: &ServerConfig,
    log: &RecoveredLog,
) -> Result<Option<Growth>, CliFault> {
    let shape = log.world.shape();
    let clients = clients_of(&log.world);
    let workers = size_asked("--workers", asked.workers, clients)?;
    let cells = size_asked("--cells", asked.cells, shape.cells())?;
    check_jobs(asked.jobs, shape)?;
    let names = names_asked(rt, asked, &log.names)?;
    if workers == clients && cells == shape.cells() && names.len() == log.names.len() {
        return Ok(None);
    }
    let shape = shape_of(workers, names.len(), cells, shape.jobs())?;
    Ok(Some(Growth { names, shape }))
}

/// The requested size, at least that of the state; without a request that of the state.
fn size_asked(option: &'static str, asked: Option<u32>, has: u32) -> Result<u32, CliFault> {
    match asked {
        None => Ok(has),
        Some(number) if number >= has => Ok(number),
        Some(number) => {
            let why = BadArgument::OtherSize(option, number, has);
            Err(CliFault::BadArguments(why))
        }
    }
}

/// Refuses a number of jobs that is neither that of the state nor makes a state of its locks and cells with that number.
fn check_jobs(asked: Option<u32>, shape: Shape) -> Result<(), CliFault> {
    match asked {
        Some(jobs) if jobs_for(jobs, shape.locks(), shape.cells()) != shape.jobs() => {
            let why = BadArgument::OtherSize("--jobs", jobs, shape.jobs());
            Err(CliFault::BadArguments(why))
        }
        _ => Ok(()),
    }
}

/// The requested names of the locks, of which those of the state must be the first; without a request those of the
/// state.
fn names_asked(rt: &HostRuntime, asked: &ServerConfig, has: &Names) -> Result<Names, CliFault> {
    let alloc = rt.alloc();
    let own = texts_of(alloc, has)?;
    if asked.locks.is_empty() {
        return names_of(alloc, &own);
    }
    if !begins_with(&asked.locks, &own) {
        let path = escape_controls(alloc, asked.path.as_str())?;
        let locks = names_text(alloc, has)?;
        return Err(CliFault::BadArguments(BadArgument::OtherNames(path, locks)));
    }
    names_of(alloc, &asked.locks)
}

/// Whether the first texts of a list are these.
fn begins_with(texts: &[String], first: &[String]) -> bool {
    texts.len() >= first.len()
        && texts
            .iter()
            .zip(first)
            .all(|(text, first)| text.as_str() == first.as_str())
}

fn texts_of(alloc: Global, names: &Names) -> Result<Vec<String>, AllocError> {
    let mut texts = Vec::new(alloc);
    for lock in 0..names.len() {
        texts.push(String::from_str(alloc, lock_name(names, lock))?)?;
    }
    Ok(texts)
}

/// The names of all locks, with a space between them.
fn names_text(alloc: Global, names: &Names) -> Result<String, AllocError> {
    let mut text = String::new(alloc);
    for lock in 0..names.len() {
        if lock > 0 {
            text.push_str(" ")?;
        }
        text.push_str(lock_name(names, lock))?;
    }
    Ok(text)
}
