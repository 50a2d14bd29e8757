//! The contents of a file of words that processes map.

ghost use Rattle.std.specs.Prelude.{◌<◌};

use crate::claims::{file_at, living_workers};
use crate::holders::{Holder, holders_of};
use crate::rows::{
    Finisher, HeldLevels, Presence, WorkerRow, WorkerToShow, push_lock_table, push_workers,
};
use crate::table::text_of;
use rme_cli_messages::{CliFault, escape_controls};
use rme_cli_options::OutputFormat;
use rme_durable_lookups::{LockStatus, WorkerStance};
use rme_process_file::{FileDefect, FileStance, ProcessFile, push_damage, push_json};
use std::alloc::{AllocError, Global};
use std::fs;

/// The kernel's file with the id of the current boot.
const BOOT: &str = "/proc/sys/kernel/random/boot_id";

/// The length of that id in bytes, before a newline.
const BOOT_LENGTH: usize = 36;

/// Appends the contents of a file of words, and answers the status of the process.
pub(crate) fn push_words(
    out: &mut String,
    rt: &HostRuntime,
    path: &str,
    bytes: &[u8],
    form: OutputFormat,
) -> Result<u8, CliFault> {
    let read = ProcessFile::read(rt.alloc(), bytes);
    if form == OutputFormat::Check {
        return push_verdict(out, &read);
    }
    match read {
        Ok(mapped) => push_mapped(out, rt, path, &mapped, form)?,
        Err(why) => return Err(unread(rt, path, why)?),
    }
    Ok(0)
}

/// Appends the contents of a file of words that was read.
fn push_mapped(
    out: &mut String,
    rt: &HostRuntime,
    path: &str,
    mapped: &ProcessFile,
    form: OutputFormat,
) -> Result<(), CliFault> {
    let file = file_at(rt, path)?;
    let living = living_workers(rt, file, mapped.shape().workers())?;
    if form == OutputFormat::Json {
        push_json(out, mapped, living.as_slice())?;
        out.push_str("\n")?;
        return Ok(());
    }
    let goes_on = push_state(out, rt, mapped)?;
    let users = Users {
        living,
        holders: holders_of(rt, file)?,
    };
    let view = WorkerToShow {
        names: mapped.names(),
        height: mapped.shape().height(),
        finisher: Finisher::Process(path),
        goes_on,
        all: form == OutputFormat::AllTables,
    };
    push_tables(out, rt.alloc(), mapped, &view, &users)?;
    Ok(())
}

/// Appends the tables of the locks and of the workers, and what is left to finish.
fn push_tables(
    out: &mut String,
    alloc: Global,
    mapped: &ProcessFile,
    view: &WorkerToShow<'_>,
    users: &Users,
) -> Result<(), AllocError> {
    let locks = lock_rows(alloc, mapped)?;
    push_lock_table(out, alloc, view.names, locks.as_slice())?;
    out.push_str("\n")?;
    let rows = worker_rows(alloc, mapped, users)?;
    push_workers(out, alloc, view, rows.as_slice())
}

/// The processes of a file.
#[derive(Drop)]
struct Users {
    /// Whether each worker has a living process; empty if the system does not say.
    living: Vec<bool>,
    /// The processes that have workers, as far as the system shows them.
    holders: Vec<Holder>,
}

/// The status of each lock.
fn lock_rows(alloc: Global, mapped: &ProcessFile) -> Result<Vec<LockStatus>, AllocError> {
    let shape = mapped.shape();
    let mut rows = Vec::new(alloc);
    for lock in 0..shape.locks {
        let (cells, settled) = mapped.cells(lock);
        rows.push(LockStatus {
            cells,
            settled,
            owner: mapped.owner(lock),
            sections: mapped.sections(lock),
        })?;
    }
    Ok(rows)
}

/// Each worker.
fn worker_rows(
    alloc: Global,
    mapped: &ProcessFile,
    users: &Users,
) -> Result<Vec<WorkerRow>, AllocError> {
    let shape = mapped.shape();
    let mut rows = Vec::new(alloc);
    for worker in 0..shape.workers {
        let stance = stance_of(mapped.stance(worker));
        let (user, presence) = user_of(alloc, users, worker, stance)?;
        rows.push(WorkerRow {
            user,
            presence,
            stance,
            number: mapped.number(worker),
            blocked_by: mapped.blocked_by(worker),
            held: held_levels(mapped, worker),
        })?;
    }
    Ok(rows)
}

/// The stance of a worker, as that of a worker of a state.
fn stance_of(stance: FileStance) -> WorkerStance {
    match stance {
        FileStance::Ready => WorkerStance::Ready,
        FileStance::Climb(lock) => WorkerStance::Climb(lock),
        FileStance::Held(lock) => WorkerStance::Held(lock),
    }
}

/// The levels that a worker holds in the lock that it is at, if it holds any.
fn held_levels(mapped: &ProcessFile, worker: u32) -> Option<HeldLevels>
    requires { worker < mapped.now.shape.workers }
{
    let shape = mapped.shape();
    for lock in 0..shape.locks {
        let levels = mapped.levels(lock, worker);
        if levels > 0 {
            return Some(HeldLevels { lock, levels });
        }
    }
    None
}

/// The processes that have a worker, as far as the system shows them, and whether there is one.
fn user_of(
    alloc: Global,
    users: &Users,
    worker: u32,
    stance: WorkerStance,
) -> Result<(String, Presence), AllocError> {
    let processes = processes_of(alloc, users.holders.as_slice(), worker)?;
    let lives = match users.living.get(worker as usize) {
        Some(lives) => Some(*lives),
        None => None,
    };
    if !processes.is_empty() {
        return Ok((processes, Presence::Here));
    }
    let (word, presence) = match lives {
        None => ("-", Presence::Unknown),
        Some(true) => ("living", Presence::Here),
        Some(false) if stance == WorkerStance::Ready => ("free", Presence::Gone),
        Some(false) => ("dead", Presence::Gone),
    };
    Ok((text_of(alloc, word)?, presence))
}

/// The numbers of the processes that have a worker, separated by commas.
fn processes_of(alloc: Global, holders: &[Holder], worker: u32) -> Result<String, AllocError> {
    let mut text = String::new(alloc);
    for holder in holders {
        if holder.worker == u64::from(worker) {
            let comma = if text.is_empty() { "" } else { "," };
            let process = holder.process;
            write!(text, "{comma}{process}")?;
        }
    }
    Ok(text)
}

/// Appends whether the words are sound, or why not, and answers the status.
fn push_verdict(out: &mut String, read: &Result<ProcessFile, FileDefect>) -> Result<u8, CliFault> {
    let mapped = match read {
        Ok(mapped) => mapped,
        Err(why) => return push_why(out, why),
    };
    let Some(damage) = mapped.first_damage() else {
        out.push_str("yes\n")?;
        return Ok(0);
    };
    out.push_str("no: ")?;
    push_damage(out, mapped.names(), damage)?;
    out.push_str("\n")?;
    Ok(1)
}

/// Appends why a file is no file of words, and answers the status.
fn push_why(out: &mut String, why: &FileDefect) -> Result<u8, CliFault> {
    if *why == FileDefect::NoMemory {
        return Err(CliFault::NoMemory);
    }
    write!(out, "no: {why}\n")?;
    Ok(1)
}

/// The fault if a file of words cannot be read.
fn unread(rt: &HostRuntime, path: &str, why: FileDefect) -> Result<CliFault, AllocError> {
    if why == FileDefect::NoMemory {
        return Ok(CliFault::NoMemory);
    }
    let text = format!(in rt.alloc(); "{why}")?;
    Ok(CliFault::BadWords(escape_controls(rt.alloc(), path)?, text))
}

/// Appends a line if no process may continue with the file, and answers whether one may.
fn push_state(
    out: &mut String,
    rt: &HostRuntime,
    mapped: &ProcessFile,
) -> Result<bool, AllocError> {
    if mapped.moved() {
        out.push_str("moved: another file has the cells since\n")?;
        return Ok(false);
    }
    if is_old(rt, mapped) {
        out.push_str("old boot: the machine was started again since\n")?;
        return Ok(false);
    }
    Ok(true)
}

/// Whether the file was made before the machine's last boot, as far as the system says.
fn is_old(rt: &HostRuntime, mapped: &ProcessFile) -> bool {
    let Ok(boot) = fs::read(rt, BOOT) else {
        return false;
    };
    let text = boot.as_slice();
    !mapped
        .boot()
        .starts_with(&text[..text.len().min(BOOT_LENGTH)])
}
