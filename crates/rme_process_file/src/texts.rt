//! The texts of a file's contents: JSON with sorted keys, and the names of damaged words.
//!
//! An error always means that memory was refused; the text is then of no use.

ghost use Rattle.std.specs.Prelude.{◌≡◌, ◌<◌, ◌++◌, OnOk, decimal, false, slice_get, string_bytes};
ghost use Rattle.std.specs.List.{range_with_len};
ghost use Rattle.rme_line_text.specs.Texts.{cells_text, comma_text, separated_text};
ghost use Rattle.rme_process_file.specs.FileTexts as spec;

use crate::damage::Damage;
use crate::process_file::ProcessFile;
use crate::stance::FileStance;
use rme_line_io::Names;
use rme_line_text::lock_name;
use rme_script::Row;
use std::alloc::AllocError;

/// Appends one object, as `{"locks":[..],"moved":false,"ok":"status","workers":[..]}`, without a newline.
///
/// `living` has for each worker, by its number, whether its process lives; the object of a worker beyond it leaves that
/// out.
pub fn push_json(out: &mut String, mapped: &ProcessFile, living: &[bool]) -> Result<(), AllocError>
    ensures { OnOk result (string_bytes out.new ≡ string_bytes out.old ++ spec.file_object mapped.now living.now) }
{
    out.push_str("{\"locks\":[")?;
    push_lock_objects(out, mapped)?;
    push_between(out, mapped.moved())?;
    push_worker_objects(out, mapped, living)?;
    out.push_str("]}")?;
    Ok(())
}

/// Appends the name of the damaged words, as `the word turn of lock bank`.
pub fn push_damage(out: &mut String, names: &Names, damage: Damage) -> Result<(), AllocError>
    ensures { OnOk result (string_bytes out.new ≡ string_bytes out.old ++ spec.damage_text names.now damage) }
{
    match damage {
        Damage::Begun(worker) => write!(out, "the word begun of worker {worker}"),
        Damage::Done(worker) => write!(out, "the word done of worker {worker}"),
        Damage::Stake(worker, lock) => push_stake(out, lock_name(names, lock), worker),
        Damage::Slate(worker) => write!(out, "the slate of worker {worker}"),
        Damage::Receipt(worker) => write!(out, "the receipt of worker {worker}"),
        Damage::Node(lock, node) => push_node(out, lock_name(names, lock), node),
        Damage::Turn(lock) => push_word(out, "turn", lock_name(names, lock)),
        Damage::Mask(lock) => push_word(out, "mask", lock_name(names, lock)),
    }
}

fn push_stake(out: &mut String, name: &str, worker: u32) -> Result<(), AllocError>
    ensures { OnOk result (string_bytes out.new ≡ string_bytes out.old ++ spec.stake_text name.now worker) }
{
    write!(out, "the nodes of lock {name} that worker {worker} holds")
}

fn push_node(out: &mut String, name: &str, node: u32) -> Result<(), AllocError>
    ensures { OnOk result (string_bytes out.new ≡ string_bytes out.old ++ spec.node_text name.now node) }
{
    write!(out, "node {node} of lock {name}")
}

fn push_word(out: &mut String, word: &str, name: &str) -> Result<(), AllocError>
    ensures { OnOk result (string_bytes out.new ≡ string_bytes out.old ++ spec.word_text word.now name.now) }
{
    write!(out, "the word {word} of lock {name}")
}

/// Whether the process of a worker lives, if that is known.
fn lives(living: &[bool], worker: u32) -> Option<bool>
    ensures { result ≡ slice_get living.now worker }
{
    match living.get(worker as usize) {
        Some(lives) => Some(*lives),
        None => None,
    }
}

/// Appends a comma if other items came earlier.
fn push_comma(out: &mut String, later: bool) -> Result<(), AllocError>
    ensures { OnOk result (string_bytes out.new ≡ string_bytes out.old ++ comma_text later) }
{
    if later { out.push_str(",") } else { Ok(()) }
}

fn push_number(out: &mut String, number: u64) -> Result<(), AllocError>
    ensures { OnOk result (string_bytes out.new ≡ string_bytes out.old ++ decimal number) }
{
    write!(out, "{number}")
}

/// Appends the cells of a row, separated by commas.
fn push_cells(out: &mut String, row: &Row) -> Result<(), AllocError>
    ensures { OnOk result (string_bytes out.new ≡ string_bytes out.old ++ cells_text row.now) }
{
    let mut later = false;
    for index in 0..row.len() {
        push_comma(out, later)?;
        push_number(out, row.get(index))?;
        later = true;
    }
    Ok(())
}

fn push_lock_objects(out: &mut String, mapped: &ProcessFile) -> Result<(), AllocError>
    ensures { OnOk result (string_bytes out.new ≡ string_bytes out.old ++ separated_text (spec.lock_object mapped.now)
        false (range_with_len 0 mapped.now.shape.locks)) }
{
    let shape = mapped.shape();
    let mut later = false;
    for lock in 0..shape.locks {
        push_comma(out, later)?;
        push_lock_object(out, mapped, lock)?;
        later = true;
    }
    Ok(())
}

fn push_lock_object(out: &mut String, mapped: &ProcessFile, lock: u32) -> Result<(), AllocError>
    requires { lock < mapped.now.shape.locks }
    ensures { OnOk result (string_bytes out.new ≡ string_bytes out.old ++ spec.lock_object mapped.now lock) }
{
    let name = lock_name(mapped.names(), lock);
    let (cells, settled) = mapped.cells(lock);
    out.push_str("{\"cells\":[")?;
    push_cells(out, &cells)?;
    push_lock_object_end(
        out,
        name,
        mapped.owner(lock),
        mapped.sections(lock),
        settled,
    )?;
    Ok(())
}

fn flag_text(is: bool) -> &'static str
    ensures { result.now ≡ spec.flag_text is }
{
    if is { "true" } else { "false" }
}

/// Appends the text of a lock's object after its cells.
fn push_lock_object_end(
    out: &mut String,
    name: &str,
    owner: Option<u32>,
    sections: u64,
    settled: bool,
) -> Result<(), AllocError>
    ensures { OnOk result (string_bytes out.new ≡ string_bytes out.old ++ spec.lock_object_end name.now owner sections
        settled) }
{
    let settled = flag_text(settled);
    match owner {
        None => write!(
            out,
            "],\"name\":\"{name}\",\"owner\":null,\"sections\":{sections},\"settled\":{settled}}}"
        ),
        Some(worker) => write!(
            out,
            "],\"name\":\"{name}\",\"owner\":{worker},\"sections\":{sections},\"settled\":{settled}}}"
        ),
    }
}

/// Appends the text between the locks and the workers.
fn push_between(out: &mut String, moved: bool) -> Result<(), AllocError>
    ensures { OnOk result (string_bytes out.new ≡ string_bytes out.old ++ spec.between_lists moved) }
{
    if moved {
        return out.push_str("],\"moved\":true,\"ok\":\"status\",\"workers\":[");
    }
    out.push_str("],\"moved\":false,\"ok\":\"status\",\"workers\":[")
}

fn push_worker_objects(
    out: &mut String,
    mapped: &ProcessFile,
    living: &[bool],
) -> Result<(), AllocError>
    ensures { OnOk result (string_bytes out.new ≡ string_bytes out.old ++ separated_text
        (spec.worker_object mapped.now living.now) false (range_with_len 0 mapped.now.shape.workers)) }
{
    let shape = mapped.shape();
    let mut later = false;
    for worker in 0..shape.workers {
        push_comma(out, later)?;
        push_worker_object(out, mapped, living, worker)?;
        later = true;
    }
    Ok(())
}

fn push_worker_object(
    out: &mut String,
    mapped: &ProcessFile,
    living: &[bool],
    worker: u32,
) -> Result<(), AllocError>
    requires { worker < mapped.now.shape.workers }
    ensures { OnOk result (string_bytes out.new ≡ string_bytes out.old ++ spec.worker_object mapped.now living.now
        worker) }
{
    let alive = lives(living, worker);
    let number = mapped.number(worker);
    push_blocked_by(out, mapped.blocked_by(worker))?;
    push_stance_object(out, mapped.names(), alive, mapped.stance(worker), number)?;
    Ok(())
}

/// Appends the text of a worker's object before the rest of it: the worker that it waits for, if there is one.
fn push_blocked_by(out: &mut String, blocked_by: Option<u32>) -> Result<(), AllocError>
    ensures { OnOk result (string_bytes out.new ≡ string_bytes out.old ++ spec.blocked_by_front blocked_by) }
{
    match blocked_by {
        None => out.push_str("{"),
        Some(other) => write!(out, "{{\"blocked_by\":{other},"),
    }
}

fn living_key(lives: Option<bool>) -> &'static str
    ensures { result.now ≡ spec.living_key lives }
{
    match lives {
        None => "",
        Some(true) => "\"living\":true,",
        Some(false) => "\"living\":false,",
    }
}

/// Appends the text of a worker's object after the worker that it waits for.
fn push_stance_object(
    out: &mut String,
    names: &Names,
    lives: Option<bool>,
    stance: FileStance,
    number: u64,
) -> Result<(), AllocError>
    ensures { OnOk result (string_bytes out.new ≡ string_bytes out.old ++ spec.stance_object names.now lives stance
        number) }
{
    let alive = living_key(lives);
    match stance {
        FileStance::Ready => write!(out, "{alive}\"number\":{number},\"stance\":\"ready\"}}"),
        FileStance::Climb(lock) => {
            let name = lock_name(names, lock);
            write!(
                out,
                "{alive}\"lock\":\"{name}\",\"number\":{number},\"stance\":\"climb\"}}"
            )
        }
        FileStance::Held(lock) => {
            let name = lock_name(names, lock);
            write!(
                out,
                "{alive}\"lock\":\"{name}\",\"number\":{number},\"stance\":\"held\"}}"
            )
        }
    }
}
