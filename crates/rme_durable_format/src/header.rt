//! The base that earlier epochs left, and its line, the first of a file.

ghost use Rattle.std.specs.Prelude.{◌≡◌, ◌-◌, ◌++◌, OnOk, string_bytes};
ghost use Rattle.rme_durable_format.specs.Headers.{header_values};
ghost use Rattle.rme_durable_format.specs.HeaderTexts as spec;

use rme_line_text::{ClientReceipt, push_receipt};
use rme_wire::Names;
use rme_words::Shape;
use std::alloc::{AllocError, Global};

/// A worker's last job in earlier epochs.
#[derive(Clone, Copy, Debug, PartialEq, Eq)]
pub enum LastJob {
    /// It had no job.
    Nothing,
    Withdrawn,
    /// Its number and its place count over all epochs.
    Receipt(ClientReceipt),
}

/// The base that earlier epochs left.
#[derive(Drop)]
pub struct LogHeader {
    /// The number of earlier epochs.
    pub epoch: u64,
    /// For each worker but the checkpoint worker its last job.
    pub last: Vec<LastJob>,
    /// For each of them the count of its restarts.
    pub lives: Vec<u64>,
    /// For each of them the count of its numbers.
    pub numbers: Vec<u64>,
    /// For each lock the count of its sections, less those that the checkpoint worker made in this epoch.
    pub places: Vec<i64>,
}

impl LogHeader {
    ghost use Rattle.std.specs.Prelude.{◌≡◌, IfOk};
    ghost use Rattle.rme_durable_format.specs.Headers.{first_header_values, header_values};

    /// The base of a first epoch, for a world of this shape.
    pub fn first(alloc: Global, shape: Shape) -> Result<LogHeader, AllocError>
        ensures { IfOk result (λ header. header_values header ≡ first_header_values shape) }
    {
        let workers = clients_in(shape);
        Ok(LogHeader {
            epoch: 0,
            last: vec![in alloc; LastJob::Nothing; workers]?,
            lives: vec![in alloc; 0u64; workers]?,
            numbers: vec![in alloc; 0u64; workers]?,
            places: vec![in alloc; 0i64; shape.locks() as usize]?,
        })
    }
}

/// The number of workers but the last one, which is the checkpoint worker and has no clients.
pub(crate) fn clients_in(shape: Shape) -> usize
    ensures { result ≡ shape.workers - 1 }
{
    shape.workers().saturating_sub(1) as usize
}

/// Appends the line of a header, and its newline. After an error the text is of no use.
pub fn push_header(out: &mut String, names: &Names, header: &LogHeader) -> Result<(), AllocError>
    ensures { OnOk result (string_bytes out.new ≡ string_bytes out.old ++ spec.header_line names.now
        (header_values header.now)) }
{
    write!(out, "{{\"epoch\":{},\"last\":[", header.epoch)?;
    push_last_jobs(out, names, header.last.as_slice())?;
    out.push_str("],\"lives\":[")?;
    push_numbers(out, header.lives.as_slice())?;
    out.push_str("],\"numbers\":[")?;
    push_numbers(out, header.numbers.as_slice())?;
    out.push_str("],\"places\":[")?;
    push_places(out, header.places.as_slice())?;
    out.push_str("],\"rme\":\"kept\",\"version\":2}\n")
}

fn push_last_jobs(out: &mut String, names: &Names, words: &[LastJob]) -> Result<(), AllocError>
    ensures { OnOk result (string_bytes out.new ≡ string_bytes out.old ++ spec.last_jobs_text names.now words.now) }
{
    let mut comma = "";
    for word in words {
        out.push_str(comma)?;
        push_last_job(out, names, *word)?;
        comma = ",";
    }
    Ok(())
}

/// Appends a last job.
fn push_last_job(out: &mut String, names: &Names, word: LastJob) -> Result<(), AllocError>
    ensures { OnOk result (string_bytes out.new ≡ string_bytes out.old ++ spec.last_job_text names.now word) }
{
    match word {
        LastJob::Nothing => out.push_str("null"),
        LastJob::Withdrawn => out.push_str("{\"withdrawn\":true}"),
        LastJob::Receipt(receipt) => push_receipt(out, names, receipt),
    }
}

fn push_numbers(out: &mut String, numbers: &[u64]) -> Result<(), AllocError>
    ensures { OnOk result (string_bytes out.new ≡ string_bytes out.old ++ spec.numbers_text numbers.now) }
{
    let mut comma = "";
    for number in numbers {
        write!(out, "{comma}{number}")?;
        comma = ",";
    }
    Ok(())
}

fn push_places(out: &mut String, places: &[i64]) -> Result<(), AllocError>
    ensures { OnOk result (string_bytes out.new ≡ string_bytes out.old ++ spec.places_text places.now) }
{
    let mut comma = "";
    for place in places {
        write!(out, "{comma}{place}")?;
        comma = ",";
    }
    Ok(())
}
