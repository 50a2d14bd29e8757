//! The worker that a line asks for.

ghost use Rattle.std.specs.Prelude.{◌≡◌, IfOk};
ghost use Rattle.rme_line_io.specs.Cuts.{input_line_of};
ghost use Rattle.rme_session_keys.specs.AskedWorkers as spec;
ghost use Rattle.rme_session_protocol.specs.WorkerChoices.{choice_of_bytes};

use rme_keys::Key;
use rme_session_protocol::{
    ChoiceRequest, Order, SERVICE_NUMBERS, parse_order, parse_worker_choice,
};
use rme_wire::{Cut, Names, ValueReader};
use rme_words::NoMemory;
use std::alloc::Global;

/// The worker that a line asks for.
#[derive(Clone, Copy, Debug, PartialEq, Eq)]
pub(crate) enum AskedWorker {
    /// It asks for none.
    NoWorker,
    /// It asks for the one with this number.
    Numbered(u32),
    /// It asks for one, and leaves it to the server which.
    Any,
}

impl AskedWorker {
    ghost use Rattle.std.specs.Prelude.{◌↔◌, IsTrue};
    ghost use Rattle.rme_session_keys.specs.AskedWorkers.{AllowsAsked};

    /// Whether a key allows it, at a server with this number of workers.
    pub(crate) fn is_allowed(self, key: &Key, workers: u32) -> bool
        ensures { IsTrue result ↔ AllowsAsked workers key.now self }
    {
        match self {
            AskedWorker::NoWorker => true,
            AskedWorker::Numbered(worker) => key.allows_worker(worker),
            AskedWorker::Any => key.allows_workers_below(workers),
        }
    }
}

/// The worker that a line asks for, by how the line was cut. `NoMemory` if memory was refused.
pub(crate) fn asked_worker(
    alloc: Global,
    names: &Names,
    cut: Cut,
    line: &[u8],
) -> Result<AskedWorker, NoMemory>
    ensures { IfOk result (λ asked. asked ≡ spec.asked_worker names.now (input_line_of cut line.now)) }
{
    if cut == Cut::TooLong {
        return Ok(AskedWorker::NoWorker);
    }
    let mut values = ValueReader::new(alloc);
    match parse_order(&mut values, names, SERVICE_NUMBERS, line)? {
        Some(Order::Attach(asked)) => Ok(AskedWorker::Numbered(asked.worker)),
        Some(_) => Ok(AskedWorker::NoWorker),
        None => chosen_worker(alloc, line),
    }
}

/// The worker that a line asks for that is no order.
fn chosen_worker(alloc: Global, line: &[u8]) -> Result<AskedWorker, NoMemory>
    ensures { IfOk result (λ asked. asked ≡ spec.chosen_worker (choice_of_bytes line.now)) }
{
    let mut values = ValueReader::new(alloc);
    match parse_worker_choice(&mut values, line) {
        Ok(Some(ChoiceRequest { .. })) => Ok(AskedWorker::Any),
        Ok(None) => Ok(AskedWorker::NoWorker),
        Err(why) => Err(why),
    }
}
