//! A worker that is down.

use rme_history::EntryList;
use rme_service_steps::WorkerSeat;
use std::marker::Model;

/// A worker that is down: all that it has in the service, and its finished sections.
///
/// It may be dropped; that worker is then lost to the service, and stays the owner of what it owns.
#[derive(Drop)]
pub struct Down {
    pub(crate) seat: WorkerSeat,
}

impl Model for Down {
    ghost use Rattle.rme_service_steps.specs.SeatViews.{SeatView};

    ghost Value = { SeatView };

    ghost view = { λ down. down.seat };
}

impl Down {
    ghost use Rattle.std.specs.Prelude.{◌≡◌};
    ghost use Rattle.rme_service_steps.specs.Steps.{PartWasInWorld};
    ghost use Rattle.rme_table.specs.Downs.{is_fresh};

    /// The worker's number.
    pub fn worker(&self) -> u32
        ensures worker { result ≡ self.now.part.worker }
        ensures stood { PartWasInWorld self.now.ident.shape self.now.part }
    {
        self.seat.worker()
    }

    /// The worker's finished sections, in order.
    pub fn entries(&self) -> &EntryList
        ensures { result.now.entries ≡ self.now.part.entries }
    {
        self.seat.entries()
    }

    /// Whether the worker has no finished section, and was never given a job.
    pub fn fresh(&self) -> bool
        ensures { result ≡ is_fresh self.now.part }
    {
        !self.seat.is_drafted() && self.seat.entries().len() == 0
    }
}
