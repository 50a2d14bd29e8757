//! The service: the shared words of all locks and workers.

ghost use Rattle.std.specs.Prelude.{◌≡◌};

use crate::rule::{ServiceRule, SharedWords};
use crate::seat_record::SeatRecord;
use atomic_table::Table;
use rme_words::Shape;
use std::alloc::Global;
use std::marker::Model;

/// The words that all workers share. Threads use it by `&`.
#[derive(Drop)]
pub struct WordTable {
    pub(crate) table: Table<u8, SeatRecord, Shape, ServiceRule, Global>,
    pub(crate) shape: Shape,
}

impl Model for WordTable {
    ghost use Rattle.rme_service_steps.specs.SeatViews.{ServiceId, WordTableInvariant};

    ghost Value = { ServiceId };

    ghost view = { λ s. record { table = s.table.shared.table_id; shape = s.shape } };

    ghost invariant = { λ s. WordTableInvariant s.table.shared.table_id s.table.shared.key s.shape };
}

impl WordTable {
    /// The sizes of the service.
    pub fn shape(&self) -> Shape
        ensures { result ≡ self.now.shape }
    {
        self.shape
    }
}
