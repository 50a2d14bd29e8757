//! The service.

use rme_words::Shape;
use std::alloc::Global;
use std::marker::Model;

/// A running lock service: the shared words of all locks and workers. Threads share it by `&`.
#[derive(Drop)]
pub struct Service {
    pub(crate) words: rme_service_steps::WordTable,
    pub(crate) alloc: Global,
}

impl Model for Service {
    ghost use Rattle.rme_service_steps.specs.SeatViews.{ServiceId};

    ghost Value = { ServiceId };

    ghost view = { λ service. service.words };
}

impl Service {
    ghost use Rattle.std.specs.Prelude.{◌≡◌};

    /// The sizes of the service.
    pub fn shape(&self) -> Shape
        ensures { result ≡ self.now.shape }
    {
        self.words.shape()
    }
}
