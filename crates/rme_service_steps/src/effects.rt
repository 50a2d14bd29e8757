//! The effects of operations on a seat's record.

use crate::local_changes::LocalChange;
use crate::seat_record::SeatRecord;
use atomic_table::Play;
use std::marker::PhantomData;

/// The worker made its own step.
pub(crate) struct OwnStep<X: LocalChange> {
    lead: PhantomData<X>,
}

impl<X: LocalChange> Play<u8, SeatRecord> for OwnStep<X> {
    ghost use Rattle.rme_service_steps.specs.Steps.{OwnStepEffect};

    ghost then = { OwnStepEffect X.lead };
}

/// The worker read the number of finished sections of the lock that it is inside of.
pub(crate) struct SectionLoad;

impl Play<u8, SeatRecord> for SectionLoad {
    ghost use Rattle.rme_service_steps.specs.Steps.{SectionLoadEffect};

    ghost then = { SectionLoadEffect };
}

/// A word was read, and nothing changed.
pub(crate) struct ReaderLoad;

impl Play<u8, SeatRecord> for ReaderLoad {
    ghost use Rattle.rme_service_steps.specs.Steps.{ReaderLoadEffect};

    ghost then = { ReaderLoadEffect };
}
