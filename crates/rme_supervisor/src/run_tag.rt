//! The type that names a supervised run.

ghost use Rattle.rme_supervisor.specs.Plans.{SupervisedRun};

use rme_table::Tag;
use std::marker::Brand;

/// A type that names one service and the plans of its workers, only for proofs.
pub trait RunTag: Tag {
    ghost run: { SupervisedRun };
}

impl RunTag for Brand {
    ghost use Rattle.std.specs.Prelude.{[], ⊤};

    ghost run = { record { rounds = 0; plans = []; given = []; turned = λ _. ⊤ } };
}
