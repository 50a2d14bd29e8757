//! The stop of a life.

use crate::end::End;
use rme_table::Down;

/// The stop of a life: at a fall, or at the end of all lives.
#[derive(Drop)]
pub(crate) enum LifeStop {
    Fell(Down),
    Ended(Down, End),
}
