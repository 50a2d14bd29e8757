//! The steps of each phase: the operation of the next step, and its outcome for the value found.

pub mod climbing;
pub mod copying;
pub mod leaving;
pub mod logging;
pub mod posting;
pub mod recovering;
