//! The end of a supervised worker's lives.

use rme_words::Refusal;

/// The end of a worker's lives.
#[derive(Clone, Copy, Debug, PartialEq, Eq)]
pub enum End {
    /// Its plan has no further job.
    AllDone,
    /// It made the greatest number of blocked sweeps on one job that its plan allows, or the gate answered false.
    Stalled,
    /// It fell as many times as its plan has lives.
    OutOfLives,
    /// No thread could be started for it, or for its next life.
    NoStart,
    /// Its next job was refused.
    Refused(Refusal),
}
