//! Planted defects: each must be found.

/// A defect that is planted in the store or in the driver.
#[derive(Clone, Copy, Debug, PartialEq, Eq)]
pub enum Defect {
    None,
    /// The store says that lines are stored, and stores them with the next ones.
    EarlyAnswer,
    /// The bytes of a checkpoint lack the lines of a pending job.
    DroppedPending,
    /// The first lines of a start, the crashes, are not stored.
    LostCrashes,
    /// A start reads the last job twice.
    JobTwice,
    /// A look-up is answered from before a durable answer.
    StaleLookup,
    /// After a failed append the store appends the lines again.
    RetriedAppend,
    /// A failed append is answered as if it had succeeded.
    IgnoredFailure,
}

impl Defect {
    /// The defect of this name.
    pub fn named(name: &str) -> Option<Defect> {
        match name {
            "none" => Some(Defect::None),
            "early-answer" => Some(Defect::EarlyAnswer),
            "dropped-pending" => Some(Defect::DroppedPending),
            "lost-crashes" => Some(Defect::LostCrashes),
            "job-twice" => Some(Defect::JobTwice),
            "stale-look-up" => Some(Defect::StaleLookup),
            "retried-append" => Some(Defect::RetriedAppend),
            "ignored-failure" => Some(Defect::IgnoredFailure),
            _ => None,
        }
    }
}
