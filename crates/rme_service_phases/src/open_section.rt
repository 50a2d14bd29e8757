//! The section that a worker is in.

/// A section that a worker begins or continues: its lock, the turn that was loaded, and the job's number.
#[derive(Clone, Copy)]
pub(crate) struct OpenSection {
    pub lock: u32,
    pub turn: u32,
    pub begun: u32,
}
