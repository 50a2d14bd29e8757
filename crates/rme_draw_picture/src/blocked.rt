//! The workers that block others, for the bars of the blocked workers.

use crate::drawing::{Drawing, DrawnStay};
use crate::mark_kind::MarkKind;
use std::alloc::{AllocError, Global};

/// A worker that was blocked at a line, and its blocker.
#[derive(Clone, Copy)]
struct BlockedLine {
    line: u64,
    blocker: u32,
}

/// For each worker the lines at which it was blocked by a known worker, in order.
#[derive(Drop)]
pub struct BlockedLines {
    workers: Vec<Vec<BlockedLine>>,
}

impl BlockedLines {
    /// Those of a drawing.
    pub fn of(alloc: Global, drawing: &Drawing) -> Result<BlockedLines, AllocError> {
        let mut workers = Vec::new(alloc);
        for _ in 0..drawing.workers {
            workers.push(Vec::new(alloc))?;
        }
        let mut blocked = BlockedLines { workers };
        for mark in &drawing.marks {
            if let MarkKind::Blocked(Some(blocker)) = mark.kind {
                blocked.add(mark.worker, mark.line, blocker)?;
            }
        }
        Ok(blocked)
    }

    fn add(&mut self, worker: u32, line: u64, blocker: u32) -> Result<(), AllocError> {
        if let Some(lines) = self.workers.get_mut(worker as usize) {
            lines.push(BlockedLine { line, blocker })?;
        }
        Ok(())
    }

    /// The worker that last blocked the worker of a stay, in the stay.
    pub fn last_in(&self, stay: &DrawnStay) -> Option<u32> {
        let lines = self.workers.get(stay.worker as usize)?;
        let before = lines.partition_point(|blocked| blocked.line < stay.to);
        let last = lines.get(before.checked_sub(1)?)?;
        if last.line < stay.from {
            return None;
        }
        Some(last.blocker)
    }
}
