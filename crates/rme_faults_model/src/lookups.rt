//! Look-ups show a state at least as new as every answer before.

use crate::answer::{LockLine, SeenAnswer, SeenStance, WorkerLine};
use crate::found::{Found, is_or};
use crate::model::{Model, refused};
use crate::request::SimulatedRequest;
use crate::view::{KnownStanding, KnownWorker};

impl Model {
    /// Checks the answer to a look-up.
    pub fn check_lookup(&self, request: &SimulatedRequest, answer: &SeenAnswer) -> Found {
        match (request, answer) {
            (SimulatedRequest::Owner(lock) | SimulatedRequest::Cells(lock), _)
                if *lock >= self.lock_count() => { refused(answer, 11) }
            (SimulatedRequest::Owner(lock), SeenAnswer::Owner(owner)) => self.check_owner(
                *lock, *owner,
            ),
            (SimulatedRequest::Cells(lock), SeenAnswer::Cells(cells, settled)) => {
                self.check_cells(*lock, cells.as_slice(), *settled)
            }
            (SimulatedRequest::Status, SeenAnswer::Status(locks, workers)) => {
                self.check_status(locks.as_slice(), workers.as_slice())
            }
            _ => Err("another answer than a look-up's"),
        }
    }

    /// A worker that is known to be inside owns its lock, and without such a worker only one of which too little is
    /// known.
    fn check_owner(&self, lock: u32, owner: Option<u32>) -> Found {
        match (self.holder(lock), owner) {
            (Some(holder), found) => is_or(
                found == Some(holder),
                "a worker that is inside has lost its lock",
            ),
            (None, None) => Ok(()),
            (None, Some(worker)) => is_or(
                self.view(worker).standing == KnownStanding::Unsure
                    && self.view(worker).is_at(lock),
                "a worker owns a lock that it has left",
            ),
        }
    }

    /// The cells are the fold of the scripts, unless a job is inside, or may have counted without an answer.
    fn check_cells(&self, lock: u32, cells: &[u64], settled: bool) -> Found {
        is_or(
            cells.len() == self.cells as usize,
            "another number of cells",
        )?;
        let is_sure = self.unsure_count(lock) == 0;
        if !settled {
            let is_inside = !is_sure || self.holder(lock).is_some();
            return is_or(is_inside, "cells of a free lock are not settled");
        }
        let Some(counted) = self.locks.get(lock as usize) else {
            return Err("no such lock");
        };
        match counted.fold(self.alloc, self.cells, u64::MAX) {
            Some(fold) if is_sure => {
                is_or(fold.cells.as_slice() == cells, "the cells are not the fold")?;
                is_or(fold.are_replies, "a reply is not that of the fold")
            }
            _ => Ok(()),
        }
    }

    fn check_status(&self, locks: &[LockLine], workers: &[WorkerLine]) -> Found {
        if self.is_lossy {
            return self.check_earlier(locks);
        }
        is_or(locks.len() == self.locks.len(), "another number of locks")?;
        is_or(
            workers.len() == self.workers.len(),
            "another number of workers",
        )?;
        let mut number = 0u32;
        for lock in locks {
            self.check_lock_line(number, lock)?;
            number = number.saturating_add(1);
        }
        let mut number = 0u32;
        for worker in workers {
            check_worker_line(&self.view(number), worker)?;
            number = number.saturating_add(1);
        }
        Ok(())
    }

    /// What is left after a loss is a state from before: of each lock the first sections, and the cells that they left.
    fn check_earlier(&self, locks: &[LockLine]) -> Found {
        let mut number = 0u32;
        for lock in locks {
            let most = self.end(number).saturating_add(self.unsure_count(number));
            is_or(
                lock.sections <= most,
                "more sections than jobs after a loss",
            )?;
            self.check_first_cells(number, lock)?;
            number = number.saturating_add(1);
        }
        Ok(())
    }

    /// The settled cells of a lock are the fold of its first sections, as far as those are known.
    fn check_first_cells(&self, number: u32, lock: &LockLine) -> Found {
        let Some(counted) = self.locks.get(number as usize) else {
            return Err("more locks than there were");
        };
        if !lock.settled || lock.sections > counted.end() {
            return Ok(());
        }
        let count = u32::try_from(lock.cells.len()).unwrap_or(0);
        match counted.fold(self.alloc, count, lock.sections) {
            Some(fold) => is_or(
                fold.cells.as_slice() == lock.cells.as_slice(),
                "the cells after a loss are not those of the first sections",
            ),
            None => Ok(()),
        }
    }

    fn check_lock_line(&self, number: u32, lock: &LockLine) -> Found {
        self.check_owner(number, lock.owner)?;
        self.check_cells(number, lock.cells.as_slice(), lock.settled)?;
        let end = self.end(number);
        let most = end.saturating_add(self.unsure_count(number));
        is_or(lock.sections >= end, "a status from before an answer")?;
        is_or(lock.sections <= most, "more sections than jobs")
    }

    /// At the end, everything is known: each worker is ready, each place has its job, and each reply is that of the
    /// fold.
    pub fn check_all(&self) -> Found {
        for view in &self.workers {
            is_or(
                view.standing == KnownStanding::Ready,
                "a job does not finish",
            )?;
        }
        for counted in &self.locks {
            is_or(counted.are_all_known(), "no job has a place")?;
            match counted.fold(self.alloc, self.cells, u64::MAX) {
                Some(fold) => is_or(fold.are_replies, "a reply is not that of the fold")?,
                None => return Err("no memory"),
            }
        }
        Ok(())
    }
}

fn check_worker_line(view: &KnownWorker, line: &WorkerLine) -> Found {
    is_or(
        line.attached == view.session.is_some(),
        "a status tells of another session",
    )?;
    let pending = view.pending_number();
    let (stance, number) = match view.standing {
        KnownStanding::Ready => (SeenStance::Ready, view.done),
        KnownStanding::Climb => (SeenStance::Climb, pending),
        KnownStanding::Held => (SeenStance::Held, pending),
        KnownStanding::Unlearned => (SeenStance::Ready, pending),
        KnownStanding::Unsure => return Ok(()),
    };
    is_or(
        line.stance == stance && line.number == number,
        "a status tells of another stance",
    )
}
