//! Driving a worker with its job, from waiting or from inside, until it is ready.

use crate::down::Down;
use crate::kinds::{Climb, Held, Ready, Sweep};
use crate::service::Service;
use rme_program::Receipt;
use rme_service_steps::Chance;

/// An observer of the sections of driven workers, which may stop a worker before its section. Many threads may call it
/// at the same time.
pub trait Gate {
    ghost use Rattle.std.specs.Prelude.{◌≡◌, ℕ, Bool, true, false, IsTrue, ⊤};

    // Whether it is known to admit every worker.
    ghost lets_all: { Bool } = { false };

    // The facts that it records: it was asked about this worker and lock and answered this; it was notified that the
    // worker has left the lock after the job of this number. A gate that records nothing states nothing.
    ghost answered: { Self → ℕ → ℕ → Bool → Type 0 } = { λ _ _ _ _. ⊤ };

    ghost told: { Self → ℕ → ℕ → ℕ → Type 0 } = { λ _ _ _ _. ⊤ };

    /// The worker owns the lock, having entered or re-entered, and is about to begin its section, which is unfinished.
    /// On false it does not begin.
    fn inside(&self, worker: u32, lock: u32) -> bool
        ensures lets_all { lets_all ≡ true → IsTrue result }
        ensures answered { answered self.now worker lock result };

    /// The worker has left the lock after the job of this number.
    fn over(&self, worker: u32, lock: u32, number: u32)
        ensures { told self.now worker lock number };
}

/// Admits all workers.
#[derive(Clone, Copy, Drop)]
pub struct Free;

impl Gate for Free {
    ghost use Rattle.std.specs.Prelude.{true};

    ghost lets_all = { true };

    fn inside(&self, _worker: u32, _lock: u32) -> bool {
        true
    }

    fn over(&self, _worker: u32, _lock: u32, _number: u32) {}
}

/// Admits no worker to its section: a driven worker stops once it is inside.
#[derive(Clone, Copy, Drop)]
pub struct Shut;

impl Gate for Shut {
    ghost use Rattle.std.specs.Prelude.{◌≡◌, ⊤, false};

    ghost answered = { λ _ _ _ answer. answer ≡ false };

    ghost told = { λ _ _ _ _. ⊤ };

    fn inside(&self, _worker: u32, _lock: u32) -> bool {
        false
    }

    fn over(&self, _worker: u32, _lock: u32, _number: u32) {}
}

/// The blocked sweeps for one job: the number made, and the greatest number allowed.
#[derive(Clone, Copy)]
pub struct SweepTries {
    pub blocked: u32,
    pub most: u32,
}

/// The outcome of driving a worker with its job.
pub enum Driven {
    /// The job is finished, with this receipt, and the worker is ready.
    Done(Ready, Receipt),
    /// The job still waits: all allowed sweeps were blocked.
    Waits(Climb),
    /// The gate stopped the worker before its section.
    Stopped(Held),
    /// The worker crashed.
    Fell(Down),
}

impl Climb {
    ghost use Rattle.std.specs.Prelude.{◌≡◌, true, false};
    ghost use Rattle.rme_table.specs.Driving.{SweepsAreCounted, DriveOutcome, WaitsAfterAllSweeps, GateLetsPass, GateStopsInside, GateWatches, seat_after_drive};

    /// Drives the worker until it is ready: sweep after sweep as long as sweeps are left, with a pause after each
    /// blocked one, and then as `Held::drive_owner`. If the job still waits, all allowed sweeps were made.
    pub fn drive_waiting<C: Chance, G: Gate, P: Fn()>(
        self,
        service: &Service,
        chance: &mut C,
        gate: &G,
        tries: &mut SweepTries,
        pause: P,
    ) -> Driven
        requires ours { self.ident ≡ service.now }
        requires pause { P.IsAlwaysCallable pause }
        ensures drives { DriveOutcome service.now.shape false self (C.tally chance.old) (C.tally chance.new) result }
        ensures passes { G.lets_all ≡ true → GateLetsPass result }
        ensures watches { GateWatches (G.answered gate.now) (G.told gate.now) service.now.shape false self.part.worker
            result }
        ensures stops { GateStopsInside result }
        ensures tries { WaitsAfterAllSweeps self tries.old tries.new result }
        ensures counts { SweepsAreCounted self (seat_after_drive result) tries.old tries.new }
        ensures most { tries.new.most ≡ tries.old.most }
    {
        let mut climb = self;
        for blocked in tries.blocked..tries.most {
            match climb.try_enter(service, chance) {
                Sweep::Got(held) => return held.drive_owner(service, chance, gate),
                Sweep::Fell(down) => return Driven::Fell(down),
                Sweep::Blocked(again) => climb = again,
            }
            tries.blocked = blocked + 1;
            pause();
        }
        Driven::Waits(climb)
    }
}

impl Held {
    ghost use Rattle.std.specs.Prelude.{◌≡◌, true};
    ghost use Rattle.rme_table.specs.Calls.{is_section_over};
    ghost use Rattle.rme_table.specs.Driving.{DriveDoesNotWait, DriveOutcome, GateLetsPass, GateStopsAtEntry, GateWatches};

    /// Drives the worker until it is ready: the section, if the gate admits the worker, and the exit. A section that is
    /// already finished is not begun, and the gate is only notified that it is over.
    pub fn drive_owner<C: Chance, G: Gate>(
        self,
        service: &Service,
        chance: &mut C,
        gate: &G,
    ) -> Driven
        requires ours { self.ident ≡ service.now }
        ensures drives { DriveOutcome service.now.shape (is_section_over self.part.private.stage) self
            (C.tally chance.old) (C.tally chance.new) result }
        ensures passes { G.lets_all ≡ true → GateLetsPass result }
        ensures watches { GateWatches (G.answered gate.now) (G.told gate.now) service.now.shape
            (is_section_over self.part.private.stage) self.part.worker result }
        ensures owns { DriveDoesNotWait result }
        ensures stops { GateStopsAtEntry self result }
    {
        if !self.finished() && !gate.inside(self.worker(), self.lock()) {
            return Driven::Stopped(self);
        }
        let (leave, receipt) = match self.perform(service, chance) {
            Ok(done) => done,
            Err(down) => return Driven::Fell(down),
        };
        match leave.exit(service, chance) {
            Ok(ready) => {
                gate.over(receipt.worker, receipt.lock, receipt.number);
                Driven::Done(ready, receipt)
            }
            Err(down) => Driven::Fell(down),
        }
    }
}
