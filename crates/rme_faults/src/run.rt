//! A simulation in its course.

use crate::disk::Disk;
use crate::plan::{Plan, Sizes};
use rme_faults_model::{Draws, Found, Model};
use std::alloc::Global;
use std::cell::Cell;

/// What was counted in simulations.
#[derive(Clone, Copy)]
pub struct SimulationCounts {
    pub seeds: u64,
    pub orders: u64,
    pub answers: u64,
    pub lives: u64,
    pub crashes: u64,
    pub stops: u64,
    pub faults: u64,
    pub torn: u64,
    pub checkpoints: u64,
    pub growths: u64,
    pub receipts: u64,
    pub failed: u64,
}

impl SimulationCounts {
    pub const NONE: SimulationCounts = SimulationCounts {
        seeds: 0,
        orders: 0,
        answers: 0,
        lives: 0,
        crashes: 0,
        stops: 0,
        faults: 0,
        torn: 0,
        checkpoints: 0,
        growths: 0,
        receipts: 0,
        failed: 0,
    };
}

/// Adds one to a count.
pub fn count(number: &mut u64) {
    *number = number.saturating_add(1);
}

/// How a life of a server ended.
#[derive(Clone, Copy, Debug, PartialEq, Eq)]
pub enum LifeEnd {
    /// The process is killed, or ended after a failed append.
    Process,
    /// The machine stops.
    Machine,
    /// All steps are made.
    Steps,
}

/// A simulation in its course.
#[derive(Drop)]
pub struct Run<'a> {
    pub rt: &'a HostRuntime,
    pub alloc: Global,
    pub plan: Plan,
    pub draws: &'a Draws,
    pub disk: &'a Disk<'a>,
    pub model: Model,
    /// The number of checkpoints that clients were told of.
    pub checkpoints: &'a Cell<u64>,
    /// The flag of a client that nobody closes.
    pub spare: &'a Cell<bool>,
    pub counts: SimulationCounts,
    /// The number of steps so far.
    pub step: u32,
    /// Whether this is the last life, in which every job is finished and looked at.
    pub is_last: bool,
    pub end: LifeEnd,
    /// What is wrong.
    pub failure: Option<&'static str>,
    /// An answer to a look-up, for a planted defect.
    pub saved: Option<String>,
    /// The sizes to which a start was to let the state grow.
    pub growth: Option<Sizes>,
}

/// What a simulation stands on.
#[derive(Clone, Copy)]
pub struct SimulationContext<'a> {
    pub draws: &'a Draws,
    pub disk: &'a Disk<'a>,
    pub checkpoints: &'a Cell<u64>,
    pub spare: &'a Cell<bool>,
}

impl<'a> Run<'a> {
    /// A simulation before its first step.
    pub fn new(
        rt: &'a HostRuntime,
        plan: Plan,
        run_context: SimulationContext<'a>,
        model: Model,
    ) -> Run<'a> {
        Run {
            rt,
            alloc: rt.alloc(),
            plan,
            draws: run_context.draws,
            disk: run_context.disk,
            model,
            checkpoints: run_context.checkpoints,
            spare: run_context.spare,
            counts: SimulationCounts::NONE,
            step: 0,
            is_last: false,
            end: LifeEnd::Process,
            failure: None,
            saved: None,
            growth: None,
        }
    }

    /// Notes what is wrong, if it is the first.
    pub fn note(&mut self, found: Found) {
        if let (Err(wrong), None) = (found, self.failure) {
            self.failure = Some(wrong);
        }
    }

    /// Prints a line of the schedule, if that is asked for.
    pub fn trace(&self, what: &str, session: u32, line: &str, answer: &str) {
        if self.plan.asked.traces {
            let step = self.step;
            let _ = println!(self.rt; "{step} {what} {session} {line} {answer}");
        }
    }
}

impl SimulationCounts {
    /// Adds the counts of a simulation.
    pub fn add(&mut self, other: &SimulationCounts) {
        self.seeds = self.seeds.saturating_add(other.seeds);
        self.orders = self.orders.saturating_add(other.orders);
        self.answers = self.answers.saturating_add(other.answers);
        self.lives = self.lives.saturating_add(other.lives);
        self.crashes = self.crashes.saturating_add(other.crashes);
        self.stops = self.stops.saturating_add(other.stops);
        self.faults = self.faults.saturating_add(other.faults);
        self.torn = self.torn.saturating_add(other.torn);
        self.checkpoints = self.checkpoints.saturating_add(other.checkpoints);
        self.growths = self.growths.saturating_add(other.growths);
        self.receipts = self.receipts.saturating_add(other.receipts);
    }

    /// Counts a simulation that failed.
    pub fn fail(&mut self) {
        count(&mut self.failed);
    }
}
