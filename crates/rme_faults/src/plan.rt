//! The plan of a simulation, drawn from its seed.

use crate::defect::Defect;
use rme_faults_model::Draws;

/// What the words of the program ask for, beside the seed.
#[derive(Clone, Copy)]
pub struct Asked {
    pub defect: Defect,
    /// Whether each step is printed.
    pub traces: bool,
    /// The greatest number of steps, by which a failure is made smaller.
    pub steps: u32,
    /// The greatest number of sessions, by which a failure is made smaller.
    pub sessions: u32,
}

/// The sizes of a state, as clients see them.
#[derive(Clone, Copy, PartialEq, Eq)]
pub struct Sizes {
    pub workers: u32,
    pub locks: u32,
    pub cells: u32,
}

/// The sizes of a simulation, and how often what happens.
#[derive(Clone, Copy)]
pub struct Plan {
    pub asked: Asked,
    pub workers: u32,
    pub locks: u32,
    pub cells: u32,
    pub jobs: u32,
    pub sessions: u32,
    /// A checkpoint is due after this number of sections.
    pub sections: u32,
    pub steps: u32,
    /// Whether answers wait for the disk.
    pub syncs: bool,
    /// Whether jobs are withdrawn that wait without a session.
    pub withdraws: bool,
    /// One in this number of calls of the disk fails; at 0 none does.
    pub odds: u32,
    /// One in this number of steps is a crash of the server.
    pub crash_odds: u32,
}

impl Plan {
    /// Draws a plan.
    pub fn draw(draws: &Draws, asked: Asked) -> Plan {
        let workers = draws.between(2, 5);
        let locks = draws.between(1, 3);
        Plan {
            asked,
            workers,
            locks,
            cells: draws.between(1, 3),
            jobs: draws.between(4, 24),
            sessions: draws.between(3, 8).min(asked.sessions),
            sections: draws.between(1, 12),
            steps: draws.between(20, 240).min(asked.steps),
            syncs: draws.is_one_in(2),
            withdraws: draws.is_one_in(4),
            odds: draw_odds(draws),
            crash_odds: draws.between(12, 80),
        }
    }
}

fn draw_odds(draws: &Draws) -> u32 {
    match draws.below(4) {
        0 => 0,
        1 => 200,
        2 => 60,
        _ => 20,
    }
}
