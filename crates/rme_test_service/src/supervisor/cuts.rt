//! A crash before each own step of a supervised worker.

use crate::supervisor::values::{PlannedWorker, SupervisedTrial, run_is};
use crate::test_values::FIVE_OPERATIONS;
use rme::supervisor::{End, Free};
use std::test::Fail;

/// Row `cut everywhere`, supervised: the worker makes the job of row `five operations` by 58 own steps, including the
/// two of the first recovery, and crashes before each of these in turn. Its second life always makes the job, once.
#[test]
fn cut_supervised(rt: HostRuntime) -> Result<(), Fail> {
    for first in 0..=57 {
        let planned = PlannedWorker {
            jobs: &[(0, FIVE_OPERATIONS)],
            times: 1,
            falls: &[first],
            lives: 2,
            sweeps: 1,
        };
        let run = SupervisedTrial {
            sizes: (1, 1, 2, 10),
            plans: &[planned],
            ends: &[End::AllDone],
            lives: &[2],
            locks: &[(&[0, 5], true, &[((0, 0, 1, 0, 5), FIVE_OPERATIONS)])],
        };
        run_is(&rt, rt.alloc(), &run, &Free)?;
    }
    Ok(())
}
