//! Recovery accepts the file at each moment.

use crate::run::Run;
use rme_durable_epochs::recover;
use rme_durable_format::{NoProgress, whole_lines};
use rme_faults_model::{Found, is_or};

/// Checks that recovery accepts the whole lines that the file has now.
pub fn check_recovery(run: &Run<'_>) -> Found {
    let Ok(bytes) = run.disk.copy() else {
        return Err("no memory");
    };
    let recovered = recover(run.alloc, whole_lines(bytes.as_slice()), &NoProgress);
    is_or(
        recovered.is_ok(),
        "recovery refuses the file of a living server",
    )
}
