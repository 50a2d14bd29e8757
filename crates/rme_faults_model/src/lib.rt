//! What a client of the durable server may conclude from its answers: a model that knows nothing of the server but them.
//!
//! A `Model` has, for each worker and each lock, what the earlier answers tell: jobs that count, places, who may be
//! inside, what may have been lost at a crash. `learn` checks each answer against it. `draw_request` draws the next
//! request of a session that fits to the model, and `Draws` is the source of all that is drawn from a seed. The crate
//! stands on rme_script. Begin with `model.rt`, then `view.rt` and `lookups.rt`.
#![tactic(auto)]

mod answer;
mod counted;
mod drawing;
mod draws;
mod found;
mod lookups;
mod model;
mod request;
mod view;

pub use answer::{LockLine, SeenAnswer, SeenReceipt, SeenStance, WorkerLine, read_answer};
pub use counted::{CellFold, CountedJob, CountedJobs};
pub use drawing::draw_request;
pub use draws::Draws;
pub use found::{Found, is_or};
pub use model::{Model, refused};
pub use request::{
    AttachRequest, MOST_LOCKS, NumberedJob, SimulatedRequest, SimulatedSubmission, lock_named,
    lock_text, push_request, push_script,
};
pub use view::{KnownStanding, KnownWorker, SeenPendingJob};
