//! An executor over epochs: its event batches are logged, its clients see numbers that continue over epochs, and its
//! state is recovered from the lines that it wrote.
//!
//! A world's numbers and its history are bounded. So a server that runs for years begins a new world from time to time,
//! whose lines replace the earlier ones (log truncation). For clients the numbers continue: numbers and places follow
//! those of earlier epochs (`epoch_base.rt`), the outcome of a last number of an earlier epoch is answered from the
//! base (`immediate.rt`), and an order is executed by the definition that every session server meets, over all epochs
//! together (`epoch_executor.rt`, `specs/EpochStates.antt`). A file is a header and then lines of `rme run`: `recover`
//! takes all of them, or names the first bad line; the header is judged together with line 2, which opens the world
//! (`recovery.rt`, `specs/RecoveredStates.antt`). The crate stands on rme_session_world, which executes orders, on
//! rme_durable_format, which writes and reads the lines, and on rme_line_engine, which opens a world by a line. It
//! knows no server and no file, so that the file and the server can be proved beside each other. The crates above use
//! the contracts of `EpochExecutor::execute` and `recover`. Begin with `epoch_executor.rt`, then `recovery.rt`.
#![tactic(auto)]

mod apply_error;
mod client_session;
mod epoch_base;
mod epoch_executor;
mod exits;
mod immediate;
mod incoming;
mod recovery;
mod sections;

pub use apply_error::ApplyError;
pub use client_session::{ClientPending, ClientReady, ClientSession};
pub use epoch_base::{Base, PlaceOffset, WorkerBase};
pub use epoch_executor::{ClientAnswer, EpochExecutor, EpochStart};
pub use recovery::{RecoveredState, recover, version_of};
pub use sections::{Sections, last_receipts, next_place};
