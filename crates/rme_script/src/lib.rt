//! Scripts of at most eight operations, the rows of cells that they run on, and their words.
//!
//! This crate stands only on `rme_words`, of which it uses the shape and the refusals. It knows no word of a service
//! and no worker. The crates above use the contract of `eval`: it is the fold of the operations in `specs/Eval.antt`,
//! it preserves the cells that the script does not name, and it depends only on the named cells. In contracts a script
//! is the list of its operations, and a row is the list of its cells. Begin with `op.rt`, and then `specs/Eval.antt`.
#![tactic(auto)]

mod check;
mod job;
mod job_refusal;
mod limits;
mod mask;
mod op;
mod row;
mod run;
mod same;
mod script;
mod slate;

pub use job::Job;
pub use limits::{MOST_OPERATIONS, OPERATION_WORDS, SLATE_WORDS};
pub use mask::{cell_count, has_cell, named, next_cell};
pub use op::Op;
pub use row::Row;
pub use run::eval;
pub use script::Script;
pub use slate::{from_slate, op_from_words, op_words, read_slate, slate_word, slate_words};
