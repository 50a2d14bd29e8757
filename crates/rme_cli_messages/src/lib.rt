//! The program's faults, with their texts and statuses, and the output of `rme explain`: the meaning of each refusal
//! and status.
//!
//! Each fault of an engine or of a server, each refused memory, and each file or word that cannot be used becomes one
//! `CliFault`. The crate stands on rme_line_io, whose faults it converts, on rme_words for refusals, and on clap for
//! the kinds of its errors. Its contracts: the status of a fault (`specs/FaultStatuses.antt`), and each text is that of
//! its variant (`specs/FaultTexts.antt`, `specs/Explanations.antt`). Begin with `fault.rt`, then `explanation.rt`;
//! `explain.rt` has the table of the refusals and `exit_status.rt` that of the statuses. `stderr.rt` writes a server's
//! messages without waiting for their reader.
#![tactic(auto)]

mod advice_texts;
mod argument;
mod bad_service_arguments;
mod exit_status;
mod explain;
mod explanation;
mod fault;
mod parse_error;
mod stderr;

pub use argument::{BadArgument, escape_controls};
pub use bad_service_arguments::{why_not_falls, why_not_locks, why_not_sizes};
pub use exit_status::{ExitStatus, LAST_STATUS};
pub use explain::{LAST_CODE, refusal_advice, refusal_of, refusal_when};
pub use explanation::explanations;
pub use fault::{CliFault, SaveError};
pub use parse_error::status_of_parse_error;
pub use stderr::{MessageLimit, RepeatCount, Stderr};
