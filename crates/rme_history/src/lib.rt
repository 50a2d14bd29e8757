//! Lists of finished sections: their order by lock and place, whether they are a legal history, and the greatest number
//! of steps of each phase.
//!
//! The crate stands on rme_program for entries and phases, on rme_script for running scripts, and on rme_machine for
//! the definitions of a lock's entries and cells (`history_of_lock`, `row_after_entries`) and of when an entry follows
//! from earlier ones (`EntryFollows`). It knows no words and no private states. The crates above use the list,
//! `EntryList`, and the contract of `replay`: it accepts only legal histories, and answers their rows. Begin with
//! `specs/Legal.antt`, and then `replaying.rt`.
#![tactic(auto)]

mod entry_head;
mod entry_list;
mod fault;
mod fold;
pub mod laws;
mod places;
mod replaying;
mod tally;

pub use entry_list::EntryList;
pub use fault::ReplayFault;
pub use fold::Fold;
pub use places::by_place;
pub use replaying::replay;
pub use tally::Tally;
