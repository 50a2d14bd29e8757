//! The check of a transcript: whether the abstract machine has all of its events in order.
//!
//! The crate stands on rme_wire, whose readers of a value's members it uses, on rme_line_text for the events of a
//! transcript's lines, and on rme_core_checker, whose machine decides. It knows no world. The program uses two
//! contracts: `check_lines` answers whether the machine has all events of a transcript in order
//! (`specs/Verdicts.antt`), and `watch_lines` lets an observer see the machine after each (`specs/Observing.antt`).
//! Begin with `check.rt`, then `judge.rt`; `event.rt` parses a line.
#![tactic(auto)]

mod check;
mod check_observer;
mod event;
mod judge;

pub use check::{Verdict, check_lines, watch_lines};
pub use check_observer::CheckObserver;
pub use event::event_of_line;
