//! Laws that follow from the contracts of public calls, each the contract of a function that does nothing.
//!
//! - `server_laws.rt`, of a durable server. Recovery applies the events of a file's lines. That it restores the logged
//!   world is proved here: from one world the same events lead to one world, however much memory there is, and the
//!   lines of events lead to the same state as the events. Of a server's log it is proved that the log determines the
//!   state, that a session keeps its worker while it orders nothing, and that the worker stays inside its lock
//!   meanwhile.
//! - `replica_laws.rt`, of many servers over one log, to which they put one after another, whatever crashes and claims
//!   came between.
//! - `process_laws.rt`, of processes over one mapped file. Many processes make calls of `rme_process_abi` and
//!   operations on the words of one file, in any order, and may die at any moment. What they make together is one
//!   world: its events are those of the calls, and a step for each operation.
//!
//! The crate stands on rme_world, by the contracts of its calls; on rme_line_engine and rme_durable_format, which
//! execute lines and read files, on rme_session_world, which defines how events apply, and on rme_durable_server,
//! which defines its history; on rme_replica for the heads of a log; on rme_process_core, which says what the calls
//! and operations of one process are, and on rme_process_file, which says what damage is. It runs nothing, and nothing
//! stands on it. Begin with `specs/AlikeWorlds.antt`, `specs/Puts.antt` or `specs/ProcessRuns.antt`, then with the
//! laws.
#![tactic(auto)]

pub mod process_laws;
pub mod replica_laws;
pub mod server_laws;
