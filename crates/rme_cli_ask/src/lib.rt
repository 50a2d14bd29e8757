//! The command `rme ask`: the client of a server, as redis-cli is to Redis.
//!
//! It looks at a server with a state, finishes the pending job of a worker by hand, creates, drops and lists spaces,
//! or sends the lines of its standard input. The crate stands on rme_ask_client, whose conversations it has, on
//! rme_line_io, which cuts and writes lines, on rme_cli_options for the task, and on rme_cli_messages for faults and
//! for the explanations of refusals. Its one call is `run_ask`. Its contracts: a look-up shows the tables of what the
//! answer says (`specs/LookUps.antt`), with a row for each lock and each worker (`specs/StatusRows.antt`,
//! `specs/TopRows.antt`), a list of spaces has a line for each (`specs/SpaceLines.antt`), and the exit status is 0
//! exactly if what was asked for was done. Begin with `run.rt`, then `finish.rt`; `servers.rt` chooses the server.
#![tactic(auto)]

mod age;
mod ask_end;
mod connect;
mod console;
mod dialogue;
mod finish;
mod lines;
mod look_ups;
mod patience;
mod refusals;
mod rows;
mod run;
mod secret;
mod servers;
mod spaces;
mod status_rows;
mod table;
mod top;

pub use run::run_ask;
