//! Input lines: the request of a JSON line and, from the crates below, how bytes are cut into lines.
//!
//! The crate stands on rme_line_io, whose public names it re-exports, on rme_script, whose jobs the lines name, on
//! rme_line_json, which parses a line into a value, and on hex, which reads the bytes of an image. It knows no world
//! and executes nothing. The crates above use the contract of `request_of`: the request of a line is the one that
//! `specs/Requests.antt` defines from its value. Begin with `request.rt`, then `command.rt`.
#![tactic(auto)]

mod command;
mod loading;
mod opening;
mod operation;
mod request;
mod shaped;
mod value;

pub use command::{Command, Until, Walk, command_named, lock_member, lock_number, worker_member};
pub use loading::Loading;
pub use opening::{GivenNames, Opening};
pub use operation::script_of_value;
pub use request::{Request, request_of};
pub use rme_line_io::{
    Cut, EngineFault, Exchange, Image, LineReader, Names, Sink, Source, WriteBuffer, is_name,
    put_all,
};
pub use rme_line_json::{Value, ValueReader, ValueStorage, lend, whole_number};
pub use shaped::names_and_shape;
pub use value::{do_member, whole_u32, whole_up_to};
