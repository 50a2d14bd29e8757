//! Calls on the values of the running service.

mod calls;
pub mod chances;
mod cuts;
mod lives;
mod plans;
pub mod plays;
mod services;
mod stress;
pub mod values;
mod watch;
mod withdrawal;
