//! Names of spaces, the orders on spaces, and their answers.
//!
//! A space is a world of its own: workers and locks with their cells. The orders on spaces create, use, list and drop
//! them. The crate knows no server: it says which line is which order, which lines are refused for their form, and the
//! texts of the answers. It stands on rme_wire, which reads the members of a line, on rme_line_text for the texts of
//! lists, and on rme_keys, which defines the names of spaces. Begin with `specs/SpaceOrders.antt`, then read
//! `space_line.rt`.
#![tactic(auto)]

mod new_space;
mod space_line;
mod space_name;
mod space_reply;

pub use new_space::{NewSpace, USUAL_CELLS, USUAL_WORKERS};
pub use space_line::{SpaceLine, SpaceOrder, parse_space_order};
pub use space_name::SpaceName;
pub use space_reply::{SpaceReply, push_space_reply};
