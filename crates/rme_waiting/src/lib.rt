//! Who a waiting worker waits for.
//!
//! A worker that waits for a lock holds the nodes of its path up to some level, and the node above may be held by
//! another worker, which has to leave first. `blocked_by` answers that worker from the words that survive a crash, so a
//! worker that is down counts like one that is up. This crate stands on rme_tree, which finds the holder of a node, on
//! rme_core_image_check, which reads a worker's job, and on rme_world, which copies its words. The
//! crates above use the contract of `blocked_by`. Begin with `specs/Waiting.antt`.
#![tactic(auto)]

pub mod laws;
mod waiting;
mod worlds;

pub use waiting::blocked_by;
pub use worlds::world_words;
