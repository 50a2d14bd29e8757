//! The tree of a lock: the paths of the workers through its nodes, the levels that each one holds, the holder of a
//! node, the owner of the lock, and the worker that blocks another.
//!
//! This crate stands on `rme_words`. The crates above use one contract: the owner is the worker whose sides are in all
//! nodes of its path (`owner`), with the laws of one step on a tree (`laws`): a worker takes or releases the topmost of
//! the nodes that it holds, and every other worker holds the same levels. The crates above speak only of `held`, never
//! of single nodes. Begin with `specs/Paths.antt`.
#![tactic(auto)]

pub mod laws;
mod owners;
mod paths;

pub use owners::{blocker, held, holder, owner};
pub use paths::{node, side};
