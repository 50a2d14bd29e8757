//! Calls on single lines, of which the program prints nothing: the names of locks, the parsing of event lines and
//! orders, event lines that are written back unchanged, and the values of lines that one reader reads.

mod event_lines;
mod names;
mod orders;
mod values;

use rme_wire::Names;
use std::alloc::Global;
use std::process::Abort;

/// The name of the one lock.
pub fn lock_names(rt: &impl Abort, alloc: Global) -> Names {
    let mut names = Names::new(alloc).expect(rt, "names");
    assert!(rt; names.add("a") == Ok(0));
    names
}
