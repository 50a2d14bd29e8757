//! Lines that are written: the header of a new state, and crashes of workers.

ghost use Rattle.std.specs.Prelude.{◌≡◌, ◌++◌, ◌∷◌, [], ℕ, IfOk, List, string_bytes};
ghost use Rattle.rme_durable_format.specs.Headers.{IsLogHeader, first_header_values};
ghost use Rattle.rme_durable_format.specs.HeaderTexts.{AreLockNames};

use crate::growing::two_names;
use crate::recovery::CRASH;
use rme_durable_format::{
    CommandWriter, LineFault, LogHeader, append_batch, append_crashes, laws, push_header,
};
use rme_session_world::{BatchStart, EventBatch};
use rme_wire::Names;
use rme_words::Shape;
use rme_world::World;
use std::alloc::{AllocError, Global};
use std::test::*;

/// The first line of a new state, which is read as the header of a first epoch.
fn first_line(alloc: Global, names: &Names, shape: Shape) -> Result<String, AllocError>
    ensures { IfOk result (λ written. AreLockNames names.now
        → (line : List ℕ) × (string_bytes written ≡ line ++ 10 ∷ [])
        × IsLogHeader names.now shape line (first_header_values shape)) }
{
    laws::headers();
    let mut line = String::new(alloc);
    push_header(&mut line, names, &LogHeader::first(alloc, shape)?)?;
    Ok(line)
}

/// The lines of the crashes of all workers that are up. Each of them has one.
fn crash_lines(alloc: Global, names: &Names, world: &World) -> Result<String, AllocError> {
    let mut lines = String::new(alloc);
    match append_crashes(&mut lines, alloc, names, world) {
        Ok(()) => Ok(lines),
        Err(LineFault::NoMemory) => Err(AllocError),
        Err(LineFault::NoLine) => unreachable!(),
    }
}

/// The line of a crash. Every worker has one, whatever the names of the locks are.
fn crash_line(alloc: Global, names: &Names, worker: u32) -> Result<String, AllocError> {
    let crash = EventBatch {
        worker,
        begins: BatchStart::GoOn,
        steps: 0,
        falls: true,
    };
    let mut line = String::new(alloc);
    match append_batch(&mut line, &mut CommandWriter::new(alloc), names, crash) {
        Ok(()) => Ok(line),
        Err(LineFault::NoMemory) => Err(AllocError),
        Err(LineFault::NoLine) => {
            laws::command_lines();
            unreachable!()
        }
    }
}

/// The first line of a new state with one client and one lock.
const FIRST: &str =
    "{\"epoch\":0,\"last\":[null],\"lives\":[0],\"numbers\":[0],\"places\":[0],\"rme\":\"kept\",\"version\":2}\n";

#[test]
fn a_new_state_and_its_crashes_have_their_lines(rt: HostRuntime) -> Result<(), Fail> {
    let shape = Shape::new(2, 1, 1, 9).ok().ok_or("shape")?;
    let names = two_names(rt.alloc()).ok().ok_or("names")?;
    let first = first_line(rt.alloc(), &names, shape)?;
    assert!(rt; first.as_str() == FIRST);
    let crash = crash_line(rt.alloc(), &names, 0)?;
    assert!(rt; crash.as_str() == CRASH);
    let world = World::new(rt.alloc(), shape).ok().ok_or("world")?;
    let crashes = crash_lines(rt.alloc(), &names, &world)?;
    assert!(rt; crashes.as_bytes().starts_with(CRASH.as_bytes()));
    Ok(())
}
