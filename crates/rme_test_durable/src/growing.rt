//! A state that is given further workers, cells and locks.

ghost use Rattle.std.specs.Prelude.{◌≡◌, IfOk, true};
ghost use Rattle.rme_durable_file.specs.Starts.{BeginsKnownServer};

use crate::recovery::{HEADER, OPEN};
use rme_cli_messages::CliFault;
use rme_durable_file::{
    Cause, ContentsError, FileReadError, OpenedState, RecoveredFile, StateFile, StateName,
    StateStorage,
};
use rme_wire::{GivenNames, Names};
use rme_words::Shape;
use rme_world::World;
use std::alloc::{AllocError, Global};
use std::io;
use std::test::*;

/// A file in memory, of whose bytes nothing is known.
#[derive(Drop)]
struct MemoryFile {
    bytes: Vec<u8>,
}

impl StateStorage for MemoryFile {
    ghost use Rattle.std.specs.Prelude.{None, false};

    ghost contents = { λ _. None };

    ghost shared = { false };

    ghost barriers = { λ _. 0 };

    fn read_all(&mut self, alloc: Global) -> Result<Vec<u8>, FileReadError> {
        match self.bytes.to_vec(alloc) {
            Ok(bytes) => Ok(bytes),
            Err(_) => Err(FileReadError::Contents(ContentsError::NoMemory)),
        }
    }

    fn line_in_file(&self, _alloc: Global, line: u64) -> u64 {
        line
    }

    fn begin(&mut self, length: usize, _syncs: bool) -> io::Result<()> {
        self.bytes.truncate(length);
        Ok(())
    }

    fn append(&mut self, lines: &[u8], _syncs: bool) -> io::Result<()> {
        Ok(self.bytes.extend_from_slice(lines)?)
    }

    fn replace(&mut self, bytes: &[u8]) -> Result<Option<Cause>, Cause> {
        self.bytes.clear();
        self.bytes.extend_from_slice(bytes)?;
        Ok(None)
    }

    fn is_shared(&self) -> bool {
        false
    }

    fn asked(&self) -> u64 {
        0
    }
}

/// A job of the client, and all its steps.
const JOB: &str =
    "{\"do\":\"submit\",\"lock\":\"a\",\"script\":[[\"add\",0,5]],\"worker\":0}\n{\"do\":\"walk\",\"max\":3000,\"worker\":0}\n";

/// The names of two locks, of which the state has the first.
fn two_texts(alloc: Global) -> Result<Vec<String>, AllocError> {
    let mut texts = Vec::new(alloc);
    texts.push(String::from_str(alloc, "a")?)?;
    texts.push(String::from_str(alloc, "b")?)?;
    Ok(texts)
}

pub fn two_names(alloc: Global) -> Result<Names, CliFault> {
    let given = GivenNames::of(two_texts(alloc)?);
    if !given.are_names() {
        return Err(CliFault::BadNames);
    }
    Ok(given.names(alloc)?)
}

/// The start of a server with a file, whose appends wait for the disk if `syncs`.
fn start_with<'a, F: StateStorage>(
    rt: &HostRuntime,
    name: &'a StateName,
    file: F,
    syncs: bool,
) -> Result<OpenedState<'a, F>, CliFault>
    ensures works { IfOk result (λ state. state.file.works ≡ true) }
    ensures syncs { IfOk result (λ state. state.file.syncs ≡ syncs) }
    ensures begins { IfOk result (λ state. BeginsKnownServer (F.contents file) state.names state.executor
        state.file.bytes) }
{
    RecoveredFile::read(rt, StateFile::new(name, file, syncs))?.open(rt)
}

/// Whether a state grows to what it is to be: recovery of its file leads there.
fn grows_as_told(rt: &HostRuntime, name: &StateName) -> Result<bool, CliFault> {
    let text = format!(in rt.alloc(); "{HEADER}{OPEN}{JOB}")?;
    let file = MemoryFile {
        bytes: text.as_bytes().to_vec(rt.alloc())?,
    };
    let opened = start_with(rt, name, file, false)?;
    let Ok(shape) = Shape::new(4, 2, 2, 9) else {
        return Ok(false);
    };
    let grown = opened.grow(rt, two_names(rt.alloc())?, shape)?;
    let found = RecoveredFile::read(rt, grown.file)?;
    Ok(is_grown(&found.log().world))
}

/// Whether a cell of a world has this value.
fn has_cell(world: &World, lock: u32, cell: u32, value: u64) -> bool {
    match world.cells(lock) {
        Ok((row, _)) => cell < row.len() && row.get(cell) == value,
        Err(_) => false,
    }
}

/// Whether a world has the sizes of the grown state, its cells and workers that are down.
fn is_grown(world: &World) -> bool {
    let shape = world.shape();
    if shape.workers() != 4 || shape.locks() != 2 || shape.cells() != 2 {
        return false;
    }
    let cells = [(0, 0, 5), (0, 1, 0), (1, 0, 0), (1, 1, 0)];
    cells.iter().all(|(lock, cell, value)| has_cell(world, *lock, *cell, *value))
        && (0..3).all(|worker| world.known(worker).is_none())
}

#[test]
fn a_state_grows_and_keeps_what_it_had(rt: HostRuntime) -> Result<(), Fail> {
    let name = StateName::new(String::from_str(rt.alloc(), "state")?);
    assert!(rt; matches!(grows_as_told(&rt, &name), Ok(true)));
    Ok(())
}
