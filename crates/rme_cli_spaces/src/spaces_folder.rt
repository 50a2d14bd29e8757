//! The folder of the spaces of a server: a state file for each.

use rme_cli_durable::usual_lines;
use rme_cli_messages::CliFault;
use rme_durable_file::{RecoveredFile, StateName, make_state, open_state_file};
use rme_durable_lookups::clients_of;
use rme_session_spaces::SpacePage;
use rme_space_orders::{NewSpace, SpaceName};
use rme_wire::{
    Cut, EngineFault, LineReader, Names, Request, ValueReader, names_and_shape, request_of,
};
use rme_words::{NoMemory, Refusal, Shape};
use std::alloc::{AllocError, Global};
use std::fs::{DirEntry, File, OpenOptions, TryLockError};
use std::io::ErrorKind;
use std::{fs, io};

/// The suffix of the name of a space's file.
const SUFFIX: &str = ".state";

/// The largest number of names in one answer.
const MOST_NAMES: usize = 1_000;

/// The largest number of bytes of the names in one answer, each with its quotes and its comma. So an answer is no longer
/// than a line of a client may be.
const MOST_BYTES: usize = 65_000;

/// The number of times that a space is made which is dropped meanwhile.
const CREATE_TRIES: u32 = 10;

/// A folder of spaces, which no other server has while this value lives.
#[derive(Drop)]
pub(crate) struct SpacesFolder<'a> {
    rt: &'a HostRuntime,
    path: String,
    /// The folder, opened and locked.
    _lock: File,
}

/// The exit status of a start whose folder is refused, of which the standard error was told.
#[derive(Clone, Copy, Debug, PartialEq, Eq)]
pub(crate) struct RefusedFolder {
    pub(crate) status: u8,
}

/// The file of a space, as far as `create` compares it.
#[derive(Drop)]
enum FoundSpace {
    NotThere,
    /// A space with these locks, and this shape, which has the checkpoint worker too.
    Space(Names, Shape),
    /// Something else.
    Other,
}

impl<'a> SpacesFolder<'a> {
    /// Opens and locks a folder. It is refused if it cannot be read, or if another server has it.
    pub(crate) fn open(
        rt: &'a HostRuntime,
        path: String,
    ) -> Result<SpacesFolder<'a>, RefusedFolder> {
        match open_locked(rt, path.as_str()) {
            Ok(lock) => Ok(SpacesFolder {
                rt,
                path,
                _lock: lock,
            }),
            Err(TryLockError::WouldBlock) => {
                let path = path.as_str();
                let _ = eprintln!(rt; "rme: --spaces: another server has the folder {path:?}");
                Err(RefusedFolder { status: 2 })
            }
            Err(TryLockError::Error(why)) => {
                let path = path.as_str();
                let _ = eprintln!(rt; "rme: --spaces: the folder {path:?} cannot be opened: {why}");
                Err(RefusedFolder {
                    status: status_of(&why),
                })
            }
        }
    }

    pub(crate) fn alloc(&self) -> Global {
        self.rt.alloc()
    }

    /// The path of the file of a space.
    pub(crate) fn path_of(&self, name: &SpaceName) -> Result<String, AllocError> {
        let folder = self.path.as_str();
        let name = name.as_str();
        format!(in self.alloc(); "{folder}/{name}{SUFFIX}")
    }

    /// The names of at most 1,000 spaces, in order: the first, or the first after a name.
    pub(crate) fn list(&self, after: Option<&SpaceName>) -> Result<SpacePage, Refusal> {
        match self.names_after(after) {
            Ok(names) => Ok(page_of(names)),
            Err(why) => Err(self.refuse_file("the folder cannot be read", &why)),
        }
    }

    /// Creates a space, unless there is one with these locks and sizes.
    pub(crate) fn create(&self, space: &NewSpace) -> Result<(), Refusal> {
        for _ in 0..CREATE_TRIES {
            match self.found(space)? {
                FoundSpace::NotThere => self.make(space)?,
                FoundSpace::Space(names, shape) if is_of_form(space, &names, shape) => {
                    return Ok(());
                }
                _ => return Err(Refusal::SpaceDiffers),
            }
        }
        // Others drop it each time that it is made.
        Err(Refusal::Busy)
    }

    /// Removes the file of a space that no server serves, unless a job is pending in it.
    pub(crate) fn remove(&self, name: &SpaceName) -> Result<(), Refusal> {
        let Ok(path) = self.path_of(name) else {
            return Err(Refusal::NoMemory);
        };
        match self.has_pending_job(path) {
            Ok(Some(false)) => self.unlink(name),
            Ok(Some(true)) => Err(Refusal::Busy),
            Ok(None) => Err(Refusal::NoSpace),
            Err(fault) => Err(self.refuse(&fault)),
        }
    }

    /// Tells a fault of a space's file, and answers the refusal of the order that met it.
    pub(crate) fn refuse(&self, fault: &CliFault) -> Refusal {
        let _ = eprintln!(self.rt; "rme: {fault}");
        match fault {
            CliFault::NoMemory => Refusal::NoMemory,
            _ => Refusal::NoSpace,
        }
    }

    /// Tells why a call of the system failed, and answers the refusal of the order that asked for it.
    fn refuse_file(&self, what: &str, why: &io::Error) -> Refusal {
        let folder = self.path.as_str();
        let _ = eprintln!(self.rt; "rme: --spaces {folder:?}: {what}: {why}");
        Refusal::NoMemory
    }

    /// The names of all spaces, or of those after a name.
    fn names_after(&self, after: Option<&SpaceName>) -> io::Result<Vec<SpaceName>> {
        let mut names = Vec::new(self.alloc());
        for entry in fs::read_dir(self.rt, self.path.as_str())? {
            let Some(name) = name_of_entry(self.alloc(), &entry?)? else {
                continue;
            };
            if after.is_none_or(|after| name.as_str() > after.as_str()) {
                names.push(name)?;
            }
        }
        names.sort_unstable_by(|one, other| one.as_str().cmp(other.as_str()));
        Ok(names)
    }

    /// What the file of a space has.
    fn found(&self, space: &NewSpace) -> Result<FoundSpace, Refusal> {
        let Ok(path) = self.path_of(&space.name) else {
            return Err(Refusal::NoMemory);
        };
        match found_at(self.rt, path.as_str()) {
            Ok(found) => Ok(found),
            Err(why) => Err(self.refuse_file("a state cannot be read", &why)),
        }
    }

    /// Makes the file of a space, unless something has its name.
    fn make(&self, space: &NewSpace) -> Result<(), Refusal> {
        let alloc = self.alloc();
        let locks = space.locks.as_slice();
        let lines = match usual_lines(alloc, locks, space.workers, space.cells) {
            Ok(Some(lines)) => lines,
            Ok(None) => return Err(Refusal::BadShape),
            Err(_) => return Err(Refusal::NoMemory),
        };
        let Ok(path) = self.path_of(&space.name) else {
            return Err(Refusal::NoMemory);
        };
        match make_state(self.rt, path.as_str(), lines.as_bytes()) {
            Ok(()) => Ok(()),
            Err(fault) => {
                self.refuse(&fault);
                Err(Refusal::NoMemory)
            }
        }
    }

    /// Whether a job is pending in the state of this path; `None` if it is not there.
    fn has_pending_job(&self, path: String) -> Result<Option<bool>, CliFault> {
        let name = StateName::new(path);
        let Some(file) = open_state_file(self.rt, &name, false)? else {
            return Ok(None);
        };
        let found = RecoveredFile::read(self.rt, file)?;
        let world = &found.log().world;
        Ok(Some((0..clients_of(world)).any(|worker| world.pending(worker).is_some())))
    }

    /// Removes the file of a space, and waits until the disk knows that.
    fn unlink(&self, name: &SpaceName) -> Result<(), Refusal> {
        let Ok(path) = self.path_of(name) else {
            return Err(Refusal::NoMemory);
        };
        if let Err(why) = fs::remove_file(self.rt, path.as_str()) {
            return Err(self.refuse_file("a state cannot be removed", &why));
        }
        match self._lock.sync_all() {
            Ok(()) => Ok(()),
            Err(why) => Err(self.refuse_file("the folder cannot be synced", &why)),
        }
    }
}

/// Opens a folder, and locks it.
fn open_locked(rt: &HostRuntime, path: &str) -> Result<File, TryLockError> {
    let mut options = OpenOptions::new();
    options.read(true);
    let folder = match options.open(rt, path) {
        Ok(folder) => folder,
        Err(why) => return Err(TryLockError::Error(why)),
    };
    match folder.metadata() {
        Ok(found) if found.is_dir() => {}
        Ok(_) => {
            let why = io::Error::from(ErrorKind::NotADirectory);
            return Err(TryLockError::Error(why));
        }
        Err(why) => return Err(TryLockError::Error(why)),
    }
    folder.try_lock()?;
    Ok(folder)
}

/// The exit status of a start whose folder cannot be opened for this reason.
fn status_of(why: &io::Error) -> u8 {
    match why.kind() {
        ErrorKind::OutOfMemory => 5,
        ErrorKind::NotFound | ErrorKind::NotADirectory => 2,
        _ => 3,
    }
}

/// The first names of a list.
fn page_of(names: Vec<SpaceName>) -> SpacePage {
    let mut names = names;
    let count = names_of_a_page(names.as_slice());
    let has_more = names.len() > count;
    names.truncate(count);
    SpacePage { names, has_more }
}

/// The number of names that one answer takes.
fn names_of_a_page(names: &[SpaceName]) -> usize {
    let mut bytes = 0usize;
    for (number, name) in names.iter().enumerate() {
        bytes = bytes.saturating_add(name.as_str().len()).saturating_add(3);
        if number == MOST_NAMES || bytes > MOST_BYTES {
            return number;
        }
    }
    names.len()
}

/// The name of the space that an entry of the folder is, if it is one: a regular file with the name of a space's file.
fn name_of_entry(alloc: Global, entry: &DirEntry) -> io::Result<Option<SpaceName>> {
    let Some(name) = name_of_file(alloc, entry.file_name())? else {
        return Ok(None);
    };
    match entry.file_type() {
        Ok(found) if found.is_file() => Ok(Some(name)),
        Ok(_) => Ok(None),
        Err(why) if why.kind() == ErrorKind::NotFound => Ok(None),
        Err(why) => Err(why),
    }
}

/// The name of the space whose file has this name, if it is the file of a space.
fn name_of_file(alloc: Global, file: &str) -> Result<Option<SpaceName>, AllocError> {
    match file.strip_suffix(SUFFIX) {
        Some(name) => SpaceName::parse(alloc, name),
        None => Ok(None),
    }
}

/// What has this path.
fn found_at(rt: &HostRuntime, path: &str) -> io::Result<FoundSpace> {
    match fs::symlink_metadata(rt, path) {
        Ok(found) if found.is_file() => {}
        Ok(_) => return Ok(FoundSpace::Other),
        Err(why) if why.kind() == ErrorKind::NotFound => return Ok(FoundSpace::NotThere),
        Err(why) => return Err(why),
    }
    match File::open(rt, path) {
        Ok(file) => found_in(rt.alloc(), file),
        Err(why) if why.kind() == ErrorKind::NotFound => Ok(FoundSpace::NotThere),
        Err(why) => Err(why),
    }
}

/// The locks and the shape of a state's file, which its second line has.
fn found_in(alloc: Global, file: File) -> io::Result<FoundSpace> {
    let mut lines = LineReader::new(alloc, file)?;
    let mut line = Vec::new(alloc);
    for _ in 0..2 {
        match lines.next_line(&mut line, &io::sink()) {
            Ok(Cut::End) => return Ok(FoundSpace::Other),
            Ok(_) => {}
            Err(EngineFault::NoMemory) => return Err(io::Error::from(ErrorKind::OutOfMemory)),
            Err(_) => return Ok(FoundSpace::Other),
        }
    }
    match opening_of(alloc, line.as_slice()) {
        Ok(Some((names, shape))) => Ok(FoundSpace::Space(names, shape)),
        Ok(None) => Ok(FoundSpace::Other),
        Err(NoMemory) => Err(io::Error::from(ErrorKind::OutOfMemory)),
    }
}

/// The names and the shape of a line that opens a world.
fn opening_of(alloc: Global, line: &[u8]) -> Result<Option<(Names, Shape)>, NoMemory> {
    let mut values = ValueReader::new(alloc);
    let names = Names::new(alloc)?;
    let Some(Request::Open(opening)) = request_of(alloc, &mut values, &names, line)? else {
        return Ok(None);
    };
    match names_and_shape(alloc, &opening) {
        Ok(found) => Ok(Some(found)),
        Err(Refusal::NoMemory) => Err(NoMemory),
        Err(_) => Ok(None),
    }
}

/// Whether a state has the locks and the sizes of a space.
fn is_of_form(space: &NewSpace, names: &Names, shape: Shape) -> bool {
    let locks = space.locks.as_slice();
    shape.workers() == space.workers + 1
        && shape.cells() == space.cells
        && locks.len() == names.len() as usize
        && (0..names.len())
            .zip(locks)
            .all(|(lock, asked)| names.name(lock) == asked.as_str())
}
