//! The faults that end the program early.

ghost use Rattle.std.specs.Prelude.{◌≡◌, ◌≤◌};
ghost use Rattle.rme_cli_messages.specs.FaultStatuses.{fault_of_engine, fault_of_serving, fault_of_words, fault_on_file, fault_status, fault_of_loading};
ghost use Rattle.rme_cli_messages.specs.declared.fault.CliFault.TheVariants.{NoMemory};

use crate::argument::BadArgument;
use rme_line_io::{EngineFault, ServeFault};
use rme_words::Refusal;
use std::alloc::AllocError;
use std::error::Error;
use std::io::ErrorKind;
use std::{fmt, io};

/// Why an image cannot be saved.
#[derive(Debug, Drop)]
pub enum SaveError {
    Irregular,
    Unwritable(io::Error),
}

impl fmt::Display for SaveError {
    ghost use Rattle.rme_cli_messages.specs.FaultTexts.{save_error_text};

    ghost output = { λ hindrance. save_error_text hindrance };

    fn fmt<W: fmt::Write>(&self, f: &mut fmt::Formatter<W>) -> fmt::Result {
        match self {
            SaveError::Irregular => f.write_str("it is no regular file"),
            SaveError::Unwritable(why) => write!(f, "{why}"),
        }
    }
}

impl Error for SaveError {}

/// The fault that ended the program early. Its text goes to the standard error.
#[derive(Debug, Drop)]
pub enum CliFault {
    /// The words of the command line are not text, or cannot be accepted.
    BadArguments(BadArgument),
    ReadFailed,
    WriteFailed,
    NoMemory,
    /// The words after `--locks` may not name a world's locks.
    BadNames,
    /// The file to load exists and cannot be read.
    ImageUnread(String, io::Error),
    /// The file to load is not an image of a world.
    BadImage(String),
    /// The number of the loaded world's locks is not that of the names.
    OtherLocks(String, usize),
    /// The file to save to cannot be written.
    ImageUnwritten(String, io::Error),
    /// The file to save to cannot be replaced by an image.
    Unsavable(String, SaveError),
    /// The new image has replaced the file, but its folder could not be synced.
    FolderUnsynced(String, io::Error),
    /// The server cannot listen here: `port 4000`, or the path of a socket.
    ListenFailed(String, io::Error),
    /// The client cannot connect to the server here: `port 4000`, or the path of a socket.
    ConnectFailed(String, io::Error),
    /// None of the client's servers lets it in. The text is a newline, the address and the reason of each.
    NoServer(String),
    /// The server could not accept a connection here.
    AcceptFailed(String),
    /// No thread could be started for a connection.
    NoThread,
    /// This line of a state's file, counted from 1, is not valid, or is refused.
    BadState(String, u64),
    /// A write of a state's file that was with the disk has changed: the one that ends at this line, counted from 1.
    StateChanged(String, u64),
    /// The file is a state of this version, which is not supported.
    StateOfVersion(String, u64),
    /// The file is a file of words that processes map, not a state.
    StateOfProcesses(String),
    /// A file begins as a file of words that processes map, but is none, for this reason.
    BadWords(String, String),
    /// The file of a state exists and cannot be read.
    StateUnread(String, io::Error),
    /// The file of a state cannot be written.
    StateUnwritten(String, io::Error),
    /// The state could not be given its new sizes or locks: its file is still of the old ones.
    StateNotGrown(String),
    /// Nothing that can be explained has this number or name.
    Unexplained(String),
    /// A word that is to be explained is empty.
    NothingAsked,
}

impl fmt::Display for CliFault {
    ghost use Rattle.rme_cli_messages.specs.FaultTexts.{fault_text};

    ghost output = { λ fault. fault_text fault };

    fn fmt<W: fmt::Write>(&self, f: &mut fmt::Formatter<W>) -> fmt::Result {
        match self {
            CliFault::BadArguments(why) => write!(f, "bad arguments\n  {why}"),
            CliFault::ReadFailed => f.write_str("read failed"),
            CliFault::WriteFailed => f.write_str("write failed"),
            CliFault::NoMemory => f.write_str("no memory"),
            CliFault::BadNames => f.write_str(
                "--locks takes 1 to 16 names, each once, of 1 to 32 of a-z 0-9 _ and -, with commas between",
            ),
            CliFault::ImageUnread(file, why) => write!(f, "the image {file} can't be read: {why}"),
            CliFault::BadImage(file) => write!(
                f,
                "the image {file} is broken: it is the image of no world"
            ),
            CliFault::OtherLocks(file, names) => write!(
                f,
                "the world of the image {file} has not as many locks as --locks has names: {names}"
            ),
            CliFault::ImageUnwritten(file, why) => write!(
                f,
                "the image {file} can't be written: {why}"
            ),
            CliFault::Unsavable(file, why) => write!(f, "the image {file} can't be saved: {why}"),
            CliFault::FolderUnsynced(file, why) => write!(
                f,
                "the image {file} is in its place, but its folder can't be synced: {why}"
            ),
            CliFault::ListenFailed(place, why) => write!(f, "socket failed\n  {place}: {why}"),
            CliFault::ConnectFailed(place, why) => write!(
                f,
                "no server at {place}: {why}\n  start one by `rme serve --state FILE LOCK`, or name its --port or its --socket"
            ),
            CliFault::NoServer(tries) => write!(
                f,
                "no server lets this client in{tries}\n  start one by `rme serve --state FILE LOCK`, or name its --port or its --socket"
            ),
            CliFault::AcceptFailed(place) => write!(
                f,
                "socket failed\n  {place}: a connection could not be accepted"
            ),
            CliFault::NoThread => f.write_str("no thread"),
            CliFault::BadState(file, line) => write!(f, "bad state\n  {file}: line {line}"),
            CliFault::StateChanged(file, line) => write!(
                f,
                "bad state\n  {file}: what was written up to line {line} has changed since"
            ),
            CliFault::StateOfVersion(file, version) => write!(
                f,
                "bad state\n  {file}: it is of version {version}, and this program reads versions 1 and 2"
            ),
            CliFault::StateOfProcesses(file) => write!(
                f,
                "bad state\n  {file}: it is a file of processes, which `rme look` shows and no server keeps"
            ),
            CliFault::BadWords(file, why) => write!(f, "bad words\n  {file}: {why}"),
            CliFault::StateUnread(file, why) => write!(f, "the state {file} can't be read: {why}"),
            CliFault::StateUnwritten(file, why) => write!(
                f,
                "the state {file} can't be written: {why}"
            ),
            CliFault::StateNotGrown(file) => write!(
                f,
                "the state {file} can't grow: its checkpoint can't be made, and it is as it was"
            ),
            CliFault::Unexplained(asked) => write!(
                f,
                "no refusal and no status is called {asked}: rme explain names each"
            ),
            CliFault::NothingAsked => f.write_str(
                "an empty word is the name of no refusal and no status: rme explain names each",
            ),
        }
    }
}

impl Error for CliFault {}

impl CliFault {
    /// The exit status of the program.
    pub fn status(&self) -> u8
        ensures status { result ≡ fault_status self.now }
        ensures first { 2 ≤ result }
        ensures last { result ≤ 7 }
    {
        match self {
            CliFault::BadArguments(_) => 2,
            CliFault::ReadFailed => 3,
            CliFault::WriteFailed => 4,
            CliFault::NoMemory => 5,
            CliFault::BadNames => 2,
            CliFault::ImageUnread(_, _) => 3,
            CliFault::BadImage(_) => 2,
            CliFault::OtherLocks(_, _) => 2,
            CliFault::Unsavable(_, _) => 2,
            CliFault::ImageUnwritten(_, _) => 4,
            CliFault::FolderUnsynced(_, _) => 4,
            CliFault::ListenFailed(_, _) => 6,
            CliFault::ConnectFailed(_, _) => 6,
            CliFault::NoServer(_) => 6,
            CliFault::AcceptFailed(_) => 6,
            CliFault::NoThread => 7,
            CliFault::BadState(_, _) => 2,
            CliFault::StateChanged(_, _) => 2,
            CliFault::StateOfVersion(_, _) => 2,
            CliFault::StateOfProcesses(_) => 2,
            CliFault::BadWords(_, _) => 2,
            CliFault::StateUnread(_, _) => 3,
            CliFault::StateUnwritten(_, _) => 4,
            CliFault::StateNotGrown(_) => 5,
            CliFault::Unexplained(_) => 2,
            CliFault::NothingAsked => 2,
        }
    }

    /// The fault if the words of the command line cannot be read, for a reason of this kind.
    pub fn of_words(kind: ErrorKind) -> CliFault
        ensures { result ≡ fault_of_words kind }
    {
        match kind {
            ErrorKind::OutOfMemory => CliFault::NoMemory,
            _ => CliFault::BadArguments(BadArgument::NoText),
        }
    }

    /// The fault if a file cannot be read or written for a reason of this kind: refused memory, otherwise the given
    /// fault.
    pub fn on_file(kind: ErrorKind, other: CliFault) -> CliFault
        ensures { result ≡ fault_on_file kind other }
    {
        if kind == ErrorKind::OutOfMemory {
            return CliFault::NoMemory;
        }
        other
    }

    /// The fault of a server's connection; the server listened on this address.
    pub fn of_serving(fault: ServeFault, place: String) -> CliFault
        ensures { result ≡ fault_of_serving fault place }
    {
        match fault {
            ServeFault::SocketFailed => CliFault::AcceptFailed(place),
            ServeFault::NoThread => CliFault::NoThread,
            ServeFault::NoMemory => CliFault::NoMemory,
        }
    }

    /// The fault if the image of a file cannot be loaded with this number of names.
    pub fn of_loading(refusal: Refusal, file: String, names: usize) -> CliFault
        ensures { result ≡ fault_of_loading refusal file names }
    {
        match refusal {
            Refusal::NoMemory => CliFault::NoMemory,
            Refusal::BadShape => CliFault::OtherLocks(file, names),
            _ => CliFault::BadImage(file),
        }
    }
}

impl From<EngineFault> for CliFault {
    ghost from_gives = { λ engine fault. fault ≡ fault_of_engine engine };

    fn from(fault: EngineFault) -> CliFault {
        match fault {
            EngineFault::ReadFailed => CliFault::ReadFailed,
            EngineFault::WriteFailed => CliFault::WriteFailed,
            EngineFault::NoMemory => CliFault::NoMemory,
        }
    }
}

impl From<AllocError> for CliFault {
    ghost from_gives = { λ _ fault. fault ≡ NoMemory };

    fn from(_refused: AllocError) -> CliFault {
        CliFault::NoMemory
    }
}

impl From<rme_words::NoMemory> for CliFault {
    ghost from_gives = { λ _ fault. fault ≡ NoMemory };

    fn from(_refused: rme_words::NoMemory) -> CliFault {
        CliFault::NoMemory
    }
}
