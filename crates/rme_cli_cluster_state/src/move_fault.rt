//! Why a state is not moved.

use rme_cli_cluster::ClusterFault;
use rme_cli_messages::CliFault;
use std::alloc::AllocError;
use std::fmt;

/// Why a state is not moved. Its text goes to the standard error.
#[derive(Drop)]
pub(crate) enum MoveFault {
    /// A fault of the file or of the cluster.
    Cluster(ClusterFault),
    /// The log of this name exists already.
    LogThere(String),
    /// Something has the name of the new file.
    FileThere(String),
    /// No file has this name.
    NoFile(String),
    /// The file is of version 1, whose bytes no log has.
    OldVersion(String),
    /// This server leads the log of this name.
    Led(String, String),
    /// The log of this name has changed while it was moved.
    Changed(String),
    /// Another move to the log of this name came between.
    OtherMove(String),
}

impl MoveFault {
    /// The exit status of the program.
    pub(crate) fn status(&self) -> u8 {
        match self {
            MoveFault::Cluster(fault) => fault.status(),
            _ => 2,
        }
    }
}

impl fmt::Display for MoveFault {
    fn fmt<W: fmt::Write>(&self, f: &mut fmt::Formatter<W>) -> fmt::Result {
        match self {
            MoveFault::Cluster(fault) => write!(f, "{fault}"),
            MoveFault::LogThere(name) => write!(
                f,
                "the log etcd:{name} is there already, and stays as it is\n  choose another name; `rme look etcd:{name}` says what it is"
            ),
            MoveFault::FileThere(path) => write!(
                f,
                "the file {path} is there already, and stays as it is: choose another name"
            ),
            MoveFault::NoFile(path) => write!(f, "there is no file {path}"),
            MoveFault::OldVersion(path) => write!(
                f,
                "the state {path} is of version 1, which only files have\n  `rme serve --state {path} --sections 1` renews it as version 2 after the next job"
            ),
            MoveFault::Led(name, address) => write!(
                f,
                "the server {address} leads etcd:{name}: end it, and all that stand by, and move then"
            ),
            MoveFault::Changed(name) => write!(
                f,
                "etcd:{name} has changed meanwhile: a server came to it, and no file was made"
            ),
            MoveFault::OtherMove(name) => write!(
                f,
                "another move to etcd:{name}, or a server, came between: this one was not made"
            ),
        }
    }
}

impl From<ClusterFault> for MoveFault {
    fn from(fault: ClusterFault) -> MoveFault {
        MoveFault::Cluster(fault)
    }
}

impl From<CliFault> for MoveFault {
    fn from(fault: CliFault) -> MoveFault {
        MoveFault::Cluster(ClusterFault::Cli(fault))
    }
}

impl From<AllocError> for MoveFault {
    fn from(refused: AllocError) -> MoveFault {
        MoveFault::Cluster(ClusterFault::from(refused))
    }
}
