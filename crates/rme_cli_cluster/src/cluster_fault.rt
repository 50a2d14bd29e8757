//! The faults of a log in a cluster.

ghost use Rattle.std.specs.Prelude.{◌≤◌};

use rme_cli_messages::{CliFault, escape_controls};
use rme_cli_options::EtcdPlace;
use rme_etcd::{EtcdEngine, EtcdFault};
use std::alloc::{AllocError, Global};
use std::{fmt, io};

/// Why a log in a cluster cannot be had, read or changed. Its text goes to the standard error.
#[derive(Drop)]
pub enum ClusterFault {
    /// A fault that a file may have too.
    Cli(CliFault),
    /// This node has no address.
    UnknownNode(String, io::Error),
    /// The file with the user's password cannot be read.
    PasswordUnread(io::Error),
    /// The system gave no random bytes.
    NoRandom(io::Error),
    /// The fault is with the log of this name.
    Log(String, LogFault),
}

/// What is wrong with a log, or with a call of it.
#[derive(Clone, Copy, Debug, Drop, PartialEq, Eq)]
pub enum LogFault {
    /// No log has this name.
    NoLog,
    /// A move that was not finished left it.
    MoveUnfinished,
    /// A call failed.
    Call(EtcdFault),
}

impl ClusterFault {
    /// The fault of the last call of a log, which failed.
    pub fn of_call(alloc: Global, place: &EtcdPlace, engine: &EtcdEngine) -> ClusterFault {
        match engine.fault() {
            Some(EtcdFault::NoLog) => ClusterFault::of_log(alloc, place, LogFault::NoLog),
            Some(EtcdFault::OutOfMemory) => ClusterFault::Cli(CliFault::NoMemory),
            Some(why) => ClusterFault::of_log(alloc, place, LogFault::Call(why)),
            None => ClusterFault::of_log(alloc, place, LogFault::Call(EtcdFault::Unreachable)),
        }
    }

    /// The fault with a log.
    pub fn of_log(alloc: Global, place: &EtcdPlace, why: LogFault) -> ClusterFault {
        match escape_controls(alloc, place.name.as_str()) {
            Ok(name) => ClusterFault::Log(name, why),
            Err(_) => ClusterFault::Cli(CliFault::NoMemory),
        }
    }

    /// The exit status of the program.
    pub fn status(&self) -> u8
        ensures first { 2 ≤ result }
        ensures last { result ≤ 7 }
    {
        match self {
            ClusterFault::Cli(fault) => fault.status(),
            ClusterFault::UnknownNode(_, _) => 6,
            ClusterFault::PasswordUnread(_) => 3,
            ClusterFault::NoRandom(_) => 3,
            ClusterFault::Log(_, LogFault::NoLog | LogFault::MoveUnfinished) => 2,
            ClusterFault::Log(_, LogFault::Call(why)) => call_status(*why),
        }
    }
}

/// The exit status after a call that failed.
fn call_status(why: EtcdFault) -> u8
    ensures first { 2 ≤ result }
    ensures last { result ≤ 7 }
{
    match why {
        EtcdFault::Unreachable => 6,
        EtcdFault::NoSpace => 4,
        EtcdFault::OutOfMemory => 5,
        EtcdFault::BadAnswer | EtcdFault::Refused(_) => 3,
        EtcdFault::NotAllowed | EtcdFault::NoLog | EtcdFault::Gap => 2,
    }
}

impl fmt::Display for ClusterFault {
    fn fmt<W: fmt::Write>(&self, f: &mut fmt::Formatter<W>) -> fmt::Result {
        match self {
            ClusterFault::Cli(fault) => write!(f, "{fault}"),
            ClusterFault::UnknownNode(node, why) => write!(f, "the node {node} of --engine: {why}"),
            ClusterFault::PasswordUnread(why) => write!(f, "--password-file can't be read: {why}"),
            ClusterFault::NoRandom(why) => write!(f, "the system gave no random bytes: {why}"),
            ClusterFault::Log(name, LogFault::NoLog) => write!(
                f,
                "there is no log etcd:{name}\n  `rme serve --state etcd:{name} ..` makes one, or `rme move FILE etcd:{name} ..` makes it of a file"
            ),
            ClusterFault::Log(name, LogFault::MoveUnfinished) => write!(
                f,
                "the move to etcd:{name} was not finished\n  the same `rme move` again finishes it"
            ),
            ClusterFault::Log(name, LogFault::Call(why)) => {
                write!(f, "etcd:{name}: ")?;
                write_call_fault(f, *why)
            }
        }
    }
}

/// Writes why a call failed.
fn write_call_fault<W: fmt::Write>(f: &mut fmt::Formatter<W>, why: EtcdFault) -> fmt::Result {
    match why {
        EtcdFault::Unreachable => {
            f.write_str("no node of --engine gave an answer within --patience")
        }
        EtcdFault::BadAnswer => {
            f.write_str("what answers at --engine is no etcd, or the keys are of another program")
        }
        EtcdFault::Refused(status) => write!(f, "the cluster refused with status {status} of HTTP"),
        EtcdFault::NoSpace => f.write_str(
            "the cluster has no room: its quota is used up, and its operator has to make room",
        ),
        EtcdFault::NotAllowed => {
            f.write_str("the cluster refused: it asks for another --user or --password-file")
        }
        EtcdFault::NoLog => f.write_str("there is no such log"),
        EtcdFault::Gap => f.write_str("bad state: a record is missing in the cluster"),
        EtcdFault::OutOfMemory => f.write_str("no memory"),
    }
}

impl From<CliFault> for ClusterFault {
    fn from(fault: CliFault) -> ClusterFault {
        ClusterFault::Cli(fault)
    }
}

impl From<AllocError> for ClusterFault {
    fn from(_refused: AllocError) -> ClusterFault {
        ClusterFault::Cli(CliFault::NoMemory)
    }
}

/// The end of a command. A fault of the cluster is told on the standard error, and gives the status.
pub fn end_of_command(rt: &HostRuntime, ended: Result<u8, ClusterFault>) -> Result<u8, CliFault> {
    match ended {
        Ok(status) => Ok(status),
        Err(ClusterFault::Cli(fault)) => Err(fault),
        Err(fault) => {
            let _ = eprintln!(rt; "fault: {fault}");
            Ok(fault.status())
        }
    }
}
