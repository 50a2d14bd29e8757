//! Why a call failed.

use rme_etcd_requests::AnswerFault;
use std::alloc::AllocError;
use std::io;

/// Why the last try of a call failed.
#[derive(Clone, Copy, Debug, Drop, PartialEq, Eq)]
pub enum EtcdFault {
    /// No whole answer came in time.
    Unreachable,
    /// The answer is not one that etcd gives.
    BadAnswer,
    /// The answer has this status of HTTP, other than 200, and no reason that has a name here.
    Refused(u16),
    /// The quota of the cluster's storage is used up.
    NoSpace,
    /// The user, the password or the token was refused.
    NotAllowed,
    /// There is no log of this name.
    NoLog,
    /// A record that the head names is not there.
    Gap,
    /// Memory was not enough.
    OutOfMemory,
}

impl From<AllocError> for EtcdFault {
    fn from(_error: AllocError) -> EtcdFault {
        EtcdFault::OutOfMemory
    }
}

impl From<io::Error> for EtcdFault {
    fn from(_error: io::Error) -> EtcdFault {
        EtcdFault::Unreachable
    }
}

impl From<AnswerFault> for EtcdFault {
    fn from(fault: AnswerFault) -> EtcdFault {
        match fault {
            AnswerFault::OutOfMemory => EtcdFault::OutOfMemory,
            AnswerFault::NotRead => EtcdFault::BadAnswer,
        }
    }
}
