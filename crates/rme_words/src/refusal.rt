//! The reason of a refused call.

ghost use Rattle.std.specs.Prelude.{◌≡◌};
ghost use Rattle.rme_words.specs.Refusals.{refusal_code, refusal_name};

use std::alloc::AllocError;

/// The reason of a refused call. A refused call changes nothing.
#[derive(Clone, Copy, Debug, PartialEq, Eq)]
pub enum Refusal {
    /// The line is no command.
    BadLine,
    /// The line has more than 65,536 bytes without its newline.
    LineTooLong,
    /// No world is open.
    NotOpen,
    /// A world is open already.
    AlreadyOpen,
    /// A number or a name is outside the limits.
    BadShape,
    /// There is no such worker.
    NoWorker,
    /// The worker is down.
    Down,
    /// The worker is up, so it can't be restarted.
    Up,
    /// The worker is not ready.
    Busy,
    /// The worker is ready and has no job.
    Idle,
    /// There is no such lock.
    NoLock,
    /// The script has more than eight operations.
    BadScript,
    /// The script names a cell that the lock doesn't have.
    NoCell,
    /// The worker has begun all the jobs that the shape allows.
    TooManyJobs,
    /// The image is not valid.
    BadImage,
    /// A session's number is neither the last nor the next; the next one is in the answer.
    WrongNumber(u64),
    /// Another lock or script came under a pending number.
    Differs,
    /// Another session has the worker: its slot is empty.
    Taken,
    /// The session has no worker.
    NotAttached,
    /// Memory was refused.
    NoMemory,
    /// The worker is not waiting for a lock.
    NotWaiting,
    /// The session's worker has a job and is not inside its lock.
    NotInside,
    /// There is no such space.
    NoSpace,
    /// A space of that name has other workers, cells or locks.
    SpaceDiffers,
    /// The session has no key for this call.
    NotAllowed,
    /// The worker was restarted since the life that the caller named.
    Overtaken,
}

/// Memory was refused, and nothing changed.
#[derive(Clone, Copy, Debug, PartialEq, Eq)]
pub struct NoMemory;

impl From<AllocError> for NoMemory {
    ghost use Rattle.std.specs.Prelude.{◌≡◌};

    ghost from_gives = { λ _ r. r ≡ record {} };

    fn from(_value: AllocError) -> NoMemory {
        NoMemory
    }
}

impl From<NoMemory> for Refusal {
    ghost use Rattle.std.specs.Prelude.{◌≡◌};
    ghost use Rattle.rme_words.specs.declared.refusal.Refusal.{Refusal};

    ghost from_gives = { λ _ r. r ≡ Refusal.NoMemory };

    fn from(_value: NoMemory) -> Refusal {
        Refusal::NoMemory
    }
}

impl Refusal {
    /// The number of the refusal in answers, 1 to 26.
    pub fn code(&self) -> u32
        ensures { result ≡ refusal_code self.now }
    {
        match self {
            Refusal::BadLine => 1,
            Refusal::LineTooLong => 2,
            Refusal::NotOpen => 3,
            Refusal::AlreadyOpen => 4,
            Refusal::BadShape => 5,
            Refusal::NoWorker => 6,
            Refusal::Down => 7,
            Refusal::Up => 8,
            Refusal::Busy => 9,
            Refusal::Idle => 10,
            Refusal::NoLock => 11,
            Refusal::BadScript => 12,
            Refusal::NoCell => 13,
            Refusal::TooManyJobs => 14,
            Refusal::BadImage => 15,
            Refusal::WrongNumber(_) => 16,
            Refusal::Differs => 17,
            Refusal::Taken => 18,
            Refusal::NotAttached => 19,
            Refusal::NoMemory => 20,
            Refusal::NotWaiting => 21,
            Refusal::NotInside => 22,
            Refusal::NoSpace => 23,
            Refusal::SpaceDiffers => 24,
            Refusal::NotAllowed => 25,
            Refusal::Overtaken => 26,
        }
    }

    /// The name of the refusal in answers.
    pub fn name(&self) -> &'static str
        ensures { result.now ≡ refusal_name self.now }
    {
        match self {
            Refusal::BadLine => "BadLine",
            Refusal::LineTooLong => "LineTooLong",
            Refusal::NotOpen => "NotOpen",
            Refusal::AlreadyOpen => "AlreadyOpen",
            Refusal::BadShape => "BadShape",
            Refusal::NoWorker => "NoWorker",
            Refusal::Down => "Down",
            Refusal::Up => "Up",
            Refusal::Busy => "Busy",
            Refusal::Idle => "Idle",
            Refusal::NoLock => "NoLock",
            Refusal::BadScript => "BadScript",
            Refusal::NoCell => "NoCell",
            Refusal::TooManyJobs => "TooManyJobs",
            Refusal::BadImage => "BadImage",
            Refusal::WrongNumber(_) => "WrongNumber",
            Refusal::Differs => "Differs",
            Refusal::Taken => "Taken",
            Refusal::NotAttached => "NotAttached",
            Refusal::NoMemory => "NoMemory",
            Refusal::NotWaiting => "NotWaiting",
            Refusal::NotInside => "NotInside",
            Refusal::NoSpace => "NoSpace",
            Refusal::SpaceDiffers => "SpaceDiffers",
            Refusal::NotAllowed => "NotAllowed",
            Refusal::Overtaken => "Overtaken",
        }
    }
}
