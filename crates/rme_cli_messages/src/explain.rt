//! The meaning of each refusal, and what the caller should do.

ghost use Rattle.std.specs.Prelude.{◌≡◌, ◌≤◌, IfSome, IsSome};
ghost use Rattle.rme_words.specs.Refusals.{refusal_code};
ghost use Rattle.rme_cli_messages.specs.Explanations.{refusal_when, refusal_advice};

use crate::advice_texts;
use rme_words::Refusal;

/// The greatest number of a refusal.
pub const LAST_CODE: u32 = 26;

/// The refusal of a number, or `None` for a number outside 1 to `LAST_CODE`.
///
/// For `WrongNumber` it is the one that expects 1: the expected number does not affect the code.
pub fn refusal_of(code: u32) -> Option<Refusal>
    ensures some { IfSome result (λ refusal. refusal_code refusal ≡ code) }
    ensures listed { 1 ≤ code → code ≤ 26 → IsSome result }
{
    match code {
        1 => Some(Refusal::BadLine),
        2 => Some(Refusal::LineTooLong),
        3 => Some(Refusal::NotOpen),
        4 => Some(Refusal::AlreadyOpen),
        5 => Some(Refusal::BadShape),
        6 => Some(Refusal::NoWorker),
        7 => Some(Refusal::Down),
        8 => Some(Refusal::Up),
        9 => Some(Refusal::Busy),
        10 => Some(Refusal::Idle),
        11 => Some(Refusal::NoLock),
        12 => Some(Refusal::BadScript),
        13 => Some(Refusal::NoCell),
        14 => Some(Refusal::TooManyJobs),
        15 => Some(Refusal::BadImage),
        16 => Some(Refusal::WrongNumber(1)),
        17 => Some(Refusal::Differs),
        18 => Some(Refusal::Taken),
        19 => Some(Refusal::NotAttached),
        20 => Some(Refusal::NoMemory),
        21 => Some(Refusal::NotWaiting),
        22 => Some(Refusal::NotInside),
        23 => Some(Refusal::NoSpace),
        24 => Some(Refusal::SpaceDiffers),
        25 => Some(Refusal::NotAllowed),
        26 => Some(Refusal::Overtaken),
        _ => None,
    }
}

/// When a line has this refusal, in the words of the table of refusals.
pub fn refusal_when(refusal: &Refusal) -> &'static str
    ensures first { 1 ≤ refusal_code refusal.now }
    ensures last { refusal_code refusal.now ≤ 26 }
    ensures text { result.now ≡ refusal_when refusal.now }
{
    match refusal {
        Refusal::BadLine => "the line is no command",
        Refusal::LineTooLong => "the line has more than 65,536 bytes",
        Refusal::NotOpen => "no world is open",
        Refusal::AlreadyOpen => "open where a world is open",
        Refusal::BadShape => {
            "open with a number or a name outside the limits; load with a name outside them, or with more or fewer names than the image has locks"
        }
        Refusal::NoWorker => "there is no such worker",
        Refusal::Down => "the worker is down",
        Refusal::Up => "restart of a worker that is up",
        Refusal::Busy => "submit to a worker that is not ready",
        Refusal::Idle => "a step of a worker that is ready",
        Refusal::NoLock => "there is no lock of that name, whatever the name is",
        Refusal::BadScript => "the script has more than 8 operations",
        Refusal::NoCell => "an operation names a cell that the lock does not have",
        Refusal::TooManyJobs => "the worker has begun all its jobs",
        Refusal::BadImage => "load of what is no image, or no good one",
        Refusal::WrongNumber(_) =>
            "submit or enter of a session with a number that is neither the next nor the last",
        Refusal::Differs =>
            "submit or enter of a session with another lock or script than the pending job of its number",
        Refusal::Taken => "attach of a worker that another session has",
        Refusal::NotAttached => "an order of a session that has no worker",
        Refusal::NoMemory => "memory was refused",
        Refusal::NotWaiting => "withdraw of a worker that is up and does not wait in phase Enter",
        Refusal::NotInside => "commit of a worker whose job waits for its lock",
        Refusal::NoSpace => "there is no space of that name",
        Refusal::SpaceDiffers =>
            "create of a space that is there with other workers, cells or locks",
        Refusal::NotAllowed => "an order that no key of the session allows",
        Refusal::Overtaken => "attach with after of a worker that was restarted since then",
    }
}

/// The meaning of a refusal and what the caller should do, in two or three sentences.
pub fn refusal_advice(refusal: &Refusal) -> &'static str
    ensures { result.now ≡ refusal_advice refusal.now }
{
    match refusal {
        Refusal::BadLine => advice_texts::bad_line(),
        Refusal::LineTooLong => advice_texts::line_too_long(),
        Refusal::NotOpen => advice_texts::not_open(),
        Refusal::AlreadyOpen => advice_texts::already_open(),
        Refusal::BadShape => advice_texts::bad_shape(),
        Refusal::NoWorker => advice_texts::no_worker(),
        Refusal::Down => advice_texts::down(),
        Refusal::Up => advice_texts::up(),
        Refusal::Busy => advice_texts::busy(),
        Refusal::Idle => advice_texts::idle(),
        Refusal::NoLock => advice_texts::no_lock(),
        Refusal::BadScript => advice_texts::bad_script(),
        Refusal::NoCell => advice_texts::no_cell(),
        Refusal::TooManyJobs => advice_texts::too_many_jobs(),
        Refusal::BadImage => advice_texts::bad_image(),
        Refusal::WrongNumber(_) => advice_texts::wrong_number(),
        Refusal::Differs => advice_texts::differs(),
        Refusal::Taken => advice_texts::taken(),
        Refusal::NotAttached => advice_texts::not_attached(),
        Refusal::NoMemory => advice_texts::no_memory(),
        Refusal::NotWaiting => advice_texts::not_waiting(),
        Refusal::NotInside => advice_texts::not_inside(),
        Refusal::NoSpace => advice_texts::no_space(),
        Refusal::SpaceDiffers => advice_texts::space_differs(),
        Refusal::NotAllowed => advice_texts::not_allowed(),
        Refusal::Overtaken => advice_texts::overtaken(),
    }
}
