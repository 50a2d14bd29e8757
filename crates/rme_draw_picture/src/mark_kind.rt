//! The kinds of events, and their words in a picture.

/// An event of a worker. The numbers are those of its jobs.
#[derive(Clone, Copy)]
pub enum MarkKind {
    Submit(u32),
    Crash,
    Restart,
    Withdraw,
    Asked(u32),
    /// The worker that blocks it, if that is known.
    Blocked(Option<u32>),
    Entered,
    Reentered,
    Finished(u32),
    Left,
    Ready,
    Withdrew(u32),
}

/// The words for an event, and the number of a job after them, if they have one.
pub fn words_of_mark(kind: MarkKind) -> (&'static str, Option<u32>) {
    match kind {
        MarkKind::Submit(number) => ("submit ", Some(number)),
        MarkKind::Crash => ("crash", None),
        MarkKind::Restart => ("restart", None),
        MarkKind::Withdraw => ("withdraw", None),
        MarkKind::Asked(number) => ("asked ", Some(number)),
        MarkKind::Blocked(_) => ("blocked", None),
        MarkKind::Entered => ("entered", None),
        MarkKind::Reentered => ("re-entered", None),
        MarkKind::Finished(number) => ("finished ", Some(number)),
        MarkKind::Left => ("left", None),
        MarkKind::Ready => ("ready", None),
        MarkKind::Withdrew(number) => ("withdrew ", Some(number)),
    }
}
