//! The engine that keeps a log.

use crate::head::Head;
use std::alloc::Global;

/// What a conditional call found.
#[derive(Drop)]
pub enum Added {
    /// The log had the head that the caller saw, and the call was made.
    Made,
    /// The log has this head, which is another one, and nothing was changed.
    Moved(Head),
}

/// No answer came within the call's deadline: it was made or not, and may be repeated.
#[derive(Clone, Copy, Debug, PartialEq, Eq)]
pub struct Lost;

/// An engine that keeps a log with a head, and changes it only where the head is the one that the caller saw. Each call
/// has a deadline.
///
/// In contracts it is the log at the moment of the last call, where an implementation tells it. What other writers did
/// since then is part of what the next call changes.
pub trait LogEngine: Drop {
    ghost use Rattle.std.specs.Prelude.{◌≡◌, IfErr, IfOk, IsTrue, Option, MatchResult};
    ghost use Rattle.rme_replica.specs.EngineLogs.{EngineLog, HasHead, HasPartsBefore, IsNextHead};
    ghost use Rattle.rme_replica.specs.EngineLogs.{KeepsHead, LosesAdd, LosesPart, ReadsLog};
    ghost use Rattle.rme_replica.specs.Answers.{AnswersAdd, AnswersPart};

    // The log, if it is known.
    ghost log: { Self → Option EngineLog };

    /// The head, and the bytes of the records that it names.
    fn read(&mut self, alloc: Global) -> Result<(Head, Vec<u8>), Lost>
        ensures { IfOk result (λ found. ReadsLog (log self.new) found.0 found.1.items) };

    /// Puts the next head and one more record with these lines, if the log has the head that the caller saw. In the
    /// next epoch the record comes behind the parts that were staged for it and that the next head names.
    fn add(&mut self, seen: &Head, next: &Head, lines: &[u8]) -> Result<Added, Lost>
        requires next { IsNextHead seen.now next.now }
        ensures answered { IfOk result (AnswersAdd seen.now next.now lines.now (log self.old) (log self.new)) }
        ensures lost { IfErr result (λ _. LosesAdd seen.now next.now lines.now (log self.old) (log self.new)) };

    /// Stages a part for the next epoch, if the log has the head that the caller saw. No head names it yet.
    fn stage(&mut self, seen: &Head, part: u64, bytes: &[u8]) -> Result<Added, Lost>
        requires before { HasPartsBefore seen.now part (log self.old) }
        ensures answered { IfOk result (AnswersPart seen.now part bytes.now (log self.old) (log self.new)) }
        ensures lost { IfErr result (λ _. LosesPart seen.now part bytes.now (log self.old) (log self.new)) };

    /// Whether the log has this head, at some moment of this call.
    fn is(&mut self, seen: &Head) -> Result<bool, Lost>
        ensures has { IfOk result (λ is. IsTrue is → HasHead (log self.new) seen.now) }
        ensures kept { KeepsHead seen.now (log self.old) (log self.new) };

    /// Tells those who wait that the writer of this head still runs. Answers what `is` does.
    fn beat(&mut self, seen: &Head) -> Result<bool, Lost>
        ensures has { IfOk result (λ is. IsTrue is → HasHead (log self.new) seen.now) }
        ensures kept { KeepsHead seen.now (log self.old) (log self.new) };
}
