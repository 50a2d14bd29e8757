//! The authors of a log.

use crate::log_rule::LogTag;
use std::marker::{Model, PhantomData};

/// The right to append lines as one author of a log. It is not `Copy`: lines by an author are appended only where its
/// value is. In contracts it is the author's number.
#[derive(Drop)]
pub struct LogAuthor<J: LogTag> {
    number: u64,
    of: PhantomData<J>,
}

impl<J: LogTag> Model for LogAuthor<J> {
    ghost use Rattle.std.specs.Prelude.{ℕ};

    ghost Value = { ℕ };

    ghost view = { λ author. author.number };
}

impl<J: LogTag> LogAuthor<J> {
    ghost use Rattle.std.specs.Prelude.{◌≡◌};

    pub(crate) fn new(number: u64) -> LogAuthor<J>
        ensures { result ≡ number }
    {
        LogAuthor {
            number,
            of: PhantomData,
        }
    }

    /// The number.
    pub fn number(&self) -> u64
        ensures { result ≡ self.now }
    {
        self.number
    }
}
