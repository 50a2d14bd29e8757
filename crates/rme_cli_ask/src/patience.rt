//! How long to wait for a lock, in rounds.

/// The longest wait of one request, in milliseconds. Between two requests the server may find that this client is gone,
/// and the user is told the owner of the lock.
const ROUND: u32 = 5_000;

/// The milliseconds that are left of a wait; `None` for a wait without a limit.
#[derive(Clone, Copy)]
pub(crate) struct RemainingPatience {
    left: Option<u64>,
}

impl RemainingPatience {
    ghost use Rattle.std.specs.Prelude.{◌≡◌, ◌≤◌, ◌↔◌, IsTrue};
    ghost use Rattle.rme_cli_ask.specs.Waits.{milliseconds, milliseconds_after, milliseconds_left, round_of};

    /// A wait of this number of seconds; `None` for a wait without a limit.
    pub(crate) fn of(seconds: Option<u32>) -> RemainingPatience
        ensures { milliseconds_left result ≡ milliseconds seconds }
    {
        let left = match seconds {
            Some(seconds) => Some(u64::from(seconds) * 1_000),
            None => None,
        };
        RemainingPatience { left }
    }

    /// The milliseconds of the next round, which are no longer left.
    pub(crate) fn next_round(&mut self) -> u32
        ensures round { result ≡ round_of (milliseconds_left self.old) }
        ensures spent { milliseconds_left self.new ≡ milliseconds_after result (milliseconds_left self.old) }
        ensures bound { result ≤ 5000 }
    {
        let Some(left) = self.left else {
            return ROUND;
        };
        let round = left.min(u64::from(ROUND));
        self.left = Some(left - round);
        round as u32
    }

    /// Whether no time is left.
    pub(crate) fn is_over(self) -> bool
        ensures { IsTrue result ↔ (milliseconds_left self ≡ Some 0) }
    {
        self.left == Some(0)
    }
}
