//! A number of seconds, as people read it.

use std::fmt;

/// A number of seconds, by its two greatest units: `12s`, `3m12s`, `2h03m`, `4d01h`.
#[derive(Clone, Copy)]
pub(crate) struct Age {
    pub(crate) seconds: u64,
}

impl fmt::Display for Age {
    ghost use Rattle.std.specs.Prelude.{Some};
    ghost use Rattle.rme_cli_ask.specs.Ages.{age_text};

    ghost output = { λ age. Some (age_text age.seconds) };

    fn fmt<W: fmt::Write>(&self, f: &mut fmt::Formatter<W>) -> fmt::Result {
        let seconds = self.seconds;
        let minutes = seconds / 60;
        let hours = minutes / 60;
        let days = hours / 24;
        if minutes == 0 {
            write!(f, "{seconds}s")
        } else if hours == 0 {
            let rest = seconds % 60;
            write!(f, "{minutes}m{rest:02}s")
        } else if days == 0 {
            let rest = minutes % 60;
            write!(f, "{hours}h{rest:02}m")
        } else {
            let rest = hours % 24;
            write!(f, "{days}d{rest:02}h")
        }
    }
}
