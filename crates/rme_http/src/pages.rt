//! What a server shows over HTTP.

use rme_words::NoMemory;
use std::sync::Wait;
use std::time::Clock;

/// What a server shows over HTTP. Connections share it.
pub trait Pages {
    ghost use Rattle.std.specs.Prelude.{IfOk, IfSome, List, Option, string_bytes, ℕ};
    ghost use Rattle.std.specs.Option.{option_copied};

    // The texts of the metrics, of this space or of the whole server, at some moment.
    ghost metrics_texts: { Self → Option (List ℕ) → List ℕ → Type 0 };

    // The same of the status.
    ghost status_texts: { Self → Option (List ℕ) → List ℕ → Type 0 };

    /// The metrics of this space, or of the whole server, in Prometheus' format; `None` if it has none.
    fn metrics<R: Wait + Clock>(
        &self,
        rt: &R,
        space: Option<&[u8]>,
    ) -> Result<Option<String>, NoMemory>
        ensures { IfOk result (λ found. IfSome found (λ text.
            metrics_texts self.now (option_copied space.entry) (string_bytes text))) };

    /// The status of this space, or of the whole server, in JSON; `None` if it has none.
    fn status<R: Wait + Clock>(
        &self,
        rt: &R,
        space: Option<&[u8]>,
    ) -> Result<Option<String>, NoMemory>
        ensures { IfOk result (λ found. IfSome found (λ text.
            status_texts self.now (option_copied space.entry) (string_bytes text))) };

    /// Whether there is a page, which shows the status.
    fn has_page(&self) -> bool;

    /// Whether orders are answered.
    fn is_healthy<R: Wait + Clock>(&self, rt: &R) -> bool;
}
