//! Where the keys of a server come from.

use rme_keys::Key;
use rme_words::NoMemory;
use std::sync::Wait;

/// The keys of a server, which may be replaced by others while it runs.
pub trait KeySource {
    ghost use Rattle.std.specs.Prelude.{IfOk, List, ℕ};
    ghost use Rattle.rme_session_keys.specs.KeyedAnswers.{FoundKey};
    ghost use Rattle.rme_keys.specs.declared.key.Key.{Key};

    // These are keys that it had at some time.
    ghost had: { Self → List Key → Type 0 };

    /// The key of a secret among the keys that it has now; `None` if no key is for the secret. `NoMemory` if memory was
    /// refused.
    fn find<R: Wait>(&self, rt: &R, secret: &str) -> Result<Option<Key>, NoMemory>
        ensures { IfOk result (FoundKey (had self.now) secret.now) };
}
