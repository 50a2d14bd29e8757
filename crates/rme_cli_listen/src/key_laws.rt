//! What callers know of the keys of a file.

ghost use Rattle.std.specs.Prelude.{IfOk};
ghost use Rattle.rme_cli_listen.specs.FileKeys.{AreOfText};
ghost use Rattle.rme_session_keys.specs.KeyedAnswers.{FoundKey};

use crate::keys_file::KeysFile;
use rme_keys::Key;
use rme_session_keys::KeySource;
use rme_words::NoMemory;
use std::sync::Wait;

/// THE KEY OF A SECRET IS OF A TEXT: it is one of the keys of the lines of a text. No contract says that the file had
/// this text. `None` if no key is for the secret; `NoMemory` if memory was refused.
pub fn key_is_of_text<R: Wait>(
    rt: &R,
    keys: &KeysFile<'_>,
    secret: &str,
) -> Result<Option<Key>, NoMemory>
    ensures { IfOk result (FoundKey AreOfText secret.now) }
{
    keys.find(rt, secret)
}
