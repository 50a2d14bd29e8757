//! The keys of a server at its start.

ghost use Rattle.std.specs.Prelude.{◌≡◌, IfSome, false, is_some};

use crate::keys_file::KeysFile;
use rme_session_keys::KeyedBackend;
use rme_session_loop::Backend;

/// The exit status of a start whose file of keys is refused.
#[derive(Clone, Copy, Debug, PartialEq, Eq)]
pub struct RefusedKeys {
    status: u8,
}

impl RefusedKeys {
    /// The exit status of the program.
    pub fn status(self) -> u8 {
        self.status
    }
}

/// The keys of the file that was named, if one was. A file that cannot be used is told on the standard error.
pub fn open_keys<'a>(
    rt: &'a HostRuntime,
    path: Option<String>,
) -> Result<Option<KeysFile<'a>>, RefusedKeys> {
    let Some(path) = path else {
        return Ok(None);
    };
    match KeysFile::open(rt, path) {
        Ok(keys) => Ok(Some(keys)),
        Err(refused) => {
            let _ = eprintln!(rt; "rme: --keys: {refused}");
            Err(RefusedKeys {
                status: refused.exit_status(),
            })
        }
    }
}

/// The backend whose sessions begin with a secret, if there are keys. It has no orders on spaces.
pub fn keyed<'a, B: Backend>(
    keys: &'a Option<KeysFile<'a>>,
    backend: &'a B,
    workers: u32,
) -> Option<KeyedBackend<'a, B, KeysFile<'a>>>
    ensures has_keys { is_some result ≡ is_some keys.now }
    ensures backend { IfSome result (λ keyed. keyed.backend.now ≡ backend.now) }
    ensures workers { IfSome result (λ keyed. keyed.workers ≡ workers) }
    ensures spaces { IfSome result (λ keyed. keyed.has_spaces ≡ false) }
{
    match keys {
        Some(keys) => Some(KeyedBackend {
            backend,
            keys,
            names: backend.names(),
            workers,
            has_spaces: false,
        }),
        None => None,
    }
}
