//! A key, and what it allows.

ghost use Rattle.std.specs.Prelude.{◌≡◌, ◌↔◌, ◌<◌, ℕ, IfOk, IsTrue};
ghost use Rattle.std.specs.Option.{option_copied};
ghost use Rattle.rme_keys.specs.Allowing.{AllowsSpace, AllowsWorker, FindsKey, IsCopy, MayCreate, name_of};

use crate::digests::{DIGEST_LENGTH, same_digest};
use crate::spaces::{SpacePattern, cover_name, is_space_name};
use crate::workers::{WorkerRange, have_worker};
use std::alloc::{AllocError, Global};

/// What the holder of a secret may do at a server.
#[derive(Drop)]
pub struct Key {
    pub(crate) name: String,
    pub(crate) digest: [u8; DIGEST_LENGTH],
    pub(crate) workers: Vec<WorkerRange>,
    pub(crate) spaces: Vec<SpacePattern>,
    pub(crate) may_create: bool,
}

impl Key {
    /// A copy of the key. A session keeps it while the server replaces its keys. `AllocError` if memory was refused.
    pub fn copied(&self, alloc: Global) -> Result<Key, AllocError>
        ensures { IfOk result (IsCopy self.now) }
    {
        let name = String::from_str(alloc, self.name.as_str())?;
        let workers = Vec::from_slice(alloc, self.workers.as_slice())?;
        let spaces = Vec::from_clones(alloc, self.spaces.as_slice())?;
        Ok(Key {
            name,
            digest: self.digest,
            workers,
            spaces,
            may_create: self.may_create,
        })
    }

    /// The name, for records and messages.
    pub fn name(&self) -> &str
        ensures { result.now ≡ name_of self.now }
    {
        self.name.as_str()
    }

    /// Whether the worker with this number may be attached.
    pub fn allows_worker(&self, worker: u32) -> bool
        ensures { IsTrue result ↔ AllowsWorker self.now worker }
    {
        have_worker(self.workers.as_slice(), worker)
    }

    /// Whether each worker with a number below `count` may be attached. Then a server with `count` workers may choose.
    pub fn allows_workers_below(&self, count: u32) -> bool
        ensures { IsTrue result ↔ ((worker : ℕ) → worker < count → AllowsWorker self.now worker) }
    {
        for worker in 0..count {
            if !self.allows_worker(worker) {
                return false;
            }
        }
        true
    }

    /// Whether the space with this name may be used. A name is 1 to 64 bytes of `a` to `z`, `0` to `9`, `_` and `-`. No
    /// other text names a space.
    pub fn allows_space(&self, space: &str) -> bool
        ensures { IsTrue result ↔ AllowsSpace self.now space.now }
    {
        let name = space.as_bytes();
        if !is_space_name(name) {
            return false;
        }
        cover_name(self.spaces.as_slice(), name)
    }

    /// Whether the spaces that may be used may also be created and dropped.
    pub fn may_create(&self) -> bool
        ensures { IsTrue result ↔ MayCreate self.now }
    {
        self.may_create
    }
}

/// A key with this digest. Each digest is compared as a whole, so that the time does not depend on the bytes.
pub(crate) fn key_of_digest<'a>(keys: &'a [Key], digest: &[u8; DIGEST_LENGTH]) -> Option<&'a Key>
    ensures { FindsKey keys.now digest.now (option_copied result) }
{
    let mut found = None;
    for key in keys {
        if same_digest(&key.digest, digest) {
            found = Some(key);
        }
    }
    found
}
