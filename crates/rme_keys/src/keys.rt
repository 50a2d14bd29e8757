//! The keys of a file.

ghost use Rattle.std.specs.Prelude.{IfErr, IfOk, map};
ghost use Rattle.std.specs.Option.{option_copied};
ghost use Rattle.sha2.specs.Sha256.{sha256};
ghost use Rattle.rme_keys.specs.Allowing.{FindsKey, keys_of};
ghost use Rattle.rme_keys.specs.KeyFiles.{IsKeyFile, IsWhyRefused, file_lines};

use crate::faults::KeyFileError;
use crate::key::{Key, key_of_digest};
use crate::key_lines::add_line;
use crate::pieces::pieces_of;
use sha2::{Digest, Sha256};
use std::alloc::Global;

/// The keys of a file. No two have the same name or the same digest.
#[derive(Drop)]
pub struct Keys {
    keys: Vec<Key>,
}

impl Keys {
    /// Reads a file of keys.
    ///
    /// A line is `NAME SHA256 WORKERS [SPACES]`. Spaces or tabs separate the words. `#` begins a comment. A line
    /// without words is skipped.
    ///
    /// - `NAME` is UTF-8. No two keys have the same name.
    /// - `SHA256` is the SHA-256 of the secret in 64 hexadecimal digits. No two keys have the same one.
    /// - `WORKERS` are the workers that may be attached, with numbers from 0 to 255: as `0-3,7`, or `*` for all, or `-`
    ///   for none.
    /// - `SPACES` are the spaces that may be used, by names and by prefixes that end with `*`: as `tenant-7,team-*`. `*`
    ///   stands for all, also where the word is missing. With `+` in front, the spaces may also be created and dropped.
    ///
    /// `BadLine` names the first line that is not of this form. `NoMemory` means that memory was refused.
    pub fn parse(alloc: Global, bytes: &[u8]) -> Result<Keys, KeyFileError>
        ensures ok { IfOk result (λ keys. IsKeyFile (file_lines bytes.now) (keys_of keys)) }
        ensures err { IfErr result (IsWhyRefused (file_lines bytes.now)) }
    {
        let lines = pieces_of(alloc, bytes, b'\n')?;
        match keys_of_lines(alloc, lines.as_slice()) {
            Ok(keys) => Ok(Keys { keys }),
            Err(error) => Err(error),
        }
    }

    /// The key with the SHA-256 of this secret. `None` if no key has it.
    ///
    /// Each byte of each key's digest is compared. So the time depends on the number of keys and on the length of the
    /// secret, and not on the bytes.
    pub fn find(&self, secret: &str) -> Option<&Key>
        ensures { FindsKey (keys_of self.now) (sha256 secret.now) (option_copied result) }
    {
        let digest = Sha256::digest(secret.as_bytes());
        key_of_digest(self.keys.as_slice(), &digest)
    }
}

/// The keys of lines.
fn keys_of_lines(alloc: Global, lines: &[&[u8]]) -> Result<Vec<Key>, KeyFileError>
    ensures ok { IfOk result (λ keys. IsKeyFile (map (λ line. line.now) lines.now) keys.items) }
    ensures err { IfErr result (IsWhyRefused (map (λ line. line.now) lines.now)) }
{
    let mut keys = Vec::new(alloc);
    for (index, line) in lines.iter().enumerate() {
        match add_line(alloc, line, &mut keys) {
            Ok(()) => {}
            Err(error) => return Err(error.at_line(index as u64 + 1)),
        }
    }
    Ok(keys)
}
