//! A file of keys, which is read again when it has changed.

ghost use Rattle.std.specs.Prelude.{IfOk};
ghost use Rattle.rme_keys.specs.Allowing.{keys_of};
ghost use Rattle.rme_cli_listen.specs.FileKeys.{AreOfText};
ghost use Rattle.rme_session_keys.specs.KeyedAnswers.{FoundKey};

use crate::keys_fault::KeysFault;
use rme_cli_messages::Stderr;
use rme_keys::{Key, Keys};
use rme_session_keys::KeySource;
use rme_words::NoMemory;
use std::alloc::Global;
use std::fs::{File, Metadata};
use std::io::Read;
use std::os::unix::fs::MetadataExt;
use std::sync::{Mutex, Wait};
use std::{fs, io};

/// The bits of a file's mode that let other users read or write it.
const OPEN_TO_OTHERS: u32 = 0o006;

/// The keys of a server, from a file.
///
/// When a session begins and the file has changed since it was read, it is read again. A file that cannot be used then
/// leaves the keys as they were, which is told on the standard error.
#[derive(Drop)]
pub struct KeysFile<'a> {
    rt: &'a HostRuntime,
    path: String,
    stderr: Stderr<'a>,
    loaded: Mutex<LoadedKeys>,
}

/// The keys of a file, and the file's version when they were read. They are the keys of a text, also after a change that
/// could not be used.
#[derive(Drop)]
struct LoadedKeys {
    keys: Keys,
    version: Option<FileVersion>,
    ghost of_text: { AreOfText (keys_of keys) },
}

/// What tells the versions of a file apart.
#[derive(Clone, Copy, PartialEq, Eq)]
struct FileVersion {
    inode: u64,
    length: u64,
    seconds: i64,
    nanoseconds: i64,
}

impl FileVersion {
    fn of(found: &Metadata) -> FileVersion {
        FileVersion {
            inode: found.ino(),
            length: found.len(),
            seconds: found.mtime(),
            nanoseconds: found.mtime_nsec(),
        }
    }
}

impl<'a> KeysFile<'a> {
    /// Reads the keys of the file of this path. An error if it cannot be read, if other users can read or write it, or
    /// if one of its lines is no key.
    pub fn open(rt: &'a HostRuntime, path: String) -> Result<KeysFile<'a>, KeysFault> {
        let loaded = read_keys(rt, path.as_str())?;
        Ok(KeysFile {
            rt,
            path,
            stderr: Stderr::new(rt),
            loaded: Mutex::new(loaded),
        })
    }

    /// Reads the file again if it has changed since.
    fn refresh(&self, loaded: &mut LoadedKeys) {
        let version = version_of(self.rt, self.path.as_str());
        if version == loaded.version {
            return;
        }
        match read_keys(self.rt, self.path.as_str()) {
            Ok(read) => *loaded = read,
            Err(why) => {
                loaded.version = version;
                self.tell_unchanged(&why);
            }
        }
    }

    /// Tells that the changed file cannot be used.
    fn tell_unchanged(&self, why: &KeysFault) {
        let path = self.path.as_str();
        let text = format!(in self.rt.alloc();
            "rme: the keys stay as they were, since {path:?} cannot be used: {why}\n"
        );
        self.stderr.tell(text);
    }
}

impl KeySource for KeysFile<'_> {
    ghost use Rattle.rme_cli_listen.specs.FileKeys.{AreOfText};

    ghost had = { λ _. AreOfText };

    fn find<R: Wait>(&self, rt: &R, secret: &str) -> Result<Option<Key>, NoMemory> {
        let mut loaded = self.loaded.lock(rt);
        self.refresh(&mut loaded);
        found_in(self.rt.alloc(), &loaded, secret)
    }
}

/// A copy of the key of a secret; `None` if no key is for the secret.
fn found_in(alloc: Global, loaded: &LoadedKeys, secret: &str) -> Result<Option<Key>, NoMemory>
    ensures { IfOk result (FoundKey AreOfText secret.now) }
{
    match loaded.keys.find(secret) {
        Some(key) => match key.copied(alloc) {
            Ok(key) => Ok(Some(key)),
            Err(_) => Err(NoMemory),
        },
        None => Ok(None),
    }
}

/// The version of the file at this path. `None` if no file is there.
fn version_of(rt: &HostRuntime, path: &str) -> Option<FileVersion> {
    match fs::metadata(rt, path) {
        Ok(found) => Some(FileVersion::of(&found)),
        Err(_) => None,
    }
}

/// Reads the keys of the file of this path.
fn read_keys(rt: &HostRuntime, path: &str) -> Result<LoadedKeys, KeysFault> {
    // A pipe is not opened: that would wait for its writer.
    if !fs::metadata(rt, path)?.is_file() {
        return Err(KeysFault::NoFile);
    }
    let mut file = File::open(rt, path)?;
    let found = file.metadata()?;
    if !found.is_file() {
        return Err(KeysFault::NoFile);
    }
    if found.mode() & OPEN_TO_OTHERS != 0 {
        return Err(KeysFault::OpenToOthers);
    }
    let mut bytes = Vec::new(rt.alloc());
    file.read_to_end(&mut bytes)?;
    Ok(LoadedKeys {
        keys: Keys::parse(rt.alloc(), bytes.as_slice())?,
        version: Some(FileVersion::of(&found)),
    })
}
