//! Where a state lies, as its store uses it.

use crate::cause::Cause;
use crate::contents::ContentsError;
use std::alloc::Global;
use std::io;

/// Why the lines of a file are not read.
#[derive(Drop)]
pub enum FileReadError {
    System(io::Error),
    Contents(ContentsError),
}

/// What keeps the lines of a state, under a name at which recovery reads them: a file on a disk, locked for this process,
/// or a log that other servers may take over. In contracts it is the lines that recovery reads, where an implementation
/// tells them: the store and the start of a server are proved over any storage that does. How it keeps them is the
/// implementation's.
///
/// A storage is shared if another process may write to it while this value lives. Then each append asks it whether its
/// lines are still those of this value.
pub trait StateStorage: Drop {
    ghost use Rattle.std.specs.Prelude.{◌≡◌, ℕ, Bool, IfOk, List, OnErr, OnOk, Option};
    ghost use Rattle.rme_durable_log.specs.StoreCalls.{barriers_after};
    ghost use Rattle.rme_durable_file.specs.DiskFiles.{AppendsPartToFile, AppendsToFile};
    ghost use Rattle.rme_durable_file.specs.DiskFiles.{AreFileBytes, CutsFile, ReplacesFile};

    // The lines that recovery reads, if they are known.
    ghost contents: { Self → Option (List ℕ) };

    // Whether the storage is shared.
    ghost shared: { Bool };

    // How many appends asked a shared storage whether its lines were still those of this value, and they were.
    ghost barriers: { Self → ℕ };

    /// All lines of the storage, which may end with a torn one.
    fn read_all(&mut self, alloc: Global) -> Result<Vec<u8>, FileReadError>
        ensures found { IfOk result (λ found. AreFileBytes (contents self.old) found.items) }
        ensures same { contents self.new ≡ contents self.old }
        ensures barriers { barriers self.new ≡ barriers self.old };

    /// The number, among all lines that the storage holds, of the line with this number among those that recovery reads,
    /// both counted from 1; the same number if that is not known.
    fn line_in_file(&self, alloc: Global, line: u64) -> u64;

    /// Prepares a storage that was read, and is a state, for appends, and cuts its lines to `length` bytes. For a file
    /// it removes the leftover file of a server that was killed at a checkpoint, and syncs the folder if appends wait
    /// for the disk, since that server may not have done so.
    fn begin(&mut self, length: usize, syncs: bool) -> io::Result<()>
        ensures cut { OnOk result (CutsFile (contents self.old) length (contents self.new)) }
        ensures barriers { barriers self.new ≡ barriers self.old };

    /// Appends lines, and waits for the disk if `syncs`. A shared storage has answered only if its lines were those of
    /// this value at some moment of the call; without lines the call asks only that.
    fn append(&mut self, lines: &[u8], syncs: bool) -> io::Result<()>
        ensures kept { OnOk result (AppendsToFile (contents self.old) lines.now (contents self.new)) }
        ensures part { OnErr result (AppendsPartToFile (contents self.old) lines.now (contents self.new)) }
        ensures asked { OnOk result (barriers self.new ≡ barriers_after shared (barriers self.old)) }
        ensures unasked { OnErr result (barriers self.new ≡ barriers self.old) };

    /// Replaces all lines by these. After an error the lines are as they were.
    ///
    /// If a new file has the name, and the sync of its folder fails, the answer is the cause, and no error: recovery
    /// reads these bytes, or, after a stop of the machine, perhaps the old file.
    ///
    /// `NameLost` if the name was found to be another file's: nothing more may be written, since no recovery would find
    /// it.
    fn replace(&mut self, bytes: &[u8]) -> Result<Option<Cause>, Cause>
        ensures replaced { OnOk result (ReplacesFile (contents self.old) bytes.now (contents self.new)) }
        ensures same { OnErr result (contents self.new ≡ contents self.old) }
        ensures barriers { barriers self.new ≡ barriers self.old };

    /// Whether the storage is shared.
    fn is_shared(&self) -> bool
        ensures { result ≡ shared };

    /// How many appends asked a shared storage; 0 for one that is not shared.
    fn asked(&self) -> u64
        ensures { result ≡ barriers self.now };
}
