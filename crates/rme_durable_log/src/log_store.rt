//! The store of a log.

/// A store of bytes that survives the process. It is fail-stop: after a failed append it takes no more lines.
///
/// A store is shared if another process may write to it while this value lives. Then only the store itself knows whether
/// its bytes are still those of this value, and each append asks it. A file under a lock is not shared.
pub trait LogStore: Drop {
    ghost use Rattle.std.specs.Prelude.{◌≡◌, Bool, OnOk, OnErr, true};
    ghost use Rattle.rme_durable_log.specs.StoreCalls.{AppendsLines, FailsToAppend, ReplacesBytes, StopsStore, StoreState};

    // The state of the store: the bytes that recovery reads, if they are known, and whether it still takes lines.
    ghost holds: { Self → StoreState };

    // Whether the store is shared.
    ghost shared: { Bool };

    /// Appends these lines to the earlier bytes. Once it has answered, recovery reads them, whatever happens to the
    /// process. After an error the store takes no more lines.
    ///
    /// A shared store has answered only if its bytes were those of this value at some moment of the call, and no other
    /// process had written. Without lines the call asks only that.
    fn append(&mut self, lines: &[u8]) -> Result<(), NotDurable>
        requires works { (holds self.old).works ≡ true }
        ensures kept { OnOk result (AppendsLines shared (holds self.old) lines.now (holds self.new)) }
        ensures part { OnErr result (FailsToAppend (holds self.old) lines.now (holds self.new)) };

    /// Replaces all bytes: recovery reads either all earlier bytes or these, whatever happens to the process or the
    /// machine. After an error the earlier bytes are still stored, and lines can still be appended to them.
    fn replace(&mut self, bytes: &[u8]) -> Result<(), NotDurable>
        requires works { (holds self.old).works ≡ true }
        ensures replaced { OnOk result (ReplacesBytes (holds self.old) bytes.now (holds self.new)) }
        ensures same { OnErr result (holds self.new ≡ holds self.old) };

    /// Whether storing lines takes no longer than waking another thread for it: then the thread that appends lines
    /// stores them at once.
    fn is_quick(&self) -> bool;

    /// Whether the store is shared.
    fn is_shared(&self) -> bool
        ensures { result ≡ shared };

    /// An event could not be written as a line: the store takes no more lines.
    fn fail(&mut self)
        ensures stops { StopsStore (holds self.old) (holds self.new) };
}

/// Lines could not be stored. Then nothing that depends on them is answered.
#[derive(Clone, Copy, Debug, PartialEq, Eq)]
pub struct NotDurable;
