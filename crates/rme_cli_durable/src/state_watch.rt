//! What a server looks after beside its sessions: whether the state is still its own, and faults of its storage.

use rme_cli_messages::Stderr;
use rme_durable_file::StateName;
use std::fs;

/// What a durable server looks after beside its sessions, each second and at its end.
pub trait StateWatch {
    /// Whether the state is no more this server's, as far as can be told without its log. Then nothing may be answered.
    fn is_lost(&self, rt: &HostRuntime) -> bool;

    /// Whether the server asks its log each second whether it is still its own.
    fn asks_log(&self) -> bool;

    /// Reports on the standard error what was noted since the last report. The calling thread must hold no lock.
    fn tell(&self, rt: &HostRuntime, stderr: &Stderr<'_>);

    /// Reports on the standard error why the server ends, once an event could not be logged.
    fn tell_end(&self, rt: &HostRuntime, stderr: &Stderr<'_>);

    /// The bytes of the state's storage; 0 if they can't be told.
    fn bytes(&self, rt: &HostRuntime) -> u64;
}

/// A state in a file: it must keep its name.
impl StateWatch for StateName {
    fn is_lost(&self, rt: &HostRuntime) -> bool {
        self.check_name(rt)
    }

    /// It has the lock of the file.
    fn asks_log(&self) -> bool {
        false
    }

    fn tell(&self, rt: &HostRuntime, stderr: &Stderr<'_>) {
        StateName::tell(self, rt, stderr);
    }

    fn tell_end(&self, rt: &HostRuntime, stderr: &Stderr<'_>) {
        StateName::tell(self, rt, stderr);
    }

    fn bytes(&self, rt: &HostRuntime) -> u64 {
        match fs::metadata(rt, self.path()) {
            Ok(found) => found.len(),
            Err(_) => 0,
        }
    }
}
