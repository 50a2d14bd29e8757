//! The law of asked workers.
//!
//! The function does nothing: its contract is a law of `specs/AskedWorkers.antt`, proved in `proofs/Attachments.antt`.

ghost use Rattle.rme_session_keys.specs.AskedWorkers.{AttachmentAsksWorker};

/// An order that attaches a worker asks for that worker. So no key lets a session attach a worker that the key does not
/// allow.
pub fn attachment_asks_worker()
    ensures { AttachmentAsksWorker }
{}
