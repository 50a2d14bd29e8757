//! The slot of one worker: its Down, unless a session has the worker, and the number of the worker's restarts.

ghost use Rattle.std.specs.Prelude.{◌<◌, ℕ, IsFalse, IsOk, IsTrue};
ghost use Rattle.rme_session_threads.specs.Lives.{EndsEarlierLives, IsInTime, IsLate};
ghost use Rattle.rme_session_threads.specs.WorkerSlots.{SlotTake};

use rme_table::{Down, OwnedDown, Tag};
use rme_words::Refusal;
use std::marker::PhantomData;

/// A worker that was taken out of its slot, which begins a life of it.
#[derive(Drop)]
pub struct TakenWorker {
    /// The worker, to be recovered.
    pub down: Down,
    /// The number of its restarts, this one included.
    pub life: u64,
}

/// A worker's slot: empty while a session has the worker. The count stays in the slot.
#[derive(Drop)]
pub(crate) struct WorkerSlot<K: Tag> {
    kept: Option<OwnedDown<K>>,
    life: u64,
}

impl<K: Tag> WorkerSlot<K> {
    ghost use Rattle.std.specs.Prelude.{◌≡◌, IfOk, IfErr, IfSome, IsSomeAnd};
    ghost use Rattle.rme_session_threads.specs.WorkerSlots.{IsValueOfWorker, SlotRefusal};
    ghost use Rattle.rme_session_threads.specs.Lives.{BeginsLife};

    /// The slot of a worker that was not restarted yet.
    pub(crate) fn new(kept: OwnedDown<K>) -> WorkerSlot<K>
        ensures life { result.life ≡ 0 }
        ensures kept { IsSomeAnd result.kept (λ its. its.down ≡ kept.down) }
    {
        WorkerSlot {
            kept: Some(kept),
            life: 0,
        }
    }

    /// Takes the worker's Down, and counts the restart. `Overtaken` if the worker was restarted since the life `after`,
    /// and `Taken` if the slot is empty; then nothing is counted.
    pub(crate) fn take(&mut self, worker: u32, after: Option<u64>) -> Result<TakenWorker, Refusal>
        ensures taken { IfOk result (λ taken. IsValueOfWorker K.ident worker taken.down) }
        ensures counts { IfOk result (λ taken. (taken.life ≡ self.new.life)
            × BeginsLife after self.old.life self.new.life) }
        ensures refused { IfErr result (λ why. (self.new.life ≡ self.old.life)
            × SlotRefusal after self.old.life why) }
    {
        if is_late(after, self.life) {
            return Err(Refusal::Overtaken);
        }
        let Some(kept) = self.kept.take() else {
            return Err(Refusal::Taken);
        };
        // A slot's type cannot state its number; no other worker is ever put here.
        if kept.down.worker() != worker {
            self.kept = Some(kept);
            return Err(Refusal::Taken);
        }
        self.life = self.life.saturating_add(1);
        let OwnedDown { down, of: _ } = kept;
        Ok(TakenWorker {
            down,
            life: self.life,
        })
    }

    /// Puts the worker's Down back.
    pub(crate) fn give(&mut self, down: Down)
        requires ours { down.ident ≡ K.ident }
        ensures life { self.new.life ≡ self.old.life }
        ensures kept { IsSomeAnd self.new.kept (λ its. its.down ≡ down) }
    {
        self.kept = Some(OwnedDown {
            down,
            of: PhantomData,
        });
    }

    /// The Down in the slot, if it is this worker's.
    pub(crate) fn into_down(self, worker: usize) -> Option<Down>
        ensures { IfSome result (λ down. IsValueOfWorker K.ident worker down) }
    {
        let WorkerSlot { kept, life: _ } = self;
        let Some(kept) = kept else {
            return None;
        };
        let OwnedDown { down, of: _ } = kept;
        if down.worker() as usize != worker {
            return None;
        }
        Some(down)
    }
}

/// Takes the worker's Down out of its slot, which is one of any number of slots. That ends every life that a client was
/// told before: an attachment after it is late.
pub(crate) fn begin_life<K: Tag>(
    slot: &mut WorkerSlot<K>,
    worker: u32,
    after: Option<u64>,
) -> Result<TakenWorker, Refusal>
    ensures take { (count : ℕ) → worker < count → SlotTake K.ident count worker after result }
    ensures ends { IsOk result → EndsEarlierLives slot.old.life slot.new.life }
{
    slot.take(worker, after)
}

/// Whether a worker with this number of restarts was restarted since the life `after`, if one is given.
fn is_late(after: Option<u64>, counted: u64) -> bool
    ensures late { IsTrue result → IsLate after counted }
    ensures in_time { IsFalse result → IsInTime after counted }
{
    match after {
        Some(life) => life < counted,
        None => false,
    }
}
