//! A worker between two lives.

ghost use Rattle.std.specs.Prelude.{◌≡◌, ◌<◌, ◌≤◌, IfSome, IfNone};
ghost use Rattle.rme_supervisor.specs.declared.end.End.TheVariants.{OutOfLives};

use crate::end::End;
use crate::fall_countdown::FallCountdown;
use crate::life::{LifeContext, LifeCounters, run_life};
use crate::life_stop::LifeStop;
use crate::run_tag::RunTag;
use rme_table::{Gate, OwnedDown, SweepTries};
use std::marker::Model;
use std::sync::Wait;

/// The counts of a worker's lives so far.
#[derive(Clone, Copy)]
pub(crate) struct LifeTotals {
    /// The blocked sweeps on its job.
    pub blocked: u32,
    /// The lives that were started. Each but the last ended at a fall.
    pub lives: u32,
}

/// A worker between two lives, and the end of its lives, if any.
#[derive(Drop)]
pub(crate) struct SupervisedWorker<K: RunTag> {
    pub kept: OwnedDown<K>,
    pub past: LifeTotals,
    pub end: Option<End>,
}

impl<K: RunTag> Model for SupervisedWorker<K> {
    ghost use Rattle.rme_supervisor.specs.WorkerSlots.{WorkerSlotView, SlotFollowsPlan};

    ghost Value = { WorkerSlotView };

    ghost view = { λ berth. record {
      stand = berth.kept.down;
      end = berth.end;
      blocked = berth.past.blocked;
      lives =
          berth.past.lives;
    } };

    ghost invariant = { λ berth. SlotFollowsPlan K.Tag.ident.shape K.run
        (record { stand = berth.kept.down; end = berth.end; blocked = berth.past.blocked; lives = berth.past.lives }) };
}

impl<K: RunTag> SupervisedWorker<K> {
    ghost use Rattle.std.specs.Prelude.{◌≡◌, ◌+◌, ◌<◌, ◌≤◌, ◌↔◌, slice_get, IsTrue, Some, None};
    ghost use Rattle.rme_supervisor.specs.WorkerSlots.{WorkerSlotView, IsLifeContext, life_terms, MayLiveAgain};

    /// A worker before its first life.
    pub(crate) fn new(kept: OwnedDown<K>) -> SupervisedWorker<K>
        requires given { slice_get K.run.given kept.down.part.worker ≡ Some kept.down }
        ensures { result ≡ record { stand = kept.down; end = None; blocked = 0; lives = 0 } }
    {
        let past = LifeTotals {
            blocked: 0,
            lives: 0,
        };
        SupervisedWorker {
            kept,
            past,
            end: None,
        }
    }

    /// The worker's number.
    pub(crate) fn worker(&self) -> u32
        ensures { result ≡ self.now.stand.part.worker }
    {
        self.kept.down.worker()
    }

    /// Whether the worker may have a further life, with at most `lives`.
    pub(crate) fn may_live(&self, lives: u32) -> bool
        ensures { IsTrue result ↔ ((self.now.end ≡ None) × (self.now.lives < lives)) }
    {
        self.end.is_none() && self.past.lives < lives
    }

    /// The worker after its next life, in which it fell at most once.
    pub(crate) fn run_life<G: Gate, R: Wait>(
        self,
        rt: &R,
        orders: &LifeContext<'_, G>,
    ) -> SupervisedWorker<K>
        requires orders { IsLifeContext K.Tag.ident K.run self.stand.part.worker
            (life_terms orders.now.service.now orders.now.rounds orders.now.plan.now
            (G.answered orders.now.gate.now) G.lets_all) }
        requires more { (self.end ≡ None) × (self.lives < orders.now.plan.now.lives) }
        ensures own { result.stand.part.worker ≡ self.stand.part.worker }
        ensures lives { result.lives ≡ self.lives + 1 }
        ensures again { MayLiveAgain orders.now.plan.now result.lives result.end }
    {
        let most = orders.plan.lives;
        let SupervisedWorker { kept, past, end: _ } = self;
        let OwnedDown { down, of } = kept;
        let mut trail = LifeCounters {
            falls: FallCountdown::next(orders.plan.falls.as_slice(), past.lives),
            tries: SweepTries {
                blocked: past.blocked,
                most: orders.plan.sweeps,
            },
        };
        let stop = run_life(rt, orders, down, &mut trail);
        let past = LifeTotals {
            blocked: trail.tries.blocked,
            lives: past.lives + 1,
        };
        let (down, end) = match stop {
            LifeStop::Ended(down, end) => (down, Some(end)),
            LifeStop::Fell(down) => (down, end_after(past.lives, most)),
        };
        let kept = OwnedDown { down, of };
        SupervisedWorker { kept, past, end }
    }
}

/// The end of a worker that fell in each of `lives` lives, if it has no further one.
fn end_after(lives: u32, most: u32) -> Option<End>
    ensures some { IfSome result (λ end. (end ≡ OutOfLives) × (most ≤ lives)) }
    ensures none { IfNone result (lives < most) }
{
    if lives < most {
        return None;
    }
    Some(End::OutOfLives)
}
