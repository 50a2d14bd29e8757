//! Phase Post: a worker writes its job to the slate, and then counts it as begun.

ghost use Rattle.std.specs.Prelude.{◌≡◌, ◌<◌, ◌≤◌, ◌+◌, ◌*◌, ◌==◌, if◌then◌else◌};
ghost use Rattle.rme_words.specs.Words.{IsShapeAddress};
ghost use Rattle.rme_program.specs.Steps.{slate_action};
ghost use Rattle.rme_program.specs.declared.stage.Stage.{Stage};
ghost use Rattle.rme_program.specs.Conditions.{IsStage};
ghost use Rattle.rme_program.specs.ActionEffects.{action_address};

use crate::action::Action;
use crate::stage::Slate;
use rme_script::slate_word;
use rme_words::{Address, Shape};

pub fn action(shape: Shape, worker: u32, begun: u32, slate: &Slate) -> Action
    requires worker { worker < shape.workers }
    requires stage { IsStage shape begun (Stage.Posting slate.now) }
    ensures action { result ≡ slate_action worker begun slate.now }
    ensures within { IsShapeAddress shape (action_address result) }
{
    let n = slate.job.script.n();
    if slate.stored == 0 {
        return Action::Store(Address::SlateLock(worker), u64::from(slate.job.lock));
    }
    if slate.stored == 1 {
        return Action::Store(Address::SlateLen(worker), u64::from(n));
    }
    if slate.stored < 2 + 3 * n {
        let at = slate.stored - 2;
        return Action::Store(
            Address::SlateWord(worker, at / 3, at % 3),
            slate_word(&slate.job.script, at),
        );
    }
    Action::Store(Address::Begun(worker), u64::from(begun) + 1)
}

/// The whole slate is stored, and the next store is that of `begun`.
pub fn is_last(slate: &Slate) -> bool
    ensures { result ≡ (slate.now.stored == 2 + 3 * slate.now.job.script.n) }
{
    slate.stored == 2 + 3 * slate.job.script.n()
}
