//! The values that a worker expects its loads to find, since it stored these words itself. A batch ends where a load
//! finds another value, so a wrong expectation costs only time.

ghost use Rattle.std.specs.Prelude.{◌≡◌, ◌*◌, IsTrue, Result, IfOk, take};
ghost use Rattle.rme_words.specs.declared.shape.Shape.{Shape};
ghost use Rattle.rme_script.specs.Slates.{script_from_words};
ghost use Rattle.rme_program.specs.declared.stage.Parity.{Parity};
ghost use Rattle.rme_process_core.specs.ExpectedSlates.{IsExpectedSlate};
ghost use Rattle.rme_process_core.specs.Jobs.{checked_script, expected_script};

use rme_program::{Parity, Visit, mask_of};
use rme_script::{SLATE_WORDS, Script, from_slate};
use rme_words::{Refusal, Shape};

/// A job's script with the words of its slate and the cells that it names.
#[derive(Clone, Copy)]
pub struct ExpectedSlate {
    pub script: Script,
    pub words: [u64; SLATE_WORDS],
    pub named: u64,
}

impl ExpectedSlate {
    /// The expectation of a worker that knows of no job: the empty script.
    pub fn of_empty_script() -> ExpectedSlate
        ensures { (shape : Shape) → IsExpectedSlate shape result }
    {
        ExpectedSlate {
            script: Script::of(&[]),
            words: [0; SLATE_WORDS],
            named: 0,
        }
    }

    /// The expectation of a worker with this slate, or why no worker of this shape can have that: `BadScript`, or
    /// `NoCell`.
    pub fn of(
        shape: Shape,
        operations: u32,
        words: &[u64; SLATE_WORDS],
    ) -> Result<ExpectedSlate, Refusal>
        ensures script { expected_script result ≡ checked_script shape (script_from_words operations words.now) }
        ensures guess { IfOk result (λ guess. IsExpectedSlate shape guess) }
    {
        let Some(script) = from_slate(u64::from(operations), words) else {
            return Err(Refusal::BadScript);
        };
        if let Err(refusal) = script.check(shape) {
            return Err(refusal);
        }
        Ok(ExpectedSlate {
            script,
            words: *words,
            named: mask_of(&script),
        })
    }

    /// The section at this even turn, if the slate is the expected one.
    pub fn visit(&self, lock: u32, turn: u32) -> Visit
        ensures lock { result.lock ≡ lock }
        ensures turn { result.turn ≡ turn }
        ensures parity { result.parity ≡ Parity.Even self.now.script.n self.now.named }
    {
        let parity = Parity::Even {
            operations: self.script.n(),
            cells: self.named,
        };
        Visit { lock, turn, parity }
    }

    /// These are the words of the slate.
    pub fn is_slate(&self, operations: u32, words: &[u64; SLATE_WORDS]) -> bool
        ensures { IsTrue result
            → (operations ≡ self.now.script.n)
            × (take (3 * operations) words.now ≡ take (3 * operations) self.now.words) }
    {
        if operations > 8 || operations != self.script.n() {
            return false;
        }
        for at in 0..3 * operations as usize {
            if words[at] != self.words[at] {
                return false;
            }
        }
        true
    }
}
