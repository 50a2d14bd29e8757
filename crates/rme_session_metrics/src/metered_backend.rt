//! A backend that counts what the backend below it answers.

use crate::answer_text::{CountedAnswer, counted_answer};
use rme_metrics::{CounterLane, ServerCounters};
use rme_session_loop::{AnswerError, AttemptError, Backend, Buffers, Client};
use rme_wire::{Names, Sink};
use std::alloc::Global;
use std::sync::Wait;
use std::time::{Clock, Instant};

/// The microseconds of a second.
const SECOND: u64 = 1_000_000;

/// A backend that answers as another one, and counts what its answers say, and how long each took; without counters it
/// only answers.
#[derive(Drop)]
pub struct MeteredBackend<'a, B> {
    pub backend: &'a B,
    pub counters: Option<&'a ServerCounters>,
}

/// Each session, each line, each answer and each end is as that of the backend below.
impl<B: Backend> Backend for MeteredBackend<'_, B> {
    type Stand = B::Stand;

    type Handle = B::Handle;

    ghost fits = { λ metered. B.fits metered.backend.now };

    ghost may_hold = { λ metered. B.may_hold metered.backend.now };

    ghost nobody = { λ metered. B.nobody metered.backend.now };

    ghost answers = { λ metered. B.answers metered.backend.now };

    ghost finished = { λ metered. B.finished metered.backend.now };

    ghost attached = { λ metered. B.attached metered.backend.now };

    ghost ends = { λ metered. B.ends metered.backend.now };

    fn alloc(&self) -> Global {
        self.backend.alloc()
    }

    fn names(&self) -> &Names {
        self.backend.names()
    }

    fn is_over<R: Wait>(&self, rt: &R) -> bool {
        self.backend.is_over(rt)
    }

    fn begin_session(&self) -> B::Stand {
        if let Some(counters) = self.counters {
            counters.session_began();
        }
        self.backend.begin_session()
    }

    fn is_finished(&self, stand: &B::Stand) -> bool {
        self.backend.is_finished(stand)
    }

    fn attached_worker(&self, stand: &B::Stand) -> Option<u32> {
        self.backend.attached_worker(stand)
    }

    fn answer<R: Wait + Clock, O: Sink, C: Client<Handle = B::Handle>>(
        &self,
        rt: &R,
        stand: B::Stand,
        buffers: &mut Buffers,
        writer: &mut O,
        client: &C,
    ) -> (B::Stand, Result<(), AnswerError>) {
        let Some(counters) = self.counters else {
            return self.backend.answer(rt, stand, buffers, writer, client);
        };
        let lane = counters.lane(self.backend.attached_worker(&stand));
        lane.line_taken();
        let began = Instant::now(rt).ok();
        let (stand, answered) = self.backend.answer(rt, stand, buffers, writer, client);
        if answered.is_ok() {
            count(lane, buffers.text.as_bytes());
        }
        lane.line_done(micros_since(rt, began));
        (stand, answered)
    }

    fn end_session<R: Wait + Clock, C: Client<Handle = B::Handle>>(
        &self,
        rt: &R,
        stand: B::Stand,
        client: &C,
    ) -> Result<(), AttemptError> {
        if let Some(counters) = self.counters {
            counters.session_ended();
        }
        self.backend.end_session(rt, stand, client)
    }
}

/// Counts an answer.
fn count(lane: &CounterLane, text: &[u8]) {
    match counted_answer(text) {
        CountedAnswer::Answered(kind) => lane.order_answered(kind),
        CountedAnswer::Refused(code) => lane.line_refused(code),
        CountedAnswer::Uncounted => {}
    }
}

/// The microseconds since a moment; 0 if the clock could not be read.
fn micros_since<R: Clock>(rt: &R, began: Option<Instant>) -> u64 {
    let Some(began) = began else {
        return 0;
    };
    match began.elapsed(rt) {
        Ok(passed) => passed
            .as_secs()
            .saturating_mul(SECOND)
            .saturating_add(u64::from(passed.subsec_micros())),
        Err(_) => 0,
    }
}
