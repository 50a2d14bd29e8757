//! The notes of a server on its workers: the label of each worker's last attachment, and since when it has its stance.
//!
//! They are kept in memory only, and begin with the process.

use crate::status::{WorkerStance, worker_stance};
use rme_session_protocol::{ClientLabel, ClientReply, Order};
use rme_words::NoMemory;
use rme_world::World;
use std::alloc::Global;
use std::marker::Model;
use std::time::{Clock, Instant};

/// What `status` tells of a worker from the notes of a server.
#[derive(Clone, Copy)]
pub struct WorkerNote {
    /// The label of the worker's last attachment, if that had one.
    pub label: Option<ClientLabel>,
    /// The whole seconds since its standing last changed, or since the notes began.
    pub seconds: u64,
}

impl WorkerNote {
    /// Of a worker that was never attached, at the start.
    const FIRST: WorkerNote = WorkerNote {
        label: None,
        seconds: 0,
    };
}

/// Whether a session has a worker, and its stance.
#[derive(Clone, Copy, PartialEq, Eq)]
struct Standing {
    attached: bool,
    stance: WorkerStance,
}

impl Standing {
    ghost use Rattle.std.specs.Prelude.{◌<◌};

    fn of(world: &World, worker: u32) -> Standing
        requires { worker < world.now.shape.workers }
    {
        Standing {
            attached: world.known(worker).is_some(),
            stance: worker_stance(world, worker),
        }
    }
}

/// The standing of a worker, and how long it has had it.
#[derive(Clone, Copy)]
struct NotedStanding {
    /// `None` before it is first seen.
    standing: Option<Standing>,
    /// When the standing last changed; `None` if it never did, or if the clock failed then.
    since: Option<Instant>,
}

impl NotedStanding {
    const UNSEEN: NotedStanding = NotedStanding {
        standing: None,
        since: None,
    };

    /// The stay of the same worker, seen with this standing.
    fn seen<R: Clock>(self, rt: &R, standing: Standing) -> NotedStanding {
        if self.standing == Some(standing) {
            return self;
        }
        let since = match self.standing {
            Some(_) => Instant::now(rt).ok(),
            None => None,
        };
        NotedStanding {
            standing: Some(standing),
            since,
        }
    }
}

/// The notes on the workers that clients may attach. In contracts they are the label of each worker's last attachment.
#[derive(Drop)]
pub struct WorkerNotes {
    notes: Vec<WorkerNote>,
    stays: Vec<NotedStanding>,
    /// When the notes began; `None` if the clock failed then.
    start: Option<Instant>,
}

impl Model for WorkerNotes {
    ghost use Rattle.std.specs.Prelude.{ℕ, List, Option};
    ghost use Rattle.rme_durable_lookups.specs.WorkerLabels.{labels_of};

    ghost Value = { List (Option (List ℕ)) };

    ghost view = { λ notes. labels_of notes.notes.items };
}

impl WorkerNotes {
    ghost use Rattle.std.specs.Prelude.{◌≡◌, IfOk, None, replicate};
    ghost use Rattle.rme_durable_lookups.specs.WorkerLabels.{labels_after, labels_of};
    ghost use Rattle.rme_session_protocol.specs.ClientReplies.{reply_of_client};

    /// No notes on this number of workers.
    #[tactic(auto, using(crate::proofs::Noting::first_labels))]
    pub fn new(alloc: Global, workers: u32) -> Result<WorkerNotes, NoMemory>
        ensures { IfOk result (λ notes. notes ≡ replicate workers None) }
    {
        let Ok(notes) = vec![in alloc; WorkerNote::FIRST; workers as usize] else {
            return Err(NoMemory);
        };
        let Ok(stays) = vec![in alloc; NotedStanding::UNSEEN; workers as usize] else {
            return Err(NoMemory);
        };
        Ok(WorkerNotes {
            notes,
            stays,
            start: None,
        })
    }

    /// Begins now: every worker has its present standing since the start.
    pub fn begin<R: Clock>(&mut self, rt: &R, world: &World)
        ensures { self.new ≡ self.old }
    {
        self.start = Instant::now(rt).ok();
        self.see_all(rt, world);
    }

    /// Notes the standing of every worker.
    pub fn see_all<R: Clock>(&mut self, rt: &R, world: &World)
        ensures { self.new ≡ self.old }
    {
        for worker in 0..world.shape().workers() {
            self.see(rt, world, worker);
        }
    }

    /// Notes the standing of a worker, if it is a worker that clients may attach.
    pub fn see<R: Clock>(&mut self, rt: &R, world: &World, worker: u32)
        ensures { self.new ≡ self.old }
    {
        let place = worker as usize;
        if place >= self.stays.len() || worker >= world.shape().workers() {
            return;
        }
        self.stays[place] = self.stays[place].seen(rt, Standing::of(world, worker));
    }

    /// Notes the label of an attachment, by the order of a client and the reply to it.
    #[tactic(auto, using(crate::proofs::Noting::put_label))]
    pub fn note_reply(&mut self, order: &Order, reply: ClientReply)
        ensures { self.new ≡ labels_after self.old order.now (reply_of_client reply) }
    {
        if let (Order::Attach(asked), ClientReply::Attached(_, _)) = (order, reply) {
            let place = asked.worker as usize;
            if place < self.notes.len() {
                self.notes[place].label = asked.label;
            }
        }
    }

    /// Counts the seconds up to now.
    pub fn count_seconds<R: Clock>(&mut self, rt: &R)
        ensures { self.new ≡ self.old }
    {
        let now = Instant::now(rt).ok();
        for place in 0..self.stays.len() {
            self.count_at(place, now);
        }
    }

    /// Counts the seconds of one worker up to this time; at `None` the clock failed.
    #[tactic(auto, using(crate::proofs::Noting::keep_label))]
    fn count_at(&mut self, place: usize, now: Option<Instant>)
        ensures { self.new ≡ self.old }
    {
        if place < self.stays.len() && place < self.notes.len() {
            let since = self.stays[place].since.or(self.start);
            self.notes[place].seconds = seconds_between(since, now);
        }
    }

    /// The notes, by the numbers of the workers.
    pub fn told(&self) -> &[WorkerNote]
        ensures { labels_of result.now ≡ self.now }
    {
        self.notes.as_slice()
    }
}

/// The whole seconds between two times; 0 if the clock failed at one of them.
fn seconds_between(then: Option<Instant>, now: Option<Instant>) -> u64 {
    match (then, now) {
        (Some(then), Some(now)) => now.duration_since(then).as_secs(),
        _ => 0,
    }
}
