//! What a worker knows before each kind of step.
//!
//! There is one stage for each kind of step, with exactly what is known there. `lock` is the worker's lock, and `held`
//! is the number of nodes of its path that it holds, from the leaf upward.

use rme_script::{Job, Row, Script};

/// The program counter of a worker, with what it knows there.
#[derive(Clone, Copy)]
pub enum Stage {
    /// Ready for a job, with no step to make.
    Resting,
    /// Finding where it was before its crash.
    Recovering(Recovery),
    /// Writing its job to the slate.
    Posting(Slate),
    /// Waiting for the lock.
    Climbing(Ascent),
    /// Owning the lock, and logging the result of its script.
    Logging(Log),
    /// Owning the lock, and copying the logged values.
    Copying(Redo),
    /// Releasing its nodes, after a section or to withdraw.
    Leaving(Departure),
}

/// Phase Recover.
#[derive(Clone, Copy)]
pub enum Recovery {
    /// Restarted after a crash, and knows only its own number.
    LoadBegun,
    /// Knows `begun`.
    LoadDone,
    /// Knows whether its last job is pending, and thereby which word names the lock.
    LoadLock { pending: bool },
    /// Knows the lock, and that the first `held` nodes of its path are its own.
    LoadPath { pending: bool, lock: u32, held: u32 },
}

/// Phase Post: the first `stored` words of the job's slate are stored; after the last of them `begun` is stored.
#[derive(Clone, Copy)]
pub struct Slate {
    pub job: Job,
    pub stored: u32,
}

/// Phase Enter: the worker wants the node above those that it holds.
#[derive(Clone, Copy)]
pub struct Ascent {
    pub lock: u32,
    pub held: u32,
}

/// Phase Section, until the turn is odd.
#[derive(Clone, Copy)]
pub enum Log {
    /// Owns the lock, and its job is not finished.
    LoadTurn {
        lock: u32,
    },
    /// Knows that the turn is even.
    LoadLen {
        lock: u32,
        turn: u32,
    },
    /// Knows the number of operations of its script, and the first `loaded` words of them.
    LoadSlate {
        lock: u32,
        turn: u32,
        operations: u32,
        words: [u64; 24],
        loaded: u32,
    },
    /// Knows its script, and the named cells before `cell`.
    LoadCells {
        lock: u32,
        turn: u32,
        script: Script,
        named: u64,
        row: Row,
        cell: u32,
    },
    /// Knows the result of the script, and has stored the shadow words of the named cells before `cell`.
    StoreShadows {
        visit: Visit,
        named: u64,
        row: Row,
        reply: u64,
        cell: u32,
    },
    /// Has stored the shadow words of all named cells.
    StoreShadowReply {
        visit: Visit,
        named: u64,
        reply: u64,
    },
    /// Has stored the shadow reply too.
    StoreMask {
        visit: Visit,
        named: u64,
    },
    /// Has stored the mask too: everything is logged except the turn.
    StoreTurn {
        visit: Visit,
    },
}

/// Phase Section, from the odd turn on.
#[derive(Clone, Copy)]
pub enum Redo {
    /// The turn is odd: from here on a crash only redoes the copying.
    LoadMask {
        visit: Visit,
    },
    /// Has copied the mask's cells before `cell`.
    LoadShadow {
        visit: Visit,
        mask: u64,
        cell: u32,
    },
    /// Knows the shadow word of `cell`.
    StoreCell {
        visit: Visit,
        mask: u64,
        cell: u32,
        value: u64,
    },
    /// Has copied all of the mask's cells.
    LoadReply {
        visit: Visit,
        mask: u64,
    },
    /// Knows the reply.
    StoreReply {
        visit: Visit,
        mask: u64,
        reply: u64,
    },
    /// Has stored the reply.
    StorePlace {
        visit: Visit,
        mask: u64,
        reply: u64,
    },
    /// Has stored the place too.
    StoreAt {
        visit: Visit,
        mask: u64,
        reply: u64,
    },
    /// Has stored the lock too: the next store finishes the job.
    StoreDone {
        visit: Visit,
        mask: u64,
        reply: u64,
    },
}

/// Phase Exit, in its full, its partial and its withdrawing form.
#[derive(Clone, Copy)]
pub enum Departure {
    /// Owns the lock, and its job is finished.
    LoadExitTurn { lock: u32 },
    /// Knows that the turn is odd.
    StoreExitTurn { lock: u32, turn: u32 },
    /// Holds its path up to this level, and releases the node there.
    Clear { lock: u32, level: u32 },
    /// Withdraws its job.
    WithdrawPlace { lock: u32, held: u32 },
    /// Has stored the place that marks a withdrawn number.
    WithdrawAt { lock: u32, held: u32 },
    /// Has stored the lock too.
    WithdrawReply { lock: u32, held: u32 },
    /// Has stored the reply 0 too: the next store withdraws the job.
    WithdrawDone { lock: u32, held: u32 },
}

/// The section that a worker is in.
#[derive(Clone, Copy)]
pub struct Visit {
    /// The lock that the worker owns.
    pub lock: u32,
    /// The loaded turn: 2p or 2p+1 in section p.
    pub turn: u32,
    /// How the section began.
    pub parity: Parity,
}

/// How a section began.
#[derive(Clone, Copy)]
pub enum Parity {
    /// At an even turn: the script has `operations` operations, and names the cells of this mask.
    Even { operations: u32, cells: u64 },
    /// At an odd turn: the shadow words were whole already.
    Odd,
}
