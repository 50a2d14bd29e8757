//! What C reads and writes: structs of plain numbers.

/// The greatest number of actions in one batch.
pub const MOST_ACTIONS: u32 = 96;

/// One own step of a worker: one operation on the shared word with this number.
#[repr(C)]
#[derive(Clone, Copy)]
pub struct FlatAction {
    /// 1 loads the word, 2 stores `value` into it, 3 stores `value` into it only if it has 0; 4 and 5 load it too. A
    /// batch ends after a 3 that did not find 0, after a 4 that did not find `value`, and after a 5 that did not find
    /// an even number below 2^32.
    pub kind: u32,
    pub word: usize,
    pub value: u64,
}

/// The next own steps of a worker, and the value that each of them found.
#[repr(C)]
#[derive(Drop)]
pub struct Batch {
    /// The number of actions in use.
    pub count: u32,
    pub actions: [FlatAction; 96],
    /// The value that each load or swap found; for a store, any number.
    pub values: [u64; 96],
}

/// The observable event of a step.
#[repr(C)]
#[derive(Clone, Copy)]
pub struct FlatNote {
    /// 1 asked, 2 blocked, 3 entered, 4 reentered, 5 finished, 6 left, 7 ready, 8 withdrew. Numbers below that a kind
    /// lacks are 0.
    pub kind: u32,
    pub worker: u32,
    pub lock: u32,
    pub number: u64,
    pub place: u64,
    pub reply: u64,
}

/// The outcome of a batch's steps.
#[repr(C)]
#[derive(Drop)]
pub struct BatchOutcome {
    /// The number of notes in use, in the order of the steps: at most one for each step.
    pub count: u32,
    /// Where the worker is now, as in a stance.
    pub phase: u32,
    pub notes: [FlatNote; 97],
}

/// Where a worker is.
#[repr(C)]
#[derive(Clone, Copy)]
pub struct FlatStance {
    /// 0 recover, 1 post, 2 enter, 3 section, 4 exit, 5 ready.
    pub phase: u32,
    /// The lock at which the worker is, or 4294967295 if it knows of none.
    pub lock: u32,
    /// The number of jobs that it has begun, as far as it knows.
    pub number: u64,
}
