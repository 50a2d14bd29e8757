//! A script: the operations of one job.

ghost use Rattle.std.specs.Prelude.{◌≡◌, ◌<◌, ◌≤◌, min, take, length, replicate, slice_get, slice_set};

use crate::limits::MOST_OPERATIONS;
use crate::op::Op;
use std::marker::Model;

/// Up to eight operations, in order, and the number given.
///
/// Two scripts are equal if and only if their operations and their numbers are.
#[derive(Clone, Copy, PartialEq, Eq)]
pub struct Script {
    ops: [Op; MOST_OPERATIONS],
    n: u32,
}

impl Model for Script {
    ghost use Rattle.std.specs.Prelude.{◌≤◌, ◌-◌, ◌++◌, take, replicate, length, min};
    ghost use Rattle.rme_script.specs.Programs.{Program};
    ghost use Rattle.rme_script.specs.Padding.{IsPaddedList, padding_is_restored};
    ghost use Rattle.rme_script.specs.declared.op.Op.TheVariants.{Get};

    ghost Value = { Program };

    ghost view = { λ s. record { n = s.n; ops = take (min s.n 8) s.ops } };

    ghost invariant = { λ s. (s.n ≤ 9) × IsPaddedList (Get 0) 8 (min s.n 8) s.ops };

    ghost inverse = { λ p. record { ops = p.ops ++ replicate (8 - length p.ops) (Get 0); n = p.n } };

    ghost inverse_ok = { λ s h. padding_is_restored (λ ops _. record { ops = ops; n = s.n }) (Get 0) 8 (min s.n 8) s.ops
        h.1 };
}

impl Script {
    /// The script of these operations. It keeps the first eight; `n` is the number given, or 9 for more than eight.
    pub fn of(ops: &[Op]) -> Script
        ensures { result ≡ record { n = min (length ops.now) 9; ops = take 8 ops.now } }
    {
        let count = ops.len().min(MOST_OPERATIONS);
        let mut kept = [Op::Get(0); MOST_OPERATIONS];
        kept[..count].copy_from_slice(&ops[..count]);
        Script {
            ops: kept,
            n: ops.len().min(MOST_OPERATIONS + 1) as u32,
        }
    }

    /// Makes it a script of `n` operations that all get cell 0, to be replaced one after another.
    pub(crate) fn begin(&mut self, n: u32)
        requires { n ≤ 8 }
        ensures { self.new ≡ record { n = n; ops = replicate n (Op.Get 0) } }
    {
        *self = Script {
            ops: [Op::Get(0); MOST_OPERATIONS],
            n,
        };
    }

    /// Replaces the operation at `i`.
    pub(crate) fn put(&mut self, i: u32, op: Op)
        requires few { self.old.n ≤ 8 }
        requires place { i < length self.old.ops }
        ensures { self.new ≡ record { n = self.old.n; ops = slice_set self.old.ops i op } }
    {
        let place = i as usize;
        self.ops[place] = op;
    }

    /// The number of operations given; 9 stands for every number above 8.
    pub fn n(&self) -> u32
        ensures n { result ≡ self.now.n }
        ensures counted { length self.now.ops ≡ min self.now.n 8 }
        ensures few { self.now.n ≤ 9 }
    {
        self.n
    }

    /// The operation at `i`, which is below `n` and below 8.
    pub fn op(&self, i: u32) -> Op
        requires { i < length self.now.ops }
        ensures { slice_get self.now.ops i ≡ Some result }
    {
        self.ops[i as usize]
    }
}
