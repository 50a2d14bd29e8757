//! A worker as C holds it: a pointer that C never follows.

ghost use Rattle.std.specs.Prelude.{◌≡◌, true, false, Bool};
ghost use Rattle.std.specs.Box.Ownership.{box_owns};
ghost use Rattle.rme_process_core.specs.declared.worker.CoreWorker.{CoreWorker};

use crate::raw_box::RawBox;
use rme_process_core::CoreWorker;
use std::alloc::{Allocator, Global};
use std::marker::Model;
use std::mem::replace;
use std::ptr::null_mut;

/// A worker on the heap of the process that made it, by a pointer.
///
/// `live` says that there is one; `value` is it. A handle that is not live owns nothing, whatever its pointer is; the
/// zeroed memory into which a new handle is written is one.
#[repr(C)]
#[derive(Drop)]
pub struct Handle {
    at: *mut CoreWorker,
    alloc: Global,
    pub ghost live: { Bool },
    pub ghost value: { CoreWorker },
}

impl Model for Handle {
    ghost use Rattle.rme_process_abi.specs.Owned.{owned_if};
    ghost use Rattle.rme_process_core.specs.contracts.worker.CoreWorker.{the_row};
    ghost use Rattle.std.specs.Box.Ownership.{box_owns};
    ghost use Rattle.std.specs.contracts.impls.GlobalAllocator.TheImpl.{ghosts};

    ghost also_owns = { λ h. owned_if h.live (box_owns (ghosts.dealloc_token h.alloc) the_row h.at h.value) };
}

impl Handle {
    /// The handle of a worker.
    fn of(worker: RawBox<CoreWorker, Global>) -> Handle
        ensures live { result.live ≡ true }
        ensures value { result.value ≡ worker.value }
    {
        let RawBox { at, alloc } = worker;
        Handle { at, alloc }
    }

    /// The worker of a handle.
    fn into_raw(self) -> RawBox<CoreWorker, Global>
        requires { self.live ≡ true }
        ensures { result.value ≡ self.value }
    {
        let Handle { at, alloc } = self;
        RawBox { at, alloc }
    }

    /// A handle that is not live.
    pub(crate) fn dead(alloc: Global) -> Handle
        ensures { result.live ≡ false }
    {
        Handle {
            at: null_mut(),
            alloc,
        }
    }

    /// Takes the worker of a live handle; the handle is not live until `close`.
    pub(crate) fn open(&mut self, alloc: Global) -> Box<CoreWorker, Global>
        requires { self.old.live ≡ true }
        ensures { result.value ≡ self.old.value }
    {
        replace(self, Handle::dead(alloc)).into_raw().into_box()
    }

    /// Puts a worker into a handle.
    pub(crate) fn close(&mut self, worker: Box<CoreWorker, Global>)
        ensures live { self.new.live ≡ true }
        ensures value { self.new.value ≡ worker.value }
    {
        *self = Handle::of(RawBox::of(worker));
    }

    /// Takes the worker of a live handle, which then is dead.
    pub(crate) fn into_box(self) -> Box<CoreWorker, Global>
        requires { self.live ≡ true }
        ensures { result.value ≡ self.value }
    {
        self.into_raw().into_box()
    }
}
