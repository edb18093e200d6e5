//! A handle as the pointer that a caller in C keeps. All that goes through a raw pointer stands here.
ghost use Rattle.std.specs.Prelude.{◌≡◌};
ghost use types.Logic.{sem};
ghost use Rattle.sr_handle.specs.declared.handle.Handle.{Handle as TheHandle};
ghost use Rattle.sr_c.specs.Owned.{handle_coded, held_owns};

pub(crate) mod parts;

use parts::Parts;
use sr_handle::handle::Handle;
use std::alloc::Global;
use std::marker::Model;

/// The pointer of a handle that was opened and is not freed. It owns what a `Box` of the handle owns.
#[repr(C)]
pub struct Held {
    ptr: *mut u8,
    alloc: Global,
    pub ghost value: { TheHandle } by { handle_coded },
}

impl Model for Held {
    ghost also_owns = { λ h. held_owns h.alloc h.ptr h.value };
}

impl Held {
    ghost use Rattle.sr_c.specs.Lent.{held_follows};

    /// Lends the handle.
    pub(crate) fn as_mut(&mut self) -> &mut Handle
        ensures* writes_back { sem 𝓛 (held_follows self.entry result) }
        ensures value { result.now ≡ self.old.value }
    {
        unsafe { &mut *self.ptr.cast::<Handle>() }
    }

    /// Takes the handle back.
    pub(crate) fn into_parts(self) -> Parts<Handle, Global>
        ensures { result.value ≡ self.value }
    {
        let Held { ptr, alloc } = self;
        Parts {
            ptr: ptr.cast::<Handle>(),
            alloc,
        }
    }
}

/// The pointer, for C, which knows no handles.
pub(crate) fn erased(ptr: *mut Handle) -> *mut u8 {
    ptr.cast::<u8>()
}
