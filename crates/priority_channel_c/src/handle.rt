//! A box as a pointer that C keeps.
ghost use Rattle.std.specs.Prelude.{◌≡◌, Option, None, Some, IsSome};
ghost use Rattle.priority_channel_c.specs.declared.state.Core.{Core as CoreValue};
ghost use Rattle.priority_channel_c.specs.Held.{held, held_coded};

mod parts;

use crate::state::Core;
use parts::Parts;
use std::alloc::Global;
use std::marker::Model;
use std::mem::replace;

/// What C keeps: a pointer, null at first. Only this library reads or writes what it leads to.
#[repr(C)]
#[derive(Drop)]
pub struct Handle {
    at: *mut u8,
    alloc: Global,
    pub ghost value: { Option CoreValue } by { held_coded },
}

impl Model for Handle {
    ghost also_owns = { λ h. held h.alloc h.at h.value };
}

unsafe impl Send for Handle {}

// What C gives may come from another thread, so its type has to be `Send`.
#[inline(always)]
fn from_any_thread<T: Send>(given: T) -> T
    ensures { result ≡ given }
{
    given
}

impl Handle {
    fn of_parts(parts: Parts<Core, Global>) -> Handle
        ensures { result.value ≡ Some parts.value }
    {
        let Parts { ptr, alloc } = parts;
        let at = ptr as *mut u8;
        Handle { at, alloc }
    }

    fn into_parts(self) -> Parts<Core, Global>
        requires { IsSome self.value }
        ensures { Some result.value ≡ self.value }
    {
        let Handle { at, alloc } = self;
        let ptr = at as *mut Core;
        Parts { ptr, alloc }
    }

    #[inline(always)]
    pub fn into_box(self) -> Box<Core>
        requires { IsSome self.value }
        ensures { Some result.value ≡ self.value }
    {
        from_any_thread(self).into_parts().into_box()
    }

    #[inline(always)]
    pub fn of_box(core: Box<Core>) -> Handle
        ensures { result.value ≡ Some core.value }
    {
        Handle::of_parts(Parts::of(core))
    }

    /// Puts a core into an empty handle.
    #[inline(always)]
    pub fn put(&mut self, core: Box<Core>)
        requires { self.old.value ≡ None }
        ensures { self.new.value ≡ Some core.value }
    {
        let _empty = replace(self, Handle::of_box(core));
    }
}
