// A store of entities at an address that can be passed to C.
ghost use Rattle.std.specs.Prelude.{◌≡◌, Option, Some, None, IsSome};
ghost use Rattle.cedar_c.specs.declared.store_handle.Inner.{Inner as Inside};
ghost use Rattle.cedar_c.specs.StoreHandles.{held_owns, held_coded};

use crate::parts::Parts;
use cedar_c_stores::StoreState;
use cedar_keyed_hash::KeyedState;
use std::alloc::Global;
use std::boxed::Box;
use std::marker::Model;
use std::ptr;

/// The contents of an open handle.
#[derive(Drop)]
pub struct Inner {
    /// A store that hashes with the key of the caller, with its last results.
    pub kept: StoreState<KeyedState>,
}

/// A box, or nothing.
#[repr(C)]
#[derive(Drop)]
pub struct Held {
    at: *mut u8,
    alloc: Global,
    pub ghost value: { Option Inside } by { held_coded },
}

impl Model for Held {
    ghost also_owns = { λ h. held_owns h.alloc h.at h.value };
}

impl Held {
    // Creates an empty value.
    pub(crate) fn none(alloc: Global) -> Held
        ensures { result.value ≡ None }
    {
        Held {
            at: ptr::null_mut(),
            alloc,
        }
    }

    fn of_parts(parts: Parts<Inner, Global>) -> Held
        ensures { result.value ≡ Some parts.value }
    {
        let Parts { ptr, alloc } = parts;
        Held {
            at: ptr as *mut u8,
            alloc,
        }
    }

    fn into_parts(self) -> Parts<Inner, Global>
        requires { IsSome self.value }
        ensures { Some result.value ≡ self.value }
    {
        let Held { at, alloc } = self;
        Parts {
            ptr: at as *mut Inner,
            alloc,
        }
    }

    // Converts a box.
    pub(crate) fn of(inner: Box<Inner, Global>) -> Held
        ensures { result.value ≡ Some inner.value }
    {
        Held::of_parts(Parts::of(inner))
    }

    // Returns the box. The value must not be empty.
    pub(crate) fn into_box(self) -> Box<Inner, Global>
        requires { IsSome self.value }
        ensures { Some result.value ≡ self.value }
    {
        self.into_parts().into_box()
    }
}
