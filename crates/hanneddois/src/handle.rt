//! What a caller from C holds: nothing, or the memory of a compiled regex.
ghost use Rattle.std.specs.Prelude.{◌≡◌, Some, None, Option};
ghost use Rattle.std.specs.Option.{MatchOption};
ghost use Rattle.ffi_core.specs.Compiled.{Regexed};
ghost use Rattle.hanneddois.specs.Handles.{held, coded_held};

use crate::apart::Apart;
use ffi_core::Compiled;
use std::alloc::Global;
use std::marker::Model;
use std::mem;
use std::ptr::null_mut;

/// Nothing, or a compiled regex.
#[repr(C)]
pub struct Handle {
    inside: *mut u8,
    pub ghost value: { Option Regexed } by { coded_held },
}

impl Model for Handle {
    ghost use Rattle.hanneddois.specs.Handles.{held};

    ghost also_owns = { λ h. held h.inside h.value };
}

impl Handle {
    /// A handle that holds nothing.
    fn empty() -> Handle
        ensures { result.value ≡ None }
    {
        Handle { inside: null_mut() }
    }

    /// A handle that owns what the parts of a box own.
    fn of_apart(apart: Apart<Compiled, Global>) -> Handle
        ensures { result.value ≡ Some apart.value }
    {
        let Apart { at, alloc: _ } = apart;
        Handle {
            inside: at as *mut u8,
        }
    }

    /// The parts of the box that the handle holds, if any.
    fn into_apart(self, alloc: Global) -> Option<Apart<Compiled, Global>>
        ensures { MatchOption result (self.value ≡ None) (λ a. self.value ≡ Some a.value) }
    {
        let Handle { inside } = self;
        if inside.is_null() {
            None
        } else {
            Some(Apart {
                at: inside as *mut Compiled,
                alloc,
            })
        }
    }

    fn of(inside: Box<Compiled>) -> Handle
        ensures { result.value ≡ Some inside.value }
    {
        Handle::of_apart(Apart::of(inside))
    }

    fn into_box(self, alloc: Global) -> Option<Box<Compiled>>
        ensures { MatchOption result (self.value ≡ None) (λ b. self.value ≡ Some b.value) }
    {
        match self.into_apart(alloc) {
            None => None,
            Some(apart) => Some(apart.into_box()),
        }
    }

    /// Takes out what the handle holds, and leaves it empty.
    pub fn take(&mut self, alloc: Global) -> Option<Box<Compiled>>
        ensures taken { MatchOption result (self.old.value ≡ None) (λ b. self.old.value ≡ Some b.value) }
        ensures empty { self.new.value ≡ None }
    {
        mem::replace(self, Handle::empty()).into_box(alloc)
    }

    /// Makes the handle hold this regex. What it held before is freed.
    pub fn put(&mut self, alloc: Global, inside: Box<Compiled>)
        ensures { self.new.value ≡ Some inside.value }
    {
        drop(mem::replace(self, Handle::of(inside)).into_box(alloc));
    }
}
