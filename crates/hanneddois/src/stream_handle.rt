//! What a caller from C holds of streams: nothing, or the memory of a set of them.
ghost use Rattle.std.specs.Prelude.{◌≡◌, Some, None, Option};
ghost use Rattle.std.specs.Option.{MatchOption};
ghost use Rattle.stream_regex.specs.Sets.{SetValue};
ghost use Rattle.hanneddois.specs.Handles.{held_set, coded_set};

use crate::apart::Apart;
use std::alloc::Global;
use std::marker::Model;
use std::mem;
use std::ptr::null_mut;
use stream_regex::StreamSet;

/// Nothing, or a set of streams.
#[repr(C)]
pub struct StreamHandle {
    inside: *mut u8,
    pub ghost value: { Option SetValue } by { coded_set },
}

impl Model for StreamHandle {
    ghost use Rattle.hanneddois.specs.Handles.{held_set};

    ghost also_owns = { λ h. held_set h.inside h.value };
}

impl StreamHandle {
    /// A handle that holds nothing.
    fn empty() -> StreamHandle
        ensures { result.value ≡ None }
    {
        StreamHandle { inside: null_mut() }
    }

    /// A handle that owns what the parts of a box own.
    fn of_apart(apart: Apart<StreamSet, Global>) -> StreamHandle
        ensures { result.value ≡ Some apart.value }
    {
        let Apart { at, alloc: _ } = apart;
        StreamHandle {
            inside: at as *mut u8,
        }
    }

    /// The parts of the box that the handle holds, if any.
    fn into_apart(self, alloc: Global) -> Option<Apart<StreamSet, Global>>
        ensures { MatchOption result (self.value ≡ None) (λ a. self.value ≡ Some a.value) }
    {
        let StreamHandle { inside } = self;
        if inside.is_null() {
            None
        } else {
            Some(Apart {
                at: inside as *mut StreamSet,
                alloc,
            })
        }
    }

    fn of(inside: Box<StreamSet>) -> StreamHandle
        ensures { result.value ≡ Some inside.value }
    {
        StreamHandle::of_apart(Apart::of(inside))
    }

    fn into_box(self, alloc: Global) -> Option<Box<StreamSet>>
        ensures { MatchOption result (self.value ≡ None) (λ b. self.value ≡ Some b.value) }
    {
        match self.into_apart(alloc) {
            None => None,
            Some(apart) => Some(apart.into_box()),
        }
    }

    /// Takes out what the handle holds, and leaves it empty.
    pub fn take(&mut self, alloc: Global) -> Option<Box<StreamSet>>
        ensures taken { MatchOption result (self.old.value ≡ None) (λ b. self.old.value ≡ Some b.value) }
        ensures empty { self.new.value ≡ None }
    {
        mem::replace(self, StreamHandle::empty()).into_box(alloc)
    }

    /// Makes the handle hold this set. What it held before is freed.
    pub fn put(&mut self, alloc: Global, inside: Box<StreamSet>)
        ensures { self.new.value ≡ Some inside.value }
    {
        drop(mem::replace(self, StreamHandle::of(inside)).into_box(alloc));
    }
}
