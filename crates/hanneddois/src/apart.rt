//! Values in memory blocks of their own, and a box as its pointer and its allocator.
ghost use Rattle.std.specs.Prelude.{◌≡◌, IfOk};
ghost use Rattle.std.specs.Box.Ownership.{box_owns};

use std::alloc::{AllocError, Allocator, Global};
use std::marker::Model;

/// A value in a memory block of its own, if memory suffices.
pub(crate) fn boxed<T: Drop>(alloc: Global, value: T) -> Result<Box<T>, AllocError>
    ensures { IfOk result (λ b. b.value ≡ value) }
{
    match Box::new(alloc, value) {
        Ok(whole) => Ok(whole),
        Err(_) => Err(AllocError),
    }
}

/// The parts of a box. They own what the box owned.
pub(crate) struct Apart<T, A: Allocator> {
    pub(crate) at: *mut T,
    pub(crate) alloc: A,
    pub(crate) ghost value: { T },
}

impl<T, A: Allocator> Model for Apart<T, A> {
    ghost also_owns = { λ a. box_owns (A.dealloc_token a.alloc) T.row a.at a.value };
}

impl<T, A: Allocator> Apart<T, A> {
    pub(crate) fn of(whole: Box<T, A>) -> Apart<T, A>
    where
        T: Drop,
        ensures { result.value ≡ whole.value }
    {
        let (at, alloc) = Box::into_raw_with_allocator(whole);
        Apart { at, alloc }
    }

    pub(crate) fn into_box(self) -> Box<T, A>
        ensures { result.value ≡ self.value }
    {
        let Apart { at, alloc } = self;
        unsafe { Box::from_raw(alloc, at) }
    }
}
