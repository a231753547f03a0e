//! A box as the pointer to its value and the allocator that frees it, and back.
//!
//! A program in another language keeps a host by such a pointer. The one `unsafe` block of the repository stands here.
#![tactic(auto)]

ghost use Rattle.std.specs.Prelude.{◌≡◌};

use std::alloc::Allocator;
use std::marker::Model;

/// What a box is made of. It owns the value at the pointer, and may free it.
pub struct BoxParts<T, A: Allocator> {
    /// Where the value is.
    pub pointer: *mut T,
    /// What frees it.
    pub alloc: A,
    /// The value itself.
    pub ghost value: { T },
}

impl<T, A: Allocator> Model for BoxParts<T, A> {
    ghost use Rattle.std.specs.Box.Ownership.{box_owns};

    ghost also_owns = { λ parts.
        box_owns (A.dealloc_token parts.alloc) T.row parts.pointer parts.value };
}

impl<T: Drop, A: Allocator> BoxParts<T, A> {
    /// Takes a box apart.
    pub fn of(boxed: Box<T, A>) -> BoxParts<T, A>
        ensures { result.value ≡ boxed.value }
    {
        let (pointer, alloc) = Box::into_raw_with_allocator(boxed);
        BoxParts { pointer, alloc }
    }

    /// Makes the box again.
    pub fn into_box(self) -> Box<T, A>
        ensures { result.value ≡ self.value }
    {
        let BoxParts { pointer, alloc } = self;
        unsafe { Box::from_raw(alloc, pointer) }
    }
}
