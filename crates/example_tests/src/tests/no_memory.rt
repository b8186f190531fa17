//! Tests of calls that allocate from a given allocator, which refuses every request.

ghost use Rattle.std.specs.Borrow.{ffalse};

use super::Named;
use super::own_calls::OwnCalls;
use super::renumbering::are_inserted;
use std::alloc::{AllocError, Allocator, Global};

/// An allocator that refuses every request.
#[derive(Clone, Copy)]
pub(super) struct NoMemory;

unsafe impl Allocator for NoMemory {
    ghost dealloc_token = { λ _ _ _. ffalse };

    fn allocate(&self, _size: usize, _align: usize) -> Result<*mut u8, AllocError> {
        Err(AllocError)
    }

    unsafe fn deallocate(&self, _ptr: *mut u8, _size: usize, _align: usize) {}
}

/// Returns whether the replies to calls and the moves of a compression are refused, and nothing
/// changes.
fn are_refused<P: Named, A: OwnCalls<P>>(alloc: Global, arena: &mut A) -> bool {
    let (before, capacity) = (arena.state(alloc), arena.capacity());
    let are_refused = arena.replies_are_refused(alloc) && arena.moves_are_refused();
    let is_kept = arena.capacity() == capacity && arena.state(alloc) == before;
    are_refused && before.is_some() && is_kept
}

pub(super) fn are_right<P: Named, A: OwnCalls<P>>(alloc: Global) -> bool {
    let mut arena = A::new(alloc);
    are_inserted(&mut arena) && are_refused(alloc, &mut arena)
}
