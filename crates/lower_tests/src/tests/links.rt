//! Pointers of the tests of links.

use arena_ptr::{Gen32, Inx32, PtrKey, ToolPtr};

// A pointer as its index and its generation; (0, 0) is none.
pub(super) type At = (u32, u32);

pub(super) const NONE: At = (0, 0);

// Returns a pointer, or `None` if its index or its generation is zero.
pub(super) fn pointer(p: At) -> Option<ToolPtr> {
    match (Inx32::new(p.0), Gen32::new(p.1)) {
        (Some(i), Some(g)) => Some(ToolPtr::_from_raw(i, g)),
        _ => None,
    }
}
