//! Handles of lists.

use arena_ptr::PtrKey;

/// The handle of a list.
#[derive(Clone, Copy)]
pub struct ListHandle<P: PtrKey> {
    /// The link before the first item and after the last one.
    pub head: P,
}
