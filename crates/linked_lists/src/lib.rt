//! Doubly linked lists in one arena, with O(1) insertion, removal and moves between lists.
#![tactic(auto)]

mod entry;
mod handle;
mod linked_lists;
mod rings;

pub use entry::Entry;
pub use handle::ListHandle;
pub use linked_lists::LinkedLists;
