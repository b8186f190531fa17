//! Documents in one arena: linked lists of paragraphs that can be renumbered.
#![tactic(auto)]

mod laws;
mod renumbering;

pub use laws::{calls_keep_paragraphs, calls_make_changes};
pub use linked_lists::{Entry, LinkedLists as Documents, ListHandle as Document};
pub use renumbering::{moved_document, renumber};
