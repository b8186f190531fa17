//! Links that name their neighbors by index.
#![tactic(auto)]

mod arena_laws;
mod kinds;
pub mod link_access;
mod link_order;
mod link_text;
pub mod links;
pub mod walk_direction;

pub use arena_laws::{distinct_entries_fit, valid_links_admit_neighbors};
pub use chain_laws::insert_kind::InsertKind;
pub use kinds::LinkInsertKind;
pub use link_order::links_compare_by_neighbors;
pub use links::{Interlink, Link, LinkNoGen, RawLink, Vacant};
