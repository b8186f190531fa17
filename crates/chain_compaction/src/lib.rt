//! Compaction of a plain arena of links.
#![tactic(auto)]

mod assign_destinations;
pub mod canonical;
pub mod compress;
mod in_order;
mod permute;
mod read_ahead;
mod slot_access;
pub mod visitor;
