//! Renumbering of all links, with the new pointer of each.
#![tactic(auto)]

mod renumber_trait;
mod renumbering;

pub use renumber_trait::RenumberChainArenaTrait;
pub use renumbering::{Renumbering, renumber};
