//! Reads and writes the interlinks of a plain arena.
#![tactic(auto)]

pub mod agreement;
pub mod back_iterator;
pub mod back_step;
pub mod chain_iterators;
pub mod connection;
pub mod destinations;
pub mod link_writes;
pub mod links_text;
pub mod reversal;
pub mod walk_step;

pub use agreement::links_agree;
pub use back_iterator::ChainBackIter;
pub use chain_iterators::ChainIter;
