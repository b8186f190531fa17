//! The trait of arenas of links, and generic code.
#![tactic(auto)]

mod arrange;
mod chain_traits;
mod clones;
pub mod compression_laws;
pub mod drain_in_order;
pub mod walks;

pub use chain_traits::ChainArenaTrait;
pub use clones::CloneChainArenaTrait;
