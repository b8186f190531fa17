//! A generational arena whose values are linked into doubly linked chains, linear or cyclic.
//!
//! ```text
//! index       1    2    3    4    5    6          one arena of six links, in three chains
//!
//!             start - 1 <-> 3 <-> 6 - end         a linear chain
//!             .-> 2 <-> 5 <-.                     a cyclic one: after 5 comes 2 again
//!             '-------------'
//!             start - 4 - end                     a link alone is a chain, too
//! ```
//!
//! ```rust
//! #![tactic(auto)]
//!
//! use arena_base::ArenaTrait;
//! use arena_ptr::{ChainInsertionError, ToolPtr};
//! use chain_arena::{ChainArena, ChainArenaTrait, LinkInsertKind};
//! use std::alloc::Global;
//!
//! /// Builds the list 10, 20, 30, removes 20, and returns whether 10 and 30 are now neighbors.
//! pub fn removal_connects_neighbors(alloc: Global) -> Result<bool, ChainInsertionError> {
//!     let mut arena: ChainArena<ToolPtr, u32> = ChainArena::new(alloc);
//!     let a = arena.insert_reallocating(LinkInsertKind::Disconnected, 10)?;
//!     let c = arena.insert_reallocating(LinkInsertKind::ChainEnd(a), 30)?;
//!     let b = arena.insert_reallocating(LinkInsertKind::NextTo(a), 20)?; // 10, 20, 30
//!     arena.remove(b); // 10, 30
//!     Ok(arena.are_neighbors(a, c))
//! }
//! ```
#![tactic(auto)]

mod arena_text;
mod back_advancer;
pub mod calls;
mod chain_advancer;
mod chain_arena;
mod chain_drains;
mod chains;
mod copy;
mod from_arena;
mod impl_arena_trait;
mod impl_chain_arena_trait;
mod indexing;
mod insert;
mod insert_entry;
mod iterators;
mod link_drains;
mod recast;
mod starts;
mod transfer;
mod transfer_chain;
mod visitors;

pub use back_advancer::ChainBackAdvancer;
pub use calls::{Call, Reply, apply, run_calls, runs_are_determined};
pub use chain_advancer::ChainPtrAdvancer;
pub use chain_arena::ChainArena;
pub use chain_compaction::visitor::Visitor;
pub use chain_drains::{ChainDrain, drain_gives_the_walk};
pub use chain_linking::{ChainBackIter, ChainIter, links_agree};
pub use chain_links::{
    InsertKind, Link, LinkInsertKind, LinkNoGen, RawLink, links_compare_by_neighbors,
};
pub use chain_traits::{ChainArenaTrait, CloneChainArenaTrait};
pub use chains::ChainHead;
pub use insert_entry::ChainArenaInsertEntry;
pub use iterators::ValIter;
pub use link_drains::LinkDrain;
pub use starts::Starts;
pub use transfer::{
    compression_and_transfer_agree, compression_moves_pointers, transfer_moves_pointers,
};
pub use visitors::MapVisitor;
