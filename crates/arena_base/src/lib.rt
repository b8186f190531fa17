//! A generational arena, whose slots are reused.
#![tactic(auto)]

mod advancer;
mod arena;
mod arena_trait;
mod compactor;
mod compress;
mod copy;
mod copy_traits;
mod detached_slots;
mod entry;
mod exchange;
mod free_list;
mod iterators;
mod slot;
mod tally;

pub use advancer::PtrAdvancer;
pub use arena::Arena;
pub use arena_core::{assume_proved, proved_unreachable};
pub use arena_traits::{
    Advancer, ArenaTrait, CloneArenaTrait, CompactArenaTrait, PlainArenaTrait,
    entries_determine_occupancy, writes_change_one_value,
};
pub use compactor::{Compactor, SlotAccess, Work};
pub use copy::ClosureMap;
pub use copy_traits::{ArenaCloneFromWith, ValueMap};
pub use entry::ArenaInsertEntry;
pub use iterators::{CapacityDrain, Iter};
pub use slot::{ArenaSlot, inx_at, number_of, position_of};
