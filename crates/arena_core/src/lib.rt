//! The traits of pointers and slot stacks, results and errors.
#![tactic(auto)]

mod any_pointer;
mod errors;
mod heap_stack;
mod hint;
mod invalidation;
mod keys;
mod packed_option;
mod ptr;
mod recast;
mod slot_stack;
pub mod slots;
mod unit_generation;

pub use any_pointer::AnyPointer;
pub use errors::{
    AllocError, ChainInsertionError, MaxCapacityReductionError, NotWithinCapacityError,
    ReallocationError,
};
pub use heap_stack::HeapStack;
pub use hint::assume_proved;
pub use invalidation::{InvalidationOption, InvalidationResult};
pub use keys::{GenKey, InxKey, PtrKey};
pub use packed_option::PackedOption;
pub use ptr::{Ptr, PtrGen, PtrInx};
pub use recast::{Recast, Recaster};
pub use slot_stack::{LimitStack, SetMaxCapacity, SlotStack};
