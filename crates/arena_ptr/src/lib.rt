//! Indexes, generations, pointers and slot stacks.
#![tactic(auto)]

mod chunk_stack;
mod generation;
mod index;
mod limited_stack;
mod slim_ptr;
mod tiny_ptr;
mod tool_ptr;

pub use arena_core::{
    AllocError, AnyPointer, ChainInsertionError, GenKey, HeapStack, InvalidationOption,
    InvalidationResult, InxKey, LimitStack, MaxCapacityReductionError, NotWithinCapacityError,
    PackedOption, Ptr, PtrGen, PtrInx, PtrKey, ReallocationError, Recast, Recaster, SetMaxCapacity,
    SlotStack,
};
pub use chunk_stack::ChunkStack;
pub use generation::{Gen8, Gen16, Gen24, Gen32, Gen64};
pub use index::{Inx8, Inx16, Inx32, Inx64};
pub use limited_stack::LimitedStack;
pub use slim_ptr::SlimPtr;
pub use tiny_ptr::TinyPtr;
pub use tool_ptr::ToolPtr;
