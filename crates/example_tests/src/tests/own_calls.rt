//! The calls of a chain arena that no trait has.

use super::no_memory::NoMemory;
use super::renumbering::MARKS;
use super::{Named, Slot, number_of};
use arena_ptr::{SlotStack, ToolPtr};
use chain_arena::ChainArena;
use chain_arena::calls::{Call, run_calls};
use chain_renumbering::{Renumbering, renumber};
use chain_traits::ChainArenaTrait;
use std::alloc::Global;

/// The own calls of a chain arena, so that only its implementation names one.
pub(super) trait OwnCalls<P: Named>: ChainArenaTrait<P, u32> + Drop {
    /// Renumbers the links, and returns the new bookmarks, or `None` if it is refused.
    fn renumber(&mut self, alloc: Global) -> Option<[u32; 7]>;

    /// Returns whether the replies to calls are refused.
    fn replies_are_refused(&mut self, alloc: Global) -> bool;

    /// Returns whether the moves of a compression are refused.
    fn moves_are_refused(&mut self) -> bool;

    /// Returns the text of the arena with its counter.
    fn state(&self, alloc: Global) -> Option<String>;
}

impl<S: SlotStack<Item = Slot>> OwnCalls<ToolPtr> for ChainArena<ToolPtr, u32, S> {
    fn renumber(&mut self, alloc: Global) -> Option<[u32; 7]> {
        match renumber(self, alloc) {
            Ok(moved) => Some(new_marks(&moved)),
            Err(_) => None,
        }
    }

    fn replies_are_refused(&mut self, alloc: Global) -> bool {
        let calls: [Call<ToolPtr, u32>; 3] = [
            Call::IncGeneration,
            Call::Compress(false),
            Call::IncGeneration,
        ];
        match Vec::from_array(alloc, calls) {
            Ok(calls) => run_calls(NoMemory, self, calls).is_err(),
            Err(_) => false,
        }
    }

    fn moves_are_refused(&mut self) -> bool {
        self.compress_canonical_moves(NoMemory, false).is_err()
    }

    fn state(&self, alloc: Global) -> Option<String> {
        format!(in alloc; "{self:?} {:?}", self.generation()).ok()
    }
}

// Returns the new pointers of the bookmarks.
fn new_marks<P: Named>(moved: &Renumbering<P>) -> [u32; 7] {
    let mut marks = MARKS;
    for mark in marks.iter_mut() {
        *mark = number_of(moved.new_pointer(P::at(*mark)));
    }
    marks
}
