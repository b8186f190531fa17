//! Arenas of values of any type, made by calls.

use super::scripts::Parsed;
use super::{fresh, insert_or_invalid};
use arena_base::{ArenaSlot, ArenaTrait};
use arena_ptr::{SlotStack, ToolPtr};
use chain_arena::{ChainArena, LinkNoGen};
use std::alloc::Global;
use test_types::lines::{Do, parse_call};
use test_types::numbered::Numbered;

// A value that a line gives as a number.
pub(super) trait Valued {
    fn of(alloc: Global, n: u32) -> Self;
}

pub(super) type SlotOf<T> = ArenaSlot<ToolPtr, LinkNoGen<ToolPtr, T>>;

fn run<T: Valued + Drop, S: SlotStack<Item = SlotOf<T>>>(
    alloc: Global,
    arena: &mut ChainArena<ToolPtr, T, S>,
    parsed: Parsed,
) {
    match parsed.call {
        Do::Insert => {
            insert_or_invalid(arena, parsed.kind, T::of(alloc, parsed.t));
        }
        Do::Remove => {
            arena.remove(parsed.p);
        }
        Do::SetGeneration => arena.set_generation(ToolPtr::generation_of(parsed.n)),
        _ => {}
    }
}

// Returns the arena after insertions, removals and settings of the counter.
pub(super) fn after<T: Valued + Drop, S: SlotStack<Item = SlotOf<T>>>(
    alloc: Global,
    calls: &str,
) -> ChainArena<ToolPtr, T, S> {
    let mut arena: ChainArena<ToolPtr, T, S> = fresh(alloc);
    for call in calls.lines() {
        if let Some(parsed) = parse_call(call) {
            run(alloc, &mut arena, parsed);
        }
    }
    arena
}
