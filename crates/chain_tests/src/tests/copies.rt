//! Copies of chain arenas to chain arenas: what they contain, and what their closures are given.

use super::fallible_insertion::add;
use super::{ChainsOver, Slot, fresh, remove};
use arena_base::ArenaTrait;
use arena_ptr::{SlotStack, ToolPtr};
use chain_arena::{ChainArenaTrait, LinkInsertKind, LinkNoGen};
use std::alloc::Global;
use test_types::lines::text;

// Returns the next pointer in a clone, the clone then, and its maximum.
pub(super) fn clone_text<S: SlotStack<Item = Slot>>(
    alloc: Global,
    arena: &ChainsOver<S>,
) -> String {
    match arena.clone(alloc) {
        Ok(mut copy) => {
            let next = copy.insert_reallocating(LinkInsertKind::Disconnected, 9);
            text(alloc, (next, &copy, copy.max_capacity()))
        }
        Err(error) => text(alloc, error),
    }
}

// Returns a chain of `count` links without the second.
pub(super) fn with_a_hole<S: SlotStack<Item = Slot>>(alloc: Global, count: u32) -> ChainsOver<S> {
    let mut arena: ChainsOver<S> = fresh(alloc);
    let mut kind = LinkInsertKind::Disconnected;
    for k in 1..=count {
        kind = LinkInsertKind::ChainEnd(add(&mut arena, kind, k));
    }
    remove(&mut arena, (2, 2));
    arena
}

// What a closure of a copy is given.
pub(super) type Visited = Vec<(ToolPtr, LinkNoGen<ToolPtr, u32>)>;

// Copies a chain of `count` links without the second, and returns what the closure is given. It
// adds ten times the number of its call to each value.
pub(super) fn copied_over<S: SlotStack<Item = Slot>>(
    alloc: Global,
    target: &mut ChainsOver<S>,
    count: u32,
) -> String {
    let source: ChainsOver<S> = with_a_hole(alloc, count);
    let mut visited: Visited = Vec::new(alloc);
    let mut calls = 0u32;
    let outcome = target.clone_from_with(&source, |p, link: &LinkNoGen<ToolPtr, u32>| {
        let _ = visited.push((p, *link));
        calls = calls.saturating_add(10);
        link.t.saturating_add(calls)
    });
    text(alloc, (outcome, visited))
}
