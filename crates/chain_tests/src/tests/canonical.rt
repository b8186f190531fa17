//! Tests of canonical compressions, which arrange chains in place one after another.

use super::{ChainsOver, Slot, holds, lone_links, remove};
use arena_base::{ArenaSlot, Work};
use arena_ptr::{
    AllocError, Gen32, InvalidationOption, PtrKey, ReallocationError, SlotStack, ToolPtr,
};
use chain_arena::{ChainArena, ChainArenaTrait, LinkNoGen};
use std::alloc::Global;
use std::process::Abort;
use test_types::lines::text;
use test_types::numbered::Counted;

pub(super) fn compress_and_count<S: SlotStack<Item = Slot>>(
    arena: &mut ChainsOver<S>,
    reset: bool,
) -> (InvalidationOption<()>, Work) {
    arena.compress_canonical_counted(reset)
}

// Compresses, and returns the number of links placed.
pub(super) fn placement_count<S: SlotStack<Item = Slot>>(
    arena: &mut ChainsOver<S>,
    reset: bool,
) -> (InvalidationOption<()>, u128) {
    let (reply, work) = compress_and_count(arena, reset);
    (reply, work.placed)
}

// The old and the new pointer of each link.
type Moves = Vec<(ToolPtr, ToolPtr)>;

// Returns the moves that a compression reports to its closure.
pub(super) fn moves_visited<S: SlotStack<Item = Slot>>(
    alloc: Global,
    arena: &mut ChainsOver<S>,
    reset: bool,
) -> (InvalidationOption<()>, Moves) {
    let mut moves = Vec::new(alloc);
    let reply = arena.compress_canonical_with(reset, |p, q| {
        let _ = moves.push((p, q));
    });
    (reply, moves)
}

// Returns the moves that a compression lists.
pub(super) fn moves_listed<S: SlotStack<Item = Slot>>(
    alloc: Global,
    arena: &mut ChainsOver<S>,
    reset: bool,
) -> Result<(InvalidationOption<()>, Moves), AllocError> {
    arena.compress_canonical_moves(alloc, reset)
}

// Transfers all links of an arena to another. Generic over pointers and values, the types cost its
// proof less.
pub(super) fn carry_over<P: PtrKey, T: Drop, S: SlotStack<Item = ArenaSlot<P, LinkNoGen<P, T>>>>(
    source: &mut ChainArena<P, T, S>,
    target: &mut ChainArena<P, T, S>,
    now: P::Gen,
) -> Result<(), ReallocationError> {
    target.transfer_canonical_reallocating(now, source, |_, value, _| value.allow())
}

// Transfers lone links to an arena with generation 7. Returns the result and the source then.
pub(super) fn carried_in<S: SlotStack<Item = Slot>>(
    alloc: Global,
    target: &mut ChainsOver<S>,
    count: u32,
) -> String {
    let mut source: ChainsOver<S> = lone_links(alloc, count);
    let outcome = carry_over(&mut source, target, Gen32::of(7));
    text(alloc, (outcome, &source))
}

// Compresses lone links behind as many holes. Returns whether the work is within its bound and
// places each link once.
fn within_bound<S: SlotStack<Item = Slot>>(alloc: Global, count: u32, reset: bool) -> bool {
    let mut arena: ChainsOver<S> = lone_links(alloc, count.saturating_mul(2));
    for k in 1..=count {
        remove(&mut arena, (k, 2));
    }
    let links = u128::from(count);
    let (_, work) = compress_and_count(&mut arena, reset);
    let slots = links.saturating_mul(2);
    let bound = slots
        .saturating_mul(4)
        .saturating_add(links.saturating_mul(12));
    work.placed == links && work.touched <= bound
}

pub(super) fn check_bounds<S: SlotStack<Item = Slot>>(rt: &impl Abort, alloc: Global) {
    let few = within_bound::<S>(alloc, 100, false);
    let many = within_bound::<S>(alloc, 100_000, true);
    holds(rt, "work within its bound", few && many);
}
