//! Insertions where one allocation may be refused.

use super::{ChainsOver, Slot, remove};
use arena_base::{ArenaSlot, ArenaTrait};
use arena_ptr::{PtrKey, SlotStack};
use chain_arena::{ChainArena, ChainArenaTrait, LinkInsertKind, LinkNoGen};

// Inserts a number, on a second attempt if the first allocation is refused, and returns its pointer
// or the invalid one.
pub(super) fn add<P: PtrKey, S: SlotStack<Item = ArenaSlot<P, LinkNoGen<P, u32>>>>(
    arena: &mut ChainArena<P, u32, S>,
    kind: LinkInsertKind<P>,
    t: u32,
) -> P {
    for _ in 0..2 {
        if let Ok(p) = arena.insert_reallocating(kind, t) {
            return p;
        }
    }
    P::invalid()
}

// Makes a chain up to the capacity, of 2 to 64 links, each with its index as its value.
pub(super) fn fill<P: PtrKey, S: SlotStack<Item = ArenaSlot<P, LinkNoGen<P, u32>>>>(
    arena: &mut ChainArena<P, u32, S>,
) {
    let mut kind = LinkInsertKind::Disconnected;
    for t in 1..=64u32 {
        if t < 3 || arena.len() < arena.capacity() {
            kind = LinkInsertKind::ChainEnd(add(arena, kind, t));
        }
    }
}

// Makes a chain of eight links, each with its index as its value, without three. The freed list is
// 3, 5, 2.
pub(super) fn dig<S: SlotStack<Item = Slot>>(arena: &mut ChainsOver<S>) {
    let mut kind = LinkInsertKind::Disconnected;
    for t in 1..=8 {
        kind = LinkInsertKind::ChainEnd(add(arena, kind, t));
    }
    for i in [2, 5, 3] {
        remove(arena, (i, 2));
    }
}
