//! Tests of the functions of the tutorial that loop.

use super::Named;
use chain_examples::tutorial::{place_in_walk, put_behind, values_from};
use chain_links::LinkInsertKind;
use chain_traits::ChainArenaTrait;
use std::alloc::Global;

// Builds the list 1, 2, 3, 4, at the second attempt to grow if the first is refused.
fn built<P: Named, A: ChainArenaTrait<P, u32>>(arena: &mut A) -> Option<(P, P)> {
    if arena.reallocate_min_capacity(4).is_err() {
        arena.reallocate_min_capacity(4).ok()?;
    }
    let first = arena
        .insert_reallocating(LinkInsertKind::Disconnected, 1)
        .ok()?;
    let second = put_behind(arena, first, 2).ok()?;
    let third = put_behind(arena, second, 3).ok()?;
    let last = put_behind(arena, third, 4).ok()?;
    Some((first, last))
}

fn reads_list<P: Named, A: ChainArenaTrait<P, u32>>(arena: &A, alloc: Global, p: P) -> bool {
    match values_from(arena, alloc, p) {
        Ok(Some(values)) => values.as_slice() == [1, 2, 3, 4].as_slice(),
        _ => false,
    }
}

// Returns whether a list is built, read back, and searched, and a stale pointer refused.
pub(super) fn are_right<P: Named, A: ChainArenaTrait<P, u32> + Drop>(alloc: Global) -> bool {
    let mut arena = A::new(alloc);
    let Some((first, last)) = built(&mut arena) else {
        return false;
    };
    let stale = P::at(0x13);
    let found = place_in_walk(&arena, first, last) == Some(3)
        && place_in_walk(&arena, last, first) == Some(3)
        && place_in_walk(&arena, first, stale).is_none()
        && place_in_walk(&arena, stale, first).is_none();
    let none = match values_from(&arena, alloc, stale) {
        Ok(None) => true,
        _ => false,
    };
    found && none && reads_list(&arena, alloc, first)
}
