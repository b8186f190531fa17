//! Advancers along chains, in any arena of links.

use crate::calls::linked;
use crate::numbered::{At, NONE, Numbered, at, numbers};
use arena_traits::Advancer;
use chain_traits::ChainArenaTrait;
use std::alloc::Global;

// Returns the first `count` results of an advancer, five at most, and `NONE` for the others.
pub(crate) fn met<P: Numbered, C, V: Advancer<C, Item = P>>(
    mut advancer: V,
    arena: &C,
    count: u32,
) -> [At; 5] {
    let mut met = [NONE; 5];
    let mut left = count;
    for at in &mut met {
        if left > 0 {
            *at = numbers(advancer.advance(arena));
            left -= 1;
        }
    }
    met
}

// Returns at most five pointers of an advancer along a pointer's chain, or `None` if the pointer is
// invalid.
pub(crate) fn met_along<P: Numbered, A: ChainArenaTrait<P, u32>>(
    arena: &A,
    p: P,
) -> Option<[At; 5]> {
    let along = arena.advancer_chain(p)?;
    Some(met(along, arena, 5))
}

// Returns a new arena of lone links, connected as `linked` connects them.
fn linked_anew<P: Numbered, A: ChainArenaTrait<P, u32> + Drop>(
    alloc: Global,
    count: u32,
    numbers: &[u32],
) -> A {
    let mut arena = A::new(alloc);
    linked(&mut arena, count, numbers);
    arena
}

// Advances in a chain of two links, of which the second is then removed: the first link, and then
// nothing. Returns also the arena.
fn met_while_removed<P: Numbered, A: ChainArenaTrait<P, u32> + Drop>(
    alloc: Global,
) -> (At, [At; 5], A) {
    let mut arena: A = linked_anew(alloc, 2, &[1, 2]);
    let mut along = match arena.advancer_chain(at((1, 2))) {
        Some(along) => along,
        None => return (NONE, [NONE; 5], arena),
    };
    let first = numbers(along.advance(&arena));
    arena.remove(at((2, 2)));
    let gone = met(along, &arena, 5);
    (first, gone, arena)
}

// Advances over an empty arena, then over its own: nothing.
fn met_after_none<P: Numbered, A: ChainArenaTrait<P, u32> + Drop>(
    alloc: Global,
    arena: &A,
) -> [At; 5] {
    let mut along = match arena.advancer_chain(at((1, 2))) {
        Some(along) => along,
        None => return [(9, 9); 5],
    };
    match along.advance(&A::new(alloc)) {
        Some(p) => [numbers(Some(p)); 5],
        None => met(along, arena, 5),
    }
}

// Advances along a chain of one arena over another.
fn met_elsewhere<P: Numbered, A: ChainArenaTrait<P, u32>>(arena: &A, p: P, other: &A) -> [At; 5] {
    match arena.advancer_chain(p) {
        Some(along) => met(along, other, 5),
        None => [(9, 9); 5],
    }
}

// Returns what advancers yield over arenas that change: after a removal, in another arena, at a
// link disconnected there, and after `None`. They yield no more than they have steps.
pub(crate) fn changes_met<P: Numbered, A: ChainArenaTrait<P, u32> + Drop>(
    alloc: Global,
) -> (At, [[At; 5]; 4]) {
    let (first, gone, arena) = met_while_removed::<P, A>(alloc);
    let other: A = linked_anew(alloc, 3, &[1, 2, 3]);
    let one_step = met_elsewhere(&arena, at((1, 2)), &other);
    let lone: A = linked_anew(alloc, 3, &[]);
    let unlinked = met_elsewhere(&other, at((3, 2)), &lone);
    let none = met_after_none::<P, A>(alloc, &other);
    (first, [gone, one_step, unlinked, none])
}
