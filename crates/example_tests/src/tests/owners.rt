//! A test of `set_owners`.

use super::{Named, number_of};
use chain_examples::tutorial::set_owners;
use chain_links::LinkInsertKind;
use chain_traits::ChainArenaTrait;
use std::alloc::Global;

// Inserts a link, again if an allocation fails, and returns whether it has this pointer.
fn is_inserted<P: Named, A: ChainArenaTrait<P, (u32, P)>>(
    arena: &mut A,
    kind: LinkInsertKind<P>,
    key: u32,
    number: u32,
) -> bool {
    let value = (key, P::at(0x12));
    number_of(arena.insert_reallocating(kind, value).ok()) == number
        || number_of(arena.insert_reallocating(kind, value).ok()) == number
}

// Returns whether a link has this key and this owner.
fn is_owned<P: Named, A: ChainArenaTrait<P, (u32, P)>>(
    arena: &A,
    p: u32,
    key: u32,
    owner: u32,
) -> bool {
    match arena.get(P::at(p)) {
        Some((k, o)) => *k == key && o.number() == owner,
        None => false,
    }
}

// Returns whether a chain of two links gets an owner, from its second link on, and a lone link keeps
// its own.
pub(super) fn are_right<P: Named, A: ChainArenaTrait<P, (u32, P)> + Drop>(alloc: Global) -> bool {
    let mut arena = A::new(alloc);
    let are_inserted = is_inserted(&mut arena, LinkInsertKind::Disconnected, 4, 0x12)
        && is_inserted(&mut arena, LinkInsertKind::ChainEnd(P::at(0x12)), 5, 0x22)
        && is_inserted(&mut arena, LinkInsertKind::Disconnected, 6, 0x32);
    let is_stale = set_owners(&mut arena, P::at(0x23), P::at(0x32)).is_none();
    let is_kept = is_owned(&arena, 0x22, 5, 0x12);
    let is_done = set_owners(&mut arena, P::at(0x22), P::at(0x32)).is_some();
    let is_chain_owned = is_owned(&arena, 0x12, 4, 0x32) && is_owned(&arena, 0x22, 5, 0x32);
    let is_other_kept = is_owned(&arena, 0x32, 6, 0x12);
    are_inserted && is_stale && is_kept && is_done && is_chain_owned && is_other_kept
}
