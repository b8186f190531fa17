//! Tests of a renumbering with bookmarks.

use super::own_calls::OwnCalls;
use super::{Named, number_of, value_of};
use chain_links::LinkInsertKind;
use chain_traits::ChainArenaTrait;
use std::alloc::Global;

/// Bookmarks before a renumbering: of each link, of a removed link, of an old generation of an index
/// that has a link, and of an index without a slot.
pub(super) const MARKS: [u32; 7] = [0x43, 0x12, 0x22, 0x23, 0x32, 0x13, 0x52];

/// The new bookmarks.
const NEW_MARKS: [u32; 7] = [0x44, 0x14, 0, 0x34, 0x24, 0, 0];

// The values of the new bookmarks.
const VALUES: [u32; 7] = [5, 1, 0, 4, 3, 0, 0];

// Inserts a link, again if a growth is refused, and returns whether it has this pointer.
fn is_inserted<P: Named, A: ChainArenaTrait<P, u32>>(
    arena: &mut A,
    kind: LinkInsertKind<P>,
    t: u32,
    number: u32,
) -> bool {
    number_of(arena.insert_reallocating(kind, t).ok()) == number
        || number_of(arena.insert_reallocating(kind, t).ok()) == number
}

/// Makes a chain of three links, with the last in a freed slot after the first, and a lone link.
/// Returns whether each is inserted.
pub(super) fn are_inserted<P: Named, A: ChainArenaTrait<P, u32>>(arena: &mut A) -> bool {
    is_inserted(arena, LinkInsertKind::Disconnected, 1, 0x12)
        && is_inserted(arena, LinkInsertKind::ChainEnd(P::at(0x12)), 2, 0x22)
        && is_inserted(arena, LinkInsertKind::ChainEnd(P::at(0x22)), 3, 0x32)
        && arena.remove(P::at(0x22)).allow() == Some(2)
        && is_inserted(arena, LinkInsertKind::ChainEnd(P::at(0x32)), 4, 0x23)
        && is_inserted(arena, LinkInsertKind::Disconnected, 5, 0x43)
        && arena.len() == 4
}

// Renumbers, again if an allocation fails, which changes nothing. Returns the new bookmarks.
fn marks_after<P: Named, A: OwnCalls<P>>(arena: &mut A, alloc: Global) -> Option<[u32; 7]> {
    let before = arena.state(alloc);
    match arena.renumber(alloc) {
        Some(marks) => Some(marks),
        None if before.is_none() || arena.state(alloc) == before => arena.renumber(alloc),
        None => None,
    }
}

// Returns whether the links of the new bookmarks have these values, and the old bookmarks are no
// longer valid.
fn are_values<P: Named, A: ChainArenaTrait<P, u32>>(arena: &A) -> bool {
    for (mark, t) in NEW_MARKS.iter().zip(&VALUES) {
        if value_of(arena.get(P::at(*mark))) != *t {
            return false;
        }
    }
    for mark in &MARKS {
        if arena.contains(P::at(*mark)) {
            return false;
        }
    }
    true
}

/// Returns whether bookmarks follow their links.
pub(super) fn is_right<P: Named, A: OwnCalls<P>>(alloc: Global) -> bool {
    let mut arena = A::new(alloc);
    let is_made = are_inserted(&mut arena);
    let marks = marks_after(&mut arena, alloc);
    is_made && marks == Some(NEW_MARKS) && are_values(&arena)
}

/// Returns whether no bookmark is valid after the renumbering of an arena without links.
pub(super) fn is_right_without_links<P: Named, A: OwnCalls<P>>(alloc: Global) -> bool {
    let mut arena = A::new(alloc);
    marks_after(&mut arena, alloc) == Some([0; 7]) && arena.is_empty()
}
