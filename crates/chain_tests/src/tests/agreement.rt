//! Tests of plain arenas of links, which become chain arenas if their interlinks agree.

use super::scripts::plays;
use super::{ChainsOver, Slot, add_plain, fresh_plain, holds, to_chain_arena};
use arena_base::{Arena, ArenaTrait};
use arena_ptr::{SlotStack, ToolPtr};
use chain_arena::{LinkNoGen, links_agree};
use std::alloc::Global;
use std::process::Abort;
use test_types::numbered::{At, at};

type Plain<S> = Arena<ToolPtr, LinkNoGen<ToolPtr, u32>, S>;

// Returns a plain arena of links of the value 7 with these previous and next indexes, 0 for none.
// The links in `gone` are removed.
fn plain<S: SlotStack<Item = Slot>>(alloc: Global, links: &[At], gone: &[u32]) -> Plain<S> {
    let mut arena: Plain<S> = fresh_plain(alloc);
    for link in links {
        add_plain(&mut arena, *link, 7);
    }
    for k in gone {
        arena.remove(at((*k, 2)));
    }
    arena
}

// Interlinks, removed links, and whether the interlinks agree: no link may name a removed
// one.
static ROWS: [(&str, &[At], &[u32], bool); 16] = [
    ("no link", &[], &[], true),
    ("two in a row", &[(0, 2), (1, 0)], &[], true),
    ("a ring of one", &[(1, 1)], &[], true),
    ("a ring of two", &[(2, 2), (1, 1)], &[], true),
    ("a ring of three", &[(3, 2), (1, 3), (2, 1)], &[], true),
    ("a row and a ring", &[(0, 3), (2, 2), (1, 0)], &[], true),
    ("only a next", &[(0, 2), (0, 0)], &[], false),
    ("only a prev", &[(2, 0), (0, 0)], &[], false),
    ("half a ring of one", &[(0, 1)], &[], false),
    ("the other half", &[(1, 0)], &[], false),
    ("a ring without a prev", &[(2, 2), (0, 1)], &[], false),
    ("a row into a ring", &[(0, 2), (3, 3), (2, 2)], &[], false),
    ("a ring into a row", &[(0, 2), (1, 3), (2, 2)], &[], false),
    ("a next of two", &[(0, 3), (0, 3), (2, 0)], &[], false),
    ("no index", &[(0, 3)], &[], false),
    (
        "the interlinks of two, of which one is gone",
        &[(0, 2), (1, 0)],
        &[2],
        false,
    ),
];

const REFUSAL: &str = "interlink transitivity does not hold";

// Returns the number of links, whether they agree, and the error of the conversion.
fn agreement<S: SlotStack<Item = Slot>>(arena: Plain<S>) -> (usize, bool, Option<&'static str>) {
    let count = arena.len();
    let agree = links_agree(&arena);
    (count, agree, to_chain_arena(arena).err())
}

// Returns the rows. Only this body names them, since each step of a body lists what the body names.
fn rows() -> &'static [(&'static str, &'static [At], &'static [u32], bool)] {
    &ROWS
}

pub(super) fn check_rows<S: SlotStack<Item = Slot>>(rt: &impl Abort, alloc: Global) {
    for row in rows() {
        let (what, links, gone, agree) = *row;
        let count = links.len().saturating_sub(gone.len());
        let refusal = if agree { None } else { Some(REFUSAL) };
        let arena = plain::<S>(alloc, links, gone);
        holds(rt, what, agreement(arena) == (count, agree, refusal));
    }
}

// A chain of two and a ring of one beside two free slots. The last freed index is used first, then
// the other.
const ACCEPTED: &str = "\
Debug = {P0[1](2): {(start), 3} 7, P0[3](2): {1, (end)} 7, P0[5](2): {5, 5} 7}
Insert Disconnected 9 = Ok(P0[2](4))
Insert Disconnected 9 = Ok(P0[4](4))
Debug = {P0[1](2): {(start), 3} 7, P0[2](4): {(start), (end)} 9, P0[3](2): {1, (end)} 7, P0[4](4): {(start), (end)} 9, P0[5](2): {5, 5} 7}
";

fn accepted_arena<S: SlotStack<Item = Slot>>(rt: &impl Abort, alloc: Global) -> ChainsOver<S> {
    let links = [(0, 3), (0, 0), (1, 0), (0, 0), (5, 5)];
    let arena = plain::<S>(alloc, &links, &[4, 2]);
    to_chain_arena(arena).expect(rt, "interlinks that agree")
}

// The conversion keeps indexes, generations, interlinks, counter and freed list.
pub(super) fn check_accepted<S: SlotStack<Item = Slot>>(rt: &impl Abort, alloc: Global) {
    let mut arena: ChainsOver<S> = accepted_arena(rt, alloc);
    plays(rt, alloc, &mut arena, ACCEPTED);
}
