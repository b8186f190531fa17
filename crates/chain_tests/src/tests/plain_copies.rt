//! Tests of copies of chain arenas to plain arenas, also of refused ones.

use super::copies::{Visited, with_a_hole};
use super::scripts::slots_of;
use super::{Bare, ChainsOver, Slot, holds, same};
use arena_base::{Arena, ArenaCloneFromWith, ArenaTrait};
use arena_ptr::{ReallocationError, SetMaxCapacity, SlotStack, ToolPtr};
use chain_arena::LinkNoGen;
use std::alloc::Global;
use std::process::Abort;
use test_types::lines::text;
use test_types::numbered::{At, at};

// A plain arena of numbers, with the calls that no trait has. A bound costs less than the type.
pub(super) trait PlainArena: ArenaCloneFromWith<ToolPtr, u32> + Drop {
    // Inserts a number, with growth.
    fn add(&mut self, t: u32) -> Option<ToolPtr>;

    // Inserts a number within the capacity.
    fn add_within(&mut self, t: u32) -> Option<ToolPtr>;

    // Returns the slots as a text.
    fn slots(&self, alloc: Global) -> String;
}

impl<R: SlotStack<Item = Bare>> PlainArena for Arena<ToolPtr, u32, R> {
    fn add(&mut self, t: u32) -> Option<ToolPtr> {
        self.insert_reallocating(t).ok()
    }

    fn add_within(&mut self, t: u32) -> Option<ToolPtr> {
        self.insert_within_capacity(t).ok()
    }

    fn slots(&self, alloc: Global) -> String {
        slots_of(alloc, self.backing())
    }
}

// Copies an arena by a closure, which adds ten times the number of its call to each value. Returns
// also what the closure is given.
fn copied<S: SlotStack<Item = Slot>, A: PlainArena>(
    alloc: Global,
    source: &ChainsOver<S>,
    target: &mut A,
) -> (Result<(), ReallocationError>, Visited) {
    let mut visited = Vec::new(alloc);
    let mut calls = 0u32;
    let outcome = source.clone_to_arena(target, |p, link: &LinkNoGen<ToolPtr, u32>| {
        let _ = visited.push((p, *link));
        calls = calls.saturating_add(10);
        link.t.saturating_add(calls)
    });
    (outcome, visited)
}

fn value_of<A: PlainArena>(arena: &A, p: At) -> Option<u32> {
    arena.get(at(p)).copied()
}

// Returns the number of entries, the capacity and the counter as a text.
fn size_text<A: PlainArena>(alloc: Global, arena: &A) -> String {
    let size = (arena.len(), arena.capacity(), arena.singular_generation());
    text(alloc, size)
}

// Returns the next pointer, and the values at 1 and 3.
fn next_text<A: PlainArena>(alloc: Global, arena: &mut A) -> String {
    let next = arena.add(9);
    let values = (value_of(arena, (1, 2)), value_of(arena, (3, 2)));
    text(alloc, (next, values))
}

// Copies the links 1 and 3 twice. Returns both results, the size between them, and the next pointer
// and the values then.
pub(super) fn copied_twice<S: SlotStack<Item = Slot>, A: PlainArena>(
    alloc: Global,
    target: &mut A,
) -> [String; 4] {
    let source: ChainsOver<S> = with_a_hole(alloc, 3);
    [
        text(alloc, copied(alloc, &source, target)),
        size_text(alloc, target),
        text(alloc, copied(alloc, &source, target)),
        next_text(alloc, target),
    ]
}

fn same_texts(rt: &impl Abort, what: &str, got: &[String; 4], want: [&str; 4]) {
    for k in 0..4 {
        same(rt, what, got[k].as_str(), want[k]);
    }
}

// Checks that a copy to an arena that refuses its first growth changes nothing, and that a second
// one succeeds.
pub(super) fn check_refused_copy<S: SlotStack<Item = Slot>, A: PlainArena>(
    rt: &impl Abort,
    alloc: Global,
) {
    let got = copied_twice::<S, A>(alloc, &mut A::new(alloc));
    let want = [
        "(Err(AllocError), [])",
        "(0, 0, Some(Gen32 { number: 2 }))",
        "(Ok(()), [(P0[1](2), {(start), 3} 1), (P0[3](2), {1, (end)} 3)])",
        "(Some(P0[2](3)), (Some(11), Some(23)))",
    ];
    same_texts(rt, "refused, and copied", &got, want);
}

// Maxima, and the texts of two copies of three slots. Under two both are refused, and under three
// the first grows the arena.
static LIMITED: [(usize, [&str; 4]); 2] = [
    (
        2,
        [
            "(Err(BeyondMaxCapacity), [])",
            "(0, 0, Some(Gen32 { number: 2 }))",
            "(Err(BeyondMaxCapacity), [])",
            "(Some(P0[1](2)), (Some(9), None))",
        ],
    ),
    (
        3,
        [
            "(Ok(()), [(P0[1](2), {(start), 3} 1), (P0[3](2), {1, (end)} 3)])",
            "(2, 3, Some(Gen32 { number: 3 }))",
            "(Ok(()), [(P0[1](2), {(start), 3} 1), (P0[3](2), {1, (end)} 3)])",
            "(Some(P0[2](3)), (Some(11), Some(23)))",
        ],
    ),
];

// Checks copies to an arena with each maximum.
pub(super) fn check_limited_copy<S: SlotStack<Item = Slot>, A: PlainArena + SetMaxCapacity>(
    rt: &impl Abort,
    alloc: Global,
) {
    for row in &LIMITED {
        let (most, want) = *row;
        let mut target = A::new(alloc);
        let limit = target.set_max_capacity(most);
        holds(rt, "a maximum", limit.is_ok());
        let got = copied_twice::<S, A>(alloc, &mut target);
        same_texts(rt, "under a maximum", &got, want);
    }
}

// Returns an arena of the values 1 to 8 without three. The freed list is 3, 5, 2.
fn with_holes<A: PlainArena>(alloc: Global) -> A {
    let mut arena = A::new(alloc);
    for _ in 0..2 {
        if arena.reallocate_min_capacity(8).is_ok() {
            break;
        }
    }
    for t in 1..=8 {
        arena.add_within(t);
    }
    for i in [2, 5, 3] {
        arena.remove(at((i, 2)));
    }
    arena
}

// All that an arena reports: its size and its slots.
fn arena_texts<A: PlainArena>(alloc: Global, arena: &A) -> (String, String) {
    (size_text(alloc, arena), arena.slots(alloc))
}

// Copies 70 links to an arena with holes. Returns the error, the number of calls of the closure,
// whether nothing has changed, and the next pointer.
fn copied_beside_holes<S: SlotStack<Item = Slot>, A: PlainArena>(alloc: Global) -> String {
    let source: ChainsOver<S> = with_a_hole(alloc, 70);
    let mut target: A = with_holes(alloc);
    let before = arena_texts(alloc, &target);
    let (outcome, visited) = copied(alloc, &source, &mut target);
    let is_same = arena_texts(alloc, &target) == before;
    let next = target.add_within(9);
    text(alloc, (outcome, visited.len(), is_same, next))
}

// Checks that a refused copy to an arena with holes changes nothing. The next entry is stored at
// the first freed index.
pub(super) fn check_refused_beside_holes<S: SlotStack<Item = Slot>, A: PlainArena>(
    rt: &impl Abort,
    alloc: Global,
) {
    let got = copied_beside_holes::<S, A>(alloc);
    let want = "(Err(AllocError), 0, true, Some(P0[3](5)))";
    same(rt, "refused beside holes", got.as_str(), want);
}
