//! Tests that no value is lost or cloned twice, by values that count themselves and their clones.

use super::holds;
use arena_base::{Arena, ArenaCloneFromWith, ArenaSlot, ArenaTrait};
use arena_ptr::{
    ChunkStack, Gen32, GenKey, HeapStack, Inx32, LimitedStack, PtrKey, SlotStack, ToolPtr,
};
use chain_arena::{Call, ChainArena, ChainArenaTrait, LinkInsertKind, LinkNoGen, RawLink, apply};
use std::alloc::{AllocError, Global};
use std::cell::Cell;
use std::marker::Model;
use std::process::Abort;
use std::rc::Rc;
use test_types::numbered::at;

// A value with a number, which shares a count of clones with its clones. Cloning the number 2 is
// refused. Contracts see neither field, so all such values are equal.
#[derive(Drop)]
struct Counted {
    number: u32,
    clones: Rc<Cell<u32>>,
}

impl Model for Counted {
    ghost use Rattle.std.specs.Prelude.{⊤};

    ghost Value = { ⊤ };

    ghost view = { λ _. tt };
}

impl Clone for Counted {
    ghost use Rattle.std.specs.Prelude.{◌≡◌};

    ghost is_clone = { λ x y. y ≡ x };

    fn clone(&self) -> Result<Counted, AllocError> {
        if self.number == 2 {
            return Err(AllocError);
        }
        let clones = self.clones.clone()?;
        clones.set(clones.get().saturating_add(1));
        Ok(Counted {
            number: self.number,
            clones,
        })
    }
}

// A link of such a value, and a slot of it.
type Valued = LinkNoGen<ToolPtr, Counted>;

type Slot = ArenaSlot<ToolPtr, Valued>;

type PlainSlot = ArenaSlot<ToolPtr, Counted>;

type ValuesOver<S> = ChainArena<ToolPtr, Counted, S>;

// Returns a count of no clones. Its strong count is one more than there are values.
fn no_clones(rt: &impl Abort, alloc: Global) -> Rc<Cell<u32>> {
    let clones = Rc::new(alloc, Cell::new(0)).ok();
    clones.expect(rt, "memory")
}

fn value(rt: &impl Abort, clones: &Rc<Cell<u32>>, number: u32) -> Counted {
    let clones = clones.clone().expect(rt, "one more");
    Counted { number, clones }
}

fn lone_values<S: SlotStack<Item = Slot>>(
    rt: &impl Abort,
    alloc: Global,
    clones: &Rc<Cell<u32>>,
    numbers: &[u32],
) -> ValuesOver<S> {
    let mut arena: ValuesOver<S> = ChainArena::new(alloc);
    for number in numbers {
        let value = value(rt, clones, *number);
        let _ = arena.insert_reallocating(LinkInsertKind::Disconnected, value);
    }
    arena
}

// Connects three links, and drains them by a `Call` that takes `take` of them. Generic over
// pointers and values, the types cost its proof less.
fn link_and_drain<P: PtrKey, T: Drop, S: SlotStack<Item = ArenaSlot<P, LinkNoGen<P, T>>>>(
    arena: &mut ChainArena<P, T, S>,
    p: P,
    q: P,
    r: P,
    take: usize,
) -> usize {
    arena.connect(p, q);
    arena.connect(q, r);
    drop(apply(arena, Call::DrainChain { p, take }));
    arena.len()
}

// Drains a chain of three beside a lone link. Returns the number of links left and the strong
// count.
fn left_by_a_drain<S: SlotStack<Item = Slot>>(
    rt: &impl Abort,
    alloc: Global,
    take: usize,
) -> (usize, usize) {
    let clones = no_clones(rt, alloc);
    let mut arena: ValuesOver<S> = lone_values(rt, alloc, &clones, &[0, 0, 0, 0]);
    let left = link_and_drain(&mut arena, at((1, 2)), at((2, 2)), at((3, 2)), take);
    (left, Rc::strong_count(&clones))
}

// Converts a plain arena of two links, the first of which has the next index `next`. Returns
// whether that is refused, and the strong count then.
fn left_by_a_refusal<S: SlotStack<Item = Slot>>(
    rt: &impl Abort,
    alloc: Global,
    next: u32,
) -> (bool, usize) {
    let clones = no_clones(rt, alloc);
    let mut arena: Arena<ToolPtr, Valued, S> = Arena::new(alloc);
    for next in [next, 0] {
        let beside = (None, Inx32::new(next));
        let _ = arena.insert_reallocating(RawLink::new(beside, value(rt, &clones, 0)));
    }
    let made = ChainArena::from_arena(arena);
    (made.is_err(), Rc::strong_count(&clones))
}

// What replaces the values of an arena: none, a copy of others, or others that are transferred.
#[derive(Clone, Copy)]
enum Replacement {
    Nothing,
    Copy,
    Transfer,
}

// Copies an arena over another, with values of the same count.
fn copy_over<S: SlotStack<Item = Slot>>(
    rt: &impl Abort,
    source: &ValuesOver<S>,
    target: &mut ValuesOver<S>,
    clones: &Rc<Cell<u32>>,
) {
    let _ = target.clone_from_with(source, |_, link: &Valued| value(rt, clones, link.t.number));
}

// Transfers all links of an arena to another. Generic over pointers and values, as
// `link_and_drain`.
fn carry_over<P: PtrKey, T: Drop, S: SlotStack<Item = ArenaSlot<P, LinkNoGen<P, T>>>>(
    source: &mut ChainArena<P, T, S>,
    target: &mut ChainArena<P, T, S>,
    now: P::Gen,
) {
    let _ = target.transfer_canonical_reallocating(now, source, |_, value, _| value.allow());
}

// Replaces three values by a copy or a transfer of two others, or by none. Returns the strong
// counts of the three and of the others.
fn left_by_a_replacement<S: SlotStack<Item = Slot>>(
    rt: &impl Abort,
    alloc: Global,
    by: Replacement,
) -> (usize, usize) {
    let (old, new) = (no_clones(rt, alloc), no_clones(rt, alloc));
    let mut target: ValuesOver<S> = lone_values(rt, alloc, &old, &[0, 0, 0]);
    let mut source: ValuesOver<S> = lone_values(rt, alloc, &new, &[0, 0]);
    match by {
        Replacement::Nothing => {
            target.clear();
        }
        Replacement::Copy => copy_over(rt, &source, &mut target, &new),
        Replacement::Transfer => carry_over(&mut source, &mut target, Gen32::two()),
    }
    (Rc::strong_count(&old), Rc::strong_count(&new))
}

// Copies two values over one of a plain arena. Returns the strong counts of the one and of the two.
fn left_by_a_plain_copy<S: SlotStack<Item = Slot>, R: SlotStack<Item = PlainSlot>>(
    rt: &impl Abort,
    alloc: Global,
) -> (usize, usize) {
    let (old, new) = (no_clones(rt, alloc), no_clones(rt, alloc));
    let mut target: Arena<ToolPtr, Counted, R> = Arena::new(alloc);
    let _ = target.insert_reallocating(value(rt, &old, 0));
    let source: ValuesOver<S> = lone_values(rt, alloc, &new, &[0, 0]);
    let _ = source.clone_to_arena(
        &mut target,
        |_, link: &Valued| value(rt, &new, link.t.number),
    );
    (Rc::strong_count(&old), Rc::strong_count(&new))
}

// Returns a clone of an arena, if no value refuses, and its number of links.
fn clone_and_count<S: SlotStack<Item = Slot>>(
    alloc: Global,
    arena: &ValuesOver<S>,
) -> (usize, Option<ValuesOver<S>>) {
    match arena.clone(alloc) {
        Ok(copy) => (copy.len(), Some(copy)),
        Err(_) => (0, None),
    }
}

// Clones an arena of the values 1, 2 and 3, where 2 refuses, and again without 2. Returns each time
// the links of the clone, the clones of values so far, and the strong count while the clone exists.
fn cloned_once_more<S: SlotStack<Item = Slot>>(
    rt: &impl Abort,
    alloc: Global,
) -> [(usize, u32, usize); 2] {
    let clones = no_clones(rt, alloc);
    let mut arena: ValuesOver<S> = lone_values(rt, alloc, &clones, &[1, 2, 3]);
    let refused = (
        clone_and_count(alloc, &arena).0,
        clones.get(),
        Rc::strong_count(&clones),
    );
    arena.remove(at((2, 2)));
    let (count, copy) = clone_and_count(alloc, &arena);
    let made = (count, clones.get(), Rc::strong_count(&clones));
    drop(copy);
    [refused, made]
}

// An arena that is cleared, or a target of a copy or a transfer, drops what it held.
const REPLACEMENTS: [(Replacement, (usize, usize)); 3] = [
    (Replacement::Nothing, (1, 3)),
    (Replacement::Copy, (1, 5)),
    (Replacement::Transfer, (1, 3)),
];

fn check_replacements<S: SlotStack<Item = Slot>, R: SlotStack<Item = PlainSlot>>(
    rt: &impl Abort,
    alloc: Global,
) {
    for (by, want) in REPLACEMENTS {
        let left = left_by_a_replacement::<S>(rt, alloc, by);
        holds(rt, "the old values and the new ones", left == want);
    }
    let left = left_by_a_plain_copy::<S, R>(rt, alloc);
    holds(rt, "a plain copy", left == (1, 5));
}

// After a drain only the lone link's value is left, and after a refused conversion none. A clone
// clones each value once, and drops what was cloned before a refusal.
fn check_counts<S: SlotStack<Item = Slot>, R: SlotStack<Item = PlainSlot>>(
    rt: &impl Abort,
    alloc: Global,
) {
    check_replacements::<S, R>(rt, alloc);
    for take in [0, 1, 5] {
        let left = left_by_a_drain::<S>(rt, alloc, take);
        holds(rt, "links and values", left == (1, 2));
    }
    for (next, want) in [(2, (true, 1)), (0, (false, 3))] {
        let left = left_by_a_refusal::<S>(rt, alloc, next);
        holds(rt, "refused, and values", left == want);
    }
    let made = cloned_once_more::<S>(rt, alloc);
    holds(rt, "a clone", made == [(0, 1, 4), (2, 3, 5)]);
}

#[test]
fn values_are_dropped_and_cloned_once(rt: HostRuntime) {
    check_counts::<HeapStack<Slot>, HeapStack<PlainSlot>>(&rt, rt.alloc());
    check_counts::<LimitedStack<Slot>, LimitedStack<PlainSlot>>(&rt, rt.alloc());
    check_counts::<ChunkStack<Slot>, ChunkStack<PlainSlot>>(&rt, rt.alloc());
}
