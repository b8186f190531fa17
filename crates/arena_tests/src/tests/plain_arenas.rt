//! Tests of plain arenas: over a plain stack, under a maximum, and with refused growths.

use super::plain_calls::PlainSlot;
use super::plain_rows::{
    COMPACTORS, COMPRESSIONS, COPIED_BEYOND, COPIED_WITHIN, COPY, EACH_CALL, EVERY_OTHER,
    NEXT_POINTERS, REUSED, USED_UP, WITHIN_TWO,
};
use super::pointers::{BarePtr, SmallPtr};
use super::{RunsCalls, holds, plays};
use arena_base::{Arena, ArenaSlot, ArenaTrait};
use arena_ptr::{HeapStack, LimitStack, LimitedStack, PtrKey, SetMaxCapacity, SlotStack};
use std::alloc::Global;
use std::process::Abort;
use std::rc::Rc;
use test_types::FailingStack;
use test_types::numbered::Numbered;

const EACH: [&str; 5] = [EACH_CALL, NEXT_POINTERS, COMPACTORS, COMPRESSIONS, COPY];

// Runs tables on a new arena over a stack.
fn plays_plain<P: Numbered, S: SlotStack<Item = PlainSlot<P>>>(
    rt: &impl Abort,
    alloc: Global,
    tables: &[&str],
) {
    let mut arena: Arena<P, u32, S> = Arena::new(alloc);
    for table in tables {
        plays(rt, alloc, &mut arena, table);
    }
}

// Maxima, and tables on a new arena with that maximum, which cannot be lowered after the first.
const LIMITED: [(usize, [&str; 2]); 3] = [
    (2, [WITHIN_TWO, USED_UP]),
    (2, [COPIED_BEYOND, USED_UP]),
    (3, [COPIED_WITHIN, ""]),
];

fn plays_within<A: RunsCalls + SetMaxCapacity>(
    rt: &impl Abort,
    alloc: Global,
    arena: &mut A,
    most: usize,
    tables: [&str; 2],
) {
    let limit = arena.set_max_capacity(most);
    holds(rt, "a maximum", limit.is_ok());
    plays(rt, alloc, arena, tables[0]);
    let less = arena.set_max_capacity(1);
    holds(rt, "no less maximum", less.is_err());
    plays(rt, alloc, arena, tables[1]);
}

fn check_limits<P: Numbered, S: LimitStack<Item = PlainSlot<P>>>(rt: &impl Abort, alloc: Global) {
    plays_plain::<P, S>(rt, alloc, &EACH);
    for (most, tables) in LIMITED {
        let mut arena: Arena<P, u32, S> = Arena::new(alloc);
        plays_within(rt, alloc, &mut arena, most, tables);
    }
}

// A slot for a shared value, whose strong count is the number of its copies.
type SharedEntry<P> = ArenaSlot<P, Rc<u8>>;

// Offers 600 values to an arena, which drops those that it refuses.
fn pass_many<P: PtrKey, S: SlotStack<Item = SharedEntry<P>>>(
    arena: &mut Arena<P, Rc<u8>, S>,
    value: &Rc<u8>,
) {
    for _ in 0..300 {
        if let Ok(one) = value.clone() {
            let _ = arena.insert_within_capacity(one);
        }
        if let Ok(one) = value.clone() {
            let _ = arena.insert_reallocating(one);
        }
    }
}

// Offers them to a new arena with a maximum, and returns its length and the number of copies.
fn passed_entries<P: PtrKey, S: LimitStack<Item = SharedEntry<P>>>(
    alloc: Global,
    most: usize,
) -> (usize, usize) {
    let Ok(value) = Rc::new(alloc, 5) else {
        return (0, 0);
    };
    let mut arena: Arena<P, Rc<u8>, S> = Arena::new(alloc);
    let _ = arena.set_max_capacity(most);
    pass_many(&mut arena, &value);
    (arena.len(), Rc::strong_count(&value))
}

// A refused value is dropped: only the values in the arena and the original are left.
fn check_values<P: PtrKey, S: LimitStack<Item = SharedEntry<P>>>(rt: &impl Abort, alloc: Global) {
    for (most, left) in [(2, (2, 3)), (1000, (255, 256))] {
        let passed = passed_entries::<P, S>(alloc, most);
        holds(rt, "values", passed == left);
    }
}

// Runs each table over a plain stack and one with an optional maximum, and tests refusals. One test
// names all types, since naming them is the cost.
fn check_arenas<
    P: Numbered,
    H: SlotStack<Item = PlainSlot<P>>,
    L: LimitStack<Item = PlainSlot<P>>,
    V: LimitStack<Item = SharedEntry<P>>,
>(rt: &impl Abort, alloc: Global) {
    plays_plain::<P, H>(rt, alloc, &EACH);
    plays_plain::<P, FailingStack<H>>(rt, alloc, &[EVERY_OTHER]);
    check_limits::<P, L>(rt, alloc);
    check_values::<P, V>(rt, alloc);
}

#[test]
fn plain_arenas_over_both_stacks(rt: HostRuntime) {
    check_arenas::<
        SmallPtr,
        HeapStack<PlainSlot<SmallPtr>>,
        LimitedStack<PlainSlot<SmallPtr>>,
        LimitedStack<SharedEntry<SmallPtr>>,
    >(&rt, rt.alloc());
}

#[test]
fn plain_arenas_of_pointers_without_generations(rt: HostRuntime) {
    plays_plain::<BarePtr, HeapStack<PlainSlot<BarePtr>>>(&rt, rt.alloc(), &[REUSED]);
}
