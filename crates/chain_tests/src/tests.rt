mod agreement;
mod alloc_failures;
mod arena_text;
mod call_lists;
mod canonical;
mod copies;
mod drains;
mod entries;
mod fallible_insertion;
mod indexing;
mod inherent_call_tables;
mod inherent_calls;
mod iterators;
mod pair_lists;
mod plain_copies;
mod recast;
mod scripts;
mod setup;
mod stacks;
mod visitor_state;

ghost use Rattle.std.specs.Iterator.{IsFinite};

use self::fallible_insertion::add;
use arena_base::{Arena, ArenaSlot, ArenaTrait};
use arena_ptr::{
    InvalidationResult, Inx32, LimitStack, PtrKey, SetMaxCapacity, SlotStack, ToolPtr,
};
use chain_arena::{ChainArena, ChainArenaTrait, LinkInsertKind, LinkNoGen, RawLink};
use std::alloc::{AllocError, Global};
use std::fmt::Debug;
use std::process::Abort;
use test_types::lines::text;
use test_types::numbered::{At, at};

// A slot of a link of a number.
type Slot = ArenaSlot<ToolPtr, LinkNoGen<ToolPtr, u32>>;

// A slot of a plain arena of numbers.
type Bare = ArenaSlot<ToolPtr, u32>;

// A chain arena over a stack. Generic over stacks, code costs its proof half as much.
type ChainsOver<S> = ChainArena<ToolPtr, u32, S>;

fn same(rt: &impl Abort, what: &str, got: &str, want: &str) {
    assert_eq!(rt; got, want, "{what}");
}

// Checks a condition. Values are compared to one, since `same` at their types would cost more.
fn holds(rt: &impl Abort, what: &str, condition: bool) {
    assert!(rt; condition, "{what}");
}

fn text_of_all<T: Debug + Drop, I: Iterator<Item = T> + Drop>(alloc: Global, items: I) -> String
    requires { I.can_next items × IsFinite (I.remaining items) }
{
    let all: Result<Vec<T>, AllocError> = items.collect(alloc);
    match all {
        Ok(all) => text(alloc, all),
        Err(_) => String::new(alloc),
    }
}

fn fresh<T: Drop, S: SlotStack<Item = ArenaSlot<ToolPtr, LinkNoGen<ToolPtr, T>>>>(
    alloc: Global,
) -> ChainArena<ToolPtr, T, S> {
    ChainArena::new(alloc)
}

fn remove<T: Drop, S: SlotStack<Item = ArenaSlot<ToolPtr, LinkNoGen<ToolPtr, T>>>>(
    arena: &mut ChainArena<ToolPtr, T, S>,
    p: At,
) -> InvalidationResult<T> {
    arena.remove(at(p))
}

// Inserts a link and returns its pointer, or the invalid one if there is no capacity.
fn insert_or_invalid<T: Drop, S: SlotStack<Item = ArenaSlot<ToolPtr, LinkNoGen<ToolPtr, T>>>>(
    arena: &mut ChainArena<ToolPtr, T, S>,
    kind: LinkInsertKind<ToolPtr>,
    t: T,
) -> ToolPtr {
    match arena.insert_reallocating(kind, t) {
        Ok(p) => p,
        Err(_) => ToolPtr::invalid(),
    }
}

fn fresh_plain<T: Drop, S: SlotStack<Item = ArenaSlot<ToolPtr, T>>>(
    alloc: Global,
) -> Arena<ToolPtr, T, S> {
    Arena::new(alloc)
}

// Inserts a link into a plain arena, if there is capacity, between two indexes, 0 for none.
fn add_plain<T: Drop, S: SlotStack<Item = ArenaSlot<ToolPtr, LinkNoGen<ToolPtr, T>>>>(
    arena: &mut Arena<ToolPtr, LinkNoGen<ToolPtr, T>, S>,
    beside: At,
    t: T,
) {
    let beside = (Inx32::new(beside.0), Inx32::new(beside.1));
    let _ = arena.insert_reallocating(RawLink::new(beside, t));
}

// Converts a plain arena to a chain arena, if its interlinks agree.
fn to_chain_arena<T: Drop, S: SlotStack<Item = ArenaSlot<ToolPtr, LinkNoGen<ToolPtr, T>>>>(
    arena: Arena<ToolPtr, LinkNoGen<ToolPtr, T>, S>,
) -> Result<ChainArena<ToolPtr, T, S>, &'static str> {
    ChainArena::from_arena(arena)
}

// Returns lone links, each with its index as its value.
fn lone_links<S: SlotStack<Item = Slot>>(alloc: Global, count: u32) -> ChainsOver<S> {
    let mut arena: ChainsOver<S> = fresh(alloc);
    for k in 1..=count {
        add(&mut arena, LinkInsertKind::Disconnected, k);
    }
    arena
}

fn fresh_limited<S: LimitStack<Item = Slot>>(
    rt: &impl Abort,
    alloc: Global,
    most: usize,
) -> ChainsOver<S> {
    let mut arena: ChainsOver<S> = fresh(alloc);
    assert!(rt; arena.set_max_capacity(most).is_ok());
    arena
}
