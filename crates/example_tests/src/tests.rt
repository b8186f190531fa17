//! Tests over chain arenas on several stacks, and over the forwarding arena.
//!
//! The rows of a table are calls with what they return. A call that returns something else is made
//! once more, since its growth or allocation may have been refused. The state after it shows whether
//! the refusal changed anything.

mod loops;
mod named_type;
mod no_memory;
mod own_calls;
mod owners;
mod renumbering;
mod tutorial;

use arena_base::ArenaSlot;
use arena_ptr::{ChunkStack, Gen32, HeapStack, Inx32, PtrKey, SlotStack, ToolPtr};
use chain_arena::{ChainArena, LinkNoGen};
use chain_traits::ChainArenaTrait;
use forwarding_arena::ForwardingArena;
use own_calls::OwnCalls;
use std::alloc::Global;
use std::process::Abort;
use test_types::FailingStack;

type Slot = ArenaSlot<ToolPtr, LinkNoGen<ToolPtr, u32>>;

// A pointer that is written as a number of two hexadecimal digits, its index and its generation.
// Generic code costs less than code that names a type of pointers.
trait Named: PtrKey {
    fn at(number: u32) -> Self;

    fn number(self) -> u32;
}

impl Named for ToolPtr {
    fn at(number: u32) -> Self {
        match (Inx32::new(number / 16), Gen32::new(number % 16)) {
            (Some(i), Some(g)) => ToolPtr::_from_raw(i, g),
            _ => ToolPtr::invalid(),
        }
    }

    fn number(self) -> u32 {
        let generation = self.generation().get();
        self.inx().get().wrapping_mul(16).wrapping_add(generation)
    }
}

// Returns the number of a pointer, or 0 for none.
fn number_of<P: Named>(p: Option<P>) -> u32 {
    match p {
        Some(p) => p.number(),
        None => 0,
    }
}

// Returns a value, or 0 for none.
fn value_of(t: Option<&u32>) -> u32 {
    match t {
        Some(t) => *t,
        None => 0,
    }
}

// The position of a table's first row that does not hold. Tables return it, so that values are
// compared in few places.
type Wrong = Option<usize>;

// Returns `None` if `is_right`, else the first row.
fn wrong_unless(is_right: bool) -> Wrong {
    if is_right { None } else { Some(0) }
}

fn wrong_by_forwarding<P: Named, A: ChainArenaTrait<P, u32> + Drop>(alloc: Global) -> Wrong {
    tutorial::wrong::<P, ForwardingArena<A>>(alloc)
}

// Returns what is wrong over an arena.
fn results<P: Named, A: OwnCalls<P>>(alloc: Global) -> [Wrong; 5] {
    [
        tutorial::wrong::<P, A>(alloc),
        wrong_by_forwarding::<P, A>(alloc),
        wrong_unless(loops::are_right::<P, A>(alloc)),
        wrong_unless(renumbering::is_right::<P, A>(alloc)),
        wrong_unless(renumbering::is_right_without_links::<P, A>(alloc)),
    ]
}

fn none_wrong(rt: &impl Abort, tables: &[Wrong]) {
    for (table, wrong) in tables.iter().enumerate() {
        assert!(rt; wrong.is_none(), "table {table}, row {wrong:?}");
    }
}

// Runs all tables at a chain arena. Only this body names it, since naming it is the cost. Over any
// stack it costs less than over one.
fn check_examples<S: SlotStack<Item = Slot>>(rt: &impl Abort, alloc: Global) {
    none_wrong(rt, &results::<ToolPtr, ChainArena<ToolPtr, u32, S>>(alloc));
}

#[test]
fn over_one_piece_of_memory_and_in_blocks(rt: HostRuntime) {
    check_examples::<HeapStack<Slot>>(&rt, rt.alloc());
    check_examples::<ChunkStack<Slot>>(&rt, rt.alloc());
}

#[test]
fn each_growth_is_refused_once(rt: HostRuntime) {
    check_examples::<FailingStack<HeapStack<Slot>>>(&rt, rt.alloc());
}

#[test]
fn a_given_allocator_may_refuse_all(rt: HostRuntime) {
    let are_right = no_memory::are_right::<ToolPtr, ChainArena<ToolPtr, u32>>(rt.alloc());
    none_wrong(&rt, &[wrong_unless(are_right)]);
}

#[test]
fn on_a_named_type(rt: HostRuntime) {
    let calls = named_type::wrong::<ToolPtr, ChainArena<ToolPtr, u32>>(rt.alloc());
    let owners = owners::are_right::<ToolPtr, ChainArena<ToolPtr, (u32, ToolPtr)>>(rt.alloc());
    none_wrong(&rt, &[calls, wrong_unless(owners)]);
}
