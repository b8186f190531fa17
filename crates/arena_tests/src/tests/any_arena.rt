//! Runs the rows that any arena of links satisfies, at the chain arena and at a forwarding arena, and
//! those of transfers of one chain.

use super::trait_calls::ROWS;
use super::transfers::{CHAIN_TRANSFERS, TRANSFERS, run_trait_call};
use super::{RunsCalls, Slot, plays};
use arena_base::{ArenaTrait, CompactArenaTrait};
use arena_ptr::{ChunkStack, HeapStack, SlotStack, ToolPtr};
use chain_arena::{ChainArena, ChainArenaTrait};
use forwarding_arena::ForwardingArena;
use std::alloc::Global;
use std::marker::PhantomData;
use std::process::Abort;
use test_types::lines::parse_call;
use test_types::numbered::Numbered;

// A forwarding arena, and the type of its pointers.
#[derive(Drop)]
struct Forwarding<P, A> {
    arena: ForwardingArena<A>,
    pointer: PhantomData<P>,
}

impl<P: Numbered, A: ChainArenaTrait<P, u32> + CompactArenaTrait<P, u32> + Drop> RunsCalls
    for Forwarding<P, A> {
    fn fresh(alloc: Global) -> Self {
        Forwarding {
            arena: ForwardingArena::<A>::new(alloc),
            pointer: PhantomData,
        }
    }

    fn run_call(&mut self, alloc: Global, call: &str) -> String {
        match parse_call::<P>(call) {
            Some(parsed) => run_trait_call(alloc, &mut self.arena, parsed),
            None => String::new(alloc),
        }
    }
}

// Runs all rows on an arena of a type.
fn check_all<A: RunsCalls>(rt: &impl Abort, alloc: Global) {
    let mut arena = A::fresh(alloc);
    plays(rt, alloc, &mut arena, ROWS);
    plays(rt, alloc, &mut arena, TRANSFERS);
}

// Runs the rows that only a chain arena has.
fn check_own<A: RunsCalls>(rt: &impl Abort, alloc: Global) {
    let mut arena = A::fresh(alloc);
    plays(rt, alloc, &mut arena, CHAIN_TRANSFERS);
}

fn check_chains<P: Numbered, S: SlotStack<Item = Slot<P>>>(rt: &impl Abort, alloc: Global) {
    check_all::<ChainArena<P, u32, S>>(rt, alloc);
    check_own::<ChainArena<P, u32, S>>(rt, alloc);
}

fn check_forwarding<P: Numbered, A: ChainArenaTrait<P, u32> + CompactArenaTrait<P, u32> + Drop>(
    rt: &impl Abort,
    alloc: Global,
) {
    check_all::<Forwarding<P, A>>(rt, alloc);
}

fn check_forwarding_of_chains<P: Numbered, S: SlotStack<Item = Slot<P>>>(
    rt: &impl Abort,
    alloc: Global,
) {
    check_forwarding::<P, ChainArena<P, u32, S>>(rt, alloc);
}

// Runs the rows at a chain arena over a stack and at its forwarding arena.
fn check_over<P: Numbered, S: SlotStack<Item = Slot<P>>>(rt: &impl Abort, alloc: Global) {
    check_chains::<P, S>(rt, alloc);
    check_forwarding_of_chains::<P, S>(rt, alloc);
}

#[test]
fn chain_arenas_and_forwarding_arenas(rt: HostRuntime) {
    check_over::<ToolPtr, HeapStack<Slot<ToolPtr>>>(&rt, rt.alloc());
    check_chains::<ToolPtr, ChunkStack<Slot<ToolPtr>>>(&rt, rt.alloc());
}
