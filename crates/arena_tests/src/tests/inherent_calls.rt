//! The inherent calls of a chain arena that rows at any pointer make.

use super::transfers::{carry_chain, run_trait_call};
use super::{RunsCalls, Slot};
use arena_base::ArenaTrait;
use arena_ptr::{InvalidationOption, PtrKey, SlotStack};
use chain_arena::ChainArena;
use std::alloc::Global;
use test_types::lines::{Do, ParsedCall, parse_call, text};
use test_types::numbered::Numbered;

// Returns whether the counter overflows at a link that a drain yields.
fn overflows<T: Drop>(gone: Option<InvalidationOption<T>>) -> Option<bool> {
    match gone {
        Some(gone) => Some(gone.overflowing().1),
        None => None,
    }
}

// Drains a whole chain, and returns `overflows` for each of its first two links.
fn drained_two<P: PtrKey, S: SlotStack<Item = Slot<P>>>(
    arena: &mut ChainArena<P, u32, S>,
    p: P,
) -> [Option<bool>; 2] {
    match arena.drain_chain(p) {
        Some(mut links) => [overflows(links.next()), overflows(links.next())],
        None => [None, None],
    }
}

fn run_own_call<P: Numbered, S: SlotStack<Item = Slot<P>>>(
    alloc: Global,
    arena: &mut ChainArena<P, u32, S>,
    parsed: ParsedCall<P>,
) -> String {
    match parsed.call {
        Do::SetGeneration => text(alloc, arena.set_generation(P::generation_of(parsed.n))),
        Do::DrainTwo => text(alloc, drained_two(arena, parsed.p)),
        Do::CarryChain => carry_chain(alloc, arena, parsed.p, 1000),
        Do::CarryChainToFull => carry_chain(alloc, arena, parsed.p, 3),
        _ => run_call(alloc, arena, parsed),
    }
}

// Runs a call of the traits. Only here generic code gets an arena.
fn run_call<P: Numbered, S: SlotStack<Item = Slot<P>>>(
    alloc: Global,
    arena: &mut ChainArena<P, u32, S>,
    parsed: ParsedCall<P>,
) -> String {
    run_trait_call(alloc, arena, parsed)
}

impl<P: Numbered, S: SlotStack<Item = Slot<P>>> RunsCalls for ChainArena<P, u32, S> {
    fn fresh(alloc: Global) -> Self {
        ChainArena::new(alloc)
    }

    fn run_call(&mut self, alloc: Global, call: &str) -> String {
        match parse_call::<P>(call) {
            Some(parsed) => run_own_call(alloc, self, parsed),
            None => String::new(alloc),
        }
    }
}
