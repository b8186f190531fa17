//! Runs the tests over arenas of several stacks.

use crate::values::{Numbers, Values};
use crate::{capacities, play_list, random_lists, random_queues};
use arena_base::ArenaSlot;
use arena_ptr::{HeapStack, LimitedStack, PtrKey, SlotStack, ToolPtr};
use chain_arena::{ChainArena, LinkNoGen};
use chain_traits::ChainArenaTrait;
use linked_lists::Entry;
use std::alloc::Global;
use std::process::Abort;
use test_types::{EightSlots, FailingStack};

type Slot = ArenaSlot<ToolPtr, LinkNoGen<ToolPtr, Entry<u32>>>;

type Arena<S> = ChainArena<ToolPtr, Entry<u32>, S>;

enum Suite {
    Capacities,
    Lists,
    Queues,
    PlayList,
}

// Runs a suite, and returns its outcome.
fn outcome_of<P: PtrKey, T: Drop, A: ChainArenaTrait<P, Entry<T>> + Drop, V: Values<T>>(
    alloc: Global,
    suite: Suite,
) -> u32 {
    match suite {
        Suite::Capacities => capacities::outcome::<P, T, A, V>(alloc),
        Suite::Lists => random_lists::outcome::<P, T, A, V>(alloc),
        Suite::Queues => random_queues::outcome::<P, T, A, V>(alloc),
        Suite::PlayList => play_list::outcome::<P, T, A, V>(alloc),
    }
}

// Only this body names the arena, since naming it is the cost.
fn over_stack<S: SlotStack<Item = Slot>>(
    rt: &impl Abort,
    alloc: Global,
    suite: Suite,
    wanted: u32,
) {
    let outcome = outcome_of::<ToolPtr, u32, Arena<S>, Numbers>(alloc, suite);
    assert!(rt; outcome == wanted, "outcome {outcome}");
}

#[test]
fn capacities_have_upper_bounds(rt: HostRuntime) {
    over_stack::<HeapStack<Slot>>(&rt, rt.alloc(), Suite::Capacities, 0);
}

#[test]
fn a_maximum_limits_capacities(rt: HostRuntime) {
    over_stack::<EightSlots<LimitedStack<Slot>>>(&rt, rt.alloc(), Suite::Capacities, 8);
}

#[test]
fn random_calls_on_lists_agree_with_a_model(rt: HostRuntime) {
    over_stack::<HeapStack<Slot>>(&rt, rt.alloc(), Suite::Lists, 0);
}

#[test]
fn random_calls_on_queues_agree_with_a_model(rt: HostRuntime) {
    over_stack::<HeapStack<Slot>>(&rt, rt.alloc(), Suite::Queues, 0);
}

// Each of the seven calls that may grow the arena is refused memory.
#[test]
fn refused_calls_on_lists_change_nothing(rt: HostRuntime) {
    over_stack::<FailingStack<HeapStack<Slot>>>(&rt, rt.alloc(), Suite::Lists, 0b111_1111);
}

// `new_queue`, `reserve` and `spawn` are refused memory.
#[test]
fn refused_calls_on_queues_change_nothing(rt: HostRuntime) {
    over_stack::<FailingStack<HeapStack<Slot>>>(&rt, rt.alloc(), Suite::Queues, 0b111);
}

#[test]
fn a_play_list_plays_in_order(rt: HostRuntime) {
    over_stack::<HeapStack<Slot>>(&rt, rt.alloc(), Suite::PlayList, 0);
}
