//! Runs the tests of links of numbers over each stack.

use super::agreement::{check_accepted, check_rows};
use super::alloc_failures::{check_copy_requests, check_refusals, check_requests, next_is_refused};
use super::call_lists::{check_every_reply, check_lists};
use super::canonical::check_bounds;
use super::entries::{check_full, check_growths};
use super::inherent_call_tables::{COPIES, TABLES};
use super::plain_copies::{
    PlainArena, check_limited_copy, check_refused_beside_holes, check_refused_copy,
};
use super::scripts::{RunsCalls, plays_anew};
use super::visitor_state::{check_beyond_one, check_counted, check_kept};
use super::{Bare, ChainsOver, Slot, holds};
use arena_base::Arena;
use arena_ptr::{
    ChunkStack, HeapStack, LimitStack, LimitedStack, SetMaxCapacity, SlotStack, ToolPtr,
};
use std::alloc::Global;
use std::process::Abort;
use test_types::FailingStack;

type Plain<R> = Arena<ToolPtr, u32, R>;

// What is run over a stack.
#[derive(Clone, Copy)]
pub(super) enum Part {
    // All calls, and those that a maximum refuses.
    Calls,
    // Calls over a stack that refuses every other growth.
    Refusals,
    // Calls of which each request for memory may be refused.
    Requests,
    // Calls that request no memory.
    NoRequests,
}

// Runs the tables of inherent calls.
fn check_scripts<A: RunsCalls>(rt: &impl Abort, alloc: Global) {
    for table in TABLES {
        plays_anew::<A>(rt, alloc, table);
    }
    plays_anew::<A>(rt, alloc, COPIES);
}

fn check_calls<S: SlotStack<Item = Slot>>(rt: &impl Abort, alloc: Global) {
    check_rows::<S>(rt, alloc);
    check_accepted::<S>(rt, alloc);
    check_lists::<S>(rt, alloc);
    check_bounds::<S>(rt, alloc);
    check_kept::<S>(rt, alloc);
    check_scripts::<ChainsOver<S>>(rt, alloc);
}

// Runs the copies to a plain arena that refuses every other growth, or of which each request for
// memory may be refused.
fn check_copies<S: SlotStack<Item = Slot>, A: PlainArena>(
    rt: &impl Abort,
    alloc: Global,
    refuses: bool,
) {
    if refuses {
        check_refused_copy::<S, A>(rt, alloc);
        check_refused_beside_holes::<S, A>(rt, alloc);
    } else {
        check_copy_requests::<S, A>(rt, alloc);
    }
}

// Runs them at a plain arena over any stack.
fn check_plain<S: SlotStack<Item = Slot>, R: SlotStack<Item = Bare>>(
    rt: &impl Abort,
    alloc: Global,
    refuses: bool,
) {
    check_copies::<S, Plain<R>>(rt, alloc, refuses);
}

// Checks refusals over a stack `F` of links that refuses every other growth of `S`.
fn check_refusing<F: SlotStack<Item = Slot>, S: SlotStack<Item = Slot>, R: SlotStack<Item = Bare>>(
    rt: &impl Abort,
    alloc: Global,
) {
    check_refusals::<F, S>(rt, alloc);
    check_plain::<S, R>(rt, alloc, true);
}

fn check_all_requests<S: SlotStack<Item = Slot>, R: SlotStack<Item = Bare>>(
    rt: &impl Abort,
    alloc: Global,
) {
    check_requests::<S>(rt, alloc);
    check_plain::<S, R>(rt, alloc, false);
}

// Checks calls that request no memory, and that one of two growths after them succeeds.
fn check_no_requests<S: SlotStack<Item = Slot>>(rt: &impl Abort, alloc: Global) {
    let first = next_is_refused::<ChainsOver<S>>(rt, alloc);
    let second = next_is_refused::<ChainsOver<S>>(rt, alloc);
    holds(rt, "one of two growths", !first || !second);
}

// Runs a part over a stack of links, and over one of the values of a plain arena.
fn check<S: SlotStack<Item = Slot>, R: SlotStack<Item = Bare>>(
    rt: &impl Abort,
    alloc: Global,
    part: Part,
) {
    match part {
        Part::Calls => check_calls::<S>(rt, alloc),
        Part::Refusals => check_refusing::<FailingStack<S>, S, FailingStack<R>>(rt, alloc),
        Part::Requests => check_all_requests::<S, R>(rt, alloc),
        Part::NoRequests => check_no_requests::<S>(rt, alloc),
    }
}

fn check_limited_copies<S: SlotStack<Item = Slot>, A: PlainArena + SetMaxCapacity>(
    rt: &impl Abort,
    alloc: Global,
) {
    check_counted::<S, A>(rt, alloc);
    check_limited_copy::<S, A>(rt, alloc);
}

fn check_maxima<S: LimitStack<Item = Slot>, R: LimitStack<Item = Bare>>(
    rt: &impl Abort,
    alloc: Global,
) {
    check_full::<S>(rt, alloc);
    check_growths::<S>(rt, alloc);
    check_every_reply::<S>(rt, alloc);
    check_beyond_one::<S>(rt, alloc);
    check_limited_copies::<S, Plain<R>>(rt, alloc);
    plays_anew::<ChainsOver<S>>(rt, alloc, COPIES);
}

// Runs a part over stacks with a maximum. Its calls are those that a maximum refuses, and copies.
fn check_limited<S: LimitStack<Item = Slot>, R: LimitStack<Item = Bare>>(
    rt: &impl Abort,
    alloc: Global,
    part: Part,
) {
    match part {
        Part::Calls => check_maxima::<S, R>(rt, alloc),
        other => check::<S, R>(rt, alloc, other),
    }
}

// Only the next three bodies name a stack of links of numbers: each place that names one is costly.
pub(super) fn over_heap(rt: &impl Abort, alloc: Global, part: Part) {
    check::<HeapStack<Slot>, HeapStack<Bare>>(rt, alloc, part);
}

pub(super) fn in_blocks(rt: &impl Abort, alloc: Global, part: Part) {
    check::<ChunkStack<Slot>, ChunkStack<Bare>>(rt, alloc, part);
}

pub(super) fn under_maxima(rt: &impl Abort, alloc: Global, part: Part) {
    check_limited::<LimitedStack<Slot>, LimitedStack<Bare>>(rt, alloc, part);
}

#[test]
fn calls_over_the_heap_stack(rt: HostRuntime) {
    over_heap(&rt, rt.alloc(), Part::Calls);
}

#[test]
fn calls_over_a_limited_stack(rt: HostRuntime) {
    under_maxima(&rt, rt.alloc(), Part::Calls);
}

#[test]
fn each_growth_is_refused_once(rt: HostRuntime) {
    over_heap(&rt, rt.alloc(), Part::Refusals);
    in_blocks(&rt, rt.alloc(), Part::Refusals);
    under_maxima(&rt, rt.alloc(), Part::Refusals);
}
