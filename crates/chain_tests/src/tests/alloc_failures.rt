//! Tests that a refused allocation changes nothing, and that a second attempt has the result that
//! the first would have had.
//!
//! Here a stack refuses every other growth. `tools/test alloc_failures` refuses each request for
//! memory in turn, in the tests that allow it. They require that one of two attempts or runs
//! succeeds, so with ample memory each does.

use super::call_lists::check_refused_list;
use super::canonical::carry_over;
use super::copies::with_a_hole;
use super::plain_copies::{PlainArena, copied_twice};
use super::scripts::RunsCalls;
use super::stacks::{Part, in_blocks, over_heap, under_maxima};
use super::{ChainsOver, Slot, holds, same};
use arena_ptr::{Gen32, SlotStack};
use std::alloc::Global;
use std::process::Abort;
use test_types::lines::text;
use test_types::numbered::Counted;

// Calls that need more capacity than a full arena has.
const GROWTHS: [&str; 7] = [
    "Reserve 100",
    "InsertIfAllowed NextTo 1 2 7",
    "Insert NextTo 1 2 7",
    "InsertByAnyEntry NextTo 1 2 7",
    "InsertByEntry NextTo 1 2 7",
    "CopyOver 70",
    "CarryIn 70",
];

// Calls that need more capacity than an arena with holes has.
const GROWTHS_BESIDE_HOLES: [&str; 3] = ["Reserve 100", "CopyOver 70", "CarryIn 70"];

// Calls that make a new arena.
const BIRTHS: [&str; 2] = ["Clone", "WithMinCapacity 100"];

// Calls that request memory, but no capacity.
const LISTS: [&str; 2] = ["TwoCalls", "MovesListed 0"];

// Calls on a full arena that request no memory.
const NO_GROWTHS: [&str; 9] = [
    "RemoveLink 1 2",
    "Compress 0",
    "Canonical 0",
    "MovesVisited 1",
    "InsertWithin Disconnected 7",
    "RemoveLink 2 2",
    "Insert Disconnected 7",
    "Clear",
    "CarryIn 2",
];

// Returns whether a result reports an error or `false`.
fn is_refused<A: RunsCalls>(alloc: Global, arena: &mut A, call: &str) -> bool {
    let outcome = arena.run_call(alloc, call);
    outcome.contains("Err") || outcome.contains("false")
}

// Returns a full arena, or one with holes.
fn begun<A: RunsCalls>(alloc: Global, begin: &str) -> A {
    let mut arena = A::fresh(alloc);
    arena.run_call(alloc, begin);
    arena
}

// Returns all that an arena reports: links, counter, capacity, and all slots.
fn arena_text<A: RunsCalls>(alloc: Global, arena: &mut A) -> String {
    let links = arena.run_call(alloc, "Debug");
    let counter = arena.run_call(alloc, "Counter");
    let capacities = arena.run_call(alloc, "Capacities");
    let slots = arena.run_call(alloc, "SlotsListed");
    text(alloc, (links, counter, capacities, slots))
}

// Returns whether a call is refused at first, and the arena with the next pointer after it. Checks
// that a refusal changes nothing, and that a second attempt succeeds.
fn run_growth<A: RunsCalls>(
    rt: &impl Abort,
    alloc: Global,
    begin: &str,
    call: &str,
) -> (bool, String) {
    let mut arena: A = begun(alloc, begin);
    let before = arena_text(alloc, &mut arena);
    let refused = is_refused(alloc, &mut arena, call);
    if refused {
        let after = arena_text(alloc, &mut arena);
        same(rt, "nothing has changed", after.as_str(), before.as_str());
        let again = is_refused(alloc, &mut arena, call);
        holds(rt, "once more", !again);
    }
    let after = arena_text(alloc, &mut arena);
    let next = arena.run_call(alloc, "InsertWithin Disconnected 7");
    (refused, text(alloc, (after, next)))
}

// Checks that calls without requests for memory succeed. Returns whether the next growth is
// refused.
pub(super) fn next_is_refused<A: RunsCalls>(rt: &impl Abort, alloc: Global) -> bool {
    let mut arena: A = begun(alloc, "Fill");
    for call in NO_GROWTHS {
        let refused = is_refused(alloc, &mut arena, call);
        holds(rt, "allocates nothing", !refused);
    }
    is_refused(alloc, &mut arena, "Reserve 100")
}

// Compares an arena that refuses each growth at first with one that does not.
fn check_grown<A: RunsCalls, B: RunsCalls>(
    rt: &impl Abort,
    alloc: Global,
    begin: &str,
    calls: &[&str],
) {
    for call in calls {
        let (other_refuses, want) = run_growth::<B>(rt, alloc, begin, *call);
        let (refuses, got) = run_growth::<A>(rt, alloc, begin, *call);
        holds(rt, "only one refuses", refuses && !other_refuses);
        same(rt, "the arena then", got.as_str(), want.as_str());
    }
}

// Checks each growth. A call that makes a new arena is refused each time.
fn check_growths<A: RunsCalls, B: RunsCalls>(rt: &impl Abort, alloc: Global) {
    check_grown::<A, B>(rt, alloc, "Fill", &GROWTHS);
    check_grown::<A, B>(rt, alloc, "Dig", &GROWTHS_BESIDE_HOLES);
    let mut arena: A = begun(alloc, "Dig");
    for call in BIRTHS {
        let first = is_refused(alloc, &mut arena, call);
        let second = is_refused(alloc, &mut arena, call);
        holds(rt, "refused each time", first && second);
    }
    let next = next_is_refused::<A>(rt, alloc);
    holds(rt, "the next growth is refused", next);
}

fn text_of_both<A: RunsCalls>(alloc: Global, source: &mut A, target: &mut A) -> String {
    let first = arena_text(alloc, source);
    let second = arena_text(alloc, target);
    text(alloc, (first, second))
}

// Returns whether a transfer is refused at first. Checks that a refusal changes neither arena, and
// that a second attempt succeeds.
fn is_carried_later<S: SlotStack<Item = Slot>>(
    rt: &impl Abort,
    alloc: Global,
    source: &mut ChainsOver<S>,
    target: &mut ChainsOver<S>,
) -> bool {
    let before = text_of_both(alloc, source, target);
    let refused = carry_over(source, target, Gen32::of(9)).is_err();
    if refused {
        let after = text_of_both(alloc, source, target);
        same(rt, "neither has changed", after.as_str(), before.as_str());
        let again = carry_over(source, target, Gen32::of(9)).is_err();
        holds(rt, "once more", !again);
    }
    refused
}

// Returns whether a transfer of many links between arenas with holes is refused at first, and both
// arenas after it.
fn run_transfer<S: SlotStack<Item = Slot>>(rt: &impl Abort, alloc: Global) -> (bool, String) {
    let mut source: ChainsOver<S> = with_a_hole(alloc, 70);
    let mut target: ChainsOver<S> = begun(alloc, "Dig");
    let refused = is_carried_later(rt, alloc, &mut source, &mut target);
    (refused, text_of_both(alloc, &mut source, &mut target))
}

// Compares a stack that refuses the transfer at first with one that does not.
fn check_carried<F: SlotStack<Item = Slot>, S: SlotStack<Item = Slot>>(
    rt: &impl Abort,
    alloc: Global,
) {
    let (other_refuses, want) = run_transfer::<S>(rt, alloc);
    let (refuses, got) = run_transfer::<F>(rt, alloc);
    holds(rt, "only one refuses", refuses && !other_refuses);
    same(rt, "both arenas then", got.as_str(), want.as_str());
}

// Checks refusals over a stack `F` that refuses every other growth of `S`. The first call of a list
// is refused, and the second is not.
pub(super) fn check_refusals<F: SlotStack<Item = Slot>, S: SlotStack<Item = Slot>>(
    rt: &impl Abort,
    alloc: Global,
) {
    check_growths::<ChainsOver<F>, ChainsOver<S>>(rt, alloc);
    check_carried::<F, S>(rt, alloc);
    check_refused_list::<F>(rt, alloc);
}

// Checks each call that may request memory: if any one request is refused, nothing changes, and a
// second attempt succeeds.
fn check_bearing<A: RunsCalls>(rt: &impl Abort, alloc: Global, begin: &str) {
    for calls in [&GROWTHS[..], &BIRTHS[..], &LISTS[..]] {
        for call in calls {
            let _ = run_growth::<A>(rt, alloc, begin, *call);
        }
    }
}

pub(super) fn check_requests<S: SlotStack<Item = Slot>>(rt: &impl Abort, alloc: Global) {
    for begin in ["Fill", "Dig"] {
        check_bearing::<ChainsOver<S>>(rt, alloc, begin);
    }
    let _ = run_transfer::<S>(rt, alloc);
}

// Checks a copy to a plain arena, which is not refused twice.
pub(super) fn check_copy_requests<S: SlotStack<Item = Slot>, A: PlainArena>(
    rt: &impl Abort,
    alloc: Global,
) {
    let texts = copied_twice::<S, A>(alloc, &mut A::new(alloc));
    let is_copied = texts[0].contains("(Ok(())") || texts[2].contains("(Ok(())");
    holds(rt, "a copy", is_copied);
}

#[test]
fn a_request_may_be_refused(rt: HostRuntime) {
    over_heap(&rt, rt.alloc(), Part::Requests);
    in_blocks(&rt, rt.alloc(), Part::Requests);
    under_maxima(&rt, rt.alloc(), Part::Requests);
}

#[test]
fn calls_without_allocation(rt: HostRuntime) {
    over_heap(&rt, rt.alloc(), Part::NoRequests);
}
