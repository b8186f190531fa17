//! Calls on surjection arenas: rows, random calls beside a model, and refusals.

mod model;
mod refusals;
mod rows;
mod scarce_stack;
mod test_sets;

use self::scarce_stack::ScarceStack;
use self::test_sets::TestSets;
use arena_base::{Arena, ArenaSlot};
use arena_ptr::{LimitedStack, PtrKey, SlotStack, ToolPtr};
use arena_traits::CloneArenaTrait;
use chain_arena::{ChainArena, LinkNoGen};
use chain_traits::CloneChainArenaTrait;
use std::alloc::Global;
use std::process::Abort;
use surject_arena::{Counted, Member, SurjectArena};

// A key and a value, both numbers.
type Key<P> = Member<P, u32>;

type Value = Counted<u32>;

type Sets<P, A, B> = SurjectArena<P, u32, u32, A, B>;

// The slots of the two arenas.
type KeySlot<P> = ArenaSlot<P, LinkNoGen<P, Key<P>>>;

type ValueSlot<P> = ArenaSlot<P, Value>;

fn holds(rt: &impl Abort, what: &str, condition: bool) {
    assert!(rt; condition, "{what}");
}

// Which tests are run.
#[derive(Clone, Copy)]
enum Part {
    All,
    // Those that pass if one request for memory is refused.
    Refusal,
}

// Runs all tests at arenas that refuse every other growth, the second first, and have a maximum:
// eight values, and more keys.
fn check_sets<P: PtrKey, T: TestSets<P>>(rt: &impl Abort, alloc: Global, part: Part) {
    let compresses = refusals::compresses_or_not::<P, T>(alloc);
    holds(rt, "compressions", compresses == Some(true));
    holds(rt, "calls", model::agrees_or_gives_up::<P, T>(alloc, 60));
    if let Part::Refusal = part {
        return;
    }
    holds(
        rt,
        "rows",
        rows::wrong_rows::<P, T>(alloc) == Ok([0, 0, 0, 0]),
    );
    let difference = model::first_difference::<P, T>(alloc, 2_000);
    holds(rt, "random calls", difference == Ok(0));
    holds(rt, "capacities", refusals::reserves::<P, T>(alloc));
    holds(rt, "insertions", refusals::refuses_inserts::<P, T>(alloc));
    holds(
        rt,
        "keys and splits",
        refusals::refuses_splits::<P, T>(alloc) == Ok(true),
    );
}

// Runs them at any two arenas.
fn check_arenas<
    P: PtrKey,
    A: CloneChainArenaTrait<P, Key<P>> + Drop,
    B: CloneArenaTrait<P, Value> + Drop,
>(rt: &impl Abort, alloc: Global, part: Part) {
    check_sets::<P, Sets<P, A, B>>(rt, alloc, part);
}

// Names the arena of keys over any stack, since stacks are named at less cost than arenas.
fn check_keys<P: PtrKey, S: SlotStack<Item = KeySlot<P>>, B: CloneArenaTrait<P, Value> + Drop>(
    rt: &impl Abort,
    alloc: Global,
    part: Part,
) {
    check_arenas::<P, ChainArena<P, Key<P>, S>, B>(rt, alloc, part);
}

// Names that of values, too.
fn check_over<P: PtrKey, S: SlotStack<Item = KeySlot<P>>, T: SlotStack<Item = ValueSlot<P>>>(
    rt: &impl Abort,
    alloc: Global,
    part: Part,
) {
    check_keys::<P, S, Arena<P, Value, T>>(rt, alloc, part);
}

fn check_part(rt: &impl Abort, alloc: Global, part: Part) {
    check_over::<
        ToolPtr,
        ScarceStack<LimitedStack<KeySlot<ToolPtr>>, 16>,
        ScarceStack<LimitedStack<ValueSlot<ToolPtr>>, 8>,
    >(rt, alloc, part);
}

#[test]
fn sets_pass_all_tests(rt: HostRuntime) {
    check_part(&rt, rt.alloc(), Part::All);
}

#[test]
fn a_request_may_be_refused(rt: HostRuntime) {
    check_part(&rt, rt.alloc(), Part::Refusal);
}
