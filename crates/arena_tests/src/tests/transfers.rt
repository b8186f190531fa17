//! Tests of transfers of chains to another arena.

use super::pointers::BarePtr;
use super::{Slot, limited};
use arena_base::{ArenaTrait, CompactArenaTrait};
use arena_ptr::{Gen32, LimitStack, LimitedStack, Ptr, PtrKey, SlotStack, ToolPtr};
use chain_arena::{ChainArena, ChainArenaTrait, LinkInsertKind};
use std::alloc::Global;
use std::fmt::Debug;
use test_types::calls::run_call;
use test_types::lines::{Do, ParsedCall, text};
use test_types::numbered::{Counted, Numbered};

// The target of a transfer: its maximum, and links of these values, rings of one or lone ones. The
// closure returns `returned` for each value, if there is one.
#[derive(Drop)]
struct TargetSetup {
    most: usize,
    is_ring: bool,
    values: &'static [u32],
    returned: Option<u32>,
}

// Returns the target of a call. `CarryToBare` has 8-bit indexes, two rings and a maximum of `n`.
// `CarryToFull` has two links and a maximum of two. `CarryAsFive` is empty, and makes each value 5.
// Any other has two links.
fn setup_of(call: Do, n: u32) -> TargetSetup {
    let (most, is_ring, values, returned): (usize, bool, &'static [u32], Option<u32>) = match call {
        Do::CarryToBare => (n as usize, true, &[5, 6], None),
        Do::CarryToFull => (2, false, &[1, 2], None),
        Do::CarryAsFive => (1000, false, &[], Some(5)),
        _ => (1000, false, &[1, 2], None),
    };
    TargetSetup {
        most,
        is_ring,
        values,
        returned,
    }
}

fn arena_as<P: PtrKey, S: LimitStack<Item = Slot<P>>>(
    alloc: Global,
    setup: &TargetSetup,
) -> ChainArena<P, u32, S> {
    let mut arena: ChainArena<P, u32, S> = limited(alloc, setup.most);
    let kind = if setup.is_ring {
        LinkInsertKind::SingleLinkCyclic
    } else {
        LinkInsertKind::Disconnected
    };
    for value in setup.values {
        let _ = arena.insert_reallocating(kind, *value);
    }
    arena
}

// Transfers all links of a source. The closure adds ten times the number of its call to each value,
// or returns `returned`.
// Returns the result, and for each call of the closure the old pointer, the value, whether its
// removal overflowed, and the new pointer.
fn carry<
    P: PtrKey + Debug,
    Q: PtrKey + Debug,
    A: ChainArenaTrait<P, u32> + CompactArenaTrait<P, u32>,
    S: SlotStack<Item = Slot<Q>>,
>(
    alloc: Global,
    source: &mut A,
    generation: Q::Gen,
    target: &mut ChainArena<Q, u32, S>,
    returned: Option<u32>,
) -> String {
    let mut visited: Vec<(P, u32, bool, Q)> = Vec::new(alloc);
    let mut calls = 0u32;
    let outcome = target.transfer_canonical_reallocating(generation, source, |p, value, q| {
        let (t, overflow) = value.overflowing();
        let _ = visited.push((p, t, overflow, q));
        calls = calls.saturating_add(10);
        returned.unwrap_or(t.saturating_add(calls))
    });
    text(alloc, (outcome, visited))
}

// Returns the links, counter and maximum, and whether the capacity is at most 64.
fn contents<Q: Ptr, S: SlotStack<Item = Slot<Q>>>(
    alloc: Global,
    arena: &ChainArena<Q, u32, S>,
) -> String {
    let counter = arena.generation();
    let is_little = arena.capacity() <= 64;
    text(alloc, (arena, counter, arena.max_capacity(), is_little))
}

fn in_one_line(alloc: Global, reply: &str, listing: &str) -> String {
    match format!(in alloc; "{reply} {listing}") {
        Ok(line) => line,
        Err(_) => String::new(alloc),
    }
}

// Transfers all links to a new target. Returns the result and the closure's arguments, and the
// target then.
fn transfer_to<
    P: PtrKey + Debug,
    Q: Ptr,
    A: ChainArenaTrait<P, u32> + CompactArenaTrait<P, u32>,
    S: LimitStack<Item = Slot<Q>>,
>(alloc: Global, source: &mut A, generation: Q::Gen, setup: &TargetSetup) -> String {
    let mut target: ChainArena<Q, u32, S> = arena_as(alloc, setup);
    let reply = carry(alloc, source, generation, &mut target, setup.returned);
    in_one_line(alloc, reply.as_str(), contents(alloc, &target).as_str())
}

fn run_transfer<P: PtrKey + Debug, A: ChainArenaTrait<P, u32> + CompactArenaTrait<P, u32>>(
    alloc: Global,
    source: &mut A,
    call: Do,
    n: u32,
) -> String {
    let setup = setup_of(call, n);
    if setup.is_ring {
        return transfer_to::<P, BarePtr, A, LimitedStack<Slot<BarePtr>>>(alloc, source, (), &setup);
    }
    transfer_to::<P, ToolPtr, A, LimitedStack<Slot<ToolPtr>>>(alloc, source, Gen32::of(n), &setup)
}

// Returns an arena with a maximum, a list of 91 and 93 at the indexes 1 and 3, and a hole between.
fn list_with_hole<Q: PtrKey, R: LimitStack<Item = Slot<Q>>>(
    alloc: Global,
    most: usize,
) -> ChainArena<Q, u32, R> {
    let mut arena: ChainArena<Q, u32, R> = limited(alloc, most);
    if let Ok(a) = arena.insert_reallocating(LinkInsertKind::Disconnected, 91) {
        if let Ok(b) = arena.insert_reallocating(LinkInsertKind::ChainEnd(a), 92) {
            let _ = arena.insert_reallocating(LinkInsertKind::ChainEnd(b), 93);
            arena.remove(b);
        }
    }
    arena
}

// Transfers a chain. The closure adds ten times the number of its call to each value.
// Returns the result, and what the closure was passed, as `carry` does.
fn move_chain<
    P: PtrKey + Debug,
    S: SlotStack<Item = Slot<P>>,
    Q: PtrKey + Debug,
    R: SlotStack<Item = Slot<Q>>,
>(
    alloc: Global,
    source: &mut ChainArena<P, u32, S>,
    p: P,
    target: &mut ChainArena<Q, u32, R>,
) -> String {
    let mut visited: Vec<(P, u32, bool, Q)> = Vec::new(alloc);
    let mut calls = 0u32;
    let outcome = source.transfer_chain(p, target, |p, value, q| {
        let (t, overflow) = value.overflowing();
        let _ = visited.push((p, t, overflow, q));
        calls = calls.saturating_add(10);
        t.saturating_add(calls)
    });
    text(alloc, (outcome, visited))
}

fn carry_chain_to<
    P: PtrKey + Debug,
    S: SlotStack<Item = Slot<P>>,
    Q: Ptr,
    R: LimitStack<Item = Slot<Q>>,
>(alloc: Global, source: &mut ChainArena<P, u32, S>, p: P, most: usize) -> String {
    let mut target: ChainArena<Q, u32, R> = list_with_hole(alloc, most);
    let reply = move_chain(alloc, source, p, &mut target);
    in_one_line(alloc, reply.as_str(), contents(alloc, &target).as_str())
}

// Transfers the chain of `p` to an arena with two links, a hole between them, and a maximum.
// Returns the result and the closure's arguments, and the target then.
pub(super) fn carry_chain<P: PtrKey + Debug, S: SlotStack<Item = Slot<P>>>(
    alloc: Global,
    source: &mut ChainArena<P, u32, S>,
    p: P,
    most: usize,
) -> String {
    carry_chain_to::<P, S, ToolPtr, LimitedStack<Slot<ToolPtr>>>(alloc, source, p, most)
}

// Runs a transfer, or a call of the traits.
pub(super) fn run_trait_call<
    P: Numbered,
    A: ChainArenaTrait<P, u32> + CompactArenaTrait<P, u32> + Drop,
>(alloc: Global, arena: &mut A, parsed: ParsedCall<P>) -> String {
    match parsed.call {
        Do::CarryOut | Do::CarryAsFive | Do::CarryToFull | Do::CarryToBare => {
            run_transfer(alloc, arena, parsed.call, parsed.n)
        }
        _ => run_call(alloc, arena, parsed),
    }
}

// Transfers of a chain of 3 and 1 with a lone link between, and of others. Some have the generation
// of a compression, which arranges the same links alike.
pub(super) const TRANSFERS: &str = "\
# a ring and a chain behind a hole
Insert Disconnected 1 = Ok(P0[1](2))
Insert SingleLinkCyclic 2 = Ok(P0[2](2))
Insert Disconnected 3 = Ok(P0[3](2))
Insert ChainEnd 3 2 4 = Ok(P0[4](2))
Remove 1 2 = Success(1)
CarryOut 4 = (Ok(()), [(P0[2](2), 2, false, P0[1](4)), (P0[3](2), 3, false, P0[2](4)), (P0[4](2), 4, false, P0[3](4))]) ({P0[1](4): {1, 1} 12, P0[2](4): {(start), 3} 23, P0[3](4): {2, (end)} 34}, Gen32 { number: 4 }, Some(1000), true)
# lone links behind holes
InsertMany 6 = 6
Remove 1 2 = Success(1)
Remove 2 2 = Success(2)
Remove 3 2 = Success(3)
Remove 4 2 = Success(4)
CarryOut 7 = (Ok(()), [(P0[5](2), 5, false, P0[1](7)), (P0[6](2), 6, false, P0[2](7))]) ({P0[1](7): {(start), (end)} 15, P0[2](7): {(start), (end)} 26}, Gen32 { number: 7 }, Some(1000), true)
# a chain of 3 and 1
Linked 3 3 1 = true
CarryOut 7 = (Ok(()), [(P0[3](2), 3, false, P0[1](7)), (P0[1](2), 1, false, P0[2](7)), (P0[2](2), 2, false, P0[3](7))]) ({P0[1](7): {(start), 2} 13, P0[2](7): {1, (end)} 21, P0[3](7): {(start), (end)} 32}, Gen32 { number: 7 }, Some(1000), true)
Len = 0
Counter = Some(5)
# scattered chains
Linked 4 1 3 0 2 4 = true
Remove 1 2 = Success(1)
Insert ChainEnd 4 2 5 = Ok(P0[1](3))
CarryOut 4 = (Ok(()), [(P0[2](2), 2, false, P0[1](4)), (P0[4](2), 4, false, P0[2](4)), (P0[1](3), 5, false, P0[3](4)), (P0[3](2), 3, false, P0[4](4))]) ({P0[1](4): {(start), 2} 12, P0[2](4): {1, 3} 24, P0[3](4): {2, (end)} 35, P0[4](4): {(start), (end)} 43}, Gen32 { number: 4 }, Some(1000), true)
Len = 0
Counter = Some(7)
# a linear chain and a cycle
Linked 4 1 4 0 2 3 2 = true
CarryOut 2 = (Ok(()), [(P0[1](2), 1, false, P0[1](2)), (P0[4](2), 4, false, P0[2](2)), (P0[2](2), 2, false, P0[3](2)), (P0[3](2), 3, false, P0[4](2))]) ({P0[1](2): {(start), 2} 11, P0[2](2): {1, (end)} 24, P0[3](2): {4, 4} 32, P0[4](2): {3, 3} 43}, Gen32 { number: 2 }, Some(1000), true)
Len = 0
Counter = Some(6)
# a linear chain and a cycle
Linked 4 1 4 0 2 3 2 = true
CarryAsFive 7 = (Ok(()), [(P0[1](2), 1, false, P0[1](7)), (P0[4](2), 4, false, P0[2](7)), (P0[2](2), 2, false, P0[3](7)), (P0[3](2), 3, false, P0[4](7))]) ({P0[1](7): {(start), 2} 5, P0[2](7): {1, (end)} 5, P0[3](7): {4, 4} 5, P0[4](7): {3, 3} 5}, Gen32 { number: 7 }, Some(1000), true)
# a ring of three
Linked 3 1 2 3 1 = true
CarryOut 5 = (Ok(()), [(P0[1](2), 1, false, P0[1](5)), (P0[2](2), 2, false, P0[2](5)), (P0[3](2), 3, false, P0[3](5))]) ({P0[1](5): {3, 2} 11, P0[2](5): {1, 3} 22, P0[3](5): {2, 1} 33}, Gen32 { number: 5 }, Some(1000), true)
# an empty source
CarryOut 9 = (Ok(()), []) ({}, Gen32 { number: 9 }, Some(1000), true)
Len = 0
Counter = Some(2)
# refused transfers, of a chain of 3 and 1 and other links, beyond the maximum
Linked 3 3 1 = true
Reserve 100 = Ok(())
CarryToFull 7 = (Err(BeyondMaxCapacity), []) ({P0[1](2): {(start), (end)} 1, P0[2](2): {(start), (end)} 2}, Gen32 { number: 2 }, Some(2), true)
HasCapacity 100 = true
All = [((1, 2), 1, (3, 2), (0, 0)), ((2, 2), 2, (0, 0), (0, 0)), ((3, 2), 3, (0, 0), (1, 2))]
Counter = Some(2)
# the index type is checked before the maximum; on the error both arenas are unchanged
InsertMany 256 = 256
Connect 3 2 1 2 = true
Reserve 300 = Ok(())
CarryToBare 300 = (Err(AllocError), []) ({Bare[1]: {1, 1} 5, Bare[2]: {2, 2} 6}, (), Some(300), true)
CarryToBare 2 = (Err(AllocError), []) ({Bare[1]: {1, 1} 5, Bare[2]: {2, 2} 6}, (), Some(2), true)
HasCapacity 300 = true
Remove 256 2 = Success(256)
CarryToBare 2 = (Err(BeyondMaxCapacity), []) ({Bare[1]: {1, 1} 5, Bare[2]: {2, 2} 6}, (), Some(2), true)
Len = 255
Along 3 2 = Some([(3, 2), (1, 2), (0, 0), (0, 0), (0, 0)])
Counter = Some(3)
";

// Transfers of one chain. The first new link takes the hole at index 2, and the others are behind.
pub(super) const CHAIN_TRANSFERS: &str = "\
# a list from its middle, toward its end and then back to its start
Linked 5 1 2 3 4 = true
CarryChain 3 2 = (Ok(Some(P0[2](3))), [(P0[3](2), 3, false, P0[2](3)), (P0[4](2), 4, false, P0[4](3)), (P0[2](2), 2, false, P0[5](3)), (P0[1](2), 1, false, P0[6](3))]) ({P0[1](2): {(start), 3} 91, P0[2](3): {5, 4} 13, P0[3](2): {1, (end)} 93, P0[4](3): {2, (end)} 24, P0[5](3): {6, 2} 32, P0[6](3): {(start), 5} 41}, Gen32 { number: 3 }, Some(1000), true)
All = [((5, 2), 5, (0, 0), (0, 0))]
Counter = Some(6)
# a ring, once around
Linked 4 1 2 3 1 = true
CarryChain 2 2 = (Ok(Some(P0[2](3))), [(P0[2](2), 2, false, P0[2](3)), (P0[3](2), 3, false, P0[4](3)), (P0[1](2), 1, false, P0[5](3))]) ({P0[1](2): {(start), 3} 91, P0[2](3): {5, 4} 12, P0[3](2): {1, (end)} 93, P0[4](3): {2, 5} 23, P0[5](3): {4, 2} 31}, Gen32 { number: 3 }, Some(1000), true)
All = [((4, 2), 4, (0, 0), (0, 0))]
Counter = Some(5)
# a ring of one, and a lone link
Linked 2 1 1 = true
CarryChain 1 2 = (Ok(Some(P0[2](3))), [(P0[1](2), 1, false, P0[2](3))]) ({P0[1](2): {(start), 3} 91, P0[2](3): {2, 2} 11, P0[3](2): {1, (end)} 93}, Gen32 { number: 3 }, Some(1000), true)
CarryChain 2 2 = (Ok(Some(P0[2](3))), [(P0[2](2), 2, false, P0[2](3))]) ({P0[1](2): {(start), 3} 91, P0[2](3): {(start), (end)} 12, P0[3](2): {1, (end)} 93}, Gen32 { number: 3 }, Some(1000), true)
IsEmpty = true
Counter = Some(4)
# a list from its end
Linked 3 1 2 3 = true
CarryChain 3 2 = (Ok(Some(P0[2](3))), [(P0[3](2), 3, false, P0[2](3)), (P0[2](2), 2, false, P0[4](3)), (P0[1](2), 1, false, P0[5](3))]) ({P0[1](2): {(start), 3} 91, P0[2](3): {4, (end)} 13, P0[3](2): {1, (end)} 93, P0[4](3): {5, 2} 22, P0[5](3): {(start), 4} 31}, Gen32 { number: 3 }, Some(1000), true)
IsEmpty = true
Counter = Some(5)
# a maximum of three: the pointer is checked before the maximum; on the error both are unchanged
Linked 3 1 2 = true
CarryChainToFull 1 9 = (Ok(None), []) ({P0[1](2): {(start), 3} 91, P0[3](2): {1, (end)} 93}, Gen32 { number: 3 }, Some(3), true)
CarryChainToFull 1 2 = (Err(BeyondMaxCapacity), []) ({P0[1](2): {(start), 3} 91, P0[3](2): {1, (end)} 93}, Gen32 { number: 3 }, Some(3), true)
Counter = Some(2)
CarryChainToFull 3 2 = (Ok(Some(P0[2](3))), [(P0[3](2), 3, false, P0[2](3))]) ({P0[1](2): {(start), 3} 91, P0[2](3): {(start), (end)} 13, P0[3](2): {1, (end)} 93}, Gen32 { number: 3 }, Some(3), true)
All = [((1, 2), 1, (0, 0), (2, 2)), ((2, 2), 2, (1, 2), (0, 0))]
Counter = Some(3)
";
