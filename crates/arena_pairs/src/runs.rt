ghost use Rattle.std.specs.Prelude.{◌≡◌, IfOk, OnErr, MatchResult};
ghost use Rattle.chain_laws.specs.Neighbors.{HasOneSetOfChains};
ghost use Rattle.chain_links.specs.ChainArena.{link_map};
ghost use Rattle.arena_pairs.specs.PairSteps.{PairRun};

use crate::calls::{PairCall, PairReply};
use crate::steps::apply_to_pair;
use arena_base::ArenaSlot;
use arena_ptr::{AllocError, AnyPointer, PtrKey, SlotStack};
use chain_arena::{ChainArena, LinkNoGen};
use std::alloc::Allocator;

/// Makes calls in order, and returns one reply per call.
///
/// # Errors
///
/// - `AllocError`: memory for the replies was refused; no call was made.
pub fn run_pair_calls<
    P: PtrKey,
    T: Drop,
    S: SlotStack<Item = ArenaSlot<P, LinkNoGen<P, T>>>,
    A: Allocator,
>(
    alloc: A,
    first: &mut ChainArena<P, T, S>,
    second: &mut ChainArena<P, T, S>,
    calls: Vec<PairCall<P, T>>,
) -> Result<Vec<PairReply<P, T>, A>, AllocError>
    ensures ends { HasOneSetOfChains (link_map first.new) × HasOneSetOfChains (link_map second.new)
        × MatchResult result
        (λ replies. PairRun ⟦<P as AnyPointer>⟧.pointers (first.old, second.old) calls.items
        replies.items (first.new, second.new))
        (λ refused. (first.new ≡ first.old) × (second.new ≡ second.old)) }
{
    let replies = replies_to(alloc, first, second, calls);
    first.invariants();
    second.invariants();
    replies
}

fn replies_to<P: PtrKey, T: Drop, S: SlotStack<Item = ArenaSlot<P, LinkNoGen<P, T>>>, A: Allocator>(
    alloc: A,
    first: &mut ChainArena<P, T, S>,
    second: &mut ChainArena<P, T, S>,
    calls: Vec<PairCall<P, T>>,
) -> Result<Vec<PairReply<P, T>, A>, AllocError>
    ensures run { IfOk result (λ replies. PairRun ⟦<P as AnyPointer>⟧.pointers
        (first.old, second.old) calls.items replies.items (first.new, second.new)) }
    ensures err { OnErr result ((first.new ≡ first.old) × (second.new ≡ second.old)) }
{
    let mut replies = Vec::with_capacity(alloc, calls.len())?;
    for call in calls {
        let reply = apply_to_pair(first, second, call);
        match replies.push(reply) {
            Ok(()) => {}
            Err(_) => unreachable!(),
        }
    }
    Ok(replies)
}
