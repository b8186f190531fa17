ghost use Rattle.arena_pairs.specs.PairSteps.{TransferStep, PairStep};

use crate::calls::{PairCall, PairReply};
use arena_base::ArenaSlot;
use arena_ptr::{AnyPointer, PtrKey, ReallocationError, SlotStack};
use chain_arena::{ChainArena, LinkNoGen, apply};

/// Makes one call; a transfer keeps the values, and a failed call changes neither arena.
#[inline(always)]
pub fn apply_to_pair<P: PtrKey, T: Drop, S: SlotStack<Item = ArenaSlot<P, LinkNoGen<P, T>>>>(
    first: &mut ChainArena<P, T, S>,
    second: &mut ChainArena<P, T, S>,
    call: PairCall<P, T>,
) -> PairReply<P, T>
    ensures step { PairStep ⟦<P as AnyPointer>⟧.pointers (first.old, second.old) call result
        (first.new, second.new) }
{
    match call {
        PairCall::First(call) => PairReply::Replied(apply(first, call)),
        PairCall::Second(call) => PairReply::Replied(apply(second, call)),
        PairCall::TransferToSecond(p) => PairReply::Transferred(transfer(first, p, second)),
        PairCall::TransferToFirst(p) => PairReply::Transferred(transfer(second, p, first)),
    }
}

fn transfer<P: PtrKey, T: Drop, S: SlotStack<Item = ArenaSlot<P, LinkNoGen<P, T>>>>(
    source: &mut ChainArena<P, T, S>,
    p: P,
    target: &mut ChainArena<P, T, S>,
) -> Result<Option<P>, ReallocationError>
    ensures { TransferStep ⟦<P as AnyPointer>⟧.pointers source.old target.old p result source.new
        target.new }
{
    source.transfer_chain(p, target, |_old, value, _new| value.allow())
}
