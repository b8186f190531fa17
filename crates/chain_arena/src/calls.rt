ghost use Rattle.std.specs.Prelude.{◌≡◌, min, length, IfOk, OnErr, MatchResult};
ghost use Rattle.chain_laws.specs.Neighbors.{HasOneSetOfChains};
ghost use Rattle.chain_links.specs.ChainArena.{link_map};
ghost use Rattle.chain_arena.specs.Drains.{walk_left, without_each};
ghost use Rattle.chain_arena.specs.Steps.{ReserveStep, DrainChainStep, Step, Run};
ghost use Rattle.chain_arena.specs.Runs.{RunIsDetermined, StepIsDetermined, RunIsDeterminedByCapacity};

use crate::chain_arena::ChainArena;
use crate::chain_drains::ChainDrain;
use arena_base::{ArenaSlot, ArenaTrait};
use arena_ptr::{
    AllocError, AnyPointer, ChainInsertionError, InvalidationOption, InvalidationResult, PtrKey,
    ReallocationError, SlotStack,
};
use chain_links::{LinkInsertKind, LinkNoGen};
use chain_traits::ChainArenaTrait;
use std::alloc::Allocator;

/// A call that may change a chain arena.
///
/// `Insert` is `insert_reallocating`, and `Reserve` is `reallocate_min_capacity`.
#[derive(Drop)]
pub enum Call<P: PtrKey, T> {
    Insert { kind: LinkInsertKind<P>, t: T },
    InsertWithin { kind: LinkInsertKind<P>, t: T },
    Connect(P, P),
    BreakPrev(P),
    BreakNext(P),
    ExchangeNext(P, P),
    ReverseChain(P),
    MoveAfter(P, P),
    SpliceAfter(P, P, P),
    ArrangeChain(Vec<P>),
    Remove(P),
    RemoveInx(P::Inx),
    Invalidate(P),
    /// Up to `take` links one by one, then the rest.
    DrainChain { p: P, take: usize },
    Clear,
    Compress(bool),
    CompressCanonical(bool),
    Reserve(usize),
    SetGeneration(P::Gen),
    IncGeneration,
}

/// The reply to a call.
#[derive(Drop)]
pub enum Reply<P: PtrKey, T> {
    Inserted(Result<P, ChainInsertionError>),
    /// Whether the call was done.
    Done(bool),
    Removed(InvalidationResult<LinkNoGen<P, T>>),
    RemovedInx(InvalidationResult<(P::Gen, LinkNoGen<P, T>)>),
    Renewed(InvalidationResult<P>),
    /// The links taken one by one, or `None` if the pointer is not valid.
    Drained(Option<usize>),
    /// Whether the counter overflowed.
    Counted(InvalidationOption<()>),
    Reserved(Result<(), ReallocationError>),
    Set,
}

/// Makes one call and returns its reply.
pub fn apply<P: PtrKey, T: Drop, S: SlotStack<Item = ArenaSlot<P, LinkNoGen<P, T>>>>(
    arena: &mut ChainArena<P, T, S>,
    call: Call<P, T>,
) -> Reply<P, T>
    ensures step { Step ⟦<P as AnyPointer>⟧.pointers arena.old call result arena.new }
{
    match call {
        Call::Insert { kind, t } => Reply::Inserted(arena.insert_reallocating(kind, t)),
        Call::InsertWithin { kind, t } => Reply::Inserted(arena.insert_within_capacity(kind, t)),
        Call::Connect(p, q) => Reply::Done(arena.connect(p, q).is_some()),
        Call::BreakPrev(p) => Reply::Done(arena.break_prev(p).is_some()),
        Call::BreakNext(p) => Reply::Done(arena.break_next(p).is_some()),
        Call::ExchangeNext(p, q) => Reply::Done(arena.exchange_next(p, q).is_some()),
        Call::ReverseChain(p) => Reply::Done(arena.reverse_chain(p).is_some()),
        Call::MoveAfter(p, q) => Reply::Done(arena.move_after(p, q).is_some()),
        Call::SpliceAfter(p, first, last) => {
            Reply::Done(arena.splice_after(p, first, last).is_some())
        }
        Call::ArrangeChain(order) => Reply::Done(arena.arrange_chain(&order).is_some()),
        Call::Remove(p) => Reply::Removed(arena.remove_link_no_gen(p)),
        Call::RemoveInx(i) => Reply::RemovedInx(arena.remove_inx_link_no_gen(i)),
        Call::Invalidate(p) => Reply::Renewed(arena.invalidate(p)),
        Call::DrainChain { p, take } => Reply::Drained(drain(arena, p, take)),
        Call::Clear => Reply::Counted(arena.clear()),
        Call::Compress(reset) => Reply::Counted(arena.compress(reset)),
        Call::CompressCanonical(reset) => Reply::Counted(arena.compress_canonical(reset)),
        Call::Reserve(n) => Reply::Reserved(reserve(arena, n)),
        Call::SetGeneration(generation) => {
            arena.set_generation(generation);
            Reply::Set
        }
        Call::IncGeneration => Reply::Counted(arena.inc_generation()),
    }
}

fn reserve<P: PtrKey, T: Drop, S: SlotStack<Item = ArenaSlot<P, LinkNoGen<P, T>>>>(
    arena: &mut ChainArena<P, T, S>,
    n: usize,
) -> Result<(), ReallocationError>
    ensures { ReserveStep ⟦<P as AnyPointer>⟧.pointers arena.old n result arena.new }
{
    let grown = arena.reallocate_min_capacity(n);
    arena.invariants();
    grown
}

// Not inlined, so that its loop has the registers.
#[inline(never)]
fn drain<P: PtrKey, T: Drop, S: SlotStack<Item = ArenaSlot<P, LinkNoGen<P, T>>>>(
    arena: &mut ChainArena<P, T, S>,
    p: P,
    take: usize,
) -> Option<usize>
    ensures { DrainChainStep ⟦<P as AnyPointer>⟧.pointers arena.old (P.key p) take result
        arena.new }
{
    match arena.drain_chain(p) {
        Some(mut links) => {
            let count = take_links(&mut links, take);
            drop(links);
            Some(count)
        }
        None => None,
    }
}

fn take_links<P: PtrKey, T: Drop, S: SlotStack<Item = ArenaSlot<P, LinkNoGen<P, T>>>>(
    links: &mut ChainDrain<'_, P, T, S>,
    take: usize,
) -> usize
    ensures same_reference { links.new.arena.ghost_name ≡ links.old.arena.ghost_name }
    ensures count { result ≡ min take (length (walk_left links.old.arena.now links.old.at)) }
    ensures state { without_each P.Gen.following links.new.arena.now
        (walk_left links.new.arena.now links.new.at)
        ≡ without_each P.Gen.following links.old.arena.now
        (walk_left links.old.arena.now links.old.at) }
{
    // A plain difference would let LLVM count up.
    let mut left = take;
    while left > 0 {
        match links.next() {
            Some(_) => left -= 1,
            None => return take.saturating_sub(left),
        }
    }
    take
}

/// Makes calls in order and returns their replies; a failed call changes nothing.
///
/// # Errors
///
/// - `AllocError`: allocating the replies failed; no call is made.
pub fn run_calls<
    P: PtrKey,
    T: Drop,
    S: SlotStack<Item = ArenaSlot<P, LinkNoGen<P, T>>>,
    A: Allocator,
>(
    alloc: A,
    arena: &mut ChainArena<P, T, S>,
    calls: Vec<Call<P, T>>,
) -> Result<Vec<Reply<P, T>, A>, AllocError>
    ensures ends { HasOneSetOfChains (link_map arena.new) × MatchResult result
        (λ replies. Run ⟦<P as AnyPointer>⟧.pointers arena.old calls.items replies.items arena.new)
        (λ refused. arena.new ≡ arena.old) }
{
    let replies = replies_to(alloc, arena, calls);
    arena.invariants();
    replies
}

fn replies_to<P: PtrKey, T: Drop, S: SlotStack<Item = ArenaSlot<P, LinkNoGen<P, T>>>, A: Allocator>(
    alloc: A,
    arena: &mut ChainArena<P, T, S>,
    calls: Vec<Call<P, T>>,
) -> Result<Vec<Reply<P, T>, A>, AllocError>
    ensures run { IfOk result (λ replies. Run ⟦<P as AnyPointer>⟧.pointers arena.old
        calls.items replies.items arena.new) }
    ensures err { OnErr result (arena.new ≡ arena.old) }
{
    let mut replies = Vec::with_capacity(alloc, calls.len())?;
    for call in calls {
        let reply = apply(arena, call);
        match replies.push(reply) {
            Ok(()) => {}
            Err(_) => unreachable!(),
        }
    }
    Ok(replies)
}

/// States what an arena and calls determine.
pub fn runs_are_determined<P: PtrKey, T: Drop>()
    ensures runs_determined { RunIsDetermined ⟦<P as AnyPointer>⟧.pointers T }
    ensures step { StepIsDetermined ⟦<P as AnyPointer>⟧.pointers T }
    ensures by_capacity { RunIsDeterminedByCapacity ⟦<P as AnyPointer>⟧.pointers T }
{}
