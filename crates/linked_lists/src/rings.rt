//! Calls on the rings of an arena of links.

ghost use Rattle.std.specs.Prelude.{◌≡◌, ◌↔◌, IsTrue, IfOk, IfSome, OnSome};
ghost use Rattle.arena_core.specs.Invalidation.{is_overflow_result, value_within};
ghost use Rattle.chain_laws.specs.declared.insert_kind.InsertKind.TheVariants as kinds;
ghost use Rattle.chain_laws.specs.Chains.{cyclic};
ghost use Rattle.chain_lists.specs.Lists.{StartsList, InsertsItemAfter, InsertsItemBefore, RemovesItem};
ghost use Rattle.linked_lists.specs.LinkedLists.{IsHandle};
ghost use Rattle.linked_lists.specs.RingCalls.{InsertsIf, ReadsNextLink, ReadsPrevLink, FindsHead, TestsRange};

use crate::entry::Entry;
use crate::handle::ListHandle;
use arena_ptr::{
    AnyPointer, ChainInsertionError, GenKey, InvalidationResult, InxKey, PtrKey, ReallocationError,
};
use arena_traits::Advancer;
use chain_links::LinkInsertKind;
use chain_traits::ChainArenaTrait;
use chain_traits::walks::advancer_passes_the_walk;

pub(crate) fn start_ring<P: PtrKey, V: Drop, A: ChainArenaTrait<P, V>>(
    arena: &mut A,
    value: V,
) -> Result<ListHandle<P>, ReallocationError>
    ensures outcome { StartsList A.state A.interlinks cyclic (λ h. P.key h.head) P.Inx.greatest
        arena.old value result arena.new }
    ensures implementation { IfOk result (λ h. A.inserts arena.old kinds.SingleLinkCyclic value
        arena.new h.head) }
{
    arena.agrees();
    match arena.insert(LinkInsertKind::SingleLinkCyclic, value) {
        Ok(head) => Ok(ListHandle { head }),
        Err(why) => Err(why),
    }
}

// Inserts a link after `p`, if it `may`.
pub(crate) fn put_after<P: PtrKey, V: Drop, A: ChainArenaTrait<P, V>>(
    arena: &mut A,
    may: bool,
    p: P,
    value: V,
) -> Result<P, ChainInsertionError>
    ensures outcome { InsertsIf may (InsertsItemAfter A.state A.interlinks cyclic P.key
        P.Inx.greatest arena.old (P.key p) value result arena.new) arena.old result arena.new }
    ensures implementation { IfOk result (A.inserts arena.old (kinds.NextTo p) value arena.new) }
{
    if !may {
        return Err(ChainInsertionError::FailedLinkRequirement);
    }
    arena.agrees();
    arena.insert_reallocating(LinkInsertKind::NextTo(p), value)
}

pub(crate) fn put_before<P: PtrKey, V: Drop, A: ChainArenaTrait<P, V>>(
    arena: &mut A,
    may: bool,
    p: P,
    value: V,
) -> Result<P, ChainInsertionError>
    ensures outcome { InsertsIf may (InsertsItemBefore A.state A.interlinks cyclic P.key
        P.Inx.greatest arena.old (P.key p) value result arena.new) arena.old result arena.new }
    ensures implementation { IfOk result (A.inserts arena.old (kinds.PrevTo p) value arena.new) }
{
    if !may {
        return Err(ChainInsertionError::FailedLinkRequirement);
    }
    arena.agrees();
    arena.insert_reallocating(LinkInsertKind::PrevTo(p), value)
}

pub(crate) fn take<P: PtrKey, V: Drop, A: ChainArenaTrait<P, V>>(
    arena: &mut A,
    p: P,
) -> InvalidationResult<V>
    ensures item { RemovesItem A.state A.interlinks cyclic ⟦<P as AnyPointer>⟧.pointers arena.old
        p (value_within result) arena.new }
    ensures overflow { OnSome (value_within result) (IfSome (A.view arena.old).counter
        (λ g. P.Gen.wraps g ≡ is_overflow_result result)) }
{
    arena.agrees();
    arena.remove(p)
}

pub(crate) fn next_link<P: PtrKey, V: Drop, A: ChainArenaTrait<P, V>>(arena: &A, p: P) -> Option<P>
    ensures { ReadsNextLink A.state A.interlinks P.key arena.now p result }
{
    match arena.get_link(p) {
        Some(link) => link.next(),
        None => None,
    }
}

pub(crate) fn prev_link<P: PtrKey, V: Drop, A: ChainArenaTrait<P, V>>(arena: &A, p: P) -> Option<P>
    ensures { ReadsPrevLink A.state A.interlinks P.key arena.now p result }
{
    match arena.get_link(p) {
        Some(link) => link.prev(),
        None => None,
    }
}

pub(crate) fn are_same<P: PtrKey>(p: P, q: P) -> bool
    ensures { IsTrue result ↔ (P.key p ≡ P.key q) }
{
    p.is_same(q)
}

pub(crate) fn is_head<P: PtrKey, T: Drop, A: ChainArenaTrait<P, Entry<T>>>(arena: &A, h: P) -> bool
    ensures { IsTrue result ↔ IsHandle (A.entry arena.now) (P.key h) }
{
    match arena.get(h) {
        Some(Entry::Head) => true,
        _ => false,
    }
}

pub(crate) fn find_head<P: PtrKey, T: Drop, A: ChainArenaTrait<P, Entry<T>>>(
    arena: &A,
    p: P,
) -> Option<ListHandle<P>>
    ensures { FindsHead (A.entry arena.now) (A.interlinks arena.now) (λ h. P.key h.head) (P.key p)
        result }
{
    advancer_passes_the_walk(arena, p);
    let mut along = match arena.advancer_chain(p) {
        Some(along) => along,
        None => return None,
    };
    while let Some(q) = along.advance(arena) {
        if is_head(arena, q) {
            return Some(ListHandle { head: q });
        }
    }
    None
}

// Returns whether the walk from `first` to `last` passes no head and not `q`.
pub(crate) fn range_is_without<P: PtrKey, T: Drop, A: ChainArenaTrait<P, Entry<T>>>(
    arena: &A,
    first: P,
    last: P,
    q: P,
) -> bool
    ensures { TestsRange A.state A.interlinks arena.now (P.key first) (P.key last) (P.key q)
        result }
{
    advancer_passes_the_walk(arena, first);
    let mut along = match arena.advancer_chain(first) {
        Some(along) => along,
        None => return false,
    };
    while let Some(p) = along.advance(arena) {
        if is_head(arena, p) {
            return false;
        }
        if are_same(p, q) {
            return false;
        }
        if are_same(p, last) {
            return true;
        }
    }
    false
}
