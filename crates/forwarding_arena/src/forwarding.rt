//! Forwarding by trait clauses alone.

use arena_ptr::{
    AllocError, AnyPointer, ChainInsertionError, InvalidationOption, InvalidationResult,
    NotWithinCapacityError, PtrKey, ReallocationError,
};
use arena_traits::{Advancer, ArenaTrait, CompactArenaTrait, PlainArenaTrait};
use chain_links::{Link, LinkInsertKind, LinkNoGen};
use chain_traits::ChainArenaTrait;
use std::alloc::Global;

/// An arena that forwards to another arena.
#[derive(Drop)]
pub struct ForwardingArena<A> {
    inner: A,
}

/// An advancer that forwards to another advancer.
#[derive(Drop)]
pub struct ForwardingAdvancer<V> {
    inner: V,
}

impl<A, V: Advancer<A>> Advancer<ForwardingArena<A>> for ForwardingAdvancer<V> {
    type Item = V::Item;

    ghost gives = { λ a arena returned b. V.gives a.inner arena.inner returned b.inner };

    ghost is_spent = { λ a. V.is_spent a.inner };

    ghost stays_spent = { λ a b arena returned spent given. V.stays_spent a.inner b.inner
        arena.inner
        returned spent given };

    fn advance(&mut self, collection: &ForwardingArena<A>) -> Option<V::Item> {
        self.inner.advance(&collection.inner)
    }

    fn empty() -> Self {
        ForwardingAdvancer { inner: V::empty() }
    }
}

impl<P: PtrKey, T: Drop, A: ArenaTrait<P, T>> ArenaTrait<P, T> for ForwardingArena<A> {
    type PtrAdvancer = ForwardingAdvancer<A::PtrAdvancer>;

    ghost view = { λ w. A.view w.inner };

    ghost entry = { λ w. A.entry w.inner };

    ghost state = { λ w. A.state w.inner };

    ghost cursor = { λ v. A.cursor v.inner };

    ghost starts = { λ n w. A.starts n w.inner };

    ghost grows = { λ n v w. A.grows n v.inner w.inner };

    ghost writes = { λ v i t w. A.writes v.inner i t w.inner };

    ghost extra_on_invalidate = { λ v i w. A.extra_on_invalidate v.inner i w.inner };

    ghost removes = { λ v i w. A.removes v.inner i w.inner };

    ghost clears = { λ v w. A.clears v.inner w.inner };

    ghost compresses = { λ v w. A.compresses v.inner w.inner };

    ghost advances = { λ a b w returned given. A.advances a.inner b.inner w.inner returned given };

    fn new(alloc: Global) -> Self {
        ForwardingArena {
            inner: A::new(alloc),
        }
    }

    fn with_min_capacity(alloc: Global, n: usize) -> Result<Self, AllocError> {
        match A::with_min_capacity(alloc, n) {
            Ok(inner) => Ok(ForwardingArena { inner }),
            Err(refusal) => Err(refusal),
        }
    }

    fn capacity(&self) -> usize {
        self.inner.capacity()
    }

    fn max_capacity(&self) -> Option<usize> {
        self.inner.max_capacity()
    }

    fn len(&self) -> usize {
        self.inner.len()
    }

    fn is_empty(&self) -> bool {
        self.inner.is_empty()
    }

    fn reallocate_min_capacity(&mut self, n: usize) -> Result<(), ReallocationError> {
        self.inner.reallocate_min_capacity(n)
    }

    fn singular_generation(&self) -> Option<P::Gen> {
        self.inner.singular_generation()
    }

    fn contains(&self, p: P) -> bool {
        self.inner.contains(p)
    }

    fn get(&self, p: P) -> Option<&T> {
        self.inner.get(p)
    }

    fn get_mut(&mut self, p: P) -> Option<&mut T> {
        self.inner.get_mut(p)
    }

    fn get_inx(&self, i: P::Inx) -> Option<(P::Gen, &T)> {
        self.inner.get_inx(i)
    }

    fn get_inx_mut(&mut self, i: P::Inx) -> Option<&mut T> {
        self.inner.get_inx_mut(i)
    }

    fn find_first_inx_ptr(&self) -> Option<P> {
        self.inner.find_first_inx_ptr()
    }

    fn find_last_inx_ptr(&self) -> Option<P> {
        self.inner.find_last_inx_ptr()
    }

    fn advancer(&self) -> ForwardingAdvancer<A::PtrAdvancer> {
        ForwardingAdvancer {
            inner: self.inner.advancer(),
        }
    }

    fn advancer_inx(&self, i: P::Inx, rev: bool) -> ForwardingAdvancer<A::PtrAdvancer> {
        ForwardingAdvancer {
            inner: self.inner.advancer_inx(i, rev),
        }
    }

    fn invalidate(&mut self, p: P) -> InvalidationResult<P> {
        self.inner.invalidate(p)
    }

    fn remove(&mut self, p: P) -> InvalidationResult<T> {
        self.inner.remove(p)
    }

    fn remove_inx(&mut self, i: P::Inx) -> InvalidationResult<(P::Gen, T)> {
        self.inner.remove_inx(i)
    }

    fn clear(&mut self) -> InvalidationOption<()> {
        self.inner.clear()
    }

    fn compress_with<F: FnMut(P, &mut T, P) + Drop>(
        &mut self,
        reset: bool,
        map: F,
    ) -> InvalidationOption<()> {
        self.inner.compress_with(reset, map)
    }
}

impl<P: PtrKey, T: Drop, A: CompactArenaTrait<P, T>> CompactArenaTrait<P, T>
    for ForwardingArena<A> {}

impl<P: PtrKey, T: Drop, A: PlainArenaTrait<P, T>> PlainArenaTrait<P, T> for ForwardingArena<A> {
    ghost inserts = { λ v t w. A.inserts v.inner t w.inner };

    ghost swaps = { λ v i j w. A.swaps v.inner i j w.inner };

    fn insert_within_capacity(&mut self, t: T) -> Result<P, NotWithinCapacityError> {
        self.inner.insert_within_capacity(t)
    }

    fn insert_reallocating(&mut self, t: T) -> Result<P, ReallocationError> {
        self.inner.insert_reallocating(t)
    }

    fn swap(&mut self, p: P, q: P) -> Option<()> {
        self.inner.swap(p, q)
    }
}

impl<P: PtrKey, T: Drop, A: ChainArenaTrait<P, T>> ChainArenaTrait<P, T> for ForwardingArena<A> {
    ghost use Rattle.std.specs.Prelude.{◌≡◌, ◌↔◌, IsTrue, IfOk, OnErr};
    ghost use Rattle.chain_links.specs.Insertions.{MayInsertIn, InsertsLinkWithin, InsertsLink, InsertsAllowedLink};

    type ChainPtrAdvancer = ForwardingAdvancer<A::ChainPtrAdvancer>;

    ghost interlinks = { λ w. A.interlinks w.inner };

    ghost walker = { λ v. A.walker v.inner };

    ghost inserts = { λ v kind t w p. A.inserts v.inner kind t w.inner p };

    ghost connects = { λ v p q w. A.connects v.inner p q w.inner };

    ghost breaks_prev = { λ v p w. A.breaks_prev v.inner p w.inner };

    ghost breaks_next = { λ v p w. A.breaks_next v.inner p w.inner };

    ghost exchanges = { λ v p q w. A.exchanges v.inner p q w.inner };

    ghost reverses = { λ v p w. A.reverses v.inner p w.inner };

    ghost moves = { λ v p q w. A.moves v.inner p q w.inner };

    ghost splices = { λ v p first last w. A.splices v.inner p first last w.inner };

    ghost compresses_canonically = { λ v w. A.compresses_canonically v.inner w.inner };

    ghost passes = { λ v w arena returned given. A.passes v.inner w.inner arena.inner
        returned given };

    ghost links_are_entries = { λ w i. A.links_are_entries w.inner i };

    ghost growth_keeps = { λ n v w grows. A.growth_keeps n v.inner w.inner grows };

    ghost write_keeps = { λ v w i t writes. A.write_keeps v.inner w.inner i t writes };

    ghost renewal_keeps = { λ v w i renewed. A.renewal_keeps v.inner w.inner i renewed };

    ghost removal_removes = { λ v w i removes. A.removal_removes v.inner w.inner i removes };

    ghost compression_renames = { λ v w compresses. A.compression_renames v.inner w.inner
        compresses };

    fn can_insert(&self, kind: LinkInsertKind<P>) -> bool
        ensures { IsTrue result ↔ MayInsertIn A.state A.interlinks
            ⟦<P as AnyPointer>⟧.pointers self.now.inner kind }
    {
        self.inner.can_insert(kind)
    }

    fn insert_within_capacity(
        &mut self,
        kind: LinkInsertKind<P>,
        t: T,
    ) -> Result<P, ChainInsertionError>
        ensures outcome { InsertsLinkWithin (λ w. A.state w.inner) (λ w. A.interlinks w.inner)
            ⟦<P as AnyPointer>⟧.pointers self.old kind t result self.new }
        ensures err { OnErr result (self.new ≡ self.old) }
        ensures implementation { IfOk result (A.inserts self.old.inner kind t self.new.inner) }
    {
        self.inner.insert_within_capacity(kind, t)
    }

    fn insert_reallocating(
        &mut self,
        kind: LinkInsertKind<P>,
        t: T,
    ) -> Result<P, ChainInsertionError>
        ensures outcome { InsertsLink (λ w. A.state w.inner) (λ w. A.interlinks w.inner)
            ⟦<P as AnyPointer>⟧.pointers self.old kind t result self.new }
        ensures err { OnErr result (self.new ≡ self.old) }
        ensures implementation { IfOk result (A.inserts self.old.inner kind t self.new.inner) }
    {
        self.inner.insert_reallocating(kind, t)
    }

    fn insert(&mut self, kind: LinkInsertKind<P>, t: T) -> Result<P, ReallocationError>
        requires { MayInsertIn A.state A.interlinks ⟦<P as AnyPointer>⟧.pointers self.old.inner
            kind }
        ensures outcome { InsertsAllowedLink (λ w. A.state w.inner) (λ w. A.interlinks w.inner)
            ⟦<P as AnyPointer>⟧.pointers self.old kind t result self.new }
        ensures err { OnErr result (self.new ≡ self.old) }
        ensures implementation { IfOk result (A.inserts self.old.inner kind t self.new.inner) }
    {
        self.inner.insert(kind, t)
    }

    fn are_neighbors(&self, p: P, q: P) -> bool {
        self.inner.are_neighbors(p, q)
    }

    fn are_neighbors_inx(&self, i: P::Inx, j: P::Inx) -> bool {
        self.inner.are_neighbors_inx(i, j)
    }

    fn get_link(&self, p: P) -> Option<Link<P, &T>> {
        self.inner.get_link(p)
    }

    fn get_link_no_gen(&self, p: P) -> Option<&LinkNoGen<P, T>> {
        self.inner.get_link_no_gen(p)
    }

    fn get_inx_link_no_gen(&self, i: P::Inx) -> Option<(P::Gen, &LinkNoGen<P, T>)> {
        self.inner.get_inx_link_no_gen(i)
    }

    fn advancer_chain(&self, p: P) -> Option<ForwardingAdvancer<A::ChainPtrAdvancer>> {
        match self.inner.advancer_chain(p) {
            Some(inner) => Some(ForwardingAdvancer { inner }),
            None => None,
        }
    }

    fn connect(&mut self, p: P, q: P) -> Option<()> {
        self.inner.connect(p, q)
    }

    fn break_prev(&mut self, p: P) -> Option<()> {
        self.inner.break_prev(p)
    }

    fn break_next(&mut self, p: P) -> Option<()> {
        self.inner.break_next(p)
    }

    fn exchange_next(&mut self, p: P, q: P) -> Option<()> {
        self.inner.exchange_next(p, q)
    }

    fn reverse_chain(&mut self, p: P) -> Option<()> {
        self.inner.reverse_chain(p)
    }

    fn move_after(&mut self, p: P, q: P) -> Option<()> {
        self.inner.move_after(p, q)
    }

    fn splice_after(&mut self, p: P, first: P, last: P) -> Option<()> {
        self.inner.splice_after(p, first, last)
    }

    fn remove_link_no_gen(&mut self, p: P) -> InvalidationResult<LinkNoGen<P, T>> {
        self.inner.remove_link_no_gen(p)
    }

    fn remove_inx_link_no_gen(
        &mut self,
        i: P::Inx,
    ) -> InvalidationResult<(P::Gen, LinkNoGen<P, T>)> {
        self.inner.remove_inx_link_no_gen(i)
    }

    fn compress_canonical(&mut self, reset: bool) -> InvalidationOption<()> {
        self.inner.compress_canonical(reset)
    }
}
