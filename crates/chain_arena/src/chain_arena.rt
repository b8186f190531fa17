ghost use Rattle.std.specs.Prelude.{◌≡◌, ◌≤◌, length, All, MatchOption, IfOk, OnErr};
ghost use Rattle.chain_laws.specs.Chains.{IsWellLinked};
ghost use Rattle.chain_laws.specs.Neighbors.{HasOneSetOfChains};
ghost use Rattle.chain_laws.specs.WalksBack.{IsWalkBack};
ghost use Rattle.arena_core.specs.Invalidation.{invalidation_option};
ghost use Rattle.arena_traits.specs.Arena.{entry_count, with_counter, with_maximum, HasCapacityFor, IsListed, IsValid};
ghost use Rattle.arena_traits.specs.Entries.{IsSoundView};
ghost use Rattle.chain_links.specs.ChainArena.{entry, value_view, link_map, IsWalkOf, IsWalkBackOf};
ghost use Rattle.chain_linking.specs.BackSteps.{back_walker_at, passes_back};
ghost use Rattle.chain_compaction.specs.Layouts.{ReportsAll, ReportsLayout, AreAllMoves};
ghost use Rattle.chain_compaction.specs.PointerMoves.{ArePointerMoves};
ghost use Rattle.chain_arena.specs.Effects.{AddsWork, IsBackedBy};
ghost use Rattle.chain_arena.specs.Steps.{RemoveInxStep, CompressCanonicalStep};

use crate::back_advancer::ChainBackAdvancer;
use crate::visitors::{MapVisitor, MoveLister};
use arena_base::{Arena, ArenaSlot, ArenaTrait, Work};
use arena_ptr::{
    AllocError, AnyPointer, HeapStack, InvalidationOption, InvalidationResult, LimitStack,
    MaxCapacityReductionError, PtrKey, SetMaxCapacity, SlotStack,
};
use chain_compaction::canonical::arrange;
use chain_compaction::visitor::Visitor;
use chain_linking::back_iterator::iter_back_from;
use chain_linking::chain_iterators::iter_from;
use chain_linking::link_writes::remove_link_at;
use chain_linking::{ChainBackIter, ChainIter};
use chain_links::LinkNoGen;
use std::alloc::Allocator;
use std::marker::Model;

/// A generational arena whose entries are linked into any number of doubly linked chains, linear or
/// cyclic.
///
/// Port of `triple_arena::ChainArena`.
#[derive(Drop)]
pub struct ChainArena<
    P: PtrKey,
    T: Drop,
    S: SlotStack<Item = ArenaSlot<P, LinkNoGen<P, T>>> = HeapStack<ArenaSlot<P, LinkNoGen<P, T>>>,
> {
    pub(crate) arena: Arena<P, LinkNoGen<P, T>, S>,
}

impl<P: PtrKey, T: Drop, S: SlotStack<Item = ArenaSlot<P, LinkNoGen<P, T>>>> Model
    for ChainArena<P, T, S> {
    ghost use Rattle.arena_traits.specs.Arena.{Arena as State};
    ghost use Rattle.chain_links.specs.ChainArena.{LinkView};
    ghost use Rattle.chain_links.specs.Links.{links_view, IsChainArena};

    ghost Value = { State P.Gen (LinkView T) };

    ghost view = { λ a. links_view P.Inx.packed_number a.arena };

    ghost invariant = { λ a. IsChainArena P.Inx.packed_number a.arena };
}

impl<P: PtrKey, T: Drop, S: SlotStack<Item = ArenaSlot<P, LinkNoGen<P, T>>>> ChainArena<P, T, S> {
    /// Returns an iterator over the chain of `p` in walk order, or `None` if `p` is not valid.
    ///
    /// Walk order goes from `p` to the end, then from the link before `p` back; a cyclic chain once
    /// around.
    ///
    /// Port of `ChainArenaTrait::iter_chain`.
    pub fn iter_chain(&self, p: P) -> Option<ChainIter<'_, P, T, S>>
        ensures { MatchOption result (IsValid (entry self.now) (P.key p) → ⊥)
            (λ links. IsValid (entry self.now) (P.key p) × IsWalkOf self.now (P.key p).0 links
            × (length links ≤ entry_count self.now)) }
    {
        match self.arena.get(p) {
            Some(link) => Some(iter_from(&self.arena, p.inx(), link.prev(), self.arena.len())),
            None => None,
        }
    }

    /// Returns an iterator over the chain of `p` backwards, or `None` if `p` is not valid.
    ///
    /// It goes from `p` to the start, then from the end back; a cyclic chain once around. The step
    /// at the start walks to the end.
    ///
    /// # Examples
    ///
    /// ```rust
    /// let mut arena: ChainArena<ToolPtr, u32> = ChainArena::new(alloc);
    /// let a = arena.insert_reallocating(LinkInsertKind::Disconnected, 1)?;
    /// let b = arena.insert_reallocating(LinkInsertKind::ChainEnd(a), 2)?;
    /// let c = arena.insert_reallocating(LinkInsertKind::ChainEnd(b), 3)?; // 1, 2, 3
    /// let mut digits = 0u32;
    /// if let Some(links) = arena.iter_chain_back(b) {
    ///     for (_, link) in links {
    ///         digits = digits.saturating_mul(10).saturating_add(link.t);
    ///     }
    /// }
    /// assert!(rt; digits == 213); // from b back to the start, then from the end
    /// ```
    pub fn iter_chain_back(&self, p: P) -> Option<ChainBackIter<'_, P, T, S>>
        ensures { MatchOption result (IsValid (entry self.now) (P.key p) → ⊥)
            (λ links. IsValid (entry self.now) (P.key p) × IsWalkBackOf self.now (P.key p).0 links
            × (length links ≤ entry_count self.now)) }
    {
        if self.arena.contains(p) {
            Some(iter_back_from(&self.arena, p.inx(), self.arena.len()))
        } else {
            None
        }
    }

    /// Returns an advancer in the order of `iter_chain_back`, or `None` if `p` is not valid.
    pub fn advancer_chain_back(&self, p: P) -> Option<ChainBackAdvancer<P>>
        ensures { MatchOption result (IsValid (entry self.now) (P.key p) → ⊥)
            (λ a. IsValid (entry self.now) (P.key p)
            × (a ≡ back_walker_at (entry_count self.now) (P.key p).0)) }
    {
        if self.arena.contains(p) {
            Some(ChainBackAdvancer::new(self.arena.len(), p.inx()))
        } else {
            None
        }
    }

    /// States that `advancer_chain_back` passes the walk back while the arena stays the same.
    pub fn advancer_passes_the_walk_back(&self, p: P)
        ensures { IsValid (entry self.now) (P.key p) → IsWalkBack (link_map self.now) (P.key p).0
            (passes_back self.now (back_walker_at (entry_count self.now) (P.key p).0)) }
    {
        self.invariants();
    }

    /// States what holds in every chain arena.
    pub fn invariants(&self)
        ensures agree { IsWellLinked (link_map self.now) }
        ensures one { HasOneSetOfChains (link_map self.now) }
        ensures sound { IsSoundView P.Inx.greatest (value_view self.now) }
        ensures listed { IsListed self.now }
        ensures capacity { HasCapacityFor P.Inx.greatest (length self.now.slots) self.now }
    {
        // Opens the type's invariant.
        let _ = &self.arena;
        self.len();
    }

    pub(crate) fn unlink(&mut self, i: P::Inx) -> InvalidationResult<(P::Gen, LinkNoGen<P, T>)>
        ensures { RemoveInxStep ⟦<P as AnyPointer>⟧.pointers self.old i result self.new }
    {
        remove_link_at(&mut self.arena, i)
    }

    /// Returns the next link's generation.
    ///
    /// Port of `ChainArena::generation`.
    pub fn generation(&self) -> P::Gen
        ensures { result ≡ self.now.counter }
    {
        self.arena.generation()
    }

    /// Sets the counter.
    ///
    /// Port of `ChainArena::set_generation`.
    pub fn set_generation(&mut self, generation: P::Gen)
        ensures { self.new ≡ with_counter self.old generation }
    {
        self.arena.set_generation(generation);
    }

    /// Increments the counter; `GenerationOverflow` if it wrapped to two.
    ///
    /// Port of `ChainArena::inc_generation`.
    pub fn inc_generation(&mut self) -> InvalidationOption<()>
        ensures overflow { result ≡ invalidation_option (P.Gen.wraps self.old.counter) tt }
        ensures after { self.new ≡ with_counter self.old (P.Gen.following self.old.counter) }
    {
        self.arena.inc_generation()
    }

    /// Compacts the chains as `compress_canonical` does, and reports each link once to a visitor,
    /// by ascending new index.
    pub fn compress_canonical_by<V: Visitor<P>>(
        &mut self,
        reset: bool,
        visitor: V,
    ) -> (InvalidationOption<()>, V, Work)
        requires { V.is_ready visitor }
        ensures compressed { CompressCanonicalStep ⟦<P as AnyPointer>⟧.pointers self.old reset
            result.0 self.new }
        ensures reports { ReportsAll V.sees P.key (value_view self.old)
            (link_map self.old) self.new.counter
            visitor result.1 }
        ensures ready { V.is_ready result.1 }
        ensures counted { AddsWork self.old result.2 self.new }
    {
        let overflow = self.arena.begin_generation(reset);
        let (visitor, work) = arrange(&mut self.arena, visitor);
        (overflow, visitor, work)
    }

    /// Calls `compress_canonical_by` with a closure.
    pub fn compress_canonical_with<F: FnMut(P, P) + Drop>(
        &mut self,
        reset: bool,
        map: F,
    ) -> InvalidationOption<()>
        requires { F.IsAlwaysCallable map }
        ensures compressed { CompressCanonicalStep ⟦<P as AnyPointer>⟧.pointers self.old reset
            result self.new }
        ensures reports { ReportsLayout F.FnMut P.key (value_view self.old)
            (link_map self.old) self.new.counter
            map }
    {
        let (overflow, _, _) = self.compress_canonical_by(reset, MapVisitor { map });
        overflow
    }

    /// Compacts the chains and returns the old and new pointers, by ascending new index.
    ///
    /// # Errors
    ///
    /// - `AllocError`: an allocation failed.
    pub fn compress_canonical_moves<A: Allocator>(
        &mut self,
        alloc: A,
        reset: bool,
    ) -> Result<(InvalidationOption<()>, Vec<(P, P), A>), AllocError>
        ensures compressed { IfOk result
            (λ r. CompressCanonicalStep ⟦<P as AnyPointer>⟧.pointers self.old reset r.0 self.new) }
        ensures moves { IfOk result (λ r. AreAllMoves P.key (value_view self.old)
            (link_map self.old) self.new.counter r.1.items) }
        ensures by_pointer { IfOk result (λ r. ArePointerMoves P.key (entry self.old)
            (entry self.new) r.1.items) }
        ensures err { OnErr result (self.new ≡ self.old) }
    {
        let moves = Vec::with_capacity(alloc, self.len())?;
        let (overflow, listing, _) = self.compress_canonical_by(reset, MoveLister { moves });
        Ok((overflow, listing.moves))
    }

    /// Compacts the chains and returns the work: at most four touches per old slot plus twelve per
    /// link.
    pub fn compress_canonical_counted(&mut self, reset: bool) -> (InvalidationOption<()>, Work)
        ensures compressed { CompressCanonicalStep ⟦<P as AnyPointer>⟧.pointers self.old reset
            result.0 self.new }
        ensures counted { AddsWork self.old result.1 self.new }
    {
        let (overflow, _, work) = self.compress_canonical_by(
            reset,
            MapVisitor {
                map: |_p: P, _q: P| {},
            },
        );
        (overflow, work)
    }

    /// Returns the stack of slots.
    ///
    /// Port of `ChainArena::backing`.
    pub fn backing(&self) -> &S
        ensures { IsBackedBy P.Inx.packed_number P.Inx.greatest (S.items result.now)
            (S.capacity result.now) (S.maximum result.now) self.now }
    {
        self.arena.backing()
    }
}

impl<P: PtrKey, T: Drop, S: LimitStack<Item = ArenaSlot<P, LinkNoGen<P, T>>>> SetMaxCapacity
    for ChainArena<P, T, S> {
    ghost stack_capacity = { λ a. a.stack_capacity };

    ghost limits = { λ a n b. b ≡ with_maximum a n };

    fn set_max_capacity(&mut self, n: usize) -> Result<(), MaxCapacityReductionError> {
        self.arena.set_max_capacity(n)
    }
}
