ghost use Rattle.std.specs.Prelude.{◌≡◌, length, OnSome, IfNone};
ghost use Rattle.arena_core.specs.Invalidation.{value_within, with_value_of};
ghost use Rattle.chain_laws.specs.Neighbors.{HasOneSetOfChains};
ghost use Rattle.arena_traits.specs.Arena.{entry_count, HasCapacityFor, IsListed};
ghost use Rattle.arena_traits.specs.CallOutcomes.{RemovesEntry, RemovesEntryAt};
ghost use Rattle.arena_traits.specs.Entries.{count, IsSoundView};
ghost use Rattle.chain_links.specs.ChainArena.{value_view, value_state, link_map};
ghost use Rattle.chain_arena.specs.Effects.{IsRemoval};

use crate::chain_arena::ChainArena;
use arena_base::{Advancer, Arena, ArenaSlot, ArenaTrait, CompactArenaTrait, PtrAdvancer};
use arena_ptr::{
    AllocError, AnyPointer, GenKey, InvalidationOption, InvalidationResult, InxKey, PtrKey,
    ReallocationError, SlotStack,
};
use chain_compaction::compress::gather;
use chain_links::link_access::value_of;
use chain_links::{LinkNoGen, RawLink, Vacant};
use std::alloc::Global;

impl<P: PtrKey, T: Drop, S: SlotStack<Item = ArenaSlot<P, LinkNoGen<P, T>>>> ArenaTrait<P, T>
    for ChainArena<P, T, S> {
    ghost use Rattle.std.specs.Prelude.{◌≡◌};
    ghost use Rattle.arena_traits.specs.Arena.{entry_at, with_capacity_of, IsWithinReach, IsNewWithCapacity, invalidate_at, arena_after_clear};
    ghost use Rattle.arena_traits.specs.Entries.{view_of};
    ghost use Rattle.chain_links.specs.ChainArena.{link_map, values_of, with_value_at};
    ghost use Rattle.chain_compaction.specs.LinkCompressions.{ClosesHoles};

    type PtrAdvancer = PtrAdvancer<P>;

    ghost view = { λ a. view_of (values_of a) };

    ghost entry = { λ a. entry_at (values_of a) };

    ghost state = { value_state };

    ghost cursor = { λ a. a.cursor };

    ghost starts = { IsNewWithCapacity S.may_reach P.Gen.first S.initial_maximum };

    ghost grows = { λ n a b. (b ≡ with_capacity_of a b) × (link_map b ≡ link_map a)
        × IsWithinReach S.may_reach n a b };

    ghost writes = { λ a i t b. (b ≡ with_value_at a i t) × (link_map b ≡ link_map a) };

    ghost extra_on_invalidate = { λ a i b. (b ≡ invalidate_at P.Gen.following a i)
        × (link_map b ≡ link_map a) };

    ghost removes = { λ a i b. IsRemoval P.Gen.following a i b };

    ghost clears = { λ a b. b ≡ arena_after_clear P.Gen.following a };

    ghost compresses = { ClosesHoles };

    ghost advances = { λ a b arena returned given. given };

    fn new(alloc: Global) -> Self {
        ChainArena {
            arena: Arena::new(alloc),
        }
    }

    fn with_min_capacity(alloc: Global, n: usize) -> Result<Self, AllocError> {
        match Arena::with_min_capacity(alloc, n) {
            Ok(arena) => Ok(ChainArena { arena }),
            Err(refusal) => Err(refusal),
        }
    }

    fn capacity(&self) -> usize {
        self.arena.capacity()
    }

    fn max_capacity(&self) -> Option<usize> {
        self.arena.max_capacity()
    }

    fn len(&self) -> usize
        ensures count { result ≡ count (value_view self.now) }
        ensures sound { IsSoundView P.Inx.greatest (value_view self.now) }
        ensures links { result ≡ entry_count self.now }
        ensures chains { HasOneSetOfChains (link_map self.now) }
        ensures listed { IsListed self.now }
        ensures capacity { HasCapacityFor P.Inx.greatest (length self.now.slots) self.now }
    {
        self.arena.len()
    }

    fn is_empty(&self) -> bool {
        self.arena.is_empty()
    }

    fn reallocate_min_capacity(&mut self, n: usize) -> Result<(), ReallocationError> {
        self.arena.reallocate_min_capacity(n)
    }

    fn singular_generation(&self) -> Option<P::Gen> {
        self.arena.singular_generation()
    }

    fn contains(&self, p: P) -> bool {
        self.arena.contains(p)
    }

    fn get(&self, p: P) -> Option<&T> {
        match self.arena.get(p) {
            Some(link) => Some(value_of(link)),
            None => None,
        }
    }

    fn get_mut(&mut self, p: P) -> Option<&mut T> {
        if self.contains(p) {
            self.get_inx_mut(p.inx())
        } else {
            None
        }
    }

    fn get_inx(&self, i: P::Inx) -> Option<(P::Gen, &T)> {
        match self.arena.get_inx(i) {
            Some((generation, link)) => Some((generation, value_of(link))),
            None => None,
        }
    }

    fn get_inx_mut(&mut self, i: P::Inx) -> Option<&mut T> {
        match self.arena.get_inx_mut(i) {
            Some(link) => Some(&mut link.t),
            None => None,
        }
    }

    fn find_first_inx_ptr(&self) -> Option<P> {
        self.arena.find_first_inx_ptr()
    }

    fn find_last_inx_ptr(&self) -> Option<P> {
        self.arena.find_last_inx_ptr()
    }

    fn advancer(&self) -> PtrAdvancer<P> {
        self.arena.advancer()
    }

    fn advancer_inx(&self, i: P::Inx, rev: bool) -> PtrAdvancer<P> {
        self.arena.advancer_inx(i, rev)
    }

    fn invalidate(&mut self, p: P) -> InvalidationResult<P> {
        self.arena.invalidate(p)
    }

    fn remove(&mut self, p: P) -> InvalidationResult<T>
        ensures outcome { RemovesEntry value_state ⟦<P as AnyPointer>⟧.pointers self.old p
            result self.new }
        ensures invalid { IfNone (value_within result) (self.new ≡ self.old) }
        ensures implementation { OnSome (value_within result)
            (IsRemoval P.Gen.following self.old (P.key p).0 self.new) }
    {
        if self.contains(p) {
            value_alone(self.unlink(p.inx()))
        } else {
            InvalidationResult::InvalidPtr
        }
    }

    fn remove_inx(&mut self, i: P::Inx) -> InvalidationResult<(P::Gen, T)>
        ensures outcome { RemovesEntryAt value_state ⟦<P as AnyPointer>⟧.pointers self.old i
            result self.new }
        ensures invalid { IfNone (value_within result) (self.new ≡ self.old) }
        ensures implementation { OnSome (value_within result)
            (IsRemoval P.Gen.following self.old (P.Inx.number i) self.new) }
    {
        value_with_generation(self.unlink(i))
    }

    fn clear(&mut self) -> InvalidationOption<()> {
        self.arena.clear()
    }

    fn compress_with<F: FnMut(P, &mut T, P) + Drop>(
        &mut self,
        reset: bool,
        map: F,
    ) -> InvalidationOption<()> {
        let overflow = self.arena.begin_generation(reset);
        gather(&mut self.arena, map);
        overflow
    }
}

impl<P: PtrKey, T: Drop, S: SlotStack<Item = ArenaSlot<P, LinkNoGen<P, T>>>> CompactArenaTrait<P, T>
    for ChainArena<P, T, S> {}

impl<P: PtrKey, T: Drop, S: SlotStack<Item = ArenaSlot<P, LinkNoGen<P, T>>>> Advancer<
    ChainArena<P, T, S>,
> for PtrAdvancer<P> {
    ghost use Rattle.std.specs.Prelude.{◌≡◌};
    ghost use Rattle.std.specs.Option.{option_map};
    ghost use Rattle.arena_traits.specs.Entries.{entries};
    ghost use Rattle.arena_traits.specs.Advancers.{IsAdvance};
    ghost use Rattle.arena_traits.specs.AdvancerLaws.{nowhere_stays};
    ghost use Rattle.arena_traits.specs.declared.cursor.Cursor.TheVariants.{Nowhere};
    ghost use Rattle.chain_links.specs.ChainArena.{values_of};

    type Item = P;

    ghost gives = { λ a arena returned b. IsAdvance (entries (values_of arena)) a.cursor
        (option_map P.key returned) b.cursor };

    ghost is_spent = { λ a. a.cursor ≡ Nowhere };

    ghost stays_spent = { λ a b arena returned spent given. nowhere_stays P.key
        (entries (values_of arena)) a.cursor returned b.cursor spent given };

    fn advance(&mut self, collection: &ChainArena<P, T, S>) -> Option<P> {
        self.advance(&collection.arena)
    }

    fn empty() -> Self {
        <PtrAdvancer<P> as Advancer<Arena<P, LinkNoGen<P, T>, S>>>::empty()
    }
}

pub(crate) fn value_alone<G: Drop, I: Vacant, T>(
    removed: InvalidationResult<(G, RawLink<I, T>)>,
) -> InvalidationResult<T>
    ensures { result ≡ with_value_of (λ e. e.1.t) removed }
{
    match removed {
        InvalidationResult::Success((_, link)) => InvalidationResult::Success(link.t),
        InvalidationResult::GenerationOverflow((_, link)) => {
            InvalidationResult::GenerationOverflow(link.t)
        }
        InvalidationResult::InvalidPtr => InvalidationResult::InvalidPtr,
    }
}

pub(crate) fn value_with_generation<G, I: Vacant, T>(
    removed: InvalidationResult<(G, RawLink<I, T>)>,
) -> InvalidationResult<(G, T)>
    ensures { result ≡ with_value_of (λ e. (e.0, e.1.t)) removed }
{
    match removed {
        InvalidationResult::Success((generation, link)) => {
            InvalidationResult::Success((generation, link.t))
        }
        InvalidationResult::GenerationOverflow((generation, link)) => {
            InvalidationResult::GenerationOverflow((generation, link.t))
        }
        InvalidationResult::InvalidPtr => InvalidationResult::InvalidPtr,
    }
}
