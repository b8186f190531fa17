ghost use Rattle.std.specs.Prelude.{◌≡◌, [], length, IsOk, IfOk};
ghost use Rattle.chain_laws.specs.Chains.{IsWellLinked};
ghost use Rattle.arena_traits.specs.Arena.{HasCapacityFor, IsCapacityFor, IsWithinReach};
ghost use Rattle.arena_base.specs.Copies.{IsCopyBy, IsCopyCall, IsAbandonedCopy, IsAbandonedView};
ghost use Rattle.chain_links.specs.ChainArena.{link_map};
ghost use Rattle.chain_links.specs.Links.{link_view};
ghost use Rattle.chain_arena.specs.LinkCopies.{MakesOf, HasRefusableLink, IsLinkCopy, IsLinkCopyBy, IsCopyBelow, GrowsIfShort, CopiesOrRefuses, CopiesOrLacksCapacity, ClonesOrRefuses};

use crate::chain_arena::ChainArena;
use arena_base::{Arena, ArenaCloneFromWith, ArenaSlot, ArenaTrait, ClosureMap, ValueMap};
use arena_ptr::{AllocError, InxKey, PackedOption, PtrKey, ReallocationError, SlotStack};
use chain_links::{LinkNoGen, RawLink};
use std::alloc::Global;

#[derive(Drop)]
struct LinkMapper<M> {
    values: M,
}

impl<
    P,
    W: Copy,
    I: InxKey<Word = W>,
    U,
    T,
    M: ValueMap<P, RawLink<PackedOption<I, W>, U>, T>,
> ValueMap<P, RawLink<PackedOption<I, W>, U>, RawLink<PackedOption<I, W>, T>> for LinkMapper<M> {
    ghost use Rattle.chain_links.specs.Links.{link_view};
    ghost use Rattle.chain_arena.specs.LinkCopies.{MakesLink, MakesOf};

    ghost is_ready = { λ m. M.is_ready m.values };

    ghost makes = { λ m p u t n. MakesLink I.packed_number
        (MakesOf (link_view I.packed_number) M.makes) m.values p u t n.values };

    ghost may_refuse = { λ p u. M.may_refuse p u };

    fn map_value(
        &mut self,
        p: P,
        u: &RawLink<PackedOption<I, W>, U>,
    ) -> Result<RawLink<PackedOption<I, W>, T>, AllocError> {
        match self.values.map_value(p, u) {
            Ok(t) => Ok(RawLink::new(u.prev_next(), t)),
            Err(why) => Err(why),
        }
    }
}

impl<P: PtrKey, T: Drop, S: SlotStack<Item = ArenaSlot<P, LinkNoGen<P, T>>>> ChainArena<P, T, S> {
    /// Makes this arena a copy of `source`, with values from the map.
    ///
    /// The map sees the links in ascending index order. The arena grows only if it lacks capacity.
    ///
    /// # Errors
    ///
    /// - `BeyondMaxCapacity`: `source` has more slots than the maximum.
    /// - `AllocError`: an allocation failed.
    ///
    /// On error nothing changes, unless a value's allocation failed, which leaves the arena without
    /// slots.
    pub fn clone_from_by<
        U: Drop,
        S1: SlotStack<Item = ArenaSlot<P, LinkNoGen<P, U>>>,
        M: ValueMap<P, LinkNoGen<P, U>, T>,
    >(&mut self, source: &ChainArena<P, U, S1>, values: M) -> (Result<(), ReallocationError>, M)
        requires { M.is_ready values }
        ensures copied { CopiesOrRefuses (length source.now.slots) self.old.capacity
            self.old.maximum
            (HasRefusableLink P.Inx.packed_number M.may_refuse P.key source.now)
            (HasCapacityFor P.Inx.greatest (length source.now.slots) self.new
            × IsLinkCopyBy (MakesOf (link_view P.Inx.packed_number) M.makes) P.key values source.now
            self.old self.new result.1 × M.is_ready result.1)
            ((self.new ≡ self.old) × (result.1 ≡ values))
            (IsAbandonedCopy self.old self.new) result.0 }
        ensures capacity { GrowsIfShort (length source.now.slots) self.old.capacity
            self.new.capacity }
        ensures reached { IsWithinReach S.may_reach (length source.now.slots) self.old self.new }
    {
        let (done, links) = self
            .arena
            .clone_from_by(&source.arena, LinkMapper { values });
        (done, links.values)
    }

    /// Calls `clone_from_by` with values from a closure.
    ///
    /// # Errors
    ///
    /// - `BeyondMaxCapacity`: `source` has more slots than the maximum.
    /// - `AllocError`: an allocation failed.
    ///
    /// Port of `ChainArena::clone_from_with`.
    pub fn clone_from_with<
        U: Drop,
        S1: SlotStack<Item = ArenaSlot<P, LinkNoGen<P, U>>>,
        F: FnMut(P, &LinkNoGen<P, U>) -> T + Drop,
    >(&mut self, source: &ChainArena<P, U, S1>, map: F) -> Result<(), ReallocationError>
        requires { F.IsAlwaysCallable map }
        ensures copied { CopiesOrLacksCapacity (length source.now.slots) self.old.capacity
            self.old.maximum
            (HasCapacityFor P.Inx.greatest (length source.now.slots) self.new
            × IsLinkCopy F.FnMut P.Inx.packed_number P.key map source.now self.old self.new)
            (self.new ≡ self.old) result }
        ensures capacity { GrowsIfShort (length source.now.slots) self.old.capacity
            self.new.capacity }
        ensures reached { IsWithinReach S.may_reach (length source.now.slots) self.old self.new }
    {
        let (done, _) = self.clone_from_by(source, ClosureMap { map });
        done
    }

    /// Makes any arena a copy of this one, as `clone_from_by` does.
    ///
    /// # Errors
    ///
    /// - `BeyondMaxCapacity`: the slots exceed the maximum of `arena`.
    /// - `AllocError`: an allocation failed.
    pub fn clone_to_arena_by<
        U: Drop,
        A: ArenaCloneFromWith<P, U>,
        M: ValueMap<P, LinkNoGen<P, T>, U>,
    >(&self, arena: &mut A, values: M) -> (Result<(), ReallocationError>, M)
        requires { M.is_ready values }
        ensures copied { CopiesOrRefuses (length self.now.slots) (A.view arena.old).capacity
            (A.view arena.old).maximum
            (HasRefusableLink P.Inx.packed_number M.may_refuse P.key self.now)
            (IsCapacityFor P.Inx.greatest (A.view arena.new).maximum (length self.now.slots)
            (A.view arena.new).capacity
            × IsCopyBy (MakesOf (link_view P.Inx.packed_number) M.makes) P.key values self.now
            (A.view arena.old) (A.view arena.new) result.1 × M.is_ready result.1
            × IsCopyBelow P.Inx.packed_number (A.copies _) self.now arena.old arena.new)
            ((arena.new ≡ arena.old) × (result.1 ≡ values))
            (IsAbandonedView (A.view arena.old) (A.view arena.new)) result.0 }
        ensures capacity { GrowsIfShort (length self.now.slots) (A.view arena.old).capacity
            (A.view arena.new).capacity }
    {
        arena.clone_from_by(&self.arena, values)
    }

    /// Calls `clone_to_arena_by` with values from a closure.
    ///
    /// # Errors
    ///
    /// - `BeyondMaxCapacity`: the slots exceed the maximum of `arena`.
    /// - `AllocError`: an allocation failed.
    ///
    /// Port of `ChainArena::clone_to_arena`.
    pub fn clone_to_arena<
        U: Drop,
        A: ArenaCloneFromWith<P, U>,
        F: FnMut(P, &LinkNoGen<P, T>) -> U + Drop,
    >(&self, arena: &mut A, map: F) -> Result<(), ReallocationError>
        requires { F.IsAlwaysCallable map }
        ensures copied { CopiesOrLacksCapacity (length self.now.slots) (A.view arena.old).capacity
            (A.view arena.old).maximum
            (IsCapacityFor P.Inx.greatest (A.view arena.new).maximum (length self.now.slots)
            (A.view arena.new).capacity
            × ((last : F) × IsCopyBy (MakesOf (link_view P.Inx.packed_number) (IsCopyCall F.FnMut))
            P.key map self.now (A.view arena.old) (A.view arena.new) last)
            × IsCopyBelow P.Inx.packed_number (A.copies _) self.now arena.old arena.new)
            (arena.new ≡ arena.old) result }
        ensures capacity { GrowsIfShort (length self.now.slots) (A.view arena.old).capacity
            (A.view arena.new).capacity }
    {
        let (done, _) = self.clone_to_arena_by(arena, ClosureMap { map });
        done
    }
}

#[derive(Drop)]
struct LinkClones;

impl<P: PtrKey, T: Clone> ValueMap<P, LinkNoGen<P, T>, LinkNoGen<P, T>> for LinkClones {
    ghost use Rattle.std.specs.Prelude.{⊤};
    ghost use Rattle.chain_arena.specs.LinkCopies.{MakesLink};

    ghost is_ready = { λ _. ⊤ };

    ghost makes = { MakesLink P.Inx.packed_number (λ _ _ u t _. T.is_clone u.value t) };

    ghost may_refuse = { λ _ u. ¬ (T.is_infallible u.t) };

    fn map_value(&mut self, _p: P, u: &LinkNoGen<P, T>) -> Result<LinkNoGen<P, T>, AllocError> {
        let t = u.t.clone()?;
        Ok(RawLink::new(u.prev_next(), t))
    }
}

impl<P: PtrKey, T: Clone, S: SlotStack<Item = ArenaSlot<P, LinkNoGen<P, T>>>> ChainArena<P, T, S> {
    /// Returns a copy with cloned values.
    ///
    /// # Errors
    ///
    /// - `BeyondMaxCapacity`: the slots exceed the stack's maximum.
    /// - `AllocError`: an allocation failed.
    ///
    /// Port of `ChainArena::clone`.
    pub fn clone(&self, alloc: Global) -> Result<Self, ReallocationError>
        requires clones_equal { (x y : T) → T.is_clone x y → y ≡ x }
        ensures cloned { ClonesOrRefuses S.may_reach P.Inx.greatest P.Gen.first S.initial_maximum
            self.now result }
        ensures no_capacity { self.now.slots ≡ [] → IfOk result (λ copy. copy.stack_capacity ≡ 0)
            × IsOk result }
    {
        let mut arena: Arena<P, LinkNoGen<P, T>, S> = Arena::new(alloc);
        let (done, _) = arena.clone_from_by(&self.arena, LinkClones);
        match done {
            Ok(()) => Ok(ChainArena { arena }),
            Err(why) => Err(why),
        }
    }
}
