ghost use Rattle.std.specs.Prelude.{◌≡◌, ◌<◌, ◌≤◌, IfOk, Err};
ghost use Rattle.std.specs.Borrow.{RestsIfErr, sem};
ghost use Rattle.std.specs.Option.{option_map};
ghost use Rattle.arena_core.specs.Numbers.{IsWithin};
ghost use Rattle.chain_laws.specs.Insertions.{IsInsertPosition};
ghost use Rattle.arena_traits.specs.Arena.{entry_count, next_index};
ghost use Rattle.chain_links.specs.ChainArena.{link_map, value_view, value_state, insert_between, nonzero_index};
ghost use Rattle.arena_traits.specs.Entries.{HasFreeCapacity};
ghost use Rattle.arena_traits.specs.Growth.{IsFull, IsGrowthResult, RefusesOneMore};
ghost use Rattle.chain_links.specs.Insertions.{IsInsertionResult, IsInsertionWithinResult, MayInsertIn, IsInsertedBetween};
ghost use Rattle.chain_arena.specs.NewLinks.{IsEntryFor};

use crate::chain_arena::ChainArena;
use crate::insert::Beside;
use arena_base::{ArenaSlot, ArenaTrait, proved_unreachable};
use arena_ptr::{
    AnyPointer, ChainInsertionError, HeapStack, InxKey, PtrKey, ReallocationError, SlotStack,
};
use chain_links::{LinkInsertKind, LinkNoGen};

/// An insertion position of a link whose pointer is known before its value.
///
/// Dropping it inserts nothing, but a growth stays.
///
/// Port of `ChainArenaInsertEntry`.
pub struct ChainArenaInsertEntry<
    'a,
    P: PtrKey,
    T: Drop,
    S: SlotStack<Item = ArenaSlot<P, LinkNoGen<P, T>>> = HeapStack<ArenaSlot<P, LinkNoGen<P, T>>>,
> {
    arena: &'a mut ChainArena<P, T, S>,
    // Indexes, 0 for none.
    inx: usize,
    prev: usize,
    next: usize,
    ghost has_capacity: { entry_count arena.now < arena.now.capacity },
    ghost place: { inx ≡ next_index arena.now },
    ghost index: { IsWithin P.Inx.greatest inx },
    ghost indexes: { (prev ≤ P.Inx.greatest) × (next ≤ P.Inx.greatest) },
    ghost fits: { ∥ IsInsertPosition (link_map arena.now) (next_index arena.now)
        (nonzero_index prev)
        (nonzero_index next) ∥₁ },
}

pub(crate) fn number_or_zero<I: InxKey>(i: Option<I>) -> usize
    ensures index { nonzero_index result ≡ option_map I.number i }
    ensures within { result ≤ I.greatest }
{
    match i {
        Some(i) => match i.try_into_usize() {
            Some(n) => n,
            None => proved_unreachable!(),
        },
        None => 0,
    }
}

fn index_or_none<I: InxKey>(n: usize) -> Option<I>
    requires { n ≤ I.greatest }
    ensures { option_map I.number result ≡ nonzero_index n }
{
    I::try_from_usize(n)
}

impl<P: PtrKey, T: Drop, S: SlotStack<Item = ArenaSlot<P, LinkNoGen<P, T>>>> ChainArena<P, T, S> {
    ghost use Rattle.chain_arena.specs.contracts.chain_arena.ChainArena.{the_row as arena_row};

    /// Returns an entry for a link, within the capacity.
    ///
    /// # Errors
    ///
    /// - `FailedLinkRequirement`: the requirement of `kind` is not met.
    /// - `NotWithinCapacity`: the arena is full.
    ///
    /// On error, nothing changes.
    ///
    /// Port of `ChainArenaTrait::entry_insert_within_capacity`.
    pub fn entry_insert_within_capacity(
        &mut self,
        kind: LinkInsertKind<P>,
    ) -> Result<ChainArenaInsertEntry<'_, P, T, S>, ChainInsertionError>
        ensures* unchanged_at_err { sem 𝓛 (RestsIfErr
            (arena_row P.row T.row S.row P.Inx.row P.Gen.row P.Inx.Word.row
            P.PtrKey P.Inx.InxKey P.Gen.GenKey S.SlotStack)
            self.entry (λ e. e.arena.ghost_name) result (λ n. n ≡ self.old)) }
        ensures outcome { IsInsertionWithinResult
            (MayInsertIn value_state link_map ⟦<P as AnyPointer>⟧.pointers self.old kind)
            (HasFreeCapacity (value_view self.old)) (IsFull (value_view self.old))
            (λ e. (e.arena.now ≡ self.old) × IsEntryFor ⟦<P as AnyPointer>⟧.pointers S.may_reach
            self.old kind e.arena.now e.prev e.next) result }
        ensures same_reference { IfOk result (λ e. e.arena.ghost_name ≡ self.entry.ghost_name) }
    {
        match self.beside_within_capacity(kind) {
            Ok(beside) => Ok(self.entry_between(beside)),
            Err(why) => Err(why),
        }
    }

    /// Returns an entry for a link; a full arena grows first.
    ///
    /// # Errors
    ///
    /// - `FailedLinkRequirement`: the requirement of `kind` is not met.
    /// - `BeyondMaxCapacity`: growth exceeds the maximum.
    /// - `AllocError`: an allocation failed, or the greatest index is reached.
    ///
    /// Port of `ChainArenaTrait::entry_insert_reallocating`.
    pub fn entry_insert_reallocating(
        &mut self,
        kind: LinkInsertKind<P>,
    ) -> Result<ChainArenaInsertEntry<'_, P, T, S>, ChainInsertionError>
        ensures* unchanged_at_err { sem 𝓛 (RestsIfErr
            (arena_row P.row T.row S.row P.Inx.row P.Gen.row P.Inx.Word.row
            P.PtrKey P.Inx.InxKey P.Gen.GenKey S.SlotStack)
            self.entry (λ e. e.arena.ghost_name) result (λ n. n ≡ self.old)) }
        ensures outcome { IsInsertionResult
            (MayInsertIn value_state link_map ⟦<P as AnyPointer>⟧.pointers self.old kind)
            (RefusesOneMore (value_view self.old)) (λ e. IsEntryFor ⟦<P as AnyPointer>⟧.pointers
            S.may_reach self.old kind e.arena.now e.prev e.next) result }
        ensures same_reference { IfOk result (λ e. e.arena.ghost_name ≡ self.entry.ghost_name) }
    {
        match self.beside_with_growth(kind) {
            Ok(Some(beside)) => Ok(self.entry_between(beside)),
            Ok(None) => Err(ChainInsertionError::FailedLinkRequirement),
            Err(why) => Err(ChainInsertionError::from(why)),
        }
    }

    /// Returns an entry for a kind that may be inserted; a full arena grows first.
    ///
    /// # Errors
    ///
    /// - `BeyondMaxCapacity`: growth exceeds the maximum.
    /// - `AllocError`: an allocation failed, or the greatest index is reached.
    ///
    /// Port of `ChainArenaTrait::entry_insert`.
    pub fn entry_insert(
        &mut self,
        kind: LinkInsertKind<P>,
    ) -> Result<ChainArenaInsertEntry<'_, P, T, S>, ReallocationError>
        requires { MayInsertIn value_state link_map ⟦<P as AnyPointer>⟧.pointers self.old kind }
        ensures* unchanged_at_err { sem 𝓛 (RestsIfErr
            (arena_row P.row T.row S.row P.Inx.row P.Gen.row P.Inx.Word.row
            P.PtrKey P.Inx.InxKey P.Gen.GenKey S.SlotStack)
            self.entry (λ e. e.arena.ghost_name) result (λ n. n ≡ self.old)) }
        ensures outcome { IsGrowthResult (RefusesOneMore (value_view self.old))
            (λ e. IsEntryFor ⟦<P as AnyPointer>⟧.pointers S.may_reach self.old kind e.arena.now
            e.prev e.next) result }
        ensures same_reference { IfOk result (λ e. e.arena.ghost_name ≡ self.entry.ghost_name) }
    {
        match self.beside_with_growth(kind) {
            Ok(Some(beside)) => Ok(self.entry_between(beside)),
            Ok(None) => proved_unreachable!(),
            Err(why) => Err(why),
        }
    }

    fn entry_between(&mut self, beside: Beside<P::Inx>) -> ChainArenaInsertEntry<'_, P, T, S>
        requires capacity { entry_count self.old < self.old.capacity }
        requires position { IsInsertPosition (link_map self.old) (next_index self.old)
            (option_map P.Inx.number beside.0)
            (option_map P.Inx.number beside.1) }
        ensures same_reference { result.arena.ghost_name ≡ self.entry.ghost_name }
        ensures arena { result.arena.now ≡ self.old }
        ensures prev { nonzero_index result.prev ≡ option_map P.Inx.number beside.0 }
        ensures next { nonzero_index result.next ≡ option_map P.Inx.number beside.1 }
    {
        let i = self.arena.next_ptr().inx();
        ChainArenaInsertEntry {
            arena: self,
            inx: number_or_zero(Some(i)),
            prev: number_or_zero(beside.0),
            next: number_or_zero(beside.1),
        }
    }
}

impl<
    'a,
    P: PtrKey,
    T: Drop,
    S: SlotStack<Item = ArenaSlot<P, LinkNoGen<P, T>>>,
> ChainArenaInsertEntry<'a, P, T, S> {
    /// Returns the link's future pointer.
    pub fn ptr(&self) -> P
        ensures { P.key result ≡ (next_index self.now.arena.now, self.now.arena.now.counter) }
    {
        match P::Inx::try_from_usize(self.inx) {
            Some(i) => P::_from_raw(i, self.arena.generation()),
            None => proved_unreachable!(),
        }
    }

    /// Inserts the link without allocating.
    pub fn insert(self, t: T)
        ensures state { self.exit.0.now ≡ insert_between self.entry.arena.now t
            (nonzero_index self.entry.prev) (nonzero_index self.entry.next) }
        ensures inserted { IsInsertedBetween value_state link_map (nonzero_index self.entry.prev)
            (nonzero_index self.entry.next) self.entry.arena.now t
            (next_index self.entry.arena.now, self.entry.arena.now.counter) self.exit.0.now }
    {
        let (prev, next) = (self.prev, self.next);
        self.arena
            .insert_between((index_or_none(prev), index_or_none(next)), t);
        let Self {
            arena,
            inx,
            prev,
            next,
        } = self;
    }
}

impl<'a, P: PtrKey, T: Drop, S: SlotStack<Item = ArenaSlot<P, LinkNoGen<P, T>>>> Drop
    for ChainArenaInsertEntry<'a, P, T, S> {
    fn drop(self)
        ensures { self.exit.0.now ≡ self.entry.arena.now }
    {
        let Self {
            arena,
            inx,
            prev,
            next,
        } = self;
    }
}
