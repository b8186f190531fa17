ghost use Rattle.std.specs.Prelude.{◌≡◌, ◌≢◌, ◌≤◌, ⊤, None, OnSome, IsSome, length};
ghost use Rattle.std.specs.Option.{option_map, option_copied_mut};
ghost use Rattle.std.specs.Borrow.{LendsSo, follows_so, sem};
ghost use mathlib.Core.Option.{none};
ghost use Rattle.arena_traits.specs.Arena.{slot_at};
ghost use Rattle.arena_base.specs.DetachedSlots.{DetachedView, borrowed_parts, IsTouched, IsWrittenAt, arena_after_return, IsPacked};
ghost use Rattle.arena_base.specs.CompactorCalls.{TakesSlots, PlacesEntry, ReturnsSlots};

use crate::arena::Arena;
use crate::detached_slots::{DetachedSlots, LendsValue};
use crate::slot::ArenaSlot;
use arena_core::{HeapStack, PtrKey, SlotStack};

/// The numbers of placements and of other slot accesses, saturating at 2^128 - 1.
#[derive(Debug, Clone, Copy, PartialEq, Eq)]
pub struct Work {
    pub placed: u128,
    pub touched: u128,
}

/// The slots of an arena, taken out of it to move entries.
///
/// `finish`, `finish_packed` and dropping return them; until then the arena is empty. No call
/// allocates.
pub struct Compactor<
    'a,
    P: PtrKey,
    T: Drop,
    S: SlotStack<Item = ArenaSlot<P, T>> = HeapStack<ArenaSlot<P, T>>,
> {
    arena: &'a mut Arena<P, T, S>,
    detached: DetachedSlots<P, T, S>,
    placed: u128,
    touched: u128,
}

impl<P: PtrKey, T: Drop, S: SlotStack<Item = ArenaSlot<P, T>>> Arena<P, T, S> {
    /// Takes the slots out of the arena.
    pub fn compactor(&mut self) -> Compactor<'_, P, T, S>
        ensures { TakesSlots S.initial_maximum P.Inx.greatest self.entry result }
    {
        let detached = self.take_slots();
        Compactor {
            arena: self,
            detached,
            placed: 0,
            touched: 0,
        }
    }
}

impl<'a, P: PtrKey, T: Drop, S: SlotStack<Item = ArenaSlot<P, T>>> Compactor<'a, P, T, S> {
    pub fn slots(&self) -> usize
        ensures { result ≡ length self.now.detached.slots }
    {
        self.detached.len()
    }

    /// Swaps two slots, and sets the generation of the entry now at `to`.
    pub fn place(&mut self, from: P::Inx, to: P::Inx, generation: P::Gen)
        requires from { P.Inx.number from ≤ length self.old.detached.slots }
        requires to { P.Inx.number to ≤ length self.old.detached.slots }
        requires entry { IsSome (slot_at self.old.detached.slots (P.Inx.number from)) }
        ensures { PlacesEntry (P.Inx.number from) (P.Inx.number to) generation self.old self.new }
    {
        self.arena.count_placement();
        self.placed = self.placed.saturating_add(1);
        self.detached.place(from, to, generation);
    }

    /// Places an entry, as `place` does, in a free slot or its own.
    pub fn move_to_free_slot(&mut self, from: P::Inx, to: P::Inx, generation: P::Gen)
        requires to { P.Inx.number to ≤ length self.old.detached.slots }
        requires entry { IsSome (slot_at self.old.detached.slots (P.Inx.number from)) }
        requires free { P.Inx.number to ≢ P.Inx.number from
            → slot_at self.old.detached.slots (P.Inx.number to) ≡ None }
        ensures { PlacesEntry (P.Inx.number from) (P.Inx.number to) generation self.old self.new }
    {
        self.arena.count_placement();
        self.placed = self.placed.saturating_add(1);
        self.detached.move_to_free_slot(from, to, generation);
    }

    /// Returns the slots without free ones at the end, lists the others by ascending index, and
    /// reports the counts.
    pub fn finish(self) -> Work
        ensures { ReturnsSlots P.Inx.greatest self.entry result self.exit.0.now }
    {
        let Compactor {
            arena,
            detached,
            placed,
            touched,
        } = self;
        arena.return_slots(detached);
        Work { placed, touched }
    }

    /// Finishes without reading slots, of which exactly the first `count` are entries.
    pub fn finish_packed(self, count: usize) -> Work
        requires { IsPacked self.detached.slots count }
        ensures { ReturnsSlots P.Inx.greatest self.entry result self.exit.0.now }
    {
        let Compactor {
            arena,
            detached,
            placed,
            touched,
        } = self;
        arena.return_packed(detached, count);
        Work { placed, touched }
    }
}

impl<'a, P: PtrKey, T: Drop, S: SlotStack<Item = ArenaSlot<P, T>>> Drop for Compactor<'a, P, T, S> {
    fn drop(self)
        ensures { self.exit.0.now ≡ arena_after_return P.Inx.greatest self.entry.arena.now
            self.entry.detached }
    {
        self.finish();
    }
}

/// Access to the slots that a compactor holds.
pub trait SlotAccess<P: PtrKey, T: Drop> {
    ghost detached: { Self → DetachedView P.Gen T };

    ghost touches: { Self → Self → Type 0 };

    /// Returns the generation and the value at an index.
    fn peek(&mut self, i: P::Inx) -> Option<(&P::Gen, &T)>
        ensures* after { sem 𝓛 (follows_so Self.row Self.row self.entry.ghost_name none
            (λ _ _. ⊤) (IsTouched detached touches self.old)) }
        ensures value { option_map borrowed_parts result ≡ slot_at (detached self.old).slots
            (P.Inx.number i) };

    /// Returns the value at an index for writing.
    fn value_mut(&mut self, i: P::Inx) -> Option<&mut T>
        ensures* writes_back { sem 𝓛 (LendsSo Self.row T.row self.entry result
            (λ new t. OnSome result (IsWrittenAt detached touches self.old (P.Inx.number i) new t))
            (IsTouched detached touches self.old)) }
        ensures value { option_copied_mut result ≡ option_map (λ e. e.1)
            (slot_at (detached self.old).slots (P.Inx.number i)) };
}

impl<'a, P: PtrKey, T: Drop, S: SlotStack<Item = ArenaSlot<P, T>>> SlotAccess<P, T>
    for Compactor<'a, P, T, S> {
    ghost use Rattle.std.specs.Prelude.{◌≡◌};
    ghost use Rattle.arena_base.specs.DetachedSlots.{with_touch, saturating_increment};

    ghost detached = { λ c. c.detached };

    ghost touches = { λ a b. (b.arena.ghost_name ≡ a.arena.ghost_name)
        × (b.arena.now ≡ with_touch a.arena.now) × (b.placed ≡ a.placed)
        × (b.touched ≡ saturating_increment a.touched) };

    fn peek(&mut self, i: P::Inx) -> Option<(&P::Gen, &T)> {
        self.arena.count_touch();
        self.touched = self.touched.saturating_add(1);
        self.detached.lookup(i)
    }

    fn value_mut(&mut self, i: P::Inx) -> Option<&mut T> {
        self.arena.count_touch();
        self.touched = self.touched.saturating_add(1);
        self.detached.value_mut(i)
    }
}
