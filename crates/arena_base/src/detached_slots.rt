ghost use Rattle.std.specs.Prelude.{◌≡◌, ◌≢◌, ◌≤◌, ◌<◌, None, OnSome, IsSome, length};
ghost use Rattle.std.specs.Option.{option_map, option_copied_mut};
ghost use Rattle.std.specs.Borrow.{LendsSo, sem};
ghost use Rattle.arena_traits.specs.Arena.{slot_at};
ghost use Rattle.arena_base.specs.DetachedSlots.{DetachedView, borrowed_parts, with_placed_entry, detached_with_value};

use crate::slot::{ArenaSlot, position_of, regenerate_at, vacate_at, write_at};
use arena_core::{InxKey, PtrKey, SlotStack, proved_unreachable};
use std::marker::Model;

#[derive(Drop)]
pub(crate) struct DetachedSlots<P: PtrKey, T: Drop, S: SlotStack<Item = ArenaSlot<P, T>>> {
    pub(crate) slots: S,
}

impl<P: PtrKey, T: Drop, S: SlotStack<Item = ArenaSlot<P, T>>> Model for DetachedSlots<P, T, S> {
    ghost use Rattle.std.specs.Prelude.{◌≤◌, length};
    ghost use Rattle.arena_base.specs.DetachedSlots.{DetachedView};

    ghost Value = { DetachedView P.Gen T };

    ghost use Rattle.arena_base.specs.Slots.{detached_view};

    ghost view = { λ h. detached_view (S.items h.slots) (S.capacity h.slots) (S.maximum h.slots) };

    ghost invariant = { λ h. length (S.items h.slots) ≤ P.Inx.greatest };
}

impl<P: PtrKey, T: Drop, S: SlotStack<Item = ArenaSlot<P, T>>> DetachedSlots<P, T, S> {
    pub(crate) fn len(&self) -> usize
        ensures { result ≡ length self.now.slots }
    {
        self.slots.len()
    }

    pub(crate) fn lookup(&self, i: P::Inx) -> Option<(&P::Gen, &T)>
        ensures { option_map borrowed_parts result ≡ slot_at self.now.slots (P.Inx.number i) }
    {
        match self.slots.get(position_of::<P>(i)) {
            Some(ArenaSlot::Allocated(generation, t)) => Some((generation, t)),
            Some(ArenaSlot::Free(_)) => None,
            None => None,
        }
    }

    pub(crate) fn place(&mut self, from: P::Inx, to: P::Inx, generation: P::Gen)
        requires from { P.Inx.number from ≤ length self.old.slots }
        requires to { P.Inx.number to ≤ length self.old.slots }
        requires entry { IsSome (slot_at self.old.slots (P.Inx.number from)) }
        ensures { self.new ≡ with_placed_entry self.old (P.Inx.number from)
            (P.Inx.number to) generation }
    {
        let from = position_of::<P>(from);
        regenerate_at(&mut self.slots, from, generation);
        self.slots.swap(from, position_of::<P>(to));
    }

    pub(crate) fn move_to_free_slot(&mut self, from: P::Inx, to: P::Inx, generation: P::Gen)
        requires to { P.Inx.number to ≤ length self.old.slots }
        requires entry { IsSome (slot_at self.old.slots (P.Inx.number from)) }
        requires free { P.Inx.number to ≢ P.Inx.number from
            → slot_at self.old.slots (P.Inx.number to) ≡ None }
        ensures { self.new ≡ with_placed_entry self.old (P.Inx.number from)
            (P.Inx.number to) generation }
    {
        match vacate_at(&mut self.slots, position_of::<P>(from), P::Inx::pack(None)) {
            Some((_, t)) => write_at(
                &mut self.slots,
                position_of::<P>(to),
                ArenaSlot::Allocated(generation, t),
            ),
            None => proved_unreachable!(),
        }
    }
}

pub(crate) trait LendsValue<P: PtrKey, T: Drop> {
    ghost lent: { Self → DetachedView P.Gen T };

    fn value_mut(&mut self, i: P::Inx) -> Option<&mut T>
        ensures* writes_back { sem 𝓛 (LendsSo Self.row T.row self.entry result
            (λ new t. OnSome result
            (lent new ≡ detached_with_value (lent self.old) (P.Inx.number i) t))
            (λ new. lent new ≡ lent self.old)) }
        ensures value { option_copied_mut result ≡ option_map (λ e. e.1)
            (slot_at (lent self.old).slots (P.Inx.number i)) };
}

impl<P: PtrKey, T: Drop, S: SlotStack<Item = ArenaSlot<P, T>>> LendsValue<P, T>
    for DetachedSlots<P, T, S> {
    ghost lent = { λ h. h };

    fn value_mut(&mut self, i: P::Inx) -> Option<&mut T> {
        match self.slots.get_mut(position_of::<P>(i)) {
            Some(slot) => slot.value_mut(),
            None => None,
        }
    }
}
