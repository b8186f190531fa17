ghost use Rattle.std.specs.Prelude.{◌≡◌, ◌+◌, ◌<◌, length, slice_get, is_none, IsSome};
ghost use Rattle.std.specs.Option.{option_map, option_copied_mut};
ghost use Rattle.std.specs.Borrow.{LendsIf, sem};
ghost use Rattle.arena_base.specs.Slots.{entry_of, entry_in, with_value_in, IsFree};
ghost use Rattle.arena_base.specs.SlotCalls.{VacatesSlot, WritesSlot, RegeneratesSlot, FillsSlot, VacatesSlotAt, ListsSlot};

use arena_core::{InxKey, PackedOption, PtrKey, SlotStack, proved_unreachable};
use std::mem;

pub(crate) type PackedInx<I> = PackedOption<I, <I as InxKey>::Word>;

/// An entry with its generation, or a free slot that names the one freed before.
#[derive(Drop)]
pub enum ArenaSlot<P: PtrKey, T> {
    Allocated(P::Gen, T),
    /// The next freed index.
    Free(PackedOption<P::Inx, <P::Inx as InxKey>::Word>),
}

impl<P: PtrKey, T> ArenaSlot<P, T> {
    ghost use Rattle.arena_base.specs.contracts.slot.ArenaSlot.{the_row};

    pub(crate) fn value_mut(&mut self) -> Option<&mut T>
        ensures* lends { sem 𝓛 (LendsIf (the_row P.row T.row P.Inx.row P.Gen.row P.Inx.Word.row)
            T.row self.entry result (with_value_in self.old) self.old) }
        ensures value { option_copied_mut result ≡ option_map (λ e. e.1) (entry_of self.old) }
    {
        match self {
            ArenaSlot::Allocated(_, t) => Some(t),
            ArenaSlot::Free(_) => None,
        }
    }

    fn vacate(&mut self, next: PackedInx<P::Inx>) -> Option<(P::Gen, T)>
        ensures { VacatesSlot next self.old result self.new }
    {
        match self {
            ArenaSlot::Free(_) => None,
            ArenaSlot::Allocated(_, _) => match mem::replace(self, ArenaSlot::Free(next)) {
                ArenaSlot::Allocated(generation, t) => Some((generation, t)),
                ArenaSlot::Free(_) => proved_unreachable!(),
            },
        }
    }
}

/// Returns the position of an index, from 0.
pub fn position_of<P: PtrKey>(i: P::Inx) -> usize
    ensures { result + 1 ≡ P.Inx.number i }
{
    number_of::<P>(i) - 1
}

/// Returns the number of an index.
pub fn number_of<P: PtrKey>(i: P::Inx) -> usize
    ensures { result ≡ P.Inx.number i }
{
    match i.try_into_usize() {
        Some(n) => n,
        None => proved_unreachable!(),
    }
}

/// Returns the index at position `k`, from 0.
pub fn inx_at<P: PtrKey>(k: usize) -> P::Inx
    requires { k < P.Inx.greatest }
    ensures { P.Inx.number result ≡ k + 1 }
{
    match P::Inx::try_from_usize(k + 1) {
        Some(i) => i,
        None => proved_unreachable!(),
    }
}

pub(crate) fn fill<P: PtrKey, T: Drop, S: SlotStack<Item = ArenaSlot<P, T>>>(
    slots: &mut S,
    k: usize,
    generation: P::Gen,
    t: T,
) -> PackedInx<P::Inx>
    requires { IsFree (slice_get (S.items slots.old) k) }
    ensures { FillsSlot S.items S.capacity S.maximum k generation t slots.old result slots.new }
{
    match slots.get_mut(k) {
        Some(slot) => {
            let next = match slot {
                ArenaSlot::Free(next) => *next,
                ArenaSlot::Allocated(_, _) => proved_unreachable!(),
            };
            *slot = ArenaSlot::Allocated(generation, t);
            next
        }
        None => proved_unreachable!(),
    }
}

pub(crate) fn vacate_at<P: PtrKey, T: Drop, S: SlotStack<Item = ArenaSlot<P, T>>>(
    slots: &mut S,
    k: usize,
    next: PackedInx<P::Inx>,
) -> Option<(P::Gen, T)>
    ensures { VacatesSlotAt S.items S.capacity S.maximum k next slots.old result slots.new }
{
    match slots.get_mut(k) {
        Some(slot) => slot.vacate(next),
        None => None,
    }
}

pub(crate) fn write_at<P: PtrKey, T: Drop, S: SlotStack<Item = ArenaSlot<P, T>>>(
    slots: &mut S,
    k: usize,
    slot: ArenaSlot<P, T>,
)
    requires { k < length (S.items slots.old) }
    ensures { WritesSlot S.items S.capacity S.maximum k slot slots.old slots.new }
{
    match slots.get_mut(k) {
        Some(at) => *at = slot,
        None => proved_unreachable!(),
    }
}

// Does not test for an entry.
pub(crate) fn regenerate_at<P: PtrKey, T: Drop, S: SlotStack<Item = ArenaSlot<P, T>>>(
    slots: &mut S,
    k: usize,
    generation: P::Gen,
)
    requires { IsSome (entry_in (slice_get (S.items slots.old) k)) }
    ensures { RegeneratesSlot S.items S.capacity S.maximum k generation slots.old slots.new }
{
    match slots.get_mut(k) {
        Some(slot) => match slot {
            ArenaSlot::Allocated(g, _) => *g = generation,
            ArenaSlot::Free(_) => proved_unreachable!(),
        },
        None => proved_unreachable!(),
    }
}

pub(crate) fn is_free_at<P: PtrKey, T: Drop, S: SlotStack<Item = ArenaSlot<P, T>>>(
    slots: &S,
    k: usize,
) -> bool
    ensures { result ≡ is_none (entry_in (slice_get (S.items slots.now) k)) }
{
    match slots.get(k) {
        Some(ArenaSlot::Allocated(_, _)) => false,
        Some(ArenaSlot::Free(_)) => true,
        None => true,
    }
}

pub(crate) fn list_at<P: PtrKey, T: Drop, S: SlotStack<Item = ArenaSlot<P, T>>>(
    slots: &mut S,
    k: usize,
    next: PackedInx<P::Inx>,
) -> PackedInx<P::Inx>
    requires in_bounds { k < length (S.items slots.old) }
    requires fits { k < P.Inx.greatest }
    ensures { ListsSlot S.items S.capacity S.maximum P.Inx.packed_number k next slots.old result
        slots.new }
{
    write_at(slots, k, ArenaSlot::Free(next));
    P::Inx::pack(Some(inx_at::<P>(k)))
}
