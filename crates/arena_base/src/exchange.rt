ghost use Rattle.std.specs.Prelude.{◌≢◌, slice_get, IsSome};
ghost use Rattle.arena_traits.specs.Arena.{entry_at};
ghost use Rattle.arena_base.specs.ArenaCalls.{IsExchanged};
ghost use Rattle.arena_base.specs.Slots.{entry_in};
ghost use Rattle.arena_base.specs.SlotCalls.{ReplacesValueAt, ExchangesValuesAt};

use crate::arena::Arena;
use crate::slot::{ArenaSlot, position_of, vacate_at, write_at};
use arena_core::{InxKey, PtrKey, SlotStack, proved_unreachable};
use std::mem;

fn replace_value_at<P: PtrKey, T: Drop, S: SlotStack<Item = ArenaSlot<P, T>>>(
    slots: &mut S,
    k: usize,
    t: T,
) -> T
    requires { IsSome (entry_in (slice_get (S.items slots.old) k)) }
    ensures { ReplacesValueAt S.items S.capacity S.maximum k t slots.old result slots.new }
{
    match slots.get_mut(k) {
        Some(slot) => match slot {
            ArenaSlot::Allocated(_, value) => mem::replace(value, t),
            ArenaSlot::Free(_) => proved_unreachable!(),
        },
        None => proved_unreachable!(),
    }
}

fn exchange_values_at<P: PtrKey, T: Drop, S: SlotStack<Item = ArenaSlot<P, T>>>(
    slots: &mut S,
    k: usize,
    m: usize,
)
    requires first { IsSome (entry_in (slice_get (S.items slots.old) k)) }
    requires second { IsSome (entry_in (slice_get (S.items slots.old) m)) }
    requires apart { k ≢ m }
    ensures { ExchangesValuesAt S.items S.capacity S.maximum k m slots.old slots.new }
{
    match vacate_at(slots, k, P::Inx::pack(None)) {
        Some(entry) => {
            let u = replace_value_at(slots, m, entry.1);
            write_at(slots, k, ArenaSlot::Allocated(entry.0, u));
        }
        None => proved_unreachable!(),
    }
}

impl<P: PtrKey, T: Drop, S: SlotStack<Item = ArenaSlot<P, T>>> Arena<P, T, S> {
    pub(crate) fn exchange_at(&mut self, i: P::Inx, j: P::Inx)
        requires first { IsSome (entry_at self.old (P.Inx.number i)) }
        requires second { IsSome (entry_at self.old (P.Inx.number j)) }
        requires apart { P.Inx.number i ≢ P.Inx.number j }
        ensures { IsExchanged self.old (P.Inx.number i) (P.Inx.number j) self.new }
    {
        exchange_values_at(&mut self.slots, position_of::<P>(i), position_of::<P>(j));
    }
}
