ghost use Rattle.std.specs.Prelude.{◌≡◌, ◌≤◌, map, length};
ghost use Rattle.arena_base.specs.Slots.{entry_of, KeepsBounds};
ghost use Rattle.arena_base.specs.DetachedSlots.{without_free_end};
ghost use Rattle.arena_base.specs.SlotCalls.{ListsFreeSlots};

use crate::slot::{ArenaSlot, PackedInx, is_free_at, list_at};
use arena_core::{InxKey, PtrKey, SlotStack};

pub(crate) fn trim<P: PtrKey, T: Drop, S: SlotStack<Item = ArenaSlot<P, T>>>(slots: &mut S)
    ensures items { map entry_of (S.items slots.new)
        ≡ without_free_end (map entry_of (S.items slots.old)) }
    ensures length { length (S.items slots.new) ≤ length (S.items slots.old) }
    ensures bounds { KeepsBounds S.capacity S.maximum slots.old slots.new }
{
    let mut count = slots.len();
    while count > 0 && is_free_at::<P, T, S>(slots, count - 1) {
        count -= 1;
    }
    slots.truncate(count);
}

pub(crate) fn relist<P: PtrKey, T: Drop, S: SlotStack<Item = ArenaSlot<P, T>>>(
    slots: &mut S,
) -> (usize, PackedInx<P::Inx>)
    requires { length (S.items slots.old) ≤ P.Inx.greatest }
    ensures { ListsFreeSlots S.items S.capacity S.maximum P.Inx.packed_number P.Inx.greatest
        slots.old result slots.new }
{
    let mut len = 0;
    let mut head = P::Inx::pack(None);
    for k in (0..slots.len()).rev() {
        if is_free_at::<P, T, S>(slots, k) {
            head = list_at::<P, T, S>(slots, k, head);
        } else {
            len += 1;
        }
    }
    (len, head)
}
