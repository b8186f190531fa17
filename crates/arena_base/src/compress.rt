ghost use Rattle.std.specs.Prelude.{◌≡◌, ◌≢◌, ◌≤◌, length, None};
ghost use Rattle.arena_traits.specs.Arena.{slot_at};
ghost use Rattle.arena_base.specs.CompactorCalls.{MovesEntry, CompactsEntries};
ghost use Rattle.arena_base.specs.GatheredSlots.{IsGathered};

use crate::arena::Arena;
use crate::compactor::{Compactor, SlotAccess};
use crate::slot::{ArenaSlot, inx_at};
use arena_core::{PtrKey, SlotStack, proved_unreachable};

fn move_entry<P: PtrKey, T: Drop, S: SlotStack<Item = ArenaSlot<P, T>>>(
    compactor: &mut Compactor<'_, P, T, S>,
    from: P::Inx,
    to: P::Inx,
    generation: P::Gen,
) -> Option<P::Gen>
    requires to { P.Inx.number to ≤ length compactor.old.detached.slots }
    requires free { P.Inx.number to ≢ P.Inx.number from
        → slot_at compactor.old.detached.slots (P.Inx.number to) ≡ None }
    ensures { MovesEntry (P.Inx.number from) (P.Inx.number to) generation compactor.old result
        compactor.new }
{
    let was = *compactor.peek(from)?.0;
    compactor.move_to_free_slot(from, to, generation);
    Some(was)
}

fn compact_entries<
    P: PtrKey,
    T: Drop,
    S: SlotStack<Item = ArenaSlot<P, T>>,
    F: FnMut(P, &mut T, P) + Drop,
>(compactor: &mut Compactor<'_, P, T, S>, generation: P::Gen, mut map: F) -> usize
    requires callable { F.IsAlwaysCallable map }
    requires fits { length compactor.old.detached.slots ≤ P.Inx.greatest }
    ensures { CompactsEntries F.FnMut P.key generation map compactor.old result compactor.new }
{
    let mut count = 0;
    for k in 0..compactor.slots() {
        let from = inx_at::<P>(k);
        let to = inx_at::<P>(count);
        if let Some(was) = move_entry(compactor, from, to, generation) {
            count += 1;
            match compactor.value_mut(to) {
                Some(t) => map(P::_from_raw(from, was), t, P::_from_raw(to, generation)),
                None => proved_unreachable!(),
            }
        }
    }
    count
}

impl<P: PtrKey, T: Drop, S: SlotStack<Item = ArenaSlot<P, T>>> Arena<P, T, S> {
    pub(crate) fn gather<F: FnMut(P, &mut T, P) + Drop>(&mut self, map: F)
        requires { F.IsAlwaysCallable map }
        ensures { IsGathered F.FnMut P.key map self.old self.new }
    {
        let generation = self.counter;
        let mut compactor = self.compactor();
        let count = compact_entries(&mut compactor, generation, map);
        compactor.finish_packed(count);
    }
}
