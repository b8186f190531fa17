ghost use Rattle.std.specs.Prelude.{◌≡◌, ◌≤◌, [], length};
ghost use Rattle.arena_base.specs.CopyOutcomes.{CopiesSlots, CopiesArena};

use crate::arena::Arena;
use crate::copy_traits::{ArenaCloneFromWith, ValueMap};
use crate::slot::{ArenaSlot, inx_at};
use arena_core::{AllocError, InxKey, PtrKey, ReallocationError, SlotStack, proved_unreachable};
use arena_traits::{ArenaTrait, CloneArenaTrait};
use std::alloc::Global;

/// A `ValueMap` by a closure.
#[derive(Drop)]
pub struct ClosureMap<F> {
    pub map: F,
}

impl<P, U, T, F: FnMut(P, &U) -> T + Drop> ValueMap<P, U, T> for ClosureMap<F> {
    ghost use Rattle.arena_base.specs.Copies.{IsCopyCall};

    ghost is_ready = { λ m. F.IsAlwaysCallable m.map };

    ghost makes = { λ m p u t n. IsCopyCall F.FnMut m.map p u t n.map };

    ghost may_refuse = { λ _ _. ⊥ };

    fn map_value(&mut self, p: P, u: &U) -> Result<T, AllocError> {
        Ok((self.map)(p, u))
    }
}

fn copy_slots<
    P: PtrKey,
    T: Drop,
    U: Drop,
    S: SlotStack<Item = ArenaSlot<P, T>>,
    S1: SlotStack<Item = ArenaSlot<P, U>>,
    M: ValueMap<P, U, T>,
>(slots: &mut S, source: &S1, mut values: M) -> (Result<(), AllocError>, M)
    requires ready { M.is_ready values }
    requires empty { S.items slots.old ≡ [] }
    requires capacity { length (S1.items source.now) ≤ S.capacity slots.old }
    requires fits { length (S1.items source.now) ≤ P.Inx.greatest }
    ensures { CopiesSlots M.is_ready M.makes M.may_refuse S.items S.capacity S.maximum P.key values
        (S1.items source.now) slots.old result slots.new }
{
    for k in 0..source.len() {
        let slot = match source.get(k) {
            Some(slot) => slot,
            None => proved_unreachable!(),
        };
        match slot {
            ArenaSlot::Allocated(generation, u) => {
                match values.map_value(P::_from_raw(inx_at::<P>(k), *generation), u) {
                    Ok(t) => slots.push_within(ArenaSlot::Allocated(*generation, t)),
                    Err(e) => return (Err(e), values),
                }
            }
            ArenaSlot::Free(next) => slots.push_within(ArenaSlot::Free(*next)),
        }
    }
    (Ok(()), values)
}

impl<P: PtrKey, T: Drop, S: SlotStack<Item = ArenaSlot<P, T>>> Arena<P, T, S> {
    /// Becomes a copy of `source`, as by `ArenaCloneFromWith`.
    pub fn clone_from_by<U: Drop, S1: SlotStack<Item = ArenaSlot<P, U>>, M: ValueMap<P, U, T>>(
        &mut self,
        source: &Arena<P, U, S1>,
        values: M,
    ) -> (Result<(), ReallocationError>, M)
        requires { M.is_ready values }
        ensures { CopiesArena M.is_ready M.makes M.may_refuse P.key P.Inx.greatest values source.now
            S.may_reach self.old result self.new }
    {
        match self.reallocate_min_capacity(source.slots.len()) {
            Ok(()) => {
                self.slots.truncate(0);
                let (copied, values) = copy_slots(&mut self.slots, &source.slots, values);
                match copied {
                    Ok(()) => {
                        self.len = source.len;
                        self.first_free = source.first_free;
                        self.counter = source.counter;
                        (Ok(()), values)
                    }
                    Err(_) => {
                        self.slots.truncate(0);
                        self.len = 0;
                        self.first_free = P::Inx::pack(None);
                        (Err(ReallocationError::AllocError), values)
                    }
                }
            }
            Err(e) => (Err(e), values),
        }
    }
}

impl<P: PtrKey, T: Drop, S: SlotStack<Item = ArenaSlot<P, T>>> ArenaCloneFromWith<P, T>
    for Arena<P, T, S> {
    ghost use Rattle.arena_base.specs.Copies.{HasSlotsOf};
    ghost use Rattle.arena_traits.specs.Arena.{IsWithinReach};

    ghost copies = { λ _ source old new. HasSlotsOf source old new × IsWithinReach S.may_reach
        (length source.slots) old new };

    fn clone_from_by<U: Drop, S1: SlotStack<Item = ArenaSlot<P, U>>, M: ValueMap<P, U, T>>(
        &mut self,
        source: &Arena<P, U, S1>,
        values: M,
    ) -> (Result<(), ReallocationError>, M) {
        Arena::clone_from_by(self, source, values)
    }
}

#[derive(Drop)]
struct ValueClones;

impl<P: PtrKey, T: Clone> ValueMap<P, T, T> for ValueClones {
    ghost use Rattle.std.specs.Prelude.{⊤};

    ghost is_ready = { λ _. ⊤ };

    ghost makes = { λ _ _ u t _. T.is_clone u t };

    ghost may_refuse = { λ _ u. ¬ (T.is_infallible u) };

    fn map_value(&mut self, _p: P, u: &T) -> Result<T, AllocError> {
        let t = u.clone()?;
        Ok(t)
    }
}

impl<P: PtrKey, T: Clone, S: SlotStack<Item = ArenaSlot<P, T>>> CloneArenaTrait<P, T>
    for Arena<P, T, S> {
    ghost use Rattle.arena_traits.specs.Arena.{ReachesCapacity, new_arena};

    ghost initial_maximum = { S.initial_maximum };

    ghost clones = { λ a b. ReachesCapacity S.may_reach P.Inx.greatest (length a.slots)
        (new_arena P.Gen.first S.initial_maximum) b };

    fn try_clone(&self, alloc: Global) -> Result<Self, ReallocationError> {
        let mut copy: Arena<P, T, S> = Arena::new(alloc);
        let (done, _) = copy.clone_from_by(self, ValueClones);
        match done {
            Ok(()) => Ok(copy),
            Err(e) => Err(e),
        }
    }
}
