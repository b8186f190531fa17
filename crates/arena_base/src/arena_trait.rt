ghost use Rattle.std.specs.Prelude.{◌≡◌, length};
ghost use Rattle.arena_traits.specs.Arena.{counter_after_clear, overflows_after_clear, entry_count, HasCapacityFor, IsListed};
ghost use Rattle.arena_traits.specs.Compressions.{counter_after_compression, overflows_after_compression};
ghost use Rattle.arena_base.specs.ArenaCalls.{ReturnsCounter, BeginsGeneration};
ghost use Rattle.arena_traits.specs.Entries.{entries, view_of, count, IsSoundView};

use crate::advancer::PtrAdvancer;
use crate::arena::Arena;
use crate::slot::{ArenaSlot, number_of, position_of};
use arena_core::{
    AllocError, GenKey, InvalidationOption, InvalidationResult, InxKey, NotWithinCapacityError,
    PtrKey, ReallocationError, SlotStack, proved_unreachable,
};
use arena_traits::{ArenaTrait, CompactArenaTrait, Cursor, PlainArenaTrait};
use std::alloc::Global;

impl<P: PtrKey, T: Drop, S: SlotStack<Item = ArenaSlot<P, T>>> ArenaTrait<P, T> for Arena<P, T, S> {
    ghost use Rattle.std.specs.Prelude.{◌≡◌};
    ghost use Rattle.arena_traits.specs.Arena.{entry_at, with_capacity_of, IsWithinReach, IsNewWithCapacity, with_value, invalidate_at, remove_at, arena_after_clear};
    ghost use Rattle.arena_traits.specs.Entries.{view_of};
    ghost use Rattle.arena_traits.specs.EntryLaws.{entries_ascend, found-entries};

    type PtrAdvancer = PtrAdvancer<P>;

    ghost view = { view_of };

    ghost entry = { entry_at };

    ghost state = { λ a. record { ascends = entries_ascend a; finds = found-entries a } };

    ghost cursor = { λ a. a.cursor };

    ghost starts = { IsNewWithCapacity S.may_reach P.Gen.first S.initial_maximum };

    ghost grows = { λ n a b. (b ≡ with_capacity_of a b) × IsWithinReach S.may_reach n a b };

    ghost writes = { λ a i t b. b ≡ with_value a i t };

    ghost extra_on_invalidate = { λ a i b. b ≡ invalidate_at P.Gen.following a i };

    ghost removes = { λ a i b. b ≡ remove_at P.Gen.following a i };

    ghost clears = { λ a b. b ≡ arena_after_clear P.Gen.following a };

    ghost compresses = { λ a b. b.stack_capacity ≡ a.stack_capacity };

    ghost advances = { λ a b arena returned given. given };

    fn new(alloc: Global) -> Self {
        Arena::over(S::new(alloc))
    }

    fn with_min_capacity(alloc: Global, n: usize) -> Result<Self, AllocError> {
        if n > P::Inx::greatest() {
            return Err(AllocError);
        }
        let mut slots = S::new(alloc);
        match slots.reserve_to(n) {
            Ok(()) => Ok(Arena::over(slots)),
            Err(_) => Err(AllocError),
        }
    }

    fn capacity(&self) -> usize {
        self.slots.capacity().min(P::Inx::greatest())
    }

    fn max_capacity(&self) -> Option<usize> {
        self.slots.max_capacity()
    }

    fn len(&self) -> usize
        ensures count { result ≡ count (view_of self.now) }
        ensures sound { IsSoundView P.Inx.greatest (view_of self.now) }
        ensures entries { result ≡ entry_count self.now }

        ensures listed { IsListed self.now }
        ensures capacity { HasCapacityFor P.Inx.greatest (length self.now.slots) self.now }
    {
        self.len
    }

    fn is_empty(&self) -> bool {
        self.len == 0
    }

    fn reallocate_min_capacity(&mut self, n: usize) -> Result<(), ReallocationError> {
        if n <= self.slots.capacity().min(P::Inx::greatest()) {
            return Ok(());
        }
        self.grow_to(n)
    }

    fn singular_generation(&self) -> Option<P::Gen> {
        Some(self.counter)
    }

    fn contains(&self, p: P) -> bool {
        self.get(p).is_some()
    }

    fn get(&self, p: P) -> Option<&T> {
        let i = p.inx();
        // Comparing the number takes two instructions fewer.
        if number_of::<P>(i) > self.slots.len() {
            return None;
        }
        match self.slots.get(position_of::<P>(i)) {
            Some(ArenaSlot::Allocated(generation, t)) => {
                if generation.is_same(p.generation()) {
                    Some(t)
                } else {
                    None
                }
            }
            Some(ArenaSlot::Free(_)) => None,
            None => proved_unreachable!(),
        }
    }

    fn get_mut(&mut self, p: P) -> Option<&mut T> {
        if self.contains(p) {
            self.get_inx_mut(p.inx())
        } else {
            None
        }
    }

    fn get_inx(&self, i: P::Inx) -> Option<(P::Gen, &T)> {
        match self.slots.get(position_of::<P>(i)) {
            Some(ArenaSlot::Allocated(generation, t)) => Some((*generation, t)),
            Some(ArenaSlot::Free(_)) => None,
            None => None,
        }
    }

    fn get_inx_mut(&mut self, i: P::Inx) -> Option<&mut T> {
        match self.slots.get_mut(position_of::<P>(i)) {
            Some(slot) => slot.value_mut(),
            None => None,
        }
    }

    fn find_first_inx_ptr(&self) -> Option<P> {
        self.first_from(0)
    }

    fn find_last_inx_ptr(&self) -> Option<P> {
        self.last_to(self.slots.len())
    }

    fn advancer(&self) -> PtrAdvancer<P> {
        PtrAdvancer::at(Cursor::Up(1))
    }

    fn advancer_inx(&self, i: P::Inx, rev: bool) -> PtrAdvancer<P> {
        let n = number_of::<P>(i);
        PtrAdvancer::at(if rev { Cursor::Down(n) } else { Cursor::Up(n) })
    }

    fn invalidate(&mut self, p: P) -> InvalidationResult<P> {
        if !self.contains(p) {
            return InvalidationResult::InvalidPtr;
        }
        let (generation, overflow) = self.renew_at(p.inx());
        InvalidationResult::from_overflow(overflow, P::_from_raw(p.inx(), generation))
    }

    fn remove(&mut self, p: P) -> InvalidationResult<T> {
        if !self.contains(p) {
            return InvalidationResult::InvalidPtr;
        }
        match self.remove_inx(p.inx()) {
            InvalidationResult::Success((_, t)) => InvalidationResult::Success(t),
            InvalidationResult::GenerationOverflow((_, t)) => {
                InvalidationResult::GenerationOverflow(t)
            }
            InvalidationResult::InvalidPtr => InvalidationResult::InvalidPtr,
        }
    }

    fn remove_inx(&mut self, i: P::Inx) -> InvalidationResult<(P::Gen, T)> {
        self.take_at(i)
    }

    fn clear(&mut self) -> InvalidationOption<()> {
        let (generation, overflow) = after_clear(self.counter, self.len);
        self.counter = generation;
        self.slots.truncate(0);
        self.len = 0;
        self.first_free = P::Inx::pack(None);
        InvalidationOption::from_overflow(overflow, ())
    }

    fn compress_with<F: FnMut(P, &mut T, P) + Drop>(
        &mut self,
        reset: bool,
        map: F,
    ) -> InvalidationOption<()> {
        let overflow = self.begin_generation(reset);
        self.gather(map);
        overflow
    }
}

impl<P: PtrKey, T: Drop, S: SlotStack<Item = ArenaSlot<P, T>>> CompactArenaTrait<P, T>
    for Arena<P, T, S> {}

impl<P: PtrKey, T: Drop, S: SlotStack<Item = ArenaSlot<P, T>>> PlainArenaTrait<P, T>
    for Arena<P, T, S> {
    ghost use Rattle.std.specs.Prelude.{◌≡◌, ◌+◌};
    ghost use Rattle.arena_traits.specs.Arena.{entry_count, insert_next, with_capacity_of, IsWithinReach};
    ghost use Rattle.arena_base.specs.ArenaCalls.{IsExchanged};

    ghost inserts = { λ a t b. (b ≡ with_capacity_of (insert_next a t) b)
        × IsWithinReach S.may_reach (entry_count a + 1) a b };

    ghost swaps = { IsExchanged };

    fn insert_within_capacity(&mut self, t: T) -> Result<P, NotWithinCapacityError> {
        self.invariants();
        Arena::insert_within_capacity(self, t)
    }

    fn insert_reallocating(&mut self, t: T) -> Result<P, ReallocationError> {
        self.invariants();
        Arena::insert_reallocating(self, t)
    }

    fn swap(&mut self, p: P, q: P) -> Option<()> {
        if !self.contains(p) || !self.contains(q) {
            return None;
        }
        if number_of::<P>(p.inx()) != number_of::<P>(q.inx()) {
            self.exchange_at(p.inx(), q.inx());
        }
        Some(())
    }
}

fn after_clear<G: GenKey>(counter: G, count: usize) -> (G, bool)
    ensures { ReturnsCounter (counter_after_clear G.following count counter)
        (overflows_after_clear G.wraps count counter) result }
{
    if count == 0 {
        (counter, false)
    } else {
        counter.generational_inc()
    }
}

fn after_compression<G: GenKey>(counter: G, count: usize, reset: bool) -> (G, bool)
    ensures { ReturnsCounter (counter_after_compression G.first G.following reset count counter)
        (overflows_after_compression G.wraps reset count counter) result }
{
    if reset {
        (G::two(), false)
    } else {
        after_clear(counter, count)
    }
}

impl<P: PtrKey, T: Drop, S: SlotStack<Item = ArenaSlot<P, T>>> Arena<P, T, S> {
    /// Establishes facts of every arena, and has no effect.
    pub fn invariants(&self)
        ensures sound { IsSoundView P.Inx.greatest (view_of self.now) }

        ensures listed { IsListed self.now }

        ensures capacity { HasCapacityFor P.Inx.greatest (length self.now.slots) self.now }
    {
        self.len();
    }

    /// Increments the counter if there are entries, or restarts it with `reset`.
    pub fn begin_generation(&mut self, reset: bool) -> InvalidationOption<()>
        ensures { BeginsGeneration P.Gen.first P.Gen.following P.Gen.wraps reset self.old result
            self.new }
    {
        let (generation, overflow) = after_compression(self.generation(), self.len(), reset);
        self.set_generation(generation);
        InvalidationOption::from_overflow(overflow, ())
    }
}
