ghost use Rattle.std.specs.Prelude.{◌≡◌, [], min, ◌<◌, ◌+◌, ◌↔◌, IsSome, OnErr, Some, None, drop, take};
ghost use Rattle.std.specs.Option.{option_map};
ghost use Rattle.arena_core.specs.SlotStack.{IsBeyond};
ghost use Rattle.arena_base.specs.ArenaCalls.{IncrementsCounter, IsBacking, ReportsFull, ReturnsPairAt, ReturnsNext, ReturnsPointer, RenewsEntry, DetachesSlots};
ghost use Rattle.arena_base.specs.Growths.{GrowsArenaFor, GrowsArenaForOneMore, InsertsGrowing, InsertsIfFree};
ghost use Rattle.arena_base.specs.Removals.{TakesEntryAt};
ghost use Rattle.arena_traits.specs.Entries.{entries, entries_from, first_key, last_key};
ghost use Rattle.arena_traits.specs.Advancers.{ahead};
ghost use Rattle.arena_base.specs.DetachedSlots.{arena_after_return, IsPacked, with_placement, with_touch};
ghost use Rattle.arena_traits.specs.Arena.{entry_at, entry_count, next_index, insert_next, with_counter, with_maximum, new_arena};

use crate::detached_slots::DetachedSlots;
use crate::free_list::{relist, trim};
use crate::slot::{ArenaSlot, PackedInx, fill, inx_at, position_of, regenerate_at, vacate_at};
use crate::tally::Tally;
use arena_core::{
    GenKey, HeapStack, InvalidationOption, InvalidationResult, InxKey, LimitStack,
    MaxCapacityReductionError, NotWithinCapacityError, PtrKey, ReallocationError, SetMaxCapacity,
    SlotStack,
};
use arena_traits::Cursor;
use std::marker::Model;
use std::mem;

/// A generational arena, with entries at indexes from 1 in a stack of slots.
///
/// An insertion reuses the index freed last, or else adds a slot. A removal increments the counter.
/// Except for growth, insertion, lookup and removal take constant time (no clause states it).
///
/// Port of `Arena`.
#[derive(Drop)]
pub struct Arena<
    P: PtrKey,
    T: Drop,
    S: SlotStack<Item = ArenaSlot<P, T>> = HeapStack<ArenaSlot<P, T>>,
> {
    pub(crate) slots: S,
    pub(crate) len: usize,
    pub(crate) first_free: PackedInx<P::Inx>,
    pub(crate) counter: P::Gen,
    pub(crate) placed: Tally,
    pub(crate) touched: Tally,
}

impl<P: PtrKey, T: Drop, S: SlotStack<Item = ArenaSlot<P, T>>> Model for Arena<P, T, S> {
    ghost use Rattle.arena_traits.specs.Arena.{Arena as State};

    ghost Value = { State P.Gen T };

    ghost use Rattle.arena_base.specs.Slots.{arena_of, freed_of, IsSound};

    ghost view = { λ a. arena_of (S.items a.slots)
        (freed_of P.Inx.packed_number (S.items a.slots) a.first_free) a.counter
        P.Inx.greatest (S.capacity a.slots) (S.maximum a.slots) a.placed.count a.touched.count };

    ghost invariant = { λ a. IsSound P.Inx.packed_number (S.items a.slots) P.Inx.greatest
        a.len a.first_free (freed_of P.Inx.packed_number (S.items a.slots) a.first_free) };
}

impl<P: PtrKey, T: Drop, S: SlotStack<Item = ArenaSlot<P, T>>> Arena<P, T, S> {
    pub(crate) fn over(slots: S) -> Self
        requires { S.items slots ≡ [] }
        ensures { result ≡ record (new_arena P.Gen.first (S.maximum slots)) {
          capacity = min
              (S.capacity slots) P.Inx.greatest;
          stack_capacity = S.capacity slots;
        } }
    {
        Arena {
            slots,
            len: 0,
            first_free: P::Inx::pack(None),
            counter: P::Gen::two(),
            placed: Tally::zero(),
            touched: Tally::zero(),
        }
    }

    /// Returns the generation of the next entry.
    pub fn generation(&self) -> P::Gen
        ensures { result ≡ self.now.counter }
    {
        self.counter
    }

    pub fn set_generation(&mut self, counter: P::Gen)
        ensures { self.new ≡ with_counter self.old counter }
    {
        self.counter = counter;
    }

    /// Increments the counter, and reports whether it wrapped to two.
    pub fn inc_generation(&mut self) -> InvalidationOption<()>
        ensures { IncrementsCounter P.Gen.following P.Gen.wraps self.old result self.new }
    {
        let (next, overflow) = self.counter.generational_inc();
        self.counter = next;
        InvalidationOption::from_overflow(overflow, ())
    }

    pub fn backing(&self) -> &S
        ensures { IsBacking S.items S.capacity S.maximum P.Inx.packed_number P.Inx.greatest self.now
            result.now }
    {
        &self.slots
    }

    /// Inserts an entry within the capacity, and returns its pointer.
    pub fn insert_next(&mut self, t: T) -> P
        requires { entry_count self.old < self.old.capacity }
        ensures ptr { P.key result ≡ (next_index self.old, self.old.counter) }
        ensures after { self.new ≡ insert_next self.old t }
    {
        let p = self.next_ptr();
        match P::Inx::unpack(self.first_free) {
            Some(i) => {
                self.first_free = fill(&mut self.slots, position_of::<P>(i), self.counter, t);
            }
            None => {
                self.slots
                    .push_within(ArenaSlot::Allocated(self.counter, t));
            }
        }
        self.len += 1;
        self.placed = self.placed.one_more();
        p
    }

    /// Inserts an entry without growth, and returns its pointer.
    ///
    /// # Errors
    ///
    /// - `NotWithinCapacityError`: the arena is full.
    ///
    /// On error, nothing changes, and the value is dropped.
    pub fn insert_within_capacity(&mut self, t: T) -> Result<P, NotWithinCapacityError>
        ensures outcome { InsertsIfFree P.key self.old t result self.new }
        ensures err { OnErr result (self.new ≡ self.old) }
    {
        if self.is_full() {
            return Err(NotWithinCapacityError);
        }
        Ok(self.insert_next(t))
    }

    /// Inserts an entry, after growth if the arena is full, and returns its pointer.
    ///
    /// # Errors
    ///
    /// - `BeyondMaxCapacity`: the maximum is reached.
    /// - `AllocError`: an allocation failed, or the greatest index is reached.
    pub fn insert_reallocating(&mut self, t: T) -> Result<P, ReallocationError>
        ensures outcome { InsertsGrowing S.may_reach P.Inx.greatest P.key self.old t result
            self.new }
        ensures err { OnErr result (self.new ≡ self.old) }
    {
        match self.grow_if_full() {
            Ok(()) => Ok(self.insert_next(t)),
            Err(e) => Err(e),
        }
    }

    /// Grows a full arena for one more entry.
    ///
    /// # Errors
    ///
    /// - `BeyondMaxCapacity`: the maximum is reached.
    /// - `AllocError`: an allocation failed, or the greatest index is reached.
    pub fn grow_if_full(&mut self) -> Result<(), ReallocationError>
        ensures outcome { GrowsArenaForOneMore S.may_reach P.Inx.greatest self.old result
            self.new }
        ensures err { OnErr result (self.new ≡ self.old) }
    {
        if self.is_full() {
            self.grow_to(self.len + 1)
        } else {
            Ok(())
        }
    }

    /// Returns whether the entries use up the capacity.
    pub fn is_full(&self) -> bool
        ensures { ReportsFull P.Inx.greatest self.now result }
    {
        self.len == self.slots.capacity().min(P::Inx::greatest())
    }

    #[cold]
    #[inline(never)]
    pub(crate) fn grow_to(&mut self, n: usize) -> Result<(), ReallocationError>
        ensures outcome { GrowsArenaFor S.may_reach P.Inx.greatest n self.old result self.new }
        ensures err { OnErr result (self.new ≡ self.old) }
    {
        if n > P::Inx::greatest() {
            return Err(refusal(self.slots.max_capacity(), n));
        }
        self.slots.reserve_to(n)
    }

    pub(crate) fn pair_at(&self, k: usize) -> Option<(P, &T)>
        requires { k < P.Inx.greatest }
        ensures { ReturnsPairAt P.key self.now.slots k result }
    {
        match self.slots.get(k) {
            Some(ArenaSlot::Allocated(generation, t)) => {
                Some((P::_from_raw(inx_at::<P>(k), *generation), t))
            }
            Some(ArenaSlot::Free(_)) => None,
            None => None,
        }
    }

    // Most searches end at the first slot, and a position needs no load.
    pub(crate) fn next_from(&self, from: usize) -> Option<(usize, P, &T)>
        ensures { ReturnsNext P.key self.now.slots from result }
    {
        if from >= self.slots.len() {
            return None;
        }
        match self.pair_at(from) {
            Some(pair) => Some((from + 1, pair.0, pair.1)),
            None => self.search_from(from + 1),
        }
    }

    fn search_from(&self, from: usize) -> Option<(usize, P, &T)>
        ensures { ReturnsNext P.key self.now.slots from result }
    {
        for k in from..self.slots.len() {
            if let Some(pair) = self.pair_at(k) {
                return Some((k + 1, pair.0, pair.1));
            }
        }
        None
    }

    pub(crate) fn first_from(&self, from: usize) -> Option<P>
        ensures { ReturnsPointer P.key
            (first_key (entries_from (from + 1) (drop from self.now.slots))) result }
    {
        Some(self.next_from(from)?.1)
    }

    pub(crate) fn last_to(&self, to: usize) -> Option<P>
        ensures { ReturnsPointer P.key (last_key (entries_from 1 (take to self.now.slots))) result }
    {
        for k in (0..to.min(self.slots.len())).rev() {
            if let Some(pair) = self.pair_at(k) {
                return Some(pair.0);
            }
        }
        None
    }

    pub(crate) fn find(&self, cursor: Cursor) -> Option<P>
        ensures { ReturnsPointer P.key (first_key (ahead cursor (entries self.now))) result }
    {
        match cursor {
            Cursor::Up(from) => self.first_from(from.saturating_sub(1)),
            Cursor::Down(to) => self.last_to(to),
            Cursor::Nowhere => None,
        }
    }

    /// Returns the next insertion's index, or `None` above the greatest.
    pub fn next_inx(&self) -> Option<P::Inx>
        ensures { entry_count self.now < P.Inx.greatest
            → option_map P.Inx.number result ≡ Some (next_index self.now) }
    {
        match P::Inx::unpack(self.first_free) {
            Some(i) => Some(i),
            None => P::Inx::try_from_usize(self.len + 1),
        }
    }

    /// Returns the next insertion's pointer.
    pub fn next_ptr(&self) -> P
        requires { entry_count self.now < self.now.capacity }
        ensures { P.key result ≡ (next_index self.now, self.now.counter) }
    {
        let i = match P::Inx::unpack(self.first_free) {
            Some(i) => i,
            None => inx_at::<P>(self.len),
        };
        P::_from_raw(i, self.counter)
    }

    pub(crate) fn take_at(&mut self, i: P::Inx) -> InvalidationResult<(P::Gen, T)>
        ensures { TakesEntryAt P.Gen.following P.Gen.wraps self.old (P.Inx.number i) result
            self.new }
    {
        match vacate_at(&mut self.slots, position_of::<P>(i), self.first_free) {
            Some(entry) => {
                self.first_free = P::Inx::pack(Some(i));
                self.len -= 1;
                self.placed = self.placed.one_more();
                let (generation, overflow) = self.counter.generational_inc();
                self.counter = generation;
                InvalidationResult::from_overflow(overflow, entry)
            }
            None => InvalidationResult::InvalidPtr,
        }
    }

    pub(crate) fn renew_at(&mut self, i: P::Inx) -> (P::Gen, bool)
        requires { IsSome (entry_at self.old (P.Inx.number i)) }
        ensures { RenewsEntry P.Gen.following P.Gen.wraps (P.Inx.number i) self.old result
            self.new }
    {
        let (generation, overflow) = self.counter.generational_inc();
        self.counter = generation;
        regenerate_at(&mut self.slots, position_of::<P>(i), generation);
        (generation, overflow)
    }

    pub(crate) fn take_slots(&mut self) -> DetachedSlots<P, T, S>
        ensures { DetachesSlots S.initial_maximum P.Inx.greatest self.old result self.new }
    {
        let empty = S::new(self.slots.allocator());
        let slots = mem::replace(&mut self.slots, empty);
        self.len = 0;
        self.first_free = P::Inx::pack(None);
        DetachedSlots { slots }
    }

    pub(crate) fn return_slots(&mut self, detached: DetachedSlots<P, T, S>)
        ensures { self.new ≡ arena_after_return P.Inx.greatest self.old detached }
    {
        let DetachedSlots { mut slots } = detached;
        trim(&mut slots);
        let (len, first_free) = relist::<P, T, S>(&mut slots);
        self.slots = slots;
        self.len = len;
        self.first_free = first_free;
    }

    // Reads no slot; the first `count` are the entries.
    pub(crate) fn return_packed(&mut self, detached: DetachedSlots<P, T, S>, count: usize)
        requires { IsPacked detached.slots count }
        ensures { self.new ≡ arena_after_return P.Inx.greatest self.old detached }
    {
        let DetachedSlots { mut slots } = detached;
        slots.truncate(count);
        self.slots = slots;
        self.len = count;
        self.first_free = P::Inx::pack(None);
    }

    pub(crate) fn count_placement(&mut self)
        ensures { self.new ≡ with_placement self.old }
    {
        self.placed = self.placed.one_more();
    }

    pub(crate) fn count_touch(&mut self)
        ensures { self.new ≡ with_touch self.old }
    {
        self.touched = self.touched.one_more();
    }
}

fn refusal(maximum: Option<usize>, n: usize) -> ReallocationError
    ensures { (result ≡ ReallocationError.BeyondMaxCapacity) ↔ IsBeyond maximum n }
{
    match maximum {
        Some(most) if most < n => ReallocationError::BeyondMaxCapacity,
        _ => ReallocationError::AllocError,
    }
}

impl<P: PtrKey, T: Drop, S: LimitStack<Item = ArenaSlot<P, T>>> SetMaxCapacity for Arena<P, T, S> {
    ghost stack_capacity = { λ a. a.stack_capacity };

    ghost limits = { λ a n b. b ≡ with_maximum a n };

    /// Sets the maximum.
    ///
    /// # Errors
    ///
    /// - `MaxCapacityReductionError`: `n` is below the stack's capacity.
    fn set_max_capacity(&mut self, n: usize) -> Result<(), MaxCapacityReductionError> {
        self.slots.set_max_capacity(n)
    }
}
