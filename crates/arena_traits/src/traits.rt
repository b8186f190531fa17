ghost use Rattle.std.specs.Prelude.{◌≡◌, ℕ, ◌≤◌, ◌↔◌, ⊤, [], IsTrue, IsSome, IfSome, OnSome, IfNone, IfOk, OnOk, OnErr, Some, None, Option, if◌then◌else◌};
ghost use Rattle.std.specs.Option.{option_map, option_copied_mut};
ghost use Rattle.std.specs.Borrow.{LendsSo, sem};
ghost use Rattle.arena_core.specs.SlotStack.{IsWithinMaximum};
ghost use Rattle.arena_core.specs.Invalidation.{value_within};
ghost use Rattle.arena_traits.specs.Arena.{IsValid, borrowed_entry};
ghost use Rattle.arena_traits.specs.Entries.{ArenaView, ArenaState, IsSoundView, IsNew, count, first_key, last_key, view_with_value};
ghost use Rattle.arena_traits.specs.Growth.{Reserves};
ghost use Rattle.arena_traits.specs.CallOutcomes.{StartsWithCapacity, MakesCopy, ReplacesValue, SwapsValues, InsertsEntryWithin, InsertsEntry, RemovesEntry, RemovesEntryAt, InvalidatesEntry, ClearsEntries, CompressesEntries};
ghost use Rattle.arena_traits.specs.Advancers.{IsAdvance};
ghost use Rattle.arena_traits.specs.Compressions.{VisitsAll, values_in};
ghost use Rattle.arena_traits.specs.declared.cursor.Cursor.{Cursor};

use arena_core::{
    AllocError, AnyPointer, GenKey, InvalidationOption, InvalidationResult, InxKey,
    NotWithinCapacityError, PtrKey, ReallocationError, SlotStack,
};
use std::alloc::Global;
use std::mem;

/// A walk over a collection that is passed to each call.
///
/// Port of `Advancer`.
pub trait Advancer<C>: Drop {
    type Item;

    ghost gives: { Self → C → Option Self.Item → Self → Type 0 };

    ghost is_spent: { Self → Type 0 };

    /// Returns the next item, or `None` at the end.
    fn advance(&mut self, collection: &C) -> Option<Self::Item>
        ensures { gives self.old collection.now result self.new };

    /// Returns an advancer that always returns `None`.
    fn empty() -> Self
        ensures { is_spent result };

    ghost stays_spent: { (a b : Self) (c : C) (r : Option Self.Item) → is_spent a
        → gives a c r b → (r ≡ None) × is_spent b };
}

/// A finite map from indexes to entries, each a generation and a value.
///
/// Port of `ArenaTrait`.
pub trait ArenaTrait<P: PtrKey, T: Drop> {
    type PtrAdvancer: Advancer<Self, Item = P>;

    ghost view: { Self → ArenaView P.Gen T };

    ghost entry: { Self → ℕ → Option (P.Gen × T) };

    ghost state: { (a : Self) → ArenaState (view a) (entry a) };

    ghost cursor: { Self.PtrAdvancer → Cursor };

    // An arena's own guarantees, beyond its view.
    ghost starts: { ℕ → Self → Type 0 } = { λ _ _. ⊤ };

    ghost grows: { ℕ → Self → Self → Type 0 } = { λ _ _ _. ⊤ };

    ghost writes: { Self → ℕ → T → Self → Type 0 } = { λ _ _ _ _. ⊤ };

    ghost extra_on_invalidate: { Self → ℕ → Self → Type 0 } = { λ _ _ _. ⊤ };

    ghost removes: { Self → ℕ → Self → Type 0 } = { λ _ _ _. ⊤ };

    ghost clears: { Self → Self → Type 0 } = { λ _ _. ⊤ };

    ghost compresses: { Self → Self → Type 0 } = { λ _ _. ⊤ };

    /// Returns an empty arena, without allocating.
    fn new(alloc: Global) -> Self
        ensures new { IsNew P.Gen.first (view result) }
        ensures capacity { (view result).capacity ≡ 0 }
        ensures implementation { starts 0 result };

    /// Returns an empty arena with a capacity of at least `n`.
    ///
    /// # Errors
    ///
    /// - `AllocError`: an allocation failed, or `n` is above the greatest index or a new stack's
    ///   maximum.
    fn with_min_capacity(alloc: Global, n: usize) -> Result<Self, AllocError>
        ensures outcome { StartsWithCapacity view P.Gen.first P.Inx.greatest n result }
        ensures implementation { IfOk result (starts n) };

    /// Returns the number of entries that fit without growth.
    fn capacity(&self) -> usize
        ensures value { result ≡ (view self.now).capacity }
        ensures greatest { result ≤ P.Inx.greatest }
        ensures maximum { IsWithinMaximum (view self.now).maximum result };

    /// Returns the maximum of the slots, if there is one.
    fn max_capacity(&self) -> Option<usize>
        ensures { result ≡ (view self.now).maximum };

    /// Returns the number of entries, fewer than `usize::MAX`.
    fn len(&self) -> usize
        ensures count { result ≡ count (view self.now) }
        ensures sound { IsSoundView P.Inx.greatest (view self.now) };

    /// Returns whether there are no entries.
    fn is_empty(&self) -> bool
        ensures { IsTrue result ↔ ((view self.now).entries ≡ []) };

    /// Grows to a capacity of at least `n`.
    ///
    /// # Errors
    ///
    /// - `BeyondMaxCapacity`: `n` is above the maximum.
    /// - `AllocError`: an allocation failed, or `n` is above the greatest index.
    fn reallocate_min_capacity(&mut self, n: usize) -> Result<(), ReallocationError>
        ensures outcome { Reserves P.Inx.greatest n (view self.old) result (view self.new) }
        ensures enough { n ≤ (view self.old).capacity → self.new ≡ self.old }
        ensures err { OnErr result (self.new ≡ self.old) }
        ensures implementation { grows n self.old self.new };

    /// Returns the counter, if there is a single one.
    fn singular_generation(&self) -> Option<P::Gen>
        ensures { result ≡ (view self.now).counter };

    /// Returns whether the entry at the index of `p` has its generation.
    fn contains(&self, p: P) -> bool
        ensures { IsTrue result ↔ IsValid (entry self.now) (P.key p) };

    /// Returns the value of an entry, or `None` if `p` is invalid.
    fn get(&self, p: P) -> Option<&T>
        ensures some { IsSome result ↔ IsValid (entry self.now) (P.key p) }
        ensures value { IfSome result (λ t. entry self.now (P.key p).0 ≡ Some
            ((P.key p).1, t.now)) };

    /// Returns the value of an entry for writing, or `None` if `p` is invalid.
    fn get_mut(&mut self, p: P) -> Option<&mut T>
        ensures* writes_back { sem 𝓛 (LendsSo Self.row T.row self.entry result
            (λ new t. OnSome result ((view new ≡ view_with_value (view self.old) (P.key p).0 t)
            × writes self.old (P.key p).0 t new)) (λ new. new ≡ self.old)) }
        ensures some { IsSome result ↔ IsValid (entry self.old) (P.key p) }
        ensures value { IfSome result (λ t. entry self.old (P.key p).0 ≡ Some
            ((P.key p).1, t.now)) };

    /// Replaces a value and returns the former one, or `None` if `p` is invalid, dropping `t`.
    final fn replace(&mut self, p: P, t: T) -> Option<T>
        ensures outcome { ReplacesValue state P.key self.old p t result self.new }
        ensures invalid { IfNone result (self.new ≡ self.old) }
        ensures implementation { OnSome result (writes self.old (P.key p).0 t self.new) }
    {
        match self.get_mut(p) {
            Some(value) => Some(mem::replace(value, t)),
            None => None,
        }
    }

    /// Returns the generation and the value at an index, or `None` without an entry.
    fn get_inx(&self, i: P::Inx) -> Option<(P::Gen, &T)>
        ensures { option_map borrowed_entry result ≡ entry self.now (P.Inx.number i) };

    /// Returns the value at an index for writing, or `None` without an entry.
    fn get_inx_mut(&mut self, i: P::Inx) -> Option<&mut T>
        ensures* writes_back { sem 𝓛 (LendsSo Self.row T.row self.entry result
            (λ new t. OnSome result
            ((view new ≡ view_with_value (view self.old) (P.Inx.number i) t)
            × writes self.old (P.Inx.number i) t new)) (λ new. new ≡ self.old)) }
        ensures value { option_copied_mut result ≡ option_map (λ e. e.1)
            (entry self.old (P.Inx.number i)) };

    /// Returns the pointer of least index, or `None` without entries.
    fn find_first_inx_ptr(&self) -> Option<P>
        ensures { option_map P.key result ≡ first_key (view self.now).entries };

    /// Returns the pointer of greatest index, or `None` without entries.
    fn find_last_inx_ptr(&self) -> Option<P>
        ensures { option_map P.key result ≡ last_key (view self.now).entries };

    /// Returns an advancer by ascending index.
    fn advancer(&self) -> Self::PtrAdvancer
        ensures { cursor result ≡ Cursor.Up 1 };

    /// Returns an advancer from index `i` itself, descending with `rev`.
    fn advancer_inx(&self, i: P::Inx, rev: bool) -> Self::PtrAdvancer
        ensures { cursor result ≡ (if rev then Cursor.Down (P.Inx.number i)
            else Cursor.Up (P.Inx.number i)) };

    /// Gives an entry the incremented counter, and returns its new pointer.
    fn invalidate(&mut self, p: P) -> InvalidationResult<P>
        ensures outcome { InvalidatesEntry state ⟦<P as AnyPointer>⟧.pointers self.old p result
            self.new }
        ensures invalid { IfNone (value_within result) (self.new ≡ self.old) }
        ensures implementation { OnSome (value_within result)
            (extra_on_invalidate self.old (P.key p).0 self.new) };

    /// Removes an entry, returns its value and increments the counter.
    fn remove(&mut self, p: P) -> InvalidationResult<T>
        ensures outcome { RemovesEntry state ⟦<P as AnyPointer>⟧.pointers self.old p result
            self.new }
        ensures invalid { IfNone (value_within result) (self.new ≡ self.old) }
        ensures implementation { OnSome (value_within result)
            (removes self.old (P.key p).0 self.new) };

    /// Removes the entry at an index, and returns its generation and value.
    fn remove_inx(&mut self, i: P::Inx) -> InvalidationResult<(P::Gen, T)>
        ensures outcome { RemovesEntryAt state ⟦<P as AnyPointer>⟧.pointers self.old i result
            self.new }
        ensures invalid { IfNone (value_within result) (self.new ≡ self.old) }
        ensures implementation { OnSome (value_within result)
            (removes self.old (P.Inx.number i) self.new) };

    /// Removes all entries and slots, and increments the counter if there were entries.
    fn clear(&mut self) -> InvalidationOption<()>
        ensures outcome { ClearsEntries state ⟦<P as AnyPointer>⟧.pointers self.old result
            self.new }
        ensures implementation { clears self.old self.new };

    /// Moves the entry of the k-th least index to index k, in this order.
    ///
    /// Calls `map` with each entry's old pointer, value and new pointer. The entries get the
    /// counter, which is incremented or, with `reset`, two. Takes time in proportion to the slots
    /// (no clause states it), and does not allocate.
    fn compress_with<F: FnMut(P, &mut T, P) + Drop>(
        &mut self,
        reset: bool,
        map: F,
    ) -> InvalidationOption<()>
        requires { F.IsAlwaysCallable map }
        ensures outcome { CompressesEntries state ⟦<P as AnyPointer>⟧.pointers self.old reset
            result self.new }
        ensures visits { VisitsAll F.FnMut P.key map (view self.old).entries
            (view self.new).entries }
        ensures implementation { compresses self.old self.new };

    /// Compacts as `compress_with` does, without a closure.
    fn compress(&mut self, reset: bool) -> InvalidationOption<()>
        ensures outcome { CompressesEntries state ⟦<P as AnyPointer>⟧.pointers self.old reset
            result self.new }
        ensures values { values_in (view self.new).entries ≡ values_in (view self.old).entries }
        ensures implementation { compresses self.old self.new }
    {
        self.compress_with(reset, |_p: P, _t: &mut T, _q: P| {})
    }

    ghost advances: { (a b : Self.PtrAdvancer) (c : Self) (r : Option P)
        → Self.PtrAdvancer.gives a c r b → IsAdvance (view c).entries (cursor a)
        (option_map P.key r) (cursor b) };
}

/// An arena whose capacity grows with its entries, not with their indexes.
///
/// Port of `CompactArenaTrait`.
pub trait CompactArenaTrait<P: PtrKey, T: Drop>: ArenaTrait<P, T> {}

/// An arena that chooses the pointer of an inserted value.
pub trait PlainArenaTrait<P: PtrKey, T: Drop>: ArenaTrait<P, T> {
    ghost inserts: { Self → T → Self → Type 0 } = { λ _ _ _. ⊤ };

    ghost swaps: { Self → ℕ → ℕ → Self → Type 0 } = { λ _ _ _ _. ⊤ };

    /// Inserts a value without growth, and returns its pointer.
    ///
    /// # Errors
    ///
    /// - `NotWithinCapacityError`: the arena is full.
    ///
    /// On error, nothing changes, and `t` is dropped.
    fn insert_within_capacity(&mut self, t: T) -> Result<P, NotWithinCapacityError>
        ensures outcome { InsertsEntryWithin Self.state P.key self.old t result self.new }
        ensures err { OnErr result (self.new ≡ self.old) }
        ensures implementation { OnOk result (inserts self.old t self.new) };

    /// Inserts a value, after growth if the arena is full, and returns its pointer.
    ///
    /// # Errors
    ///
    /// - `BeyondMaxCapacity`: the maximum is reached.
    /// - `AllocError`: an allocation failed, or the greatest index is reached.
    fn insert_reallocating(&mut self, t: T) -> Result<P, ReallocationError>
        ensures outcome { InsertsEntry Self.state P.key P.Inx.greatest self.old t result self.new }
        ensures err { OnErr result (self.new ≡ self.old) }
        ensures implementation { OnOk result (inserts self.old t self.new) };

    /// Exchanges the values of two entries, or returns `None` if a pointer is invalid.
    fn swap(&mut self, p: P, q: P) -> Option<()>
        ensures outcome { SwapsValues Self.state P.key self.old p q result self.new }
        ensures invalid { IfNone result (self.new ≡ self.old) }
        ensures implementation { OnSome result (swaps self.old (P.key p).0 (P.key q).0 self.new) };
}

/// A plain arena that can be copied.
pub trait CloneArenaTrait<P: PtrKey, T: Clone>: PlainArenaTrait<P, T> {
    ghost initial_maximum: { Option ℕ };

    ghost clones: { Self → Self → Type 0 } = { λ _ _. ⊤ };

    /// Returns a copy in which all pointers are valid; a maximum is not copied.
    ///
    /// # Errors
    ///
    /// - `BeyondMaxCapacity`: there are more slots than the maximum of new slots.
    /// - `AllocError`: an allocation failed, also in a clone.
    fn try_clone(&self, alloc: Global) -> Result<Self, ReallocationError>
        requires clones_equal { (x y : T) → T.is_clone x y → y ≡ x }
        ensures outcome { MakesCopy Self.view P.Inx.greatest initial_maximum self.now result }
        ensures implementation { IfOk result (clones self.now) };
}
