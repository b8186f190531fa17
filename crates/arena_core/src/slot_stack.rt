ghost use Rattle.std.specs.Prelude.{◌≡◌, ℕ, ◌+◌, ◌^◌, ◌<◌, ◌≤◌, ◌↔◌, ⊤, List, [], ◌∷◌, ◌++◌, length, take, swap, slice_get, slice_set, Option, Some, IsOk, OnOk, OnErr, option_copied};
ghost use Rattle.std.specs.Option.{option_copied_mut};
ghost use Rattle.std.specs.Borrow.{LendsIf, sem};
ghost use Rattle.arena_core.specs.SlotStack.{IsWithinMaximum, IsStackWith, ChangesItems, ReservesTo};

use crate::errors::{MaxCapacityReductionError, ReallocationError};
use std::alloc::Global;

/// The slots of an arena: a list, a capacity, and an optional maximum.
pub trait SlotStack: Drop {
    type Item: Drop;

    ghost items: { Self → List Self.Item };

    ghost capacity: { Self → ℕ };

    ghost maximum: { Self → Option ℕ };

    ghost initial_maximum: { Option ℕ };

    ghost may_reach: { ℕ → Option ℕ → ℕ → ℕ → Type 0 } = { λ _ _ _ _. ⊤ };

    ghost with_item: { Self → ℕ → Self.Item → Self };

    /// Returns an empty stack of capacity 0, without allocating.
    fn new(alloc: Global) -> Self
        ensures { IsStackWith items capacity maximum result [] 0 initial_maximum };

    /// Returns the allocator given to `new`.
    fn allocator(&self) -> Global;

    /// Returns the number of items.
    fn len(&self) -> usize
        ensures { result ≡ length (items self.now) };

    /// Returns the number of items that fit without growth.
    fn capacity(&self) -> usize
        ensures { result ≡ capacity self.now };

    /// Returns the maximum, if there is one.
    fn max_capacity(&self) -> Option<usize>
        ensures { result ≡ maximum self.now };

    /// Grows to a capacity of at least `n`.
    ///
    /// # Errors
    ///
    /// - `BeyondMaxCapacity`: `n` is above the maximum.
    /// - `AllocError`: an allocation failed.
    ///
    /// On error, nothing changes.
    fn reserve_to(&mut self, n: usize) -> Result<(), ReallocationError>
        ensures { ReservesTo items capacity maximum may_reach n self.old result self.new };

    /// Appends an item within the capacity.
    fn push_within(&mut self, item: Self::Item)
        requires { length (items self.old) < capacity self.old }
        ensures { ChangesItems items capacity maximum self.old (items self.old ++ item ∷ [])
            self.new };

    /// Returns the item at position `i`, from 0, or `None` out of bounds.
    fn get(&self, i: usize) -> Option<&Self::Item>
        ensures { option_copied result ≡ slice_get (items self.now) i };

    /// Returns the item at position `i` for writing, or `None` out of bounds.
    fn get_mut(&mut self, i: usize) -> Option<&mut Self::Item>
        ensures* lends { sem 𝓛 (LendsIf Self.row Self.Item.row self.entry result
            (with_item self.old i) self.old) }
        ensures value { option_copied_mut result ≡ slice_get (items self.old) i };

    /// Swaps the items at two positions.
    fn swap(&mut self, i: usize, j: usize)
        requires i_in_bounds { i < length (items self.old) }
        requires j_in_bounds { j < length (items self.old) }
        ensures { ChangesItems items capacity maximum self.old (swap (items self.old) i j)
            self.new };

    /// Drops the items from position `n` on.
    fn truncate(&mut self, n: usize)
        requires { n ≤ length (items self.old) }
        ensures { ChangesItems items capacity maximum self.old (take n (items self.old))
            self.new };

    ghost has_capacity: { (s : Self) → length (items s) ≤ capacity s };

    ghost capacity_fits: { (s : Self) → capacity s + 1 < 2 ^ 64 };

    ghost within_maximum: { (s : Self) → IsWithinMaximum (maximum s) (capacity s) };

    ghost items_written: { (s : Self) (i : ℕ) (e : Self.Item)
        → items (with_item s i e) ≡ slice_set (items s) i e };

    ghost capacity_written: { (s : Self) (i : ℕ) (e : Self.Item)
        → capacity (with_item s i e) ≡ capacity s };

    ghost maximum_written: { (s : Self) (i : ℕ) (e : Self.Item)
        → maximum (with_item s i e) ≡ maximum s };
}

/// A container with a settable maximum.
///
/// Port of `SetMaxCapacity`.
pub trait SetMaxCapacity {
    ghost stack_capacity: { Self → ℕ };

    ghost limits: { Self → ℕ → Self → Type 0 };

    /// Sets the maximum.
    ///
    /// # Errors
    ///
    /// - `MaxCapacityReductionError`: `n` is below the capacity.
    fn set_max_capacity(&mut self, n: usize) -> Result<(), MaxCapacityReductionError>
        ensures variant { IsOk result ↔ (stack_capacity self.old ≤ n) }
        ensures ok { OnOk result (limits self.old n self.new) }
        ensures err { OnErr result (self.new ≡ self.old) };
}

/// A slot stack with a settable maximum.
pub trait LimitStack: SlotStack + SetMaxCapacity {
    ghost same_capacity: { (s : Self) → Self.stack_capacity s ≡ Self.capacity s };

    ghost limited: { (s t : Self) (n : ℕ) → Self.limits s n t → (Self.items t ≡ Self.items s)
        × (Self.capacity t ≡ Self.capacity s) × (Self.maximum t ≡ Some n) };
}
