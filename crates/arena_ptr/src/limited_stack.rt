ghost use Rattle.std.specs.Prelude.{◌≡◌, OnSome, slice_get, vec_capacity};
ghost use Rattle.std.specs.Option.{option_copied_mut};
ghost use Rattle.std.specs.Borrow.{LendsSo, sem};
ghost use Rattle.arena_core.specs.SlotStack.{IsWithinMaximum, IsWithinMaximum-prop};

use arena_core::{
    LimitStack, MaxCapacityReductionError, ReallocationError, SetMaxCapacity, SlotStack, slots,
};
use std::alloc::Global;

/// A slot stack in one heap block, which grows to at least twice its capacity, within an optional
/// maximum.
#[derive(Drop)]
pub struct LimitedStack<E> {
    slots: Vec<E>,
    most: Option<usize>,
    ghost within: { IsWithinMaximum most (vec_capacity slots) } by { IsWithinMaximum-prop most
        (vec_capacity slots) },
}

impl<E> LimitedStack<E> {
    ghost use Rattle.arena_ptr.specs.LimitedStack.{with_item_at};
    ghost use Rattle.arena_ptr.specs.contracts.limited_stack.LimitedStack.{the_row};

    fn slot_mut(&mut self, i: usize) -> Option<&mut E>
        ensures* lends { sem 𝓛 (LendsSo (the_row E.row) E.row self.entry result
            (λ new w. OnSome result (new ≡ with_item_at self.old i w))
            (λ new. new ≡ self.old)) }
        ensures value { option_copied_mut result ≡ slice_get self.old.slots.items i }
    {
        self.slots.get_mut(i)
    }
}

impl<E: Drop> SlotStack for LimitedStack<E> {
    ghost use Rattle.std.specs.Prelude.{◌*◌, max, None, refl};
    ghost use Rattle.arena_ptr.specs.LimitedStack.{with_item_at};
    ghost use Rattle.arena_core.specs.SlotStack.{min_with_maximum};
    ghost use Rattle.arena_core.specs.SlotVectors.{slots_have_capacity, slots_fit};

    type Item = E;

    ghost items = { λ s. s.slots.items };

    ghost capacity = { λ s. vec_capacity s.slots };

    ghost maximum = { λ s. s.most };

    ghost initial_maximum = { None };

    ghost may_reach = { λ old maximum n new. new ≡ max n (min_with_maximum maximum (2 * old)) };

    ghost with_item = { with_item_at };

    ghost has_capacity = { λ s. slots_have_capacity s.slots };

    ghost capacity_fits = { λ s. slots_fit s.slots };

    ghost within_maximum = { λ s. s.within };

    ghost items_written = { λ s i e. refl };

    ghost capacity_written = { λ s i e. refl };

    ghost maximum_written = { λ s i e. refl };

    fn new(alloc: Global) -> Self {
        LimitedStack {
            slots: Vec::new(alloc),
            most: None,
        }
    }

    fn allocator(&self) -> Global {
        *self.slots.allocator()
    }

    fn len(&self) -> usize {
        self.slots.len()
    }

    fn capacity(&self) -> usize {
        self.slots.capacity()
    }

    fn max_capacity(&self) -> Option<usize> {
        self.most
    }

    fn reserve_to(&mut self, n: usize) -> Result<(), ReallocationError> {
        if n <= self.slots.capacity() {
            return Ok(());
        }
        let twice = self.slots.capacity().saturating_mul(2);
        match self.most {
            None => slots::reserve_to(&mut self.slots, n.max(twice)),
            Some(most) if most < n => Err(ReallocationError::BeyondMaxCapacity),
            Some(most) => slots::reserve_to(&mut self.slots, n.max(twice.min(most))),
        }
    }

    fn push_within(&mut self, item: E) {
        self.slots.push_reserved(item);
    }

    fn get(&self, i: usize) -> Option<&E> {
        self.slots.get(i)
    }

    fn get_mut(&mut self, i: usize) -> Option<&mut E> {
        self.slot_mut(i)
    }

    fn swap(&mut self, i: usize, j: usize) {
        self.slots.swap(i, j);
    }

    fn truncate(&mut self, n: usize) {
        self.slots.truncate(n);
    }
}

impl<E: Drop> SetMaxCapacity for LimitedStack<E> {
    ghost use Rattle.std.specs.Prelude.{Some};

    ghost stack_capacity = { λ s. vec_capacity s.slots };

    ghost limits = { λ s n t. (t.slots ≡ s.slots) × (t.most ≡ Some n) };

    fn set_max_capacity(&mut self, n: usize) -> Result<(), MaxCapacityReductionError> {
        if n < self.slots.capacity() {
            return Err(MaxCapacityReductionError);
        }
        self.most = Some(n);
        Ok(())
    }
}

impl<E: Drop> LimitStack for LimitedStack<E> {
    ghost use Rattle.std.specs.Prelude.{refl};
    ghost use Rattle.std.proofs.Common.{rules};

    ghost same_capacity = { λ _. refl };

    ghost limited = { Prim.search rules };
}
