use crate::errors::ReallocationError;
use crate::slot_stack::SlotStack;
use crate::slots;
use std::alloc::Global;

/// A slot stack in one heap block, which grows to at least twice its capacity.
#[derive(Drop)]
pub struct HeapStack<E> {
    slots: Vec<E>,
}

impl<E: Drop> SlotStack for HeapStack<E> {
    ghost use Rattle.std.specs.Prelude.{◌≡◌, ◌*◌, max, None, vec_capacity, refl};
    ghost use Rattle.std.specs.Vec.{with_item as vec_with_item};
    ghost use Rattle.arena_core.specs.SlotVectors.{slots_have_capacity, slots_fit};

    type Item = E;

    ghost items = { λ s. s.slots.items };

    ghost capacity = { λ s. vec_capacity s.slots };

    ghost maximum = { λ _. None };

    ghost initial_maximum = { None };

    ghost may_reach = { λ old _ n new. new ≡ max n (2 * old) };

    ghost with_item = { λ s i e. record { slots = vec_with_item s.slots i e } };

    ghost has_capacity = { λ s. slots_have_capacity s.slots };

    ghost capacity_fits = { λ s. slots_fit s.slots };

    ghost within_maximum = { λ _. tt };

    ghost items_written = { λ s i e. refl };

    ghost capacity_written = { λ s i e. refl };

    ghost maximum_written = { λ s i e. refl };

    fn new(alloc: Global) -> Self {
        HeapStack {
            slots: Vec::new(alloc),
        }
    }

    fn allocator(&self) -> Global {
        *self.slots.allocator()
    }

    fn len(&self) -> usize {
        self.slots.len()
    }

    fn capacity(&self) -> usize {
        self.slots.capacity()
    }

    fn max_capacity(&self) -> Option<usize> {
        None
    }

    fn reserve_to(&mut self, n: usize) -> Result<(), ReallocationError> {
        if n <= self.slots.capacity() {
            return Ok(());
        }
        let twice = self.slots.capacity().saturating_mul(2);
        slots::reserve_to(&mut self.slots, n.max(twice))
    }

    fn push_within(&mut self, item: E) {
        self.slots.push_reserved(item);
    }

    fn get(&self, i: usize) -> Option<&E> {
        self.slots.get(i)
    }

    fn get_mut(&mut self, i: usize) -> Option<&mut E> {
        self.slots.get_mut(i)
    }

    fn swap(&mut self, i: usize, j: usize) {
        self.slots.swap(i, j);
    }

    fn truncate(&mut self, n: usize) {
        self.slots.truncate(n);
    }
}
