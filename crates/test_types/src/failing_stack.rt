//! A stack that refuses growths.

use arena_ptr::{ReallocationError, SlotStack};
use std::alloc::Global;

/// A wrapper of a stack that grows a number of times, and then refuses every other growth.
///
/// A new one refuses the first growth. A maximum of the stack is tested first.
#[derive(Drop)]
pub struct FailingStack<S> {
    inner: S,
    ration: u32,
}

impl<S> FailingStack<S> {
    /// Wraps a stack, which then grows `ration` times before the first refusal.
    pub fn with_ration(inner: S, ration: u32) -> Self {
        FailingStack { inner, ration }
    }
}

impl<S: SlotStack> SlotStack for FailingStack<S> {
    type Item = S::Item;

    ghost items = { λ s. S.items s.inner };

    ghost capacity = { λ s. S.capacity s.inner };

    ghost maximum = { λ s. S.maximum s.inner };

    ghost initial_maximum = { S.initial_maximum };

    ghost with_item = { λ s i e. record s { inner = S.with_item s.inner i e } };

    ghost has_capacity = { λ s. S.has_capacity s.inner };

    ghost capacity_fits = { λ s. S.capacity_fits s.inner };

    ghost within_maximum = { λ s. S.within_maximum s.inner };

    ghost items_written = { λ s i e. S.items_written s.inner i e };

    ghost capacity_written = { λ s i e. S.capacity_written s.inner i e };

    ghost maximum_written = { λ s i e. S.maximum_written s.inner i e };

    fn new(alloc: Global) -> Self {
        FailingStack {
            inner: S::new(alloc),
            ration: 0,
        }
    }

    fn allocator(&self) -> Global {
        self.inner.allocator()
    }

    fn len(&self) -> usize {
        self.inner.len()
    }

    fn capacity(&self) -> usize {
        self.inner.capacity()
    }

    fn max_capacity(&self) -> Option<usize> {
        self.inner.max_capacity()
    }

    fn reserve_to(&mut self, n: usize) -> Result<(), ReallocationError> {
        if n <= self.inner.capacity() {
            return Ok(());
        }
        if let Some(most) = self.inner.max_capacity()
            && most < n
        {
            return Err(ReallocationError::BeyondMaxCapacity);
        }
        if self.ration == 0 {
            self.ration = 1;
            return Err(ReallocationError::AllocError);
        }
        self.ration -= 1;
        self.inner.reserve_to(n)
    }

    fn push_within(&mut self, item: S::Item) {
        self.inner.push_within(item);
    }

    fn get(&self, i: usize) -> Option<&S::Item> {
        self.inner.get(i)
    }

    fn get_mut(&mut self, i: usize) -> Option<&mut S::Item> {
        self.inner.get_mut(i)
    }

    fn swap(&mut self, i: usize, j: usize) {
        self.inner.swap(i, j);
    }

    fn truncate(&mut self, n: usize) {
        self.inner.truncate(n);
    }
}
