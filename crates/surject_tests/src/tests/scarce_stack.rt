//! A stack with a maximum that refuses every other growth.

use arena_ptr::{LimitStack, ReallocationError, SlotStack};
use std::alloc::Global;

/// A wrapper of a stack whose maximum is `MOST`, and which refuses every other growth, the second
/// first.
#[derive(Drop)]
pub struct ScarceStack<S, const MOST: usize> {
    inner: S,
    refuses: bool,
}

impl<S: LimitStack, const MOST: usize> SlotStack for ScarceStack<S, MOST> {
    ghost use Rattle.std.specs.Prelude.{Some};

    type Item = S::Item;

    ghost items = { λ s. S.items s.inner };

    ghost capacity = { λ s. S.capacity s.inner };

    ghost maximum = { λ s. S.maximum s.inner };

    ghost initial_maximum = { Some MOST };

    ghost with_item = { λ s i e. record s { inner = S.with_item s.inner i e } };

    ghost has_capacity = { λ s. S.has_capacity s.inner };

    ghost capacity_fits = { λ s. S.capacity_fits s.inner };

    ghost within_maximum = { λ s. S.within_maximum s.inner };

    ghost items_written = { λ s i e. S.items_written s.inner i e };

    ghost capacity_written = { λ s i e. S.capacity_written s.inner i e };

    ghost maximum_written = { λ s i e. S.maximum_written s.inner i e };

    fn new(alloc: Global) -> Self {
        let mut inner = S::new(alloc);
        match inner.set_max_capacity(MOST) {
            Ok(()) => ScarceStack {
                inner,
                refuses: false,
            },
            Err(_) => unreachable!(),
        }
    }

    fn allocator(&self) -> Global {
        self.inner.allocator()
    }

    fn len(&self) -> usize {
        self.inner.len()
    }

    fn capacity(&self) -> usize {
        self.inner.capacity()
    }

    fn max_capacity(&self) -> Option<usize> {
        self.inner.max_capacity()
    }

    fn reserve_to(&mut self, n: usize) -> Result<(), ReallocationError> {
        if n <= self.inner.capacity() {
            return Ok(());
        }
        if let Some(most) = self.inner.max_capacity()
            && most < n
        {
            return Err(ReallocationError::BeyondMaxCapacity);
        }
        if self.refuses {
            self.refuses = false;
            return Err(ReallocationError::AllocError);
        }
        self.refuses = true;
        self.inner.reserve_to(n)
    }

    fn push_within(&mut self, item: S::Item) {
        self.inner.push_within(item);
    }

    fn get(&self, i: usize) -> Option<&S::Item> {
        self.inner.get(i)
    }

    fn get_mut(&mut self, i: usize) -> Option<&mut S::Item> {
        self.inner.get_mut(i)
    }

    fn swap(&mut self, i: usize, j: usize) {
        self.inner.swap(i, j);
    }

    fn truncate(&mut self, n: usize) {
        self.inner.truncate(n);
    }
}
