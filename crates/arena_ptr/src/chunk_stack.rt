ghost use Rattle.std.specs.Prelude.{◌≡◌, ◌+◌, ◌-◌, ◌*◌, ◌^◌, ◌/◌, ◌<◌, ◌≤◌, ◌≢◌, length, take, swap, OnSome, slice_get};
ghost use Rattle.std.specs.Option.{option_copied_mut};
ghost use Rattle.std.specs.Borrow.{LendsSo, sem};
ghost use Rattle.arena_ptr.specs.Blocks.{AreFilled, AreFilled-prop, items_in, slots_for, SwapsBetween, AddsBlocks, ChangesItemsIn};

use arena_core::{ReallocationError, SlotStack};
use std::alloc::{AllocError, Global};
use std::mem;

const SLOTS: usize = 64;

const MOST: usize = usize::MAX / SLOTS;

/// A slot stack in blocks of 64 slots.
///
/// Growth moves no item, and frees its blocks if one is refused.
#[derive(Drop)]
pub struct ChunkStack<E> {
    blocks: Vec<Vec<E>>,
    len: usize,
    ghost filled: { AreFilled blocks.items len } by { AreFilled-prop blocks.items len },
    ghost fits: { 64 * length blocks.items + 1 < 2 ^ 64 },
}

fn exchange_items<E>(one: &mut Vec<E>, i: usize, other: &mut Vec<E>, j: usize)
    requires i_in_bounds { i < length one.old.items }
    requires j_in_bounds { j < length other.old.items }
    ensures { SwapsBetween one.old i other.old j one.new other.new }
{
    mem::swap(&mut one[i], &mut other[j]);
}

impl<E: Drop> ChunkStack<E> {
    ghost use Rattle.arena_ptr.specs.ChunkStack.{with_item_at};
    ghost use Rattle.arena_ptr.specs.contracts.chunk_stack.ChunkStack.{the_row};

    fn slot_mut(&mut self, i: usize) -> Option<&mut E>
        ensures* lends { sem 𝓛 (LendsSo (the_row E.row) E.row self.entry result
            (λ new w. OnSome result (new ≡ with_item_at self.old i w))
            (λ new. new ≡ self.old)) }
        ensures value { option_copied_mut result ≡ slice_get (items_in self.old.blocks.items) i }
    {
        if self.len <= i {
            return None;
        }
        Some(&mut self.blocks[i / SLOTS][i % SLOTS])
    }

    fn pop(&mut self)
        requires { 0 < self.old.len }
        ensures len { self.new.len + 1 ≡ self.old.len }
        ensures blocks { ChangesItemsIn self.old.blocks.items
            (take self.new.len (items_in self.old.blocks.items)) self.new.blocks.items }
    {
        self.len -= 1;
        self.blocks[self.len / SLOTS].truncate(self.len % SLOTS);
    }

    fn add_block(&mut self) -> Result<(), AllocError>
        requires { 64 * length self.old.blocks.items + 65 < 2 ^ 64 }
        ensures len { self.new.len ≡ self.old.len }
        ensures blocks { AddsBlocks result self.old.blocks.items
            (length self.old.blocks.items + 1) self.new.blocks.items }
    {
        let mut block = Vec::new(*self.blocks.allocator());
        block.reserve_exact(SLOTS)?;
        match self.blocks.push(block) {
            Ok(()) => Ok(()),
            Err(_) => Err(AllocError),
        }
    }

    fn add_blocks(&mut self, count: usize) -> Result<(), AllocError>
        requires more { length self.old.blocks.items ≤ count }
        requires few { 64 * count + 1 < 2 ^ 64 }
        ensures { AddsBlocks result self.old.blocks.items count self.new.blocks.items }
    {
        let before = self.blocks.len();
        while self.blocks.len() < count {
            if self.add_block().is_err() {
                self.blocks.truncate(before);
                return Err(AllocError);
            }
        }
        Ok(())
    }

    fn exchange_between(&mut self, i: usize, j: usize)
        requires i_in_bounds { i < self.old.len }
        requires j_in_bounds { j < self.old.len }
        requires apart { i / 64 ≢ j / 64 }
        ensures { ChangesItemsIn self.old.blocks.items (swap (items_in self.old.blocks.items) i j)
            self.new.blocks.items }
    {
        let empty = Vec::new(*self.blocks.allocator());
        let mut one = mem::replace(&mut self.blocks[i / SLOTS], empty);
        exchange_items(&mut one, i % SLOTS, &mut self.blocks[j / SLOTS], j % SLOTS);
        self.blocks[i / SLOTS] = one;
    }
}

impl<E: Drop> SlotStack for ChunkStack<E> {
    ghost use Rattle.std.specs.Prelude.{None, refl};
    ghost use Rattle.arena_ptr.specs.ChunkStack.{with_item_at, items_written_at, blocks_written_at, has_capacity_in};

    type Item = E;

    ghost items = { λ s. items_in s.blocks.items };

    ghost capacity = { λ s. 64 * length s.blocks.items };

    ghost maximum = { λ _. None };

    ghost initial_maximum = { None };

    ghost may_reach = { λ _ _ n new. new ≡ slots_for n };

    ghost with_item = { with_item_at };

    ghost has_capacity = { has_capacity_in };

    ghost capacity_fits = { λ s. s.fits };

    ghost within_maximum = { λ _. tt };

    ghost items_written = { items_written_at };

    ghost capacity_written = { blocks_written_at };

    ghost maximum_written = { λ s i e. refl };

    fn new(alloc: Global) -> Self {
        ChunkStack {
            blocks: Vec::new(alloc),
            len: 0,
        }
    }

    fn allocator(&self) -> Global {
        *self.blocks.allocator()
    }

    fn len(&self) -> usize {
        self.len
    }

    fn capacity(&self) -> usize {
        self.blocks.len() * SLOTS
    }

    fn max_capacity(&self) -> Option<usize> {
        None
    }

    fn reserve_to(&mut self, n: usize) -> Result<(), ReallocationError> {
        if n <= self.capacity() {
            return Ok(());
        }
        let count = n.div_ceil(SLOTS);
        if count > MOST {
            return Err(ReallocationError::AllocError);
        }
        match self.add_blocks(count) {
            Ok(()) => Ok(()),
            Err(_) => Err(ReallocationError::AllocError),
        }
    }

    fn push_within(&mut self, item: E) {
        self.blocks[self.len / SLOTS].push_reserved(item);
        self.len += 1;
    }

    fn get(&self, i: usize) -> Option<&E> {
        if self.len <= i {
            return None;
        }
        Some(&self.blocks[i / SLOTS][i % SLOTS])
    }

    fn get_mut(&mut self, i: usize) -> Option<&mut E> {
        self.slot_mut(i)
    }

    fn swap(&mut self, i: usize, j: usize) {
        if i / SLOTS == j / SLOTS {
            self.blocks[i / SLOTS].swap(i % SLOTS, j % SLOTS);
        } else {
            self.exchange_between(i, j);
        }
    }

    fn truncate(&mut self, n: usize) {
        while n < self.len {
            self.pop();
        }
    }
}
