ghost use Rattle.std.specs.Prelude.{◌≡◌, ◌+◌, drop};
ghost use Rattle.arena_base.specs.ArenaCalls.{TakesNext};
ghost use Rattle.arena_traits.specs.Entries.{entries_from};
ghost use Rattle.std.specs.Iterator.{YieldsFirstBy, item_count};

use crate::arena::Arena;
use crate::slot::ArenaSlot;
use arena_core::{HeapStack, PtrKey, SlotStack, proved_unreachable};
use std::marker::Model;

impl<P: PtrKey, T: Drop, S: SlotStack<Item = ArenaSlot<P, T>>> Arena<P, T, S> {
    fn take_from(&mut self, from: usize) -> Option<(usize, P, T)>
        ensures { TakesNext P.key from self.old result self.new }
    {
        match self.next_from(from) {
            Some((behind, p, _)) => {
                match self.take_at(p.inx()).allow() {
                    Some(entry) => Some((behind, p, entry.1)),
                    None => proved_unreachable!(),
                }
            }
            None => None,
        }
    }
}

/// An iterator by ascending index.
///
/// Port of `Iter`.
#[derive(Drop)]
pub struct Iter<
    'a,
    P: PtrKey,
    T: Drop,
    S: SlotStack<Item = ArenaSlot<P, T>> = HeapStack<ArenaSlot<P, T>>,
> {
    arena: &'a Arena<P, T, S>,
    next: usize,
}

impl<'a, P: PtrKey, T: Drop, S: SlotStack<Item = ArenaSlot<P, T>>> Model for Iter<'a, P, T, S> {
    ghost use Rattle.std.specs.Prelude.{ℕ, List, ◌+◌, drop};

    ghost Value = { List ((ℕ × P.Gen) × T) };

    ghost use Rattle.arena_traits.specs.Entries.{entries_from};

    ghost view = { λ it. entries_from (it.next + 1) (drop it.next it.arena.now.slots) };
}

impl<'a, P: PtrKey, T: Drop, S: SlotStack<Item = ArenaSlot<P, T>>> Iterator for Iter<'a, P, T, S> {
    type Item = (P, &'a T);

    ghost next_gives = { YieldsFirstBy (λ item. (P.key item.0, item.1.now)) (λ rest. rest) };

    ghost remaining = { item_count (λ rest. rest) };

    fn next(&mut self) -> Option<(P, &'a T)> {
        match self.arena.next_from(self.next) {
            Some((next, p, t)) => {
                self.next = next;
                Some((p, t))
            }
            None => None,
        }
    }
}

/// A consuming iterator by ascending index.
///
/// Port of `CapacityDrain`.
#[derive(Drop)]
pub struct CapacityDrain<
    P: PtrKey,
    T: Drop,
    S: SlotStack<Item = ArenaSlot<P, T>> = HeapStack<ArenaSlot<P, T>>,
> {
    arena: Arena<P, T, S>,
    next: usize,
}

impl<P: PtrKey, T: Drop, S: SlotStack<Item = ArenaSlot<P, T>>> Model for CapacityDrain<P, T, S> {
    ghost use Rattle.std.specs.Prelude.{ℕ, List, ◌+◌, drop};

    ghost Value = { List ((ℕ × P.Gen) × T) };

    ghost use Rattle.arena_traits.specs.Entries.{entries_from};

    ghost view = { λ it. entries_from (it.next + 1) (drop it.next it.arena.slots) };
}

impl<P: PtrKey, T: Drop, S: SlotStack<Item = ArenaSlot<P, T>>> Iterator for CapacityDrain<P, T, S> {
    type Item = (P, T);

    ghost next_gives = { YieldsFirstBy (λ item. (P.key item.0, item.1)) (λ rest. rest) };

    ghost remaining = { item_count (λ rest. rest) };

    fn next(&mut self) -> Option<(P, T)> {
        match self.arena.take_from(self.next) {
            Some((next, p, t)) => {
                self.next = next;
                Some((p, t))
            }
            None => None,
        }
    }
}

impl<P: PtrKey, T: Drop, S: SlotStack<Item = ArenaSlot<P, T>>> IntoIterator for Arena<P, T, S> {
    ghost use Rattle.std.specs.Prelude.{◌≡◌};
    ghost use Rattle.arena_traits.specs.Entries.{entries};

    type Item = (P, T);

    type IntoIter = CapacityDrain<P, T, S>;

    ghost into_iter_gives = { λ a it. it ≡ entries a };

    fn into_iter(self) -> CapacityDrain<P, T, S> {
        CapacityDrain {
            arena: self,
            next: 0,
        }
    }
}

impl<'a, P: PtrKey, T: Drop, S: SlotStack<Item = ArenaSlot<P, T>>> IntoIterator
    for &'a Arena<P, T, S> {
    ghost use Rattle.std.specs.Prelude.{◌≡◌};
    ghost use Rattle.arena_traits.specs.Entries.{entries};

    type Item = (P, &'a T);

    type IntoIter = Iter<'a, P, T, S>;

    ghost into_iter_gives = { λ a it. it ≡ entries a.now };

    fn into_iter(self) -> Iter<'a, P, T, S> {
        Iter {
            arena: self,
            next: 0,
        }
    }
}
