ghost use Rattle.std.specs.Prelude.{◌≡◌, ◌<◌, ◌^◌, length};
ghost use Rattle.std.specs.Iterator.{YieldsFirstBy, item_count};
ghost use Rattle.arena_traits.specs.Entries.{entries};
ghost use Rattle.chain_links.specs.ChainArena.{values_of};
ghost use Rattle.chain_links.specs.Links.{entry_views};

use crate::chain_arena::ChainArena;
use arena_base::{Arena, ArenaSlot, ArenaTrait, CapacityDrain, Iter};
use arena_ptr::{HeapStack, InxKey, PtrKey, SlotStack};
use chain_links::LinkNoGen;
use chain_links::link_access::value_of;
use std::marker::Model;

/// An iterator over all pointers and values.
///
/// Port of `ValIter`.
#[derive(Drop)]
pub struct ValIter<
    'a,
    P: PtrKey,
    T: Drop,
    S: SlotStack<Item = ArenaSlot<P, LinkNoGen<P, T>>> = HeapStack<ArenaSlot<P, LinkNoGen<P, T>>>,
> {
    links: Iter<'a, P, LinkNoGen<P, T>, S>,
}

impl<'a, P: PtrKey, T: Drop, S: SlotStack<Item = ArenaSlot<P, LinkNoGen<P, T>>>> Model
    for ValIter<'a, P, T, S> {
    ghost use Rattle.std.specs.Prelude.{ℕ, List};

    ghost Value = { List ((ℕ × P.Gen) × T) };

    ghost use Rattle.chain_links.specs.Links.{held_entries};

    ghost view = { λ it. held_entries it.links };
}

impl<'a, P: PtrKey, T: Drop, S: SlotStack<Item = ArenaSlot<P, LinkNoGen<P, T>>>> Iterator
    for ValIter<'a, P, T, S> {
    type Item = (P, &'a T);

    ghost next_gives = { YieldsFirstBy (λ item. (P.key item.0, item.1.now)) (λ rest. rest) };

    ghost remaining = { item_count (λ rest. rest) };

    fn next(&mut self) -> Option<(P, &'a T)> {
        match self.links.next() {
            Some((p, link)) => Some((p, value_of(link))),
            None => None,
        }
    }
}

impl<P: PtrKey, T: Drop, S: SlotStack<Item = ArenaSlot<P, LinkNoGen<P, T>>>> ChainArena<P, T, S> {
    /// Returns an iterator over all pointers and values, in ascending index order.
    ///
    /// Port of `ChainArena::iter`.
    pub fn iter(&self) -> ValIter<'_, P, T, S>
        ensures values { result ≡ entries (values_of self.now) }
        ensures fits { length result < 2 ^ 64 }
    {
        ValIter {
            links: links_of(&self.arena),
        }
    }

    /// Returns an iterator over all pointers and links, in ascending index order.
    ///
    /// Port of `ChainArenaTrait::iter_link_no_gen`.
    pub fn iter_link_no_gen(&self) -> Iter<'_, P, LinkNoGen<P, T>, S>
        ensures links { entry_views P.Inx.packed_number result ≡ entries self.now }
        ensures fits { length result < 2 ^ 64 }
    {
        links_of(&self.arena)
    }
}

pub(crate) fn links_of<P: PtrKey, T: Drop, S: SlotStack<Item = ArenaSlot<P, LinkNoGen<P, T>>>>(
    arena: &Arena<P, LinkNoGen<P, T>, S>,
) -> Iter<'_, P, LinkNoGen<P, T>, S>
    ensures { (result ≡ entries arena.now) × (length result < 2 ^ 64) }
{
    arena.invariants();
    arena.into_iter()
}

impl<P: PtrKey, T: Drop, S: SlotStack<Item = ArenaSlot<P, LinkNoGen<P, T>>>> IntoIterator
    for ChainArena<P, T, S> {
    ghost use Rattle.std.specs.Prelude.{◌≡◌, ◌<◌, ◌^◌, length};
    ghost use Rattle.arena_traits.specs.Entries.{entries};
    ghost use Rattle.chain_links.specs.Links.{entry_views};

    type Item = (P, LinkNoGen<P, T>);

    type IntoIter = CapacityDrain<P, LinkNoGen<P, T>, S>;

    ghost into_iter_gives = { λ a it. (entry_views P.Inx.packed_number it ≡ entries a)
        × (length it < 2 ^ 64) };

    fn into_iter(self) -> CapacityDrain<P, LinkNoGen<P, T>, S> {
        let ChainArena { arena } = self;
        arena.invariants();
        arena.into_iter()
    }
}

// The check does not infer these lifetimes from `&'a ChainArena<P, T, S>`.
impl<'a, P: PtrKey, T: Drop, S: SlotStack<Item = ArenaSlot<P, LinkNoGen<P, T>>>> IntoIterator
    for &'a ChainArena<P, T, S>
where
    P::Inx: 'a,
    <P::Inx as InxKey>::Word: 'a,
{
    ghost use Rattle.std.specs.Prelude.{◌≡◌, ◌<◌, ◌^◌, length};
    ghost use Rattle.arena_traits.specs.Entries.{entries};
    ghost use Rattle.chain_links.specs.Links.{entry_views};

    type Item = (P, &'a LinkNoGen<P, T>);

    type IntoIter = Iter<'a, P, LinkNoGen<P, T>, S>;

    ghost into_iter_gives = { λ a it. (entry_views P.Inx.packed_number it ≡ entries a.now)
        × (length it < 2 ^ 64) };

    fn into_iter(self) -> Iter<'a, P, LinkNoGen<P, T>, S> {
        self.iter_link_no_gen()
    }
}
