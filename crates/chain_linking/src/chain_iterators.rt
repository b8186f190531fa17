ghost use Rattle.std.specs.Prelude.{◌≡◌, Some, IfSome};
ghost use Rattle.std.specs.Option.{option_map};
ghost use Rattle.std.specs.Iterator.{YieldsFirstBy, item_count};
ghost use Rattle.chain_laws.specs.Chains.{IsWellLinked, HasLink};
ghost use Rattle.chain_links.specs.ChainArena.{link_map};
ghost use Rattle.chain_links.specs.Links.{links_view};
ghost use Rattle.chain_links.specs.Walkers.{links_ahead, item_view};

use crate::walk_step::lookup;
use arena_base::{Arena, ArenaSlot, ArenaTrait, proved_unreachable};
use arena_ptr::{HeapStack, PtrKey, SlotStack};
use chain_links::LinkNoGen;
use chain_links::links::is_index;
use std::marker::Model;

/// An iterator over one chain in walk order.
///
/// Port of the iterator of `ChainArenaTrait::iter_chain`.
#[derive(Drop)]
pub struct ChainIter<
    'a,
    P: PtrKey,
    T: Drop,
    S: SlotStack<Item = ArenaSlot<P, LinkNoGen<P, T>>> = HeapStack<ArenaSlot<P, LinkNoGen<P, T>>>,
> {
    arena: &'a Arena<P, LinkNoGen<P, T>, S>,
    start: P::Inx,
    forward: Option<P::Inx>,
    back: Option<P::Inx>,

    left: usize,
}

impl<'a, P: PtrKey, T: Drop, S: SlotStack<Item = ArenaSlot<P, LinkNoGen<P, T>>>> Model
    for ChainIter<'a, P, T, S> {
    ghost use Rattle.std.specs.Prelude.{ℕ, List};
    ghost use Rattle.std.specs.Option.{option_map};
    ghost use Rattle.chain_links.specs.ChainArena.{LinkView, link_map};

    ghost Value = { List (ℕ × (P.Gen × LinkView T)) };

    ghost use Rattle.chain_links.specs.Links.{links_view};
    ghost use Rattle.chain_links.specs.Walkers.{links_ahead};
    ghost use Rattle.chain_linking.specs.Iterators.{IsOnLinks};

    ghost view = { λ it. links_ahead (links_view P.Inx.packed_number it.arena.now) it.left
        (P.Inx.number it.start)
        (option_map P.Inx.number it.forward) (option_map P.Inx.number it.back) };

    ghost invariant = { λ it. IsOnLinks (link_map (links_view P.Inx.packed_number it.arena.now))
        (option_map P.Inx.number it.forward) (option_map P.Inx.number it.back) };
}

/// Returns an iterator over at most `left` links from `start`, then from `back`.
pub fn iter_from<P: PtrKey, T: Drop, S: SlotStack<Item = ArenaSlot<P, LinkNoGen<P, T>>>>(
    arena: &Arena<P, LinkNoGen<P, T>, S>,
    start: P::Inx,
    back: Option<P::Inx>,
    left: usize,
) -> ChainIter<'_, P, T, S>
    requires agrees { IsWellLinked (link_map (links_view P.Inx.packed_number arena.now)) }
    requires onward { HasLink (link_map (links_view P.Inx.packed_number arena.now))
        (P.Inx.number start) }
    requires behind { IfSome (option_map P.Inx.number back)
        (HasLink (link_map (links_view P.Inx.packed_number arena.now))) }
    ensures { result ≡ links_ahead (links_view P.Inx.packed_number arena.now) left
        (P.Inx.number start)
        (Some (P.Inx.number start)) (option_map P.Inx.number back) }
{
    ChainIter {
        arena,
        start,
        forward: Some(start),
        back,
        left,
    }
}

impl<'a, P: PtrKey, T: Drop, S: SlotStack<Item = ArenaSlot<P, LinkNoGen<P, T>>>> Iterator
    for ChainIter<'a, P, T, S> {
    type Item = (P, &'a LinkNoGen<P, T>);

    ghost next_gives = { YieldsFirstBy (item_view P.key P.Inx.packed_number) (λ rest. rest) };

    ghost remaining = { item_count (λ rest. rest) };

    fn next(&mut self) -> Option<(P, &'a LinkNoGen<P, T>)> {
        if self.left == 0 {
            return None;
        }
        match self.forward {
            Some(i) => match lookup(self.arena, i) {
                Some(item) => {
                    self.left -= 1;
                    self.forward = item.1.next();
                    if is_index(self.forward, self.start) {
                        self.left = 0;
                    }
                    Some(item)
                }
                None => proved_unreachable!(),
            },
            None => match self.back {
                Some(i) => match lookup(self.arena, i) {
                    Some(item) => {
                        self.left -= 1;
                        self.back = item.1.prev();
                        Some(item)
                    }
                    None => proved_unreachable!(),
                },
                None => None,
            },
        }
    }
}
