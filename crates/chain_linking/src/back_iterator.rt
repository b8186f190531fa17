ghost use Rattle.std.specs.Prelude.{◌≡◌, Some, IfSome};
ghost use Rattle.std.specs.Option.{option_map};
ghost use Rattle.std.specs.Iterator.{YieldsFirstBy, item_count};
ghost use Rattle.chain_laws.specs.Chains.{IsWellLinked, HasLink, next_of};
ghost use Rattle.chain_laws.specs.Walks.{step_forward};
ghost use Rattle.chain_laws.specs.WalksBack.{step_to};
ghost use Rattle.chain_links.specs.ChainArena.{link_map};
ghost use Rattle.chain_links.specs.Links.{links_view};
ghost use Rattle.chain_links.specs.Walkers.{end_in, links_back_ahead, item_view};

use crate::walk_step::lookup;
use arena_base::{Arena, ArenaSlot, ArenaTrait, proved_unreachable};
use arena_ptr::{HeapStack, PtrKey, SlotStack};
use chain_links::LinkNoGen;
use chain_links::walk_direction::step_on;
use std::marker::Model;

fn next_before<P: PtrKey, T: Drop, S: SlotStack<Item = ArenaSlot<P, LinkNoGen<P, T>>>>(
    arena: &Arena<P, LinkNoGen<P, T>, S>,
    start: P::Inx,
    i: P::Inx,
) -> Option<P::Inx>
    ensures { option_map P.Inx.number result ≡ step_forward (P.Inx.number start)
        (next_of (link_map (links_view P.Inx.packed_number arena.now)) (P.Inx.number i)) }
{
    match arena.get_inx(i) {
        Some((_, link)) => step_on(start, link.next()),
        None => None,
    }
}

/// Returns the end, or in a cyclic chain the link before `start`.
pub fn end_of_chain<P: PtrKey, T: Drop, S: SlotStack<Item = ArenaSlot<P, LinkNoGen<P, T>>>>(
    arena: &Arena<P, LinkNoGen<P, T>, S>,
    start: P::Inx,
) -> P::Inx
    requires agrees { IsWellLinked (link_map (links_view P.Inx.packed_number arena.now)) }
    requires began { HasLink (link_map (links_view P.Inx.packed_number arena.now))
        (P.Inx.number start) }
    ensures { P.Inx.number result ≡ end_in (links_view P.Inx.packed_number arena.now)
        (P.Inx.number start) }
{
    let mut end = start;
    loop {
        match next_before(arena, start, end) {
            Some(k) => end = k,
            None => return end,
        }
    }
}

fn step_back<P: PtrKey, T: Drop, S: SlotStack<Item = ArenaSlot<P, LinkNoGen<P, T>>>>(
    arena: &Arena<P, LinkNoGen<P, T>, S>,
    start: P::Inx,
    prev: Option<P::Inx>,
) -> Option<P::Inx>
    requires agrees { IsWellLinked (link_map (links_view P.Inx.packed_number arena.now)) }
    requires began { HasLink (link_map (links_view P.Inx.packed_number arena.now))
        (P.Inx.number start) }
    ensures { option_map P.Inx.number result ≡ step_to (P.Inx.number start)
        (end_in (links_view P.Inx.packed_number arena.now) (P.Inx.number start))
        (option_map P.Inx.number prev) }
{
    match prev {
        Some(k) => step_on(start, Some(k)),
        None => step_on(start, Some(end_of_chain(arena, start))),
    }
}

/// An iterator over one chain backwards.
#[derive(Drop)]
pub struct ChainBackIter<
    'a,
    P: PtrKey,
    T: Drop,
    S: SlotStack<Item = ArenaSlot<P, LinkNoGen<P, T>>> = HeapStack<ArenaSlot<P, LinkNoGen<P, T>>>,
> {
    arena: &'a Arena<P, LinkNoGen<P, T>, S>,
    start: P::Inx,
    at: Option<P::Inx>,

    left: usize,
}

impl<'a, P: PtrKey, T: Drop, S: SlotStack<Item = ArenaSlot<P, LinkNoGen<P, T>>>> Model
    for ChainBackIter<'a, P, T, S> {
    ghost use Rattle.std.specs.Prelude.{ℕ, List};
    ghost use Rattle.std.specs.Option.{option_map};
    ghost use Rattle.chain_links.specs.ChainArena.{LinkView, link_map};

    ghost Value = { List (ℕ × (P.Gen × LinkView T)) };

    ghost use Rattle.chain_links.specs.Links.{links_view};
    ghost use Rattle.chain_links.specs.Walkers.{links_back_ahead};
    ghost use Rattle.chain_linking.specs.Iterators.{IsOnLinksBack};

    ghost view = { λ it. links_back_ahead (links_view P.Inx.packed_number it.arena.now) it.left
        (P.Inx.number it.start) (option_map P.Inx.number it.at) };

    ghost invariant = { λ it. IsOnLinksBack
        (link_map (links_view P.Inx.packed_number it.arena.now)) (P.Inx.number it.start)
        (option_map P.Inx.number it.at) };
}

/// Returns an iterator backwards from `start`, over at most `left` links.
pub fn iter_back_from<P: PtrKey, T: Drop, S: SlotStack<Item = ArenaSlot<P, LinkNoGen<P, T>>>>(
    arena: &Arena<P, LinkNoGen<P, T>, S>,
    start: P::Inx,
    left: usize,
) -> ChainBackIter<'_, P, T, S>
    requires agrees { IsWellLinked (link_map (links_view P.Inx.packed_number arena.now)) }
    requires began { HasLink (link_map (links_view P.Inx.packed_number arena.now))
        (P.Inx.number start) }
    ensures { result ≡ links_back_ahead (links_view P.Inx.packed_number arena.now) left
        (P.Inx.number start) (Some (P.Inx.number start)) }
{
    ChainBackIter {
        arena,
        start,
        at: Some(start),
        left,
    }
}

impl<'a, P: PtrKey, T: Drop, S: SlotStack<Item = ArenaSlot<P, LinkNoGen<P, T>>>> Iterator
    for ChainBackIter<'a, P, T, S> {
    type Item = (P, &'a LinkNoGen<P, T>);

    ghost next_gives = { YieldsFirstBy (item_view P.key P.Inx.packed_number) (λ rest. rest) };

    ghost remaining = { item_count (λ rest. rest) };

    fn next(&mut self) -> Option<(P, &'a LinkNoGen<P, T>)> {
        if self.left == 0 {
            return None;
        }
        match self.at {
            Some(i) => match lookup(self.arena, i) {
                Some(item) => {
                    self.left -= 1;
                    self.at = step_back(self.arena, self.start, item.1.prev());
                    Some(item)
                }
                None => proved_unreachable!(),
            },
            None => None,
        }
    }
}
