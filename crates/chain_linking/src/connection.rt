ghost use Rattle.std.specs.Prelude.{◌≢◌, ◌↔◌, IsTrue};
ghost use Rattle.chain_laws.specs.Chains.{IsWellLinked, HasLink};
ghost use Rattle.chain_links.specs.ChainArena.{link_map, entry, CanConnect};
ghost use Rattle.chain_links.specs.Links.{links_view};
ghost use Rattle.chain_linking.specs.Connections.{IsNextOf, IsPrevOf, ReadsBeside, JoinsLinks, SplicesLinks, MovesLink};

use crate::link_writes::{link_pair, link_pairs};
use arena_base::{Arena, ArenaSlot, ArenaTrait, proved_unreachable};
use arena_ptr::{PtrKey, SlotStack};
use chain_links::LinkNoGen;

/// Returns the index after `p`, if both exist.
pub fn next_of<P: PtrKey, T: Drop, S: SlotStack<Item = ArenaSlot<P, LinkNoGen<P, T>>>>(
    arena: &Arena<P, LinkNoGen<P, T>, S>,
    p: P,
) -> Option<P::Inx>
    ensures { IsNextOf P.Inx.packed_number P.Inx.number (P.key p) arena.now result }
{
    match arena.get(p) {
        Some(link) => link.next(),
        None => None,
    }
}

/// Returns the index before `p`, if both exist.
pub fn prev_of<P: PtrKey, T: Drop, S: SlotStack<Item = ArenaSlot<P, LinkNoGen<P, T>>>>(
    arena: &Arena<P, LinkNoGen<P, T>, S>,
    p: P,
) -> Option<P::Inx>
    ensures { IsPrevOf P.Inx.packed_number P.Inx.number (P.key p) arena.now result }
{
    match arena.get(p) {
        Some(link) => link.prev(),
        None => None,
    }
}

fn can_connect<P: PtrKey, T: Drop, S: SlotStack<Item = ArenaSlot<P, LinkNoGen<P, T>>>>(
    arena: &Arena<P, LinkNoGen<P, T>, S>,
    p: P,
    q: P,
) -> bool
    ensures { IsTrue result ↔ CanConnect (entry (links_view P.Inx.packed_number arena.now))
        (link_map (links_view P.Inx.packed_number arena.now)) (P.key p) (P.key q) }
{
    match arena.get(p) {
        Some(end) => match arena.get(q) {
            // Not `&&`: one test takes fewer instructions.
            Some(start) => end.next().is_none() & start.prev().is_none(),
            None => false,
        },
        None => false,
    }
}

/// Links `q` after `p`, or changes nothing if they cannot be connected.
pub fn join<P: PtrKey, T: Drop, S: SlotStack<Item = ArenaSlot<P, LinkNoGen<P, T>>>>(
    arena: &mut Arena<P, LinkNoGen<P, T>, S>,
    p: P,
    q: P,
) -> Option<()>
    ensures { JoinsLinks P.Inx.packed_number (P.key p) (P.key q) arena.old result arena.new }
{
    if !can_connect(arena, p, q) {
        return None;
    }
    link_pair(arena, Some(p.inx()), Some(q.inx()));
    Some(())
}

fn beside<P: PtrKey, T: Drop, S: SlotStack<Item = ArenaSlot<P, LinkNoGen<P, T>>>>(
    arena: &Arena<P, LinkNoGen<P, T>, S>,
    i: P::Inx,
) -> (Option<P::Inx>, Option<P::Inx>)
    requires { HasLink (link_map (links_view P.Inx.packed_number arena.now)) (P.Inx.number i) }
    ensures { ReadsBeside P.Inx.packed_number P.Inx.number (P.Inx.number i) arena.now result }
{
    match arena.get_inx(i) {
        Some((_, link)) => link.prev_next(),
        None => proved_unreachable!(),
    }
}

/// Moves the run from `first` to `last` directly after the link at `p`.
pub fn splice<P: PtrKey, T: Drop, S: SlotStack<Item = ArenaSlot<P, LinkNoGen<P, T>>>>(
    arena: &mut Arena<P, LinkNoGen<P, T>, S>,
    p: P::Inx,
    first: P::Inx,
    last: P::Inx,
)
    requires agrees { IsWellLinked (link_map (links_view P.Inx.packed_number arena.old)) }
    requires before { HasLink (link_map (links_view P.Inx.packed_number arena.old))
        (P.Inx.number p) }
    requires first { HasLink (link_map (links_view P.Inx.packed_number arena.old))
        (P.Inx.number first) }
    requires last { HasLink (link_map (links_view P.Inx.packed_number arena.old))
        (P.Inx.number last) }
    requires apart { P.Inx.number p ≢ P.Inx.number last }
    ensures { SplicesLinks P.Inx.packed_number (P.Inx.number p) (P.Inx.number first)
        (P.Inx.number last) arena.old arena.new }
{
    let (prev, _) = beside(arena, first);
    let (_, next) = beside(arena, last);
    link_pair(arena, prev, next);
    let (_, after) = beside(arena, p);
    link_pairs(arena, (Some(p), Some(first)), (Some(last), after));
}

/// Moves the link at `i` directly after another link at `j`.
pub fn move_link<P: PtrKey, T: Drop, S: SlotStack<Item = ArenaSlot<P, LinkNoGen<P, T>>>>(
    arena: &mut Arena<P, LinkNoGen<P, T>, S>,
    i: P::Inx,
    j: P::Inx,
)
    requires agrees { IsWellLinked (link_map (links_view P.Inx.packed_number arena.old)) }
    requires moved { HasLink (link_map (links_view P.Inx.packed_number arena.old))
        (P.Inx.number i) }
    requires before { HasLink (link_map (links_view P.Inx.packed_number arena.old))
        (P.Inx.number j) }
    requires apart { P.Inx.number i ≢ P.Inx.number j }
    ensures { MovesLink P.Inx.packed_number (P.Inx.number i) (P.Inx.number j) arena.old arena.new }
{
    splice(arena, j, i, i);
}
