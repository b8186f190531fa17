ghost use Rattle.std.specs.Prelude.{◌≡◌, IfSome};
ghost use Rattle.std.specs.Option.{option_map, option_and_then};
ghost use Rattle.chain_laws.specs.Chains.{IsWellLinked, HasLink};
ghost use Rattle.chain_links.specs.ChainArena.{link_map, entry, ptr_at};
ghost use Rattle.chain_links.specs.Links.{link_view, links_view};
ghost use Rattle.chain_linking.specs.LinkWrites.{PointsToNeighbors, SetsNext, SetsPrev, SetsBoth, LinksPair, LinksPairs, WereBeside, TakesLinkAt};

use arena_base::{Arena, ArenaSlot, ArenaTrait, proved_unreachable};
use arena_ptr::{InvalidationResult, InxKey, PtrKey, SlotStack};
use chain_links::{LinkNoGen, link_access};

fn neighbor<P: PtrKey, T: Drop, S: SlotStack<Item = ArenaSlot<P, LinkNoGen<P, T>>>>(
    arena: &Arena<P, LinkNoGen<P, T>, S>,
    i: Option<P::Inx>,
) -> Option<P>
    requires { IfSome (option_map P.Inx.number i)
        (HasLink (link_map (links_view P.Inx.packed_number arena.now))) }
    ensures { option_map P.key result ≡ option_and_then
        (ptr_at (entry (links_view P.Inx.packed_number arena.now))) (option_map P.Inx.number i) }
{
    match i {
        Some(i) => match arena.get_inx(i) {
            Some((generation, _)) => Some(P::_from_raw(i, generation)),
            None => proved_unreachable!(),
        },
        None => None,
    }
}

/// Returns the pointers to a link's neighbors.
pub fn neighbors<P: PtrKey, T: Drop, S: SlotStack<Item = ArenaSlot<P, LinkNoGen<P, T>>>>(
    arena: &Arena<P, LinkNoGen<P, T>, S>,
    link: &LinkNoGen<P, T>,
) -> (Option<P>, Option<P>)
    requires prev { IfSome (link_view P.Inx.packed_number link.now).prev
        (HasLink (link_map (links_view P.Inx.packed_number arena.now))) }
    requires next { IfSome (link_view P.Inx.packed_number link.now).next
        (HasLink (link_map (links_view P.Inx.packed_number arena.now))) }
    ensures { PointsToNeighbors P.Inx.packed_number P.key arena.now link.now result }
{
    (neighbor(arena, link.prev()), neighbor(arena, link.next()))
}

/// Sets the index after `i`; `None` writes nothing.
pub fn set_next<P: PtrKey, T: Drop, S: SlotStack<Item = ArenaSlot<P, LinkNoGen<P, T>>>>(
    arena: &mut Arena<P, LinkNoGen<P, T>, S>,
    i: Option<P::Inx>,
    next: Option<P::Inx>,
)
    requires { IfSome (option_map P.Inx.number i)
        (HasLink (link_map (links_view P.Inx.packed_number arena.old))) }
    ensures { SetsNext P.Inx.packed_number P.Inx.number i next arena.old arena.new }
{
    match i {
        Some(i) => match arena.get_inx_mut(i) {
            Some(link) => link_access::set_next(link, next),
            None => proved_unreachable!(),
        },
        None => {}
    }
}

/// Sets the index before `i`; `None` writes nothing.
pub fn set_prev<P: PtrKey, T: Drop, S: SlotStack<Item = ArenaSlot<P, LinkNoGen<P, T>>>>(
    arena: &mut Arena<P, LinkNoGen<P, T>, S>,
    i: Option<P::Inx>,
    prev: Option<P::Inx>,
)
    requires { IfSome (option_map P.Inx.number i)
        (HasLink (link_map (links_view P.Inx.packed_number arena.old))) }
    ensures { SetsPrev P.Inx.packed_number P.Inx.number i prev arena.old arena.new }
{
    match i {
        Some(i) => match arena.get_inx_mut(i) {
            Some(link) => link_access::set_prev(link, prev),
            None => proved_unreachable!(),
        },
        None => {}
    }
}

/// Sets the index after `before`, then the index before `after`.
pub fn write_beside<P: PtrKey, T: Drop, S: SlotStack<Item = ArenaSlot<P, LinkNoGen<P, T>>>>(
    arena: &mut Arena<P, LinkNoGen<P, T>, S>,
    before: Option<P::Inx>,
    next: Option<P::Inx>,
    after: Option<P::Inx>,
    prev: Option<P::Inx>,
)
    requires before { IfSome (option_map P.Inx.number before)
        (HasLink (link_map (links_view P.Inx.packed_number arena.old))) }
    requires after { IfSome (option_map P.Inx.number after)
        (HasLink (link_map (links_view P.Inx.packed_number arena.old))) }
    ensures { SetsBoth P.Inx.packed_number P.Inx.number before next after prev arena.old arena.new }
{
    set_next(arena, before, next);
    set_prev(arena, after, prev);
}

/// Links `next` after `prev`; if either is `None`, only the other is written.
pub fn link_pair<P: PtrKey, T: Drop, S: SlotStack<Item = ArenaSlot<P, LinkNoGen<P, T>>>>(
    arena: &mut Arena<P, LinkNoGen<P, T>, S>,
    prev: Option<P::Inx>,
    next: Option<P::Inx>,
)
    requires prev { IfSome (option_map P.Inx.number prev)
        (HasLink (link_map (links_view P.Inx.packed_number arena.old))) }
    requires next { IfSome (option_map P.Inx.number next)
        (HasLink (link_map (links_view P.Inx.packed_number arena.old))) }
    ensures { LinksPair P.Inx.packed_number P.Inx.number prev next arena.old arena.new }
{
    write_beside(arena, prev, next, next, prev);
}

/// Links two pairs in order.
pub fn link_pairs<P: PtrKey, T: Drop, S: SlotStack<Item = ArenaSlot<P, LinkNoGen<P, T>>>>(
    arena: &mut Arena<P, LinkNoGen<P, T>, S>,
    first: (Option<P::Inx>, Option<P::Inx>),
    second: (Option<P::Inx>, Option<P::Inx>),
)
    requires first_prev { IfSome (option_map P.Inx.number first.0)
        (HasLink (link_map (links_view P.Inx.packed_number arena.old))) }
    requires first_next { IfSome (option_map P.Inx.number first.1)
        (HasLink (link_map (links_view P.Inx.packed_number arena.old))) }
    requires second_prev { IfSome (option_map P.Inx.number second.0)
        (HasLink (link_map (links_view P.Inx.packed_number arena.old))) }
    requires second_next { IfSome (option_map P.Inx.number second.1)
        (HasLink (link_map (links_view P.Inx.packed_number arena.old))) }
    ensures { LinksPairs P.Inx.packed_number P.Inx.number first second arena.old arena.new }
{
    link_pair(arena, first.0, first.1);
    link_pair(arena, second.0, second.1);
}

fn connect_former_neighbors<P: PtrKey, T: Drop, S: SlotStack<Item = ArenaSlot<P, LinkNoGen<P, T>>>>(
    arena: &mut Arena<P, LinkNoGen<P, T>, S>,
    i: P::Inx,
    prev: Option<P::Inx>,
    next: Option<P::Inx>,
)
    requires { WereBeside (link_map (links_view P.Inx.packed_number arena.old)) (P.Inx.number i)
        (option_map P.Inx.number prev) (option_map P.Inx.number next) }
    ensures { LinksPair P.Inx.packed_number P.Inx.number prev next arena.old arena.new }
{
    match prev {
        Some(before) => {
            if !before.is_same(i) {
                link_pair(arena, Some(before), next);
            }
        }
        None => link_pair(arena, None, next),
    }
}

/// Removes the link at `i`, links its former neighbors, and returns its generation and the link.
pub fn remove_link_at<P: PtrKey, T: Drop, S: SlotStack<Item = ArenaSlot<P, LinkNoGen<P, T>>>>(
    arena: &mut Arena<P, LinkNoGen<P, T>, S>,
    i: P::Inx,
) -> InvalidationResult<(P::Gen, LinkNoGen<P, T>)>
    requires { IsWellLinked (link_map (links_view P.Inx.packed_number arena.old)) }
    ensures { TakesLinkAt P.Inx.packed_number P.Gen.wraps P.Gen.following (P.Inx.number i) arena.old
        result arena.new }
{
    let (entry, overflow) = arena.remove_inx(i).overflowing();
    match entry {
        Some((generation, link)) => {
            connect_former_neighbors(arena, i, link.prev(), link.next());
            InvalidationResult::from_overflow(overflow, (generation, link))
        }
        None => InvalidationResult::InvalidPtr,
    }
}
