ghost use Rattle.std.specs.Prelude.{◌≡◌, IfSome, IfNone};
ghost use Rattle.std.specs.Option.{option_map};
ghost use Rattle.arena_traits.specs.Arena.{entry_at, IsValid};
ghost use Rattle.chain_links.specs.ChainArena.{entry};
ghost use Rattle.chain_links.specs.Links.{links_view};
ghost use Rattle.chain_links.specs.Walkers.{item_view, index_and_entry};
ghost use Rattle.chain_linking.specs.WalkSteps.{Passes, PassesNothing};

use arena_base::{Arena, ArenaSlot, ArenaTrait};
use arena_ptr::{PtrKey, SlotStack};
use chain_links::LinkNoGen;
use chain_links::walk_direction::step_both;

/// Returns the pointer and the link at an index, if any.
pub fn lookup<P: PtrKey, T: Drop, S: SlotStack<Item = ArenaSlot<P, LinkNoGen<P, T>>>>(
    arena: &Arena<P, LinkNoGen<P, T>, S>,
    i: P::Inx,
) -> Option<(P, &LinkNoGen<P, T>)>
    ensures link { option_map (item_view P.key P.Inx.packed_number) result ≡ option_map
        (index_and_entry (P.Inx.number i)) (entry_at (links_view P.Inx.packed_number arena.now)
        (P.Inx.number i)) }
    ensures valid { IfSome result
        (λ item. IsValid (entry (links_view P.Inx.packed_number arena.now)) (P.key item.0)) }
{
    match arena.get_inx(i) {
        Some((generation, link)) => Some((P::_from_raw(i, generation), link)),
        None => None,
    }
}

/// Returns the next pointer of a walk, and where it goes then, or `None`.
pub fn step<P: PtrKey, T: Drop, S: SlotStack<Item = ArenaSlot<P, LinkNoGen<P, T>>>>(
    arena: &Arena<P, LinkNoGen<P, T>, S>,
    start: P::Inx,
    forward: Option<P::Inx>,
    back: Option<P::Inx>,
) -> Option<(P, Option<P::Inx>, Option<P::Inx>)>
    ensures valid { IfSome result (λ s. IsValid (entry (links_view P.Inx.packed_number arena.now))
        (P.key s.0)) }
    ensures some { IfSome result
        (λ s. Passes P.Inx.number (links_view P.Inx.packed_number arena.now) start forward back
        (P.key s.0).0 s.1 s.2) }
    ensures none { IfNone result
        (PassesNothing P.Inx.number (links_view P.Inx.packed_number arena.now) start forward back) }
{
    match forward {
        Some(i) => match lookup(arena, i) {
            Some((p, link)) => {
                let (forward, back) = step_both(start, link.next(), back);
                Some((p, forward, back))
            }
            None => None,
        },
        None => match back {
            Some(i) => match lookup(arena, i) {
                Some((p, link)) => Some((p, None, link.prev())),
                None => None,
            },
            None => None,
        },
    }
}
