ghost use Rattle.std.specs.Prelude.{◌≡◌};
ghost use Rattle.std.specs.Option.{option_map};
ghost use Rattle.chain_laws.specs.Chains.{IsWellLinked, HasLink, prev_of};
ghost use Rattle.chain_links.specs.ChainArena.{link_map};
ghost use Rattle.chain_links.specs.Links.{links_view};
ghost use Rattle.chain_linking.specs.ChainReversals.{TurnsLink, TurnsWalk};

use arena_base::{Arena, ArenaSlot, ArenaTrait, proved_unreachable};
use arena_ptr::{InxKey, PtrKey, SlotStack};
use chain_links::{LinkNoGen, link_access};

fn turn<P: PtrKey, T: Drop, S: SlotStack<Item = ArenaSlot<P, LinkNoGen<P, T>>>>(
    arena: &mut Arena<P, LinkNoGen<P, T>, S>,
    i: P::Inx,
) -> (Option<P::Inx>, Option<P::Inx>)
    requires { HasLink (link_map (links_view P.Inx.packed_number arena.old)) (P.Inx.number i) }
    ensures { TurnsLink P.Inx.packed_number P.Inx.number (P.Inx.number i) arena.old result
        arena.new }
{
    match arena.get_inx_mut(i) {
        Some(link) => link_access::turn(link),
        None => proved_unreachable!(),
    }
}

/// Reverses the chain of `start`, whose previous link is `back`, if any.
pub fn turn_walk<P: PtrKey, T: Drop, S: SlotStack<Item = ArenaSlot<P, LinkNoGen<P, T>>>>(
    arena: &mut Arena<P, LinkNoGen<P, T>, S>,
    start: P::Inx,
    back: Option<P::Inx>,
)
    requires agrees { IsWellLinked (link_map (links_view P.Inx.packed_number arena.old)) }
    requires start { HasLink (link_map (links_view P.Inx.packed_number arena.old))
        (P.Inx.number start) }
    requires back { option_map P.Inx.number back
        ≡ prev_of (link_map (links_view P.Inx.packed_number arena.old)) (P.Inx.number start) }
    ensures { TurnsWalk P.Inx.packed_number (P.Inx.number start) arena.old arena.new }
{
    let mut at = start;
    loop {
        match turn(arena, at).1 {
            Some(k) => {
                if k.is_same(start) {
                    return;
                }
                at = k;
            }
            None => break,
        }
    }
    let mut back = back;
    while let Some(i) = back {
        back = turn(arena, i).0;
    }
}
