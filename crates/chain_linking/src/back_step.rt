ghost use Rattle.std.specs.Prelude.{◌≡◌, IfSome, IfNone};
ghost use Rattle.std.specs.Option.{option_map};
ghost use Rattle.chain_laws.specs.Chains.{IsWellLinked};
ghost use Rattle.chain_laws.specs.WalksBack.{step_to};
ghost use Rattle.arena_traits.specs.Arena.{IsValid};
ghost use Rattle.chain_links.specs.ChainArena.{entry, link_map};
ghost use Rattle.chain_links.specs.Links.{links_view};
ghost use Rattle.chain_links.specs.Walkers.{end_in};
ghost use Rattle.chain_linking.specs.BackSteps.{PassesBack, PassesNoneBack};

use crate::back_iterator::end_of_chain;
use crate::walk_step::lookup;
use arena_base::{Arena, ArenaSlot};
use arena_ptr::{PtrKey, SlotStack};
use chain_links::LinkNoGen;
use chain_links::walk_direction::step_on;

fn last_of<P: PtrKey, T: Drop, S: SlotStack<Item = ArenaSlot<P, LinkNoGen<P, T>>>>(
    arena: &Arena<P, LinkNoGen<P, T>, S>,
    start: P::Inx,
) -> P::Inx
    requires { IsWellLinked (link_map (links_view P.Inx.packed_number arena.now)) }
    ensures { P.Inx.number result ≡ end_in (links_view P.Inx.packed_number arena.now)
        (P.Inx.number start) }
{
    match lookup(arena, start) {
        Some(_) => end_of_chain(arena, start),
        None => start,
    }
}

fn onward<P: PtrKey, T: Drop, S: SlotStack<Item = ArenaSlot<P, LinkNoGen<P, T>>>>(
    arena: &Arena<P, LinkNoGen<P, T>, S>,
    start: P::Inx,
    prev: Option<P::Inx>,
) -> Option<P::Inx>
    requires { IsWellLinked (link_map (links_view P.Inx.packed_number arena.now)) }
    ensures { option_map P.Inx.number result ≡ step_to (P.Inx.number start)
        (end_in (links_view P.Inx.packed_number arena.now) (P.Inx.number start))
        (option_map P.Inx.number prev) }
{
    match prev {
        Some(k) => step_on(start, Some(k)),
        None => step_on(start, Some(last_of(arena, start))),
    }
}

/// Returns the next pointer of a walk backwards, and where it goes then, or `None`.
pub fn step_backwards<P: PtrKey, T: Drop, S: SlotStack<Item = ArenaSlot<P, LinkNoGen<P, T>>>>(
    arena: &Arena<P, LinkNoGen<P, T>, S>,
    start: P::Inx,
    at: Option<P::Inx>,
) -> Option<(P, Option<P::Inx>)>
    requires { IsWellLinked (link_map (links_view P.Inx.packed_number arena.now)) }
    ensures valid { IfSome result (λ s. IsValid (entry (links_view P.Inx.packed_number arena.now))
        (P.key s.0)) }
    ensures some { IfSome result
        (λ s. PassesBack P.Inx.number (links_view P.Inx.packed_number arena.now) start at
        (P.key s.0).0 s.1) }
    ensures none { IfNone result
        (PassesNoneBack P.Inx.number (links_view P.Inx.packed_number arena.now) start at) }
{
    match at {
        Some(i) => match lookup(arena, i) {
            Some((p, link)) => Some((p, onward(arena, start, link.prev()))),
            None => None,
        },
        None => None,
    }
}
