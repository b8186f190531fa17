// Functions that read and write interlinks.
ghost use Rattle.std.specs.Prelude.{◌≡◌, ◌↔◌, IsSome, IfSome};
ghost use Rattle.std.specs.Option.{option_map};
ghost use Rattle.chain_laws.specs.Chains.{HasLink};
ghost use Rattle.chain_links.specs.ChainArena.{entry, link_map, CanConnect};
ghost use Rattle.chain_links.specs.Links.{links_view};
ghost use Rattle.chain_linking.specs.LinkWrites.{arena_with_pair};

use arena_base::{Arena, ArenaSlot};
use arena_ptr::{InxKey, PtrKey, SlotStack};
use chain_linking::{connection, link_writes};
use chain_links::LinkNoGen;

/// Forwards to `chain_linking::link_writes::link_pair`.
pub fn link_pair<P: PtrKey, T: Drop, S: SlotStack<Item = ArenaSlot<P, LinkNoGen<P, T>>>>(
    arena: &mut Arena<P, LinkNoGen<P, T>, S>,
    prev: Option<P::Inx>,
    next: Option<P::Inx>,
)
    requires prev { IfSome (option_map P.Inx.number prev)
        (HasLink (link_map (links_view P.Inx.packed_number arena.old))) }
    requires next { IfSome (option_map P.Inx.number next)
        (HasLink (link_map (links_view P.Inx.packed_number arena.old))) }
    ensures { links_view P.Inx.packed_number arena.new ≡ arena_with_pair
        (links_view P.Inx.packed_number arena.old) (option_map P.Inx.number prev)
        (option_map P.Inx.number next) }
{
    link_writes::link_pair(arena, prev, next);
}

/// Forwards to `chain_linking::connection::join`, which is what `connect` does, under its clause on
/// when it returns `Some`.
pub fn join<P: PtrKey, T: Drop, S: SlotStack<Item = ArenaSlot<P, LinkNoGen<P, T>>>>(
    arena: &mut Arena<P, LinkNoGen<P, T>, S>,
    p: P,
    q: P,
) -> Option<()>
    ensures { IsSome result ↔ CanConnect (entry (links_view P.Inx.packed_number arena.old))
        (link_map (links_view P.Inx.packed_number arena.old)) (P.key p) (P.key q) }
{
    connection::join(arena, p, q)
}
