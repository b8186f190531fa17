ghost use Rattle.chain_linking.specs.Destinations.{ClearsDestination, ClearsDestinations};

use arena_base::{Arena, ArenaSlot, ArenaTrait, inx_at};
use arena_ptr::{PtrKey, SlotStack};
use chain_links::{LinkNoGen, link_access};

fn clear_destination<P: PtrKey, T: Drop, S: SlotStack<Item = ArenaSlot<P, LinkNoGen<P, T>>>>(
    arena: &mut Arena<P, LinkNoGen<P, T>, S>,
    i: P::Inx,
)
    ensures { ClearsDestination P.Inx.packed_number (P.Inx.number i) arena.old arena.new }
{
    match arena.get_inx_mut(i) {
        Some(link) => link_access::set_destination(link, None),
        None => {}
    }
}

/// Removes all destinations, in time linear in the slots, which is not proved.
pub fn clear_destinations<P: PtrKey, T: Drop, S: SlotStack<Item = ArenaSlot<P, LinkNoGen<P, T>>>>(
    arena: &mut Arena<P, LinkNoGen<P, T>, S>,
)
    ensures { ClearsDestinations P.Inx.packed_number arena.old arena.new }
{
    arena.invariants();
    for k in 0..arena.backing().len() {
        clear_destination(arena, inx_at::<P>(k));
    }
}
