ghost use Rattle.std.specs.Prelude.{◌↔◌, IsTrue};
ghost use Rattle.chain_laws.specs.Chains.{IsWellLinked};
ghost use Rattle.chain_linking.specs.Agreement.{IsWellLinkedForward, IsWellLinkedBack, IsWellLinkedAt, AreNeighborsAt};
ghost use Rattle.chain_links.specs.ChainArena.{link_map};
ghost use Rattle.chain_links.specs.Links.{links_view};

use arena_base::{Arena, ArenaSlot, ArenaTrait, inx_at};
use arena_ptr::{InxKey, PtrKey, SlotStack};
use chain_links::LinkNoGen;
use chain_links::links::is_index;

fn neighbors_at<P: PtrKey, T: Drop, S: SlotStack<Item = ArenaSlot<P, LinkNoGen<P, T>>>>(
    arena: &Arena<P, LinkNoGen<P, T>, S>,
    i: P::Inx,
) -> (Option<P::Inx>, Option<P::Inx>)
    ensures { AreNeighborsAt P.Inx.number (link_map (links_view P.Inx.packed_number arena.now))
        (P.Inx.number i) result }
{
    match arena.get_inx(i) {
        Some((_, link)) => link.prev_next(),
        None => (None, None),
    }
}

fn next_agrees<P: PtrKey, T: Drop, S: SlotStack<Item = ArenaSlot<P, LinkNoGen<P, T>>>>(
    arena: &Arena<P, LinkNoGen<P, T>, S>,
    i: P::Inx,
) -> bool
    ensures { IsTrue result
        ↔ IsWellLinkedForward (link_map (links_view P.Inx.packed_number arena.now))
        (P.Inx.number i) }
{
    match neighbors_at(arena, i).1 {
        Some(j) => is_index(neighbors_at(arena, j).0, i),
        None => true,
    }
}

fn prev_agrees<P: PtrKey, T: Drop, S: SlotStack<Item = ArenaSlot<P, LinkNoGen<P, T>>>>(
    arena: &Arena<P, LinkNoGen<P, T>, S>,
    i: P::Inx,
) -> bool
    ensures { IsTrue result ↔ IsWellLinkedBack (link_map (links_view P.Inx.packed_number arena.now))
        (P.Inx.number i) }
{
    match neighbors_at(arena, i).0 {
        Some(j) => is_index(neighbors_at(arena, j).1, i),
        None => true,
    }
}

fn agrees_at<P: PtrKey, T: Drop, S: SlotStack<Item = ArenaSlot<P, LinkNoGen<P, T>>>>(
    arena: &Arena<P, LinkNoGen<P, T>, S>,
    i: P::Inx,
) -> bool
    ensures { IsTrue result ↔ IsWellLinkedAt (link_map (links_view P.Inx.packed_number arena.now))
        (P.Inx.number i) }
{
    next_agrees(arena, i) && prev_agrees(arena, i)
}

/// Returns whether j comes after i exactly if i comes before j.
///
/// Linear in the slots, which is not proved. Replaces `_check_interlinks`.
pub fn links_agree<P: PtrKey, T: Drop, S: SlotStack<Item = ArenaSlot<P, LinkNoGen<P, T>>>>(
    arena: &Arena<P, LinkNoGen<P, T>, S>,
) -> bool
    ensures { IsTrue result ↔ IsWellLinked (link_map (links_view P.Inx.packed_number arena.now)) }
{
    arena.invariants();
    for k in 0..arena.backing().len() {
        if !agrees_at(arena, inx_at::<P>(k)) {
            return false;
        }
    }
    true
}
