ghost use Rattle.std.specs.Prelude.{◌≡◌, ◌+◌};
ghost use Rattle.chain_links.specs.Links.{links_view, AreAtRest, IsChainArena};
ghost use Rattle.chain_compaction.specs.Layouts.{AreArranged};
ghost use Rattle.chain_compaction.specs.LinkPasses.{CanArrange};
ghost use Rattle.chain_compaction.specs.OrderedLinks.{PlacesLinks};

use crate::assign_destinations::number_all;
use crate::in_order::{is_in_order, regenerate_all};
use crate::permute::move_all;
use crate::slot_access::LinkSlot;
use crate::visitor::Visitor;
use arena_base::{Arena, ArenaTrait, Compactor, Work};
use arena_ptr::{PtrKey, SlotStack};
use chain_links::LinkNoGen;

fn place_all<P: PtrKey, T: Drop, S: SlotStack<Item = LinkSlot<P, T>>, V: Visitor<P>>(
    compactor: &mut Compactor<'_, P, LinkNoGen<P, T>, S>,
    links: usize,
    generation: P::Gen,
    visitor: V,
) -> (V, usize)
    requires ready { V.is_ready visitor }
    requires can { CanArrange P.Inx.packed_number P.Inx.greatest compactor.old links }
    ensures ready { V.is_ready result.0 }
    ensures links { PlacesLinks P.Inx.packed_number V.sees P.key generation visitor result.0
        compactor.old compactor.new result.1 10 }
{
    if is_in_order(compactor, links) {
        regenerate_all(compactor, generation, visitor)
    } else {
        let (visitor, count) = number_all(compactor, links, generation, visitor);
        move_all(compactor, links, generation);
        (visitor, count)
    }
}

/// Arranges the `links` links canonically, with the counter as generation; returns the visitor and
/// the work.
pub fn arrange<P: PtrKey, T: Drop, S: SlotStack<Item = LinkSlot<P, T>>, V: Visitor<P>>(
    arena: &mut Arena<P, LinkNoGen<P, T>, S>,
    visitor: V,
) -> (V, Work)
    requires ready { V.is_ready visitor }
    requires links { IsChainArena P.Inx.packed_number arena.old }
    ensures ready { V.is_ready result.0 }
    ensures arranged { AreArranged V.sees P.key visitor result.0
        (links_view P.Inx.packed_number arena.old) (links_view P.Inx.packed_number arena.new) }
    ensures at_rest { AreAtRest P.Inx.packed_number arena.new.slots }
    ensures placed { arena.new.placed ≡ arena.old.placed + result.1.placed }
    ensures touched { arena.new.touched ≡ arena.old.touched + result.1.touched }
{
    let generation = arena.generation();
    let links = arena.len();
    let mut compactor = arena.compactor();
    let (visitor, count) = place_all(&mut compactor, links, generation, visitor);
    (visitor, compactor.finish_packed(count))
}
