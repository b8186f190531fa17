// The canonical compaction of chains.
ghost use Rattle.chain_links.specs.Links.{links_view, IsChainArena};
ghost use Rattle.chain_compaction.specs.Layouts.{AreArranged};

use arena_base::{Arena, ArenaSlot, Work};
use arena_ptr::{InxKey, PtrKey, SlotStack};
use chain_compaction::canonical;
use chain_compaction::visitor::Visitor;
use chain_links::LinkNoGen;

/// Forwards to `chain_compaction::canonical::arrange`, with its clause on the links.
pub fn arrange<
    P: PtrKey,
    T: Drop,
    S: SlotStack<Item = ArenaSlot<P, LinkNoGen<P, T>>>,
    V: Visitor<P>,
>(arena: &mut Arena<P, LinkNoGen<P, T>, S>, visitor: V) -> (V, Work)
    requires ready { V.is_ready visitor }
    requires links { IsChainArena P.Inx.packed_number arena.old }
    ensures arranged { AreArranged V.sees P.key visitor result.0
        (links_view P.Inx.packed_number arena.old) (links_view P.Inx.packed_number arena.new) }
{
    let done = canonical::arrange(arena, visitor);
    done
}
