ghost use Rattle.std.specs.Prelude.{◌≡◌};
ghost use Rattle.std.specs.Option.{option_map};
ghost use Rattle.chain_laws.specs.Chains.{IsWellLinked};
ghost use Rattle.chain_laws.specs.Moves.{moved_index};
ghost use Rattle.chain_links.specs.ChainArena.{link_map};
ghost use Rattle.chain_links.specs.Links.{links_view, StayAtRest};
ghost use Rattle.chain_compaction.specs.CompressionSteps.{SetsNeighbor, CanBring, MovesLink, CompactsLinks};
ghost use Rattle.chain_compaction.specs.LinkCompressions.{AreGathered};
ghost use Rattle.chain_compaction.specs.LinkPasses.{AreSoundLinks};

use crate::slot_access::{LinkSlot, read_link};
use arena_base::{Arena, Compactor, SlotAccess, inx_at, proved_unreachable};
use arena_ptr::{InxKey, PtrKey, SlotStack};
use chain_links::{LinkNoGen, link_access};

fn index_now<I: InxKey>(named: Option<I>, from: I, to: I) -> Option<I>
    ensures { option_map I.number result ≡ option_map (moved_index (I.number from) (I.number to))
        (option_map I.number named) }
{
    match named {
        Some(k) => if k.is_same(from) { Some(to) } else { Some(k) },
        None => None,
    }
}

fn set_neighbor<P: PtrKey, T: Drop, S: SlotStack<Item = LinkSlot<P, T>>>(
    compactor: &mut Compactor<'_, P, LinkNoGen<P, T>, S>,
    i: Option<P::Inx>,
    before: bool,
    named: P::Inx,
)
    ensures { SetsNeighbor P.Inx.packed_number before (option_map P.Inx.number i)
        (P.Inx.number named) compactor.old compactor.new }
{
    match i {
        Some(i) => match compactor.value_mut(i) {
            Some(link) => if before {
                link_access::set_prev(link, Some(named));
            } else {
                link_access::set_next(link, Some(named));
            },
            None => {}
        },
        None => {}
    }
}

// Moves the link at `from`, if any, to `to`, and returns its old generation.
fn move_link<P: PtrKey, T: Drop, S: SlotStack<Item = LinkSlot<P, T>>>(
    compactor: &mut Compactor<'_, P, LinkNoGen<P, T>, S>,
    from: P::Inx,
    to: P::Inx,
    generation: P::Gen,
) -> Option<P::Gen>
    requires { CanBring (P.Inx.number from) (P.Inx.number to) compactor.old }
    ensures { MovesLink P.Inx.packed_number (P.Inx.number from) (P.Inx.number to) generation
        compactor.old compactor.new result }
{
    let link = read_link(compactor, from);
    let was = match link.generation {
        Some(was) => was,
        None => return None,
    };
    compactor.move_to_free_slot(from, to, generation);
    set_neighbor(compactor, index_now(link.prev, from, to), false, to);
    set_neighbor(compactor, index_now(link.next, from, to), true, to);
    Some(was)
}

fn compact_links<
    P: PtrKey,
    T: Drop,
    S: SlotStack<Item = LinkSlot<P, T>>,
    F: FnMut(P, &mut T, P) + Drop,
>(compactor: &mut Compactor<'_, P, LinkNoGen<P, T>, S>, generation: P::Gen, mut map: F) -> usize
    requires callable { F.IsAlwaysCallable map }
    requires sound { AreSoundLinks P.Inx.packed_number P.Inx.greatest compactor.old }
    ensures { CompactsLinks P.Inx.packed_number F.FnMut P.key generation map compactor.old
        compactor.new result }
{
    let mut count = 0;
    for k in 0..compactor.slots() {
        let from = inx_at::<P>(k);
        let to = inx_at::<P>(count);
        let was = match move_link(compactor, from, to, generation) {
            Some(was) => was,
            None => continue,
        };
        count += 1;
        match compactor.value_mut(to) {
            Some(link) => map(
                P::_from_raw(from, was),
                &mut link.t,
                P::_from_raw(to, generation),
            ),
            None => proved_unreachable!(),
        }
    }
    count
}

/// Moves the links to the front by index, sets their generation, and passes each old pointer, value
/// and new pointer to the closure.
pub fn gather<
    P: PtrKey,
    T: Drop,
    S: SlotStack<Item = LinkSlot<P, T>>,
    F: FnMut(P, &mut T, P) + Drop,
>(arena: &mut Arena<P, LinkNoGen<P, T>, S>, map: F)
    requires callable { F.IsAlwaysCallable map }
    requires agree { IsWellLinked (link_map (links_view P.Inx.packed_number arena.old)) }
    ensures gathered { AreGathered F.FnMut P.key map (links_view P.Inx.packed_number arena.old)
        (links_view P.Inx.packed_number arena.new) }
    ensures at_rest { StayAtRest P.Inx.packed_number arena.old.slots arena.new.slots }
{
    arena.invariants();
    let generation = arena.generation();
    let mut compactor = arena.compactor();
    let count = compact_links(&mut compactor, generation, map);
    compactor.finish_packed(count);
}
