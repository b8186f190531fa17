ghost use Rattle.std.specs.Prelude.{◌≡◌, ◌&&◌, IsSome, None, Some, is_none, is_some};
ghost use Rattle.std.specs.Option.{option_map};
ghost use Rattle.arena_traits.specs.Arena.{slot_at};
ghost use Rattle.chain_compaction.specs.SlotReads.{HasTouchedSlot, HasReadLink};
ghost use Rattle.chain_compaction.specs.Destinations.{IsDirectedAt, IsRelinkedAt};

use arena_base::{ArenaSlot, Compactor, SlotAccess, proved_unreachable};
use arena_ptr::{InxKey, PtrKey, SlotStack};
use chain_links::{LinkNoGen, link_access};

pub(crate) type LinkSlot<P, T> = ArenaSlot<P, LinkNoGen<P, T>>;

// A link without its value.
#[derive(Drop)]
pub(crate) struct LinkRead<P: PtrKey> {
    pub(crate) generation: Option<P::Gen>,
    pub(crate) prev: Option<P::Inx>,
    pub(crate) next: Option<P::Inx>,
    pub(crate) destination: Option<P::Inx>,
}

impl<P: PtrKey> LinkRead<P> {
    pub(crate) fn is_fresh(&self) -> bool
        ensures { result ≡ (is_some self.now.generation && is_none self.now.destination) }
    {
        self.generation.is_some() && self.destination.is_none()
    }
}

pub(crate) fn read_link<P: PtrKey, T: Drop, S: SlotStack<Item = LinkSlot<P, T>>>(
    compactor: &mut Compactor<'_, P, LinkNoGen<P, T>, S>,
    i: P::Inx,
) -> LinkRead<P>
    ensures { HasReadLink P.Inx.number P.Inx.packed_number compactor.old compactor.new i
        result.generation result.prev result.next result.destination }
{
    match compactor.peek(i) {
        Some((was, link)) => LinkRead {
            generation: Some(*was),
            prev: link.prev(),
            next: link.next(),
            destination: link_access::destination_of(link),
        },
        None => LinkRead {
            generation: None,
            prev: None,
            next: None,
            destination: None,
        },
    }
}

#[inline(always)]
pub(crate) fn remove_destination_at<P: PtrKey, T: Drop, S: SlotStack<Item = LinkSlot<P, T>>>(
    compactor: &mut Compactor<'_, P, LinkNoGen<P, T>, S>,
    i: P::Inx,
)
    requires { IsSome (slot_at compactor.old.detached.slots (P.Inx.number i)) }
    ensures directed { IsDirectedAt P.Inx.packed_number (P.Inx.number i) None
        compactor.old.detached compactor.new.detached }
    ensures touched { HasTouchedSlot compactor.old compactor.new }
{
    match compactor.value_mut(i) {
        Some(link) => link_access::set_destination(link, None),
        None => proved_unreachable!(),
    }
}

pub(crate) fn relink_at<P: PtrKey, T: Drop, S: SlotStack<Item = LinkSlot<P, T>>>(
    compactor: &mut Compactor<'_, P, LinkNoGen<P, T>, S>,
    i: P::Inx,
    prev: Option<P::Inx>,
    next: Option<P::Inx>,
    destination: P::Inx,
)
    ensures relinked { IsRelinkedAt P.Inx.packed_number (P.Inx.number i)
        (option_map P.Inx.number prev)
        (option_map P.Inx.number next) (Some (P.Inx.number destination))
        compactor.old.detached compactor.new.detached }
    ensures touched { HasTouchedSlot compactor.old compactor.new }
{
    match compactor.value_mut(i) {
        Some(link) => {
            link_access::set_prev(link, prev);
            link_access::set_next(link, next);
            link_access::set_destination(link, Some(destination));
        }
        None => {}
    }
}
