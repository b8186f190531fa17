ghost use Rattle.std.specs.Prelude.{◌≡◌, ◌≤◌, ◌<◌, ◌+◌, length, is_some, IfSome, if◌then◌else◌};
ghost use Rattle.std.specs.Bool.{OnTrue};
ghost use Rattle.std.specs.Option.{option_map};
ghost use Rattle.chain_compaction.specs.LinkPasses.{AreSoundLinks, AreInOrder, CanRenew};
ghost use Rattle.chain_compaction.specs.OrderedLinks.{IsStartAfter, PlacesLinks};
ghost use Rattle.chain_compaction.specs.SlotReads.{HasReadSlots};

use crate::slot_access::{LinkSlot, read_link};
use crate::visitor::Visitor;
use arena_base::{Compactor, SlotAccess, inx_at, position_of, proved_unreachable};
use arena_ptr::{InxKey, PtrKey, SlotStack};
use chain_links::LinkNoGen;

fn is_cyclic_at<I: Copy>(start: usize, is_cyclic: bool, k: usize, prev: Option<I>) -> bool
    ensures first { k ≡ start → result ≡ is_some prev }
    ensures later { start < k → result ≡ is_cyclic }
{
    if k == start {
        prev.is_some()
    } else {
        is_cyclic
    }
}

// Returns the start of the run at `k + 1`; `None` if `k` is out of order.
fn start_after<P: PtrKey>(
    start: usize,
    is_cyclic: bool,
    k: usize,
    next: Option<P::Inx>,
) -> Option<usize>
    requires start { start ≤ k }
    requires fits { k < P.Inx.greatest }
    ensures { IfSome result (IsStartAfter start is_cyclic k (option_map P.Inx.number next)) }
{
    match next {
        Some(i) if position_of::<P>(i) == k + 1 => Some(start),
        Some(i) if is_cyclic && position_of::<P>(i) == start => Some(k + 1),
        None if !is_cyclic => Some(k + 1),
        _ => None,
    }
}

/// Returns whether all slots hold links in canonical order.
pub(crate) fn is_in_order<P: PtrKey, T: Drop, S: SlotStack<Item = LinkSlot<P, T>>>(
    compactor: &mut Compactor<'_, P, LinkNoGen<P, T>, S>,
    links: usize,
) -> bool
    requires { AreSoundLinks P.Inx.packed_number P.Inx.greatest compactor.old }
    ensures read { HasReadSlots compactor.old compactor.new links }
    ensures unread { links < length compactor.old.detached.slots → compactor.new ≡ compactor.old }
    ensures canonical { OnTrue result (AreInOrder P.Inx.packed_number compactor.old) }
{
    let slots = compactor.slots();
    if links != slots {
        return false;
    }
    let mut start = 0;
    let mut is_cyclic = false;
    for k in 0..slots {
        let link = read_link(compactor, inx_at::<P>(k));
        match link.generation {
            Some(_) => {}
            None => return false,
        }
        is_cyclic = is_cyclic_at(start, is_cyclic, k, link.prev);
        match start_after::<P>(start, is_cyclic, k, link.next) {
            Some(after) => start = after,
            None => return false,
        }
    }
    start == slots
}

/// Sets each link's generation in place; returns the visitor and their number.
pub(crate) fn regenerate_all<
    P: PtrKey,
    T: Drop,
    S: SlotStack<Item = LinkSlot<P, T>>,
    V: Visitor<P>,
>(
    compactor: &mut Compactor<'_, P, LinkNoGen<P, T>, S>,
    generation: P::Gen,
    mut visitor: V,
) -> (V, usize)
    requires ready { V.is_ready visitor }
    requires can { CanRenew P.Inx.packed_number P.Inx.greatest compactor.old }
    ensures ready { V.is_ready result.0 }
    ensures links { PlacesLinks P.Inx.packed_number V.sees P.key generation visitor result.0
        compactor.old compactor.new result.1 1 }
{
    let slots = compactor.slots();
    for k in 0..slots {
        let i = inx_at::<P>(k);
        match read_link(compactor, i).generation {
            Some(was) => {
                compactor.place(i, i, generation);
                visitor.visit(P::_from_raw(i, was), P::_from_raw(i, generation));
            }
            None => proved_unreachable!(),
        }
    }
    (visitor, slots)
}
