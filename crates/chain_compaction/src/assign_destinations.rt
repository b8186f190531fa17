ghost use Rattle.std.specs.Prelude.{◌≡◌, ◌<◌, ◌↔◌, ◌⊎◌, IsSome, IfSome, Some, IsTrue};
ghost use Rattle.std.specs.Option.{option_map};
ghost use Rattle.chain_laws.specs.ChainStart.{IsStart};
ghost use Rattle.chain_compaction.specs.DetachedLinks.{link_map_in, IsWork};
ghost use Rattle.chain_compaction.specs.WorkCounts.{CountsWork};
ghost use Rattle.chain_compaction.specs.Destinations.{HasChainFrom, number_after, IsRingClosed, FindsStart, CanNumberFrom, NumbersChain, NumbersAll};
ghost use Rattle.chain_compaction.specs.LinkPasses.{CanArrange};

use crate::read_ahead::{ReadAhead, prefetch_next, read_ahead};
use crate::slot_access::{LinkSlot, read_link, relink_at};
use crate::visitor::Visitor;
use arena_base::{Compactor, SlotAccess, assume_proved, inx_at, proved_unreachable};
use arena_ptr::{InxKey, PtrKey, SlotStack};
use chain_links::walk_direction::step_on;
use chain_links::{LinkNoGen, link_access};

fn is_at<I: InxKey>(on: Option<I>, k: I) -> bool
    ensures { IsTrue result ↔ (option_map I.number on ≡ Some (I.number k)) }
{
    match on {
        Some(on) => on.is_same(k),
        None => false,
    }
}

fn is_one_of<I: InxKey>(k: I, start: I, on: Option<I>, next: Option<I>) -> bool
    ensures { IsTrue result ↔ ((I.number k ≡ I.number start)
        ⊎ ((option_map I.number on ≡ Some (I.number k))
        ⊎ (option_map I.number next ≡ Some (I.number k)))) }
{
    k.is_same(start) || is_at(on, k) || is_at(next, k)
}

// Returns the start of the chain of `i` if linear, else `i`, and the reads onward, at most `limit`.
// Walks both ways overlap their waits; they meet only in a cyclic chain.
fn start_at<P: PtrKey, T: Drop, S: SlotStack<Item = LinkSlot<P, T>>>(
    compactor: &mut Compactor<'_, P, LinkNoGen<P, T>, S>,
    i: P::Inx,
    limit: usize,
) -> (P::Inx, usize)
    requires chain { HasChainFrom (link_map_in P.Inx.packed_number compactor.old.detached.slots)
        (P.Inx.number i) }
    ensures { FindsStart P.Inx.packed_number compactor.old compactor.new (P.Inx.number i)
        (P.Inx.number result.0) limit result.1 }
{
    let mut at = i;
    let mut on = Some(i);
    let mut reads = 0;
    for step in 0..compactor.slots() {
        let k = match read_link(compactor, at).prev {
            Some(k) => k,
            None => return (at, reads),
        };
        let (next, count) = prefetch_next(compactor, on, limit - reads);
        reads += count;
        if is_one_of(k, i, on, next) {
            return (i, reads);
        }
        at = k;
        on = next;
    }
    proved_unreachable!()
}

#[inline(always)]
fn start_from<P: PtrKey, T: Drop, S: SlotStack<Item = LinkSlot<P, T>>>(
    compactor: &mut Compactor<'_, P, LinkNoGen<P, T>, S>,
    i: P::Inx,
    known: Option<P::Inx>,
    limit: usize,
) -> (P::Inx, usize)
    requires chain { HasChainFrom (link_map_in P.Inx.packed_number compactor.old.detached.slots)
        (P.Inx.number i) }
    requires known { IfSome known
        (λ start. IsStart (link_map_in P.Inx.packed_number compactor.old.detached.slots)
        (P.Inx.number i) (P.Inx.number start)) }
    ensures { FindsStart P.Inx.packed_number compactor.old compactor.new (P.Inx.number i)
        (P.Inx.number result.0) limit result.1 }
{
    match known {
        Some(start) => (start, 0),
        None => start_at(compactor, i, limit),
    }
}

fn next_destination<P: PtrKey>(
    on: Option<P::Inx>,
    named: Option<P::Inx>,
    before: usize,
    count: usize,
) -> Option<P::Inx>
    requires first { before < P.Inx.greatest }
    requires next { IsSome on → count < P.Inx.greatest }
    ensures { option_map P.Inx.number result ≡ number_after (option_map P.Inx.number on)
        (option_map P.Inx.number named) before count }
{
    match (on, named) {
        (Some(_), _) => Some(inx_at::<P>(count)),
        (None, Some(_)) => Some(inx_at::<P>(before)),
        (None, None) => None,
    }
}

fn close_ring<P: PtrKey, T: Drop, S: SlotStack<Item = LinkSlot<P, T>>>(
    compactor: &mut Compactor<'_, P, LinkNoGen<P, T>, S>,
    start: P::Inx,
    named: Option<P::Inx>,
    last: Option<P::Inx>,
)
    ensures closed { IsRingClosed P.Inx.packed_number (P.Inx.number start)
        (option_map P.Inx.number named) (option_map P.Inx.number last) compactor.old.detached
        compactor.new.detached }
    ensures work { IsWork compactor.old.arena.now compactor.new.arena.now 0 1 }
    ensures counts { CountsWork compactor.old compactor.new }
{
    match named {
        Some(_) => {}
        None => return,
    }
    match compactor.value_mut(start) {
        Some(link) => link_access::set_prev(link, last),
        None => {}
    }
}

fn number_chain<P: PtrKey, T: Drop, S: SlotStack<Item = LinkSlot<P, T>>, V: Visitor<P>>(
    compactor: &mut Compactor<'_, P, LinkNoGen<P, T>, S>,
    start: P::Inx,
    before: usize,
    generation: P::Gen,
    mut visitor: V,
) -> (V, usize)
    requires ready { V.is_ready visitor }
    requires chain { CanNumberFrom P.Inx.packed_number P.Inx.greatest compactor.old
        (P.Inx.number start) before }
    ensures ready { V.is_ready result.0 }
    ensures chain { NumbersChain P.Inx.packed_number V.sees P.key generation
        (P.Inx.number start) visitor result.0 compactor.old compactor.new before result.1 }
{
    let mut count = before;
    let mut prev = None;
    let mut named = Some(start);
    let mut on = Some(start);
    while let Some(i) = on {
        let destination = inx_at::<P>(count);
        count += 1;
        let link = read_link(compactor, i);
        named = link.next;
        on = step_on(start, named);
        let after = next_destination::<P>(on, named, before, count);
        relink_at(compactor, i, prev, after, destination);
        prev = Some(destination);
        match link.generation {
            Some(was) => visitor.visit(P::_from_raw(i, was), P::_from_raw(destination, generation)),
            None => proved_unreachable!(),
        }
    }
    close_ring(compactor, start, named, prev);
    (visitor, count)
}

/// Gives each of the `links` links its destination; returns the visitor and their number.
pub fn number_all<P: PtrKey, T: Drop, S: SlotStack<Item = LinkSlot<P, T>>, V: Visitor<P>>(
    compactor: &mut Compactor<'_, P, LinkNoGen<P, T>, S>,
    links: usize,
    generation: P::Gen,
    mut visitor: V,
) -> (V, usize)
    requires ready { V.is_ready visitor }
    requires can { CanArrange P.Inx.packed_number P.Inx.greatest compactor.old links }
    ensures ready { V.is_ready result.0 }
    ensures links { NumbersAll P.Inx.packed_number V.sees P.key generation visitor result.0
        compactor.old compactor.new result.1 }
{
    let mut count = 0;
    let mut ahead = ReadAhead::new(compactor.slots());
    for k in 0..compactor.slots() {
        if count == links {
            return (visitor, count);
        }
        assume_proved(k < compactor.slots());
        let i = inx_at::<P>(k);
        let link = read_link(compactor, i);
        if !link.is_fresh() {
            continue;
        }
        read_ahead(compactor, k, link.prev, link.next, &mut ahead);
        let known = ahead.start_of::<P::Inx>(k);
        let (start, reads) = start_from(compactor, i, known, ahead.credit);
        let (visited, numbered) = number_chain(compactor, start, count, generation, visitor);
        visitor = visited;
        ahead.credit = (ahead.credit - reads).saturating_add(numbered.saturating_sub(count));
        count = numbered;
    }
    (visitor, count)
}
