ghost use Rattle.arena_traits.specs.Arena.{slot_at};
ghost use Rattle.chain_compaction.specs.BlockMoves.{CanSettle, CanSettleBlock, CanMoveLinks, SettlesAt, SettlesListed, SettlesBlock, MovesLinks};
ghost use Rattle.chain_compaction.specs.Permutations.{ListsWaiting};
ghost use Rattle.chain_links.specs.Links.{destination_of};

use crate::read_ahead::read_destinations;
use crate::slot_access::{LinkSlot, read_link, remove_destination_at};
use arena_base::{Compactor, assume_proved, inx_at};
use arena_ptr::{InxKey, PtrKey, SlotStack};
use chain_links::LinkNoGen;

// The destination is removed last, since a write first would delay the reads.
#[inline(always)]
fn move_to_destination<P: PtrKey, T: Drop, S: SlotStack<Item = LinkSlot<P, T>>>(
    compactor: &mut Compactor<'_, P, LinkNoGen<P, T>, S>,
    i: P::Inx,
    generation: P::Gen,
    unplaced: &mut usize,
) -> bool
    requires { CanSettle P.Inx.packed_number compactor.old unplaced.old }
    ensures { SettlesAt P.Inx.packed_number generation (P.Inx.number i) compactor.old compactor.new
        unplaced.new result }
{
    match read_link(compactor, i).destination {
        Some(to) => {
            compactor.place(i, to, generation);
            remove_destination_at(compactor, to);
            *unplaced -= 1;
            !to.is_same(i)
        }
        None => false,
    }
}

// Returns the positions where a link may still wait, and their number.
#[inline(always)]
fn move_block_once<P: PtrKey, T: Drop, S: SlotStack<Item = LinkSlot<P, T>>>(
    compactor: &mut Compactor<'_, P, LinkNoGen<P, T>, S>,
    start: usize,
    count: usize,
    generation: P::Gen,
    unplaced: &mut usize,
) -> ([usize; 64], usize)
    requires { CanSettleBlock P.Inx.packed_number P.Inx.greatest start count compactor.old
        unplaced.old }
    ensures { SettlesListed P.Inx.packed_number generation start count compactor.old compactor.new
        unplaced.new count result.0 result.1 }
{
    let mut positions = [0; 64];
    let mut left = 0;
    for k in 0..count {
        let position = start + k;
        assume_proved(position < compactor.slots());
        if move_to_destination(compactor, inx_at::<P>(position), generation, unplaced) {
            positions[left] = position;
            left += 1;
        }
    }
    (positions, left)
}

// Keeps the positions where a link still waits; returns their number.
#[inline(always)]
fn move_waiting<P: PtrKey, T: Drop, S: SlotStack<Item = LinkSlot<P, T>>>(
    compactor: &mut Compactor<'_, P, LinkNoGen<P, T>, S>,
    positions: &mut [usize; 64],
    start: usize,
    count: usize,
    left: usize,
    generation: P::Gen,
    unplaced: &mut usize,
) -> usize
    requires can { CanSettleBlock P.Inx.packed_number P.Inx.greatest start count compactor.old
        unplaced.old }
    requires lists { ListsWaiting (destination_of P.Inx.packed_number) start count positions.old
        left (slot_at compactor.old.detached.slots) }
    ensures { SettlesListed P.Inx.packed_number generation start count compactor.old compactor.new
        unplaced.new left positions.new result }
{
    let mut rest = left;
    let mut turn = 0;
    while turn < rest {
        assume_proved(positions[turn] < compactor.slots());
        if move_to_destination(
            compactor,
            inx_at::<P>(positions[turn]),
            generation,
            unplaced,
        ) {
            turn += 1;
        } else {
            rest -= 1;
            positions[turn] = positions[rest];
        }
    }
    rest
}

// Successive placements follow different cycles, so their memory accesses overlap. Slots beyond the
// cache are read first.
#[inline(always)]
fn move_block<P: PtrKey, T: Drop, S: SlotStack<Item = LinkSlot<P, T>>>(
    compactor: &mut Compactor<'_, P, LinkNoGen<P, T>, S>,
    start: usize,
    count: usize,
    generation: P::Gen,
    unplaced: &mut usize,
)
    requires { CanSettleBlock P.Inx.packed_number P.Inx.greatest start count compactor.old
        unplaced.old }
    ensures { SettlesBlock P.Inx.packed_number generation start count compactor.old compactor.new
        unplaced.new }
{
    let (mut positions, mut left) = move_block_once(compactor, start, count, generation, unplaced);
    let mut reads_ahead = compactor.slots() >= 2_097_152;
    while left > 0 {
        reads_ahead = read_destinations(compactor, &positions, left, reads_ahead);
        left = move_waiting(
            compactor,
            &mut positions,
            start,
            count,
            left,
            generation,
            unplaced,
        );
    }
}

/// Moves each of the `links` links to its destination once, with its generation.
#[inline(always)]
pub fn move_all<P: PtrKey, T: Drop, S: SlotStack<Item = LinkSlot<P, T>>>(
    compactor: &mut Compactor<'_, P, LinkNoGen<P, T>, S>,
    links: usize,
    generation: P::Gen,
)
    requires { CanMoveLinks P.Inx.packed_number P.Inx.greatest compactor.old links }
    ensures { MovesLinks P.Inx.packed_number generation compactor.old compactor.new }
{
    let slots = compactor.slots();
    let mut start = 0;
    let mut unplaced = links;
    while start < slots && unplaced > 0 {
        let count = (slots - start).min(64);
        move_block(compactor, start, count, generation, &mut unplaced);
        start += count;
    }
}
