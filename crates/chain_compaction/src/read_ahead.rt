// Several chains are walked in turn, so that their waits for memory overlap.
ghost use Rattle.std.specs.Prelude.{◌≡◌, ◌≤◌, ◌<◌, ◌+◌, ◌*◌, ◌-◌, ◌⊎◌, ℕ, IfSome, MatchBool, slice_index, true};
ghost use Rattle.std.specs.Bool.{OnTrue};
ghost use Rattle.std.specs.Option.{option_map};
ghost use Rattle.arena_traits.specs.Arena.{slot_at};
ghost use Rattle.chain_laws.specs.ChainStart.{IsStart};
ghost use Rattle.chain_compaction.specs.DetachedLinks.{link_map_in};
ghost use Rattle.chain_compaction.specs.Destinations.{is_fresh};
ghost use Rattle.chain_compaction.specs.LinkPasses.{HasPosition};
ghost use Rattle.chain_compaction.specs.SlotReads.{AreBelow, HasReadSlot, HasReadSlots, HasPrefetchedNext};
ghost use Rattle.chain_compaction.specs.FoundStarts.{AreFreshNear, IsWalkBack, AreWalksBack, AreStartsOfFresh};

use crate::slot_access::{LinkSlot, read_link};
use arena_base::{Compactor, SlotAccess, inx_at, number_of, position_of};
use arena_ptr::{InxKey, PtrKey, SlotStack};
use chain_links::LinkNoGen;

#[derive(Drop)]
pub(crate) struct ReadAhead {
    /// The first slot that was not read ahead.
    position: usize,
    /// The reads still allowed.
    pub(crate) credit: usize,
    /// The most reads in one direction, beside 16 chains.
    limit: usize,
    /// The slot of `starts[0]`.
    first: usize,
    /// Each link's start, or 0 if unknown.
    starts: [usize; 64],
}

impl ReadAhead {
    /// Allows as many reads as slots; none below 8,192 slots, where they do not pay.
    pub(crate) fn new(slots: usize) -> ReadAhead
        ensures credit { result.credit ≤ slots }
        ensures starts { (d : ℕ) → slice_index result.starts d ≡ 0 }
    {
        let position = if slots < 8_192 { slots } else { 0 };
        ReadAhead {
            position,
            credit: slots,
            limit: (slots / 8).min(8_000),
            first: 0,
            starts: [0; 64],
        }
    }

    /// Returns the start of the chain at `k`, if known.
    #[inline(always)]
    pub(crate) fn start_of<I: InxKey>(&self, k: usize) -> Option<I>
        ensures first { IfSome result (λ start. self.now.first ≤ k) }
        ensures start { IfSome result
            (λ start. I.number start ≡ slice_index self.now.starts (k - self.now.first)) }
    {
        if k < self.first {
            return None;
        }
        match self.starts.get(k - self.first) {
            Some(start) => I::try_from_usize(*start),
            None => None,
        }
    }
}

fn is_far<P: PtrKey>(k: usize, neighbor: Option<P::Inx>) -> bool {
    match neighbor {
        Some(i) => number_of::<P>(i).abs_diff(k) > 64,
        None => false,
    }
}

#[inline(always)]
fn step_at<P: PtrKey, T: Drop, S: SlotStack<Item = LinkSlot<P, T>>>(
    compactor: &mut Compactor<'_, P, LinkNoGen<P, T>, S>,
    k: usize,
    start: usize,
) -> Option<usize>
    requires { k < P.Inx.greatest }
    ensures read { HasReadSlot compactor.old compactor.new }
    ensures within { IfSome result (λ k. k < P.Inx.greatest) }
{
    match read_link(compactor, inx_at::<P>(k)).next {
        Some(i) => {
            let next = position_of::<P>(i);
            if next == start { None } else { Some(next) }
        }
        None => None,
    }
}

// Returns the next position and `true`, or the chain's start and `false`.
#[inline(always)]
fn step_back_at<P: PtrKey, T: Drop, S: SlotStack<Item = LinkSlot<P, T>>>(
    compactor: &mut Compactor<'_, P, LinkNoGen<P, T>, S>,
    k: usize,
    start: usize,
) -> (usize, bool)
    requires within { k < P.Inx.greatest }
    requires back { IsWalkBack P.Inx.packed_number compactor.old.detached.slots start k }
    ensures read { HasReadSlot compactor.old compactor.new }
    ensures within { result.0 < P.Inx.greatest }
    ensures back { MatchBool result.1
        (IsWalkBack P.Inx.packed_number compactor.old.detached.slots start result.0)
        (IsStart (link_map_in P.Inx.packed_number compactor.old.detached.slots) (start + 1)
        (result.0 + 1)) }
{
    match read_link(compactor, inx_at::<P>(k)).prev {
        Some(i) => {
            let prev = position_of::<P>(i);
            if prev == start {
                (prev, false)
            } else {
                (prev, true)
            }
        }
        None => (k, false),
    }
}

fn are_close<P: PtrKey>(a: Option<P::Inx>, b: Option<P::Inx>) -> bool {
    match (a, b) {
        (Some(a), Some(b)) => number_of::<P>(a).abs_diff(number_of::<P>(b)) <= 2,
        _ => false,
    }
}

// Chains that grew in turn lie beside each other, so one beside `last` is not walked.
fn prefetch_candidate<P: PtrKey, T: Drop, S: SlotStack<Item = LinkSlot<P, T>>>(
    compactor: &mut Compactor<'_, P, LinkNoGen<P, T>, S>,
    i: P::Inx,
    last: Option<P::Inx>,
) -> (bool, Option<P::Inx>)
    ensures read { HasReadSlot compactor.old compactor.new }
    ensures fresh { OnTrue result.0 (is_fresh P.Inx.packed_number
        (slot_at compactor.old.detached.slots (P.Inx.number i)) ≡ true) }
{
    let link = read_link(compactor, i);
    (
        link.is_fresh() && !are_close::<P>(link.next, last),
        link.next,
    )
}

// Returns up to 16 of the 64 positions from `k` on, their number, and the reads.
fn unnumbered_links<P: PtrKey, T: Drop, S: SlotStack<Item = LinkSlot<P, T>>>(
    compactor: &mut Compactor<'_, P, LinkNoGen<P, T>, S>,
    k: usize,
) -> ([usize; 16], usize, usize)
    requires { HasPosition P.Inx.greatest k compactor.old }
    ensures count { result.1 ≤ 16 }
    ensures few { result.2 ≤ 64 }
    ensures within { AreBelow P.Inx.greatest result.0 result.1 }
    ensures fresh { AreFreshNear P.Inx.packed_number compactor.old.detached.slots k result.0
        result.1 }
    ensures read { HasReadSlots compactor.old compactor.new result.2 }
{
    let mut links = [0; 16];
    let mut count = 0;
    let mut last = None;
    let slots = (compactor.slots() - k).min(64);
    for j in 0..slots {
        if count == 16 {
            return (links, count, j);
        }
        let position = k + j;
        let (is_listed, after) = prefetch_candidate(compactor, inx_at::<P>(position), last);
        if is_listed {
            links[count] = position;
            count += 1;
            last = after;
        }
    }
    (links, count, slots)
}

#[inline(always)]
fn step_each<P: PtrKey, T: Drop, S: SlotStack<Item = LinkSlot<P, T>>>(
    compactor: &mut Compactor<'_, P, LinkNoGen<P, T>, S>,
    now: &mut [usize; 16],
    starts: &mut [usize; 16],
    left: usize,
) -> usize
    requires few { left ≤ 16 }
    requires within { AreBelow P.Inx.greatest now.old left }
    ensures fewer { result ≤ left }
    ensures within { AreBelow P.Inx.greatest now.new result }
    ensures read { HasReadSlots compactor.old compactor.new left }
{
    let mut rest = left;
    let mut turn = 0;
    while turn < rest {
        match step_at(compactor, now[turn], starts[turn]) {
            Some(k) => {
                now[turn] = k;
                turn += 1;
            }
            None => {
                rest -= 1;
                now[turn] = now[rest];
                starts[turn] = starts[rest];
            }
        }
    }
    rest
}

#[inline(always)]
fn step_back_each<P: PtrKey, T: Drop, S: SlotStack<Item = LinkSlot<P, T>>>(
    compactor: &mut Compactor<'_, P, LinkNoGen<P, T>, S>,
    first: usize,
    now: &mut [usize; 16],
    links: &mut [usize; 16],
    left: usize,
    starts: &mut [usize; 64],
) -> usize
    requires few { left ≤ 16 }
    requires back { AreWalksBack P.Inx.packed_number P.Inx.greatest compactor.old.detached.slots
        first links.old now.old left }
    requires starts { AreStartsOfFresh P.Inx.packed_number compactor.old.detached.slots first
        starts.old }
    ensures fewer { result ≤ left }
    ensures back { AreWalksBack P.Inx.packed_number P.Inx.greatest compactor.old.detached.slots
        first links.new now.new result }
    ensures starts { AreStartsOfFresh P.Inx.packed_number compactor.old.detached.slots first
        starts.new }
    ensures read { HasReadSlots compactor.old compactor.new left }
{
    let mut rest = left;
    let mut turn = 0;
    while turn < rest {
        let (k, goes_on) = step_back_at(compactor, now[turn], links[turn]);
        if goes_on {
            now[turn] = k;
            turn += 1;
        } else {
            starts[links[turn] - first] = k + 1;
            rest -= 1;
            now[turn] = now[rest];
            links[turn] = links[rest];
        }
    }
    rest
}

// Stops before a round could exceed `limit` reads.
#[inline(always)]
fn read_along<P: PtrKey, T: Drop, S: SlotStack<Item = LinkSlot<P, T>>>(
    compactor: &mut Compactor<'_, P, LinkNoGen<P, T>, S>,
    links: [usize; 16],
    count: usize,
    limit: usize,
) -> usize
    requires count { count ≤ 16 }
    requires within { AreBelow P.Inx.greatest links count }
    ensures few { result ≤ limit }
    ensures read { HasReadSlots compactor.old compactor.new result }
{
    let mut starts = links;
    let mut now = links;
    let mut left = count;
    let mut reads = 0;
    while left > 0 && left <= limit - reads {
        reads += left;
        left = step_each(compactor, &mut now, &mut starts, left);
    }
    reads
}

#[inline(always)]
fn find_starts<P: PtrKey, T: Drop, S: SlotStack<Item = LinkSlot<P, T>>>(
    compactor: &mut Compactor<'_, P, LinkNoGen<P, T>, S>,
    first: usize,
    links: [usize; 16],
    count: usize,
    limit: usize,
) -> ([usize; 64], usize)
    requires count { count ≤ 16 }
    requires within { AreBelow P.Inx.greatest links count }
    requires fresh { AreFreshNear P.Inx.packed_number compactor.old.detached.slots first links
        count }
    ensures starts { AreStartsOfFresh P.Inx.packed_number compactor.old.detached.slots first
        result.0 }
    ensures few { result.1 ≤ limit }
    ensures read { HasReadSlots compactor.old compactor.new result.1 }
{
    let mut starts = [0; 64];
    let mut links = links;
    let mut now = links;
    let mut left = count;
    let mut reads = 0;
    while left > 0 && left <= limit - reads {
        reads += left;
        left = step_back_each(compactor, first, &mut now, &mut links, left, &mut starts);
    }
    (starts, reads)
}

/// Reads along chains near position `k`, if its neighbor is far.
#[inline(always)]
pub(crate) fn read_ahead<P: PtrKey, T: Drop, S: SlotStack<Item = LinkSlot<P, T>>>(
    compactor: &mut Compactor<'_, P, LinkNoGen<P, T>, S>,
    k: usize,
    prev: Option<P::Inx>,
    next: Option<P::Inx>,
    ahead: &mut ReadAhead,
)
    requires { HasPosition P.Inx.greatest k compactor.old }
    ensures fewer { ahead.new.credit ≤ ahead.old.credit }
    ensures starts { (ahead.new ≡ ahead.old) ⊎ AreStartsOfFresh P.Inx.packed_number
        compactor.old.detached.slots ahead.new.first ahead.new.starts }
    ensures read { HasReadSlots compactor.old compactor.new
        (ahead.old.credit - ahead.new.credit) }
{
    // At most 64 + 2 * `limit` slots are read.
    if k < ahead.position || ahead.credit / 2 < ahead.limit.saturating_add(32) {
        return;
    }
    if !is_far::<P>(k, prev) && !is_far::<P>(k, next) {
        return;
    }
    let (links, count, slots) = unnumbered_links(compactor, k);
    let forward = read_along(compactor, links, count, ahead.limit);
    let (starts, back) = find_starts(compactor, k, links, count, ahead.limit);
    ahead.position = k.saturating_add(slots);
    ahead.credit -= slots + forward + back;
    ahead.first = k;
    ahead.starts = starts;
}

/// Returns the index after `on`, and the reads.
#[inline(always)]
pub(crate) fn prefetch_next<P: PtrKey, T: Drop, S: SlotStack<Item = LinkSlot<P, T>>>(
    compactor: &mut Compactor<'_, P, LinkNoGen<P, T>, S>,
    on: Option<P::Inx>,
    left: usize,
) -> (Option<P::Inx>, usize)
    ensures { HasPrefetchedNext P.Inx.packed_number compactor.old compactor.new
        (option_map P.Inx.number on) (option_map P.Inx.number result.0) left result.1 }
{
    match on {
        Some(i) if left > 0 => (read_link(compactor, i).next, 1),
        _ => (None, 0),
    }
}

#[inline(always)]
fn has_further_destination<P: PtrKey, T: Drop, S: SlotStack<Item = LinkSlot<P, T>>>(
    compactor: &mut Compactor<'_, P, LinkNoGen<P, T>, S>,
    k: usize,
) -> bool
    requires { k < P.Inx.greatest }
    ensures { HasReadSlots compactor.old compactor.new 2 }
{
    match read_link(compactor, inx_at::<P>(k)).destination {
        Some(to) => read_link(compactor, to).destination.is_some(),
        None => false,
    }
}

/// Reads the destinations of the links at `left` positions; returns whether a later round needs
/// this.
#[inline(always)]
pub(crate) fn read_destinations<P: PtrKey, T: Drop, S: SlotStack<Item = LinkSlot<P, T>>>(
    compactor: &mut Compactor<'_, P, LinkNoGen<P, T>, S>,
    positions: &[usize; 64],
    left: usize,
    is_wanted: bool,
) -> bool
    requires left { left ≤ 64 }
    requires within { AreBelow P.Inx.greatest positions.now left }
    ensures { HasReadSlots compactor.old compactor.new (2 * left) }
{
    if !is_wanted {
        return false;
    }
    let mut any = false;
    for p in 0..left {
        if has_further_destination(compactor, positions[p]) {
            any = true;
        }
    }
    any
}
