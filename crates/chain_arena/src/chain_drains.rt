ghost use Rattle.std.specs.Prelude.{◌≡◌, [], IfSome, IfNone, MatchOption};
ghost use Rattle.std.specs.Borrow.{RestsIfNone, sem};
ghost use Rattle.std.specs.Option.{option_map};
ghost use Rattle.std.specs.Iterator.{item_count};
ghost use Rattle.chain_laws.specs.Walks.{rest_start, IsWalk};
ghost use Rattle.arena_traits.specs.Arena.{IsValid};
ghost use Rattle.chain_links.specs.ChainArena.{entry, link_map};
ghost use Rattle.chain_links.specs.ChainArena.{nonzero_index};
ghost use Rattle.chain_arena.specs.DrainLaws.{DrainGivesTheWalk};
ghost use Rattle.chain_arena.specs.Drains.{walk_left, IsDrainStep, DrainSteps, RemovesWalk, YieldsRemoved};

use crate::chain_arena::ChainArena;
use crate::insert_entry::number_or_zero;
use arena_base::{ArenaSlot, ArenaTrait};
use arena_ptr::{HeapStack, InvalidationOption, InxKey, PtrKey, SlotStack};
use chain_links::LinkNoGen;
use chain_links::walk_direction::step_on;
use chain_traits::ChainArenaTrait;

/// A draining iterator over one chain, in walk order, which removes the rest when dropped.
///
/// It yields each link as at its removal, as `GenerationOverflow` if the counter wrapped.
///
/// Port of `ChainDrain`.
pub struct ChainDrain<
    'a,
    P: PtrKey,
    T: Drop,
    S: SlotStack<Item = ArenaSlot<P, LinkNoGen<P, T>>> = HeapStack<ArenaSlot<P, LinkNoGen<P, T>>>,
> {
    arena: &'a mut ChainArena<P, T, S>,
    // 0 for none.
    at: usize,
}

impl<P: PtrKey, T: Drop, S: SlotStack<Item = ArenaSlot<P, LinkNoGen<P, T>>>> ChainArena<P, T, S> {
    ghost use Rattle.chain_arena.specs.contracts.chain_arena.ChainArena.{the_row as arena_row};

    /// Returns a draining iterator over the chain of `p`, or `None` if `p` is not valid.
    ///
    /// Port of `ChainArenaTrait::drain_chain`.
    pub fn drain_chain(&mut self, p: P) -> Option<ChainDrain<'_, P, T, S>>
        ensures* unchanged_at_none { sem 𝓛 (RestsIfNone
            (arena_row P.row T.row S.row P.Inx.row P.Gen.row P.Inx.Word.row
            P.PtrKey P.Inx.InxKey P.Gen.GenKey S.SlotStack)
            self.entry (λ d. d.arena.ghost_name) result (λ n. n ≡ self.old)) }
        ensures drain { MatchOption result (IsValid (entry self.old) (P.key p) → ⊥)
            (λ d. IsValid (entry self.old) (P.key p)
            × (d.arena.ghost_name ≡ self.entry.ghost_name) × (d.arena.now ≡ self.old)
            × (d.at ≡ (P.key p).0)
            × IsWalk (link_map self.old) (P.key p).0 (walk_left self.old (P.key p).0)) }
    {
        self.invariants();
        if !self.contains(p) {
            return None;
        }
        let at = number_or_zero(Some(p.inx()));
        Some(ChainDrain { arena: self, at })
    }

    fn index_at(&self, at: usize) -> Option<P::Inx>
        ensures some { IfSome result (λ i. P.Inx.number i ≡ at) }
        ensures none { IfNone result (walk_left self.now at ≡ []) }
    {
        self.invariants();
        P::Inx::try_from_usize(at)
    }

    #[inline(always)]
    pub(crate) fn drain_at(
        &mut self,
        at: usize,
    ) -> Option<(usize, InvalidationOption<(P, LinkNoGen<P, T>)>)>
        ensures { MatchOption result ((walk_left self.old at ≡ []) × (self.new ≡ self.old))
            (λ e. IsDrainStep P.key P.Inx.packed_number P.Gen.following P.Gen.wraps self.old at e.1
            self.new e.0) }
    {
        self.invariants();
        match self.index_at(at) {
            Some(i) => {
                let (entry, overflow) = self.remove_inx_link_no_gen(i).overflowing();
                match entry {
                    Some(entry) => Some(drain_item(i, entry, overflow)),
                    None => None,
                }
            }
            None => None,
        }
    }

    #[cold]
    #[inline(never)]
    fn drain_from(&mut self, from: usize)
        ensures { RemovesWalk P.Gen.following self.old (walk_left self.old from) self.new }
    {
        self.invariants();
        let mut at = from;
        while let Some((next, _)) = self.drain_at(at) {
            at = next;
        }
    }
}

fn drain_item<P: PtrKey, T>(
    i: P::Inx,
    entry: (P::Gen, LinkNoGen<P, T>),
    overflow: bool,
) -> (usize, InvalidationOption<(P, LinkNoGen<P, T>)>)
    ensures next { nonzero_index result.0 ≡ rest_start (P.Inx.number i)
        (P.Inx.packed_number entry.1.prev)
        (P.Inx.packed_number entry.1.next) }
    ensures item { YieldsRemoved P.key (P.Inx.number i) entry overflow result.1 }
{
    let (generation, link) = entry;
    let next = next_after_removal(i, link.prev(), link.next());
    let p = P::_from_raw(i, generation);
    (
        number_or_zero(next),
        InvalidationOption::from_overflow(overflow, (p, link)),
    )
}

fn next_after_removal<I: InxKey>(i: I, prev: Option<I>, next: Option<I>) -> Option<I>
    ensures { option_map I.number result ≡ rest_start (I.number i) (option_map I.number prev)
        (option_map I.number next) }
{
    match next {
        Some(k) => if k.is_same(i) {
            step_on(i, prev)
        } else {
            Some(k)
        },
        None => step_on(i, prev),
    }
}

impl<'a, P: PtrKey, T: Drop, S: SlotStack<Item = ArenaSlot<P, LinkNoGen<P, T>>>> Iterator
    for ChainDrain<'a, P, T, S> {
    type Item = InvalidationOption<(P, LinkNoGen<P, T>)>;

    ghost next_gives = { λ old r new. (new.arena.ghost_name ≡ old.arena.ghost_name)
        × DrainSteps P.key P.Inx.packed_number P.Gen.following P.Gen.wraps old.arena.now old.at r
        new.arena.now new.at };

    ghost remaining = { item_count (λ d. walk_left d.arena.now d.at) };

    fn next(&mut self) -> Option<InvalidationOption<(P, LinkNoGen<P, T>)>> {
        match self.arena.drain_at(self.at) {
            Some((next, gone)) => {
                self.at = next;
                Some(gone)
            }
            None => None,
        }
    }
}

impl<'a, P: PtrKey, T: Drop, S: SlotStack<Item = ArenaSlot<P, LinkNoGen<P, T>>>> Drop
    for ChainDrain<'a, P, T, S> {
    fn drop(self)
        ensures { RemovesWalk P.Gen.following self.entry.arena.now
            (walk_left self.entry.arena.now self.entry.at) self.exit.0.now }
    {
        let ChainDrain { arena, at } = self;
        arena.drain_from(at);
    }
}

/// States that a complete drain yields the walk before it, by pointers valid then.
pub fn drain_gives_the_walk<P: PtrKey, T: Drop>()
    ensures { DrainGivesTheWalk T P.key P.Inx.packed_number P.Gen.following P.Gen.wraps }
{}
