ghost use Rattle.std.specs.Prelude.{◌≡◌, [], None, MatchOption};
ghost use Rattle.std.specs.Iterator.{item_count};
ghost use Rattle.std.specs.Option.{option_map};
ghost use Rattle.arena_traits.specs.Entries.{entries, first_key};
ghost use Rattle.chain_links.specs.ChainArena.{entry, values_of};
ghost use Rattle.chain_arena.specs.Drains.{entries_left, IsLinkTaken, IsLinkDrainStep, LinkDrainSteps, RemovesEntries};

use crate::chain_arena::ChainArena;
use crate::insert_entry::number_or_zero;
use arena_base::{Advancer, ArenaSlot, ArenaTrait, assume_proved, inx_at, proved_unreachable};
use arena_ptr::{HeapStack, InvalidationOption, InxKey, PtrKey, SlotStack};
use chain_links::LinkNoGen;

/// A draining iterator over all links, in ascending index order, which removes the rest when
/// dropped.
///
/// It yields pointers and values, as `GenerationOverflow` if the counter wrapped. Unlike `clear` it
/// keeps the slots.
///
/// Port of the iterator of `ChainArena::drain`.
pub struct LinkDrain<
    'a,
    P: PtrKey,
    T: Drop,
    S: SlotStack<Item = ArenaSlot<P, LinkNoGen<P, T>>> = HeapStack<ArenaSlot<P, LinkNoGen<P, T>>>,
> {
    arena: &'a mut ChainArena<P, T, S>,
    // The least index left, 0 for none.
    at: usize,
}

impl<P: PtrKey, T: Drop, S: SlotStack<Item = ArenaSlot<P, LinkNoGen<P, T>>>> ChainArena<P, T, S> {
    /// Returns a draining iterator over all links.
    ///
    /// Port of `ChainArena::drain`.
    pub fn drain(&mut self) -> LinkDrain<'_, P, T, S>
        ensures holds { (result.arena.ghost_name ≡ self.entry.ghost_name)
            × (result.arena.now ≡ self.old) }
        ensures left { entries_left self.old result.at ≡ entries (values_of self.old) }
    {
        LinkDrain { arena: self, at: 1 }
    }

    #[inline(always)]
    fn first_from(&self, at: usize) -> Option<P>
        ensures { option_map P.key result ≡ first_key (entries_left self.now at) }
    {
        self.invariants();
        match P::Inx::try_from_usize(at) {
            Some(i) => self.advancer_inx(i, false).advance(self),
            None => None,
        }
    }

    #[inline(always)]
    fn take_link(&mut self, i: P::Inx) -> Option<InvalidationOption<(P, T)>>
        ensures { MatchOption result ((entry self.old (P.Inx.number i) ≡ None)
            × (self.new ≡ self.old)) (λ gone. IsLinkTaken P.key P.Gen.following P.Gen.wraps self.old
            (P.Inx.number i) gone self.new) }
    {
        let (entry, overflow) = self.unlink(i).overflowing();
        match entry {
            Some((generation, link)) => {
                let p = P::_from_raw(i, generation);
                Some(InvalidationOption::from_overflow(overflow, (p, link.t)))
            }
            None => None,
        }
    }

    #[inline(always)]
    fn drain_link_at(&mut self, at: usize) -> Option<(usize, InvalidationOption<(P, T)>)>
        ensures { MatchOption result (self.new ≡ self.old)
            (λ e. IsLinkDrainStep P.key P.Gen.following P.Gen.wraps self.old at e.1 self.new e.0) }
    {
        self.invariants();
        if at == 0 || at - 1 >= self.backing().len() {
            return None;
        }
        let i = inx_at::<P>(at - 1);

        // Spares LLVM a second test of the index.
        assume_proved(number_or_zero(Some(i)) == at);
        match self.take_link(i) {
            Some(gone) => Some((at.saturating_add(1), gone)),
            None => None,
        }
    }

    // Without free slots the first link is at the index itself.
    #[inline(always)]
    fn drain_first(&mut self, at: usize) -> Option<(usize, InvalidationOption<(P, T)>)>
        ensures { MatchOption result ((entries_left self.old at ≡ []) × (self.new ≡ self.old))
            (λ e. IsLinkDrainStep P.key P.Gen.following P.Gen.wraps self.old at e.1 self.new e.0) }
    {
        match self.drain_link_at(at) {
            Some(drained) => Some(drained),
            None => self.drain_by_search(at),
        }
    }

    #[inline(always)]
    fn drain_by_search(&mut self, at: usize) -> Option<(usize, InvalidationOption<(P, T)>)>
        ensures { MatchOption result ((entries_left self.old at ≡ []) × (self.new ≡ self.old))
            (λ e. IsLinkDrainStep P.key P.Gen.following P.Gen.wraps self.old at e.1 self.new e.0) }
    {
        match self.first_from(at) {
            Some(p) => {
                let i = p.inx();
                match self.take_link(i) {
                    Some(gone) => Some((number_or_zero(Some(i)).saturating_add(1), gone)),
                    None => proved_unreachable!(),
                }
            }
            None => None,
        }
    }

    #[cold]
    #[inline(never)]
    fn drain_rest(&mut self, from: usize)
        ensures { RemovesEntries P.Gen.following self.old (entries_left self.old from) self.new }
    {
        let mut at = from;
        while let Some((next, _)) = self.drain_first(at) {
            at = next;
        }
    }
}

impl<'a, P: PtrKey, T: Drop, S: SlotStack<Item = ArenaSlot<P, LinkNoGen<P, T>>>> Iterator
    for LinkDrain<'a, P, T, S> {
    type Item = InvalidationOption<(P, T)>;

    ghost next_gives = { λ old r new. (new.arena.ghost_name ≡ old.arena.ghost_name)
        × LinkDrainSteps P.key P.Gen.following P.Gen.wraps old.arena.now old.at r new.arena.now
        new.at };

    ghost remaining = { item_count (λ d. entries_left d.arena.now d.at) };

    #[inline(always)]
    fn next(&mut self) -> Option<InvalidationOption<(P, T)>> {
        match self.arena.drain_first(self.at) {
            Some((next, gone)) => {
                self.at = next;
                Some(gone)
            }
            None => None,
        }
    }
}

impl<'a, P: PtrKey, T: Drop, S: SlotStack<Item = ArenaSlot<P, LinkNoGen<P, T>>>> Drop
    for LinkDrain<'a, P, T, S> {
    fn drop(self)
        ensures { RemovesEntries P.Gen.following self.entry.arena.now
            (entries_left self.entry.arena.now self.entry.at) self.exit.0.now }
    {
        let LinkDrain { arena, at } = self;
        arena.drain_rest(at);
    }
}
