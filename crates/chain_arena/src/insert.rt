ghost use Rattle.std.specs.Prelude.{◌≡◌, ◌<◌, IsSome, IsSomeAnd, None, Some};
ghost use Rattle.std.specs.Option.{option_map, option_and_then};
ghost use Rattle.chain_laws.specs.Chains.{IsWellLinked};
ghost use Rattle.chain_laws.specs.Insertions.{IsInsertPosition};
ghost use Rattle.arena_traits.specs.Arena.{entry_at, entry_count, next_index, IsValid};
ghost use Rattle.chain_links.specs.ChainArena.{entry, link_map};
ghost use Rattle.chain_links.specs.Links.{link_view};
ghost use Rattle.chain_arena.specs.NewLinks.{NamesLink, ReturnsBeside, FindsBeside, FindsBesideWithin, FindsBesideGrowing, InsertsBeside};

use crate::chain_arena::ChainArena;
use arena_base::{Arena, ArenaSlot, ArenaTrait};
use arena_ptr::{
    AnyPointer, ChainInsertionError, InxKey, PackedOption, PtrKey, ReallocationError, SlotStack,
};
use chain_linking::link_writes::write_beside;
use chain_links::links::is_index;
use chain_links::{LinkInsertKind, LinkNoGen, RawLink};

// The indexes before and after a new link.
pub(crate) type Beside<I> = (Option<I>, Option<I>);

type Named<'a, I, W, T> = (Option<&'a RawLink<PackedOption<I, W>, T>>, I);

impl<P: PtrKey, T: Drop, S: SlotStack<Item = ArenaSlot<P, LinkNoGen<P, T>>>> ChainArena<P, T, S> {
    // A known kind leaves only its branch.
    #[inline(always)]
    pub(crate) fn beside_for(&self, kind: LinkInsertKind<P>) -> Option<Beside<P::Inx>>
        ensures beside { FindsBeside ⟦<P as AnyPointer>⟧.pointers self.now kind result }
        ensures agree { IsWellLinked (link_map self.now) }
    {
        match kind {
            LinkInsertKind::Disconnected => Some((None, None)),
            LinkInsertKind::SingleLinkCyclic => {
                let i = self.arena.next_inx();
                Some((i, i))
            }
            LinkInsertKind::ChainEnd(a) => after_end(self.named(a)),
            LinkInsertKind::ChainEndInx(a) => after_end(self.named_inx(a)),
            LinkInsertKind::ChainStart(b) => before_start(self.named(b)),
            LinkInsertKind::ChainStartInx(b) => before_start(self.named_inx(b)),
            LinkInsertKind::NextTo(a) => after_link(self.named(a)),
            LinkInsertKind::NextToInx(a) => after_link(self.named_inx(a)),
            LinkInsertKind::PrevTo(b) => before_link(self.named(b)),
            LinkInsertKind::PrevToInx(b) => before_link(self.named_inx(b)),
            LinkInsertKind::AtInterlink { next_to, prev_to } => {
                between(self.named(next_to), self.named(prev_to))
            }
            LinkInsertKind::AtInterlinkInx { next_to, prev_to } => {
                between(self.named_inx(next_to), self.named_inx(prev_to))
            }
            LinkInsertKind::Bridge { end, start } => bridge(self.named(end), self.named(start)),
            LinkInsertKind::BridgeInx { end, start } => {
                bridge(self.named_inx(end), self.named_inx(start))
            }
        }
    }

    #[inline(always)]
    fn named(&self, p: P) -> (Option<&LinkNoGen<P, T>>, P::Inx)
        ensures { NamesLink P.Inx.packed_number P.Inx.number self.now (P.key p).0
            (IsValid (entry self.now) (P.key p)) result }
    {
        (self.arena.get(p), p.inx())
    }

    #[inline(always)]
    fn named_inx(&self, i: P::Inx) -> (Option<&LinkNoGen<P, T>>, P::Inx)
        ensures { NamesLink P.Inx.packed_number P.Inx.number self.now (P.Inx.number i)
            (IsSome (entry self.now (P.Inx.number i))) result }
    {
        (link_at(&self.arena, i), i)
    }

    #[inline(always)]
    pub(crate) fn beside_within_capacity(
        &self,
        kind: LinkInsertKind<P>,
    ) -> Result<Beside<P::Inx>, ChainInsertionError>
        ensures beside { FindsBesideWithin ⟦<P as AnyPointer>⟧.pointers S.may_reach self.now
            kind result }
        ensures agree { IsWellLinked (link_map self.now) }
    {
        match self.beside_for(kind) {
            Some(beside) => {
                if self.arena.is_full() {
                    return Err(ChainInsertionError::NotWithinCapacity);
                }
                Ok(beside)
            }
            None => Err(ChainInsertionError::FailedLinkRequirement),
        }
    }

    #[inline(always)]
    pub(crate) fn beside_with_growth(
        &mut self,
        kind: LinkInsertKind<P>,
    ) -> Result<Option<Beside<P::Inx>>, ReallocationError>
        ensures beside { FindsBesideGrowing ⟦<P as AnyPointer>⟧.pointers S.may_reach self.old
            kind result self.new }
        ensures agreed { IsWellLinked (link_map self.old) }
    {
        match self.beside_for(kind) {
            Some(beside) => match self.arena.grow_if_full() {
                Ok(()) => Ok(Some(beside)),
                Err(why) => Err(why),
            },
            None => Ok(None),
        }
    }

    #[inline(always)]
    pub(crate) fn insert_between(&mut self, beside: Beside<P::Inx>, t: T) -> P
        requires position { IsInsertPosition (link_map self.old) (next_index self.old)
            (option_map P.Inx.number beside.0)
            (option_map P.Inx.number beside.1) }
        requires capacity { entry_count self.old < self.old.capacity }
        ensures { InsertsBeside ⟦<P as AnyPointer>⟧.pointers self.old beside t result self.new }
    {
        self.arena.invariants();
        let p = self.arena.insert_next(RawLink::new(beside, t));
        let i = Some(p.inx());
        write_beside(&mut self.arena, beside.0, i, beside.1, i);
        p
    }
}

fn link_at<P: PtrKey, T: Drop, S: SlotStack<Item = ArenaSlot<P, LinkNoGen<P, T>>>>(
    arena: &Arena<P, LinkNoGen<P, T>, S>,
    i: P::Inx,
) -> Option<&LinkNoGen<P, T>>
    ensures { option_map (λ link. link.now) result ≡ option_map (λ e. e.1) (entry_at arena.now
        (P.Inx.number i)) }
{
    match arena.get_inx(i) {
        Some((_, link)) => Some(link),
        None => None,
    }
}

fn after_end<W: Copy, I: InxKey<Word = W>, T>(a: Named<'_, I, W, T>) -> Option<Beside<I>>
    ensures { ReturnsBeside I.number
        (IsSomeAnd a.entry.0 (λ l. (link_view I.packed_number l.now).next ≡ None))
        (Some (I.number a.entry.1)) None result }
{
    match a.0?.next() {
        Some(_) => None,
        None => Some((Some(a.1), None)),
    }
}

fn before_start<W: Copy, I: InxKey<Word = W>, T>(b: Named<'_, I, W, T>) -> Option<Beside<I>>
    ensures { ReturnsBeside I.number
        (IsSomeAnd b.entry.0 (λ l. (link_view I.packed_number l.now).prev ≡ None))
        None (Some (I.number b.entry.1)) result }
{
    match b.0?.prev() {
        Some(_) => None,
        None => Some((None, Some(b.1))),
    }
}

fn after_link<W: Copy, I: InxKey<Word = W>, T>(a: Named<'_, I, W, T>) -> Option<Beside<I>>
    ensures { ReturnsBeside I.number (IsSome a.entry.0) (Some (I.number a.entry.1))
        (option_and_then (λ l. (link_view I.packed_number l.now).next) a.entry.0) result }
{
    Some((Some(a.1), a.0?.next()))
}

fn before_link<W: Copy, I: InxKey<Word = W>, T>(b: Named<'_, I, W, T>) -> Option<Beside<I>>
    ensures { ReturnsBeside I.number (IsSome b.entry.0)
        (option_and_then (λ l. (link_view I.packed_number l.now).prev) b.entry.0)
        (Some (I.number b.entry.1)) result }
{
    Some((b.0?.prev(), Some(b.1)))
}

fn between<W: Copy, I: InxKey<Word = W>, T>(
    a: Named<'_, I, W, T>,
    b: Named<'_, I, W, T>,
) -> Option<Beside<I>>
    ensures { ReturnsBeside I.number
        (IsSomeAnd a.entry.0
        (λ l. (link_view I.packed_number l.now).next ≡ Some (I.number b.entry.1))
        × IsSome b.entry.0)
        (Some (I.number a.entry.1)) (Some (I.number b.entry.1)) result }
{
    if is_index(a.0?.next(), b.1) && b.0.is_some() {
        Some((Some(a.1), Some(b.1)))
    } else {
        None
    }
}

fn bridge<W: Copy, I: InxKey<Word = W>, T>(
    a: Named<'_, I, W, T>,
    b: Named<'_, I, W, T>,
) -> Option<Beside<I>>
    ensures { ReturnsBeside I.number
        (IsSomeAnd a.entry.0 (λ l. (link_view I.packed_number l.now).next ≡ None)
        × IsSomeAnd b.entry.0 (λ l. (link_view I.packed_number l.now).prev ≡ None))
        (Some (I.number a.entry.1)) (Some (I.number b.entry.1)) result }
{
    match (a.0?.next(), b.0?.prev()) {
        (None, None) => Some((Some(a.1), Some(b.1))),
        _ => None,
    }
}
