ghost use Rattle.std.specs.Prelude.{◌≡◌, ◌↔◌, IsTrue, IfOk, OnErr};
ghost use Rattle.arena_core.specs.Invalidation.{with_value_of};
ghost use Rattle.chain_links.specs.Insertions.{MayInsertIn, InsertsLinkWithin, InsertsLink, InsertsAllowedLink};
ghost use Rattle.chain_links.specs.ChainArena.{value_state, link_map, entry, CanMove, CanSplice};
ghost use Rattle.chain_arena.specs.NewLinks.{IsNewLink};

use crate::chain_advancer::ChainPtrAdvancer;
use crate::chain_arena::ChainArena;
use arena_base::{ArenaSlot, ArenaTrait, proved_unreachable};
use arena_ptr::{
    AnyPointer, ChainInsertionError, GenKey, InvalidationOption, InvalidationResult, InxKey,
    PtrKey, ReallocationError, SlotStack,
};
use chain_linking::connection::{join, move_link, next_of, prev_of, splice};
use chain_linking::link_writes::{link_pairs, neighbors, write_beside};
use chain_linking::reversal::turn_walk;
use chain_links::links::is_index;
use chain_links::{Link, LinkInsertKind, LinkNoGen};
use chain_traits::{ChainArenaTrait, CloneChainArenaTrait};
use std::alloc::Global;

impl<P: PtrKey, T: Drop, S: SlotStack<Item = ArenaSlot<P, LinkNoGen<P, T>>>> ChainArenaTrait<P, T>
    for ChainArena<P, T, S> {
    ghost use Rattle.std.specs.Prelude.{◌≡◌};
    ghost use Rattle.chain_links.specs.ChainArena.{link_map};
    ghost use Rattle.chain_arena.specs.Effects.{IsJoin, IsCutBefore, IsCutAfter, IsExchange, IsReversal, IsMove, IsSplice};
    ghost use Rattle.chain_linking.specs.ChainArenaLaws.{links_exist};
    ghost use Rattle.chain_links.specs.Walkers.{walker_of};

    type ChainPtrAdvancer = ChainPtrAdvancer<P>;

    ghost interlinks = { link_map };

    ghost walker = { λ a. walker_of P.Inx.number a.left a.start a.forward a.back };

    ghost inserts = { IsNewLink ⟦<P as AnyPointer>⟧.pointers S.may_reach };

    ghost connects = { λ a p q b. IsJoin a b (P.key p).0 (P.key q).0 };

    ghost breaks_prev = { λ a p b. IsCutBefore a (P.key p).0 b };

    ghost breaks_next = { λ a p b. IsCutAfter a (P.key p).0 b };

    ghost exchanges = { λ a p q b. IsExchange a b (P.key p).0 (P.key q).0 };

    ghost reverses = { λ a p b. IsReversal a (P.key p).0 b };

    ghost moves = { λ a p q b. IsMove a (P.key p).0 (P.key q).0 b };

    ghost splices = { λ a p first last b. IsSplice a (P.key p).0 (P.key first).0 (P.key last).0 b };

    ghost compresses_canonically = { λ a b. b.stack_capacity ≡ a.stack_capacity };

    ghost passes = { λ a b c r given. given };

    ghost links_are_entries = { links_exist };

    ghost growth_keeps = { λ n a b h. h.1 };

    ghost write_keeps = { λ a b i t h. h.1 };

    ghost renewal_keeps = { λ a b i h. h.1 };

    ghost removal_removes = { λ a b i h. h.removed.links };

    ghost compression_renames = { λ a b h. h.renamed };

    fn can_insert(&self, kind: LinkInsertKind<P>) -> bool
        ensures { IsTrue result ↔ MayInsertIn value_state link_map
            ⟦<P as AnyPointer>⟧.pointers self.now kind }
    {
        self.beside_for(kind).is_some()
    }

    #[inline(always)]
    fn insert_within_capacity(
        &mut self,
        kind: LinkInsertKind<P>,
        t: T,
    ) -> Result<P, ChainInsertionError>
        ensures outcome { InsertsLinkWithin value_state link_map ⟦<P as AnyPointer>⟧.pointers
            self.old kind t result self.new }
        ensures err { OnErr result (self.new ≡ self.old) }
        ensures implementation { IfOk result
            (IsNewLink ⟦<P as AnyPointer>⟧.pointers S.may_reach self.old kind t self.new) }
    {
        match self.beside_within_capacity(kind) {
            Ok(beside) => Ok(self.insert_between(beside, t)),
            Err(why) => Err(why),
        }
    }

    #[inline(always)]
    fn insert_reallocating(
        &mut self,
        kind: LinkInsertKind<P>,
        t: T,
    ) -> Result<P, ChainInsertionError>
        ensures outcome { InsertsLink value_state link_map ⟦<P as AnyPointer>⟧.pointers self.old
            kind t result self.new }
        ensures err { OnErr result (self.new ≡ self.old) }
        ensures implementation { IfOk result
            (IsNewLink ⟦<P as AnyPointer>⟧.pointers S.may_reach self.old kind t self.new) }
    {
        match self.beside_with_growth(kind) {
            Ok(Some(beside)) => Ok(self.insert_between(beside, t)),
            Ok(None) => Err(ChainInsertionError::FailedLinkRequirement),
            Err(why) => Err(ChainInsertionError::from(why)),
        }
    }

    #[inline(always)]
    fn insert(&mut self, kind: LinkInsertKind<P>, t: T) -> Result<P, ReallocationError>
        requires { MayInsertIn value_state link_map ⟦<P as AnyPointer>⟧.pointers self.old kind }
        ensures outcome { InsertsAllowedLink value_state link_map ⟦<P as AnyPointer>⟧.pointers
            self.old kind t result self.new }
        ensures err { OnErr result (self.new ≡ self.old) }
        ensures implementation { IfOk result
            (IsNewLink ⟦<P as AnyPointer>⟧.pointers S.may_reach self.old kind t self.new) }
    {
        match self.beside_with_growth(kind) {
            Ok(Some(beside)) => Ok(self.insert_between(beside, t)),
            Ok(None) => proved_unreachable!(),
            Err(why) => Err(why),
        }
    }

    fn are_neighbors(&self, p: P, q: P) -> bool {
        self.contains(q) && is_index(next_of(&self.arena, p), q.inx())
    }

    fn are_neighbors_inx(&self, i: P::Inx, j: P::Inx) -> bool {
        match self.arena.get_inx(i) {
            Some((_, link)) => is_index(link.next(), j),
            None => false,
        }
    }

    fn get_link(&self, p: P) -> Option<Link<P, &T>> {
        match self.arena.get(p) {
            Some(link) => Some(Link::new(neighbors(&self.arena, link), &link.t)),
            None => None,
        }
    }

    fn get_link_no_gen(&self, p: P) -> Option<&LinkNoGen<P, T>> {
        self.arena.get(p)
    }

    fn get_inx_link_no_gen(&self, i: P::Inx) -> Option<(P::Gen, &LinkNoGen<P, T>)> {
        self.arena.get_inx(i)
    }

    fn advancer_chain(&self, p: P) -> Option<ChainPtrAdvancer<P>> {
        match self.arena.get(p) {
            Some(link) => Some(ChainPtrAdvancer::new(self.arena.len(), p.inx(), link.prev())),
            None => None,
        }
    }

    fn connect(&mut self, p: P, q: P) -> Option<()> {
        join(&mut self.arena, p, q)
    }

    fn break_prev(&mut self, p: P) -> Option<()> {
        match prev_of(&self.arena, p) {
            Some(before) => {
                write_beside(&mut self.arena, Some(before), None, Some(p.inx()), None);
                Some(())
            }
            None => None,
        }
    }

    fn break_next(&mut self, p: P) -> Option<()> {
        match next_of(&self.arena, p) {
            Some(after) => {
                write_beside(&mut self.arena, Some(p.inx()), None, Some(after), None);
                Some(())
            }
            None => None,
        }
    }

    fn exchange_next(&mut self, p: P, q: P) -> Option<()> {
        match next_of(&self.arena, p) {
            Some(after_p) => match next_of(&self.arena, q) {
                Some(after_q) => {
                    let (i, j) = (p.inx(), q.inx());
                    link_pairs(
                        &mut self.arena,
                        (Some(i), Some(after_q)),
                        (Some(j), Some(after_p)),
                    );
                    Some(())
                }
                None => None,
            },
            None => None,
        }
    }

    fn reverse_chain(&mut self, p: P) -> Option<()> {
        match self.arena.get(p) {
            Some(link) => {
                let back = link.prev();
                turn_walk(&mut self.arena, p.inx(), back);
                Some(())
            }
            None => None,
        }
    }

    fn move_after(&mut self, p: P, q: P) -> Option<()> {
        if !self.can_move(p, q) {
            return None;
        }
        move_link(&mut self.arena, p.inx(), q.inx());
        Some(())
    }

    fn splice_after(&mut self, p: P, first: P, last: P) -> Option<()> {
        if !self.can_splice(p, first, last) {
            return None;
        }
        splice(&mut self.arena, p.inx(), first.inx(), last.inx());
        Some(())
    }

    fn remove_link_no_gen(&mut self, p: P) -> InvalidationResult<LinkNoGen<P, T>> {
        if self.contains(p) {
            link_alone(self.unlink(p.inx()))
        } else {
            InvalidationResult::InvalidPtr
        }
    }

    fn remove_inx_link_no_gen(
        &mut self,
        i: P::Inx,
    ) -> InvalidationResult<(P::Gen, LinkNoGen<P, T>)> {
        self.unlink(i)
    }

    fn compress_canonical(&mut self, reset: bool) -> InvalidationOption<()> {
        self.compress_canonical_with(reset, |_p: P, _q: P| {})
    }
}

impl<P: PtrKey, T: Drop, S: SlotStack<Item = ArenaSlot<P, LinkNoGen<P, T>>>> ChainArena<P, T, S> {
    fn can_move(&self, p: P, q: P) -> bool
        ensures { IsTrue result ↔ CanMove (entry self.now) (P.key p) (P.key q) }
    {
        !p.inx().is_same(q.inx()) && self.contains(p) && self.contains(q)
    }

    fn can_splice(&self, p: P, first: P, last: P) -> bool
        ensures { IsTrue result ↔ CanSplice (entry self.now) (P.key p) (P.key first) (P.key last) }
    {
        !p.inx().is_same(last.inx())
            && self.contains(p)
            && self.contains(first)
            && self.contains(last)
    }
}

pub(crate) fn link_alone<G: Drop, L>(removed: InvalidationResult<(G, L)>) -> InvalidationResult<L>
    ensures { result ≡ with_value_of (λ e. e.1) removed }
{
    match removed {
        InvalidationResult::Success((_, link)) => InvalidationResult::Success(link),
        InvalidationResult::GenerationOverflow((_, link)) => InvalidationResult::GenerationOverflow(
            link,
        ),
        InvalidationResult::InvalidPtr => InvalidationResult::InvalidPtr,
    }
}

impl<P: PtrKey, T: Clone, S: SlotStack<Item = ArenaSlot<P, LinkNoGen<P, T>>>> CloneChainArenaTrait<
    P,
    T,
> for ChainArena<P, T, S> {
    ghost use Rattle.std.specs.Prelude.{length};
    ghost use Rattle.arena_traits.specs.Arena.{ReachesCapacity, new_arena};
    ghost use Rattle.chain_arena.specs.LinkCopies.{IsClone};

    ghost initial_maximum = { S.initial_maximum };

    ghost clones = { λ a b. IsClone P.Gen.first S.initial_maximum a b × ReachesCapacity
        S.may_reach P.Inx.greatest (length a.slots) (new_arena P.Gen.first S.initial_maximum) b };

    fn try_clone(&self, alloc: Global) -> Result<Self, ReallocationError> {
        ChainArena::clone(self, alloc)
    }
}
