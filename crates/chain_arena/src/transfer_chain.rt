ghost use Rattle.std.specs.Prelude.{◌≡◌, ◌≤◌, ◌<◌, ◌^◌, ◌+◌, ◌↔◌, ℕ, length, None, Some, List, IsOk, IsTrue, MatchOption};
ghost use Rattle.std.specs.Option.{option_map};
ghost use Rattle.arena_core.specs.Invalidation.{value_in, is_overflow};
ghost use Rattle.chain_laws.specs.Insertions.{IsInsertPosition};
ghost use Rattle.arena_traits.specs.Arena.{IsListed, IsValid, ReachesCapacity, entry_count, next_index, with_capacity_of};
ghost use Rattle.chain_links.specs.ChainArena.{entry, insert_between, link_map};
ghost use Rattle.chain_links.specs.Links.{link_view};
ghost use Rattle.chain_arena.specs.ChainTransfers.{AreEndsOf, IsChainTransferred, TransfersOrRefuses, link_after_moved, link_before_moved, with_moved_link};
ghost use Rattle.chain_arena.specs.Drains.{walk_left};
ghost use Rattle.chain_arena.specs.Effects.{HaveSameCapacity, SucceedsOrRefuses};

use crate::chain_arena::ChainArena;
use crate::insert::Beside;
use crate::insert_entry::number_or_zero;
use arena_base::{ArenaSlot, ArenaTrait};
use arena_ptr::{InvalidationOption, InxKey, PtrKey, ReallocationError, SlotStack};
use chain_linking::ChainIter;
use chain_links::LinkNoGen;
use chain_links::links::is_index;

impl<P: PtrKey, T: Drop, S: SlotStack<Item = ArenaSlot<P, LinkNoGen<P, T>>>> ChainArena<P, T, S> {
    /// Moves the chain of `p` to another arena and returns its new pointer, or `None` if `p` is not
    /// valid.
    ///
    /// In walk order, the closure maps old pointer, old value (`GenerationOverflow` if this counter
    /// wrapped) and new pointer. Allocates only if `target` lacks capacity.
    ///
    /// # Errors
    ///
    /// - `AllocError`: `target` would exceed the greatest index.
    /// - `BeyondMaxCapacity`: `target` would exceed its maximum.
    /// - `AllocError`: an allocation failed.
    ///
    /// On error, nothing changes.
    ///
    /// # Examples
    ///
    /// ```rust
    /// let mut arena: ChainArena<ToolPtr, u32> = ChainArena::new(alloc);
    /// let a = arena.insert_reallocating(LinkInsertKind::Disconnected, 1)?;
    /// let b = arena.insert_reallocating(LinkInsertKind::ChainEnd(a), 2)?;
    /// let c = arena.insert_reallocating(LinkInsertKind::ChainEnd(b), 3)?; // 1, 2, 3
    /// let mut target: ChainArena<ToolPtr, u32> = ChainArena::new(alloc);
    /// let moved = arena.transfer_chain(a, &mut target, |_old, value, _new| value.allow())?;
    /// assert!(rt; moved.is_some() && arena.is_empty() && target.len() == 3);
    /// ```
    pub fn transfer_chain<
        Q: PtrKey,
        U: Drop,
        R: SlotStack<Item = ArenaSlot<Q, LinkNoGen<Q, U>>>,
        F: FnMut(P, InvalidationOption<T>, Q) -> U + Drop,
    >(
        &mut self,
        p: P,
        target: &mut ChainArena<Q, U, R>,
        map: F,
    ) -> Result<Option<Q>, ReallocationError>
        requires { F.IsAlwaysCallable map }
        ensures transferred { TransfersOrRefuses (IsValid (entry self.old) (P.key p))
            (entry_count target.old + length (walk_left self.old (P.key p).0)) Q.Inx.greatest
            target.old.maximum
            (λ q. IsChainTransferred P.key Q.key P.Gen.following P.Gen.wraps F.FnMut map (P.key p) q
            self.old self.new target.old target.new
            × ReachesCapacity R.may_reach Q.Inx.greatest
            (entry_count target.old + length (walk_left self.old (P.key p).0)) target.old
            target.new)
            ((self.new ≡ self.old) × (target.new ≡ target.old)) result }
        ensures within { entry_count target.old + length (walk_left self.old (P.key p).0)
            ≤ target.old.capacity → IsOk result × HaveSameCapacity target.new target.old }
    {
        match self.chain_len(p) {
            Some(n) => match target.grow_by(n) {
                Ok(()) => Ok(Some(move_chain(self, p, target, map))),
                Err(why) => Err(why),
            },
            None => Ok(None),
        }
    }

    fn chain_len(&self, p: P) -> Option<usize>
        ensures { MatchOption result (IsValid (entry self.now) (P.key p) → ⊥)
            (λ n. IsValid (entry self.now) (P.key p)
            × (n ≡ length (walk_left self.now (P.key p).0))) }
    {
        self.invariants();
        match self.iter_chain(p) {
            Some(links) => {
                self.len();
                Some(count_links(links))
            }
            None => None,
        }
    }

    fn next_pointer(&self) -> P
        requires { entry_count self.now < self.now.capacity }
        ensures { P.key result ≡ (next_index self.now, self.now.counter) }
    {
        self.arena.next_ptr()
    }

    fn grow_by(&mut self, n: usize) -> Result<(), ReallocationError>
        ensures grown { SucceedsOrRefuses (entry_count self.old + n) P.Inx.greatest self.old.maximum
            (ReachesCapacity S.may_reach P.Inx.greatest (entry_count self.old + n) self.old
            self.new)
            (self.new ≡ self.old) result }
        ensures within { entry_count self.old + n ≤ self.old.capacity
            → IsOk result × (self.new ≡ self.old) }
        ensures after { self.new ≡ with_capacity_of self.old self.new }
    {
        match self.len().checked_add(n) {
            Some(sum) => self.grow_to_hold(sum),
            None => {
                // The sum exceeds the greatest index, which is a `usize`.
                P::Inx::greatest();
                Err(ReallocationError::AllocError)
            }
        }
    }
}

fn count_links<P: PtrKey, T: Drop, S: SlotStack<Item = ArenaSlot<P, LinkNoGen<P, T>>>>(
    links: ChainIter<'_, P, T, S>,
) -> usize
    requires { length links < 2 ^ 64 }
    ensures { result ≡ length links.entry }
{
    links.count()
}

#[derive(Drop)]
struct RemovedLink<P: PtrKey, T: Drop> {
    ptr: P,
    value: InvalidationOption<T>,
    // Whether it was its own next link.
    closes: bool,
    is_end: bool,
}

fn removed_link<P: PtrKey, T: Drop>(
    gone: InvalidationOption<(P, LinkNoGen<P, T>)>,
) -> RemovedLink<P, T>
    ensures ptr { result.ptr ≡ (value_in gone).0 }
    ensures value { (value_in result.value ≡ (value_in gone).1.t)
        × (is_overflow result.value ≡ is_overflow gone) }
    ensures closes { IsTrue result.closes ↔ ((link_view P.Inx.packed_number (value_in gone).1).next
        ≡ Some (P.key (value_in gone).0).0) }
    ensures is_end { IsTrue result.is_end
        ↔ ((link_view P.Inx.packed_number (value_in gone).1).next ≡ None) }
{
    let ((ptr, link), overflow) = gone.overflowing();
    let next = link.next();
    RemovedLink {
        ptr,
        value: InvalidationOption::from_overflow(overflow, link.t),
        closes: is_index(next, ptr.inx()),
        is_end: next.is_none(),
    }
}

fn move_chain<
    P: PtrKey,
    T: Drop,
    S: SlotStack<Item = ArenaSlot<P, LinkNoGen<P, T>>>,
    Q: PtrKey,
    U: Drop,
    R: SlotStack<Item = ArenaSlot<Q, LinkNoGen<Q, U>>>,
    F: FnMut(P, InvalidationOption<T>, Q) -> U + Drop,
>(source: &mut ChainArena<P, T, S>, p: P, target: &mut ChainArena<Q, U, R>, mut map: F) -> Q
    requires callable { F.IsAlwaysCallable map }
    requires valid { IsValid (entry source.old) (P.key p) }
    requires capacity { entry_count target.old + length (walk_left source.old (P.key p).0)
        ≤ target.old.capacity }
    ensures transferred { IsChainTransferred P.key Q.key P.Gen.following P.Gen.wraps F.FnMut map
        (P.key p) result source.old source.new target.old target.new }
    ensures capacity { HaveSameCapacity target.new target.old
        × (target.new.maximum ≡ target.old.maximum) }
{
    source.invariants();
    let q = target.next_pointer();
    let mut at = number_or_zero(Some(p.inx()));
    let mut is_back = false;
    let mut ends = None;
    while let Some((next, gone)) = source.drain_at(at) {
        let removed = removed_link(gone);
        let to = target.next_pointer();
        let t = map(removed.ptr, removed.value, to);
        ends = insert_moved(target, removed.closes, is_back, ends, to, t);
        is_back = removed.is_end;
        at = next;
    }
    q
}

fn insert_moved<P: PtrKey, T: Drop, S: SlotStack<Item = ArenaSlot<P, LinkNoGen<P, T>>>>(
    target: &mut ChainArena<P, T, S>,
    closes: bool,
    is_back: bool,
    ends: Option<(P::Inx, P::Inx)>,
    to: P,
    t: T,
) -> Option<(P::Inx, P::Inx)>
    requires ends { (ys : List ℕ) × AreEndsOf P.Inx.number ends ys
        × IsInsertPosition (link_map target.old) (next_index target.old)
        (link_before_moved closes is_back ys (next_index target.old))
        (link_after_moved closes is_back ys (next_index target.old)) }
    requires capacity { entry_count target.old < target.old.capacity }
    requires index { (P.key to).0 ≡ next_index target.old }
    ensures inserted { (ys : List ℕ) → AreEndsOf P.Inx.number ends ys
        → (target.new ≡ insert_between target.old t
        (link_before_moved closes is_back ys (next_index target.old))
        (link_after_moved closes is_back ys (next_index target.old)))
        × AreEndsOf P.Inx.number result (with_moved_link is_back ys (next_index target.old)) }
    ensures listed { IsListed target.old }
{
    let i = to.inx();
    target.insert_between(beside_moved::<P>(closes, is_back, ends, i), t);
    with_moved_end(is_back, ends, i)
}

fn beside_moved<P: PtrKey>(
    closes: bool,
    is_back: bool,
    ends: Option<(P::Inx, P::Inx)>,
    i: P::Inx,
) -> Beside<P::Inx>
    ensures { (ys : List ℕ) → AreEndsOf P.Inx.number ends ys
        → (option_map P.Inx.number result.0 ≡ link_before_moved closes is_back ys (P.Inx.number i))
        × (option_map P.Inx.number result.1 ≡ link_after_moved closes is_back ys (P.Inx.number i)) }
{
    match ends {
        None => if closes {
            (Some(i), Some(i))
        } else {
            (None, None)
        },
        Some((first, last)) => if closes {
            (Some(last), Some(first))
        } else if is_back {
            (None, Some(first))
        } else {
            (Some(last), None)
        },
    }
}

fn with_moved_end<I: InxKey>(is_back: bool, ends: Option<(I, I)>, i: I) -> Option<(I, I)>
    ensures { (ys : List ℕ) → AreEndsOf I.number ends ys
        → AreEndsOf I.number result (with_moved_link is_back ys (I.number i)) }
{
    match ends {
        Some(ends) => if is_back {
            Some((i, ends.1))
        } else {
            Some((ends.0, i))
        },
        None => Some((i, i)),
    }
}
