ghost use Rattle.std.specs.Prelude.{◌≡◌, ◌≤◌, ◌<◌, ◌+◌, ℕ, IsOk};
ghost use Rattle.chain_laws.specs.Transfer.{end_before, end_after};
ghost use Rattle.arena_traits.specs.Arena.{ReachesCapacity, IsListed, with_capacity_of, entry_count, next_index};
ghost use Rattle.arena_traits.specs.Entries.{count};
ghost use Rattle.std.specs.Option.{option_map};
ghost use Rattle.chain_compaction.specs.PointerMoves.{CompressionMovesPointers, CompressionHasMoves};
ghost use Rattle.chain_arena.specs.Effects.{HaveSameCapacity, IsEmptyWithCapacity, SucceedsOrRefuses};
ghost use Rattle.chain_arena.specs.Transfers.{ArrangesAlike, IsTransfer, AreEnds, HasPositionAtEnd, with_link_at_end};
ghost use Rattle.chain_arena.specs.PointerTransfers.{TransferMovesPointers};

use crate::chain_arena::ChainArena;
use crate::insert::Beside;
use arena_base::{Advancer, ArenaSlot, ArenaTrait, CompactArenaTrait, proved_unreachable};
use arena_ptr::{InvalidationOption, InxKey, PtrKey, ReallocationError, SlotStack};
use chain_links::LinkNoGen;
use chain_traits::ChainArenaTrait;
use chain_traits::drain_in_order::{Taken, take_next};

impl<P: PtrKey, T: Drop, S: SlotStack<Item = ArenaSlot<P, LinkNoGen<P, T>>>> ChainArena<P, T, S> {
    /// Moves all links of `source` to this arena, and leaves nothing else here.
    ///
    /// Chains come by least index, a linear one from its start, a cyclic one from its least index.
    /// The k-th link gets index k and the generation `new_generation`. The closure maps old
    /// pointer, old value (`GenerationOverflow` if the counter of `source` wrapped) and new
    /// pointer.
    ///
    /// Allocates only if `source` has more links than the capacity. Linear in its slots, which is
    /// not proved.
    ///
    /// # Errors
    ///
    /// - `AllocError`: `source` has more links than the greatest index.
    /// - `BeyondMaxCapacity`: `source` has more links than the maximum.
    /// - `AllocError`: an allocation failed.
    ///
    /// On error, nothing changes.
    ///
    /// Port of `ChainArena::transfer_canonical_reallocating`.
    pub fn transfer_canonical_reallocating<
        Q: PtrKey,
        U: Drop,
        A: ChainArenaTrait<Q, U> + CompactArenaTrait<Q, U>,
        F: FnMut(Q, InvalidationOption<U>, P) -> T + Drop,
    >(&mut self, new_generation: P::Gen, source: &mut A, map: F) -> Result<(), ReallocationError>
        requires { F.IsAlwaysCallable map }
        ensures transferred { SucceedsOrRefuses (count (A.view source.old)) P.Inx.greatest
            self.old.maximum
            (IsTransfer Q.key P.key Q.Gen.following Q.Gen.wraps F.FnMut new_generation map
            (A.view source.old) (A.interlinks source.old) (A.view source.new) self.old self.new
            × ReachesCapacity S.may_reach P.Inx.greatest (count (A.view source.old))
            self.old self.new)
            ((self.new ≡ self.old) × (source.new ≡ source.old)) result }
        ensures within { count (A.view source.old) ≤ self.old.capacity
            → IsOk result × HaveSameCapacity self.new self.old }
    {
        match self.grow_to_hold(source.len()) {
            Ok(()) => {
                self.clear();
                self.set_generation(new_generation);
                transfer_links(self, source, map);
                Ok(())
            }
            Err(why) => Err(why),
        }
    }

    pub(crate) fn grow_to_hold(&mut self, n: usize) -> Result<(), ReallocationError>
        ensures grown { SucceedsOrRefuses n P.Inx.greatest self.old.maximum
            (ReachesCapacity S.may_reach P.Inx.greatest n self.old self.new)
            (self.new ≡ self.old) result }
        ensures within { n ≤ self.old.capacity → IsOk result × (self.new ≡ self.old) }
        ensures after { self.new ≡ with_capacity_of self.old self.new }
    {
        if n <= self.capacity() {
            self.invariants();
            return Ok(());
        }
        if n > P::Inx::greatest() {
            return Err(ReallocationError::AllocError);
        }
        let grown = self.reallocate_min_capacity(n);
        self.invariants();
        grown
    }
}

fn transfer_links<
    P: PtrKey,
    T: Drop,
    S: SlotStack<Item = ArenaSlot<P, LinkNoGen<P, T>>>,
    Q: PtrKey,
    U: Drop,
    A: ChainArenaTrait<Q, U> + CompactArenaTrait<Q, U>,
    F: FnMut(Q, InvalidationOption<U>, P) -> T + Drop,
>(target: &mut ChainArena<P, T, S>, source: &mut A, mut map: F)
    requires callable { F.IsAlwaysCallable map }
    requires empty { IsEmptyWithCapacity P.Inx.greatest (count (A.view source.old)) target.old }
    ensures transferred { IsTransfer Q.key P.key Q.Gen.following Q.Gen.wraps F.FnMut
        target.old.counter map (A.view source.old) (A.interlinks source.old)
        (A.view source.new) target.old target.new }
    ensures capacity { HaveSameCapacity target.new target.old }
{
    source.agrees();
    let generation = target.generation();
    let mut advancer = source.advancer();
    let mut on = None;
    let mut is_cyclic = false;
    let mut ends = None;
    for k in 0..source.len() {
        let arranged = on.and(ends);
        let taken = take_next::<Q, U, A>(source, &mut advancer, on, is_cyclic);
        let to = pointer_at::<P>(k + 1, generation);
        let t = map(taken.ptr, taken.value, to);
        is_cyclic = taken.is_cyclic;
        ends = append_link(target, is_cyclic, arranged, to, t);
        on = taken.next;
    }
}

fn pointer_at<P: PtrKey>(index: usize, generation: P::Gen) -> P
    requires positive { 1 ≤ index }
    requires greatest { index ≤ P.Inx.greatest }
    ensures { P.key result ≡ (index, generation) }
{
    match P::Inx::try_from_usize(index) {
        Some(i) => P::_from_raw(i, generation),
        None => proved_unreachable!(),
    }
}

fn beside_end<P: PtrKey>(
    is_cyclic: bool,
    ends: Option<(P::Inx, P::Inx)>,
    i: P::Inx,
) -> Beside<P::Inx>
    ensures { (m : ℕ) → AreEnds P.Inx.number ends m (P.Inx.number i)
        → (option_map P.Inx.number result.0 ≡ end_before is_cyclic m (P.Inx.number i))
        × (option_map P.Inx.number result.1 ≡ end_after is_cyclic m (P.Inx.number i)) }
{
    match ends {
        None => if is_cyclic {
            (Some(i), Some(i))
        } else {
            (None, None)
        },
        Some((first, last)) => (Some(last), if is_cyclic { Some(first) } else { None }),
    }
}

fn with_end<I: InxKey>(ends: Option<(I, I)>, i: I) -> Option<(I, I)>
    ensures { (m : ℕ) → AreEnds I.number ends m (I.number i)
        → AreEnds I.number result (m + 1) (I.number i + 1) }
{
    match ends {
        Some((first, _)) => Some((first, i)),
        None => Some((i, i)),
    }
}

fn append_link<P: PtrKey, T: Drop, S: SlotStack<Item = ArenaSlot<P, LinkNoGen<P, T>>>>(
    target: &mut ChainArena<P, T, S>,
    is_cyclic: bool,
    ends: Option<(P::Inx, P::Inx)>,
    to: P,
    t: T,
) -> Option<(P::Inx, P::Inx)>
    requires ends { (m : ℕ) × AreEnds P.Inx.number ends m (next_index target.old)
        × HasPositionAtEnd is_cyclic m target.old }
    requires capacity { entry_count target.old < target.old.capacity }
    requires index { (P.key to).0 ≡ next_index target.old }
    ensures arranged { (m : ℕ) → AreEnds P.Inx.number ends m (next_index target.old)
        → (target.new ≡ with_link_at_end is_cyclic m target.old t)
        × AreEnds P.Inx.number result (m + 1) (next_index target.old + 1) }
    ensures listed { IsListed target.old }
{
    let i = to.inx();
    target.insert_between(beside_end::<P>(is_cyclic, ends, i), t);
    with_end(ends, i)
}

/// States that compressions and transfers give links the same indexes and neighbors.
pub fn compression_and_transfer_agree<
    P: PtrKey,
    T: Drop,
    Q: PtrKey,
    U: Drop,
    F: FnMut(Q, InvalidationOption<U>, P) -> T + Drop,
>()
    ensures { ArrangesAlike Q.key P.key Q.Gen.first Q.Gen.following Q.Gen.wraps F.FnMut }
{}

/// States that canonical compressions move values between valid pointers.
pub fn compression_moves_pointers<P: PtrKey, T: Drop>()
    ensures moves { CompressionMovesPointers T P.key P.Gen.first P.Gen.following }
    ensures exists { CompressionHasMoves T P.Gen.first P.Gen.following }
{}

/// States that transfers move links between valid pointers.
pub fn transfer_moves_pointers<
    P: PtrKey,
    T: Drop,
    Q: PtrKey,
    U: Drop,
    F: FnMut(Q, InvalidationOption<U>, P) -> T + Drop,
>()
    ensures { TransferMovesPointers Q.key P.key Q.Gen.following Q.Gen.wraps F.FnMut }
{}
