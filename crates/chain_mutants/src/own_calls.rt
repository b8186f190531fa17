// Forwarding wrappers of calls that no trait has, or whose contract states more than the trait's.
ghost use Rattle.std.specs.Prelude.{◌≡◌, ◌≤◌, ◌+◌, length, IsOk, OnSome};
ghost use Rattle.arena_traits.specs.Arena.{IsValid, ReachesCapacity, entry_count};
ghost use Rattle.arena_traits.specs.Entries.{count};
ghost use Rattle.chain_links.specs.ChainArena.{entry};
ghost use Rattle.chain_arena.specs.ChainTransfers.{IsChainTransferred, TransfersOrRefuses};
ghost use Rattle.chain_arena.specs.Drains.{walk_left, without_each};
ghost use Rattle.chain_arena.specs.Effects.{HaveSameCapacity, SucceedsOrRefuses};
ghost use Rattle.chain_arena.specs.Transfers.{IsTransfer};

use arena_base::{ArenaSlot, ArenaTrait, CompactArenaTrait, Work};
use arena_ptr::{InvalidationOption, InxKey, PtrKey, ReallocationError, SlotStack};
use chain_arena::{ChainArena, ChainArenaTrait, LinkNoGen};

/// Removes all links of the chain of `p`, by dropping `ChainArena::drain_chain` at once.
///
/// Returns `None` and changes nothing if `p` is not valid.
pub fn remove_chain<P: PtrKey, T: Drop, S: SlotStack<Item = ArenaSlot<P, LinkNoGen<P, T>>>>(
    arena: &mut ChainArena<P, T, S>,
    p: P,
) -> Option<()>
    ensures { OnSome result (arena.new ≡ without_each P.Gen.following arena.old
        (walk_left arena.old (P.key p).0)) }
{
    match arena.drain_chain(p) {
        Some(links) => {
            drop(links);
            Some(())
        }
        None => None,
    }
}

/// Forwards to `ChainArena::compress_canonical_counted`, under its clause on the touched slots.
pub fn compress_canonical_counted<
    P: PtrKey,
    T: Drop,
    S: SlotStack<Item = ArenaSlot<P, LinkNoGen<P, T>>>,
>(arena: &mut ChainArena<P, T, S>, reset: bool) -> (InvalidationOption<()>, Work)
    ensures { arena.new.touched ≡ arena.old.touched + result.1.touched }
{
    arena.compress_canonical_counted(reset)
}

/// Forwards to `ChainArena::transfer_canonical_reallocating`, under its contract.
pub fn transfer_canonical_reallocating<
    P: PtrKey,
    T: Drop,
    S: SlotStack<Item = ArenaSlot<P, LinkNoGen<P, T>>>,
    Q: PtrKey,
    U: Drop,
    A: ChainArenaTrait<Q, U> + CompactArenaTrait<Q, U>,
    F: FnMut(Q, InvalidationOption<U>, P) -> T + Drop,
>(
    target: &mut ChainArena<P, T, S>,
    new_generation: P::Gen,
    source: &mut A,
    map: F,
) -> Result<(), ReallocationError>
    requires { F.IsAlwaysCallable map }
    ensures transferred { SucceedsOrRefuses (count (A.view source.old)) P.Inx.greatest
        target.old.maximum
        (IsTransfer Q.key P.key Q.Gen.following Q.Gen.wraps F.FnMut new_generation map
        (A.view source.old) (A.interlinks source.old) (A.view source.new) target.old target.new
        × ReachesCapacity S.may_reach P.Inx.greatest (count (A.view source.old))
        target.old target.new)
        ((target.new ≡ target.old) × (source.new ≡ source.old)) result }
    ensures within { count (A.view source.old) ≤ target.old.capacity
        → IsOk result × HaveSameCapacity target.new target.old }
{
    target.transfer_canonical_reallocating(new_generation, source, map)
}

/// Forwards to `ChainArena::transfer_chain`, under its outcome.
pub fn transfer_chain<
    P: PtrKey,
    T: Drop,
    S: SlotStack<Item = ArenaSlot<P, LinkNoGen<P, T>>>,
    Q: PtrKey,
    U: Drop,
    R: SlotStack<Item = ArenaSlot<Q, LinkNoGen<Q, U>>>,
    F: FnMut(P, InvalidationOption<T>, Q) -> U + Drop,
>(
    source: &mut ChainArena<P, T, S>,
    p: P,
    target: &mut ChainArena<Q, U, R>,
    map: F,
) -> Result<Option<Q>, ReallocationError>
    requires { F.IsAlwaysCallable map }
    ensures { TransfersOrRefuses (IsValid (entry source.old) (P.key p))
        (entry_count target.old + length (walk_left source.old (P.key p).0)) Q.Inx.greatest
        target.old.maximum
        (λ q. IsChainTransferred P.key Q.key P.Gen.following P.Gen.wraps F.FnMut map (P.key p) q
        source.old source.new target.old target.new
        × ReachesCapacity R.may_reach Q.Inx.greatest
        (entry_count target.old + length (walk_left source.old (P.key p).0)) target.old target.new)
        ((source.new ≡ source.old) × (target.new ≡ target.old)) result }
{
    source.transfer_chain(p, target, map)
}
