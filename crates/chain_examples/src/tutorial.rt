//! Functions proved from the contract of `ChainArenaTrait` alone.

ghost use Rattle.std.specs.Prelude.{◌≡◌, ◌↔◌, ℕ, List, None, Some, IsSome, IfSome, IfNone, IsTrue, IsFalse, IfOk, OnErr};
ghost use Rattle.std.specs.Option.{option_map};
ghost use Rattle.chain_laws.specs.Chains.{linear, cyclic, IsChain, first_or, last_or, next_of};
ghost use Rattle.chain_laws.specs.declared.insert_kind.InsertKind.TheVariants.{NextTo};
ghost use Rattle.chain_laws.specs.Neighbors.{AreNeighbors};
ghost use Rattle.arena_core.specs.Invalidation.{value_within};
ghost use Rattle.arena_traits.specs.Arena.{IsValid};
ghost use Rattle.arena_traits.specs.CallOutcomes.{ReportsOverflow};
ghost use Rattle.chain_links.specs.CallEffects.{IsConnected, IsRemoved};
ghost use Rattle.chain_links.specs.ChainArena.{CanConnect};
ghost use Rattle.chain_links.specs.Insertions.{InsertsLink};
ghost use Rattle.chain_examples.specs.Owners.{SetsOwners};
ghost use Rattle.chain_examples.specs.Places.{FindsPlace, ReadsValues};

use arena_ptr::{AnyPointer, ChainInsertionError, GenKey, InvalidationResult, InxKey, PtrKey};
use arena_traits::Advancer;
use chain_links::LinkInsertKind;
use chain_traits::ChainArenaTrait;
use chain_traits::walks::{advancer_passes_the_walk, for_each_in_chain};
use std::alloc::{AllocError, Global};

/// Connects `p` to `q`, so that `q` is the link after `p`, and returns whether it succeeded.
///
/// All other chains and all values stay the same. On failure, the arena is unchanged.
pub fn connect_pair<P: PtrKey, T: Drop, A: ChainArenaTrait<P, T>>(arena: &mut A, p: P, q: P) -> bool
    ensures connected { IsTrue result
        ↔ CanConnect (A.entry arena.old) (A.interlinks arena.old) (P.key p) (P.key q) }
    ensures links { IsTrue result → IsConnected A.state A.interlinks arena.old arena.new
        (P.key p).0 (P.key q).0 }
    ensures refused { IsFalse result → arena.new ≡ arena.old }
{
    match arena.connect(p, q) {
        Some(()) => true,
        None => false,
    }
}

/// Removes the link at `i` and returns the next index, if any, as `GenerationOverflow` if the
/// counter wrapped.
///
/// `InvalidPtr`: there is no link at `i`.
pub fn remove_and_step<P: PtrKey, T: Drop, A: ChainArenaTrait<P, T>>(
    arena: &mut A,
    i: P::Inx,
) -> InvalidationResult<Option<P::Inx>>
    ensures outcome { ReportsOverflow P.Gen.wraps (A.view arena.old).counter
        (A.entry arena.old (P.Inx.number i) ≡ None)
        (λ next. IsSome (A.entry arena.old (P.Inx.number i))
        × (option_map P.Inx.number next ≡ next_of (A.interlinks arena.old) (P.Inx.number i))
        × IsRemoved A.state A.interlinks arena.old arena.new P.Gen.following (P.Inx.number i))
        result }
    ensures invalid { IfNone (value_within result) (arena.new ≡ arena.old) }
{
    match arena.remove_inx_link_no_gen(i) {
        InvalidationResult::Success((_, link)) => InvalidationResult::Success(link.next()),
        InvalidationResult::GenerationOverflow((_, link)) => {
            InvalidationResult::GenerationOverflow(link.next())
        }
        InvalidationResult::InvalidPtr => InvalidationResult::InvalidPtr,
    }
}

/// Connects the end `p` of a chain to its start `q`, and returns whether it succeeded.
pub fn close<P: PtrKey, T: Drop, A: ChainArenaTrait<P, T>>(arena: &mut A, p: P, q: P) -> bool
    ensures closed { IsTrue result
        ↔ CanConnect (A.entry arena.old) (A.interlinks arena.old) (P.key p) (P.key q) }
    ensures ring { IsTrue result → (xs : List ℕ) → IsChain (A.interlinks arena.old) (linear xs)
        → first_or xs None ≡ Some (P.key q).0 → last_or xs None ≡ Some (P.key p).0
        → IsChain (A.interlinks arena.new) (cyclic xs) }
    ensures links { IsTrue result → IsConnected A.state A.interlinks arena.old arena.new
        (P.key p).0 (P.key q).0 }
    ensures refused { IsFalse result → arena.new ≡ arena.old }
{
    match arena.connect(p, q) {
        Some(()) => true,
        None => false,
    }
}

/// Inserts a link directly after `p`.
///
/// # Errors
///
/// - `FailedLinkRequirement`: `p` is not valid.
/// - `BeyondMaxCapacity`: growth exceeds the maximum.
/// - `AllocError`: an allocation failed, or the greatest index is reached.
pub fn put_behind<P: PtrKey, T: Drop, A: ChainArenaTrait<P, T>>(
    arena: &mut A,
    p: P,
    t: T,
) -> Result<P, ChainInsertionError>
    ensures outcome { InsertsLink A.state A.interlinks ⟦<P as AnyPointer>⟧.pointers arena.old
        (NextTo p) t result arena.new }
    ensures behind { IfOk result (λ q.
        AreNeighbors (A.interlinks arena.new) (P.key p).0 (P.key q).0) }
    ensures err { OnErr result (arena.new ≡ arena.old) }
{
    arena.insert_reallocating(LinkInsertKind::NextTo(p), t)
}

/// Returns the pointer after `p`, or `None`.
pub fn after<P: PtrKey, T: Drop, A: ChainArenaTrait<P, T>>(arena: &A, p: P) -> Option<P>
    ensures next { IfSome result (λ q. IsValid (A.entry arena.now) (P.key q)
        × (next_of (A.interlinks arena.now) (P.key p).0 ≡ Some (P.key q).0)) }
    ensures some { IsSome result ↔ (IsValid (A.entry arena.now) (P.key p)
        × IsSome (next_of (A.interlinks arena.now) (P.key p).0)) }
{
    match arena.get_link(p) {
        Some(link) => link.next(),
        None => None,
    }
}

/// Returns the place of `q` in the walk from `p`, from 0 on, or `None` if it is not there.
pub fn place_in_walk<P: PtrKey, T: Drop, A: ChainArenaTrait<P, T>>(
    arena: &A,
    p: P,
    q: P,
) -> Option<usize>
    ensures { FindsPlace (A.entry arena.now) (A.interlinks arena.now) (P.key p) (P.key q) result }
{
    advancer_passes_the_walk(arena, p);
    arena.len();
    let mut along = match arena.advancer_chain(p) {
        Some(along) => along,
        None => return None,
    };
    let mut n = 0;
    while let Some(r) = along.advance(arena) {
        if r.is_same(q) {
            return Some(n);
        }
        n += 1;
    }
    None
}

/// Returns the values of the walk from `p`, in order, or `None` if `p` is not valid.
///
/// # Errors
///
/// - `AllocError`: an allocation failed.
pub fn values_from<P: PtrKey, A: ChainArenaTrait<P, u32>>(
    arena: &A,
    alloc: Global,
    p: P,
) -> Result<Option<Vec<u32>>, AllocError>
    ensures { IfOk result (λ r. ReadsValues (A.entry arena.now) (A.interlinks arena.now) (P.key p)
        (option_map (λ values. values.items) r)) }
{
    advancer_passes_the_walk(arena, p);
    let mut along = match arena.advancer_chain(p) {
        Some(along) => along,
        None => return Ok(None),
    };
    let mut values = Vec::new(alloc);
    while let Some(q) = along.advance(arena) {
        match arena.get(q) {
            Some(value) => values.push(*value)?,
            None => unreachable!(),
        }
    }
    Ok(Some(values))
}

/// Sets the owner of the chain of `p`; `None` if `p` is not valid.
pub fn set_owners<P: PtrKey, K: Drop, A: ChainArenaTrait<P, (K, P)>>(
    arena: &mut A,
    p: P,
    owner: P,
) -> Option<()>
    ensures { SetsOwners A.view A.entry A.interlinks arena.old (P.key p) owner result arena.new }
{
    for_each_in_chain(arena, p, |_q: P, value: &mut (K, P)| value.1 = owner)
}
