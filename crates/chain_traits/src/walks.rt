//! Walks along one chain.
ghost use Rattle.std.specs.Prelude.{◌≡◌, ◌↔◌, IsSome, IfSome, IfNone, IfOk, All, map};
ghost use Rattle.chain_laws.specs.Walks.{IsWalk, passes_ahead, walker_at};
ghost use Rattle.arena_traits.specs.Arena.{IsValid};
ghost use Rattle.arena_traits.specs.Entries.{count};
ghost use Rattle.chain_traits.specs.ChainVisits.{VisitsChain};

use crate::chain_traits::ChainArenaTrait;
use arena_ptr::{InxKey, PtrKey};
use arena_traits::Advancer;
use std::alloc::{AllocError, Global};

/// States that an advancer from `p` passes its walk in an unchanged arena.
pub fn advancer_passes_the_walk<P: PtrKey, T: Drop, A: ChainArenaTrait<P, T>>(arena: &A, p: P)
    ensures { IsValid (A.entry arena.now) (P.key p) → IsWalk (A.interlinks arena.now) (P.key p).0
        (passes_ahead (A.interlinks arena.now)
        (walker_at (A.interlinks arena.now) (count (A.view arena.now)) (P.key p).0)) }
{
    arena.invariants();
}

/// Returns the chain of `p` in walk order; `None` if `p` is invalid.
///
/// # Errors
///
/// - `AllocError`: an allocation failed.
pub fn walk<P: PtrKey, T: Drop, A: ChainArenaTrait<P, T>>(
    arena: &A,
    alloc: Global,
    p: P,
) -> Result<Option<Vec<P>>, AllocError>
    ensures some { IfOk result (λ r. IsSome r ↔ IsValid (A.entry arena.now) (P.key p)) }
    ensures walk { IfOk result (λ r. IfSome r (λ ptrs. IsWalk (A.interlinks arena.now) (P.key p).0
        (map (λ q. (P.key q).0) ptrs.items))) }
    ensures valid { IfOk result (λ r. IfSome r (λ ptrs.
        All (λ q. IsValid (A.entry arena.now) (P.key q)) ptrs.items)) }
{
    advancer_passes_the_walk(arena, p);
    let mut along = match arena.advancer_chain(p) {
        Some(along) => along,
        None => return Ok(None),
    };
    let mut ptrs = Vec::new(alloc);
    while let Some(q) = along.advance(arena) {
        ptrs.push(q)?;
    }
    Ok(Some(ptrs))
}

/// Passes each value of a chain to a closure in walk order; `None` if `p` is invalid.
///
/// # Examples
///
/// ```rust
/// let mut arena: ChainArena<ToolPtr, u32> = ChainArena::new(alloc);
/// let a = arena.insert_reallocating(LinkInsertKind::Disconnected, 1)?;
/// let b = arena.insert_reallocating(LinkInsertKind::ChainEnd(a), 2)?;
/// for_each_in_chain(&mut arena, a, |_, value| *value = 7); // 7, 7
/// assert!(rt; arena.get(a) == Some(&7) && arena.get(b) == Some(&7));
/// ```
pub fn for_each_in_chain<P: PtrKey, T: Drop, A: ChainArenaTrait<P, T>, F: FnMut(P, &mut T) + Drop>(
    arena: &mut A,
    p: P,
    mut f: F,
) -> Option<()>
    requires { F.IsAlwaysCallable f }
    ensures outcome { VisitsChain A.state A.interlinks F.FnMut P.key f arena.old p result
        arena.new }
    ensures none { IfNone result (arena.new ≡ arena.old) }
{
    advancer_passes_the_walk(&*arena, p);
    let mut along = match arena.advancer_chain(p) {
        Some(along) => along,
        None => return None,
    };
    while let Some(q) = along.advance(&*arena) {
        if let Some(value) = arena.get_mut(q) {
            f(q, value);
        }
    }
    Some(())
}
