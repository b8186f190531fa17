// Functions of `ChainArenaTrait`.
ghost use Rattle.chain_links.specs.CallEffects.{BreaksNext, SplicesAfter, RemovesLink, CompressesLinks};

use arena_ptr::{AnyPointer, InvalidationOption, InvalidationResult, PtrKey};
use chain_links::LinkNoGen;
use chain_traits::ChainArenaTrait;

/// Forwards to `ChainArenaTrait::break_next`, under its outcome.
pub fn break_next<P: PtrKey, T: Drop, A: ChainArenaTrait<P, T>>(arena: &mut A, p: P) -> Option<()>
    ensures { BreaksNext A.state A.interlinks P.key arena.old p result arena.new }
{
    arena.break_next(p)
}

/// Forwards to `ChainArenaTrait::splice_after`, under its outcome.
pub fn splice_after<P: PtrKey, T: Drop, A: ChainArenaTrait<P, T>>(
    arena: &mut A,
    p: P,
    first: P,
    last: P,
) -> Option<()>
    ensures { SplicesAfter A.state A.interlinks P.key arena.old p first last result arena.new }
{
    arena.splice_after(p, first, last)
}

/// Forwards to `ChainArenaTrait::remove_link_no_gen`, under its outcome.
pub fn remove_link_no_gen<P: PtrKey, T: Drop, A: ChainArenaTrait<P, T>>(
    arena: &mut A,
    p: P,
) -> InvalidationResult<LinkNoGen<P, T>>
    ensures { RemovesLink A.state A.interlinks ⟦<P as AnyPointer>⟧.pointers arena.old p result
        arena.new }
{
    arena.remove_link_no_gen(p)
}

/// Forwards to `ChainArenaTrait::compress_canonical`, under its outcome.
pub fn compress_canonical<P: PtrKey, T: Drop, A: ChainArenaTrait<P, T>>(
    arena: &mut A,
    reset: bool,
) -> InvalidationOption<()>
    ensures { CompressesLinks A.state A.interlinks ⟦<P as AnyPointer>⟧.pointers arena.old reset
        result arena.new }
{
    arena.compress_canonical(reset)
}
