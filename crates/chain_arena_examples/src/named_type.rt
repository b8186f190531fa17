ghost use Rattle.std.specs.Prelude.{◌≡◌, None, Some, IfSome, OnSome, IfNone, IfOk, OnErr};
ghost use Rattle.arena_core.specs.Invalidation.{value_within};
ghost use Rattle.arena_traits.specs.Arena.{IsValid};
ghost use Rattle.arena_traits.specs.CallOutcomes.{RemovesEntry};
ghost use Rattle.arena_ptr.specs.ToolPtr.{key_of};
ghost use Rattle.chain_laws.specs.Chains.{next_of};
ghost use Rattle.chain_laws.specs.declared.insert_kind.InsertKind.TheVariants.{NextTo};
ghost use Rattle.chain_laws.specs.Neighbors.{AreNeighbors};
ghost use Rattle.chain_laws.specs.Removals.{with_removal};
ghost use Rattle.chain_links.specs.Insertions.{InsertsLink};
ghost use Rattle.chain_links.specs.ChainArena.{entry, value_state, link_map};

use arena_base::ArenaTrait;
use arena_ptr::{AnyPointer, ChainInsertionError, InvalidationResult, ToolPtr};
use chain_arena::{ChainArena, ChainArenaTrait, LinkInsertKind};

/// Removes a link and returns its value, as `GenerationOverflow` if the counter wrapped to two.
///
/// `InvalidPtr`: `p` is not valid.
pub fn remove_value(arena: &mut ChainArena<ToolPtr, u32>, p: ToolPtr) -> InvalidationResult<u32>
    ensures outcome { RemovesEntry value_state ⟦<ToolPtr as AnyPointer>⟧.pointers arena.old p
        result arena.new }
    ensures links { OnSome (value_within result)
        (link_map arena.new ≡ with_removal (link_map arena.old) (key_of p).0) }
    ensures invalid { IfNone (value_within result) (arena.new ≡ arena.old) }
{
    arena.remove(p)
}

/// Inserts a link directly after `p`.
///
/// # Errors
///
/// - `FailedLinkRequirement`: `p` is not valid.
/// - `BeyondMaxCapacity`: growth exceeds the maximum.
/// - `AllocError`: an allocation failed, or the greatest index is reached.
pub fn insert_behind(
    arena: &mut ChainArena<ToolPtr, u32>,
    p: ToolPtr,
    t: u32,
) -> Result<ToolPtr, ChainInsertionError>
    ensures outcome { InsertsLink value_state link_map ⟦<ToolPtr as AnyPointer>⟧.pointers
        arena.old (NextTo p) t result arena.new }
    ensures behind { IfOk result (λ q.
        AreNeighbors (link_map arena.new) (key_of p).0 (key_of q).0) }
    ensures err { OnErr result (arena.new ≡ arena.old) }
{
    arena.insert_reallocating(LinkInsertKind::NextTo(p), t)
}

/// Returns the pointer after `p`, or `None`.
pub fn pointer_after(arena: &ChainArena<ToolPtr, u32>, p: ToolPtr) -> Option<ToolPtr>
    ensures some { IfSome result (λ q. IsValid (entry arena.now) (key_of q)
        × (next_of (link_map arena.now) (key_of p).0 ≡ Some (key_of q).0)) }
    ensures invalid { ¬ IsValid (entry arena.now) (key_of p) → result ≡ None }
    ensures none { IsValid (entry arena.now) (key_of p) → result ≡ None
        → next_of (link_map arena.now) (key_of p).0 ≡ None }
{
    match arena.get_link(p) {
        Some(link) => link.next(),
        None => None,
    }
}
