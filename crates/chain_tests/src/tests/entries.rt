//! Vacant entries for new links: filled, dropped and forgotten.

ghost use Rattle.std.specs.Prelude.{◌≡◌, ◌↔◌, IfOk, OnOk, OnErr, Err};
ghost use Rattle.arena_ptr.specs.ToolPtr.{key_of};
ghost use Rattle.arena_traits.specs.Arena.{next_index, with_capacity_of};
ghost use Rattle.chain_links.specs.ChainArena.{link_map, value_state};
ghost use Rattle.chain_links.specs.Insertions.{MayInsertIn};
ghost use Rattle.chain_arena.specs.NewLinks.{with_new_link};

use super::inherent_call_tables::{FULL, FULL_STILL, GROWN};
use super::scripts::plays;
use super::{ChainsOver, Slot, fresh_limited, holds};
use arena_base::ArenaTrait;
use arena_ptr::{
    AnyPointer, ChainInsertionError, LimitStack, ReallocationError, SetMaxCapacity, SlotStack,
    ToolPtr,
};
use chain_arena::{ChainArenaTrait, LinkInsertKind};
use std::alloc::Global;
use std::mem;
use std::process::Abort;

// Inserts a link by a vacant entry, with the effect of an insertion in one call.
pub(super) fn insert_by_entry<S: SlotStack<Item = Slot>>(
    arena: &mut ChainsOver<S>,
    kind: LinkInsertKind<ToolPtr>,
    t: u32,
) -> Result<ToolPtr, ChainInsertionError>
    ensures place { IfOk result (λ p. key_of p ≡ (next_index arena.old, arena.old.counter)) }
    ensures state { OnOk result
        (arena.new ≡ with_capacity_of
        (with_new_link ⟦<ToolPtr as AnyPointer>⟧.pointers arena.old kind t) arena.new) }
    ensures err { OnErr result (arena.new ≡ arena.old) }
    ensures link { (result ≡ Err ChainInsertionError.FailedLinkRequirement)
        ↔ ¬ MayInsertIn value_state link_map ⟦<ToolPtr as AnyPointer>⟧.pointers arena.old kind }
{
    let entry = arena.entry_insert_reallocating(kind)?;
    let p = entry.ptr();
    entry.insert(t);
    Ok(p)
}

// Drops a vacant entry, and returns its pointer.
pub(super) fn drop_entry<S: SlotStack<Item = Slot>>(
    arena: &mut ChainsOver<S>,
    kind: LinkInsertKind<ToolPtr>,
) -> Result<ToolPtr, ChainInsertionError>
    ensures place { IfOk result (λ p. key_of p ≡ (next_index arena.old, arena.old.counter)) }
    ensures same { arena.new ≡ with_capacity_of arena.old arena.new }
{
    match arena.entry_insert_reallocating(kind) {
        Ok(entry) => Ok(entry.ptr()),
        Err(refusal) => Err(refusal),
    }
}

// Forgets a vacant entry, or returns its error.
pub(super) fn forget<S: SlotStack<Item = Slot>>(
    arena: &mut ChainsOver<S>,
    kind: LinkInsertKind<ToolPtr>,
) -> Option<ChainInsertionError> {
    match arena.entry_insert_reallocating(kind) {
        Ok(entry) => {
            mem::forget(entry);
            None
        }
        Err(refusal) => Some(refusal),
    }
}

// Inserts a link, if `can_insert` allows its kind.
pub(super) fn insert_if_allowed<S: SlotStack<Item = Slot>>(
    arena: &mut ChainsOver<S>,
    kind: LinkInsertKind<ToolPtr>,
    t: u32,
) -> Option<Result<ToolPtr, ReallocationError>> {
    if arena.can_insert(kind) {
        Some(arena.insert(kind, t))
    } else {
        None
    }
}

// Inserts a link by a vacant entry, if `can_insert` allows its kind.
pub(super) fn insert_by_any_entry<S: SlotStack<Item = Slot>>(
    arena: &mut ChainsOver<S>,
    kind: LinkInsertKind<ToolPtr>,
    t: u32,
) -> Option<Result<ToolPtr, ReallocationError>> {
    if !arena.can_insert(kind) {
        return None;
    }
    match arena.entry_insert(kind) {
        Ok(entry) => {
            let p = entry.ptr();
            entry.insert(t);
            Some(Ok(p))
        }
        Err(refusal) => Some(Err(refusal)),
    }
}

// Returns the errors of a vacant entry by growth and within the capacity.
pub(super) fn entry_refusals<S: SlotStack<Item = Slot>>(
    arena: &mut ChainsOver<S>,
    kind: LinkInsertKind<ToolPtr>,
) -> [Option<ChainInsertionError>; 2] {
    let growing = drop_entry(arena, kind).err();
    let within = match arena.entry_insert_within_capacity(kind) {
        Ok(_) => None,
        Err(refusal) => Some(refusal),
    };
    [growing, within]
}

// Checks that a kind's requirement is tested before the capacity, and that refused calls change
// nothing.
pub(super) fn check_full<S: LimitStack<Item = Slot>>(rt: &impl Abort, alloc: Global) {
    let mut arena: ChainsOver<S> = fresh_limited(rt, alloc, 2);
    plays(rt, alloc, &mut arena, FULL);
    let less = arena.set_max_capacity(1);
    holds(rt, "no less maximum", less.is_err());
    plays(rt, alloc, &mut arena, FULL_STILL);
}

// Checks that each call that grows an arena does so within its maximum.
pub(super) fn check_growths<S: LimitStack<Item = Slot>>(rt: &impl Abort, alloc: Global) {
    let mut arena: ChainsOver<S> = fresh_limited(rt, alloc, 8);
    plays(rt, alloc, &mut arena, GROWN);
}
