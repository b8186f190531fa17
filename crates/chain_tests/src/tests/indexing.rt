//! Values by valid pointers and indexes.

ghost use Rattle.std.specs.Prelude.{◌≡◌};
ghost use Rattle.arena_ptr.specs.ToolPtr.{key_of};
ghost use Rattle.arena_traits.specs.Arena.{IsValid};
ghost use Rattle.chain_links.specs.ChainArena.{entry, with_value_at};

use super::{ChainsOver, Slot};
use arena_base::ArenaTrait;
use arena_ptr::{Inx32, PtrKey, SlotStack, ToolPtr};

// Returns the value by a pointer and by its index, if the pointer is valid.
pub(super) fn value_at<S: SlotStack<Item = Slot>>(
    arena: &ChainsOver<S>,
    p: ToolPtr,
) -> Option<(u32, u32)> {
    if arena.contains(p) {
        Some((arena[p], *arena.get_inx_unwrap(p.inx())))
    } else {
        None
    }
}

// Writes a value, and returns whether the pointer is valid. Nothing else changes.
pub(super) fn write_at<S: SlotStack<Item = Slot>>(
    arena: &mut ChainsOver<S>,
    p: ToolPtr,
    t: u32,
) -> bool
    ensures { IsValid (entry arena.old) (key_of p)
        → arena.new ≡ with_value_at arena.old (key_of p).0 t }
{
    if !arena.contains(p) {
        return false;
    }
    arena[p] = t;
    true
}

pub(super) fn write_at_index<S: SlotStack<Item = Slot>>(
    arena: &mut ChainsOver<S>,
    i: Inx32,
    t: u32,
) -> bool {
    if arena.get_inx(i).is_none() {
        return false;
    }
    *arena.get_inx_mut_unwrap(i) = t;
    true
}
