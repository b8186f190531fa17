// Exchanges of values, and copies, of any plain arena.

use super::holds;
use arena_base::{Arena, CloneArenaTrait, PlainArenaTrait};
use arena_ptr::{PtrKey, ReallocationError, ToolPtr};
use forwarding_arena::ForwardingArena;
use std::alloc::Global;
use std::process::Abort;

fn has<P: PtrKey, A: PlainArenaTrait<P, u32>>(arena: &A, p: P, q: P, values: (u32, u32)) -> bool {
    arena.get(p).copied() == Some(values.0) && arena.get(q).copied() == Some(values.1)
}

// Returns whether two values are exchanged, and nothing changes with one pointer twice, or with one
// that is not valid.
fn exchanges<P: PtrKey, A: PlainArenaTrait<P, u32> + Drop>(
    alloc: Global,
) -> Result<bool, ReallocationError> {
    let mut arena = A::new(alloc);
    let p = arena.insert_reallocating(1)?;
    let q = arena.insert_reallocating(2)?;
    let once = arena.swap(p, q).is_some() && has(&arena, p, q, (2, 1));
    let itself = arena.swap(q, q).is_some() && has(&arena, p, q, (2, 1));
    arena.remove(q);
    let gone = arena.swap(p, q).is_none() && arena.swap(q, p).is_none();
    Ok(once && itself && gone && arena.get(p).copied() == Some(2))
}

// Returns whether a copy has the entries, and inserts at the index that was freed, and a write
// leaves the source alone.
fn copies<P: PtrKey, A: CloneArenaTrait<P, u32> + Drop>(
    alloc: Global,
) -> Result<bool, ReallocationError> {
    let mut arena = A::new(alloc);
    let p = arena.insert_reallocating(1)?;
    let q = arena.insert_reallocating(2)?;
    let r = arena.insert_reallocating(3)?;
    arena.remove(q);
    let mut copy = arena.try_clone(alloc)?;
    let alike = copy.len() == 2 && has(&copy, p, r, (1, 3)) && !copy.contains(q);
    copy.replace(p, 7);
    let next = copy.insert_reallocating(4)?;
    let also = arena.insert_reallocating(5)?;
    Ok(alike && next.is_same(also) && has(&copy, p, next, (7, 4)) && has(&arena, p, also, (1, 5)))
}

#[test]
fn values_are_exchanged(rt: HostRuntime) {
    let plain = exchanges::<ToolPtr, Arena<ToolPtr, u32>>(rt.alloc());
    let forwarded = exchanges::<ToolPtr, ForwardingArena<Arena<ToolPtr, u32>>>(rt.alloc());
    holds(&rt, "exchanges", plain == Ok(true) && forwarded == Ok(true));
}

#[test]
fn copies_are_alike(rt: HostRuntime) {
    let copied = copies::<ToolPtr, Arena<ToolPtr, u32>>(rt.alloc());
    holds(&rt, "copies", copied == Ok(true));
}
