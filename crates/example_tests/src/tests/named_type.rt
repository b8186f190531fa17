//! Tests of the functions on a named type.

use super::{Named, Wrong, number_of, value_of};
use arena_ptr::{InvalidationResult, ToolPtr};
use chain_arena::ChainArena;
use chain_arena_examples::named_type::{insert_behind, pointer_after, remove_value};
use chain_links::LinkInsertKind;
use chain_traits::ChainArenaTrait;
use std::alloc::Global;

/// The functions on the type, so that only its implementation names it.
pub(super) trait NamedCalls<P: Named>: ChainArenaTrait<P, u32> + Drop {
    /// Returns the new link's pointer, or 0 if it is refused.
    fn behind(&mut self, p: P, t: u32) -> u32;

    /// Returns the pointer of the link after `p`, or 0.
    fn pointer_after(&self, p: P) -> u32;

    /// Returns the value of the removed link, with 0x100 on an overflow, or 0 if `p` is not valid.
    fn removed(&mut self, p: P) -> u32;
}

impl NamedCalls<ToolPtr> for ChainArena<ToolPtr, u32> {
    fn behind(&mut self, p: ToolPtr, t: u32) -> u32 {
        number_of(insert_behind(self, p, t).ok())
    }

    fn pointer_after(&self, p: ToolPtr) -> u32 {
        number_of(pointer_after(self, p))
    }

    fn removed(&mut self, p: ToolPtr) -> u32 {
        match remove_value(self, p) {
            InvalidationResult::Success(t) => t,
            InvalidationResult::GenerationOverflow(t) => t.wrapping_add(0x100),
            InvalidationResult::InvalidPtr => 0,
        }
    }
}

// A call.
#[derive(Clone, Copy)]
enum Op {
    Behind,
    After,
    Remove,
    Read,
}

// A call, a pointer, a value, and what the call returns. Before the first row there is a link with
// the value 1.
type Row = (Op, u32, u32, u32);

const ROWS: [Row; 14] = [
    (Op::Behind, 0x12, 3, 0x22),
    (Op::Behind, 0x12, 2, 0x32),
    (Op::Behind, 0x13, 9, 0),
    (Op::Read, 0x22, 0, 3),
    (Op::Read, 0x32, 0, 2),
    (Op::After, 0x12, 0, 0x32),
    (Op::After, 0x32, 0, 0x22),
    (Op::After, 0x22, 0, 0),
    (Op::After, 0x13, 0, 0),
    (Op::Remove, 0x32, 0, 2),
    (Op::Remove, 0x32, 0, 0),
    (Op::After, 0x12, 0, 0x22),
    (Op::Behind, 0x22, 4, 0x33),
    (Op::Read, 0x33, 0, 4),
];

fn number_after<P: Named, A: NamedCalls<P>>(arena: &mut A, row: &Row) -> u32 {
    let p = P::at(row.1);
    match row.0 {
        Op::Behind => arena.behind(p, row.2),
        Op::After => arena.pointer_after(p),
        Op::Remove => arena.removed(p),
        Op::Read => value_of(arena.get(p)),
    }
}

// Inserts the first link, again if an allocation fails.
fn is_started<P: Named, A: NamedCalls<P>>(arena: &mut A) -> bool {
    number_of(
        arena
            .insert_reallocating(LinkInsertKind::Disconnected, 1)
            .ok(),
    ) == 0x12
        || number_of(
            arena
                .insert_reallocating(LinkInsertKind::Disconnected, 1)
                .ok(),
        ) == 0x12
}

// Returns the first row that does not hold, at least on a second attempt.
pub(super) fn wrong<P: Named, A: NamedCalls<P>>(alloc: Global) -> Wrong {
    let mut arena = A::new(alloc);
    if !is_started(&mut arena) {
        return Some(ROWS.len());
    }
    for (place, row) in ROWS.iter().enumerate() {
        if number_after(&mut arena, row) != row.3 && number_after(&mut arena, row) != row.3 {
            return Some(place);
        }
    }
    None
}
