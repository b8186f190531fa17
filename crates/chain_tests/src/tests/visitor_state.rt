//! Tests that visitors and value maps are returned in the state they reached.

use super::plain_copies::PlainArena;
use super::{ChainsOver, Slot, fresh_limited, holds, lone_links, remove, same};
use arena_base::{ArenaTrait, ValueMap};
use arena_ptr::{AllocError, LimitStack, ReallocationError, SlotStack, ToolPtr};
use chain_arena::{LinkNoGen, Visitor};
use std::alloc::Global;
use std::process::Abort;
use test_types::lines::text;

// A visitor that counts links, and keeps both pointers of the last.
#[derive(Debug, Drop)]
struct Kept {
    count: u32,
    last: Option<(ToolPtr, ToolPtr)>,
}

impl Visitor<ToolPtr> for Kept {
    ghost use Rattle.std.specs.Prelude.{◌≡◌, ⊤, Some};

    ghost is_ready = { λ _. ⊤ };

    ghost sees = { λ _ p q w. w.last ≡ Some (p, q) };

    fn visit(&mut self, from: ToolPtr, to: ToolPtr) {
        self.count = self.count.saturating_add(1);
        self.last = Some((from, to));
    }
}

// A value map that adds one to each value, counts its calls, and refuses the value 3.
#[derive(Debug, Drop)]
struct Counting {
    calls: u32,
}

impl ValueMap<ToolPtr, LinkNoGen<ToolPtr, u32>, u32> for Counting {
    ghost use Rattle.std.specs.Prelude.{◌≡◌, ⊤};

    ghost is_ready = { λ _. ⊤ };

    ghost makes = { λ _ _ _ _ _. ⊤ };

    ghost may_refuse = { λ _ u. u.t ≡ 3 };

    fn map_value(&mut self, _p: ToolPtr, u: &LinkNoGen<ToolPtr, u32>) -> Result<u32, AllocError> {
        self.calls = self.calls.saturating_add(1);
        if u.t == 3 {
            return Err(AllocError);
        }
        Ok(u.t.saturating_add(1))
    }
}

// Returns the result, the visitor and the placed links of a canonical compression of the links 2
// and 3.
fn last_kept<S: SlotStack<Item = Slot>>(alloc: Global) -> String {
    let mut arena: ChainsOver<S> = lone_links(alloc, 3);
    remove(&mut arena, (1, 2));
    let begun = Kept {
        count: 0,
        last: None,
    };
    let (reply, visitor, work) = arena.compress_canonical_by(false, begun);
    text(alloc, (reply, visitor, work.placed))
}

// Copies lone links into an arena. Returns the result, the value map, and the arena.
fn counted_over<S: SlotStack<Item = Slot>>(
    alloc: Global,
    count: u32,
    target: &mut ChainsOver<S>,
) -> String {
    let source: ChainsOver<S> = lone_links(alloc, count);
    let (outcome, map) = target.clone_from_by(&source, Counting { calls: 0 });
    text(alloc, (outcome, map, &*target))
}

// The error of a copy, the calls of the value map, and the number of entries then.
type Report = (Option<ReallocationError>, u32, usize);

// Copies lone links into a plain arena of one entry.
fn counted_to_plain<S: SlotStack<Item = Slot>, A: PlainArena>(alloc: Global, count: u32) -> Report {
    let mut target = A::new(alloc);
    target.add(9);
    let source: ChainsOver<S> = lone_links(alloc, count);
    let (outcome, map) = source.clone_to_arena_by(&mut target, Counting { calls: 0 });
    (outcome.err(), map.calls, target.len())
}

pub(super) fn check_kept<S: SlotStack<Item = Slot>>(rt: &impl Abort, alloc: Global) {
    let reply = last_kept::<S>(alloc);
    let want = "(Success(()), Kept { count: 2, last: Some((P0[3](2), P0[2](4))) }, 2)";
    same(rt, "two links", reply.as_str(), want);
}

// Numbers of links, and the results of copies over one link and to a plain arena.
static COUNTED: [(u32, &str, Report); 2] = [
    (
        2,
        "(Ok(()), Counting { calls: 2 }, {P0[1](2): {(start), (end)} 2, P0[2](2): {(start), (end)} 3})",
        (None, 2, 2),
    ),
    (
        3,
        "(Err(AllocError), Counting { calls: 3 }, {})",
        (Some(ReallocationError::AllocError), 3, 0),
    ),
];

// Checks each row. The value map is returned.
pub(super) fn check_counted<S: SlotStack<Item = Slot>, A: PlainArena>(
    rt: &impl Abort,
    alloc: Global,
) {
    for row in &COUNTED {
        let (count, want, plain) = *row;
        let mut target: ChainsOver<S> = lone_links(alloc, 1);
        let reply = counted_over(alloc, count, &mut target);
        same(rt, "over one link", reply.as_str(), want);
        let reply = counted_to_plain::<S, A>(alloc, count);
        holds(rt, "to a plain arena", reply == plain);
    }
}

// A copy of two links over an arena of at most one slot calls no value map.
pub(super) fn check_beyond_one<S: LimitStack<Item = Slot>>(rt: &impl Abort, alloc: Global) {
    let mut target: ChainsOver<S> = fresh_limited(rt, alloc, 1);
    let reply = counted_over(alloc, 2, &mut target);
    let want = "(Err(BeyondMaxCapacity), Counting { calls: 0 }, {})";
    same(rt, "one slot at most", reply.as_str(), want);
}
