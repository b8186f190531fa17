//! Tests of values recast in place, by ascending index, up to one that refuses.
ghost use Rattle.std.specs.Prelude.{◌≡◌, OnErr, Err};

use super::same;
use super::setup::{SlotOf, Valued, after};
use arena_ptr::{HeapStack, Recast, Recaster, SlotStack, ToolPtr};
use chain_arena::ChainArena;
use std::alloc::Global;
use std::process::Abort;
use test_types::lines::text;

// Adds 10 to each number but 2, which it refuses with itself.
struct AddTen;

impl Recaster for AddTen {
    type Item = u32;

    ghost recasts = { λ _ old new outcome. OnErr outcome ((outcome ≡ Err old) × (new ≡ old)) };

    fn recast_item(&self, item: &mut u32) -> Result<(), u32> {
        if *item == 2 {
            return Err(2);
        }
        *item = item.saturating_add(10);
        Ok(())
    }
}

// A number, and how often it was recast. No value can be cloned.
#[derive(Debug, Drop)]
struct Number(u32, u32);

impl Recast<u32> for Number {
    ghost recast_by = { λ recasts old new outcome. recasts old.0 new.0 outcome };

    fn recast<R: Recaster<Item = u32>>(&mut self, recaster: &R) -> Result<(), u32> {
        self.1 = self.1.saturating_add(1);
        recaster.recast_item(&mut self.0)
    }
}

impl Valued for Number {
    fn of(_: Global, n: u32) -> Number {
        Number(n, 0)
    }
}

// Calls, and the text of the result, the arena and its counter. A refused recast keeps pointers,
// interlinks and the counter. Only values at lower indexes than the refused one are new.
// The last row is a chain of 4 and 1 and a ring of 3, with a hole between. The refusal at 3 comes
// before 4, the start of the chain.
const ROWS: [(&str, &str); 3] = [
    (
        "Insert 1\nInsert 3\nInsert 5",
        "(Ok(()), {P0[1](2): {(start), (end)} Number(11, 1), P0[2](2): {(start), (end)} Number(13, 1), \
            P0[3](2): {(start), (end)} Number(15, 1)}, Gen32 { number: 2 })",
    ),
    (
        "Insert 1\nInsert 2\nInsert 3",
        "(Err(2), {P0[1](2): {(start), (end)} Number(11, 1), P0[2](2): {(start), (end)} Number(2, 1), \
            P0[3](2): {(start), (end)} Number(3, 0)}, Gen32 { number: 2 })",
    ),
    (
        "Insert 1\nInsert 9\nInsert SingleLinkCyclic 2\nInsert ChainStart 1 2 3\nRemove 2 2",
        "(Err(2), {P0[1](2): {4, (end)} Number(11, 1), P0[3](2): {3, 3} Number(2, 1), \
            P0[4](2): {(start), 1} Number(3, 0)}, Gen32 { number: 3 })",
    ),
];

fn recast<S: SlotStack<Item = SlotOf<Number>>>(alloc: Global, calls: &str) -> String {
    let mut arena: ChainArena<ToolPtr, Number, S> = after(alloc, calls);
    let outcome = arena.recast(&AddTen);
    text(alloc, (outcome, &arena, arena.generation()))
}

fn check_recasts<S: SlotStack<Item = SlotOf<Number>>>(rt: &impl Abort, alloc: Global) {
    for (calls, want) in ROWS {
        let reply = recast::<S>(alloc, calls);
        same(rt, "recast", reply.as_str(), want);
    }
}

#[test]
fn recasters_that_refuse_and_that_do_not(rt: HostRuntime) {
    check_recasts::<HeapStack<SlotOf<Number>>>(&rt, rt.alloc());
}
