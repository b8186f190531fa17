mod any_arena;
mod arena_text;
mod exchanges;
mod inherent_calls;
mod limits;
mod plain_arenas;
mod plain_calls;
mod plain_rows;
mod pointers;
mod trait_calls;
mod transfers;
mod value_counts;

ghost use Rattle.std.specs.Prelude.{◌≡◌};

use arena_base::{ArenaSlot, ArenaTrait};
use arena_ptr::{LimitStack, PtrKey, SetMaxCapacity, SlimPtr, TinyPtr, ToolPtr};
use chain_arena::{ChainArena, LinkNoGen};
use std::alloc::Global;
use std::process::Abort;

// A slot of a link of a number.
type Slot<P> = ArenaSlot<P, LinkNoGen<P, u32>>;

// Its tag, generation, two interlinks, destination and value take four bytes each. No test calls
// this, since the clause is proved.
fn slot_size() -> usize
    ensures { result ≡ 24 }
{
    size_of::<Slot<ToolPtr>>()
}

// A generation of 24 bits is beside the tag, in the same four bytes.
fn slim_slot_size() -> usize
    ensures { result ≡ 20 }
{
    size_of::<Slot<SlimPtr>>()
}

// The same with a value of eight bytes that is aligned to four.
fn slim_slot_size_of_two_numbers() -> usize
    ensures { result ≡ 24 }
{
    size_of::<ArenaSlot<SlimPtr, LinkNoGen<SlimPtr, [u32; 2]>>>()
}

// Of two bytes each: the tag, the generation, two interlinks, the destination and the value.
fn tiny_slot_size() -> usize
    ensures { result ≡ 12 }
{
    size_of::<ArenaSlot<TinyPtr, LinkNoGen<TinyPtr, u16>>>()
}

fn same(rt: &impl Abort, what: &str, got: &str, want: &str) {
    assert_eq!(rt; got, want, "{what}");
}

// An arena that runs the calls of lines.
trait RunsCalls: Drop {
    fn fresh(alloc: Global) -> Self;

    // Returns the text of a call's reply, which is empty if there is no such call.
    fn run_call(&mut self, alloc: Global, call: &str) -> String;
}

// Checks the reply of a line, or makes a new arena.
fn plays_line<A: RunsCalls>(rt: &impl Abort, alloc: Global, arena: &mut A, line: &str) {
    match line.split_once(" = ") {
        Some((call, want)) => {
            let got = arena.run_call(alloc, call);
            same(rt, line, got.as_str(), want);
        }
        None => {
            assert!(rt; line.starts_with('#'));
            *arena = A::fresh(alloc);
        }
    }
}

fn plays<A: RunsCalls>(rt: &impl Abort, alloc: Global, arena: &mut A, table: &str) {
    for line in table.lines() {
        plays_line(rt, alloc, arena, line);
    }
}

fn holds(rt: &impl Abort, what: &str, condition: bool) {
    assert!(rt; condition, "{what}");
}

fn limited<P: PtrKey, T: Drop, S: LimitStack<Item = ArenaSlot<P, LinkNoGen<P, T>>>>(
    alloc: Global,
    most: usize,
) -> ChainArena<P, T, S> {
    let mut arena: ChainArena<P, T, S> = ChainArena::new(alloc);
    let _ = arena.set_max_capacity(most);
    arena
}
