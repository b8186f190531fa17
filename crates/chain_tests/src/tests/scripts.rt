//! Runs calls on chain arenas, each with the text of its result.

use super::call_lists::{call, reply_text};
use super::copies::{clone_text, copied_over};
use super::{ChainsOver, Slot, same};
use arena_base::ArenaSlot;
use arena_ptr::{InxKey, SlotStack, ToolPtr};
use chain_arena::apply;
use std::alloc::Global;
use std::fmt::Debug;
use std::process::Abort;
use test_types::calls;
use test_types::lines::{Do, ParsedCall, text};

// A call on a chain arena.
pub(super) type Parsed = ParsedCall<ToolPtr>;

// Runs a call: one of lists of calls, or another.
pub(super) fn run_call<S: SlotStack<Item = Slot>>(
    alloc: Global,
    arena: &mut ChainsOver<S>,
    parsed: Parsed,
) -> String {
    match call(alloc, parsed) {
        Some(call) => reply_text(alloc, apply(arena, call)),
        None => lookup(alloc, arena, parsed),
    }
}

// Returns the slots as a text: an entry with its generation, or the next freed index. Makes a
// second attempt if the first allocation is refused.
pub(super) fn slots_of<T: Copy + Debug, S: SlotStack<Item = ArenaSlot<ToolPtr, T>>>(
    alloc: Global,
    slots: &S,
) -> String {
    for _ in 0..2 {
        if let Ok(mut all) = Vec::with_capacity(alloc, slots.len()) {
            for k in 0..slots.len() {
                let _ = all.push(match slots.get(k) {
                    Some(ArenaSlot::Allocated(generation, t)) => (Some((*generation, *t)), None),
                    Some(ArenaSlot::Free(next)) => (None, InxKey::unpack(*next)),
                    None => (None, None),
                });
            }
            return text(alloc, all);
        }
    }
    String::new(alloc)
}

// Runs a read of the chain arena, or a copy.
pub(super) fn lookup<S: SlotStack<Item = Slot>>(
    alloc: Global,
    arena: &mut ChainsOver<S>,
    parsed: Parsed,
) -> String {
    match parsed.call {
        Do::Debug => text(alloc, &*arena),
        Do::Slots => text(alloc, arena.backing().len()),
        Do::SlotsListed => slots_of(alloc, arena.backing()),
        Do::Clone => clone_text(alloc, arena),
        Do::CopyOver => copied_over(alloc, arena, parsed.n),
        _ => trait_call(alloc, arena, parsed),
    }
}

// Runs a call of the traits. Only here generic code gets an arena.
fn trait_call<S: SlotStack<Item = Slot>>(
    alloc: Global,
    arena: &mut ChainsOver<S>,
    parsed: Parsed,
) -> String {
    calls::run_call(alloc, arena, parsed)
}

// A chain arena that runs the calls of lines.
pub(super) trait RunsCalls: Drop {
    fn fresh(alloc: Global) -> Self;

    fn run_call(&mut self, alloc: Global, call: &str) -> String;
}

// Checks the reply of a line, or makes a new arena.
fn plays_line<A: RunsCalls>(rt: &impl Abort, alloc: Global, arena: &mut A, line: &str) {
    match line.split_once(" = ") {
        Some((call, want)) => {
            let got = arena.run_call(alloc, call);
            same(rt, line, got.as_str(), want);
        }
        None => {
            assert!(rt; line.starts_with('#'));
            *arena = A::fresh(alloc);
        }
    }
}

pub(super) fn plays<A: RunsCalls>(rt: &impl Abort, alloc: Global, arena: &mut A, table: &str) {
    for line in table.lines() {
        plays_line(rt, alloc, arena, line);
    }
}

// Runs a table on a new arena.
pub(super) fn plays_anew<A: RunsCalls>(rt: &impl Abort, alloc: Global, table: &str) {
    let mut arena = A::fresh(alloc);
    plays(rt, alloc, &mut arena, table);
}
