//! Tests of the alternate text of an arena of links.

use super::pointers::BarePtr;
use super::same;
use arena_base::{ArenaSlot, ArenaTrait};
use arena_ptr::{HeapStack, Ptr, SlotStack};
use chain_arena::{ChainArena, ChainArenaTrait, LinkInsertKind, LinkNoGen};
use std::alloc::Global;
use test_types::FormatProbe;

type Slot<P> = ArenaSlot<P, LinkNoGen<P, FormatProbe>>;

// Returns the alternate text of a ring of one and a lone link. The transfers test plain texts.
fn text_of_two<P: Ptr, S: SlotStack<Item = Slot<P>>>(alloc: Global) -> Option<String> {
    let mut arena: ChainArena<P, FormatProbe, S> = ChainArena::new(alloc);
    let _ = arena.insert_reallocating(LinkInsertKind::SingleLinkCyclic, FormatProbe);
    let _ = arena.insert_reallocating(LinkInsertKind::Disconnected, FormatProbe);
    format!(in alloc; "{arena:#?}").ok()
}

#[test]
fn pointers_without_a_generation_print_none(rt: HostRuntime) {
    let text = text_of_two::<BarePtr, HeapStack<Slot<BarePtr>>>(rt.alloc()).expect(&rt, "memory");
    let want = "{\n    Bare[1]: {1, 1} debug#,\n    Bare[2]: {(start), (end)} debug#,\n}";
    same(&rt, "an arena", text.as_str(), want);
}
