//! The inherent calls of a chain arena, as rows of tables.

use super::call_lists::two_calls;
use super::canonical::{
    carried_in, compress_and_count, moves_listed, moves_visited, placement_count,
};
use super::drains::{Ends, drain_all_text, drained_chain, remove_all};
use super::entries::{
    drop_entry, entry_refusals, forget, insert_by_any_entry, insert_by_entry, insert_if_allowed,
};
use super::fallible_insertion::{dig, fill};
use super::indexing::{value_at, write_at, write_at_index};
use super::iterators::{
    along_back, chains, indexes, links, links_by_reference, links_used_up, starts, values, walk,
    walk_back,
};
use super::scripts::{Parsed, RunsCalls, run_call};
use super::{ChainsOver, Slot, fresh};
use arena_ptr::{SlotStack, ToolPtr};
use std::alloc::Global;
use test_types::lines::{Do, parse_call, text};

// Runs a call on a value, a walk, or a loop over all links.
fn run_own_call<S: SlotStack<Item = Slot>>(
    alloc: Global,
    arena: &mut ChainsOver<S>,
    parsed: Parsed,
) -> String {
    match parsed.call {
        Do::Value => text(alloc, value_at(arena, parsed.p)),
        Do::WriteValue => text(alloc, write_at(arena, parsed.p, parsed.t)),
        Do::WriteValueInx => text(alloc, write_at_index(arena, parsed.i, parsed.t)),
        Do::Walk => walk(alloc, arena, parsed.p),
        Do::WalkBack => walk_back(alloc, arena, parsed.p),
        Do::AlongBack => text(alloc, along_back(alloc, arena, parsed.p, parsed.q)),
        Do::Starts => starts(alloc, arena),
        Do::Chains => chains(alloc, arena),
        Do::Values => values(alloc, arena),
        Do::Links => links(alloc, arena),
        Do::LinksByReference => links_by_reference(alloc, arena),
        Do::LinksUsedUp => links_used_up(alloc, arena),
        Do::Indexes => text(alloc, indexes(alloc, arena)),
        _ => run_layout(alloc, arena, parsed),
    }
}

// Runs a canonical compression.
fn run_layout<S: SlotStack<Item = Slot>>(
    alloc: Global,
    arena: &mut ChainsOver<S>,
    parsed: Parsed,
) -> String {
    match parsed.call {
        Do::Placed => text(alloc, placement_count(arena, parsed.n > 0)),
        Do::Counted => text(alloc, compress_and_count(arena, parsed.n > 0)),
        Do::MovesVisited => text(alloc, moves_visited(alloc, arena, parsed.n > 0)),
        Do::MovesListed => text(alloc, moves_listed(alloc, arena, parsed.n > 0)),
        _ => run_growth(alloc, arena, parsed),
    }
}

// Runs a call that is tested with refused allocations.
fn run_growth<S: SlotStack<Item = Slot>>(
    alloc: Global,
    arena: &mut ChainsOver<S>,
    parsed: Parsed,
) -> String {
    match parsed.call {
        Do::Fill => text(alloc, fill(arena)),
        Do::Dig => text(alloc, dig(arena)),
        Do::CarryIn => carried_in(alloc, arena, parsed.n),
        Do::TwoCalls => text(alloc, two_calls(alloc, arena)),
        _ => run_drain(alloc, arena, parsed),
    }
}

fn run_drain<S: SlotStack<Item = Slot>>(
    alloc: Global,
    arena: &mut ChainsOver<S>,
    parsed: Parsed,
) -> String {
    match parsed.call {
        Do::DrainChain => drained_chain(alloc, arena, parsed.p, Ends::Empty),
        Do::DrainChainOne => drained_chain(alloc, arena, parsed.p, Ends::Dropped),
        Do::ForgetChainDrain => drained_chain(alloc, arena, parsed.p, Ends::Forgotten),
        Do::Drain => drain_all_text(alloc, arena, Ends::Empty),
        Do::DrainOne => drain_all_text(alloc, arena, Ends::Dropped),
        Do::ForgetDrain => drain_all_text(alloc, arena, Ends::Forgotten),
        Do::RemoveAll => text(alloc, remove_all(arena)),
        _ => run_placement(alloc, arena, parsed),
    }
}

// Runs an insertion by a vacant entry.
fn run_placement<S: SlotStack<Item = Slot>>(
    alloc: Global,
    arena: &mut ChainsOver<S>,
    parsed: Parsed,
) -> String {
    match parsed.call {
        Do::DropEntry => text(alloc, drop_entry(arena, parsed.kind)),
        Do::ForgetEntry => text(alloc, forget(arena, parsed.kind)),
        Do::EntryRefusals => text(alloc, entry_refusals(arena, parsed.kind)),
        Do::InsertByEntry => text(alloc, insert_by_entry(arena, parsed.kind, parsed.t)),
        Do::InsertByAnyEntry => text(alloc, insert_by_any_entry(arena, parsed.kind, parsed.t)),
        Do::InsertIfAllowed => text(alloc, insert_if_allowed(arena, parsed.kind, parsed.t)),
        _ => run_call(alloc, arena, parsed),
    }
}

impl<S: SlotStack<Item = Slot>> RunsCalls for ChainsOver<S> {
    fn fresh(alloc: Global) -> Self {
        fresh(alloc)
    }

    fn run_call(&mut self, alloc: Global, call: &str) -> String {
        match parse_call::<ToolPtr>(call) {
            Some(parsed) => run_own_call(alloc, self, parsed),
            None => String::new(alloc),
        }
    }
}
