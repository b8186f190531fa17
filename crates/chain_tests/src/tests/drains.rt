//! Drains of chains and of all links.

ghost use Rattle.std.specs.Prelude.{◌≡◌, [], length};
ghost use Rattle.std.specs.Iterator.{IsFinite};
ghost use Rattle.arena_ptr.specs.Generations.{after32};
ghost use Rattle.arena_traits.specs.Entries.{entries};
ghost use Rattle.chain_links.specs.ChainArena.{values_of};
ghost use Rattle.chain_arena.specs.Drains.{CountsUp};

use super::{ChainsOver, Slot, text_of_all};
use arena_ptr::{SlotStack, ToolPtr};
use std::alloc::Global;
use std::fmt::Debug;
use std::mem::forget;
use test_types::lines::text;

// Removes all links. None is left, and the counter increases once for each.
pub(super) fn remove_all<S: SlotStack<Item = Slot>>(arena: &mut ChainsOver<S>)
    ensures none { entries (values_of arena.new) ≡ [] }
    ensures counts { CountsUp after32 (length (entries (values_of arena.old))) arena.old arena.new }
{
    drop(arena.drain());
}

// When a drain ends: when it is empty, or after the first link, dropped or forgotten.
#[derive(Clone, Copy)]
pub(super) enum Ends {
    Empty,
    Dropped,
    Forgotten,
}

// Returns what a drain yields. All drains use it, since each place that passes one to code generic
// over iterators is costly.
fn drain_text<T: Debug + Drop, I: Iterator<Item = T> + Drop>(
    alloc: Global,
    links: I,
    ends: Ends,
) -> String
    requires { I.can_next links × IsFinite (I.remaining links) }
{
    match ends {
        Ends::Empty => text_of_all(alloc, links),
        Ends::Dropped => text(alloc, first_of(links, false)),
        Ends::Forgotten => text(alloc, first_of(links, true)),
    }
}

// Returns the first link, and drops or forgets the drain.
fn first_of<T: Drop, I: Iterator<Item = T> + Drop>(links: I, is_forgotten: bool) -> Option<T>
    requires { I.can_next links }
{
    let mut links = links;
    let first = links.next();
    if is_forgotten {
        forget(links);
    }
    first
}

pub(super) fn drained_chain<S: SlotStack<Item = Slot>>(
    alloc: Global,
    arena: &mut ChainsOver<S>,
    p: ToolPtr,
    ends: Ends,
) -> String {
    match arena.drain_chain(p) {
        Some(links) => drain_text(alloc, links, ends),
        None => text(alloc, None::<u32>),
    }
}

pub(super) fn drain_all_text<S: SlotStack<Item = Slot>>(
    alloc: Global,
    arena: &mut ChainsOver<S>,
    ends: Ends,
) -> String {
    drain_text(alloc, arena.drain(), ends)
}
