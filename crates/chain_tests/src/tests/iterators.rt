//! The iterators over all links and along chains, and what is proved of a loop over them.

ghost use Rattle.std.specs.Prelude.{◌≡◌, IfOk, map};
ghost use Rattle.arena_ptr.specs.Indexes.{number_of_inx32};
ghost use Rattle.arena_traits.specs.Entries.{entries, index_of};

use super::{ChainsOver, Slot, fresh, text_of_all};
use arena_base::{Advancer, ArenaTrait, Iter};
use arena_ptr::{Inx32, PtrKey, SlotStack, ToolPtr};
use chain_arena::LinkNoGen;
use std::alloc::{AllocError, Global};
use std::mem;
use test_types::lines::text;

// Returns the pointers of an advancer backwards along the chain of p, of which q is removed after its
// first step.
pub(super) fn along_back<S: SlotStack<Item = Slot>>(
    alloc: Global,
    arena: &mut ChainsOver<S>,
    p: ToolPtr,
    q: ToolPtr,
) -> Option<Vec<ToolPtr>> {
    let mut along = arena.advancer_chain_back(p)?;
    let mut passed = Vec::new(alloc);
    for _ in 0..=arena.len() {
        if let Some(at) = along.advance(arena) {
            let _ = passed.push(at);
        }
        arena.remove(q);
    }
    Some(passed)
}

// Returns the indexes of all links.
pub(super) fn indexes<S: SlotStack<Item = Slot>>(
    alloc: Global,
    arena: &ChainsOver<S>,
) -> Result<Vec<Inx32>, AllocError>
    ensures { IfOk result (λ all. map number_of_inx32 all.items ≡ map index_of
        (entries arena.now)) }
{
    let mut all = Vec::new(alloc);
    for (p, _) in arena {
        all.push(p.inx())?;
    }
    Ok(all)
}

pub(super) fn values<S: SlotStack<Item = Slot>>(alloc: Global, arena: &ChainsOver<S>) -> String {
    text_of_all(alloc, arena.iter())
}

fn text_of_links<S: SlotStack<Item = Slot>>(
    alloc: Global,
    links: Iter<'_, ToolPtr, LinkNoGen<ToolPtr, u32>, S>,
) -> String {
    text_of_all(alloc, links)
}

// Returns the links by the iterator call.
pub(super) fn links<S: SlotStack<Item = Slot>>(alloc: Global, arena: &ChainsOver<S>) -> String {
    text_of_links(alloc, arena.iter_link_no_gen())
}

// Returns the links by iterating over a reference to the arena.
pub(super) fn links_by_reference<S: SlotStack<Item = Slot>>(
    alloc: Global,
    arena: &ChainsOver<S>,
) -> String {
    text_of_links(alloc, arena.into_iter())
}

// Returns the links of an arena that is consumed, and leaves a new one.
pub(super) fn links_used_up<S: SlotStack<Item = Slot>>(
    alloc: Global,
    arena: &mut ChainsOver<S>,
) -> String {
    let links = mem::replace(arena, fresh(alloc));
    text_of_all(alloc, links.into_iter())
}

// Returns the links of a walk, each with its current pointer.
pub(super) fn walk<S: SlotStack<Item = Slot>>(
    alloc: Global,
    arena: &ChainsOver<S>,
    p: ToolPtr,
) -> String {
    match arena.iter_chain(p) {
        Some(links) => text_of_all(alloc, links),
        None => text(alloc, None::<u32>),
    }
}

// Returns the pointers to the starts of the linear chains.
pub(super) fn starts<S: SlotStack<Item = Slot>>(alloc: Global, arena: &ChainsOver<S>) -> String {
    text_of_all(alloc, arena.starts())
}

// Returns the first link of each chain.
pub(super) fn chains<S: SlotStack<Item = Slot>>(alloc: Global, arena: &ChainsOver<S>) -> String {
    text(alloc, arena.chains(alloc))
}

// Returns the links of a walk backwards, each with its current pointer.
pub(super) fn walk_back<S: SlotStack<Item = Slot>>(
    alloc: Global,
    arena: &ChainsOver<S>,
    p: ToolPtr,
) -> String {
    match arena.iter_chain_back(p) {
        Some(links) => text_of_all(alloc, links),
        None => text(alloc, None::<u32>),
    }
}
