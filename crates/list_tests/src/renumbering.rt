//! Renumbering of documents that random calls made, beside the model of lists.

use crate::model::{Item, Model, new_model};
use crate::random_lists::{agrees, first_difference};
use crate::values::{Numbers, Values};
use arena_base::ArenaSlot;
use arena_ptr::{HeapStack, PtrKey, SlotStack, ToolPtr};
use chain_arena::{ChainArena, LinkNoGen};
use chain_renumbering::{RenumberChainArenaTrait, Renumbering};
use documents::{Document, Documents, Entry, moved_document, renumber};
use std::alloc::{AllocError, Global};
use std::process::Abort;

type Arena<S> = ChainArena<ToolPtr, Entry<u32>, S>;

type Slot = ArenaSlot<ToolPtr, LinkNoGen<ToolPtr, Entry<u32>>>;

// Adds the new handles to a model, and the old ones as stale. Returns whether each has a new one.
fn are_handles_moved<P: PtrKey>(
    moved: &Renumbering<P>,
    handles: &[P],
    after: &mut Model<P>,
) -> Result<bool, AllocError> {
    for h in handles {
        let Some(document) = moved_document(moved, Document { head: *h }) else {
            return Ok(false);
        };
        after.handles.push(document.head)?;
        after.stale.push(*h)?;
    }
    Ok(true)
}

// Adds the paragraphs with their new pointers to a model, and the old pointers as stale. Returns
// whether each has a new one.
fn are_items_moved<P: PtrKey>(
    moved: &Renumbering<P>,
    items: &[Item<P>],
    after: &mut Model<P>,
) -> Result<bool, AllocError> {
    for e in items {
        let (Some(p), Some(h)) = (moved.new_pointer(e.p), moved.new_pointer(e.h)) else {
            return Ok(false);
        };
        let value = e.value;
        after.items.push(Item { p, value, h })?;
        after.stale.push(e.p)?;
    }
    Ok(true)
}

// Adds the stale pointers to a model. Returns whether none has a new one.
fn are_stale_kept<P: PtrKey>(
    moved: &Renumbering<P>,
    stale: &[P],
    after: &mut Model<P>,
) -> Result<bool, AllocError> {
    for p in stale {
        if moved.new_pointer(*p).is_some() {
            return Ok(false);
        }
        after.stale.push(*p)?;
    }
    Ok(true)
}

// Returns a model with the new pointers, if exactly the valid ones have a new one.
fn model_after<P: PtrKey>(
    alloc: Global,
    moved: &Renumbering<P>,
    model: &Model<P>,
) -> Result<Option<Model<P>>, AllocError> {
    let mut after = new_model(alloc);
    let right = are_handles_moved(moved, model.handles.as_slice(), &mut after)?
        && are_items_moved(moved, model.items.as_slice(), &mut after)?
        && are_stale_kept(moved, model.stale.as_slice(), &mut after)?;
    if right { Ok(Some(after)) } else { Ok(None) }
}

// Makes random calls on new documents, renumbers them, and makes further calls. Returns whether they
// agree with the model.
fn renumbering_holds<
    P: PtrKey,
    T: Drop,
    A: RenumberChainArenaTrait<P, Entry<T>> + Drop,
    V: Values<T>,
>(alloc: Global, seed: u32) -> Result<bool, AllocError> {
    let mut documents = Documents::<P, T, A>::new(alloc);
    let mut model = new_model(alloc);
    let calls = seed.wrapping_mul(50);
    let made = first_difference::<P, T, A, V>(alloc, &mut documents, &mut model, seed, calls)? == 0;
    let moved = renumber(&mut documents, alloc)?;
    let Some(mut after) = model_after(alloc, &moved, &model)? else {
        return Ok(false);
    };
    let same = agrees::<P, T, A, V>(alloc, &documents, &after)?;
    let further = first_difference::<P, T, A, V>(alloc, &mut documents, &mut after, seed, 50)? == 0;
    Ok(made && same && further)
}

// Returns the first seed for which that does not hold, from 1 on, or 0.
fn outcome<P: PtrKey, T: Drop, A: RenumberChainArenaTrait<P, Entry<T>> + Drop, V: Values<T>>(
    alloc: Global,
) -> u32 {
    for seed in 0..8 {
        match renumbering_holds::<P, T, A, V>(alloc, seed) {
            Ok(true) => {}
            _ => return seed + 1,
        }
    }
    0
}

// Only this body names the arena, since naming it is the cost.
fn over_stack<S: SlotStack<Item = Slot>>(rt: &impl Abort, alloc: Global) {
    let outcome = outcome::<ToolPtr, u32, Arena<S>, Numbers>(alloc);
    assert!(rt; outcome == 0, "outcome {outcome}");
}

#[test]
fn renumbering_reports_new_pointers(rt: HostRuntime) {
    over_stack::<HeapStack<Slot>>(&rt, rt.alloc());
}
