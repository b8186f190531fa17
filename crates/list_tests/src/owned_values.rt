//! Tests that lists drop each value once. The values share a counter of their number.

use crate::model::are_same;
use arena_base::ArenaSlot;
use arena_ptr::{ChainInsertionError, HeapStack, PtrKey, SlotStack, ToolPtr};
use chain_arena::{ChainArena, LinkNoGen};
use chain_traits::ChainArenaTrait;
use linked_lists::{Entry, LinkedLists, ListHandle};
use std::alloc::{AllocError, Global};
use std::process::Abort;
use std::rc::Rc;
use test_types::FailingStack;

// A value. The strong count is one more than there are values.
type Value = Rc<u32>;

type Arena<S> = ChainArena<ToolPtr, Entry<Value>, S>;

type Slot = ArenaSlot<ToolPtr, LinkNoGen<ToolPtr, Entry<Value>>>;

// Makes values, and counts those that are left. It is a type beside the values' own, since code that
// puts no bound but `Drop` on them costs much less to prove.
trait Source<T: Drop> {
    fn share(&self) -> Result<T, AllocError>;

    // Returns whether there are so many values.
    fn are_left(&self, count: usize) -> bool;
}

// Values that share a counter.
#[derive(Drop)]
struct Shared {
    value: Value,
}

impl Source<Value> for Shared {
    fn share(&self) -> Result<Value, AllocError> {
        self.value.clone()
    }

    fn are_left(&self, count: usize) -> bool {
        Rc::strong_count(&self.value) == count.saturating_add(1)
    }
}

// Inserts a value beside an item or into a list, by one of four calls.
fn inserted<P: PtrKey, T: Drop, A: ChainArenaTrait<P, Entry<T>> + Drop>(
    lists: &mut LinkedLists<P, T, A>,
    call: u32,
    (p, h): (P, ListHandle<P>),
    value: T,
) -> Result<P, ChainInsertionError> {
    match call {
        0 => lists.insert_after(p, value),
        1 => lists.insert_before(p, value),
        2 => lists.push_front(h, value),
        _ => lists.push_back(h, value),
    }
}

// Appends a pointer, and returns whether memory was refused in place of it.
fn is_refused<P: PtrKey>(
    items: &mut Vec<P>,
    inserted: Result<P, ChainInsertionError>,
) -> Result<bool, AllocError> {
    match inserted {
        Ok(p) => {
            items.push(p)?;
            Ok(false)
        }
        Err(ChainInsertionError::AllocError) => Ok(true),
        Err(_) => Ok(false),
    }
}

// Inserts values by one call, and returns whether refused ones are dropped, and some were refused
// memory.
fn insertions_hold<P: PtrKey, T: Drop, A: ChainArenaTrait<P, Entry<T>> + Drop, S: Source<T>>(
    lists: &mut LinkedLists<P, T, A>,
    source: &S,
    call: u32,
    places: (P, ListHandle<P>),
    items: &mut Vec<P>,
) -> Result<bool, AllocError> {
    let mut refused = false;
    for _ in 0..64 {
        let made = inserted(lists, call, places, source.share()?);
        refused |= is_refused(items, made)?;
        if !source.are_left(items.len()) {
            return Ok(false);
        }
    }
    Ok(refused)
}

// Returns whether an insertion at a stale pointer drops its value, and a replacement, too.
fn refusals_hold<P: PtrKey, T: Drop, A: ChainArenaTrait<P, Entry<T>> + Drop, S: Source<T>>(
    lists: &mut LinkedLists<P, T, A>,
    source: &S,
    stale: P,
    count: usize,
) -> Result<bool, AllocError> {
    let places = (stale, ListHandle { head: stale });
    for call in 0..4 {
        if inserted(lists, call, places, source.share()?).is_ok() {
            return Ok(false);
        }
    }
    let replaced = lists.replace(stale, source.share()?).is_some();
    Ok(!replaced && source.are_left(count))
}

// Returns whether `replace` and `remove` return the former value.
fn returns_hold<P: PtrKey, T: Drop, A: ChainArenaTrait<P, Entry<T>> + Drop, S: Source<T>>(
    lists: &mut LinkedLists<P, T, A>,
    source: &S,
    p: P,
    count: usize,
) -> Result<bool, AllocError> {
    let former = lists.replace(p, source.share()?);
    let replaced = former.is_some() && source.are_left(count.saturating_add(1));
    drop(former);
    let value = lists.remove(p).allow();
    let removed = value.is_some() && source.are_left(count);
    drop(value);
    Ok(replaced && removed && source.are_left(count.saturating_sub(1)))
}

// Creates a list, at the second attempt if the first is refused memory.
fn list_of_two_attempts<P: PtrKey, T: Drop, A: ChainArenaTrait<P, Entry<T>> + Drop>(
    lists: &mut LinkedLists<P, T, A>,
) -> Option<ListHandle<P>> {
    match lists.new_list() {
        Ok(h) => Some(h),
        Err(_) => lists.new_list().ok(),
    }
}

// Returns whether a list drops its items when it is removed, and only those.
fn removal_holds<P: PtrKey, T: Drop, A: ChainArenaTrait<P, Entry<T>> + Drop, S: Source<T>>(
    lists: &mut LinkedLists<P, T, A>,
    source: &S,
    p: P,
    count: usize,
) -> bool {
    let Some(k) = list_of_two_attempts(lists) else {
        return false;
    };
    let moved = lists.move_to_front(p, k).is_some() && are_same(lists.first(k), Some(p));
    let removed = lists.remove_list(k).allow() == Some(1);
    moved && removed && source.are_left(count.saturating_sub(1))
}

// Returns whether each value is dropped once, if items are inserted by this call.
fn values_hold<P: PtrKey, T: Drop, A: ChainArenaTrait<P, Entry<T>> + Drop, S: Source<T>>(
    alloc: Global,
    source: &S,
    call: u32,
) -> Result<bool, AllocError> {
    let mut lists = LinkedLists::<P, T, A>::new(alloc);
    let mut items: Vec<P> = Vec::new(alloc);
    let Some(h) = list_of_two_attempts(&mut lists) else {
        return Ok(false);
    };
    insertions_hold(&mut lists, source, 3, (h.head, h), &mut items)?;
    let Some((p, q)) = first_two(items.as_slice()) else {
        return Ok(false);
    };
    let inserted = insertions_hold(&mut lists, source, call, (p, h), &mut items)?;
    let refused = refusals_hold(&mut lists, source, P::invalid(), items.len())?;
    let returned = returns_hold(&mut lists, source, p, items.len())?;
    let removed = removal_holds(&mut lists, source, q, items.len().saturating_sub(1));
    Ok(inserted && refused && returned && removed)
}

fn first_two<P: PtrKey>(items: &[P]) -> Option<(P, P)> {
    match (items.first(), items.get(1)) {
        (Some(p), Some(q)) => Some((*p, *q)),
        _ => None,
    }
}

// Returns whether that holds for each of the four calls, and dropping the lists drops all values.
fn all_values_hold<P: PtrKey, T: Drop, A: ChainArenaTrait<P, Entry<T>> + Drop, S: Source<T>>(
    alloc: Global,
    source: &S,
) -> bool {
    for call in 0..4 {
        match values_hold::<P, T, A, S>(alloc, source, call) {
            Ok(true) if source.are_left(0) => {}
            _ => return false,
        }
    }
    true
}

// Only this body names the arena, since naming it is the cost.
fn over_stack<S: SlotStack<Item = Slot>>(rt: &impl Abort, alloc: Global, source: &Shared) {
    assert!(rt; all_values_hold::<ToolPtr, Value, Arena<S>, Shared>(alloc, source));
}

#[test]
fn values_are_dropped_once(rt: HostRuntime) {
    let source = Shared {
        value: Rc::new(rt.alloc(), 7).expect(&rt, "a value"),
    };
    over_stack::<FailingStack<HeapStack<Slot>>>(&rt, rt.alloc(), &source);
}
