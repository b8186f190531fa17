//! Random calls on linked lists beside a model. The whole state is compared after each call.

use crate::model::{
    Call, Goal, Item, Model, Reply, are_items_of, are_same, bit_of, count_reply, done_reply,
    failure_at, growth_error, insertion_reply, is_refused_memory, is_reply, list_reply, new_model,
    pointer_of, random, random_handle, random_item, random_later, value_reply,
};
use crate::values::{Values, has_number, number_in, write_in};
use arena_ptr::PtrKey;
use chain_traits::ChainArenaTrait;
use linked_lists::{Entry, LinkedLists, ListHandle};
use std::alloc::{AllocError, Global};

// Returns whether reads find no item at `p`.
fn is_no_item<P: PtrKey, T: Drop, A: ChainArenaTrait<P, Entry<T>> + Drop>(
    lists: &LinkedLists<P, T, A>,
    p: P,
) -> bool {
    !lists.is_item(p)
        && lists.get(p).is_none()
        && lists.next(p).is_none()
        && lists.prev(p).is_none()
        && lists.list_of(p).is_none()
}

// Returns whether reads find no list at `p`.
fn is_no_list<P: PtrKey, T: Drop, A: ChainArenaTrait<P, Entry<T>> + Drop>(
    alloc: Global,
    lists: &LinkedLists<P, T, A>,
    p: P,
) -> Result<bool, AllocError> {
    let h = ListHandle { head: p };
    let none = lists.first(h).is_none() && lists.last(h).is_none();
    Ok(none && !lists.is_list(h) && lists.walk(alloc, h)?.is_none())
}

// Returns whether none of these pointers is a handle or an item.
fn are_stale<P: PtrKey, T: Drop, A: ChainArenaTrait<P, Entry<T>> + Drop>(
    alloc: Global,
    lists: &LinkedLists<P, T, A>,
    pointers: &[P],
) -> Result<bool, AllocError> {
    for p in pointers {
        if !is_no_item(lists, *p) || !is_no_list(alloc, lists, *p)? {
            return Ok(false);
        }
    }
    Ok(true)
}

// Returns the list of an item as the head of its handle.
fn head_of<P: PtrKey, T: Drop, A: ChainArenaTrait<P, Entry<T>> + Drop>(
    lists: &LinkedLists<P, T, A>,
    p: P,
) -> Option<P> {
    match lists.list_of(p) {
        Some(h) => Some(h.head),
        None => None,
    }
}

// Returns whether an item has its list and its former item.
fn item_agrees<P: PtrKey, T: Drop, A: ChainArenaTrait<P, Entry<T>> + Drop>(
    lists: &LinkedLists<P, T, A>,
    e: Item<P>,
    former: Option<P>,
) -> bool {
    lists.is_item(e.p)
        && are_same(head_of(lists, e.p), Some(e.h))
        && are_same(lists.prev(e.p), former)
}

// Returns whether a list has the items of the model, forward by `next` and backward by `prev`.
fn list_agrees<P: PtrKey, T: Drop, A: ChainArenaTrait<P, Entry<T>> + Drop>(
    lists: &LinkedLists<P, T, A>,
    items: &[Item<P>],
    h: ListHandle<P>,
) -> bool {
    let mut former = None;
    let mut following = lists.first(h);
    for e in items {
        if e.h.is_same(h.head) {
            if !are_same(following, Some(e.p)) || !item_agrees(lists, *e, former) {
                return false;
            }
            former = Some(e.p);
            following = lists.next(e.p);
        }
    }
    following.is_none() && are_same(lists.last(h), former)
}

// Returns whether `head` is a handle and no item, and a walk finds the items of the model.
fn handle_agrees<P: PtrKey, T: Drop, A: ChainArenaTrait<P, Entry<T>> + Drop>(
    alloc: Global,
    lists: &LinkedLists<P, T, A>,
    items: &[Item<P>],
    head: P,
) -> Result<bool, AllocError> {
    let h = ListHandle { head };
    if !lists.is_list(h) || !is_no_item(lists, head) || !list_agrees(lists, items, h) {
        return Ok(false);
    }
    match lists.walk(alloc, h)? {
        Some(pointers) => Ok(are_items_of(pointers.as_slice(), items, head)),
        None => Ok(false),
    }
}

// Returns whether items have the values of the model.
fn values_agree<P: PtrKey, T: Drop, A: ChainArenaTrait<P, Entry<T>> + Drop, V: Values<T>>(
    lists: &LinkedLists<P, T, A>,
    items: &[Item<P>],
) -> bool {
    for e in items {
        if !has_number::<T, V>(lists.get(e.p), e.value) {
            return false;
        }
    }
    true
}

// Returns whether no item is a list, and the sizes are those of the model.
fn sizes_agree<P: PtrKey, T: Drop, A: ChainArenaTrait<P, Entry<T>> + Drop>(
    alloc: Global,
    lists: &LinkedLists<P, T, A>,
    model: &Model<P>,
) -> Result<bool, AllocError> {
    for e in model.items.as_slice() {
        if !is_no_list(alloc, lists, e.p)? {
            return Ok(false);
        }
    }
    let links = model.items.len().saturating_add(model.handles.len());
    let empty = lists.is_empty() == model.handles.is_empty();
    let within = lists.len() <= lists.capacity() && lists.max_capacity().is_none();
    Ok(empty && within && lists.len() == links)
}

// Returns whether the whole state is that of the model.
pub fn agrees<P: PtrKey, T: Drop, A: ChainArenaTrait<P, Entry<T>> + Drop, V: Values<T>>(
    alloc: Global,
    lists: &LinkedLists<P, T, A>,
    model: &Model<P>,
) -> Result<bool, AllocError> {
    lists.all_in_lists();
    for h in model.handles.as_slice() {
        if !handle_agrees(alloc, lists, model.items.as_slice(), *h)? {
            return Ok(false);
        }
    }
    Ok(
        values_agree::<P, T, A, V>(lists, model.items.as_slice())
            && are_stale(alloc, lists, model.stale.as_slice())?
            && sizes_agree(alloc, lists, model)?,
    )
}

// Inserts an item.
fn insert<P: PtrKey, T: Drop, A: ChainArenaTrait<P, Entry<T>> + Drop>(
    lists: &mut LinkedLists<P, T, A>,
    goal: Goal<P>,
    value: T,
) -> Reply<P> {
    insertion_reply(match goal {
        Goal::Front(head) => lists.push_front(ListHandle { head }, value),
        Goal::Back(head) => lists.push_back(ListHandle { head }, value),
        Goal::After(q) => lists.insert_after(q, value),
        Goal::Before(q) => lists.insert_before(q, value),
    })
}

// Moves an item. No call moves one before another.
fn move_one<P: PtrKey, T: Drop, A: ChainArenaTrait<P, Entry<T>> + Drop>(
    lists: &mut LinkedLists<P, T, A>,
    p: P,
    goal: Goal<P>,
) -> Reply<P> {
    done_reply(match goal {
        Goal::Front(head) => lists.move_to_front(p, ListHandle { head }),
        Goal::Back(head) => lists.move_to_back(p, ListHandle { head }),
        Goal::After(q) => lists.move_after(p, q),
        Goal::Before(_) => None,
    })
}

// Moves a range, if it is one without its goal.
fn move_range<P: PtrKey, T: Drop, A: ChainArenaTrait<P, Entry<T>> + Drop>(
    lists: &mut LinkedLists<P, T, A>,
    (first, last): (P, P),
    goal: Goal<P>,
) -> Reply<P> {
    let to = pointer_of(goal);
    if !lists.is_range_without(first, last, to) {
        return Reply::NotRange;
    }
    done_reply(match goal {
        Goal::Front(_) => lists.move_range_to_front(first, last, ListHandle { head: to }),
        Goal::Back(_) => lists.move_range_to_back(first, last, ListHandle { head: to }),
        Goal::After(_) => lists.move_range_after(first, last, to),
        Goal::Before(_) => None,
    })
}

// Reserves capacity, and returns for how many of `n` links there is.
fn reserve<P: PtrKey, T: Drop, A: ChainArenaTrait<P, Entry<T>> + Drop>(
    lists: &mut LinkedLists<P, T, A>,
    n: usize,
) -> Reply<P> {
    match lists.reserve(n) {
        Ok(()) => Reply::Count(n.min(lists.capacity().saturating_sub(lists.len()))),
        Err(error) => growth_error(error),
    }
}

// Makes a call that adds or removes a list.
fn change_lists<P: PtrKey, T: Drop, A: ChainArenaTrait<P, Entry<T>> + Drop>(
    lists: &mut LinkedLists<P, T, A>,
    call: Call<P>,
) -> Reply<P> {
    match call {
        Call::RemoveList(head) => count_reply(lists.remove_list(ListHandle { head }).allow()),
        Call::Split(p) => list_reply(lists.split_at(p)),
        _ => match lists.new_list() {
            Ok(h) => Reply::Pointer(h.head),
            Err(error) => growth_error(error),
        },
    }
}

// Makes a call that changes values or lists.
fn change<P: PtrKey, T: Drop, A: ChainArenaTrait<P, Entry<T>> + Drop, V: Values<T>>(
    lists: &mut LinkedLists<P, T, A>,
    call: Call<P>,
) -> Reply<P> {
    match call {
        Call::Replace(p, value) => {
            value_reply(number_in::<T, V>(lists.replace(p, V::value_of(value))))
        }
        Call::Write(p, value) => value_reply(write_in::<T, V>(lists.get_mut(p), value)),
        Call::Remove(p) => value_reply(number_in::<T, V>(lists.remove(p).allow())),
        Call::Join(h, k) => done_reply(lists.join(ListHandle { head: h }, ListHandle { head: k })),
        _ => change_lists(lists, call),
    }
}

// Makes a call.
fn make_call<P: PtrKey, T: Drop, A: ChainArenaTrait<P, Entry<T>> + Drop, V: Values<T>>(
    lists: &mut LinkedLists<P, T, A>,
    call: Call<P>,
) -> Reply<P> {
    match call {
        Call::Insert(goal, value) => insert(lists, goal, V::value_of(value)),
        Call::Move(p, goal) => move_one(lists, p, goal),
        Call::MoveRange(range, goal) => move_range(lists, range, goal),
        Call::Reserve(n) => reserve(lists, n),
        _ => change::<P, T, A, V>(lists, call),
    }
}

// Returns one of the first `kinds` goals.
fn random_goal<P: PtrKey>(model: &Model<P>, seed: &mut u32, kinds: usize) -> Goal<P> {
    match random(seed, kinds) {
        0 => Goal::Front(random_handle(model, seed)),
        1 => Goal::Back(random_handle(model, seed)),
        2 => Goal::After(random_item(model, seed)),
        _ => Goal::Before(random_item(model, seed)),
    }
}

// Returns a call. There are at most six lists.
fn random_call<P: PtrKey>(model: &Model<P>, seed: &mut u32) -> Call<P> {
    let call = random(seed, 32);
    let p = random_item(model, seed);
    let h = random_handle(model, seed);
    let value = *seed;
    match call {
        0..=3 => Call::Move(p, random_goal(model, seed, 3)),
        4..=8 => {
            let last = random_later(model, p, seed);
            Call::MoveRange((p, last), random_goal(model, seed, 3))
        }
        9 => Call::Replace(p, value),
        10 => Call::Write(p, value),
        11..=14 => Call::Remove(p),
        15 => Call::Join(h, random_handle(model, seed)),
        16..=18 => Call::Reserve(random(seed, 8)),
        19 => Call::RemoveList(h),
        20 | 21 if model.handles.len() < 6 => Call::Split(p),
        22 | 23 if model.handles.len() < 6 => Call::NewList,
        _ => Call::Insert(random_goal(model, seed, 4), value),
    }
}

// Makes a call in both, again if it is refused memory, which changes nothing. Returns whether they
// agree.
fn step<P: PtrKey, T: Drop, A: ChainArenaTrait<P, Entry<T>> + Drop, V: Values<T>>(
    alloc: Global,
    lists: &mut LinkedLists<P, T, A>,
    model: &mut Model<P>,
    call: Call<P>,
) -> Result<bool, AllocError> {
    let capacity = lists.capacity();
    let mut reply = make_call::<P, T, A, V>(lists, call);
    if is_refused_memory(reply) {
        if lists.capacity() != capacity || !agrees::<P, T, A, V>(alloc, &*lists, &*model)? {
            return Ok(false);
        }
        model.refused |= bit_of(call);
        reply = make_call::<P, T, A, V>(lists, call);
    }
    Ok(is_reply(model, call, reply)? && agrees::<P, T, A, V>(alloc, &*lists, &*model)?)
}

// Makes random calls in both, and returns the number of the first after which they differ, from 1
// on, or 0.
pub fn first_difference<P: PtrKey, T: Drop, A: ChainArenaTrait<P, Entry<T>> + Drop, V: Values<T>>(
    alloc: Global,
    lists: &mut LinkedLists<P, T, A>,
    model: &mut Model<P>,
    mut seed: u32,
    calls: u32,
) -> Result<u32, AllocError> {
    for n in 0..calls {
        let call = random_call(&*model, &mut seed);
        if !step::<P, T, A, V>(alloc, lists, model, call)? {
            return Ok(n + 1);
        }
    }
    Ok(0)
}

// Takes the arena out, and puts it back. Returns whether the lists are empty in between.
fn is_arena_replaced<P: PtrKey, T: Drop, A: ChainArenaTrait<P, Entry<T>> + Drop>(
    alloc: Global,
    lists: &mut LinkedLists<P, T, A>,
) -> bool {
    let links = lists.len();
    let arena = lists.replace_arena(A::new(alloc));
    let empty = lists.is_empty() && lists.capacity() == 0 && arena.len() == links;
    lists.replace_arena(arena);
    empty
}

// Makes random calls on new lists, replaces their arena, and adds the bits of the calls that were
// refused memory. Returns the number of the first call after which the lists differ, or 0.
fn first_difference_of<P: PtrKey, T: Drop, A: ChainArenaTrait<P, Entry<T>> + Drop, V: Values<T>>(
    alloc: Global,
    seed: u32,
    refused: &mut u32,
) -> Result<u32, AllocError> {
    let mut lists = LinkedLists::<P, T, A>::new(alloc);
    let mut model: Model<P> = new_model(alloc);
    let difference = first_difference::<P, T, A, V>(alloc, &mut lists, &mut model, seed, 250)?;
    *refused |= model.refused;
    if is_arena_replaced(alloc, &mut lists) && agrees::<P, T, A, V>(alloc, &lists, &model)? {
        Ok(difference)
    } else {
        Ok(251)
    }
}

// Returns the bits of the calls that were refused memory, or a seed and a call after which the lists
// differ from the model.
pub fn outcome<P: PtrKey, T: Drop, A: ChainArenaTrait<P, Entry<T>> + Drop, V: Values<T>>(
    alloc: Global,
) -> u32 {
    let mut refused = 0;
    for seed in 0..16 {
        match first_difference_of::<P, T, A, V>(alloc, seed, &mut refused) {
            Ok(0) => {}
            difference => return failure_at(seed, difference),
        }
    }
    refused
}
