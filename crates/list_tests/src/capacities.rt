//! Upper bounds of capacities, and a maximum.

use crate::values::Values;
use arena_ptr::{ChainInsertionError, PtrKey, ReallocationError};
use chain_traits::ChainArenaTrait;
use linked_lists::{Entry, LinkedLists, ListHandle};
use std::alloc::Global;

fn double(n: usize) -> usize {
    n.saturating_mul(2)
}

fn is_maximum(error: Option<ReallocationError>) -> bool {
    match error {
        Some(ReallocationError::BeyondMaxCapacity) => true,
        _ => false,
    }
}

fn is_insertion_maximum(error: Option<ChainInsertionError>) -> bool {
    match error {
        Some(ChainInsertionError::BeyondMaxCapacity) => true,
        _ => false,
    }
}

// Returns whether the capacity stays below twice the number of links and 8 while items are
// inserted.
fn insertions_are_bounded<P: PtrKey, T: Drop, A: ChainArenaTrait<P, Entry<T>> + Drop, V: Values<T>>(
    lists: &mut LinkedLists<P, T, A>,
) -> bool {
    let Ok(h) = lists.new_list() else {
        return false;
    };
    for _ in 0..500 {
        if lists.push_back(h, V::value_of(7)).is_err() {
            return false;
        }
        if lists.capacity() >= double(lists.len()).saturating_add(8) {
            return false;
        }
    }
    true
}

// Reserves capacity, and returns whether the new one suffices, and is at most what is needed or
// twice the former one.
fn reservation_is_bounded<P: PtrKey, T: Drop, A: ChainArenaTrait<P, Entry<T>> + Drop>(
    lists: &mut LinkedLists<P, T, A>,
    additional: usize,
) -> bool {
    let former = lists.capacity();
    let needed = lists.len().saturating_add(additional);
    if lists.reserve(additional).is_err() {
        return false;
    }
    let capacity = lists.capacity();
    needed <= capacity && (capacity <= needed || capacity <= double(former))
}

// Returns whether that holds for several reservations.
fn reservations_are_bounded<P: PtrKey, T: Drop, A: ChainArenaTrait<P, Entry<T>> + Drop>(
    lists: &mut LinkedLists<P, T, A>,
) -> bool {
    for additional in [5, 8, 9, 100, 100, 101, 1_000] {
        if !reservation_is_bounded(lists, additional) {
            return false;
        }
    }
    true
}

// Returns whether a reservation is refused because of the maximum, and the capacity stays.
fn is_beyond<P: PtrKey, T: Drop, A: ChainArenaTrait<P, Entry<T>> + Drop>(
    lists: &mut LinkedLists<P, T, A>,
    additional: usize,
) -> bool {
    let (len, capacity) = (lists.len(), lists.capacity());
    is_maximum(lists.reserve(additional).err())
        && lists.len() == len
        && lists.capacity() == capacity
}

// Returns whether these reservations succeed, if that is wanted, or else are refused.
fn reservations_hold<P: PtrKey, T: Drop, A: ChainArenaTrait<P, Entry<T>> + Drop>(
    lists: &mut LinkedLists<P, T, A>,
    rows: &[(usize, bool)],
) -> bool {
    for (additional, fits) in rows {
        let holds = if *fits {
            lists.reserve(*additional).is_ok() && lists.capacity() >= *additional
        } else {
            is_beyond(lists, *additional)
        };
        if !holds {
            return false;
        }
    }
    true
}

// Returns whether six more links fit, and no further item or list, nor a split.
fn six_links_fit<P: PtrKey, T: Drop, A: ChainArenaTrait<P, Entry<T>> + Drop, V: Values<T>>(
    lists: &mut LinkedLists<P, T, A>,
    (h, p): (ListHandle<P>, P),
) -> bool {
    for _ in 0..6 {
        if lists.push_back(h, V::value_of(7)).is_err() {
            return false;
        }
    }
    is_insertion_maximum(lists.push_front(h, V::value_of(7)).err())
        && is_maximum(lists.new_list().err())
        && is_maximum(lists.split_at(p).err())
        && lists.len() == 8
}

// Returns whether reservations within a maximum of eight succeed, and all others are refused.
fn maximum_holds<P: PtrKey, T: Drop, A: ChainArenaTrait<P, Entry<T>> + Drop, V: Values<T>>(
    lists: &mut LinkedLists<P, T, A>,
) -> bool {
    let before = reservations_hold(lists, [(9, false), (3, true)].as_slice());
    let Ok(h) = lists.new_list() else {
        return false;
    };
    let Ok(p) = lists.push_back(h, V::value_of(7)) else {
        return false;
    };
    let rows = [(7, false), (usize::MAX, false), (6, true), (7, false)];
    let after = reservations_hold(lists, rows.as_slice());
    before && after && lists.capacity() == 8 && six_links_fit::<P, T, A, V>(lists, (h, p))
}

// Returns whether capacities are bounded without a maximum, for two collections without items.
fn are_bounded<P: PtrKey, T: Drop, A: ChainArenaTrait<P, Entry<T>> + Drop, V: Values<T>>(
    lists: &mut LinkedLists<P, T, A>,
    others: &mut LinkedLists<P, T, A>,
) -> bool {
    reservations_are_bounded(lists)
        && insertions_are_bounded::<P, T, A, V>(others)
        && reservation_is_bounded(others, 3_000)
}

// Returns the maximum, or 0 if there is none, or 1 if capacities are not bounded so.
pub fn outcome<P: PtrKey, T: Drop, A: ChainArenaTrait<P, Entry<T>> + Drop, V: Values<T>>(
    alloc: Global,
) -> u32 {
    let mut lists = LinkedLists::<P, T, A>::new(alloc);
    let mut others = LinkedLists::<P, T, A>::new(alloc);
    match lists.max_capacity() {
        Some(8) if maximum_holds::<P, T, A, V>(&mut lists) => 8,
        None if are_bounded::<P, T, A, V>(&mut lists, &mut others) => 0,
        _ => 1,
    }
}
