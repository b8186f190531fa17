// Rows of calls and what they yield.

use super::test_sets::TestSets;
use arena_ptr::{InvalidationResult, PtrKey};
use std::alloc::{AllocError, Global};

// A call. Keys are named by the order of their insertion, from 0 on.
#[derive(Clone, Copy)]
enum Op {
    // Inserts a key into a set of its own, with a value: 1.
    Insert,
    // Inserts a key beside another: 1, or 0 if that is no key.
    Beside,
    // Unites the sets of two keys: 0 for none, or the value that is removed, and 1 or 2 for the key
    // that had it.
    Union,
    // Removes a key: 0 for none, or the key and the value, 9 if that stays.
    Remove,
    // Splits a key off: 0 for none, 1 if others were in its set, or the former value, and 2.
    Split,
    // Removes a whole set: 0 for none, or the value.
    RemoveSet,
    // Replaces a value: the former one, or 9 for none.
    Replace,
    // Writes a key, or a value, in place: the former one, or 9 for none.
    WriteKey,
    WriteValue,
    // Exchanges the values of two sets: 1, or 0 if either argument is no key.
    Swap,
    // Whether two keys are in one set.
    InOneSet,
    // The key and its value, and how many have it; 0 for none.
    Read,
    // The keys of a set, from one on; 0 for none.
    List,
    // All keys, by ascending index; 0 for none.
    ListAll,
    // The number of keys and of values, and of keys that unions redirected.
    Count,
    // Removes all: 0.
    Clear,
}

// A call, two arguments, and what it yields in decimal digits.
type Row = (Op, u32, u32, u32);

// Insertions and unions.
const UNIONS: [Row; 23] = [
    (Op::Count, 0, 0, 0),
    (Op::Insert, 1, 5, 1),
    (Op::Insert, 2, 6, 1),
    (Op::Insert, 3, 7, 1),
    (Op::Insert, 4, 8, 1),
    (Op::Count, 0, 0, 440),
    (Op::InOneSet, 0, 1, 0),
    (Op::InOneSet, 2, 2, 1),
    (Op::Read, 3, 0, 481),
    // Both sets have one key, so the first keeps its value.
    (Op::Union, 0, 1, 62),
    (Op::Union, 1, 0, 0),
    (Op::Count, 0, 0, 431),
    (Op::Read, 1, 0, 252),
    (Op::List, 0, 0, 12),
    (Op::List, 1, 0, 21),
    // The second set is larger.
    (Op::Union, 2, 0, 71),
    (Op::Read, 2, 0, 353),
    (Op::InOneSet, 2, 1, 1),
    (Op::InOneSet, 2, 3, 0),
    (Op::Count, 0, 0, 422),
    (Op::Beside, 1, 9, 1),
    (Op::Read, 4, 0, 954),
    (Op::Count, 0, 0, 522),
];

// A last union, and removals of keys.
const REMOVALS: [Row; 16] = [
    (Op::Union, 0, 3, 82),
    (Op::Union, 3, 4, 0),
    (Op::Read, 3, 0, 455),
    (Op::Count, 0, 0, 513),
    (Op::Replace, 4, 3, 5),
    (Op::Read, 0, 0, 135),
    (Op::Remove, 0, 0, 19),
    (Op::Remove, 0, 0, 0),
    (Op::Read, 0, 0, 0),
    (Op::InOneSet, 0, 1, 0),
    (Op::Union, 0, 1, 0),
    (Op::Beside, 0, 1, 0),
    (Op::Replace, 0, 1, 9),
    (Op::List, 0, 0, 0),
    (Op::Remove, 2, 0, 39),
    (Op::Read, 1, 0, 233),
];

// Splits, writes and exchanges.
const SPLITS: [Row; 31] = [
    // The others stay in their set.
    (Op::Split, 3, 8, 1),
    (Op::Read, 3, 0, 481),
    (Op::Read, 1, 0, 232),
    (Op::InOneSet, 3, 1, 0),
    (Op::InOneSet, 4, 1, 1),
    (Op::List, 1, 0, 29),
    (Op::List, 4, 0, 92),
    (Op::List, 3, 0, 4),
    (Op::Count, 0, 0, 323),
    // It is alone, so its value is replaced.
    (Op::Split, 3, 5, 82),
    (Op::Read, 3, 0, 451),
    (Op::Split, 0, 1, 0),
    (Op::Union, 3, 1, 51),
    (Op::Read, 3, 0, 433),
    (Op::Count, 0, 0, 314),
    (Op::WriteKey, 3, 7, 4),
    (Op::WriteKey, 0, 1, 9),
    (Op::Read, 3, 0, 733),
    (Op::WriteValue, 4, 6, 3),
    (Op::WriteValue, 0, 1, 9),
    (Op::Read, 1, 0, 263),
    (Op::Insert, 6, 7, 1),
    (Op::Swap, 1, 5, 1),
    (Op::Read, 1, 0, 273),
    (Op::Read, 5, 0, 661),
    (Op::Swap, 5, 3, 1),
    (Op::Swap, 3, 4, 1),
    (Op::Read, 4, 0, 963),
    (Op::Swap, 0, 1, 0),
    (Op::Swap, 1, 0, 0),
    (Op::Remove, 5, 0, 67),
];

// Removals of whole sets.
const WHOLE_SETS: [Row; 18] = [
    // The next key is inserted at the index of key 2, which is third.
    (Op::ListAll, 0, 0, 279),
    (Op::Insert, 5, 4, 1),
    (Op::ListAll, 0, 0, 2579),
    (Op::RemoveSet, 4, 0, 6),
    (Op::Count, 0, 0, 114),
    (Op::ListAll, 0, 0, 5),
    (Op::Read, 3, 0, 0),
    (Op::Read, 6, 0, 541),
    (Op::RemoveSet, 1, 0, 0),
    (Op::RemoveSet, 6, 0, 4),
    (Op::ListAll, 0, 0, 0),
    (Op::Count, 0, 0, 4),
    (Op::Insert, 8, 7, 1),
    (Op::Beside, 7, 9, 1),
    (Op::Count, 0, 0, 214),
    (Op::Clear, 0, 0, 0),
    (Op::Count, 0, 0, 4),
    (Op::ListAll, 0, 0, 0),
];

fn digits(n: u32, digit: u32) -> u32 {
    n.saturating_mul(10).saturating_add(digit)
}

fn number(n: usize) -> u32 {
    u32::try_from(n).unwrap_or(u32::MAX)
}

// Inserts a key; if memory is refused, a second time.
fn insert<P: PtrKey, T: TestSets<P>>(sets: &mut T, k: u32, v: u32) -> Option<P> {
    for _ in 0..3 {
        if let Ok(p) = sets.insert(k, v) {
            return Some(p);
        }
    }
    None
}

fn insert_beside<P: PtrKey, T: TestSets<P>>(sets: &mut T, p: P, k: u32) -> Option<P> {
    for _ in 0..2 {
        if let Ok(q) = sets.insert_key(p, k) {
            return Some(q);
        }
    }
    None
}

fn union<P: PtrKey, T: TestSets<P>>(sets: &mut T, p: P, q: P) -> u32 {
    match sets.union(p, q) {
        Some((v, r)) => digits(v, if r.is_same(p) { 1 } else { 2 }),
        None => 0,
    }
}

fn remove<P: PtrKey, T: TestSets<P>>(sets: &mut T, p: P) -> u32 {
    match sets.remove_key(p) {
        InvalidationResult::Success((k, v)) => digits(k, v.unwrap_or(9)),
        _ => 0,
    }
}

fn remove_set<P: PtrKey, T: TestSets<P>>(sets: &mut T, p: P) -> u32 {
    match sets.remove(p) {
        InvalidationResult::Success(v) => v,
        _ => 0,
    }
}

// Splits a key off; if memory is refused, a second time.
fn split<P: PtrKey, T: TestSets<P>>(sets: &mut T, p: P, v: u32) -> u32 {
    for _ in 0..2 {
        match sets.split_key(p, v) {
            Ok(Some(former)) => return digits(former, 2),
            Ok(None) => return 1,
            Err(_) => {}
        }
    }
    0
}

fn read<P: PtrKey, T: TestSets<P>>(sets: &T, p: P) -> u32 {
    match (sets.get_key(p), sets.get_val(p), sets.len_key_set(p)) {
        (Some(k), Some(v), Some(n)) => digits(digits(k, v), number(n)),
        _ => 0,
    }
}

// Returns the digits of keys.
fn digits_of<P: PtrKey, T: TestSets<P>>(sets: &T, keys: &[P]) -> u32 {
    let mut n = 0;
    for q in keys {
        n = digits(n, sets.get_key(*q).unwrap_or(0));
    }
    n
}

fn list<P: PtrKey, T: TestSets<P>>(alloc: Global, sets: &T, p: P) -> u32 {
    let mut keys = Vec::new(alloc);
    match sets.key_set(p, &mut keys) {
        Ok(()) => digits_of(sets, keys.as_slice()),
        Err(_) => 0,
    }
}

fn list_all<P: PtrKey, T: TestSets<P>>(alloc: Global, sets: &T) -> u32 {
    let mut keys = Vec::new(alloc);
    match sets.iter(&mut keys) {
        Ok(()) => digits_of(sets, keys.as_slice()),
        Err(_) => 0,
    }
}

fn count<P: PtrKey, T: TestSets<P>>(sets: &T) -> u32 {
    let redirected = u32::try_from(sets.redirected()).unwrap_or(u32::MAX);
    digits(
        digits(number(sets.len_keys()), number(sets.len_vals())),
        redirected,
    )
}

// Makes a call on the keys inserted so far, and returns what it yields, and a new key.
fn respond<P: PtrKey, T: TestSets<P>>(
    alloc: Global,
    sets: &mut T,
    op: Op,
    p: P,
    q: P,
    arguments: (u32, u32),
) -> (u32, Option<P>) {
    let (a, b) = arguments;
    match op {
        Op::Insert => {
            let p = insert(sets, a, b);
            (p.is_some() as u32, p)
        }
        Op::Beside => {
            let q = insert_beside(sets, p, b);
            (q.is_some() as u32, q)
        }
        Op::Union => (union(sets, p, q), None),
        Op::Remove => (remove(sets, p), None),
        Op::Split => (split(sets, p, b), None),
        Op::WriteKey => (sets.write_key(p, b).unwrap_or(9), None),
        Op::WriteValue => (sets.write_val(p, b).unwrap_or(9), None),
        Op::RemoveSet => (remove_set(sets, p), None),
        Op::Replace => (sets.replace_val(p, b).unwrap_or(9), None),
        Op::Swap => (sets.swap_vals(p, q).is_some() as u32, None),
        Op::InOneSet => (sets.in_same_set(p, q) as u32, None),
        Op::Read => (read(sets, p), None),
        Op::List => (list(alloc, sets, p), None),
        Op::ListAll => (list_all(alloc, sets), None),
        Op::Count => (count(sets), None),
        Op::Clear => {
            sets.clear();
            (0, None)
        }
    }
}

fn at<P: PtrKey>(ptrs: &[P], n: u32) -> P {
    match ptrs.get(n as usize) {
        Some(p) => *p,
        None => P::invalid(),
    }
}

// Makes the calls of rows, and returns the number of the first that yields something else, from 1
// on, or 0.
fn wrong_row<P: PtrKey, T: TestSets<P>>(
    alloc: Global,
    sets: &mut T,
    ptrs: &mut Vec<P>,
    rows: &[Row],
) -> Result<usize, AllocError> {
    let mut n: usize = 0;
    for row in rows {
        let (op, a, b, wanted) = *row;
        n = n.wrapping_add(1);
        let (p, q) = (at(ptrs.as_slice(), a), at(ptrs.as_slice(), b));
        let (got, inserted) = respond(alloc, sets, op, p, q, (a, b));
        if got != wanted {
            return Ok(n);
        }
        if let Some(p) = inserted {
            ptrs.push(p)?;
        }
    }
    Ok(0)
}

fn wrong_union<P: PtrKey, T: TestSets<P>>(
    alloc: Global,
    sets: &mut T,
    ptrs: &mut Vec<P>,
) -> Result<usize, AllocError> {
    wrong_row(alloc, sets, ptrs, &UNIONS)
}

fn wrong_removal<P: PtrKey, T: TestSets<P>>(
    alloc: Global,
    sets: &mut T,
    ptrs: &mut Vec<P>,
) -> Result<usize, AllocError> {
    wrong_row(alloc, sets, ptrs, &REMOVALS)
}

fn wrong_split<P: PtrKey, T: TestSets<P>>(
    alloc: Global,
    sets: &mut T,
    ptrs: &mut Vec<P>,
) -> Result<usize, AllocError> {
    wrong_row(alloc, sets, ptrs, &SPLITS)
}

fn wrong_set_removal<P: PtrKey, T: TestSets<P>>(
    alloc: Global,
    sets: &mut T,
    ptrs: &mut Vec<P>,
) -> Result<usize, AllocError> {
    wrong_row(alloc, sets, ptrs, &WHOLE_SETS)
}

// Makes the calls of all tables, and returns the number of the first row of each that yields
// something else, or 0.
pub fn wrong_rows<P: PtrKey, T: TestSets<P>>(alloc: Global) -> Result<[usize; 4], AllocError> {
    let mut sets = T::new(alloc);
    let mut ptrs: Vec<P> = Vec::new(alloc);
    Ok([
        wrong_union(alloc, &mut sets, &mut ptrs)?,
        wrong_removal(alloc, &mut sets, &mut ptrs)?,
        wrong_split(alloc, &mut sets, &mut ptrs)?,
        wrong_set_removal(alloc, &mut sets, &mut ptrs)?,
    ])
}
