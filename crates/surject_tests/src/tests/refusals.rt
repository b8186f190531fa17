// Refused calls, and reserved capacities.

use super::test_sets::TestSets;
use arena_ptr::{ChainInsertionError, PtrKey};
use std::alloc::{AllocError, Global};

// Which errors occurred.
#[derive(Clone, Copy)]
struct Errors {
    memory: bool,
    maximum: bool,
    others: bool,
}

const NO_ERRORS: Errors = Errors {
    memory: false,
    maximum: false,
    others: false,
};

impl Errors {
    fn add(&mut self, e: ChainInsertionError) {
        match e {
            ChainInsertionError::AllocError => self.memory = true,
            ChainInsertionError::BeyondMaxCapacity => self.maximum = true,
            _ => self.others = true,
        }
    }

    // Returns whether both limits refused a call.
    fn are_both(self) -> bool {
        self.memory && self.maximum && !self.others
    }
}

// Returns whether so many keys and values fit, where the first growth succeeds.
pub fn reserves<P: PtrKey, T: TestSets<P>>(alloc: Global) -> bool {
    match T::with_capacity(alloc, 5, 3) {
        Some(sets) => sets.capacity_keys() >= 5
            && sets.capacity_vals() >= 3
            && sets.len_keys() == 0,
        None => false,
    }
}

// Inserts keys into sets of their own, and returns whether both limits refused some.
pub fn refuses_inserts<P: PtrKey, T: TestSets<P>>(alloc: Global) -> bool {
    let mut sets = T::new(alloc);
    let mut errors = NO_ERRORS;
    for n in 0..32 {
        if let Err(e) = sets.insert(n, n) {
            errors.add(ChainInsertionError::from(e));
        }
    }
    errors.are_both() && sets.len_vals() == 8
}

// Inserts keys beside one, and returns which errors occurred.
fn insert_beside<P: PtrKey, T: TestSets<P>>(
    sets: &mut T,
    p: P,
    keys: &mut Vec<P>,
) -> Result<Errors, AllocError> {
    let mut errors = NO_ERRORS;
    for n in 0..64 {
        match sets.insert_key(p, n) {
            Ok(q) => keys.push(q)?,
            Err(e) => errors.add(e),
        }
    }
    Ok(errors)
}

// Splits keys off, and returns which errors occurred.
fn split_all<P: PtrKey, T: TestSets<P>>(sets: &mut T, keys: &[P]) -> Errors {
    let mut errors = NO_ERRORS;
    for p in keys {
        if let Err(e) = sets.split_key(*p, 7) {
            errors.add(e);
        }
    }
    errors
}

// Fills a set and splits its keys off, and returns whether both limits refused some keys and splits.
pub fn refuses_splits<P: PtrKey, T: TestSets<P>>(alloc: Global) -> Result<bool, AllocError> {
    let mut sets = T::new(alloc);
    let mut keys = Vec::new(alloc);
    match sets.insert(1, 5) {
        Ok(p) => {
            let inserts = insert_beside(&mut sets, p, &mut keys)?;
            let splits = split_all(&mut sets, keys.as_slice());
            Ok(inserts.are_both() && splits.are_both() && sets.len_vals() == 8)
        }
        Err(_) => Ok(false),
    }
}

// Inserts a key into a set of its own, if one of several attempts succeeds.
fn insert<P: PtrKey, T: TestSets<P>>(sets: &mut T, k: u32) -> Option<P> {
    for _ in 0..8 {
        if let Ok(p) = sets.insert(k, k) {
            return Some(p);
        }
    }
    None
}

// Makes a set of the keys 2 and 3 at the indexes 2 and 3, and returns their pointers.
fn two_keys<P: PtrKey, T: TestSets<P>>(sets: &mut T) -> Option<(P, P)> {
    let a = insert(sets, 1)?;
    let b = insert(sets, 2)?;
    let c = insert(sets, 3)?;
    sets.remove(a).allow()?;
    sets.union(c, b)?;
    Some((b, c))
}

// Returns whether these are the pointers of the two keys.
fn has_both<P: PtrKey, T: TestSets<P>>(sets: &T, b: P, c: P) -> bool {
    sets.get_key(b) == Some(2)
        && sets.get_key(c) == Some(3)
        && sets.in_same_set(b, c)
        && sets.get_val(b) == Some(3)
        && sets.len_key_set(c) == Some(2)
}

// Compresses the set of the two keys, and returns whether that moved both, and a refused attempt
// changed nothing. One of two attempts has to succeed.
pub fn compresses_or_not<P: PtrKey, T: TestSets<P>>(alloc: Global) -> Option<bool> {
    let mut sets = T::new(alloc);
    let (b, c) = two_keys(&mut sets)?;
    for _ in 0..2 {
        if sets.compress(alloc, false).is_ok() {
            return Some(sets.len_keys() == 2 && !sets.contains(b) && !sets.contains(c));
        }
        if !has_both(&sets, b, c) {
            return Some(false);
        }
    }
    None
}
