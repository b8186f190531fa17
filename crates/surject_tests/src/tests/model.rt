// Random calls beside a model: a list of keys, each with the number of its set.

use super::test_sets::TestSets;
use arena_ptr::{InvalidationResult, InxKey, PtrKey};
use std::alloc::{AllocError, Global};

// A key: its pointer, itself, and its set.
#[derive(Clone, Copy)]
struct Entry<P> {
    p: P,
    key: u32,
    set: usize,
}

// The keys, and the value of each set that there ever was.
#[derive(Drop)]
struct Model<P> {
    entries: Vec<Entry<P>>,
    values: Vec<u32>,
}

// Returns the next of a sequence of pseudorandom numbers, below `n`.
fn random(seed: &mut u32, n: usize) -> usize {
    *seed = seed.wrapping_mul(1_664_525).wrapping_add(1_013_904_223);
    let high = (*seed >> 8) as usize;
    if n == 0 { 0 } else { high % n }
}

fn size_of<P: PtrKey>(entries: &[Entry<P>], set: usize) -> usize {
    let mut n: usize = 0;
    for e in entries {
        if e.set == set {
            n = n.saturating_add(1);
        }
    }
    n
}

// Puts the keys of a set into another one.
fn redirect<P: PtrKey>(entries: &mut [Entry<P>], from: usize, to: usize) {
    for e in entries {
        if e.set == from {
            e.set = to;
        }
    }
}

fn value_of<P: PtrKey>(model: &Model<P>, set: usize) -> u32 {
    match model.values.get(set) {
        Some(v) => *v,
        None => 0,
    }
}

fn write_value<P: PtrKey>(model: &mut Model<P>, set: usize, value: u32) {
    if let Some(v) = model.values.get_mut(set) {
        *v = value;
    }
}

// Returns whether the key has its value, size and pointer.
fn reads_alike<P: PtrKey, T: TestSets<P>>(sets: &T, model: &Model<P>, e: Entry<P>) -> bool {
    let value = value_of(model, e.set);
    let size = size_of(model.entries.as_slice(), e.set);
    sets.contains(e.p)
        && sets.get_key(e.p) == Some(e.key)
        && sets.get_val(e.p) == Some(value)
        && sets.len_key_set(e.p) == Some(size)
}

// Returns whether two keys are in one set exactly if they are in the model.
fn joins_alike<P: PtrKey, T: TestSets<P>>(sets: &T, e: Entry<P>, d: Entry<P>) -> bool {
    sets.in_same_set(e.p, d.p) == (e.set == d.set)
}

// Returns whether the key is in one set with the same keys.
fn joined_alike<P: PtrKey, T: TestSets<P>>(sets: &T, entries: &[Entry<P>], e: Entry<P>) -> bool {
    for d in entries {
        if !joins_alike(sets, e, *d) {
            return false;
        }
    }
    true
}

// Returns whether the keys are valid, and their indexes ascend.
fn are_ascending<P: PtrKey, T: TestSets<P>>(sets: &T, keys: &[P]) -> bool {
    let mut last = 0;
    for p in keys {
        let p = *p;
        let i = p.inx().try_into_usize().unwrap_or(0);
        if i <= last || !sets.contains(p) {
            return false;
        }
        last = i;
    }
    true
}

// Returns whether as many keys are listed, by ascending index.
fn lists_alike<P: PtrKey, T: TestSets<P>>(
    alloc: Global,
    sets: &T,
    count: usize,
) -> Result<bool, AllocError> {
    let mut keys = Vec::new(alloc);
    sets.iter(&mut keys)?;
    Ok(keys.len() == count && are_ascending(sets, keys.as_slice()))
}

// Returns whether the whole state is that of the model.
fn agrees<P: PtrKey, T: TestSets<P>>(
    alloc: Global,
    sets: &T,
    model: &Model<P>,
) -> Result<bool, AllocError> {
    let entries = model.entries.as_slice();
    if sets.len_keys() != entries.len() || !lists_alike(alloc, sets, entries.len())? {
        return Ok(false);
    }
    for e in entries {
        if !reads_alike(sets, model, *e) || !joined_alike(sets, entries, *e) {
            return Ok(false);
        }
    }
    Ok(true)
}

fn insert<P: PtrKey, T: TestSets<P>>(
    sets: &mut T,
    model: &mut Model<P>,
    key: u32,
) -> Result<bool, AllocError> {
    if let Ok(p) = sets.insert(key, key) {
        let set = model.values.len();
        model.values.push(key)?;
        model.entries.push(Entry { p, key, set })?;
    }
    Ok(true)
}

fn insert_beside<P: PtrKey, T: TestSets<P>>(
    sets: &mut T,
    model: &mut Model<P>,
    e: Entry<P>,
    key: u32,
) -> Result<bool, AllocError> {
    if let Ok(p) = sets.insert_key(e.p, key) {
        model.entries.push(Entry { p, key, set: e.set })?;
    }
    Ok(true)
}

// Unites two sets, and returns whether the right value was removed.
fn union<P: PtrKey, T: TestSets<P>>(
    sets: &mut T,
    model: &mut Model<P>,
    e: Entry<P>,
    d: Entry<P>,
) -> bool {
    let united = sets.union(e.p, d.p);
    if e.set == d.set {
        return united.is_none();
    }
    let entries = model.entries.as_slice();
    let (to, from, p) = if size_of(entries, e.set) < size_of(entries, d.set) {
        (d.set, e.set, e.p)
    } else {
        (e.set, d.set, d.p)
    };
    redirect(model.entries.as_mut_slice(), from, to);
    match united {
        Some((value, q)) => value == value_of(model, from) && q.is_same(p),
        None => false,
    }
}

// Removes a key, and returns whether its value was removed exactly if it was the last.
fn remove<P: PtrKey, T: TestSets<P>>(sets: &mut T, model: &mut Model<P>, k: usize) -> bool {
    if k >= model.entries.len() {
        return false;
    }
    let e = model.entries.swap_remove(k);
    let last = size_of(model.entries.as_slice(), e.set) == 0;
    match sets.remove_key(e.p) {
        InvalidationResult::Success((key, value)) => {
            key == e.key
                && value
                    == if last {
                        Some(value_of(model, e.set))
                    } else {
                        None
                    }
        }
        _ => false,
    }
}

// Removes a set, and returns whether its value was returned.
fn remove_set<P: PtrKey, T: TestSets<P>>(sets: &mut T, model: &mut Model<P>, e: Entry<P>) -> bool {
    let mut k: usize = 0;
    for _ in 0..model.entries.len() {
        match model.entries.get(k) {
            Some(d) if d.set != e.set => k = k.saturating_add(1),
            Some(_) => {
                model.entries.swap_remove(k);
            }
            None => {}
        }
    }
    sets.remove(e.p) == InvalidationResult::Success(value_of(model, e.set))
}

// Splits a key off, and returns whether its value was replaced exactly if it was alone.
fn split<P: PtrKey, T: TestSets<P>>(
    sets: &mut T,
    model: &mut Model<P>,
    k: usize,
    e: Entry<P>,
    value: u32,
) -> Result<bool, AllocError> {
    let alone = size_of(model.entries.as_slice(), e.set) == 1;
    let former = value_of(model, e.set);
    match sets.split_key(e.p, value) {
        Ok(Some(v)) => {
            write_value(model, e.set, value);
            Ok(alone && v == former)
        }
        Ok(None) => {
            let set = model.values.len();
            model.values.push(value)?;
            if let Some(d) = model.entries.get_mut(k) {
                d.set = set;
            }
            Ok(!alone)
        }
        Err(_) => Ok(!alone),
    }
}

// Writes a key and the value of its set in place, and returns whether both are there.
fn write<P: PtrKey, T: TestSets<P>>(
    sets: &mut T,
    model: &mut Model<P>,
    k: usize,
    e: Entry<P>,
    n: u32,
) -> bool {
    if let Some(d) = model.entries.get_mut(k) {
        d.key = n;
    }
    write_value(model, e.set, n);
    sets.write_key(e.p, n) == Some(e.key) && sets.write_val(e.p, n).is_some()
}

// Exchanges the values of two sets, and returns whether that was done.
fn swap<P: PtrKey, T: TestSets<P>>(
    sets: &mut T,
    model: &mut Model<P>,
    e: Entry<P>,
    d: Entry<P>,
) -> bool {
    let (v, w) = (value_of(model, e.set), value_of(model, d.set));
    write_value(model, e.set, w);
    write_value(model, d.set, v);
    sets.swap_vals(e.p, d.p).is_some()
}

// Replaces the arena by its copy, and returns whether clearing the former one leaves that alone.
fn copy<P: PtrKey, T: TestSets<P>>(
    alloc: Global,
    sets: &mut T,
    model: &Model<P>,
) -> Result<bool, AllocError> {
    match sets.copy(alloc) {
        Some(copy) => {
            sets.clear();
            let agree = agrees(alloc, &copy, model)?;
            *sets = copy;
            Ok(agree)
        }
        None => Ok(true),
    }
}

// Returns whether the k-th pair leads to index k, for each k.
fn are_numbered<P: PtrKey>(moves: &[(P, P)]) -> bool {
    let mut k: usize = 0;
    for (_, q) in moves {
        k = k.saturating_add(1);
        if q.inx().try_into_usize() != Some(k) {
            return false;
        }
    }
    true
}

// Returns the new pointer of a key.
fn destination_of<P: PtrKey>(moves: &[(P, P)], p: P) -> Option<P> {
    for (from, to) in moves {
        if from.is_same(p) {
            return Some(*to);
        }
    }
    None
}

// Compresses, and returns whether each key was moved, or none if memory was refused. A second
// compression with `reset` moves none.
fn compress<P: PtrKey, T: TestSets<P>>(
    alloc: Global,
    sets: &mut T,
    model: &mut Model<P>,
    reset: bool,
) -> Result<bool, AllocError> {
    let mut moves: Vec<(P, P)> = Vec::new(alloc);
    moves.reserve(model.entries.len())?;
    if sets.compress_with(alloc, reset, &mut moves).is_err() {
        return Ok(moves.is_empty());
    }
    let mut all = moves.len() == model.entries.len() && are_numbered(moves.as_slice());
    for e in model.entries.as_mut_slice() {
        match destination_of(moves.as_slice(), e.p) {
            Some(q) => e.p = q,
            None => all = false,
        }
    }
    if reset {
        let _ = sets.compress(alloc, true);
    }
    Ok(all)
}

// Makes a random call in both, and returns whether it did the same.
fn step<P: PtrKey, T: TestSets<P>>(
    alloc: Global,
    sets: &mut T,
    model: &mut Model<P>,
    seed: &mut u32,
) -> Result<bool, AllocError> {
    let count = model.entries.len();
    let call = random(seed, 24);
    let key = *seed;
    let i = random(seed, count);
    let j = random(seed, count);
    let (e, d) = match (model.entries.get(i), model.entries.get(j)) {
        (Some(e), Some(d)) => (*e, *d),
        _ => return insert(sets, model, key),
    };
    match call {
        0..=4 => insert(sets, model, key),
        5 | 6 => insert_beside(sets, model, e, key),
        7..=10 => Ok(union(sets, model, e, d)),
        11 | 12 => split(sets, model, i, e, key),
        13 | 14 => Ok(write(sets, model, i, e, key)),
        15 => Ok(remove_set(sets, model, e)),
        16 => compress(alloc, sets, model, i < j),
        17 | 18 => Ok(swap(sets, model, e, d)),
        19 => copy(alloc, sets, model),
        _ => Ok(remove(sets, model, i)),
    }
}

// Makes random calls, and returns the number of the first after which the states differ, from 1 on,
// or 0.
pub fn first_difference<P: PtrKey, T: TestSets<P>>(
    alloc: Global,
    calls: u32,
) -> Result<u32, AllocError> {
    let mut sets: T = T::new(alloc);
    let mut model: Model<P> = Model {
        entries: Vec::new(alloc),
        values: Vec::new(alloc),
    };
    let mut seed = 1;
    for n in 0..calls {
        if !step(alloc, &mut sets, &mut model, &mut seed)? || !agrees(alloc, &sets, &model)? {
            return Ok(n + 1);
        }
    }
    Ok(0)
}

// Returns whether one of two runs of random calls ends without a difference, and none with one. A
// run is given up if memory for the model is refused.
pub fn agrees_or_gives_up<P: PtrKey, T: TestSets<P>>(alloc: Global, calls: u32) -> bool {
    let mut ended = false;
    for _ in 0..2 {
        match first_difference::<P, T>(alloc, calls) {
            Ok(0) => ended = true,
            Ok(_) => return false,
            Err(_) => {}
        }
    }
    ended
}
