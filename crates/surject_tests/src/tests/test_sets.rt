//! The calls on a surjection arena of numbers, by a trait: a call by a bound costs less to prove.

use super::{Key, Sets, Value};
use arena_ptr::{ChainInsertionError, InvalidationResult, PtrKey, ReallocationError};
use arena_traits::CloneArenaTrait;
use chain_traits::CloneChainArenaTrait;
use std::alloc::{AllocError, Global};
use std::mem;
use surject_arena::SurjectArena;

/// The calls of `SurjectArena`. Keys and values are copied.
pub trait TestSets<P: PtrKey>: Drop {
    fn new(alloc: Global) -> Self;

    fn with_capacity(alloc: Global, keys: usize, values: usize) -> Option<Self>;

    fn len_keys(&self) -> usize;

    fn len_vals(&self) -> usize;

    fn capacity_keys(&self) -> usize;

    fn capacity_vals(&self) -> usize;

    fn redirected(&self) -> u128;

    fn contains(&self, p: P) -> bool;

    fn in_same_set(&self, p: P, q: P) -> bool;

    fn len_key_set(&self, p: P) -> Option<usize>;

    fn get_key(&self, p: P) -> Option<u32>;

    fn get_val(&self, p: P) -> Option<u32>;

    fn key_set(&self, p: P, keys: &mut Vec<P>) -> Result<(), AllocError>;

    fn iter(&self, keys: &mut Vec<P>) -> Result<(), AllocError>;

    fn insert(&mut self, k: u32, v: u32) -> Result<P, ReallocationError>;

    fn insert_key(&mut self, p: P, k: u32) -> Result<P, ChainInsertionError>;

    fn union(&mut self, p: P, q: P) -> Option<(u32, P)>;

    fn remove_key(&mut self, p: P) -> InvalidationResult<(u32, Option<u32>)>;

    fn remove(&mut self, p: P) -> InvalidationResult<u32>;

    fn split_key(&mut self, p: P, v: u32) -> Result<Option<u32>, ChainInsertionError>;

    fn replace_val(&mut self, p: P, v: u32) -> Option<u32>;

    fn swap_vals(&mut self, p: P, q: P) -> Option<()>;

    fn write_key(&mut self, p: P, k: u32) -> Option<u32>;

    fn write_val(&mut self, p: P, v: u32) -> Option<u32>;

    fn clear(&mut self);

    // Lists the old and the new pointer of each key.
    fn compress_with(
        &mut self,
        alloc: Global,
        reset: bool,
        moves: &mut Vec<(P, P)>,
    ) -> Result<(), AllocError>;

    fn compress(&mut self, alloc: Global, reset: bool) -> Result<(), AllocError>;

    // Returns a copy, unless memory was refused.
    fn copy(&self, alloc: Global) -> Option<Self>;
}

impl<
    P: PtrKey,
    A: CloneChainArenaTrait<P, Key<P>> + Drop,
    B: CloneArenaTrait<P, Value> + Drop,
> TestSets<P> for Sets<P, A, B> {
    fn new(alloc: Global) -> Self {
        SurjectArena::new(alloc)
    }

    fn with_capacity(alloc: Global, keys: usize, values: usize) -> Option<Self> {
        SurjectArena::with_capacity(alloc, keys, values).ok()
    }

    fn len_keys(&self) -> usize {
        SurjectArena::len_keys(self)
    }

    fn len_vals(&self) -> usize {
        SurjectArena::len_vals(self)
    }

    fn capacity_keys(&self) -> usize {
        SurjectArena::capacity_keys(self)
    }

    fn capacity_vals(&self) -> usize {
        SurjectArena::capacity_vals(self)
    }

    fn redirected(&self) -> u128 {
        SurjectArena::redirected(self)
    }

    fn contains(&self, p: P) -> bool {
        SurjectArena::contains(self, p)
    }

    fn in_same_set(&self, p: P, q: P) -> bool {
        SurjectArena::in_same_set(self, p, q)
    }

    fn len_key_set(&self, p: P) -> Option<usize> {
        SurjectArena::len_key_set(self, p)
    }

    fn get_key(&self, p: P) -> Option<u32> {
        SurjectArena::get_key(self, p).copied()
    }

    fn get_val(&self, p: P) -> Option<u32> {
        SurjectArena::get_val(self, p).copied()
    }

    fn key_set(&self, p: P, keys: &mut Vec<P>) -> Result<(), AllocError> {
        if let Some(set) = SurjectArena::key_set(self, p) {
            for q in set {
                keys.push(q)?;
            }
        }
        Ok(())
    }

    fn iter(&self, keys: &mut Vec<P>) -> Result<(), AllocError> {
        for q in SurjectArena::iter(self) {
            keys.push(q)?;
        }
        Ok(())
    }

    fn insert(&mut self, k: u32, v: u32) -> Result<P, ReallocationError> {
        SurjectArena::insert(self, k, v)
    }

    fn insert_key(&mut self, p: P, k: u32) -> Result<P, ChainInsertionError> {
        SurjectArena::insert_key(self, p, k)
    }

    fn union(&mut self, p: P, q: P) -> Option<(u32, P)> {
        SurjectArena::union(self, p, q)
    }

    fn remove_key(&mut self, p: P) -> InvalidationResult<(u32, Option<u32>)> {
        SurjectArena::remove_key(self, p)
    }

    fn remove(&mut self, p: P) -> InvalidationResult<u32> {
        SurjectArena::remove(self, p)
    }

    fn split_key(&mut self, p: P, v: u32) -> Result<Option<u32>, ChainInsertionError> {
        SurjectArena::split_key(self, p, v)
    }

    fn replace_val(&mut self, p: P, v: u32) -> Option<u32> {
        SurjectArena::replace_val(self, p, v)
    }

    fn swap_vals(&mut self, p: P, q: P) -> Option<()> {
        SurjectArena::swap_vals(self, p, q)
    }

    fn write_key(&mut self, p: P, k: u32) -> Option<u32> {
        match SurjectArena::get_key_mut(self, p) {
            Some(key) => Some(mem::replace(key, k)),
            None => None,
        }
    }

    fn write_val(&mut self, p: P, v: u32) -> Option<u32> {
        match SurjectArena::get_val_mut(self, p) {
            Some(value) => Some(mem::replace(value, v)),
            None => None,
        }
    }

    fn clear(&mut self) {
        SurjectArena::clear(self);
    }

    fn compress_with(
        &mut self,
        alloc: Global,
        reset: bool,
        moves: &mut Vec<(P, P)>,
    ) -> Result<(), AllocError> {
        let visit = |p: P, _k: &mut u32, q: P| {
            let _ = moves.push((p, q));
        };
        match SurjectArena::compress_with(self, alloc, reset, visit) {
            Ok(_) => Ok(()),
            Err(_) => Err(AllocError),
        }
    }

    fn compress(&mut self, alloc: Global, reset: bool) -> Result<(), AllocError> {
        match SurjectArena::compress(self, alloc, reset) {
            Ok(_) => Ok(()),
            Err(_) => Err(AllocError),
        }
    }

    fn copy(&self, alloc: Global) -> Option<Self> {
        SurjectArena::clone(self, alloc).ok()
    }
}
