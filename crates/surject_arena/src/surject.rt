// The surjection arena.
ghost use Rattle.std.specs.Prelude.{◌≡◌, ◌≢◌, ◌↔◌, ◌+◌, ◌<◌, ◌^◌, ◌-◌, ℕ, List, length, min, IsTrue, IsSome, IfSome, IfNone, IfOk, OnErr, IsOk, MatchOption, Some, None};
ghost use Rattle.std.specs.Option.{option_map};
ghost use Rattle.std.specs.Borrow.{LendsSo, sem};
ghost use Rattle.arena_core.specs.Invalidation.{value_within};
ghost use Rattle.arena_traits.specs.Arena.{IsValid};
ghost use Rattle.arena_traits.specs.Compressions.{VisitsAll, values_in};
ghost use Rattle.arena_traits.specs.Entries.{AscendsFrom, count, HasFreeCapacity};
ghost use Rattle.arena_traits.specs.Growth.{GrowsForOneMore, RefusesOneMore, IsGrowthResult};
ghost use Rattle.surject_arena.specs.Surjections.{IsKey, IsKeyOf, AreInOneSet, SharesSet, IsAlone, IsSurjection, HasValue, key_at};
ghost use Rattle.surject_arena.specs.KeySets.{ListsSet, all_pointers};
ghost use Rattle.surject_arena.specs.SetCompressions.{CompressesSets, keys_in};
ghost use Rattle.surject_arena.specs.SetRemovals.{IsSetReduced, RemovesSet};
ghost use Rattle.surject_arena.specs.Rows.{chain_members, plain_members};
ghost use Rattle.surject_arena.specs.SetCalls.{StartsEmpty, StartsWithCapacities, ClearsSets, IsSetAdded, IsAbsorbed, InsertsSet, InsertsKey, UnitesSets, RemovesKey, IsKeyReplaced, IsValueReplaced, IsKeySetApart, SplitsKey, ReplacesValueOf, SwapsValuesOf, CopiesSets, ReadsKey, ReadsValue, CountsKeys, GrowsKeys};

use crate::compression::{Names, compress_keys, compress_values, places_of};
use crate::iter::{Iter, all_keys};
use crate::key_set::{KeySet, keys_from};
use crate::keys::{is_in_set, key_after, leave_ring, put_into, redirect, set_of};
use crate::members::{Counted, Member};
use crate::values::{release, replace_value, set_size, size_of, swap_values, take_value};
use arena_ptr::{
    AllocError, AnyPointer, ChainInsertionError, GenKey, InvalidationOption, InvalidationResult,
    InxKey, PtrKey, ReallocationError,
};
use arena_traits::{ArenaTrait, PlainArenaTrait};
use chain_links::LinkInsertKind;
use chain_traits::ChainArenaTrait;
use std::alloc::Global;
use std::marker::{Model, PhantomData};

/// An arena of keys in sets, each set with one value.
///
/// A pointer is valid if it is that of a key. Overflows are those of the counter of keys. On error,
/// only `insert` changes the arena: the capacity for keys may grow.
///
/// Named as `triple_arena::SurjectArena`.
#[derive(Drop)]
pub struct SurjectArena<
    P: PtrKey,
    K: Drop,
    V: Drop,
    A: ChainArenaTrait<P, Member<P, K>> + Drop,
    B: PlainArenaTrait<P, Counted<V>> + Drop,
> {
    pub(crate) keys: A,
    pub(crate) values: B,
    pub(crate) redirected: u128,
    pub(crate) of: PhantomData<(P, K, V)>,
}

impl<
    P: PtrKey,
    K: Drop,
    V: Drop,
    A: ChainArenaTrait<P, Member<P, K>> + Drop,
    B: PlainArenaTrait<P, Counted<V>> + Drop,
> Model for SurjectArena<P, K, V, A, B> {
    ghost use Rattle.surject_arena.specs.Partitions.{surjection_of, set_in, size_in, IsPartition};
    ghost use Rattle.surject_arena.specs.Surjections.{Surjection};

    ghost Value = { Surjection P.Gen K V };

    ghost view = { λ s. surjection_of P.key (A.view s.keys) (B.view s.values) s.redirected };

    ghost invariant = { λ s. IsPartition (set_in P.key (A.entry s.keys)) (A.interlinks s.keys)
        (size_in (B.entry s.values)) };
}

impl<
    P: PtrKey,
    K: Drop,
    V: Drop,
    A: ChainArenaTrait<P, Member<P, K>> + Drop,
    B: PlainArenaTrait<P, Counted<V>> + Drop,
> SurjectArena<P, K, V, A, B> {
    ghost use Rattle.surject_arena.specs.contracts.surject.SurjectArena.{the_row};

    /// Returns an empty arena without allocating.
    pub fn new(alloc: Global) -> Self
        ensures { StartsEmpty P.Gen.first result }
    {
        SurjectArena {
            keys: A::new(alloc),
            values: B::new(alloc),
            redirected: 0,
            of: PhantomData,
        }
    }

    /// Returns an empty arena with at least these capacities.
    ///
    /// # Errors
    ///
    /// - `AllocError`: a capacity exceeds the greatest index or a new maximum, or an allocation
    ///   failed.
    pub fn with_capacity(alloc: Global, keys: usize, values: usize) -> Result<Self, AllocError>
        ensures { StartsWithCapacities P.Gen.first P.Inx.greatest keys values result }
    {
        let keys = match A::with_min_capacity(alloc, keys) {
            Ok(keys) => keys,
            Err(e) => return Err(e),
        };
        match B::with_min_capacity(alloc, values) {
            Ok(values) => Ok(SurjectArena {
                keys,
                values,
                redirected: 0,
                of: PhantomData,
            }),
            Err(e) => Err(e),
        }
    }

    /// Returns the number of keys.
    pub fn len_keys(&self) -> usize
        ensures { result ≡ count self.now.keys }
    {
        self.keys.len()
    }

    /// Returns the number of values.
    pub fn len_vals(&self) -> usize
        ensures { result ≡ count self.now.values }
    {
        self.values.len()
    }

    /// Returns the capacity for keys.
    pub fn capacity_keys(&self) -> usize
        ensures { result ≡ self.now.keys.capacity }
    {
        self.keys.capacity()
    }

    /// Returns the capacity for values.
    pub fn capacity_vals(&self) -> usize
        ensures { result ≡ self.now.values.capacity }
    {
        self.values.capacity()
    }

    /// Returns how many keys unions have redirected, at most 2^128 - 1.
    pub fn redirected(&self) -> u128
        ensures { result ≡ self.now.redirected }
    {
        self.redirected
    }

    /// States that each key has a value, and each value its counted keys, at least one.
    pub fn invariants(&self)
        ensures { IsSurjection self.now }
    {
        let _ = &self.keys;
    }

    /// States that the keys ascend by index.
    pub fn keys_ascend(&self)
        ensures { AscendsFrom 1 self.now.keys.entries }
    {
        self.keys.agrees();
    }

    /// Returns whether `p` is valid.
    pub fn contains(&self, p: P) -> bool
        ensures { IsTrue result ↔ IsKey self.now (P.key p) }
    {
        self.keys.contains(p)
    }

    /// Returns whether two pointers are of keys in one set.
    pub fn in_same_set(&self, p: P, q: P) -> bool
        ensures { IsTrue result ↔ AreInOneSet self.now (P.key p) (P.key q) }
    {
        match set_of(&self.keys, p) {
            Some(w) => is_in_set(&self.keys, q, w),
            None => false,
        }
    }

    /// Returns the number of keys in the set of `p`, if valid.
    pub fn len_key_set(&self, p: P) -> Option<usize>
        ensures { CountsKeys P.key self.now p result }
    {
        match set_of(&self.keys, p) {
            Some(w) => Some(size_of(&self.values, w)),
            None => None,
        }
    }

    /// Returns the key of `p`, if valid.
    pub fn get_key(&self, p: P) -> Option<&K>
        ensures { ReadsKey P.key self.now p result }
    {
        match self.keys.get(p) {
            Some(e) => Some(&e.key),
            None => None,
        }
    }

    /// Returns the value of the set of `p`, if valid.
    pub fn get_val(&self, p: P) -> Option<&V>
        ensures { ReadsValue P.key self.now p result }
    {
        match set_of(&self.keys, p) {
            Some(w) => match self.values.get(w) {
                Some(e) => Some(&e.value),
                None => None,
            },
            None => None,
        }
    }

    /// Returns an iterator over the pointers of the set of `p`, from `p` on, if valid.
    pub fn key_set(&self, p: P) -> Option<KeySet<'_, P, K, A>>
        ensures { ListsSet self.now P.key p result }
    {
        keys_from(&self.keys, p)
    }

    /// Returns an iterator over the pointers of all keys, by ascending index.
    pub fn iter(&self) -> Iter<'_, P, K, A>
        ensures { result ≡ all_pointers self.now }
    {
        all_keys(&self.keys)
    }

    /// Returns the key of `p` for writing, if valid.
    pub fn get_key_mut(&mut self, p: P) -> Option<&mut K>
        ensures* writes_back { sem 𝓛 (LendsSo
            (the_row P.row K.row V.row A.row B.row P.Inx.row P.Gen.row P.Inx.Word.row
            A.ChainPtrAdvancer.row A.PtrAdvancer.row B.PtrAdvancer.row P.PtrKey P.Inx.InxKey
            P.Gen.GenKey (chain_members A.interlinks A.walker A.inserts A.connects A.breaks_prev
            A.breaks_next A.exchanges A.reverses A.moves A.splices A.compresses_canonically)
            A.ArenaTrait A.PtrAdvancer.Advancer A.ChainPtrAdvancer.Advancer
            (plain_members B.inserts B.swaps) B.ArenaTrait B.PtrAdvancer.Advancer)
            K.row self.entry result
            (λ new k. IfSome result (λ was. IsKeyReplaced self.old new (P.key p) k was.now))
            (λ new. new ≡ self.old)) }
        ensures some { IsSome result ↔ IsKey self.old (P.key p) }
        ensures key { IfSome result (λ k. key_at self.old (P.key p).0
            ≡ Some ((P.key p).1, k.now)) }
    {
        match self.keys.get_mut(p) {
            Some(e) => Some(&mut e.key),
            None => None,
        }
    }

    /// Returns the value of the set of `p` for writing, if valid.
    pub fn get_val_mut(&mut self, p: P) -> Option<&mut V>
        ensures* writes_back { sem 𝓛 (LendsSo
            (the_row P.row K.row V.row A.row B.row P.Inx.row P.Gen.row P.Inx.Word.row
            A.ChainPtrAdvancer.row A.PtrAdvancer.row B.PtrAdvancer.row P.PtrKey P.Inx.InxKey
            P.Gen.GenKey (chain_members A.interlinks A.walker A.inserts A.connects A.breaks_prev
            A.breaks_next A.exchanges A.reverses A.moves A.splices A.compresses_canonically)
            A.ArenaTrait A.PtrAdvancer.Advancer A.ChainPtrAdvancer.Advancer
            (plain_members B.inserts B.swaps) B.ArenaTrait B.PtrAdvancer.Advancer)
            V.row self.entry result
            (λ new t. IfSome result (λ was. IsValueReplaced self.old new (P.key p) t was.now))
            (λ new. new ≡ self.old)) }
        ensures some { IsSome result ↔ IsKey self.old (P.key p) }
        ensures value { IfSome result (λ t. (w : ℕ × P.Gen) × (n : ℕ)
            × IsKeyOf self.old w (P.key p) × HasValue self.old w t.now n) }
    {
        match set_of(&self.keys, p) {
            Some(w) => match self.values.get_mut(w) {
                Some(e) => Some(&mut e.value),
                None => None,
            },
            None => None,
        }
    }

    fn reserve_key(&mut self) -> Result<(), ReallocationError>
        ensures outcome { IsGrowthResult (RefusesOneMore self.old.keys)
            (λ done. GrowsForOneMore P.Inx.greatest self.old.keys self.new.keys) result }
        ensures free { IfOk result (λ done. HasFreeCapacity self.new.keys) }
        ensures same { GrowsKeys self.old self.new }
        ensures err { OnErr result (self.new ≡ self.old) }
    {
        let n = self.keys.len();
        self.keys.reallocate_min_capacity(n + 1)
    }

    fn insert_within_keys(&mut self, k: K, v: V) -> Result<P, ReallocationError>
        requires { HasFreeCapacity self.old.keys }
        ensures outcome { IsGrowthResult (RefusesOneMore self.old.values)
            (λ p. IsSetAdded self.old self.new k v (P.key p)
            × (self.new.keys.capacity ≡ self.old.keys.capacity)
            × GrowsForOneMore P.Inx.greatest self.old.values self.new.values) result }
        ensures err { OnErr result (self.new ≡ self.old) }
    {
        let w = match self
            .values
            .insert_reallocating(Counted { value: v, size: 1 })
        {
            Ok(w) => w,
            Err(e) => return Err(e),
        };
        match self.keys.insert_within_capacity(
            LinkInsertKind::SingleLinkCyclic,
            Member { key: k, set: w },
        ) {
            Ok(p) => Ok(p),
            Err(_) => unreachable!(),
        }
    }

    /// Inserts a key into its own set with the value `v`, and returns its pointer.
    ///
    /// # Errors
    ///
    /// - `BeyondMaxCapacity`: a maximum is reached.
    /// - `AllocError`: an allocation failed, or the greatest index is reached.
    pub fn insert(&mut self, k: K, v: V) -> Result<P, ReallocationError>
        ensures outcome { InsertsSet P.key P.Inx.greatest self.old k v result self.new }
        ensures err { OnErr result (GrowsKeys self.old self.new) }
    {
        match self.reserve_key() {
            Ok(()) => self.insert_within_keys(k, v),
            Err(e) => Err(e),
        }
    }

    /// Inserts a key into the set of `p` and returns its pointer.
    ///
    /// # Errors
    ///
    /// - `FailedLinkRequirement`: `p` is invalid.
    /// - `BeyondMaxCapacity`: the maximum of keys is reached.
    /// - `AllocError`: an allocation failed, or the greatest index is reached.
    pub fn insert_key(&mut self, p: P, k: K) -> Result<P, ChainInsertionError>
        ensures outcome { InsertsKey P.key P.Inx.greatest self.old p k result self.new }
        ensures err { OnErr result (self.new ≡ self.old) }
    {
        self.keys.invariants();
        let w = match set_of(&self.keys, p) {
            Some(w) => w,
            None => return Err(ChainInsertionError::FailedLinkRequirement),
        };
        match self
            .keys
            .insert_reallocating(LinkInsertKind::NextTo(p), Member { key: k, set: w })
        {
            Ok(q) => {
                let n = size_of(&self.values, w);
                set_size(&mut self.values, w, n + 1);
                Ok(q)
            }
            Err(e) => Err(e),
        }
    }

    /// Removes a key, and with the last key of its set the value, and returns both.
    pub fn remove_key(&mut self, p: P) -> InvalidationResult<(K, Option<V>)>
        ensures outcome { RemovesKey ⟦<P as AnyPointer>⟧.pointers self.old p result self.new }
        ensures invalid { IfNone (value_within result) (self.new ≡ self.old) }
    {
        self.keys.agrees();
        match self.keys.remove(p) {
            InvalidationResult::Success(m) => {
                InvalidationResult::Success((m.key, release(&mut self.values, m.set)))
            }
            InvalidationResult::GenerationOverflow(m) => {
                InvalidationResult::GenerationOverflow((m.key, release(&mut self.values, m.set)))
            }
            InvalidationResult::InvalidPtr => InvalidationResult::InvalidPtr,
        }
    }

    fn beside(&self, p: P) -> Option<P>
        ensures some { IfSome result (λ q. AreInOneSet self.now (P.key p) (P.key q)
            × SharesSet self.now (P.key p) × ((P.key q).0 ≢ (P.key p).0)) }
        ensures none { IfNone result (IsKey self.now (P.key p) → IsAlone self.now (P.key p)) }
    {
        let q = key_after(&self.keys, p)?;
        if q.is_same(p) {
            return None;
        }
        Some(q)
    }

    fn remove_others(&mut self, p: P) -> Option<bool>
        ensures { MatchOption result ((IsKey self.old (P.key p) → ⊥) × (self.new ≡ self.old))
            (λ wrapped. IsSetReduced self.old self.new P.Gen.wraps P.Gen.following (P.key p) wrapped
            × IsAlone self.new (P.key p)) }
    {
        if !self.contains(p) {
            return None;
        }
        self.invariants();
        let mut wrapped = false;
        while let Some(q) = self.beside(p) {
            self.keys_ascend();
            let (_, overflow) = self.remove_key(q).overflowing();
            wrapped |= overflow;
        }
        Some(wrapped)
    }

    /// Removes the set of `p` and returns its value.
    ///
    /// The counter of keys is incremented for each key.
    pub fn remove(&mut self, p: P) -> InvalidationResult<V>
        ensures outcome { RemovesSet self.old self.new ⟦<P as AnyPointer>⟧.pointers p result }
        ensures invalid { IfNone (value_within result) (self.new ≡ self.old) }
    {
        let wrapped = match self.remove_others(p) {
            Some(wrapped) => wrapped,
            None => return InvalidationResult::InvalidPtr,
        };
        self.invariants();
        self.keys_ascend();
        let (removed, overflow) = self.remove_key(p).overflowing();
        match removed {
            Some((_, value)) => match value {
                Some(v) => InvalidationResult::from_overflow(wrapped | overflow, v),
                None => unreachable!(),
            },
            None => unreachable!(),
        }
    }

    /// Replaces the value of the set of `p` and returns the former one, if valid.
    pub fn replace_val(&mut self, p: P, v: V) -> Option<V>
        ensures outcome { ReplacesValueOf P.key self.old p v result self.new }
        ensures none { IfNone result (self.new ≡ self.old) }
    {
        match set_of(&self.keys, p) {
            Some(w) => replace_value(&mut self.values, w, v),
            None => None,
        }
    }

    /// Exchanges the values of the sets of `p` and `q`, if both are valid.
    pub fn swap_vals(&mut self, p: P, q: P) -> Option<()>
        ensures outcome { SwapsValuesOf P.key self.old p q result self.new }
        ensures none { IfNone result (self.new ≡ self.old) }
    {
        let v = set_of(&self.keys, p)?;
        let w = set_of(&self.keys, q)?;
        if v.is_same(w) {
            return Some(());
        }
        swap_values(&mut self.values, v, w);
        Some(())
    }

    fn set_apart(&mut self, p: P, w: P, v: V) -> Result<(), ReallocationError>
        requires key { IsKeyOf self.old (P.key w) (P.key p) }
        requires shared { (t : V) (n : ℕ) → HasValue self.old (P.key w) t n → 1 < n }
        ensures outcome { IsGrowthResult (RefusesOneMore self.old.values)
            (λ done. IsKeySetApart self.old self.new (P.key p) v
            × GrowsForOneMore P.Inx.greatest self.old.values self.new.values) result }
        ensures err { OnErr result (self.new ≡ self.old) }
    {
        let n = size_of(&self.values, w);
        let own = match self
            .values
            .insert_reallocating(Counted { value: v, size: 1 })
        {
            Ok(own) => own,
            Err(e) => return Err(e),
        };
        set_size(&mut self.values, w, n - 1);
        put_into(&mut self.keys, p, own);
        leave_ring(&mut self.keys, p);
        Ok(())
    }

    /// Moves a key into its own set with the value `v`, or if it was alone, replaces its value and
    /// returns the former one.
    ///
    /// # Errors
    ///
    /// - `FailedLinkRequirement`: `p` is invalid.
    /// - `BeyondMaxCapacity`: the key is not alone, and the maximum of values is reached.
    /// - `AllocError`: the key is not alone, and an allocation failed or the greatest index is
    ///   reached.
    pub fn split_key(&mut self, p: P, v: V) -> Result<Option<V>, ChainInsertionError>
        ensures outcome { SplitsKey P.key P.Inx.greatest self.old p v result self.new }
        ensures err { OnErr result (self.new ≡ self.old) }
    {
        let w = match set_of(&self.keys, p) {
            Some(w) => w,
            None => return Err(ChainInsertionError::FailedLinkRequirement),
        };
        if size_of(&self.values, w) > 1 {
            return match self.set_apart(p, w, v) {
                Ok(()) => Ok(None),
                Err(e) => Err(ChainInsertionError::from(e)),
            };
        }
        Ok(replace_value(&mut self.values, w, v))
    }

    /// Removes all keys and values; the capacities stay.
    pub fn clear(&mut self) -> InvalidationOption<()>
        ensures { ClearsSets ⟦<P as AnyPointer>⟧.pointers self.old result self.new }
    {
        self.values.clear();
        self.keys.clear()
    }

    /// Moves the keys, and the values, to the indexes from 1, in their order.
    ///
    /// In that order, `map` gets each key's old pointer, the key, and its new pointer. With `reset`
    /// both counters become two; otherwise each is incremented if there are entries.
    ///
    /// # Errors
    ///
    /// - `AllocError`: an allocation failed; `map` is not called.
    pub fn compress_with<F: FnMut(P, &mut K, P) + Drop>(
        &mut self,
        alloc: Global,
        reset: bool,
        map: F,
    ) -> Result<InvalidationOption<()>, AllocError>
        requires { F.IsAlwaysCallable map }
        ensures outcome { CompressesSets ⟦<P as AnyPointer>⟧.pointers self.old reset result
            self.new }
        ensures visits { IfOk result (λ _. VisitsAll F.FnMut P.key map (keys_in self.old)
            (keys_in self.new)) }
        ensures err { OnErr result (self.new ≡ self.old) }
    {
        let places = match places_of(&self.values, alloc) {
            Ok(places) => places,
            Err(_) => return Err(AllocError),
        };
        let first = compress_values(&mut self.values, reset);
        let names = Names { places, first };
        Ok(compress_keys(&mut self.keys, reset, &names, map))
    }

    /// Compacts as `compress_with` does, without a closure.
    ///
    /// # Errors
    ///
    /// - `AllocError`: an allocation failed.
    pub fn compress(
        &mut self,
        alloc: Global,
        reset: bool,
    ) -> Result<InvalidationOption<()>, AllocError>
        ensures outcome { CompressesSets ⟦<P as AnyPointer>⟧.pointers self.old reset result
            self.new }
        ensures keys { IfOk result (λ _. values_in (keys_in self.new)
            ≡ values_in (keys_in self.old)) }
        ensures err { OnErr result (self.new ≡ self.old) }
    {
        self.compress_with(alloc, reset, |_p: P, _k: &mut K, _q: P| {})
    }

    fn absorb(&mut self, p: P, v: P, q: P, w: P) -> V
        requires first { IsKeyOf self.old (P.key v) (P.key p) }
        requires second { IsKeyOf self.old (P.key w) (P.key q) }
        requires differ { P.key v ≢ P.key w }
        ensures { IsAbsorbed self.old self.new P.Gen.following (P.key v) (P.key w) result }
    {
        self.keys.invariants();
        let n = size_of(&self.values, v);
        let m = size_of(&self.values, w);
        redirect(&mut self.keys, q, v);
        self.keys.exchange_next(p, q);
        self.redirected = self.redirected.saturating_add(m as u128);
        set_size(&mut self.values, v, n + m);
        match take_value(&mut self.values, w) {
            Some(t) => t,
            None => unreachable!(),
        }
    }

    /// Unites the sets of `p` and `q`, redirecting each key of the smaller one.
    ///
    /// The larger set, or that of `p` if equal, keeps its value. Returns the other value and
    /// pointer, or `None` unless there are two sets.
    pub fn union(&mut self, p: P, q: P) -> Option<(V, P)>
        ensures outcome { UnitesSets P.key P.Gen.following self.old p q result self.new }
        ensures none { IfNone result (self.new ≡ self.old) }
    {
        let v = set_of(&self.keys, p)?;
        let w = set_of(&self.keys, q)?;
        if v.is_same(w) {
            return None;
        }
        if size_of(&self.values, v) < size_of(&self.values, w) {
            return Some((self.absorb(q, w, p, v), p));
        }
        Some((self.absorb(p, v, q, w), q))
    }
}
