// Calls on the values.
ghost use Rattle.std.specs.Prelude.{◌≡◌, ◌≢◌, ◌≤◌, ◌<◌, ◌-◌, ℕ, Some, None};
ghost use Rattle.arena_traits.specs.Entries.{view_with_value, view_after_removal};
ghost use Rattle.surject_arena.specs.Partitions.{counted, size_in};

use crate::members::Counted;
use arena_ptr::{GenKey, InxKey, PtrKey};
use arena_traits::{ArenaTrait, PlainArenaTrait};
use std::mem;

pub(crate) fn size_of<P: PtrKey, V: Drop, B: ArenaTrait<P, Counted<V>>>(values: &B, w: P) -> usize
    ensures { (n : ℕ) → size_in (B.entry values.now) (P.key w).0 ≡ Some ((P.key w).1, n)
        → result ≡ n }
{
    match values.get(w) {
        Some(e) => e.size,
        None => 0,
    }
}

pub(crate) fn set_size<P: PtrKey, V: Drop, B: ArenaTrait<P, Counted<V>>>(
    values: &mut B,
    w: P,
    n: usize,
)
    ensures { (t : V) (m : ℕ) → B.entry values.old (P.key w).0 ≡ Some ((P.key w).1, counted t m)
        → B.view values.new ≡ view_with_value (B.view values.old) (P.key w).0 (counted t n) }
{
    match values.get_mut(w) {
        Some(e) => e.size = n,
        None => {}
    }
}

pub(crate) fn replace_value<P: PtrKey, V: Drop, B: ArenaTrait<P, Counted<V>>>(
    values: &mut B,
    w: P,
    t: V,
) -> Option<V>
    ensures { (was : V) (n : ℕ) → B.entry values.old (P.key w).0 ≡ Some ((P.key w).1, counted was n)
        → (result ≡ Some was)
        × (B.view values.new ≡ view_with_value (B.view values.old) (P.key w).0 (counted t n)) }
{
    match values.get_mut(w) {
        Some(e) => Some(mem::replace(&mut e.value, t)),
        None => None,
    }
}

// Each set keeps its number of keys.
pub(crate) fn swap_values<P: PtrKey, V: Drop, B: PlainArenaTrait<P, Counted<V>>>(
    values: &mut B,
    v: P,
    w: P,
)
    ensures { (P.key v).0 ≢ (P.key w).0 → (t u : V) (n m : ℕ)
        → B.entry values.old (P.key v).0 ≡ Some ((P.key v).1, counted t n)
        → B.entry values.old (P.key w).0 ≡ Some ((P.key w).1, counted u m)
        → B.view values.new ≡ view_with_value (view_with_value (B.view values.old) (P.key v).0
        (counted u n)) (P.key w).0 (counted t m) }
{
    let n = size_of(&*values, v);
    let m = size_of(&*values, w);
    set_size(values, v, m);
    set_size(values, w, n);
    values.swap(v, w);
}

pub(crate) fn take_value<P: PtrKey, V: Drop, B: ArenaTrait<P, Counted<V>>>(
    values: &mut B,
    w: P,
) -> Option<V>
    ensures { (t : V) (n : ℕ) → B.entry values.old (P.key w).0 ≡ Some ((P.key w).1, counted t n)
        → (result ≡ Some t)
        × (B.view values.new ≡ view_after_removal P.Gen.following (B.view values.old) (P.key w).0) }
{
    match values.remove(w).allow() {
        Some(e) => Some(e.value),
        None => None,
    }
}

pub(crate) fn release<P: PtrKey, V: Drop, B: ArenaTrait<P, Counted<V>>>(
    values: &mut B,
    w: P,
) -> Option<V>
    ensures many { (t : V) (n : ℕ) → B.entry values.old (P.key w).0
        ≡ Some ((P.key w).1, counted t n) → 1 < n → (result ≡ None)
        × (B.view values.new
        ≡ view_with_value (B.view values.old) (P.key w).0 (counted t (n - 1))) }
    ensures last { (t : V) (n : ℕ) → B.entry values.old (P.key w).0
        ≡ Some ((P.key w).1, counted t n) → n ≤ 1 → (result ≡ Some t)
        × (B.view values.new ≡ view_after_removal P.Gen.following (B.view values.old) (P.key w).0) }
{
    let n = size_of(&*values, w);
    if n > 1 {
        set_size(values, w, n - 1);
        return None;
    }
    take_value(values, w)
}
