// Compressions of both arenas.
ghost use Rattle.std.specs.Prelude.{◌≡◌, ℕ, ◌<◌, ◌≤◌, map, All, IfOk, OnErr, Some, slice_index_or};
ghost use Rattle.arena_core.specs.Numbers.{IsWithin};
ghost use Rattle.arena_traits.specs.CallOutcomes.{CompressesEntries};
ghost use Rattle.arena_traits.specs.Compressions.{IsCompressed, IsVisit, VisitsAll, values_in};
ghost use Rattle.arena_traits.specs.Entries.{count, index_of};
ghost use Rattle.chain_laws.specs.Renamings.{IsRenaming};
ghost use Rattle.surject_arena.specs.Renames.{HasPlaces, IsRenamed, AreMatched, keys_of, visit};
ghost use Rattle.surject_arena.specs.SetCompressions.{place_among};

use crate::members::{Counted, Member};
use arena_ptr::{AnyPointer, GenKey, InvalidationOption, InxKey, PtrKey};
use arena_traits::{Advancer, ArenaTrait};
use chain_traits::ChainArenaTrait;
use std::alloc::{AllocError, Global};

fn index_number<P: PtrKey>(p: P) -> usize
    ensures { result ≡ (P.key p).0 }
{
    match p.inx().try_into_usize() {
        Some(i) => i,
        None => unreachable!(),
    }
}

// Places by former index, and the first value's new pointer.
#[derive(Drop)]
pub(crate) struct Names<P: PtrKey> {
    pub(crate) places: Vec<usize>,
    pub(crate) first: P,
}

impl<P: PtrKey> Names<P> {
    pub(crate) fn new_name(&self, w: P) -> P
        ensures { (k : ℕ) → slice_index_or self.now.places.items (P.key w).0 0 ≡ k → 1 ≤ k
            → k ≤ P.Inx.greatest → P.key result ≡ (k, (P.key self.now.first).1) }
    {
        let place = match self.places.get(index_number(w)) {
            Some(n) => *n,
            None => 0,
        };
        match P::Inx::try_from_usize(place) {
            Some(i) => P::_from_raw(i, self.first.generation()),
            None => w,
        }
    }
}

pub(crate) fn places_of<P: PtrKey, V: Drop, B: ArenaTrait<P, Counted<V>>>(
    values: &B,
    alloc: Global,
) -> Result<Vec<usize>, AllocError>
    ensures places { IfOk result (λ t. HasPlaces (map index_of (B.view values.now).entries)
        t.items) }
    ensures err { OnErr result (0 < count (B.view values.now)) }
{
    values.len();
    let mut all = values.advancer();
    let mut places = Vec::new(alloc);
    let mut n = 0;
    while let Some(p) = all.advance(values) {
        let i = index_number(p);
        n += 1;
        places.resize(i, 0)?;
        places.push(n)?;
    }
    Ok(places)
}

pub(crate) fn compress_values<P: PtrKey, V: Drop, B: ArenaTrait<P, Counted<V>>>(
    values: &mut B,
    reset: bool,
) -> P
    ensures compressed { IsCompressed P.Gen.first P.Gen.following reset (B.view values.old)
        (B.view values.new) }
    ensures values { values_in (B.view values.new).entries ≡ values_in (B.view values.old).entries }
    ensures generations { All (λ e. e.0.1 ≡ (P.key result).1) (B.view values.new).entries }
    ensures indexes { All (λ e. IsWithin P.Inx.greatest (index_of e)) (B.view values.new).entries }
{
    let _overflow = values.compress(reset);
    values.len();
    match values.find_first_inx_ptr() {
        Some(q) => q,
        None => P::invalid(),
    }
}

#[derive(Drop)]
struct KeyVisitor<'a, P: PtrKey, F> {
    names: &'a Names<P>,
    map: F,
}

impl<'a, P: PtrKey, F> KeyVisitor<'a, P, F> {
    fn visit<K: Drop>(&mut self, p: P, e: &mut Member<P, K>, q: P)
    where
        F: FnMut(P, &mut K, P) + Drop,
        requires { F.IsAlwaysCallable self.old.map }
        ensures callable { F.IsAlwaysCallable self.new.map }
        ensures names { self.new.names.now ≡ self.old.names.now }
        ensures set { IsRenamed P.key self.old.names.now.places.items
            (P.key self.old.names.now.first).1 P.Inx.greatest e.old e.new }
        ensures key { IsVisit F.FnMut self.old.map (visit p e.old.key q e.new.key) self.new.map }
    {
        e.set = self.names.new_name(e.set);
        (self.map)(p, &mut e.key, q);
    }
}

// `reset` states nothing, but splits the goals, so the closure's proof is short.
fn compress_members<
    P: PtrKey,
    K: Drop,
    A: ArenaTrait<P, Member<P, K>>,
    F: FnMut(P, &mut Member<P, K>, P) + Drop,
>(keys: &mut A, reset: bool, map: F) -> InvalidationOption<()>
    requires callable { F.IsAlwaysCallable map }
    requires reset { reset ≡ reset }
    ensures outcome { CompressesEntries A.state ⟦<P as AnyPointer>⟧.pointers keys.old reset result
        keys.new }
    ensures visits { VisitsAll F.FnMut P.key map (A.view keys.old).entries
        (A.view keys.new).entries }
    ensures implementation { A.compresses keys.old keys.new }
{
    keys.compress_with(reset, map)
}

pub(crate) fn compress_keys<
    P: PtrKey,
    K: Drop,
    A: ChainArenaTrait<P, Member<P, K>>,
    F: FnMut(P, &mut K, P) + Drop,
>(keys: &mut A, reset: bool, names: &Names<P>, map: F) -> InvalidationOption<()>
    requires { F.IsAlwaysCallable map }
    ensures outcome { CompressesEntries A.state ⟦<P as AnyPointer>⟧.pointers keys.old reset result
        keys.new }
    ensures links { IsRenaming (place_among (A.view keys.old).entries) (A.interlinks keys.old)
        (A.interlinks keys.new) }
    ensures visits { VisitsAll F.FnMut P.key map (keys_of (A.view keys.old).entries)
        (keys_of (A.view keys.new).entries) }
    ensures sets { AreMatched (λ e f. IsRenamed P.key names.now.places.items
        (P.key names.now.first).1 P.Inx.greatest e.1 f.1) (A.view keys.old).entries
        (A.view keys.new).entries }
{
    let mut visitor = KeyVisitor { names, map };
    compress_members(
        keys,
        reset,
        |p: P, e: &mut Member<P, K>, q: P|
            requires { F.IsAlwaysCallable visitor.map }
            ensures callable { F.IsAlwaysCallable visitor.exit.map }
            ensures names { visitor.exit.names.now ≡ visitor.entry.names.now }
            ensures set { IsRenamed P.key visitor.entry.names.now.places.items
                (P.key visitor.entry.names.now.first).1 P.Inx.greatest e.old e.new }
            ensures key { IsVisit F.FnMut visitor.entry.map (visit p e.old.key q e.new.key)
                visitor.exit.map }
        {
            visitor.visit(p, e, q);
        },
    )
}
