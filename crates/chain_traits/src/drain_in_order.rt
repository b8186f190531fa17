ghost use Rattle.std.specs.Prelude.{◌≡◌, IsSome};
ghost use Rattle.std.specs.Option.{option_map};
ghost use Rattle.chain_laws.specs.Chains.{IsWellLinked, prev_of};
ghost use Rattle.chain_traits.specs.DrainOrder.{HasNextChain, CanTakeNext, IsNextLink, IsStoredNextChain, IsStoredStart, TakesLink};

use crate::chain_traits::ChainArenaTrait;
use arena_core::proved_unreachable;
use arena_ptr::{InvalidationOption, InxKey, PtrKey};
use arena_traits::Advancer;
use chain_links::walk_direction::step_on;

fn before<Q: PtrKey, U: Drop, A: ChainArenaTrait<Q, U>>(source: &A, i: Q::Inx) -> Option<Q::Inx>
    ensures { option_map Q.Inx.number result ≡ prev_of (A.interlinks source.now) (Q.Inx.number i) }
{
    match source.get_inx_link_no_gen(i) {
        Some((_, link)) => link.prev(),
        None => None,
    }
}

fn start_of<Q: PtrKey, U: Drop, A: ChainArenaTrait<Q, U>>(source: &A, i: Q::Inx) -> Q::Inx
    requires agree { IsWellLinked (A.interlinks source.now) }
    requires some { IsSome (A.entry source.now (Q.Inx.number i)) }
    ensures { IsStoredStart (A.entry source.now) (A.interlinks source.now) (Q.Inx.number i)
        (Q.Inx.number result) }
{
    let mut at = i;
    for step in 0..source.len() {
        match before(source, at) {
            Some(k) => {
                if k.is_same(i) {
                    return i;
                }
                at = k;
            }
            None => return at,
        }
    }
    proved_unreachable!()
}

fn next_chain<Q: PtrKey, U: Drop, A: ChainArenaTrait<Q, U>>(
    source: &A,
    advancer: &mut A::PtrAdvancer,
) -> (Q::Inx, bool)
    requires { HasNextChain (A.view source.now) (A.interlinks source.now) (A.cursor advancer.old) }
    ensures { IsStoredNextChain (A.entry source.now) (A.view source.now) (A.interlinks source.now)
        (Q.Inx.number result.0) result.1 (A.cursor advancer.new) }
{
    match advancer.advance(source) {
        Some(q) => {
            let start = start_of(source, q.inx());
            (start, before(source, start).is_some())
        }
        None => proved_unreachable!(),
    }
}

/// A removed link.
#[derive(Drop)]
pub struct Taken<Q: PtrKey, U: Drop> {
    pub ptr: Q,
    /// `GenerationOverflow`: the source's counter overflowed.
    pub value: InvalidationOption<U>,
    /// The next index in its chain, if another.
    pub next: Option<Q::Inx>,
    pub is_cyclic: bool,
}

fn next_link<Q: PtrKey, U: Drop, A: ChainArenaTrait<Q, U>>(
    source: &A,
    advancer: &mut A::PtrAdvancer,
    on: Option<Q::Inx>,
    ring: bool,
) -> (Q::Inx, bool)
    requires { CanTakeNext (A.view source.now) (A.interlinks source.now) Q.Inx.number
        (A.entry source.now) on (A.cursor advancer.old) }
    ensures order { IsNextLink (A.view source.now) (A.interlinks source.now) Q.Inx.number on ring
        (A.cursor advancer.old) (Q.Inx.number result.0) result.1 (A.cursor advancer.new) }
    ensures some { IsSome (A.entry source.now (Q.Inx.number result.0)) }
{
    match on {
        Some(i) => (i, ring),
        None => next_chain(source, advancer),
    }
}

/// Removes the link at `on`, or else the first of the next chain.
pub fn take_next<Q: PtrKey, U: Drop, A: ChainArenaTrait<Q, U>>(
    source: &mut A,
    advancer: &mut A::PtrAdvancer,
    on: Option<Q::Inx>,
    ring: bool,
) -> Taken<Q, U>
    requires { CanTakeNext (A.view source.old) (A.interlinks source.old) Q.Inx.number
        (A.entry source.old) on (A.cursor advancer.old) }
    ensures order { IsNextLink (A.view source.old) (A.interlinks source.old) Q.Inx.number on ring
        (A.cursor advancer.old) (Q.key result.ptr).0 result.is_cyclic (A.cursor advancer.new) }
    ensures taken { TakesLink Q.Gen.following Q.Gen.wraps (A.entry source.old) (A.view source.old)
        (A.view source.new) (A.interlinks source.old) (A.interlinks source.new)
        (Q.key result.ptr).0 (Q.key result.ptr).1 result.value
        (option_map Q.Inx.number result.next) }
{
    let (i, is_cyclic) = next_link(source, advancer, on, ring);
    take_link(source, i, is_cyclic)
}

fn take_link<Q: PtrKey, U: Drop, A: ChainArenaTrait<Q, U>>(
    source: &mut A,
    i: Q::Inx,
    is_cyclic: bool,
) -> Taken<Q, U>
    requires { IsSome (A.entry source.old (Q.Inx.number i)) }
    ensures index { (Q.key result.ptr).0 ≡ Q.Inx.number i }
    ensures cyclic { result.is_cyclic ≡ is_cyclic }
    ensures taken { TakesLink Q.Gen.following Q.Gen.wraps (A.entry source.old) (A.view source.old)
        (A.view source.new) (A.interlinks source.old) (A.interlinks source.new) (Q.Inx.number i)
        (Q.key result.ptr).1 result.value (option_map Q.Inx.number result.next) }
{
    let (entry, overflow) = source.remove_inx_link_no_gen(i).overflowing();
    match entry {
        Some((generation, link)) => Taken {
            ptr: Q::_from_raw(i, generation),
            next: step_on(i, link.next()),
            value: InvalidationOption::from_overflow(overflow, link.t),
            is_cyclic,
        },
        None => proved_unreachable!(),
    }
}
