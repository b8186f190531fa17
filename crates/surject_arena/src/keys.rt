// Calls on the keys, with one cyclic chain for each set.
ghost use Rattle.std.specs.Prelude.{◌≡◌, ◌↔◌, ℕ, List, [], ◌∷◌, ◌++◌, Some, IsTrue, IsSome, IfSome};
ghost use Rattle.std.specs.Option.{option_map, option_and_then};
ghost use Rattle.arena_traits.specs.Arena.{IsValid};
ghost use Rattle.arena_traits.specs.Entries.{view_with_value};
ghost use Rattle.chain_laws.specs.Chains.{cyclic, IsChain, prev_of, next_of};
ghost use Rattle.chain_links.specs.CallEffects.{IsExchanged};
ghost use Rattle.chain_links.specs.ChainArena.{ptr_at};
ghost use Rattle.surject_arena.specs.Partitions.{member, set_in, IsRedirection};
ghost use Rattle.surject_arena.specs.declared.members.Member.{Member};

use crate::members::Member;
use arena_ptr::{InxKey, PtrKey};
use chain_traits::ChainArenaTrait;
use chain_traits::walks::for_each_in_chain;

pub(crate) fn set_of<P: PtrKey, K: Drop, A: ChainArenaTrait<P, Member<P, K>>>(
    keys: &A,
    p: P,
) -> Option<P>
    ensures some { IsSome result ↔ IsValid (A.entry keys.now) (P.key p) }
    ensures set { IfSome result (λ w. set_in P.key (A.entry keys.now) (P.key p).0
        ≡ Some (P.key w)) }
{
    match keys.get(p) {
        Some(e) => Some(e.set),
        None => None,
    }
}

pub(crate) fn is_in_set<P: PtrKey, K: Drop, A: ChainArenaTrait<P, Member<P, K>>>(
    keys: &A,
    p: P,
    w: P,
) -> bool
    ensures { IsTrue result ↔ (IsValid (A.entry keys.now) (P.key p)
        × (set_in P.key (A.entry keys.now) (P.key p).0 ≡ Some (P.key w))) }
{
    match keys.get(p) {
        Some(e) => e.set.is_same(w),
        None => false,
    }
}

pub(crate) fn put_into<P: PtrKey, K: Drop, A: ChainArenaTrait<P, Member<P, K>>>(
    keys: &mut A,
    p: P,
    w: P,
)
    ensures { (m : Member P K) → A.entry keys.old (P.key p).0 ≡ Some ((P.key p).1, m)
        → (A.view keys.new ≡ view_with_value (A.view keys.old) (P.key p).0 (member m.key w))
        × (A.interlinks keys.new ≡ A.interlinks keys.old) }
{
    match keys.get_mut(p) {
        Some(e) => e.set = w,
        None => {}
    }
}

fn before<P: PtrKey, K: Drop, A: ChainArenaTrait<P, Member<P, K>>>(keys: &A, p: P) -> Option<P>
    ensures { IsValid (A.entry keys.now) (P.key p) → option_map P.key result
        ≡ option_and_then (ptr_at (A.entry keys.now))
        (prev_of (A.interlinks keys.now) (P.key p).0) }
{
    match keys.get_link(p) {
        Some(link) => link.prev(),
        None => None,
    }
}

pub(crate) fn key_after<P: PtrKey, K: Drop, A: ChainArenaTrait<P, Member<P, K>>>(
    keys: &A,
    p: P,
) -> Option<P>
    ensures some { IsSome result → IsValid (A.entry keys.now) (P.key p) }
    ensures after { IsValid (A.entry keys.now) (P.key p) → option_map P.key result
        ≡ option_and_then (ptr_at (A.entry keys.now))
        (next_of (A.interlinks keys.now) (P.key p).0) }
{
    match keys.get_link(p) {
        Some(link) => link.next(),
        None => None,
    }
}

pub(crate) fn leave_ring<P: PtrKey, K: Drop, A: ChainArenaTrait<P, Member<P, K>>>(
    keys: &mut A,
    p: P,
)
    ensures { (x : List ℕ) (j : ℕ) → IsValid (A.entry keys.old) (P.key p)
        → IsChain (A.interlinks keys.old) (cyclic ((P.key p).0 ∷ x ++ j ∷ []))
        → IsExchanged A.state A.interlinks keys.old keys.new (P.key p).0 j }
{
    keys.agrees();
    match before(&*keys, p) {
        Some(q) => {
            keys.exchange_next(p, q);
        }
        None => {}
    }
}

pub(crate) fn redirect<P: PtrKey, K: Drop, A: ChainArenaTrait<P, Member<P, K>>>(
    keys: &mut A,
    q: P,
    w: P,
)
    ensures { IsRedirection A.state A.interlinks P.key keys.old q w keys.new }
{
    for_each_in_chain(keys, q, |_p: P, e: &mut Member<P, K>| e.set = w);
}
